//! The packets of captures. The octets at which they begin are counted in the digits, and their times are those that tshark tells.
ghost use Rattle.std.specs.Prelude.{◌≡◌, ◌≤◌, false, length};

use crate::captures::{
    COOKED, COOKED_2, DATAGRAM, ETHERNET, HOTSPOT, HOTSPOT_IN_BLOCKS, RAW, SECTIONS, TWICE,
    TWICE_BY_EDITCAP, front,
};
use crate::comparing::{are_same, expect_octets, octets_of};
use dmr_capture::{
    Capture, CaptureFault, PACKET_LIMIT, Packet, ipv4_in, udp_in, write_capture_head, write_packet,
};
use dmr_record::{FromRead, RecordFault, Source, ToWrite};
use dmr_test_devices::{FailsAt, OneByOne};
use std::fmt::Write;
use std::process::Abort;

/// What a packet carries: the datagram of the captures, another IPv4 packet, or none.
fn carried_in(packet: Packet, octets: &[u8]) -> &'static str {
    match ipv4_in(packet.link, octets) {
        Some(carried) if carried == DATAGRAM.as_slice() => "datagram",
        Some(_) => "IPv4",
        None => "none",
    }
}

/// Puts a packet in a line: the octet at which it begins, its link, its time in nanoseconds, its length, and what it carries.
fn put_packet(lines: &mut String, packet: Packet, room: &[u8]) {
    let Packet {
        octet,
        link,
        time,
        length,
    } = packet;
    let octets = room.get(..length as usize).unwrap_or(&[]);
    let carried = carried_in(packet, octets);
    // A line that there is no memory for is missed by who compares.
    let _ = write!(lines, "{octet} {link:?} {time} {length} {carried}\n");
}

/// Puts a last line: the fault.
fn put_fault(lines: &mut String, fault: CaptureFault) {
    let _ = write!(lines, "{fault}");
}

/// Puts the packets of a capture in lines. The last line is `end`, or the fault.
fn put_packets<S: Source>(lines: &mut String, source: &mut S, room: &mut [u8])
    requires source { S.has_failed source.old ≡ false }
    requires room { 262144 ≤ length room.old }
{
    let mut capture = match Capture::begin(source) {
        Ok(capture) => capture,
        Err(fault) => return put_fault(lines, fault),
    };
    for _ in 0..16u8 {
        match capture.next_packet(source, room) {
            Ok(Some(packet)) => put_packet(lines, packet, room),
            Ok(None) => {
                let _ = lines.push_str("end");
                return;
            }
            Err(fault) => return put_fault(lines, fault),
        }
    }
}

/// A source has a capture of these packets.
fn has_lines<S: Source>(rt: &(impl Abort + AllocGlobal), source: &mut S, expected: &str)
    requires source { S.has_failed source.old ≡ false }
{
    let mut room = vec![in rt.alloc(); 0u8; PACKET_LIMIT].expect(rt, "there is room");
    let mut lines = String::new(rt.alloc());
    put_packets(&mut lines, source, room.as_mut_slice());
    are_same(rt, "lines", &lines.as_str(), &expected);
}

/// The first octets of a capture in digits have these packets.
fn expect_lines(rt: &(impl Abort + AllocGlobal), digits: &str, count: usize, lines: &str) {
    let octets = octets_of(rt, digits);
    let octets = octets.get(..count).unwrap_or(octets.as_slice());
    has_lines(rt, &mut FromRead::new(octets), lines);
    // The same, an octet a call.
    has_lines(rt, &mut OneByOne::new(octets), lines);
}

/// More octets than a capture has.
const ALL: usize = usize::MAX;

#[test]
fn packets_of_a_pcap(rt: HostRuntime) {
    expect_lines(
        &rt,
        TWICE,
        ALL,
        "24 Ipv4 5280000000 28 datagram\n68 Ipv4 6270000000 28 datagram\nend",
    );
    expect_lines(
        &rt,
        ETHERNET,
        ALL,
        "24 Ethernet 1000000000000 60 datagram\n\
        100 Ethernet 1000059999999 60 datagram\n\
        176 Ethernet 1000060000000 60 none\n\
        252 Ethernet 1000060000000 60 none\n\
        328 Ethernet 1000060000000 60 IPv4\n\
        404 Ethernet 1000060000000 60 datagram\n\
        480 Ethernet 999000000000 60 datagram\nend",
    );
    expect_lines(
        &rt,
        COOKED,
        ALL,
        "24 LinuxCooked 1000000000 44 datagram\n84 LinuxCooked 1000000000 44 none\nend",
    );
    expect_lines(
        &rt,
        COOKED_2,
        ALL,
        "24 LinuxCooked2 1000000000 48 datagram\n88 LinuxCooked2 1000000000 48 none\nend",
    );
    expect_lines(
        &rt,
        RAW,
        ALL,
        "24 Raw 1000000000 28 datagram\n68 Raw 1000000000 28 none\n112 Raw 1000000000 27 none\nend",
    );
}

#[test]
fn packets_of_a_pcapng(rt: HostRuntime) {
    expect_lines(
        &rt,
        TWICE_BY_EDITCAP,
        ALL,
        "128 Ipv4 5280000000 28 datagram\n188 Ipv4 6270000000 28 datagram\nend",
    );
    expect_lines(
        &rt,
        SECTIONS,
        ALL,
        "96 Ipv4 1700000000000000001 28 datagram\n\
        156 Ethernet 1700000000062500000 60 datagram\n\
        364 Raw 1700000000123456000 28 datagram\nend",
    );
}

#[test]
fn captures_that_are_cut(rt: HostRuntime) {
    expect_lines(&rt, TWICE, 0, "cut head at octet 0");
    expect_lines(&rt, TWICE, 3, "cut head at octet 0");
    expect_lines(&rt, TWICE, 23, "cut head at octet 0");
    expect_lines(&rt, TWICE, 24, "end");
    expect_lines(&rt, TWICE, 25, "cut packet at octet 24");
    expect_lines(&rt, TWICE, 67, "cut packet at octet 24");
    let first = "24 Ipv4 5280000000 28 datagram\ncut packet at octet 68";
    expect_lines(&rt, TWICE, 84, first);
}

#[test]
fn captures_at_fault(rt: HostRuntime) {
    expect_lines(&rt, "444D524901000000", ALL, "no capture");
    // Version 2.3, link type 105, and a packet of 262,145 octets.
    let head = "D4C3B2A1020003000000000000000000FFFF0000E4000000";
    expect_lines(&rt, head, ALL, "no capture");
    let head = "D4C3B2A1020004000000000000000000FFFF000069000000";
    expect_lines(&rt, head, ALL, "link type 105");
    let long = "D4C3B2A1020004000000000000000000FFFF0000E4000000\
        01000000000000000100040001000400";
    expect_lines(&rt, long, ALL, "too long at octet 24");
}

#[test]
fn blocks_that_are_cut(rt: HostRuntime) {
    let all = "48 Ipv4 1000000000 83 IPv4\nend";
    expect_lines(&rt, HOTSPOT_IN_BLOCKS, ALL, all);
    expect_lines(&rt, HOTSPOT_IN_BLOCKS, 163, "cut block at octet 48");
    expect_lines(&rt, HOTSPOT_IN_BLOCKS, 49, "cut block at octet 48");
    expect_lines(&rt, HOTSPOT_IN_BLOCKS, 27, "cut block at octet 0");
}

/// The first block of a pcapng.
const SECTION: &str = "0A0D0D0A1C0000004D3C2B1A01000000FFFFFFFFFFFFFFFF1C000000";

/// Behind the first block these blocks are no packets, and so it ends.
fn expect_end(rt: &(impl Abort + AllocGlobal), blocks: &str, end: &str) {
    let section = SECTION;
    let digits = format!(in rt.alloc(); "{section}{blocks}").expect(rt, "there is room");
    expect_lines(rt, digits.as_str(), ALL, end);
}

#[test]
fn blocks_at_fault(rt: HostRuntime) {
    // A length that is no multiple of four, another length at the end, and a packet of no interface.
    expect_end(&rt, "0B0000000E00000000000E000000", "bad block at octet 28");
    expect_end(&rt, "0B0000000C00000010000000", "bad block at octet 28");
    let packet = "0600000020000000000000000000000000000000000000000000000020000000";
    expect_end(&rt, packet, "bad block at octet 28");
    // An interface that isn't read, alone and with a packet.
    let alone = "010000001400000069000000FFFF000014000000";
    expect_end(&rt, alone, "end");
    let both = "010000001400000069000000FFFF000014000000\
        0600000020000000000000000000000000000000000000000000000020000000";
    expect_end(&rt, both, "link type 105");
    // No order of octets.
    let none = "0A0D0D0A1C0000000000000001000000FFFFFFFFFFFFFFFF1C000000";
    expect_lines(&rt, none, ALL, "bad block at octet 0");
}

/// A section of so many interfaces.
fn interfaces(rt: &(impl Abort + AllocGlobal), count: u16) -> String {
    let mut digits = String::new(rt.alloc());
    assert!(rt; digits.push_str(SECTION).is_ok());
    for _ in 0..count {
        let interface = "0100000014000000E4000000FFFF000014000000";
        assert!(rt; digits.push_str(interface).is_ok());
    }
    digits
}

#[test]
fn interfaces_without_end(rt: HostRuntime) {
    let digits = interfaces(&rt, 257);
    // 28 octets of the section, and 256 interfaces of 20.
    expect_lines(&rt, digits.as_str(), 5_148, "end");
    let many = "too many interfaces at octet 5148";
    expect_lines(&rt, digits.as_str(), ALL, many);
}

/// A source that fails after so many calls has these packets.
fn expect_failing(rt: &(impl Abort + AllocGlobal), calls: u64, lines: &str) {
    let octets = octets_of(rt, TWICE);
    let mut source = FailsAt::new(FromRead::new(octets.as_slice()), calls);
    has_lines(rt, &mut source, lines);
}

#[test]
fn sources_that_fail(rt: HostRuntime) {
    expect_failing(&rt, 0, "read failed at octet 0");
    expect_failing(&rt, 1, "read failed at octet 0");
    expect_failing(&rt, 2, "read failed at octet 24");
    expect_failing(&rt, 3, "read failed at octet 24");
    let first = "24 Ipv4 5280000000 28 datagram\nread failed at octet 68";
    expect_failing(&rt, 4, first);
}

#[test]
fn udp_of_packets(rt: HostRuntime) {
    let octets = octets_of(&rt, HOTSPOT);
    let packet = octets.get(40..).unwrap_or(&[]);
    let udp = udp_in(packet).expect(&rt, "it is UDP");
    are_same(&rt, "source", &udp.source, &62_032);
    are_same(&rt, "destination", &udp.destination, &62_031);
    are_same(&rt, "octets", &udp.payload.len(), &55);
    assert!(rt; udp.payload.get(..4) == Some(b"DMRD".as_slice()));
    // An octet less than its length.
    assert!(rt; udp_in(packet.get(..82).unwrap_or(&[])).is_none());
}

/// With another octet in a place of its capture, the packet of a hotspot has no UDP.
fn expect_no_udp(rt: &(impl Abort + AllocGlobal), at: usize, octet: u8) {
    let mut other = octets_of(rt, HOTSPOT);
    if let Some(place) = other.as_mut_slice().get_mut(at) {
        *place = octet;
    }
    assert!(rt; udp_in(other.get(40..).unwrap_or(&[])).is_none());
}

// The packet begins at octet 40.
#[test]
fn packets_without_udp(rt: HostRuntime) {
    // Another protocol, a fragment that is the first, and a later one.
    expect_no_udp(&rt, 49, 6);
    expect_no_udp(&rt, 46, 0x20);
    expect_no_udp(&rt, 47, 1);
}

#[test]
fn captures_written(rt: HostRuntime) {
    let mut sink = ToWrite::new(Vec::new(rt.alloc()));
    assert!(rt; write_capture_head(&mut sink) == Ok(()));
    assert!(rt; write_packet(&mut sink, 5_280_000, &DATAGRAM) == Ok(()));
    assert!(rt; write_packet(&mut sink, 6_270_000, &DATAGRAM) == Ok(()));
    let written = sink.into_inner();
    expect_octets(&rt, written.as_slice(), TWICE);
}

#[test]
fn written_heads_that_fail(rt: HostRuntime) {
    let mut sink = FailsAt::new(ToWrite::new(Vec::new(rt.alloc())), 0);
    assert!(rt; write_capture_head(&mut sink) == Err(RecordFault::Write));
    assert!(rt; sink.into_inner().into_inner().is_empty());
}

/// A packet behind a head fails at a call, and so many octets are written.
fn expect_torn(rt: &(impl Abort + AllocGlobal), calls: u64, count: usize) {
    let mut sink = FailsAt::new(ToWrite::new(Vec::new(rt.alloc())), calls);
    assert!(rt; write_capture_head(&mut sink) == Ok(()));
    assert!(rt; write_packet(&mut sink, 5_280_000, &DATAGRAM) == Err(RecordFault::Write));
    let written = sink.into_inner().into_inner();
    expect_octets(rt, written.as_slice(), front(TWICE, count));
}

// A head is one write, and a packet two.
#[test]
fn written_packets_that_fail(rt: HostRuntime) {
    expect_torn(&rt, 1, 24);
    expect_torn(&rt, 2, 40);
}
