//! Data through a whole run: datagrams that the gateway sends, and packets and statuses that it receives.
ghost use Rattle.std.specs.Prelude.{◌<◌};

use super::recorded::{expect_letters, letters_of, octets_of, run_sample, slots_of};
use super::samples::{DATAGRAM_SENT, confirmed_packet};
use super::{
    ONE_DATAGRAM, OUTGOING, RECEIVED, Ran, UPLINK, are_same, expect_downlink_of,
    expect_nothing_received, expect_numbers, expect_received, joined, push, run_over, run_pieces,
    summary,
};
use dmr_bits::Bits;
use dmr_bptc::{bptc_decode, bptc_encode};
use dmr_burst::{Burst, Side, data_type, encode_burst, read_info};
use dmr_checks::{Mask, seal};
use dmr_data::{Block, Octets, Packet, Rate, block_info, split_packet};
use dmr_repeater::Summary;
use dmr_test_values::{EMPTY_DATAGRAM, ONE_CSBK};
use std::alloc::Global;
use std::process::Abort;

/// The acknowledgement of the gateway for packet 0 of radio 2, but for its check.
const ACKNOWLEDGED: [u8; 10] = [0x01, 0x40, 0, 0, 2, 0, 0, 1, 0, 0x08];

/// The acknowledgement of radio 2 for packet 0 of radio 1, but for its check.
const ANSWER: [u8; 10] = [0x01, 0x30, 0, 0, 1, 0, 0, 2, 0, 0x08];

/// The outgoing file of one datagram, confirmed.
const CONFIRMED: [&[u8]; 3] = [&OUTGOING, &[2, 0, 0, 0, 5, 1, 1, 0, 28], &EMPTY_DATAGRAM];

/// The burst of a data header that begins with these octets, as a mobile station of colour code 1 sends it.
fn header_burst(octets: &[u8; 10]) -> [u8; 33] {
    let info = bptc_encode(&Bits::<96>::from_octets(&seal(octets, Mask::Header)));
    encode_burst(
        &Burst::Data {
            colour: 1,
            kind: data_type::DATA_HEADER,
            info,
        },
        Side::Ms,
    )
}

/// A status of radio 3 for the gateway, of ports 1 and 2, and 5.
pub fn status_burst() -> [u8; 33] {
    header_burst(&[0x0E, 0xA0, 0, 0, 1, 0, 0, 3, 0x28, 5])
}

/// Appends a frame whose slot 1 has this burst.
fn push_burst(rt: &impl Abort, uplink: &mut Vec<u8>, burst: &[u8; 33]) {
    push(rt, uplink, &[1]);
    push(rt, uplink, burst);
    push(rt, uplink, &[0]);
}

/// The burst of a block of a packet at rate 1/2, as a mobile station of colour code 1 sends it.
fn block_burst(rt: &impl Abort, packet: &Packet, serial: u8) -> [u8; 33]
    requires serial { serial < 127 }
{
    let block = packet
        .blocks
        .get(usize::from(serial))
        .expect(rt, "the packet has it");
    let octets = block
        .octets
        .as_slice()
        .first_chunk::<10>()
        .expect(rt, "it has ten octets");
    let sent = Block {
        serial: Some(serial),
        octets: Octets::from_slice(octets),
    };
    encode_burst(
        &Burst::Data {
            colour: 1,
            kind: data_type::RATE_HALF_DATA,
            info: block_info(&sent, Rate::Half),
        },
        Side::Ms,
    )
}

/// A record of the outgoing file: a datagram, in pieces, for a frame in slot 1.
fn record(rt: &impl Abort, alloc: Global, frame: u8, mode: u8, datagram: &[&[u8]]) -> Vec<u8> {
    let datagram = joined(rt, alloc, datagram);
    let count = u16::try_from(datagram.len()).unwrap_or(0).to_be_bytes();
    joined(
        rt,
        alloc,
        &[&[2, 0, 0, 0, frame, 1, mode], &count, &datagram],
    )
}

/// What slot 1 of the downlink says in a frame, where its burst is one of the product code.
fn said_in(rt: &impl Abort, alloc: Global, ran: &Ran, frame: u16) -> [u8; 12] {
    let slots = slots_of(rt, alloc, &ran.downlink);
    let sent = slots.get(2 * usize::from(frame)).copied().flatten();
    let burst = sent.expect(rt, "the slot isn't silent");
    let bits = bptc_decode(&read_info(&burst)).expect(rt, "the burst is read");
    bits.octets()
}

/// Slot 1 of the downlink says in a frame what begins with these octets.
fn expect_said(rt: &impl Abort, alloc: Global, ran: &Ran, frame: u16, front: &[u8]) {
    let said = said_in(rt, alloc, ran, frame);
    assert!(rt; said.starts_with(front), "in frame {frame}");
}

/// The first record that a run has received is of this frame.
fn expect_received_in(rt: &impl Abort, ran: &Ran, frame: u8) {
    let of_frame = ran.received.get(9..13);
    are_same(
        rt,
        "frame received",
        &of_frame,
        &Some(&[0, 0, 0, frame][..]),
    );
}

// Slot 1 is silent up to the frame of the datagram: a preamble, the block that is repeated, two preambles, header and block.
#[test]
fn datagram_sent(rt: HostRuntime) {
    let uplink: [&[u8]; 4] = [&UPLINK, &[1], &ONE_CSBK, &[0; 19]];
    let ran = run_pieces(&rt, rt.alloc(), &uplink, &ONE_DATAGRAM);
    let want = Summary {
        sent: 1,
        ..summary(16, 1)
    };
    expect_numbers(&rt, &ran, want);
    expect_nothing_received(&rt, &ran);
    expect_letters(&rt, rt.alloc(), &ran, b".....CCCCDrIIIII");
    let preamble = b"\xBD\x00\x80\x03\x00\x00\x02\x00\x00\x01";
    expect_said(&rt, rt.alloc(), &ran, 7, preamble);
}

// Behind the preambles: compressed, rate 1/2, one block from radio 1 to radio 2, and the check.
#[test]
fn unconfirmed_header_octets(rt: HostRuntime) {
    let ran = run_sample(&rt, rt.alloc(), &DATAGRAM_SENT);
    let octets = [0x02, 0x31, 0x00, 0x00, 0x02, 0x00, 0x00, 0x01, 0x81, 0x00];
    expect_said(&rt, rt.alloc(), &ran, 9, &seal(&octets, Mask::Header));
}

/// Behind nine datagrams of frame 0 a tenth is offered in this frame: so many are refused.
fn expect_refused(rt: &impl Abort, alloc: Global, frame: u8, refused: u32) {
    let first = record(rt, alloc, 0, 0, &[&EMPTY_DATAGRAM]);
    let tenth = record(rt, alloc, frame, 0, &[&EMPTY_DATAGRAM]);
    let outgoing: [&[u8]; 11] = [
        &OUTGOING, &first, &first, &first, &first, &first, &first, &first, &first, &first, &tenth,
    ];
    let ran = run_pieces(rt, alloc, &[&UPLINK], &outgoing);
    let want = Summary {
        sent: 1,
        refused,
        ..summary(6, 0)
    };
    expect_numbers(rt, &ran, want);
}

// Nine wait, and a tenth is refused.
#[test]
fn full_queue(rt: HostRuntime) {
    expect_refused(&rt, rt.alloc(), 0, 1);
}

// A frame later the first of them has begun.
#[test]
fn full_queue_a_frame_later(rt: HostRuntime) {
    expect_refused(&rt, rt.alloc(), 1, 0);
}

// To no network of the gateway, confirmed to a group, and too long; and one of a frame that the run hasn't.
#[test]
fn refused_offers(rt: HostRuntime) {
    let front = &EMPTY_DATAGRAM[..16];
    let elsewhere = record(&rt, rt.alloc(), 0, 0, &[front, &[10, 0, 0, 1], &[0; 8]]);
    let group = record(&rt, rt.alloc(), 0, 1, &[front, &[225, 0, 0, 9], &[0; 8]]);
    let long = record(&rt, rt.alloc(), 0, 0, &[front, &[12, 0, 0, 2], &[0; 1381]]);
    let late = record(&rt, rt.alloc(), 6, 0, &[front]);
    let outgoing: [&[u8]; 5] = [&OUTGOING, &elsewhere, &group, &long, &late];
    let ran = run_pieces(&rt, rt.alloc(), &[&UPLINK], &outgoing);
    let want = Summary {
        refused: 3,
        unoffered: 1,
        ..summary(6, 0)
    };
    expect_numbers(&rt, &ran, want);
    expect_downlink_of(&rt, &ran, 8 + 12);
}

// A confirmed packet at rate 1/2 has 1,266 octets at most, and an unconfirmed one 1,400.
#[test]
fn longest_datagrams(rt: HostRuntime) {
    let most_confirmed = record(&rt, rt.alloc(), 0, 1, &[&EMPTY_DATAGRAM, &[0; 1238]]);
    let more_confirmed = record(&rt, rt.alloc(), 0, 1, &[&EMPTY_DATAGRAM, &[0; 1239]]);
    let most = record(&rt, rt.alloc(), 0, 0, &[&EMPTY_DATAGRAM, &[0; 1372]]);
    let outgoing: [&[u8]; 4] = [&OUTGOING, &most_confirmed, &more_confirmed, &most];
    let ran = run_pieces(&rt, rt.alloc(), &[&UPLINK], &outgoing);
    let want = Summary {
        refused: 1,
        ..summary(6, 0)
    };
    expect_numbers(&rt, &ran, want);
}

// Two preambles, the header and two blocks; nothing answers, and the run ends before the next try.
#[test]
fn unanswered_try(rt: HostRuntime) {
    let ran = run_pieces(&rt, rt.alloc(), &[&UPLINK, &[0; 20]], &CONFIRMED);
    expect_numbers(&rt, &ran, summary(16, 0));
    expect_letters(&rt, rt.alloc(), &ran, b".....CCDrrIIIII.");
}

/// In which frames slot 1 of the downlink begins a try: with a preamble behind anything else.
fn tries_in(rt: &impl Abort, alloc: Global, ran: &Ran) -> Vec<usize> {
    let letters = letters_of(rt, alloc, ran);
    let mut tries = Vec::new(alloc);
    let mut before = b'.';
    for (frame, letter) in letters.iter().enumerate() {
        if *letter == b'C' && before != b'C' {
            tries.push(frame).expect(rt, "there is memory");
        }
        before = *letter;
    }
    tries
}

/// The tries in slot 1 of the downlink begin in these frames.
fn expect_tries_in(rt: &impl Abort, alloc: Global, ran: &Ran, frames: &[usize]) {
    let tries = tries_in(rt, alloc, ran);
    are_same(rt, "tries", &tries.as_slice(), &frames);
}

/// Over this uplink, in pieces, the confirmed datagram of frame 5 comes to these numbers, by tries that begin in these frames.
fn expect_tries(rt: &impl Abort, alloc: Global, uplink: &[&[u8]], want: Summary, tries: &[usize]) {
    let ran = run_pieces(rt, alloc, uplink, &CONFIRMED);
    expect_numbers(rt, &ran, want);
    expect_tries_in(rt, alloc, &ran, tries);
}

// The tries begin 20 frames behind the last block; an answer in the last of these frames delivers, and one in the frame behind it
// comes too late and cuts the second try.
#[test]
fn four_tries(rt: HostRuntime) {
    let want = Summary {
        given_up: 1,
        ..summary(156, 0)
    };
    expect_tries(
        &rt,
        rt.alloc(),
        &[&UPLINK, &[0; 300]],
        want,
        &[5, 29, 53, 77],
    );
}

#[test]
fn answer_in_the_last_frame(rt: HostRuntime) {
    let answer = header_burst(&ANSWER);
    let uplink: [&[u8]; 5] = [&UPLINK, &[0; 46], &[1], &answer, &[0; 253]];
    let want = Summary {
        delivered: 1,
        ..summary(156, 1)
    };
    expect_tries(&rt, rt.alloc(), &uplink, want, &[5]);
}

#[test]
fn late_answer(rt: HostRuntime) {
    let answer = header_burst(&ANSWER);
    let uplink: [&[u8]; 5] = [&UPLINK, &[0; 48], &[1], &answer, &[0; 251]];
    let want = Summary {
        given_up: 1,
        ..summary(156, 1)
    };
    expect_tries(&rt, rt.alloc(), &uplink, want, &[5, 29, 31, 55]);
}

// From radio 3, of ports 1 and 2, and 5.
#[test]
fn status_received(rt: HostRuntime) {
    let status = status_burst();
    let ran = run_pieces(
        &rt,
        rt.alloc(),
        &[&UPLINK, &[1], &status, &[0]],
        &[&OUTGOING],
    );
    let want = Summary {
        received: 1,
        ..summary(7, 1)
    };
    expect_numbers(&rt, &ran, want);
    let record = b"\x03\0\0\0\x06\x01\x02\0\0\x03\0\x04\x01\x02\0\x05";
    expect_received(&rt, rt.alloc(), &ran, &[&RECEIVED, record]);
}

// Of 64 blocks the first and the last are missing: an answer asks for them, a retry brings them, and the packet is received.
#[test]
fn confirmed_packet_received(rt: HostRuntime) {
    let ran = run_sample(&rt, rt.alloc(), confirmed_packet());
    let asked = b"\x01\x40\0\0\x02\0\0\x01\x01\x80";
    expect_said(&rt, rt.alloc(), &ran, 70, asked);
    let flags = b"\xFE\xFF\xFF\xFF\xFF\xFF\xFF\x7F";
    expect_said(&rt, rt.alloc(), &ran, 71, flags);
    expect_said(&rt, rt.alloc(), &ran, 89, &ACKNOWLEDGED);
    expect_received_in(&rt, &ran, 88);
}

// The retry comes twice: it is acknowledged each time, and the packet is received once.
#[test]
fn repeated_retry(rt: HostRuntime) {
    let ran = run_sample(&rt, rt.alloc(), confirmed_packet());
    expect_said(&rt, rt.alloc(), &ran, 89, &ACKNOWLEDGED);
    expect_said(&rt, rt.alloc(), &ran, 99, &ACKNOWLEDGED);
    expect_one_record(&rt, &ran, 8 + 12 + 636);
}

/// A run has received one record, in a file of so many octets.
fn expect_one_record(rt: &impl Abort, ran: &Ran, count: usize) {
    let counted = ran.answer.map(|summary| summary.received);
    are_same(rt, "records", &counted, &Ok(1));
    are_same(rt, "octets", &ran.received.len(), &count);
}

/// Some octets of a recording.
fn part(octets: &[u8], from: usize, to: usize) -> &[u8] {
    octets.get(from..to).unwrap_or(&[])
}

/// The recording of the confirmed packet, both retries of which bring the first block twice, and never the last.
fn recording_of_the_first_block(rt: &impl Abort, alloc: Global) -> Vec<u8> {
    let recorded = octets_of(rt, alloc, confirmed_packet().uplink);
    // Frames 0 to 64 have 63 bursts, 65 to 79 none, 80 to 82 three, 83 to 89 none, 90 to 92 three.
    let frame = 35;
    let first = UPLINK.len() + 63 * frame + 2 * 17;
    let behind = first + 3 * frame + 2 * 7 + 3 * frame;
    let front = part(&recorded, 0, first);
    let header_and_block = part(&recorded, first, first + 2 * frame);
    let block = part(&recorded, first + frame, first + 2 * frame);
    let rest = part(&recorded, behind, recorded.len());
    let silence = &[0; 14];
    let pieces = [
        front,
        header_and_block,
        block,
        silence,
        header_and_block,
        block,
        rest,
    ];
    let uplink = joined(rt, alloc, &pieces);
    are_same(rt, "octets", &uplink.len(), &recorded.len());
    uplink
}

// The last block is asked for again.
#[test]
fn same_serial_twice(rt: HostRuntime) {
    let uplink = recording_of_the_first_block(&rt, rt.alloc());
    let ran = run_over(&rt, rt.alloc(), &uplink, &OUTGOING);
    let want = Summary {
        received: 0,
        ..confirmed_packet().summary
    };
    expect_numbers(&rt, &ran, want);
    expect_nothing_received(&rt, &ran);
    let flags = b"\xFF\xFF\xFF\xFF\xFF\xFF\xFF\x7F";
    expect_said(&rt, rt.alloc(), &ran, 90, flags);
    expect_said(&rt, rt.alloc(), &ran, 100, flags);
}

/// A try of a packet of 127 blocks, the first of each 64 and the last of which are missing, and a try of these alone.
fn recording_of_127_blocks(rt: &impl Abort, alloc: Global) -> Vec<u8> {
    let packet = split_packet(&[0x45; 1266], Rate::Half, true);
    let mut uplink = joined(rt, alloc, &[&UPLINK]);
    push_burst(
        rt,
        &mut uplink,
        &header_burst(&[0x43, 0x40, 0, 0, 1, 0, 0, 2, 0xFF, 0x88]),
    );
    for serial in 0..127u8 {
        if matches!(serial, 0 | 64 | 126) {
            push(rt, &mut uplink, &[0, 0]);
        } else {
            push_burst(rt, &mut uplink, &block_burst(rt, &packet, serial));
        }
    }
    push(rt, &mut uplink, &[0; 24]);
    push_burst(
        rt,
        &mut uplink,
        &header_burst(&[0x43, 0x40, 0, 0, 1, 0, 0, 2, 0x03, 0x88]),
    );
    for serial in [0, 64, 126] {
        push_burst(rt, &mut uplink, &block_burst(rt, &packet, serial));
    }
    push(rt, &mut uplink, &[0; 12]);
    uplink
}

// Two blocks of flags ask for the three that are missing.
#[test]
fn packet_of_127_blocks(rt: HostRuntime) {
    let uplink = recording_of_127_blocks(&rt, rt.alloc());
    let ran = run_over(&rt, rt.alloc(), &uplink, &OUTGOING);
    let want = Summary {
        received: 1,
        ..summary(156, 129)
    };
    expect_numbers(&rt, &ran, want);
    let asked = b"\x01\x40\0\0\x02\0\0\x01\x02\x80";
    expect_said(&rt, rt.alloc(), &ran, 133, asked);
    let first = b"\xFE\xFF\xFF\xFF\xFF\xFF\xFF\xFF\xFE\xFF\xFF\xFF";
    expect_said(&rt, rt.alloc(), &ran, 134, first);
    let second = b"\xFF\xFF\xFF\x3F\0\0\0\0";
    expect_said(&rt, rt.alloc(), &ran, 135, second);
    expect_said(&rt, rt.alloc(), &ran, 150, &ACKNOWLEDGED);
    expect_received_in(&rt, &ran, 149);
    let packet = ran.received.get(20..);
    are_same(&rt, "packet", &packet, &Some(&[0x45; 1266][..]));
}

/// The second try in slot 1 of the downlink, from frame 87 up to frame 166, has so many blocks at rate 1/2.
fn expect_second_try(rt: &impl Abort, alloc: Global, ran: &Ran, blocks: usize) {
    let letters = letters_of(rt, alloc, ran);
    let second = part(&letters, 87, 166);
    let count = second.iter().filter(|letter| **letter == b'r').count();
    are_same(rt, "blocks", &count, &blocks);
}

// The gateway sent 65 blocks: an answer that counts one block of flags isn't heard, and 20 frames later the whole packet goes
// again.
#[test]
fn one_flag_block_for_65(rt: HostRuntime) {
    let confirmed = record(&rt, rt.alloc(), 0, 1, &[&EMPTY_DATAGRAM, &[0; 618]]);
    let asked = header_burst(&[1, 0x40, 0, 0, 1, 0, 0, 2, 1, 0x80]);
    let uplink: [&[u8]; 5] = [&UPLINK, &[0; 140], &[1], &asked, &[0; 179]];
    let ran = run_pieces(&rt, rt.alloc(), &uplink, &[&OUTGOING, &confirmed]);
    expect_numbers(&rt, &ran, summary(166, 1));
    // Two preambles, the header and 65 blocks, the last in frame 67; the next try begins in frame 87.
    expect_tries_in(&rt, rt.alloc(), &ran, &[0, 87]);
    expect_second_try(&rt, rt.alloc(), &ran, 65);
}
