//! Worked histories of what a gateway receives and answers, frame by frame.
ghost use Rattle.std.specs.Prelude.{◌≤◌, length};

use crate::traffic::{
    answer, answered_by, block, confirmed, confirmed_by, expect_all_flags, expect_flags,
    expect_octets, expect_received, expect_silence, frame, gateway, headed, hear_try, next_flags,
    octets_of, status,
};
use dmr_data::{Header, Octets, Packet, Rate, ShortData, split_packet};
use dmr_gateway::{Gateway, Received};
use dmr_record::ReceivedKind;
use std::process::Abort;

/// What is taken next came in this slot, from this radio.
fn expect_from(rt: &impl Abort, gateway: &mut Gateway, slot: u8, source: u32) {
    let is_from = match gateway.take_received() {
        Some(received) => received.slot == slot && received.source == source,
        None => false,
    };
    assert!(rt; is_from);
}

// What came in slot 1 is taken first, and what isn't taken goes when its slot is heard again.
#[test]
fn first_slot_first(rt: HostRuntime) {
    let mut gateway = gateway(&rt, rt.alloc());
    gateway.heard(2, Some(&status(3, 5)));
    gateway.heard(1, Some(&status(4, 6)));
    expect_from(&rt, &mut gateway, 1, 4);
    expect_from(&rt, &mut gateway, 2, 3);
    gateway.heard(2, Some(&status(3, 5)));
    gateway.heard(2, None);
    expect_received(&rt, &mut gateway, None);
}

/// Radio 2 sends a packet of 64 blocks, of which the first and the last are lost, and an answer begins.
fn first_try(rt: &impl Abort, gateway: &mut Gateway, packet: &Packet) {
    let mut serials = [0; 64];
    for (place, serial) in serials.iter_mut().enumerate() {
        *serial = place;
    }
    let _ = frame(gateway, Some(confirmed(true, 64)));
    let header = hear_try(gateway, packet, &serials, &[0, 63]);
    assert!(rt; octets_of(&header) == answer(1, 0x80));
}

/// What the gateway has of a confirmed packet of radio 2 with these octets.
fn received(octets: &[u8]) -> Option<Received>
    requires fits { length octets.now ≤ 3044 }
{
    Some(Received {
        slot: 1,
        kind: ReceivedKind::Datagram,
        source: 2,
        octets: Octets::from_slice(octets),
    })
}

/// The blocks that were lost come in a try of their own. It gives this, and is acknowledged.
fn retry(rt: &impl Abort, gateway: &mut Gateway, packet: &Packet, wanted: Option<Received>) {
    let _ = frame(gateway, Some(confirmed(false, 2)));
    let _ = hear_try(gateway, packet, &[0, 63], &[]);
    expect_received(rt, gateway, wanted);
    expect_octets(rt, gateway, &answer(0, 0x08));
}

// The retry once more is acknowledged, and gives nothing.
#[test]
fn confirmed_packet_received(rt: HostRuntime) {
    let mut gateway = gateway(&rt, rt.alloc());
    let packet = split_packet(&[5; 636], Rate::Half, true);
    first_try(&rt, &mut gateway, &packet);
    let wanted = [0xFE, 0xFF, 0xFF, 0xFF, 0xFF, 0xFF, 0xFF, 0x7F];
    expect_flags(&rt, &mut gateway, &wanted);
    expect_all_flags(&rt, &mut gateway, &[]);
    retry(&rt, &mut gateway, &packet, received(&[5; 636]));
    retry(&rt, &mut gateway, &packet, None);
}

/// The first block comes twice in a try of both that were lost, and the last one is asked for.
fn first_block_twice(rt: &impl Abort, gateway: &mut Gateway, packet: &Packet) {
    let _ = frame(gateway, Some(confirmed(false, 2)));
    let _ = hear_try(gateway, packet, &[0, 0], &[]);
    expect_received(rt, gateway, None);
    expect_octets(rt, gateway, &answer(1, 0x80));
    let wanted = [0xFF, 0xFF, 0xFF, 0xFF, 0xFF, 0xFF, 0xFF, 0x7F];
    expect_flags(rt, gateway, &wanted);
}

// The first block twice, in place of the last one, is one block.
#[test]
fn same_serial_twice(rt: HostRuntime) {
    let mut gateway = gateway(&rt, rt.alloc());
    let packet = split_packet(&[5; 636], Rate::Half, true);
    first_try(&rt, &mut gateway, &packet);
    let _ = next_flags(&mut gateway);
    first_block_twice(&rt, &mut gateway, &packet);
    first_block_twice(&rt, &mut gateway, &packet);
}

/// Radio 2 sends a packet of 127 blocks, of which the first, the last and another are lost, and is answered so.
fn try_of_127_blocks(rt: &impl Abort, gateway: &mut Gateway, packet: &Packet) {
    let mut serials = [0; 127];
    for (place, serial) in serials.iter_mut().enumerate() {
        *serial = place;
    }
    let _ = frame(gateway, Some(confirmed(true, 127)));
    let header = hear_try(gateway, packet, &serials, &[0, 64, 126]);
    assert!(rt; octets_of(&header) == answer(2, 0x80));
    let wanted = [
        0xFE, 0xFF, 0xFF, 0xFF, 0xFF, 0xFF, 0xFF, 0xFF, 0xFE, 0xFF, 0xFF, 0xFF,
    ];
    expect_all_flags(rt, gateway, &wanted);
    expect_flags(rt, gateway, &[0xFF, 0xFF, 0xFF, 0x3F, 0, 0, 0, 0]);
}

// Radio 2 sends a packet of 127 blocks, of which the first, the last and another are lost, and then these again.
#[test]
fn packet_of_127_blocks(rt: HostRuntime) {
    let mut gateway = gateway(&rt, rt.alloc());
    let packet = split_packet(&[5; 1266], Rate::Half, true);
    try_of_127_blocks(&rt, &mut gateway, &packet);
    let _ = frame(&mut gateway, Some(confirmed(false, 3)));
    let busy = hear_try(&mut gateway, &packet, &[0, 64, 126], &[]);
    assert!(rt; busy.is_none());
    expect_received(&rt, &mut gateway, received(&[5; 1266]));
    expect_octets(&rt, &mut gateway, &answer(0, 0x08));
}

// Thirteen bits of padding are one pad octet.
#[test]
fn short_data_with_odd_padding(rt: HostRuntime) {
    let mut gateway = gateway(&rt, rt.alloc());
    let packet = split_packet(&[1, 2, 3, 4, 5, 6, 7], Rate::Half, false);
    let header = Header::ShortData(ShortData {
        group: false,
        wanted: false,
        blocks: 1,
        destination: 1,
        source: 2,
        data_format: 0,
        resynchronize: false,
        full: true,
        bit_padding: 13,
    });
    let _ = frame(&mut gateway, Some(headed(&header)));
    let _ = frame(&mut gateway, block(&packet, 0));
    let wanted = Received {
        slot: 1,
        kind: ReceivedKind::ShortData,
        source: 2,
        octets: Octets::from_slice(&[1, 2, 3, 4, 5, 6, 7]),
    };
    expect_received(&rt, &mut gateway, Some(wanted));
    expect_silence(&rt, &mut gateway, None);
}

// Behind the header of an answer that asks for some blocks again, to whomever, flags stand, and no block.
#[test]
fn flags_for_another_radio(rt: HostRuntime) {
    let mut gateway = gateway(&rt, rt.alloc());
    let packet = split_packet(&[5; 26], Rate::Half, true);
    let _ = frame(&mut gateway, Some(confirmed(true, 3)));
    let _ = frame(&mut gateway, block(&packet, 0));
    let _ = frame(&mut gateway, Some(answered_by(8, 9, 2, 0, 1)));
    let _ = frame(&mut gateway, block(&packet, 2));
    expect_octets(&rt, &mut gateway, &answer(1, 0x80));
    expect_flags(&rt, &mut gateway, &[0x01, 0, 0, 0, 0, 0, 0, 0]);
}

// An answer to radio 2 is cut by the header of a try of radio 3, begins again in its first place, and is replaced in its last one.
#[test]
fn replaced_answer(rt: HostRuntime) {
    let mut gateway = gateway(&rt, rt.alloc());
    let _ = frame(&mut gateway, Some(confirmed_by(2, true, 1)));
    expect_octets(&rt, &mut gateway, &answer(1, 0x80));
    expect_silence(&rt, &mut gateway, Some(confirmed_by(3, true, 2)));
    expect_octets(&rt, &mut gateway, &answer(1, 0x80));
    let other = [0x01, 0x40, 0, 0, 3, 0, 0, 1, 1, 0x80];
    expect_octets(&rt, &mut gateway, &other);
    expect_flags(&rt, &mut gateway, &[0; 8]);
    expect_silence(&rt, &mut gateway, None);
}
