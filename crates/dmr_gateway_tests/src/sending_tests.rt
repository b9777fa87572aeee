//! Worked histories of what a gateway sends, frame by frame.
ghost use Rattle.std.specs.Prelude.{◌<◌};

use crate::traffic::{
    answered, block, control, expect_burst, expect_letter, expect_octets, expect_silence, frame,
    gateway, letter, octets_of, offer, outgoing, outgoing_in,
};
use dmr_burst::Burst;
use dmr_data::{Packet, Rate, split_packet};
use dmr_gateway::{Gateway, GatewayFault, Outcome};
use dmr_test_values::{EMPTY_DATAGRAM, OTHER_TIME_TO_LIVE};
use std::alloc::Global;
use std::process::Abort;

/// A frame in which the line repeats this, or nothing: the letter of what is sent, and what becomes of a packet.
fn expect_frame(
    rt: &impl Abort,
    gateway: &mut Gateway,
    number: usize,
    repeated: Option<Burst>,
    wanted: u8,
    outcome: Option<Outcome>,
) {
    let burst = letter(&frame(gateway, repeated));
    let is_right = burst == wanted && gateway.take_outcome() == outcome;
    assert!(rt; is_right, "frame {number}");
}

// A datagram for frame 5; a control block is repeated in frame 6 and cuts the try.
#[test]
fn datagram_sent(rt: HostRuntime) {
    let mut gateway = gateway(&rt, rt.alloc());
    for (number, wanted) in b".....P.PPHB.....".iter().enumerate() {
        if number == 5 {
            offer(&rt, &mut gateway, false, &EMPTY_DATAGRAM);
        }
        let repeated = if number == 6 { Some(control()) } else { None };
        let outcome = if number == 10 {
            Some(Outcome::Sent)
        } else {
            None
        };
        expect_frame(&rt, &mut gateway, number, repeated, *wanted, outcome);
    }
}

// Its first preamble, which is sent anew in frame 7: three bursts follow.
#[test]
fn preamble_octets(rt: HostRuntime) {
    let mut gateway = gateway(&rt, rt.alloc());
    for _ in 0..5u8 {
        expect_silence(&rt, &mut gateway, None);
    }
    offer(&rt, &mut gateway, false, &EMPTY_DATAGRAM);
    expect_burst(&rt, &mut gateway);
    expect_silence(&rt, &mut gateway, Some(control()));
    let wanted = [0xBD, 0x00, 0x80, 0x03, 0x00, 0x00, 0x02, 0x00, 0x00, 0x01];
    expect_octets(&rt, &mut gateway, &wanted);
}

// Its header: no response is wanted, one pad octet, the service access point of compressed datagrams, F, and one block.
#[test]
fn unconfirmed_header_octets(rt: HostRuntime) {
    let mut gateway = gateway(&rt, rt.alloc());
    offer(&rt, &mut gateway, false, &EMPTY_DATAGRAM);
    let _ = frame(&mut gateway, None);
    let _ = frame(&mut gateway, None);
    let wanted = [0x02, 0x31, 0x00, 0x00, 0x02, 0x00, 0x00, 0x01, 0x81, 0x00];
    expect_octets(&rt, &mut gateway, &wanted);
}

// A datagram without a compressed form goes as it is, in the service access point of IP.
#[test]
fn other_time_to_live(rt: HostRuntime) {
    let mut gateway = gateway(&rt, rt.alloc());
    offer(&rt, &mut gateway, false, &OTHER_TIME_TO_LIVE);
    expect_letter(&rt, &mut gateway, None, b'P', 0);
    expect_letter(&rt, &mut gateway, None, b'P', 1);
    let header = octets_of(&frame(&mut gateway, None));
    assert!(rt; header[1] / 16 == 4 && header[8] == 0x83);
}

// Nine datagrams wait, and the packet in hand isn't counted.
#[test]
fn full_queue(rt: HostRuntime) {
    let mut gateway = gateway(&rt, rt.alloc());
    for _ in 0..9u8 {
        offer(&rt, &mut gateway, false, &EMPTY_DATAGRAM);
    }
    let fault = GatewayFault::QueueFull;
    expect_refused(&rt, &mut gateway, false, &EMPTY_DATAGRAM, fault);
    let other = gateway.offer(&outgoing_in(2, false, &EMPTY_DATAGRAM));
    assert!(rt; other.is_ok());
    expect_letter(&rt, &mut gateway, None, b'P', 0);
    offer(&rt, &mut gateway, false, &EMPTY_DATAGRAM);
}

/// To an address that is no radio's and no group's.
const ELSEWHERE: [u8; 28] = [
    0x45, 0x00, 0x00, 0x1C, 0x12, 0x34, 0x00, 0x00, 0x40, 0x11, 0x50, 0x9B, 0x0C, 0x00, 0x00, 0x01,
    0x0A, 0x00, 0x00, 0x02, 0x13, 0x98, 0x13, 0x9A, 0x00, 0x08, 0xC0, 0xA9,
];

/// To group 9.
const TO_A_GROUP: [u8; 28] = [
    0x45, 0x00, 0x00, 0x1C, 0x12, 0x34, 0x00, 0x00, 0x40, 0x11, 0x50, 0x9B, 0x0C, 0x00, 0x00, 0x01,
    0xE1, 0x00, 0x00, 0x09, 0x13, 0x98, 0x13, 0x9A, 0x00, 0x08, 0xC0, 0xA9,
];

/// A gateway refuses a datagram for this, which is the first of its faults.
fn expect_refused(
    rt: &impl Abort,
    gateway: &mut Gateway,
    confirmed: bool,
    octets: &[u8],
    fault: GatewayFault,
) {
    let offered = gateway.offer(&outgoing(confirmed, octets));
    assert!(rt; offered == Err(fault), "{fault}");
}

/// A gateway refuses datagrams of each kind.
fn expect_refusals(rt: &impl Abort, gateway: &mut Gateway) {
    expect_refused(rt, gateway, false, &[0x45; 1401], GatewayFault::TooLong);
    expect_refused(rt, gateway, false, &ELSEWHERE, GatewayFault::NoRoute);
    let fault = GatewayFault::GroupConfirmed;
    expect_refused(rt, gateway, true, &TO_A_GROUP, fault);
    expect_refused(rt, gateway, true, &[10; 1267], GatewayFault::TooLong);
}

// What is refused changes nothing.
#[test]
fn refused_offers(rt: HostRuntime) {
    let mut gateway = gateway(&rt, rt.alloc());
    expect_refusals(&rt, &mut gateway);
    assert!(rt; frame(&mut gateway, None).is_none());
}

/// Both send the same burst in a frame in which nothing is repeated, and the first of all is one.
fn expect_same(rt: &impl Abort, left: &mut Gateway, right: &mut Gateway, place: u8) {
    let sent = frame(left, None);
    let is_same = sent == frame(right, None);
    assert!(rt; is_same && (place > 0 || sent.is_some()), "burst {place}");
}

// A gateway that refused datagrams sends the next one as one does that was never offered them.
#[test]
fn datagram_behind_refused_ones(rt: HostRuntime) {
    let mut refusing = gateway(&rt, rt.alloc());
    let mut other = gateway(&rt, rt.alloc());
    expect_refusals(&rt, &mut refusing);
    offer(&rt, &mut refusing, false, &EMPTY_DATAGRAM);
    offer(&rt, &mut other, false, &EMPTY_DATAGRAM);
    for place in 0..6u8 {
        expect_same(&rt, &mut refusing, &mut other, place);
    }
}

// With another destination its checksum is wrong, so that it has no compressed form: three blocks, which count five bursts.
#[test]
fn datagram_to_a_group(rt: HostRuntime) {
    let mut gateway = gateway(&rt, rt.alloc());
    offer(&rt, &mut gateway, false, &TO_A_GROUP);
    let preamble = [0xBD, 0x00, 0xC0, 0x05, 0x00, 0x00, 0x09, 0x00, 0x00, 0x01];
    expect_octets(&rt, &mut gateway, &preamble);
}

#[test]
fn longest_datagrams(rt: HostRuntime) {
    let mut gateway = gateway(&rt, rt.alloc());
    let mut octets = [0; 1400];
    octets[0] = 0x45;
    octets[16] = 12;
    offer(&rt, &mut gateway, true, &octets[..1266]);
    let fault = GatewayFault::TooLong;
    expect_refused(&rt, &mut gateway, true, &octets[..1267], fault);
    offer(&rt, &mut gateway, false, &octets);
}

#[test]
fn unanswered_try(rt: HostRuntime) {
    let mut gateway = gateway(&rt, rt.alloc());
    for (number, wanted) in b".....PPHBB......".iter().enumerate() {
        if number == 5 {
            offer(&rt, &mut gateway, true, &EMPTY_DATAGRAM);
        }
        expect_frame(&rt, &mut gateway, number, None, *wanted, None);
    }
}

/// What a gateway sends in a frame, in which an acknowledgement may be heard.
fn sent(gateway: &mut Gateway, is_acknowledged: bool) -> u8 {
    let repeated = if is_acknowledged {
        Some(answered(0, 1, 0))
    } else {
        None
    };
    letter(&frame(gateway, repeated))
}

/// A confirmed datagram of frame 5, of which an acknowledgement is heard in a frame: its tries begin in these, and it ends so.
fn expect_tries(
    rt: &impl Abort,
    alloc: Global,
    heard: u32,
    begins: &[u32],
    ends: u32,
    outcome: Outcome,
) {
    let mut gateway = gateway(rt, alloc);
    let mut last = b'.';
    for number in 0..=ends {
        if number == 5 {
            offer(rt, &mut gateway, true, &EMPTY_DATAGRAM);
        }
        let burst = sent(&mut gateway, number == heard);
        let begun = burst == b'P' && last != b'P';
        last = burst;
        let told = if number == ends { Some(outcome) } else { None };
        let is_right = begun == begins.contains(&number) && gateway.take_outcome() == told;
        assert!(rt; is_right, "frame {number}");
    }
}

#[test]
fn tries_without_an_answer(rt: HostRuntime) {
    let begins = [5, 29, 53, 77];
    expect_tries(&rt, rt.alloc(), 1000, &begins, 101, Outcome::GivenUp);
}

#[test]
fn acknowledgement_in_the_last_frame_in_which_it_counts(rt: HostRuntime) {
    expect_tries(&rt, rt.alloc(), 29, &[5], 29, Outcome::Delivered);
}

// It cuts the second try.
#[test]
fn acknowledgement_that_comes_too_late(rt: HostRuntime) {
    let begins = [5, 29, 31, 55];
    expect_tries(&rt, rt.alloc(), 30, &begins, 79, Outcome::GivenUp);
}

/// A try that is cut behind so many bursts begins again from its first preamble.
fn expect_begun_again(rt: &impl Abort, alloc: Global, out: u8) {
    let mut gateway = gateway(rt, alloc);
    offer(rt, &mut gateway, true, &EMPTY_DATAGRAM);
    for _ in 0..out {
        expect_burst(rt, &mut gateway);
    }
    expect_silence(rt, &mut gateway, Some(control()));
    for (number, wanted) in b"PPHBB.".iter().enumerate() {
        expect_letter(rt, &mut gateway, None, *wanted, number);
    }
}

#[test]
fn try_cut_at_each_place(rt: HostRuntime) {
    for out in 1..5u8 {
        expect_begun_again(&rt, rt.alloc(), out);
    }
}

/// Sends a confirmed datagram of two blocks in frames 5 to 9, and hears an answer that asks for its second block again, with
/// its header in this frame and its flags in the next. Gives the header of the try that comes of it.
fn asked_again(rt: &impl Abort, alloc: Global, heard: u32) -> [u8; 10] {
    let mut gateway = gateway(rt, alloc);
    let flags = split_packet(&[1, 0, 0, 0, 0, 0, 0, 0], Rate::Half, false);
    let mut header = [0; 10];
    for number in 0..36u32 {
        if number == 5 {
            offer(rt, &mut gateway, true, &EMPTY_DATAGRAM);
        }
        let repeated = if number == heard {
            Some(answered(2, 0, 1))
        } else if heard < number && number - heard == 1 {
            block(&flags, 0)
        } else {
            None
        };
        let burst = frame(&mut gateway, repeated);
        if letter(&burst) == b'H' {
            header = octets_of(&burst);
        }
    }
    header
}

// Frame 29 is the last in which it counts: F is 0, and one block follows. With its header in that frame the flags come too late,
// and the whole packet is tried again.
#[test]
fn flags_in_the_last_frame(rt: HostRuntime) {
    assert!(rt; asked_again(&rt, rt.alloc(), 28)[8] == 0x01);
    assert!(rt; asked_again(&rt, rt.alloc(), 29)[8] == 0x82);
}

/// A packet of 65 blocks is sent: two preambles, its header, and its blocks.
fn send_65_blocks(rt: &impl Abort, gateway: &mut Gateway) {
    let mut octets = [0; 646];
    octets[0] = 0x45;
    octets[16] = 12;
    octets[19] = 2;
    offer(rt, gateway, true, &octets);
    for _ in 0..68u8 {
        expect_burst(rt, gateway);
    }
    expect_silence(rt, gateway, None);
}

/// An answer with these flags, in so many blocks, is heard behind it: whether another try begins.
fn expect_counted(rt: &impl Abort, alloc: Global, flags: &Packet, count: u8, is_tried: bool)
    requires blocks { count < 128 }
{
    let mut gateway = gateway(rt, alloc);
    send_65_blocks(rt, &mut gateway);
    let _ = frame(&mut gateway, Some(answered(2, 0, count)));
    for place in 0..usize::from(count) {
        let _ = frame(&mut gateway, block(flags, place));
    }
    let begins = letter(&frame(&mut gateway, None)) == b'P';
    assert!(rt; begins == is_tried);
}

// An answer that asks for some of its blocks again counts with two blocks of flags, not with one.
#[test]
fn one_flag_block_for_65(rt: HostRuntime) {
    let one = split_packet(&[0xFE, 0, 0, 0, 0, 0, 0, 0], Rate::Half, false);
    expect_counted(&rt, rt.alloc(), &one, 1, false);
    let two = split_packet(&[0xFE; 20], Rate::Half, false);
    expect_counted(&rt, rt.alloc(), &two, 2, true);
}
