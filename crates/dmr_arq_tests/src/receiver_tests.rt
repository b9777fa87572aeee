//! Worked histories of one receiver.
ghost use Rattle.std.specs.Prelude.{◌<◌, ◌^◌};
ghost use Rattle.dmr_data.specs.Header.{IsFitHeader};

use crate::tests::{gives_nothing, one_block, placed};
use dmr_arq::{Answer, Joined, Receiver, ReceiverOut, Verdict};
use dmr_data::{
    Block, Confirmed, Header, Octets, Packet, Rate, ShortData, Unconfirmed, split_packet,
};
use dmr_test_values::DATAGRAM_BLOCK;
use std::process::Abort;

/// The header of a full try of a packet of one block from 2 to 1, of packet 0.
const FIRST: Confirmed = Confirmed {
    group: false,
    wanted: true,
    pad: 5,
    sap: 4,
    destination: 1,
    source: 2,
    full: true,
    blocks: 1,
    resynchronize: false,
    number: 0,
    fragment: 8,
};

/// The header of a packet of one block from 2 to 1 without confirmation.
const ALONE: Unconfirmed = Unconfirmed {
    group: false,
    wanted: false,
    pad: 1,
    sap: 3,
    destination: 1,
    source: 2,
    full: true,
    blocks: 1,
    fragment: 0,
};

/// The header of short data of one block from 2 to 1.
const SHORT: ShortData = ShortData {
    group: false,
    wanted: true,
    blocks: 1,
    destination: 1,
    source: 2,
    data_format: 0,
    resynchronize: false,
    full: true,
    bit_padding: 15,
};

/// The header of a try from 2 to 1, of packet 0, without pad octets.
fn header_of(full: bool, blocks: u8) -> Header
    requires seven_bits { blocks < 2 ^ 7 }
    ensures fit { IsFitHeader result }
{
    Header::Confirmed(Confirmed {
        pad: 0,
        full,
        blocks,
        ..FIRST
    })
}

/// A place of a try that isn't its last, and gives nothing.
fn middle(rt: &impl Abort, receiver: &mut Receiver, block: Option<&Block>) {
    assert!(rt; receiver.open() == Some(Some(64)));
    assert!(rt; gives_nothing(placed(receiver, block)));
}

/// Whether this is the packet that the header of its first try opened.
fn is_whole(joined: &Option<Joined>) -> bool {
    match joined {
        Some(joined) => {
            let body = joined.body.as_slice();
            joined.header == header_of(true, 64)
                && body.len() == 636
                && body.iter().all(|octet| *octet == 5)
        }
        None => false,
    }
}

/// What radio 1 answers to a try of that packet.
fn answer(verdict: Verdict, flags: u128) -> Option<Answer> {
    Some(Answer {
        from: 1,
        to: 2,
        sap: 4,
        number: 0,
        verdict,
        flags,
    })
}

/// The last place of a try: its answer, and whether the packet was delivered.
fn last(rt: &impl Abort, receiver: &mut Receiver, block: Option<&Block>) -> (Option<Answer>, bool) {
    let out = placed(receiver, block);
    assert!(rt; out.is_some() && receiver.open().is_none());
    match out {
        Some(out) => (out.answer, is_whole(&out.delivered)),
        None => (None, false),
    }
}

/// A confirmed packet of 64 blocks.
fn packet_of_64_blocks() -> Packet {
    split_packet(&[5; 636], Rate::Half, true)
}

/// A packet of 64 blocks, of which the first and the last are lost.
fn first_try(rt: &impl Abort, receiver: &mut Receiver, packet: &Packet) {
    receiver.header(&header_of(true, 64));
    middle(rt, receiver, None);
    for serial in 1..63usize {
        middle(rt, receiver, packet.blocks.get(serial));
    }
    let answered = last(rt, receiver, None);
    assert!(rt; answered == (answer(Verdict::Selective, 0x7FFF_FFFF_FFFF_FFFE), false));
}

/// Both blocks that were lost, in a try of their own, complete the packet.
fn retry(rt: &impl Abort, receiver: &mut Receiver, packet: &Packet) {
    receiver.header(&header_of(false, 2));
    middle(rt, receiver, packet.blocks.get(0));
    let answered = last(rt, receiver, packet.blocks.get(63));
    assert!(rt; answered == (answer(Verdict::Ack, 0), true));
}

#[test]
fn place_within_a_try(rt: HostRuntime) {
    let mut receiver = Receiver::new(1);
    receiver.header(&header_of(true, 2));
    assert!(rt; !receiver.is_at_last());
    receiver.go_on(None);
    assert!(rt; receiver.is_at_last());
    let lost = last(&rt, &mut receiver, None);
    assert!(rt; lost == (answer(Verdict::Selective, 0), false));
}

#[test]
fn confirmed_packet_received(rt: HostRuntime) {
    let packet = packet_of_64_blocks();
    let mut receiver = Receiver::new(1);
    first_try(&rt, &mut receiver, &packet);
    retry(&rt, &mut receiver, &packet);
}

#[test]
fn repeated_retry(rt: HostRuntime) {
    let packet = packet_of_64_blocks();
    let mut receiver = Receiver::new(1);
    first_try(&rt, &mut receiver, &packet);
    retry(&rt, &mut receiver, &packet);
    receiver.header(&header_of(false, 2));
    assert!(rt; receiver.open() == Some(Some(2)));
    assert!(rt; gives_nothing(placed(&mut receiver, packet.blocks.get(0))));
    let answered = last(&rt, &mut receiver, packet.blocks.get(1));
    assert!(rt; answered == (answer(Verdict::Ack, 0), false));
}

#[test]
fn same_serial_twice(rt: HostRuntime) {
    let packet = packet_of_64_blocks();
    let mut receiver = Receiver::new(1);
    first_try(&rt, &mut receiver, &packet);
    for _ in 0..2 {
        receiver.header(&header_of(false, 2));
        middle(&rt, &mut receiver, packet.blocks.get(0));
        let answered = last(&rt, &mut receiver, packet.blocks.get(0));
        assert!(rt; answered == (answer(Verdict::Selective, 0x7FFF_FFFF_FFFF_FFFF), false));
    }
}

#[test]
fn headers_that_open(rt: HostRuntime) {
    let mut receiver = Receiver::new(1);
    receiver.header(&Header::Confirmed(Confirmed {
        group: true,
        ..FIRST
    }));
    assert!(rt; receiver.open().is_none());
    receiver.header(&Header::Confirmed(Confirmed {
        fragment: 3,
        ..FIRST
    }));
    assert!(rt; receiver.open().is_none());
    receiver.header(&Header::Unconfirmed(Unconfirmed {
        fragment: 3,
        ..ALONE
    }));
    assert!(rt; receiver.open().is_none());
    // A packet of one try opens, whatever its F.
    receiver.header(&Header::Unconfirmed(Unconfirmed {
        full: false,
        ..ALONE
    }));
    assert!(rt; receiver.open() == Some(None));
    receiver.header(&Header::ShortData(ShortData {
        group: true,
        ..SHORT
    }));
    assert!(rt; receiver.open().is_none());
    // A partial try opens, whatever its fragment number.
    receiver.header(&Header::Confirmed(FIRST));
    receiver.header(&Header::Confirmed(Confirmed {
        full: false,
        fragment: 3,
        ..FIRST
    }));
    assert!(rt; receiver.open() == Some(Some(1)));
}

/// The block that makes a packet of one block without confirmation.
fn datagram_block() -> Block {
    Block {
        serial: None,
        octets: Octets::from_slice(&DATAGRAM_BLOCK),
    }
}

/// The header of a packet of one try opens it, and its one block makes the packet, which nothing answers.
fn expect_received(rt: &impl Abort, receiver: &mut Receiver, header: &Header)
    requires fit { IsFitHeader header.now }
{
    receiver.header(header);
    assert!(rt; receiver.open() == Some(None));
    let received = ReceiverOut {
        delivered: Some(Joined {
            header: *header,
            body: Octets::from_slice(&DATAGRAM_BLOCK[..7]),
        }),
        answer: None,
    };
    assert!(rt; placed(receiver, Some(&datagram_block())) == Some(received));
}

// Fifteen bits of padding are one octet and a part of the body.
#[test]
fn short_data_with_bit_padding(rt: HostRuntime) {
    let mut receiver = Receiver::new(1);
    expect_received(&rt, &mut receiver, &Header::ShortData(SHORT));
}

// The block of its one place makes the packet; a place without one loses it.
#[test]
fn unconfirmed_packet_received(rt: HostRuntime) {
    let header = Header::Unconfirmed(ALONE);
    let mut receiver = Receiver::new(1);
    expect_received(&rt, &mut receiver, &header);
    assert!(rt; receiver.open().is_none());
    receiver.header(&header);
    assert!(rt; receiver.open() == Some(None));
    let out = receiver.place(None);
    assert!(rt; out.delivered.is_none() && out.answer.is_none());
}

/// Whether packet 0 of a source, of one block, is delivered.
fn delivers(rt: &impl Abort, receiver: &mut Receiver, source: u32, packet: &Packet) -> bool
    requires address { source < 2 ^ 24 }
{
    receiver.header(&Header::Confirmed(Confirmed { source, ..FIRST }));
    assert!(rt; receiver.open() == Some(Some(1)));
    matches!(placed(receiver, packet.blocks.get(0)), Some(out) if out.delivered.is_some())
}

// A packet is a repeat while 63 other sources were heard since, and new with the 64th.
#[test]
fn sources_remembered(rt: HostRuntime) {
    let packet = one_block(7);
    for (others, again) in [(63u8, false), (64, true)] {
        let mut receiver = Receiver::new(1);
        assert!(rt; delivers(&rt, &mut receiver, 2, &packet));
        for other in 0..others {
            assert!(rt; delivers(&rt, &mut receiver, 3 + u32::from(other), &packet));
        }
        assert_eq!(rt;
            delivers(&rt, &mut receiver, 2, &packet),
            again,
            "{others} others"
        );
    }
}
