//! Worked histories of one sender.
ghost use Rattle.std.specs.Prelude.{◌<◌, ◌^◌};
ghost use Rattle.dmr_arq.specs.Fit.{IsOfferedPacket};

use crate::tests::{
    ACK, ROUTE, expect_burst, expect_outcome, expect_preambles, one_block, sender_of,
};
use dmr_arq::{Answer, GateBurst, Outcome, Route, Sender, Verdict};
use dmr_data::{Block, Confirmed, Header, Octets, Packet, Rate, Unconfirmed, split_packet};
use dmr_test_values::DATAGRAM_BLOCK;
use std::process::Abort;

/// A compressed datagram.
const DATAGRAM: [u8; 7] = [0x12, 0x34, 0, 1, 0, 0x13, 0x9A];

/// A confirmed packet of two blocks.
fn two_blocks() -> Packet
    ensures offered { IsOfferedPacket result }
{
    split_packet(&DATAGRAM, Rate::Half, true)
}

/// The header of its first try.
const FIRST: Confirmed = Confirmed {
    group: false,
    wanted: true,
    pad: 9,
    sap: 4,
    destination: 2,
    source: 1,
    full: true,
    blocks: 2,
    resynchronize: false,
    number: 0,
    fragment: 8,
};

/// The first burst of a try of two blocks.
fn begins(burst: &Option<GateBurst>) -> bool {
    matches!(burst, Some(GateBurst::Preamble { left: 4, .. }))
}

/// The sender's next burst is a block that begins with this octet.
fn expect_block(rt: &impl Abort, sender: &mut Sender, octet: u8) {
    let begins = match sender.next_burst() {
        Some(GateBurst::Block { block, .. }) => block.octets.as_slice().first() == Some(&octet),
        _ => false,
    };
    assert!(rt; begins);
}

#[test]
fn begun_try(rt: HostRuntime) {
    assert!(rt; Sender::new(1).is_idle());
    let mut sender = sender_of(&rt, &one_block(7));
    assert!(rt; !sender.is_idle());
    assert!(rt; !sender.is_begun());
    expect_preambles(&rt, &mut sender, ROUTE, 1);
    assert!(rt; sender.is_begun());
    assert!(rt; header_sent(&mut sender, 1).is_some());
    expect_block(&rt, &mut sender, 7);
    assert!(rt; !sender.is_begun());
}

/// Whether this is what is sent in a frame of the first try of two blocks, which begins in frame 5.
fn is_of_first_try(frame: u32, burst: &Option<GateBurst>) -> bool {
    match burst {
        Some(GateBurst::Preamble { left, .. }) => matches!((frame, *left), (5, 4) | (6, 3)),
        Some(GateBurst::Header(header)) => frame == 7 && *header == Header::Confirmed(FIRST),
        Some(GateBurst::Block { block, .. }) => matches!(
            (frame, block.serial),
            (8, Some(0)) | (9, Some(1))
        ),
        None => frame > 9,
    }
}

// Two blocks, offered in frame 5, and no answer.
#[test]
fn unanswered_try(rt: HostRuntime) {
    let mut sender = sender_of(&rt, &two_blocks());
    for frame in 5..16u32 {
        sender.tick();
        let burst = sender.next_burst();
        assert!(rt;
            is_of_first_try(frame, &burst) && sender.outcome().is_none(),
            "frame {frame}"
        );
    }
}

/// A frame of a packet of two blocks, in which nothing becomes of it: it begins a try exactly where it is one of these.
fn frame(rt: &impl Abort, sender: &mut Sender, frame: u32, tries: &[u32]) {
    sender.tick();
    let begins = begins(&sender.next_burst());
    let is_right = begins == tries.contains(&frame) && sender.outcome().is_none();
    assert!(rt; is_right, "frame {frame}");
}

#[test]
fn four_tries(rt: HostRuntime) {
    let mut sender = sender_of(&rt, &two_blocks());
    for number in 5..101u32 {
        frame(&rt, &mut sender, number, &[5, 29, 53, 77]);
    }
    sender.tick();
    expect_outcome(&rt, &mut sender, Outcome::GivenUp);
    assert!(rt; sender.is_idle());
}

// Frame 29 is the last for an answer to the first try.
#[test]
fn answer_in_the_last_frame(rt: HostRuntime) {
    let mut sender = sender_of(&rt, &two_blocks());
    for number in 5..29u32 {
        frame(&rt, &mut sender, number, &[5]);
    }
    sender.answer(&ACK);
    sender.tick();
    expect_outcome(&rt, &mut sender, Outcome::Delivered);
    assert!(rt; sender.next_burst().is_none());
}

// In frame 30 the answer is repeated by the slot, which so isn't free.
#[test]
fn late_answer(rt: HostRuntime) {
    let mut sender = sender_of(&rt, &two_blocks());
    let tries = [5, 29, 31, 55];
    for number in 5..30u32 {
        frame(&rt, &mut sender, number, &tries);
    }
    sender.answer(&ACK);
    sender.tick();
    sender.cut();
    for number in 31..79u32 {
        frame(&rt, &mut sender, number, &tries);
    }
    sender.tick();
    expect_outcome(&rt, &mut sender, Outcome::GivenUp);
}

/// Sends so many bursts: the last header of a confirmed packet among them.
fn header_sent(sender: &mut Sender, bursts: u8) -> Option<Confirmed> {
    let mut sent = None;
    for _ in 0..bursts {
        if let Some(GateBurst::Header(Header::Confirmed(header))) = sender.next_burst() {
            sent = Some(header);
        }
    }
    sent
}

/// Sends so many bursts: whether their try is full, and how many blocks it has.
fn send(sender: &mut Sender, bursts: u8) -> Option<(bool, u8)> {
    match header_sent(sender, bursts) {
        Some(header) => Some((header.full, header.blocks)),
        None => None,
    }
}

// With no flag set a partial try of all blocks is asked for, with every flag set a full one.
#[test]
fn selective_answers(rt: HostRuntime) {
    let mut sender = sender_of(&rt, &two_blocks());
    assert!(rt; send(&mut sender, 5) == Some((true, 2)));
    for (flags, full) in [(0, false), (3, true)] {
        sender.answer(&Answer {
            verdict: Verdict::Selective,
            flags,
            ..ACK
        });
        assert!(rt; send(&mut sender, 5) == Some((full, 2)));
    }
}

// A partial try that is cut is due again, and a fourth try that is cut was the last.
#[test]
fn cut_partial_tries(rt: HostRuntime) {
    let mut sender = sender_of(&rt, &two_blocks());
    assert!(rt; send(&mut sender, 5) == Some((true, 2)));
    sender.answer(&Answer {
        verdict: Verdict::Selective,
        flags: 1,
        ..ACK
    });
    for _ in 0..3u8 {
        assert!(rt; sender.outcome().is_none());
        assert!(rt; send(&mut sender, 3) == Some((false, 1)));
        sender.cut();
    }
    expect_outcome(&rt, &mut sender, Outcome::GivenUp);
    assert!(rt; sender.is_idle());
}

/// To a talk group.
const TO_A_GROUP: Route = Route {
    destination: 9,
    group: true,
    sap: 3,
};

/// The header of an unconfirmed packet of one block to it.
const GROUP_HEADER: Unconfirmed = Unconfirmed {
    group: true,
    wanted: false,
    pad: 1,
    sap: 3,
    destination: 9,
    source: 1,
    full: true,
    blocks: 1,
    fragment: 0,
};

/// The one block of the compressed datagram at rate 1/2.
fn datagram_block() -> GateBurst {
    GateBurst::Block {
        block: Block {
            serial: None,
            octets: Octets::from_slice(&DATAGRAM_BLOCK),
        },
        rate: Rate::Half,
    }
}

#[test]
fn unconfirmed_send(rt: HostRuntime) {
    let mut sender = Sender::new(1);
    let packet = split_packet(&DATAGRAM, Rate::Half, false);
    assert!(rt; sender.take(&packet, TO_A_GROUP));
    assert!(rt; sender.blocks() == 1);
    expect_preambles(&rt, &mut sender, TO_A_GROUP, 1);
    let header = Header::Unconfirmed(GROUP_HEADER);
    expect_burst(&rt, &mut sender, GateBurst::Header(header));
    assert!(rt; sender.outcome().is_none());
    expect_burst(&rt, &mut sender, datagram_block());
    expect_outcome(&rt, &mut sender, Outcome::Sent);
    assert!(rt; sender.is_idle() && sender.blocks() == 0);
    assert!(rt; sender.next_burst().is_none());
}

/// The number that a packet to this radio gets, which acknowledges it.
fn number_of_next(rt: &impl Abort, sender: &mut Sender, destination: u32) -> u8
    requires address { destination < 2 ^ 24 }
{
    let route = Route {
        destination,
        ..ROUTE
    };
    assert!(rt; sender.take(&one_block(7), route));
    let number = match header_sent(sender, 4) {
        Some(header) => header.number,
        None => 8,
    };
    sender.answer(&Answer {
        from: destination,
        number,
        ..ACK
    });
    expect_outcome(rt, sender, Outcome::Delivered);
    number
}

// Numbers go on while 63 other destinations had a packet since, and begin anew with the 64th.
#[test]
fn destinations_remembered(rt: HostRuntime) {
    for (others, next) in [(63u8, 1), (64, 0)] {
        let mut sender = Sender::new(1);
        assert!(rt; number_of_next(&rt, &mut sender, 2) == 0);
        for other in 0..others {
            assert!(rt; number_of_next(&rt, &mut sender, 3 + u32::from(other)) == 0);
        }
        assert!(rt;
            number_of_next(&rt, &mut sender, 2) == next,
            "{others} others"
        );
    }
}
