//! Worked histories of a sender and a receiver together.
ghost use Rattle.std.specs.Prelude.{Some, IsTrue, option_copied};
ghost use Rattle.dmr_arq.specs.Fit.{FitsPlace, IsOfferedPacket};

use dmr_arq::{Answer, GateBurst, Outcome, Receiver, ReceiverOut, Route, Sender, Verdict};
use dmr_data::{Block, Confirmed, Header, Packet, Rate, split_packet};
use std::process::Abort;

/// To radio 2, as an IP datagram.
pub(crate) const ROUTE: Route = Route {
    destination: 2,
    group: false,
    sap: 4,
};

/// The answer of radio 2 that acknowledges packet 0 of radio 1.
pub(crate) const ACK: Answer = Answer {
    from: 2,
    to: 1,
    sap: 3,
    number: 0,
    verdict: Verdict::Ack,
    flags: 0,
};

/// A confirmed packet of one block.
pub(crate) fn one_block(octet: u8) -> Packet
    ensures offered { IsOfferedPacket result }
{
    split_packet(&[octet], Rate::Half, true)
}

/// A sender of radio 1 with this packet in hand.
pub(crate) fn sender_of(rt: &impl Abort, packet: &Packet) -> Sender
    requires offered { IsOfferedPacket packet.now }
{
    let mut sender = Sender::new(1);
    offer(rt, &mut sender, packet);
    sender
}

/// A packet is taken in hand.
pub(crate) fn offer(rt: &impl Abort, sender: &mut Sender, packet: &Packet)
    requires offered { IsOfferedPacket packet.now }
{
    assert!(rt; sender.take(packet, ROUTE));
}

/// This is the sender's next burst.
pub(crate) fn expect_burst(rt: &impl Abort, sender: &mut Sender, burst: GateBurst) {
    let sent = sender.next_burst();
    assert!(rt; sent == Some(burst));
}

/// The sender's next bursts are the two preambles of a try of so many blocks.
pub(crate) fn expect_preambles(rt: &impl Abort, sender: &mut Sender, route: Route, blocks: u8) {
    let next = blocks.saturating_add(1);
    for left in [next.saturating_add(1), next] {
        expect_burst(rt, sender, GateBurst::Preamble { left, route });
    }
}

/// This became of the sender's packet.
pub(crate) fn expect_outcome(rt: &impl Abort, sender: &mut Sender, outcome: Outcome) {
    assert!(rt; sender.outcome() == Some(outcome));
}

/// Whether a block has a serial exactly in a try of so many blocks, below their number.
fn fits(total: Option<u8>, block: Option<&Block>) -> bool
    ensures fits { IsTrue result → FitsPlace (Some total) (option_copied block.entry) }
{
    match block {
        None => true,
        Some(block) => match (total, block.serial) {
            (None, None) => true,
            (Some(total), Some(serial)) => serial < total,
            (None, Some(_)) | (Some(_), None) => false,
        },
    }
}

/// What a receiver gives in a place, where a try is open in which the block fits.
pub(crate) fn placed(receiver: &mut Receiver, block: Option<&Block>) -> Option<ReceiverOut> {
    match receiver.open() {
        Some(total) if fits(total, block) => Some(receiver.place(block)),
        _ => None,
    }
}

/// Whether a place that fits its try gives nothing.
pub(crate) fn gives_nothing(out: Option<ReceiverOut>) -> bool {
    match out {
        Some(out) => out.delivered.is_none() && out.answer.is_none(),
        None => false,
    }
}

/// What a receiver answers in a place, where a try is open: the number of delivered packets goes up with a packet.
fn place(receiver: &mut Receiver, block: Option<&Block>, delivered: &mut u32) -> Option<Answer> {
    let out = placed(receiver, block)?;
    if out.delivered.is_some() {
        *delivered = delivered.saturating_add(1);
    }
    out.answer
}

/// The sender's burst arrives, or is lost.
fn burst(
    sender: &mut Sender,
    receiver: &mut Receiver,
    arrives: bool,
    delivered: &mut u32,
) -> Option<Answer> {
    match sender.next_burst() {
        Some(GateBurst::Header(header)) if arrives => {
            receiver.header(&header);
            None
        }
        Some(GateBurst::Block { block, .. }) if arrives => place(receiver, Some(&block), delivered),
        _ => place(receiver, None, delivered),
    }
}

/// The bursts of one try of a packet of one block.
fn attempt(
    sender: &mut Sender,
    receiver: &mut Receiver,
    arrives: bool,
    delivered: &mut u32,
) -> Option<Answer> {
    let mut answer = None;
    for _ in 0..4 {
        sender.tick();
        if let Some(one) = burst(sender, receiver, arrives, delivered) {
            answer = Some(one);
        }
    }
    answer
}

fn wait(sender: &mut Sender, frames: u32) {
    for _ in 0..frames {
        sender.tick();
    }
}

/// A try of a packet of one block arrives, and so does its answer: the packet is delivered.
fn expect_delivered(
    rt: &impl Abort,
    sender: &mut Sender,
    receiver: &mut Receiver,
    delivered: &mut u32,
) {
    if let Some(answer) = attempt(sender, receiver, true, delivered) {
        sender.answer(&answer);
    }
    expect_outcome(rt, sender, Outcome::Delivered);
}

/// Four tries of a packet, of which the receiver hears and answers each or none; the sender hears no answer, and gives it up.
fn expect_given_up(
    rt: &impl Abort,
    sender: &mut Sender,
    receiver: &mut Receiver,
    arrives: bool,
    delivered: &mut u32,
) {
    for _ in 0..4 {
        assert!(rt; sender.outcome().is_none());
        assert!(rt; attempt(sender, receiver, arrives, delivered).is_some() == arrives);
        wait(sender, 20);
    }
    expect_outcome(rt, sender, Outcome::GivenUp);
}

#[test]
fn first_ack_lost(rt: HostRuntime) {
    let mut sender = sender_of(&rt, &one_block(7));
    let mut receiver = Receiver::new(2);
    let mut delivered = 0;
    assert!(rt; attempt(&mut sender, &mut receiver, true, &mut delivered).is_some());
    wait(&mut sender, 19);
    assert!(rt; sender.next_burst().is_none());
    wait(&mut sender, 1);
    let answer = attempt(&mut sender, &mut receiver, true, &mut delivered);
    assert!(rt; answer == Some(Answer { sap: 4, ..ACK }));
    if let Some(answer) = answer {
        sender.answer(&answer);
    }
    expect_outcome(&rt, &mut sender, Outcome::Delivered);
    assert!(rt; sender.outcome().is_none());
    assert!(rt; delivered == 1);
}

#[test]
fn all_answers_lost(rt: HostRuntime) {
    let mut sender = sender_of(&rt, &one_block(7));
    let mut receiver = Receiver::new(2);
    let mut delivered = 0;
    expect_given_up(&rt, &mut sender, &mut receiver, true, &mut delivered);
    assert!(rt; sender.next_burst().is_none());
    assert!(rt; delivered == 1);
}

// Seven packets in a row are given up, and the ninth has the number of the first: beyond the law's premise.
#[test]
fn eighth_sequence_number(rt: HostRuntime) {
    let mut sender = sender_of(&rt, &one_block(0));
    let mut receiver = Receiver::new(2);
    let mut delivered = 0;
    expect_delivered(&rt, &mut sender, &mut receiver, &mut delivered);
    for packet in 1..8 {
        offer(&rt, &mut sender, &one_block(packet));
        expect_given_up(&rt, &mut sender, &mut receiver, false, &mut delivered);
    }
    offer(&rt, &mut sender, &one_block(8));
    expect_delivered(&rt, &mut sender, &mut receiver, &mut delivered);
    assert!(rt; delivered == 1);
}

/// The header of the partial try of a packet of 127 blocks that three are missing of.
const THREE_OF_127: Confirmed = Confirmed {
    group: false,
    wanted: true,
    pad: 0,
    sap: 4,
    destination: 2,
    source: 1,
    full: false,
    blocks: 3,
    resynchronize: false,
    number: 0,
    fragment: 8,
};

/// The answer that asks for these three.
const THREE_MISSING: Answer = Answer {
    sap: 4,
    verdict: Verdict::Selective,
    flags: 0x3FFF_FFFF_FFFF_FFFE_FFFF_FFFF_FFFF_FFFE,
    ..ACK
};

/// The full try of a packet of 127 blocks, of which the first, the last and another are lost: what answers it.
fn full_try_of_127(
    rt: &impl Abort,
    sender: &mut Sender,
    receiver: &mut Receiver,
) -> Option<Answer> {
    let mut delivered = 0;
    let header = burst(sender, receiver, true, &mut delivered);
    assert!(rt; header.is_none() && receiver.open() == Some(Some(127)));
    let mut answer = None;
    for serial in 0..127u8 {
        assert!(rt; answer.is_none());
        let arrives = !matches!(serial, 0 | 64 | 126);
        answer = burst(sender, receiver, arrives, &mut delivered);
    }
    assert!(rt; delivered == 0);
    answer
}

/// The sender's next burst is the block with this serial, at rate 1/2. What the receiver gives in its place, where it fits.
fn expect_block(
    rt: &impl Abort,
    sender: &mut Sender,
    receiver: &mut Receiver,
    serial: u8,
) -> Option<ReceiverOut> {
    assert!(rt; receiver.open() == Some(Some(127)));
    match sender.next_burst() {
        Some(GateBurst::Block { block, rate }) => {
            assert!(rt; block.serial == Some(serial) && rate == Rate::Half);
            placed(receiver, Some(&block))
        }
        _ => None,
    }
}

/// Whether this is the packet of 127 blocks and its acknowledgement.
fn is_whole(out: &ReceiverOut) -> bool {
    match &out.delivered {
        Some(joined) => {
            let body = joined.body.as_slice();
            out.answer == Some(Answer { sap: 4, ..ACK })
                && body.len() == 1266
                && body.iter().all(|octet| *octet == 5)
        }
        None => false,
    }
}

/// A partial try of the three blocks that are missing completes the packet.
fn partial_try_of_127(rt: &impl Abort, sender: &mut Sender, receiver: &mut Receiver) {
    expect_preambles(rt, sender, ROUTE, 3);
    let header = Header::Confirmed(THREE_OF_127);
    expect_burst(rt, sender, GateBurst::Header(header));
    receiver.header(&header);
    for serial in [0, 64] {
        let out = expect_block(rt, sender, receiver, serial);
        assert!(rt; gives_nothing(out));
    }
    let out = expect_block(rt, sender, receiver, 126);
    assert!(rt; matches!(out, Some(out) if is_whole(&out)));
}

// 1,266 octets at rate 1/2. Blocks 0, 64 and 126 are lost, and come in a partial try.
#[test]
fn packet_of_127_blocks(rt: HostRuntime) {
    let packet = split_packet(&[5; 1266], Rate::Half, true);
    let mut sender = sender_of(&rt, &packet);
    let mut receiver = Receiver::new(2);
    assert!(rt; sender.blocks() == 127);
    expect_preambles(&rt, &mut sender, ROUTE, 127);
    assert!(rt; full_try_of_127(&rt, &mut sender, &mut receiver) == Some(THREE_MISSING));
    sender.answer(&THREE_MISSING);
    partial_try_of_127(&rt, &mut sender, &mut receiver);
}
