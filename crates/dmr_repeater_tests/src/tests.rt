//! Runs over memory: recordings from outside, files at fault, and devices that fail.
//!
//! No test takes `?`, and what is compared is lent to a function that compares: an early end beside octets that are then dropped
//! makes a proof several times as long.
ghost use Rattle.std.specs.Prelude.{◌≡◌, false};

mod faults;
mod gateway;
mod recorded;
mod samples;

use dmr_bits::Bits;
use dmr_gateway::Config;
use dmr_record::{FromRead, Sink, Source, ToWrite};
use dmr_repeater::{RunFault, Summary, run};
use dmr_test_devices::OneByOne;
use dmr_test_values::{EMPTY_DATAGRAM, IDLE_BURST, ONE_CSBK, REPEATED_CSBK};
use std::alloc::Global;
use std::fmt::Debug;
use std::process::Abort;

/// The head of an uplink file, and of each of the other three.
const UPLINK: [u8; 8] = *b"DMRU\x01\0\0\0";

const DOWNLINK: [u8; 8] = *b"DMRD\x01\0\0\0";

const OUTGOING: [u8; 8] = *b"DMRO\x01\0\0\0";

const RECEIVED: [u8; 8] = *b"DMRI\x01\0\0\0";

/// What stands before a datagram of 28 octets in the outgoing file: it is for frame 5 in slot 1, unconfirmed and at rate 1/2.
const FRAME_5: [u8; 9] = [2, 0, 0, 0, 5, 1, 0, 0, 28];

/// An outgoing file of one datagram.
const ONE_DATAGRAM: [&[u8]; 3] = [&OUTGOING, &FRAME_5, &EMPTY_DATAGRAM];

/// The downlink of a control signalling block in frame 0 of slot 1: it goes out in frame 6, and slot 2 idles.
const SENT_CSBK: [&[u8]; 6] = [
    &DOWNLINK,
    &[0; 12],
    &[1, 0x80, 0x0A, 0x20],
    &REPEATED_CSBK,
    &[1, 0x08, 0x88, 0x20],
    &IDLE_BURST,
];

/// What a run answers, and what it has written.
#[derive(Drop)]
struct Ran {
    answer: Result<Summary, RunFault>,
    downlink: Vec<u8>,
    received: Vec<u8>,
}

/// The numbers of a run that met no gateway.
fn summary(frames: u32, repeated: u32) -> Summary {
    Summary {
        frames,
        repeated,
        received: 0,
        delivered: 0,
        sent: 0,
        given_up: 0,
        refused: 0,
        unoffered: 0,
    }
}

/// That both are the same, of what is told where they aren't.
pub fn are_same<T: PartialEq + Debug>(rt: &impl Abort, what: &str, got: &T, expected: &T) {
    assert_eq!(rt; got, expected, "{what}");
}

/// Appends octets.
fn push(rt: &impl Abort, octets: &mut Vec<u8>, more: &[u8]) {
    octets.extend_from_slice(more).expect(rt, "there is memory");
}

/// One after the other.
fn joined(rt: &impl Abort, alloc: Global, pieces: &[&[u8]]) -> Vec<u8> {
    let mut octets = Vec::new(alloc);
    for piece in pieces {
        push(rt, &mut octets, piece);
    }
    octets
}

/// A channel hang of five frames, and a call hang of three.
fn settings(rt: &impl Abort, colour: u8) -> Config {
    Config::new(colour, 1, 3, 5, 9).expect(rt, "the settings are in range")
}

/// What a run answers: `run` with no more than its `requires`.
fn answer_of<U: Source, O: Source, D: Sink, R: Sink>(
    alloc: Global,
    config: Config,
    uplink: &mut U,
    outgoing: &mut O,
    downlink: &mut D,
    received: &mut R,
) -> Result<Summary, RunFault>
    requires uplink { U.has_failed uplink.old ≡ false }
    requires outgoing { O.has_failed outgoing.old ≡ false }
    requires downlink { D.has_failed downlink.old ≡ false }
    requires received { R.has_failed received.old ≡ false }
{
    run(alloc, config, uplink, outgoing, downlink, received)
}

/// A run over sources that have not failed.
fn run_from<U: Source, O: Source>(
    alloc: Global,
    config: Config,
    uplink: &mut U,
    outgoing: &mut O,
) -> Ran
    requires uplink { U.has_failed uplink.old ≡ false }
    requires outgoing { O.has_failed outgoing.old ≡ false }
{
    let mut downlink = ToWrite::new(Vec::new(alloc));
    let mut received = ToWrite::new(Vec::new(alloc));
    let answer = answer_of(
        alloc,
        config,
        uplink,
        outgoing,
        &mut downlink,
        &mut received,
    );
    Ran {
        answer,
        downlink: downlink.into_inner(),
        received: received.into_inner(),
    }
}

/// A run over files, with colour code 1.
fn run_over(rt: &impl Abort, alloc: Global, uplink: &[u8], outgoing: &[u8]) -> Ran {
    let mut uplink = FromRead::new(uplink);
    let mut outgoing = FromRead::new(outgoing);
    run_from(alloc, settings(rt, 1), &mut uplink, &mut outgoing)
}

/// A run over files that are given in pieces.
fn run_pieces(rt: &impl Abort, alloc: Global, uplink: &[&[u8]], outgoing: &[&[u8]]) -> Ran {
    let uplink = joined(rt, alloc, uplink);
    let outgoing = joined(rt, alloc, outgoing);
    run_over(rt, alloc, &uplink, &outgoing)
}

/// A run answers these numbers.
fn expect_numbers(rt: &impl Abort, ran: &Ran, want: Summary) {
    are_same(rt, "answer", &ran.answer, &Ok(want));
}

/// A run has written this downlink, which is given in pieces.
fn expect_downlink(rt: &impl Abort, alloc: Global, ran: &Ran, pieces: &[&[u8]]) {
    let downlink = joined(rt, alloc, pieces);
    are_same(rt, "downlink", &ran.downlink, &downlink);
}

/// A run has written so many octets of downlink.
fn expect_downlink_of(rt: &impl Abort, ran: &Ran, count: usize) {
    are_same(rt, "octets of downlink", &ran.downlink.len(), &count);
}

/// A run has received what the file of these pieces has.
fn expect_received(rt: &impl Abort, alloc: Global, ran: &Ran, pieces: &[&[u8]]) {
    let received = joined(rt, alloc, pieces);
    are_same(rt, "received", &ran.received, &received);
}

/// A run has received nothing.
fn expect_nothing_received(rt: &impl Abort, ran: &Ran) {
    are_same(rt, "received", &ran.received.as_slice(), &&RECEIVED[..]);
}

/// A run answers these numbers, writes this downlink, and receives nothing.
fn expect_sent(rt: &impl Abort, alloc: Global, ran: &Ran, want: Summary, downlink: &[&[u8]]) {
    expect_numbers(rt, ran, want);
    expect_downlink(rt, alloc, ran, downlink);
    expect_nothing_received(rt, ran);
}

// Three wrong bits in the slot type, three in the sync, and all of the first row and R(3) of the information.
#[test]
fn damaged_csbk(rt: HostRuntime) {
    let mut burst = Bits::<264>::from_octets(&ONE_CSBK);
    for place in [98, 99, 100, 108, 109, 110] {
        burst.set(place, !burst.get(place));
    }
    for index in 0..16usize {
        let place = 181 * index % 196;
        let at = if place < 98 { place } else { place + 68 };
        burst.set(at, !burst.get(at));
    }
    let octets: [u8; 33] = burst.octets();
    let ran = run_pieces(
        &rt,
        rt.alloc(),
        &[&UPLINK, &[1], &octets, &[0]],
        &[&OUTGOING],
    );
    expect_sent(&rt, rt.alloc(), &ran, summary(7, 1), &SENT_CSBK);
}

#[test]
fn block_of_another_colour(rt: HostRuntime) {
    let uplink = joined(&rt, rt.alloc(), &[&UPLINK, &[1], &ONE_CSBK, &[0]]);
    let mut uplink = FromRead::new(uplink.as_slice());
    let mut outgoing = FromRead::new(&OUTGOING[..]);
    let ran = run_from(rt.alloc(), settings(&rt, 2), &mut uplink, &mut outgoing);
    expect_sent(&rt, rt.alloc(), &ran, summary(7, 0), &[&DOWNLINK, &[0; 14]]);
}

#[test]
fn header_alone(rt: HostRuntime) {
    let ran = run_pieces(&rt, rt.alloc(), &[&UPLINK], &[&OUTGOING]);
    expect_sent(&rt, rt.alloc(), &ran, summary(6, 0), &[&DOWNLINK, &[0; 12]]);
}

#[test]
fn idle_for_the_channel_hang(rt: HostRuntime) {
    let ran = run_pieces(
        &rt,
        rt.alloc(),
        &[&UPLINK, &[0, 1], &ONE_CSBK, &[0; 14]],
        &[&OUTGOING],
    );
    expect_numbers(&rt, &ran, summary(14, 1));
    // Six silent frames, one with the block in slot 2, five of idle, and two silent ones.
    expect_downlink_of(&rt, &ran, 8 + 12 + 12 * 37 + 4);
}

// Two of frame 5, the last of the run, in which the first of them begins; and one far past it.
#[test]
fn unoffered_records(rt: HostRuntime) {
    let outgoing: [&[u8]; 6] = [
        &OUTGOING,
        &FRAME_5,
        &EMPTY_DATAGRAM,
        &FRAME_5,
        &EMPTY_DATAGRAM,
        b"\x02\xff\xff\xff\xff\x02\x03\0\0",
    ];
    let ran = run_pieces(&rt, rt.alloc(), &[&UPLINK], &outgoing);
    let want = Summary {
        unoffered: 1,
        ..summary(6, 0)
    };
    expect_numbers(&rt, &ran, want);
    expect_downlink_of(&rt, &ran, 8 + 10 + 2 * 37);
    expect_nothing_received(&rt, &ran);
}

/// Two runs have come to an end alike, and a good one.
fn end_alike(rt: &impl Abort, ran: &Ran, other: &Ran) {
    assert!(rt; ran.answer.is_ok());
    are_same(rt, "answer", &ran.answer, &other.answer);
    are_same(rt, "downlink", &ran.downlink, &other.downlink);
    are_same(rt, "received", &ran.received, &other.received);
}

#[test]
fn one_octet_a_call(rt: HostRuntime) {
    let uplink = joined(&rt, rt.alloc(), &[&UPLINK, &[1], &ONE_CSBK, &[0; 19]]);
    let outgoing = joined(&rt, rt.alloc(), &ONE_DATAGRAM);
    let whole = run_over(&rt, rt.alloc(), &uplink, &outgoing);
    let mut uplink = OneByOne::new(&uplink);
    let mut outgoing = OneByOne::new(&outgoing);
    let ran = run_from(rt.alloc(), settings(&rt, 1), &mut uplink, &mut outgoing);
    end_alike(&rt, &ran, &whole);
}
