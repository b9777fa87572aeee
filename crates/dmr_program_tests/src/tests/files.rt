//! Which place each file is taken from, which files are no others, and whose fault is told.
use crate::tests::are_same;
use crate::tests::stand_in::StandIn;
use dmr_command::Places;
use dmr_files::Place;
use dmr_gateway::Config;
use dmr_program::{RunEnd, run_places};
use dmr_repeater::{Stream, Summary};
use std::process::Abort;

/// The numbers of a run over the stand-in's files.
const SUMMARY: Summary = Summary {
    frames: 7,
    repeated: 1,
    received: 0,
    delivered: 0,
    sent: 0,
    given_up: 0,
    refused: 0,
    unoffered: 0,
};

/// The names of the stand-in's files.
const NAMES: [&str; 4] = ["up", "out", "down", "in"];

/// How a run between these places ends.
fn end_of(
    rt: &(impl Abort + AllocGlobal),
    downlink: (u64, u64),
    is_terminal: bool,
    places: &Places<'_>,
) -> RunEnd {
    let config = Config::new(1, 1, 3, 5, 9).expect(rt, "the settings are in range");
    let system = StandIn {
        downlink,
        is_terminal,
    };
    run_places(&system, rt.alloc(), config, places)
}

/// A run over files of these names ends so.
fn expect(rt: &(impl Abort + AllocGlobal), downlink: (u64, u64), names: &[&str; 4], end: RunEnd) {
    let places = Places {
        uplink: Place::named(names[0]),
        outgoing: Some(Place::named(names[1])),
        downlink: Place::named(names[2]),
        received: Some(Place::named(names[3])),
    };
    are_same(rt, "end", &end_of(rt, downlink, false, &places), &end);
}

/// This names a path.
fn expect_path(rt: &impl Abort, name: &str) {
    let is_named = matches!(Place::named(name), Place::Path(path) if path == name);
    assert!(rt; is_named);
}

#[test]
fn names_of_places(rt: HostRuntime) {
    assert!(rt; Place::named("-").is_standard());
    expect_path(&rt, "./-");
    expect_path(&rt, "");
}

/// What counts is which file it is, by one name or another. A file of another device may have the same number.
#[test]
fn files_told_apart(rt: HostRuntime) {
    expect(&rt, (1, 3), &NAMES, RunEnd::Done(SUMMARY));
    expect(&rt, (2, 1), &NAMES, RunEnd::Done(SUMMARY));
}

/// The downlink is the uplink, the outgoing list, or the received file.
#[test]
fn files_that_are_one(rt: HostRuntime) {
    expect(&rt, (1, 1), &NAMES, RunEnd::CannotOpen(Stream::Downlink));
    expect(&rt, (1, 2), &NAMES, RunEnd::CannotOpen(Stream::Downlink));
    expect(&rt, (1, 4), &NAMES, RunEnd::CannotOpen(Stream::Received));
}

/// A run without this one of its files can't open it.
fn expect_cannot_open(rt: &(impl Abort + AllocGlobal), at: usize, stream: Stream) {
    let mut names = NAMES;
    if let Some(name) = names.get_mut(at) {
        *name = "nowhere";
    }
    expect(rt, (1, 3), &names, RunEnd::CannotOpen(stream));
}

#[test]
fn files_that_cannot_be_opened(rt: HostRuntime) {
    expect_cannot_open(&rt, 0, Stream::Uplink);
    expect_cannot_open(&rt, 1, Stream::Outgoing);
    expect_cannot_open(&rt, 2, Stream::Downlink);
    expect_cannot_open(&rt, 3, Stream::Received);
}

/// A run between `up`, `down` and these ends at the end of its files.
fn expect_done(
    rt: &(impl Abort + AllocGlobal),
    outgoing: Option<Place<'static>>,
    received: Option<Place<'static>>,
) {
    let places = Places {
        uplink: Place::Path("up"),
        outgoing,
        downlink: Place::Path("down"),
        received,
    };
    let end = end_of(rt, (1, 3), false, &places);
    are_same(rt, "end", &end, &RunEnd::Done(SUMMARY));
}

/// A run without an outgoing list is one over a list without records, and one without a received file counts the same.
#[test]
fn lists_that_are_left_out(rt: HostRuntime) {
    expect_done(&rt, None, None);
    expect_done(&rt, Some(Place::Path("out")), None);
    expect_done(&rt, None, Some(Place::Path("in")));
}

/// A run whose standard output is a terminal ends so.
fn expect_at_a_terminal(
    rt: &(impl Abort + AllocGlobal),
    downlink: &'static str,
    received: &'static str,
    end: RunEnd,
) {
    let places = Places {
        uplink: Place::Path("up"),
        outgoing: None,
        downlink: Place::named(downlink),
        received: Some(Place::named(received)),
    };
    are_same(rt, "end", &end_of(rt, (1, 3), true, &places), &end);
}

/// What is sent to standard output isn't sent to a terminal, and a file is.
#[test]
fn terminals_get_no_octets(rt: HostRuntime) {
    expect_at_a_terminal(&rt, "-", "in", RunEnd::Terminal(Stream::Downlink));
    expect_at_a_terminal(&rt, "down", "-", RunEnd::Terminal(Stream::Received));
    expect_at_a_terminal(&rt, "down", "in", RunEnd::Done(SUMMARY));
}
