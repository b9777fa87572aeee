//! Which word goes where, the ends of ranges, and what is printed where, with which status.
use crate::tests::stand_in::StandIn;
use crate::tests::{are_same, has_taken};
use dmr_command::{Places, Request, SharedStream, request_of};
use dmr_files::Place;
use dmr_gateway::{Config, ConfigFault};
use dmr_program::obey;
use dmr_record::ToWrite;
use std::alloc::Global;
use std::process::Abort;

/// The words of a run with all that is required.
const RUN: [&str; 12] = [
    "dmrgate",
    "run",
    "--uplink",
    "up",
    "--outgoing",
    "out",
    "--downlink",
    "down",
    "--received",
    "in",
    "--llid",
    "1",
];

/// Five numbers, each by its own option, in another order than that of help.
const OTHER_ORDER: [&str; 20] = [
    "dmrgate",
    "run",
    "--queue",
    "17",
    "--channel-hang",
    "300",
    "--received",
    "in",
    "--downlink",
    "down",
    "--outgoing",
    "out",
    "--uplink",
    "up",
    "--call-hang",
    "20",
    "--colour",
    "7",
    "--llid",
    "70000",
];

/// The words of a run with no more than is required, whose downlink goes to standard output.
const BESIDE: [&str; 8] = [
    "dmrgate",
    "run",
    "--uplink",
    "up",
    "--downlink",
    "-",
    "--llid",
    "1",
];

/// The numbers of a run whose block is repeated.
const REPEATED: &str =
    "frames 7 repeated 1 received 0 delivered 0 sent 0 given-up 0 refused 0 unoffered 0\n";

/// The words of a run with all that is required, with this address, and one option more.
fn run_with<'a>(llid: &'a str, option: &'a str, value: &'a str) -> [&'a str; 14] {
    [
        "dmrgate",
        "run",
        "--uplink",
        "up",
        "--outgoing",
        "out",
        "--downlink",
        "down",
        "--received",
        "in",
        "--llid",
        llid,
        option,
        value,
    ]
}

/// The words of a run, with hyphens in these places.
fn run_with_hyphens(places: &[usize]) -> [&'static str; 12] {
    let mut words = RUN;
    for place in places {
        if let Some(word) = words.get_mut(*place) {
            *word = "-";
        }
    }
    words
}

/// What words ask a run for.
#[derive(Clone, Copy)]
struct Run<'a> {
    config: Result<Config, ConfigFault>,
    places: Places<'a>,
    is_verbose: bool,
}

/// What these words ask for, where they aren't refused.
fn asked<'a>(alloc: Global, words: &'a [&'a str]) -> Option<Request<'a>> {
    request_of(alloc, words).ok()
}

/// The run that these words ask for.
fn run_asked<'a>(alloc: Global, words: &'a [&'a str]) -> Option<Run<'a>> {
    match asked(alloc, words)? {
        Request::Run {
            config,
            places,
            is_verbose,
        } => Some(Run {
            config,
            places,
            is_verbose,
        }),
        _ => None,
    }
}

/// The standard stream that two files of a run can't both be.
fn shared_stream(alloc: Global, words: &[&str]) -> Option<SharedStream> {
    match asked(alloc, words)? {
        Request::Shared(stream) => Some(stream),
        _ => None,
    }
}

/// The burst of which these words ask what it is.
fn burst_asked<'a>(alloc: Global, words: &'a [&'a str]) -> Option<&'a str> {
    match asked(alloc, words)? {
        Request::Slot(burst) => Some(burst),
        _ => None,
    }
}

/// These words ask for a run with these settings, which may be refused.
fn expect_settings(
    rt: &(impl Abort + AllocGlobal),
    words: &[&str],
    wanted: Result<Config, ConfigFault>,
) {
    let run = run_asked(rt.alloc(), words).expect(rt, "no run");
    are_same(rt, "settings", &run.config, &wanted);
}

/// A place is named by the word that stands there.
fn expect_named(rt: &impl Abort, place: Option<Place<'_>>, words: &[&str], at: usize) {
    let name = place.map(|place| place.name());
    are_same(rt, "place", &name, &words.get(at).copied());
}

/// These words of a run name its files.
fn expect_places(rt: &(impl Abort + AllocGlobal), words: &[&str]) {
    let places = run_asked(rt.alloc(), words).expect(rt, "no run").places;
    expect_named(rt, Some(places.uplink), words, 3);
    expect_named(rt, places.outgoing, words, 5);
    expect_named(rt, Some(places.downlink), words, 7);
    expect_named(rt, places.received, words, 9);
}

/// Each option names a file, or a standard stream by a hyphen, and no other option does then.
#[test]
fn places_by_their_options(rt: HostRuntime) {
    for hyphen in [0usize, 3, 5, 7, 9] {
        expect_places(&rt, &run_with_hyphens(&[hyphen]));
    }
}

/// Lists may be left out.
#[test]
fn places_that_are_left_out(rt: HostRuntime) {
    let places = run_asked(rt.alloc(), &BESIDE).expect(&rt, "no run").places;
    assert!(rt; places.outgoing.is_none());
    assert!(rt; places.received.is_none());
    assert!(rt; places.take_output());
}

/// Two files can't be one standard stream.
#[test]
fn files_that_share_a_stream(rt: HostRuntime) {
    for (files, shared) in [
        ([3, 5], SharedStream::Input),
        ([7, 9], SharedStream::Output),
    ] {
        let words = run_with_hyphens(&files);
        assert!(rt; shared_stream(rt.alloc(), &words) == Some(shared));
    }
}

#[test]
fn settings_by_their_options(rt: HostRuntime) {
    expect_settings(&rt, &RUN, Config::new(1, 1, 3, 5, 9));
    expect_settings(&rt, &OTHER_ORDER, Config::new(7, 70_000, 20, 300, 17));
}

/// One option more asks for these settings.
fn expect_option(
    rt: &(impl Abort + AllocGlobal),
    option: &str,
    value: &str,
    wanted: Result<Config, ConfigFault>,
) {
    expect_settings(rt, &run_with("1", option, value), wanted);
}

/// The ends of ranges, and another spelling.
#[test]
fn colours_and_addresses(rt: HostRuntime) {
    expect_option(&rt, "--colour", "0", Config::new(0, 1, 3, 5, 9));
    expect_option(&rt, "--colour", "15", Config::new(15, 1, 3, 5, 9));
    expect_option(&rt, "--color", "2", Config::new(2, 1, 3, 5, 9));
    let greatest = run_with("16777215", "--colour", "1");
    expect_settings(&rt, &greatest, Config::new(1, 16_777_215, 3, 5, 9));
}

/// The ends of ranges, and hangs that don't fit.
#[test]
fn call_hangs(rt: HostRuntime) {
    expect_option(&rt, "--call-hang", "0", Config::new(1, 1, 0, 5, 9));
    expect_option(&rt, "--call-hang", "5", Config::new(1, 1, 5, 5, 9));
    expect_option(&rt, "--call-hang", "6", Config::new(1, 1, 6, 5, 9));
    expect_option(&rt, "--call-hang", "65535", Config::new(1, 1, 65_535, 5, 9));
}

/// The ends of ranges, and hangs that don't fit.
#[test]
fn channel_hangs(rt: HostRuntime) {
    expect_option(&rt, "--channel-hang", "3", Config::new(1, 1, 3, 3, 9));
    expect_option(
        &rt,
        "--channel-hang",
        "65535",
        Config::new(1, 1, 3, 65_535, 9),
    );
    expect_option(&rt, "--channel-hang", "2", Config::new(1, 1, 3, 2, 9));
    expect_option(&rt, "--channel-hang", "0", Config::new(1, 1, 3, 0, 9));
}

/// The ends of the range.
#[test]
fn queues(rt: HostRuntime) {
    expect_option(&rt, "--queue", "1", Config::new(1, 1, 3, 5, 1));
    expect_option(&rt, "--queue", "64", Config::new(1, 1, 3, 5, 64));
}

/// More is told where that is asked for, and only there.
#[test]
fn more_where_it_is_asked_for(rt: HostRuntime) {
    for (option, value, wanted) in [("--queue", "1", false), ("--verbose", "--queue=1", true)] {
        let words = run_with("1", option, value);
        let run = run_asked(rt.alloc(), &words).expect(&rt, "no run");
        are_same(&rt, option, &run.is_verbose, &wanted);
    }
}

#[test]
fn burst_of_a_slot(rt: HostRuntime) {
    let asked = burst_asked(rt.alloc(), &["dmrgate", "slot", "00FF"]);
    assert!(rt; asked == Some("00FF"));
}

/// These words end with this status, and print so to either sink.
fn expect_obeyed(
    rt: &(impl Abort + AllocGlobal),
    words: &[&str],
    status: u8,
    out: &str,
    err: &str,
) {
    let alloc = rt.alloc();
    let system = StandIn {
        downlink: (1, 3),
        is_terminal: false,
    };
    let mut output = ToWrite::new(Vec::new(alloc));
    let mut errors = ToWrite::new(Vec::new(alloc));
    let ended = obey(alloc, words, &system, &mut output, &mut errors);
    are_same(rt, "status", &ended, &status);
    has_taken(rt, output, out);
    has_taken(rt, errors, err);
}

#[test]
fn version_that_is_asked_for(rt: HostRuntime) {
    expect_obeyed(&rt, &["other", "-V"], 0, "dmrgate 0.3.0\n", "");
}

#[test]
fn bursts_that_are_told(rt: HostRuntime) {
    let told = "data BS, colour 1, type 9, information FF83DF1732094ED1E7CD8A91\n";
    expect_obeyed(
        &rt,
        &[
            "dmrgate",
            "slot",
            "53C25EABA8671DC7383BD936065DFF57D75DF5D92BF6E465171B48CA6D4FC610B4",
        ],
        0,
        told,
        "",
    );
    let refused = "error: a burst is 66 hexadecimal digits\n";
    expect_obeyed(&rt, &["dmrgate", "slot", "00FF"], 2, "", refused);
}

#[test]
fn runs_that_are_obeyed(rt: HostRuntime) {
    expect_obeyed(&rt, &RUN, 0, REPEATED, "");
    expect_obeyed(&rt, &BESIDE, 0, "", REPEATED);
}

#[test]
fn run_that_tells_more(rt: HostRuntime) {
    expect_obeyed(
        &rt,
        &[
            "dmrgate",
            "run",
            "--uplink",
            "up",
            "--downlink",
            "down",
            "--llid",
            "1",
            "--verbose",
        ],
        0,
        REPEATED,
        "",
    );
}

#[test]
fn run_that_repeats_nothing(rt: HostRuntime) {
    let counts =
        "frames 7 repeated 0 received 0 delivered 0 sent 0 given-up 0 refused 0 unoffered 0\n";
    let told =
        "error: up: nothing was repeated: bursts 1, of other colour codes 1, of base stations 0\n";
    expect_obeyed(
        &rt,
        &[
            "dmrgate",
            "run",
            "--uplink",
            "up",
            "--downlink",
            "down",
            "--llid",
            "1",
            "--verbose",
            "--colour",
            "2",
        ],
        0,
        counts,
        told,
    );
}

#[test]
fn run_of_no_uplink(rt: HostRuntime) {
    let told = "error: uplink: cannot open\nerror: no?where: cannot open: entity not found\n";
    expect_obeyed(
        &rt,
        &[
            "dmrgate",
            "run",
            "--uplink",
            "no\nwhere",
            "--downlink",
            "down",
            "--llid",
            "1",
            "--verbose",
        ],
        1,
        "",
        told,
    );
}

#[test]
fn run_of_two_files_at_standard_input(rt: HostRuntime) {
    let told = "error: --uplink and --outgoing can't both be standard input\n";
    expect_obeyed(
        &rt,
        &[
            "dmrgate",
            "run",
            "--uplink",
            "-",
            "--outgoing",
            "-",
            "--downlink",
            "down",
            "--llid",
            "1",
        ],
        2,
        "",
        told,
    );
}
