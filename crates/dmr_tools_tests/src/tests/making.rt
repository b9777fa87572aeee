//! The command line of `make`.
use super::stand_in::{AT_A_TERMINAL, SCRIPT, StandIn, expect_printed, expect_refused, requested};
use dmr_tools::{MakePlaces, Request};
use std::process::Abort;

#[test]
fn recording_that_is_asked_for(rt: HostRuntime) {
    let words = ["dmrgate", "make", "scene", "-"];
    let Some(
        Request::Make(
            MakePlaces {
                script,
                uplink,
                outgoing: None,
            },
        ),
    ) = requested(&rt, &words)
    else {
        panic!(rt; "no script, or a list");
    };
    assert!(rt; script.name() == "scene" && uplink.name() == "-");
    let words = ["dmrgate", "make", "scene"];
    expect_refused(&rt, &words);
}

#[test]
fn recording_and_list_that_are_asked_for(rt: HostRuntime) {
    let words = ["dmrgate", "make", "--outgoing=list", "-", "up"];
    let Some(
        Request::Make(
            MakePlaces {
                script,
                uplink,
                outgoing: Some(outgoing),
            },
        ),
    ) = requested(&rt, &words)
    else {
        panic!(rt; "no script, or no list");
    };
    assert!(rt; script.name() == "-" && uplink.name() == "up" && outgoing.name() == "list");
}

/// The words for a script, its recording and its list end with this status, and print so to either sink.
fn expect_of_script(
    rt: &(impl Abort + AllocGlobal),
    files: (&str, &str, &str),
    status: u8,
    out: &str,
    err: &str,
) {
    let (script, uplink, list) = files;
    let words = ["dmrgate", "make", script, uplink, "--outgoing", list];
    let system = StandIn {
        input: SCRIPT,
        is_terminal: false,
    };
    expect_printed(rt, &system, &words, status, out, err);
}

#[test]
fn what_is_printed_of_scripts(rt: HostRuntime) {
    let counts = "frames 1 slot-1 1 slot-2 0 transmissions 1 datagrams 1\n";
    expect_of_script(&rt, ("scene", "out", "list"), 0, counts, "");
    expect_of_script(&rt, ("scene", "-", "list"), 0, "", counts);
    expect_of_script(&rt, ("-", "out", "-"), 0, "", counts);
    let shared = "error: UPLINK and --outgoing can't both be standard output\n";
    expect_of_script(&rt, ("scene", "-", "-"), 2, "", shared);
}

#[test]
fn scripts_that_fail(rt: HostRuntime) {
    let nowhere = "error: nowhere: cannot open\n";
    expect_of_script(&rt, ("nowhere", "out", "list"), 1, "", nowhere);
    let refused = "error: refused: line 3: unknown word 'grup'\n";
    expect_of_script(&rt, ("refused", "nowhere", "list"), 1, "", refused);
    // The script or the recording once more.
    let scene = "error: scene: cannot open\n";
    expect_of_script(&rt, ("scene", "scene", "list"), 1, "", scene);
    expect_of_script(&rt, ("scene", "out", "scene"), 1, "", scene);
    let out = "error: out: cannot open\n";
    expect_of_script(&rt, ("scene", "out", "out"), 1, "", out);
    let full = "error: full: write failed\n";
    expect_of_script(&rt, ("scene", "full", "list"), 1, "", full);
    expect_of_script(&rt, ("scene", "out", "full"), 1, "", full);
}

#[test]
fn files_of_scripts_to_a_terminal(rt: HostRuntime) {
    let refused = "error: -: standard output is a terminal\n";
    for words in [
        ["dmrgate", "make", "scene", "-", "--outgoing=list"],
        ["dmrgate", "make", "scene", "out", "--outgoing=-"],
    ] {
        expect_printed(&rt, &AT_A_TERMINAL, &words, 1, "", refused);
    }
}
