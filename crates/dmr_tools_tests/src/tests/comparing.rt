//! The command line of `compare`.
use super::stand_in::{PLAIN, expect_printed, expect_refused, requested};
use dmr_compare::{CompareSettings, Ignored, Shift};
use dmr_tools::{Comparison, Request};
use std::process::Abort;

/// What these words ask a comparison for.
fn asked<'a>(rt: &impl AllocGlobal, words: &'a [&'a str]) -> Option<Comparison<'a>> {
    match requested(rt, words)? {
        Request::Compare(comparison) => Some(comparison),
        _ => None,
    }
}

#[test]
fn comparison_that_is_asked_for(rt: HostRuntime) {
    let words = ["dmrgate", "compare", "up", "-"];
    let Comparison {
        first,
        second,
        settings,
    } = asked(&rt, &words).expect(&rt, "no comparison");
    let plain = CompareSettings {
        shift: None,
        ignored: Ignored::default(),
        is_quiet: false,
    };
    assert!(rt; first.name() == "up" && second.is_standard() && settings == plain);
}

#[test]
fn comparison_with_all_options(rt: HostRuntime) {
    let words = [
        "dmrgate", "compare", "--ignore", "vocoder", "-", "down", "--shift", "-1048576", "--quiet",
    ];
    let Comparison {
        first,
        second,
        settings,
    } = asked(&rt, &words).expect(&rt, "no comparison");
    let some = CompareSettings {
        shift: Some(Shift::Earlier(1_048_576)),
        ignored: Ignored {
            cach: false,
            vocoder: true,
        },
        is_quiet: true,
    };
    assert!(rt; first.is_standard() && second.name() == "down" && settings == some);
}

#[test]
fn comparison_that_ignores_both(rt: HostRuntime) {
    let words = [
        "dmrgate",
        "compare",
        "up",
        "down",
        "--shift=7",
        "--ignore=cach",
        "--ignore",
        "vocoder",
    ];
    let settings = asked(&rt, &words).expect(&rt, "no comparison").settings;
    let both = Ignored {
        cach: true,
        vocoder: true,
    };
    assert!(rt; settings.shift == Some(Shift::Later(7)) && settings.ignored == both);
}

#[test]
fn comparisons_that_are_refused(rt: HostRuntime) {
    for (option, value) in [
        ("--shift", "1048577"),
        ("--shift", "-1048577"),
        ("--shift", "one"),
        ("--ignore", "burst"),
    ] {
        let words = ["dmrgate", "compare", "up", "down", option, value];
        expect_refused(&rt, &words);
    }
}

/// The words for two files end with this status, and print so to either sink.
fn expect_of_comparison(
    rt: &(impl Abort + AllocGlobal),
    files: (&str, &str),
    status: u8,
    out: &str,
    err: &str,
) {
    let words = ["dmrgate", "compare", files.0, files.1];
    expect_printed(rt, &PLAIN, &words, status, out, err);
}

#[test]
fn what_is_printed_of_comparisons(rt: HostRuntime) {
    let same = "records 0 same 0 different 0 only-in-A 0 only-in-B 0\n";
    expect_of_comparison(&rt, ("up", "up"), 0, same, "");
    expect_of_comparison(&rt, ("-", "up"), 0, same, "");
    let nowhere = "error: nowhere: cannot open\n";
    expect_of_comparison(&rt, ("nowhere", "up"), 2, "", nowhere);
    expect_of_comparison(&rt, ("up", "nowhere"), 2, "", nowhere);
    let shared = "error: A and B can't both be standard input\n";
    expect_of_comparison(&rt, ("-", "-"), 2, "", shared);
}
