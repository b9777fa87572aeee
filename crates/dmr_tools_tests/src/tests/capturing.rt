//! The command lines of captures of datagrams.
use super::stand_in::{AT_A_TERMINAL, PLAIN, expect_printed, expect_refused, requested};
use dmr_datagrams::{ExportSettings, ImportSettings};
use dmr_tools::{ExportFormat, ImportFormat, PairPlaces, Request};

/// Whether these places are the files of the words.
fn are_in_and_out(places: PairPlaces<'_>) -> bool {
    places.input.name() == "in" && places.output.name() == "out"
}

/// How these words ask to make a list of a capture.
fn list_asked(rt: &impl AllocGlobal, words: &[&str]) -> Option<ImportSettings> {
    match requested(rt, words)? {
        Request::Import {
            format: ImportFormat::Datagrams(settings),
            places,
        } if are_in_and_out(places) => Some(settings),
        _ => None,
    }
}

/// How these words ask to write a capture of a list.
fn capture_asked(rt: &impl AllocGlobal, words: &[&str]) -> Option<ExportSettings> {
    match requested(rt, words)? {
        Request::Export {
            format: ExportFormat::Datagrams(settings),
            places,
        } if are_in_and_out(places) => Some(settings),
        _ => None,
    }
}

#[test]
fn lists_of_captures_that_are_asked_for(rt: HostRuntime) {
    let words = ["dmrgate", "import", "datagrams", "in", "out", "--slot", "2"];
    let plain = ImportSettings {
        slot: 2,
        confirmed: false,
        full: false,
        first_frame: 0,
    };
    assert!(rt; list_asked(&rt, &words) == Some(plain));
    let words = [
        "dmrgate",
        "import",
        "datagrams",
        "in",
        "out",
        "--slot=2",
        "--full-rate",
    ];
    let full = ImportSettings {
        full: true,
        ..plain
    };
    assert!(rt; list_asked(&rt, &words) == Some(full));
}

#[test]
fn confirmed_list_of_a_capture_that_is_asked_for(rt: HostRuntime) {
    let words = [
        "dmrgate",
        "import",
        "datagrams",
        "--confirmed",
        "in",
        "--first-frame=4294967295",
        "out",
        "--slot=1",
    ];
    let confirmed = ImportSettings {
        slot: 1,
        confirmed: true,
        full: false,
        first_frame: u32::MAX,
    };
    assert!(rt; list_asked(&rt, &words) == Some(confirmed));
}

#[test]
fn lists_of_captures_that_are_refused(rt: HostRuntime) {
    for slot in ["--slot=0", "--slot=3", "--full-rate"] {
        let words = ["dmrgate", "import", "datagrams", "in", "out", slot];
        expect_refused(&rt, &words);
    }
}

#[test]
fn captures_of_lists_that_are_asked_for(rt: HostRuntime) {
    let words = ["dmrgate", "export", "datagrams", "in", "out"];
    let plain = ExportSettings {
        slot: None,
        start: 0,
    };
    assert!(rt; capture_asked(&rt, &words) == Some(plain));
    let words = [
        "dmrgate",
        "export",
        "datagrams",
        "in",
        "out",
        "--slot=2",
        "--start=2026-01-31T12:00:00.000001Z",
    ];
    let later = ExportSettings {
        slot: Some(2),
        start: 1_769_860_800_000_001,
    };
    assert!(rt; capture_asked(&rt, &words) == Some(later));
}

#[test]
fn captures_of_lists_at_no_time(rt: HostRuntime) {
    for start in ["--start=now", "--start=1969-12-31T23:59:59Z"] {
        let words = ["dmrgate", "export", "datagrams", "in", "out", start];
        let is_refused = matches!(requested(&rt, &words), Some(Request::NoStart));
        assert!(rt; is_refused, "{start}");
    }
}

#[test]
fn what_is_printed_of_captures(rt: HostRuntime) {
    let words = ["dmrgate", "import", "datagrams", "up", "out", "--slot", "1"];
    expect_printed(&rt, &PLAIN, &words, 1, "", "error: up: no capture\n");
    let words = ["dmrgate", "export", "datagrams", "up", "out"];
    let told = "error: up: bad magic at octet 0\n";
    expect_printed(&rt, &PLAIN, &words, 1, "", told);
    let words = [
        "dmrgate",
        "export",
        "datagrams",
        "up",
        "out",
        "--start",
        "now",
    ];
    let told = "error: --start is no time, as 2026-01-31T12:00:00Z\n";
    expect_printed(&rt, &PLAIN, &words, 2, "", told);
    let words = ["dmrgate", "export", "datagrams", "up", "-"];
    let told = "error: -: standard output is a terminal\n";
    expect_printed(&rt, &AT_A_TERMINAL, &words, 1, "", told);
}
