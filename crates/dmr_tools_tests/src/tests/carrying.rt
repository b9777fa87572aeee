//! The command lines of `import` and `export`.
use super::stand_in::{StandIn, TEXT, are_same, expect_printed, expect_refused, requested};
use dmr_tools::{ExportFormat, ImportFormat, PairPlaces, Request};
use std::process::Abort;

/// Between which places these words ask to carry a text.
fn places_asked<'a>(rt: &impl AllocGlobal, words: &'a [&'a str]) -> Option<PairPlaces<'a>> {
    match requested(rt, words)? {
        Request::Import {
            format: ImportFormat::Text,
            places,
        }
        | Request::Export {
            format: ExportFormat::Text,
            places,
        } => Some(places),
        _ => None,
    }
}

/// These words ask to carry a file from this place to that one.
fn expect_carried(rt: &(impl Abort + AllocGlobal), words: &[&str], input: &str, output: &str) {
    let places = places_asked(rt, words).expect(rt, "no text is carried");
    assert!(rt; places.input.name() == input && places.output.name() == output);
    are_same(rt, input, &places.input.is_standard(), &(input == "-"));
    are_same(rt, output, &places.output.is_standard(), &(output == "-"));
}

#[test]
fn files_in_their_order(rt: HostRuntime) {
    for command in ["import", "export"] {
        expect_carried(&rt, &["dmrgate", command, "text", "-", "out"], "-", "out");
        expect_carried(&rt, &["dmrgate", command, "text", "in", "-"], "in", "-");
        expect_carried(
            &rt,
            &["dmrgate", command, "text", "--", "-in", "./-"],
            "-in",
            "./-",
        );
    }
}

#[test]
fn words_of_import_and_export_that_are_refused(rt: HostRuntime) {
    for command in ["import", "export"] {
        expect_refused(&rt, &["dmrgate", command, "text", "in"]);
        expect_refused(&rt, &["dmrgate", command, "words", "in", "out"]);
        expect_refused(&rt, &["dmrgate", command, "text", "in", "out", "more"]);
    }
}

#[test]
fn import_is_no_export(rt: HostRuntime) {
    let words = ["dmrgate", "import", "text", "in", "out"];
    assert!(rt; matches!(requested(&rt, &words), Some(Request::Import { .. })));
    let words = ["dmrgate", "export", "text", "in", "out"];
    assert!(rt; matches!(requested(&rt, &words), Some(Request::Export { .. })));
}

/// How much a recording of no frames is.
const COUNTS: &str = "frames 0 records 0\n";

/// These words end with this status, and print so, on a terminal or not.
fn expect_anywhere(
    rt: &(impl Abort + AllocGlobal),
    words: &[&str],
    status: u8,
    out: &str,
    err: &str,
) {
    for is_terminal in [false, true] {
        let system = StandIn {
            input: TEXT,
            is_terminal,
        };
        expect_printed(rt, &system, words, status, out, err);
    }
}

/// What an export prints.
fn expect_export(rt: &(impl Abort + AllocGlobal), input: &str, output: &str, out: &str, err: &str) {
    let words = ["dmrgate", "export", "text", input, output];
    expect_anywhere(rt, &words, 0, out, err);
}

/// What an export says that fails.
fn expect_no_export(rt: &(impl Abort + AllocGlobal), input: &str, output: &str, err: &str) {
    let words = ["dmrgate", "export", "text", input, output];
    expect_anywhere(rt, &words, 1, "", err);
}

#[test]
fn what_is_printed_of_an_export(rt: HostRuntime) {
    expect_export(&rt, "up", "out", COUNTS, "");
    expect_export(&rt, "up", "-", "", COUNTS);
}

#[test]
fn exports_that_fail(rt: HostRuntime) {
    let nowhere = "error: nowhere: cannot open\n";
    expect_no_export(&rt, "nowhere", "out", nowhere);
    expect_no_export(&rt, "no\nwhere", "-", "error: no?where: cannot open\n");
    expect_no_export(&rt, "up", "nowhere", nowhere);
    // The input under its other name, and the file behind standard output.
    expect_no_export(&rt, "up", "twin", "error: twin: cannot open\n");
    expect_no_export(&rt, "up", "printed", "error: printed: cannot open\n");
    expect_no_export(&rt, "up", "full", "error: full: write failed\n");
    expect_no_export(&rt, "text", "-", "error: text: bad magic at octet 0\n");
}

/// What an import prints.
fn expect_import(rt: &(impl Abort + AllocGlobal), input: &str, output: &str) {
    let words = ["dmrgate", "import", "text", input, output];
    expect_anywhere(rt, &words, 0, COUNTS, "");
}

/// What an import says that fails.
fn expect_no_import(rt: &(impl Abort + AllocGlobal), input: &str, output: &str, err: &str) {
    let words = ["dmrgate", "import", "text", input, output];
    expect_anywhere(rt, &words, 1, "", err);
}

#[test]
fn what_is_printed_of_an_import(rt: HostRuntime) {
    expect_import(&rt, "text", "out");
    expect_import(&rt, "-", "out");
}

#[test]
fn imports_that_fail(rt: HostRuntime) {
    let nowhere = "error: nowhere: cannot open\n";
    expect_no_import(&rt, "nowhere", "out", nowhere);
    expect_no_import(&rt, "text", "nowhere", nowhere);
    let twin = "error: text twin: cannot open\n";
    expect_no_import(&rt, "text", "text twin", twin);
    expect_no_import(&rt, "text", "printed", "error: printed: cannot open\n");
    expect_no_import(&rt, "text", "full", "error: full: write failed\n");
    expect_no_import(&rt, "up", "out", "error: up: line 1: no first line\n");
}

/// A file isn't sent to a terminal, and nothing is opened for it.
#[test]
fn imports_to_standard_output(rt: HostRuntime) {
    let pipe = StandIn {
        input: TEXT,
        is_terminal: false,
    };
    let terminal = StandIn {
        is_terminal: true,
        ..pipe
    };
    let words = ["dmrgate", "import", "text", "text", "-"];
    expect_printed(&rt, &pipe, &words, 0, "", COUNTS);
    let refused = "error: -: standard output is a terminal\n";
    expect_printed(&rt, &terminal, &words, 1, "", refused);
    let nowhere = ["dmrgate", "import", "text", "nowhere", "-"];
    expect_printed(&rt, &terminal, &nowhere, 1, "", refused);
}
