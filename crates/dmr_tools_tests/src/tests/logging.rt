//! The command line of `log`.
use super::stand_in::{PLAIN, are_same, expect_printed, expect_refused, requested};
use dmr_log_forms::{LogForm, LogSettings, StartTime};
use dmr_log_page::PageSettings;
use dmr_show::Filter;
use dmr_tools::{LogRefusal, Request};

/// What these words ask a log for, and the name of its recording.
fn asked<'a>(rt: &impl AllocGlobal, words: &'a [&'a str]) -> Option<(&'a str, LogSettings)> {
    match requested(rt, words)? {
        Request::Log { name, settings } => Some((name, settings)),
        _ => None,
    }
}

/// Why these words of `log` are refused.
fn refused(rt: &impl AllocGlobal, words: &[&str]) -> Option<LogRefusal> {
    match requested(rt, words)? {
        Request::LogRefused(refusal) => Some(refusal),
        _ => None,
    }
}

#[test]
fn log_that_is_asked_for(rt: HostRuntime) {
    let words = ["dmrgate", "log", "up"];
    let (name, settings) = asked(&rt, &words).expect(&rt, "no log");
    let all = Filter {
        slot: None,
        from: None,
        to: None,
    };
    assert!(rt; name == "up" && settings.form == LogForm::Lines && settings.filter == all);
    assert!(rt; settings.colour == 1 && settings.address.is_none());
    assert!(rt; settings.start.is_none());
}

#[test]
fn table_that_is_asked_for(rt: HostRuntime) {
    let words = ["dmrgate", "log", "up", "--csv"];
    let (_name, settings) = asked(&rt, &words).expect(&rt, "no log");
    assert!(rt; settings.form == LogForm::Table);
}

#[test]
fn log_with_all_options(rt: HostRuntime) {
    let words = [
        "dmrgate",
        "log",
        "--color",
        "15",
        "--llid",
        "16777215",
        "-",
        "--start",
        "2026-01-31T12:00:00Z",
        "--json",
        "--slot",
        "2",
        "--from",
        "9",
        "--to",
        "9",
    ];
    let (name, settings) = asked(&rt, &words).expect(&rt, "no log");
    let some = Filter {
        slot: Some(2),
        from: Some(9),
        to: Some(9),
    };
    assert!(rt; name == "-" && settings.form == LogForm::Json && settings.filter == some);
    assert!(rt; settings.colour == 15);
    are_same(&rt, "address", &settings.address, &Some(16_777_215));
    assert!(rt; settings.start == StartTime::read("2026-01-31T12:00:00Z"));
}

#[test]
fn logs_that_are_refused(rt: HostRuntime) {
    let backwards = ["dmrgate", "log", "up", "--from", "9", "--to", "3"];
    assert!(rt; refused(&rt, &backwards) == Some(LogRefusal::Backwards));
    let time = ["dmrgate", "log", "up", "--start", "noon"];
    assert!(rt; refused(&rt, &time) == Some(LogRefusal::Time));
}

#[test]
fn words_of_log_that_are_refused(rt: HostRuntime) {
    expect_refused(&rt, &["dmrgate", "log", "up", "--colour", "16"]);
    expect_refused(&rt, &["dmrgate", "log", "up", "--llid", "0"]);
    expect_refused(&rt, &["dmrgate", "log", "up", "--llid", "16777216"]);
    expect_refused(&rt, &["dmrgate", "log", "up", "--csv", "--json"]);
}

#[test]
fn what_is_printed_of_a_log(rt: HostRuntime) {
    let empty = "frames 0 seconds 0.00 calls 0 packets 0 controls 0 repeated 0\n";
    let refusal = "error: --start is no time, as 2026-01-31T12:00:00Z\n";
    expect_printed(&rt, &PLAIN, &["dmrgate", "log", "up"], 0, empty, "");
    let nowhere = ["dmrgate", "log", "nowhere"];
    expect_printed(
        &rt,
        &PLAIN,
        &nowhere,
        1,
        "",
        "error: nowhere: cannot open\n",
    );
    let time = ["dmrgate", "log", "up", "--start", "noon"];
    expect_printed(&rt, &PLAIN, &time, 2, "", refusal);
    let backwards = ["dmrgate", "log", "up", "--from", "9", "--to", "3"];
    expect_printed(
        &rt,
        &PLAIN,
        &backwards,
        2,
        "",
        "error: --from is beyond --to\n",
    );
}

/// What these words ask the page of a log for, and the name of its recording.
fn asked_for_a_page<'a>(
    rt: &impl AllocGlobal,
    words: &'a [&'a str],
) -> Option<(&'a str, PageSettings)> {
    match requested(rt, words)? {
        Request::LogPage { name, settings } => Some((name, settings)),
        _ => None,
    }
}

#[test]
fn page_that_is_asked_for(rt: HostRuntime) {
    let words = ["dmrgate", "log", "up", "--html"];
    let (name, settings) = asked_for_a_page(&rt, &words).expect(&rt, "no page");
    assert!(rt; name == "up" && settings.colour == 1 && settings.address.is_none());
    assert!(rt; settings.start.is_none());
}

#[test]
fn page_with_all_options(rt: HostRuntime) {
    let words = [
        "dmrgate",
        "log",
        "--html",
        "--colour",
        "15",
        "--llid",
        "9",
        "-",
        "--start",
        "2026-01-31T12:00:00Z",
    ];
    let (name, settings) = asked_for_a_page(&rt, &words).expect(&rt, "no page");
    assert!(rt; name == "-" && settings.colour == 15);
    are_same(&rt, "address", &settings.address, &Some(9));
    assert!(rt; settings.start == StartTime::read("2026-01-31T12:00:00Z"));
}

#[test]
fn pages_that_are_refused(rt: HostRuntime) {
    for form in ["--csv", "--json"] {
        let both = ["dmrgate", "log", "up", "--html", form];
        expect_refused(&rt, &both);
    }
    for some in ["--slot", "--from", "--to"] {
        let both = ["dmrgate", "log", "up", some, "1", "--html"];
        expect_refused(&rt, &both);
    }
}
