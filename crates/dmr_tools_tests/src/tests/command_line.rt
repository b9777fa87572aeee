//! The command line of `show`.
use super::stand_in::{PLAIN, expect_printed, expect_refused, requested};
use dmr_show::{Filter, Form};
use dmr_tools::Request;

#[test]
fn listing_that_is_asked_for(rt: HostRuntime) {
    let words = ["dmrgate", "show", "up"];
    let all = Filter {
        slot: None,
        from: None,
        to: None,
    };
    let Some(Request::Show { name, form, filter }) = requested(&rt, &words) else {
        panic!(rt; "no listing");
    };
    assert!(rt; name == "up" && form == Form::Listing && filter == all);
}

#[test]
fn strip_that_is_asked_for(rt: HostRuntime) {
    let words = [
        "dmrgate",
        "show",
        "--to",
        "4294967295",
        "--slot",
        "2",
        "-",
        "--strip",
        "--from",
        "9",
    ];
    let some = Filter {
        slot: Some(2),
        from: Some(9),
        to: Some(4_294_967_295),
    };
    let Some(Request::Show { name, form, filter }) = requested(&rt, &words) else {
        panic!(rt; "no listing");
    };
    assert!(rt; name == "-" && form == Form::Strip && filter == some);
}

#[test]
fn filters_that_are_refused(rt: HostRuntime) {
    for (option, value) in [
        ("--slot", "0"),
        ("--slot", "3"),
        ("--from", "4294967296"),
        ("--to", "-1"),
    ] {
        let words = ["dmrgate", "show", "up", option, value];
        expect_refused(&rt, &words);
    }
}

#[test]
fn what_is_printed(rt: HostRuntime) {
    let listed =
        "uplink recording, version 1\nframes 0 seconds 0.00 slot-1 0 slot-2 0 unreadable 0\n";
    for (name, status, out, err) in [
        ("up", 0, listed, ""),
        ("-", 0, listed, ""),
        ("nowhere", 1, "", "error: nowhere: cannot open\n"),
    ] {
        let words = ["dmrgate", "show", name];
        expect_printed(&rt, &PLAIN, &words, status, out, err);
    }
    let backwards = ["dmrgate", "show", "up", "--from", "9", "--to", "8"];
    expect_printed(
        &rt,
        &PLAIN,
        &backwards,
        2,
        "",
        "error: --from is beyond --to\n",
    );
    let one_frame = ["dmrgate", "show", "up", "--from", "9", "--to", "9"];
    expect_printed(&rt, &PLAIN, &one_frame, 0, listed, "");
}
