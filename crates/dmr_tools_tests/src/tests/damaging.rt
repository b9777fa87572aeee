//! The command line of `damage`.
use super::stand_in::{AT_A_TERMINAL, PLAIN, are_same, expect_printed, expect_refused, requested};
use dmr_damage::Damage;
use dmr_tools::Request;
use std::process::Abort;

/// The damage and the seed that these words ask for, between these places.
fn damage_asked(
    rt: &impl AllocGlobal,
    words: &[&str],
    input: &str,
    output: &str,
) -> Option<(Damage, u64)> {
    match requested(rt, words)? {
        Request::Damage {
            damage,
            seed,
            places,
        } if places.input.name() == input && places.output.name() == output => Some((damage, seed)),
        _ => None,
    }
}

#[test]
fn damage_within_limits_that_is_asked_for(rt: HostRuntime) {
    let words = ["dmrgate", "damage", "up", "-"];
    let plain = (Damage::WithinLimits { colour: 1 }, 0);
    assert!(rt; damage_asked(&rt, &words, "up", "-") == Some(plain));
    let words = [
        "dmrgate",
        "damage",
        "--colour",
        "13",
        "-",
        "--seed=18446744073709551615",
        "out",
    ];
    let own = (Damage::WithinLimits { colour: 13 }, u64::MAX);
    assert!(rt; damage_asked(&rt, &words, "-", "out") == Some(own));
}

#[test]
fn damage_at_a_rate_that_is_asked_for(rt: HostRuntime) {
    for (option, errors, loss) in [
        ("--errors=10000", 10_000, 0),
        ("--errors=0", 0, 0),
        ("--loss=7", 0, 7),
    ] {
        let words = ["dmrgate", "damage", "up", "out", option, "--seed", "5"];
        let rates = (Damage::AtRate { errors, loss }, 5);
        let asked = damage_asked(&rt, &words, "up", "out");
        are_same(&rt, option, &asked, &Some(rates));
    }
    let words = [
        "dmrgate", "damage", "up", "out", "--loss", "3", "--errors", "4",
    ];
    let rates = (Damage::AtRate { errors: 4, loss: 3 }, 0);
    assert!(rt; damage_asked(&rt, &words, "up", "out") == Some(rates));
}

#[test]
fn damage_that_is_refused(rt: HostRuntime) {
    for (first, second) in [
        ("--colour", "16"),
        ("--errors", "10001"),
        ("--loss", "10001"),
        ("--seed", "18446744073709551616"),
        ("--colour=1", "--errors=1"),
        ("--loss=1", "--color=1"),
    ] {
        let words = ["dmrgate", "damage", "up", "out", first, second];
        expect_refused(&rt, &words);
    }
}

/// The words for two files end with this status, and print so to either sink.
fn expect_of_damage(
    rt: &(impl Abort + AllocGlobal),
    files: (&str, &str),
    status: u8,
    out: &str,
    err: &str,
) {
    let words = ["dmrgate", "damage", files.0, files.1];
    expect_printed(rt, &PLAIN, &words, status, out, err);
}

#[test]
fn what_is_printed_of_damage(rt: HostRuntime) {
    let counts = "frames 0 bursts 0 changed 0 silenced 0 bits 0\n";
    expect_of_damage(&rt, ("up", "out"), 0, counts, "");
    expect_of_damage(&rt, ("up", "-"), 0, "", counts);
    // A recording isn't sent to a terminal.
    let words = ["dmrgate", "damage", "up", "-"];
    let refused = "error: -: standard output is a terminal\n";
    expect_printed(&rt, &AT_A_TERMINAL, &words, 1, "", refused);
}

#[test]
fn files_that_are_not_damaged(rt: HostRuntime) {
    let nowhere = "error: nowhere: cannot open\n";
    expect_of_damage(&rt, ("nowhere", "out"), 1, "", nowhere);
    let twin = "error: twin: cannot open\n";
    expect_of_damage(&rt, ("up", "twin"), 1, "", twin);
    let full = "error: full: write failed\n";
    expect_of_damage(&rt, ("up", "full"), 1, "", full);
    let text = "error: text: bad magic at octet 0\n";
    expect_of_damage(&rt, ("text", "out"), 1, "", text);
    let downlink = "error: down: not an uplink\n";
    expect_of_damage(&rt, ("down", "out"), 1, "", downlink);
}
