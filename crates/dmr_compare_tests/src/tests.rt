//! What is printed of two recordings. The lines are worked out from docs/protocol.md, and so are the counts.
use crate::recordings::{CALL, DOWNLINK_BEFORE, DOWNLINK_BEHIND, REPEATED, UPLINK};
use dmr_compare::{
    CompareSettings, DIFFERENT, Differing, FileNames, Ignored, PlaceCounts, SAME, Shift, TROUBLE,
    compare,
};
use dmr_listing::{ListedBurst, RecordingView};
use dmr_record::{FromRead, NextSlot, ToWrite};
use dmr_recording::{RecordedBurst, Recording, read_recording};
use dmr_test_devices::{FailsAt, OneByOne};
use hex::FromHexError;
use std::alloc::Global;
use std::fmt::Debug;
use std::process::Abort;
use std::test::Fail;

/// That both are the same, of what is told where they aren't.
fn are_same<T: PartialEq + Debug>(rt: &impl Abort, what: &str, got: &T, expected: &T) {
    assert_eq!(rt; got, expected, "{what}");
}

/// That these octets are this text.
fn is_text(rt: &impl Abort, what: &str, octets: &[u8], expected: &str) {
    are_same(rt, what, &str::from_utf8(octets).ok(), &Some(expected));
}

/// Everything is compared, with no shift.
pub(crate) const ALL: CompareSettings = CompareSettings {
    shift: None,
    ignored: Ignored {
        cach: false,
        vocoder: false,
    },
    is_quiet: false,
};

/// The names of the files.
const NAMES: FileNames<'static> = FileNames {
    first: "one.dmrd",
    second: "two\n.dmrd",
};

/// What a comparison ends with: its status, what it prints, and what it tells.
#[derive(Drop)]
pub(crate) struct Wanted<'a> {
    pub(crate) status: u8,
    pub(crate) out: &'a str,
    pub(crate) err: &'a str,
}

/// The call that no device lives to fail at.
pub(crate) const NEVER: u64 = u64::MAX;

/// The calls at which each device fails.
#[derive(Clone, Copy, Drop)]
struct Failing {
    first: u64,
    second: u64,
    output: u64,
    errors: u64,
}

const NONE_FAILS: Failing = Failing {
    first: NEVER,
    second: NEVER,
    output: NEVER,
    errors: NEVER,
};

/// What comes of a comparison: its status, and what is printed and told.
#[derive(Drop)]
struct Compared {
    status: u8,
    out: Vec<u8>,
    err: Vec<u8>,
}

/// What comes of two files, with devices that fail at these calls.
fn what_is_compared(
    alloc: Global,
    settings: &CompareSettings,
    first: &[u8],
    second: &[u8],
    failing: Failing,
) -> Compared {
    let mut first = FailsAt::new(FromRead::new(first), failing.first);
    let mut second = FailsAt::new(FromRead::new(second), failing.second);
    let mut output = FailsAt::new(ToWrite::new(Vec::new(alloc)), failing.output);
    let mut errors = FailsAt::new(ToWrite::new(Vec::new(alloc)), failing.errors);
    let status = compare(
        alloc,
        settings,
        &NAMES,
        &mut first,
        &mut second,
        &mut output,
        &mut errors,
    );
    Compared {
        status,
        out: output.into_inner().into_inner(),
        err: errors.into_inner().into_inner(),
    }
}

/// Two files are compared so.
pub(crate) fn expect_octets(
    rt: &(impl Abort + AllocGlobal),
    settings: CompareSettings,
    first: &[u8],
    second: &[u8],
    wanted: &Wanted<'_>,
) {
    let compared = what_is_compared(rt.alloc(), &settings, first, second, NONE_FAILS);
    is_text(rt, "output", compared.out.as_slice(), wanted.out);
    is_text(rt, "errors", compared.err.as_slice(), wanted.err);
    are_same(rt, "status", &compared.status, &wanted.status);
}

/// The octets of a file, whose digits come in these pieces.
pub(crate) fn octets_of(rt: &impl AllocGlobal, pieces: &[&str]) -> Result<Vec<u8>, FromHexError> {
    let mut octets = Vec::new(rt.alloc());
    for piece in pieces {
        let decoded = hex::decode(rt.alloc(), piece.as_bytes())?;
        octets.extend_from_slice(decoded.as_slice())?;
    }
    Ok(octets)
}

/// Two files, whose digits come in pieces, are compared so.
pub(crate) fn expect(
    rt: &(impl Abort + AllocGlobal),
    settings: CompareSettings,
    first: &[&str],
    second: &[&str],
    wanted: &Wanted<'_>,
) -> Result<(), Fail> {
    let first = octets_of(rt, first)?;
    let second = octets_of(rt, second)?;
    expect_octets(rt, settings, first.as_slice(), second.as_slice(), wanted);
    Ok(())
}

/// The downlink of the control block.
const DOWNLINK: [&str; 3] = [DOWNLINK_BEFORE, REPEATED, DOWNLINK_BEHIND];

/// The downlink of the call with other digits for one octet of a record, by where that begins.
fn call_with(record: u16, octet: u8, digits: &str) -> [&str; 3] {
    let at = 2 * (usize::from(record) + usize::from(octet));
    let before = CALL.get(..at).unwrap_or(CALL);
    let behind = CALL.get(at + 2..).unwrap_or("");
    [before, digits, behind]
}

const ALIKE: &str = "records 52 same 52 different 0 only-in-A 0 only-in-B 0\n";

/// Where the voice bursts A and B of the call begin, with their CACHs: behind a head of 8 octets, twelve silent slots and as many
/// bursts of 37 octets as stand before them.
const VOICE_A: u16 = 8 + 12 + 2 * 37;

const VOICE_B: u16 = 8 + 12 + 4 * 37;

#[test]
fn alike(rt: HostRuntime) -> Result<(), Fail> {
    let uplink = "records 2 same 2 different 0 only-in-A 0 only-in-B 0\n";
    for (file, out) in [(CALL, ALIKE), (UPLINK, uplink)] {
        let wanted = Wanted {
            status: 0,
            out,
            err: "",
        };
        expect(&rt, ALL, &[file], &[file], &wanted)?;
    }
    Ok(())
}

#[test]
fn statuses(rt: HostRuntime) {
    are_same(&rt, "statuses", &[SAME, DIFFERENT, TROUBLE], &[0, 1, 2]);
    let counts = PlaceCounts {
        same: 7,
        different: 0,
        only_in_first: 0,
        only_in_second: 2,
    };
    are_same(&rt, "places", &counts.places(), &9);
    are_same(&rt, "status", &counts.status(), &1);
}

/// The two lines where bit 19 of the control block is turned.
const WRONG_BLOCK: &str = "     \
    0.36       6 1  A  BS*  1  CSBK          opcode 0, fid 0, 0000000000000000
                     B  BS*  1  CSBK          opcode 0, fid 0, 0000000000000000  [wrong: information 1]  [differ: burst 1]\n";

const BLOCK_COUNTS: &str = "records 14 same 13 different 1 only-in-A 0 only-in-B 0\n";

/// The control block with bit 19 turned.
const TURNED: &str = "01800A200062108201900100042004E004CDFF57D75DF5DAC81800280250028000C0120022";

/// The downlink with that.
const DOWNLINK_TURNED: [&str; 3] = [DOWNLINK_BEFORE, TURNED, DOWNLINK_BEHIND];

#[test]
fn one_bit_of_a_burst(rt: HostRuntime) -> Result<(), Fail> {
    let lines = format!(in rt.alloc(); "{WRONG_BLOCK}{BLOCK_COUNTS}")?;
    let wanted = Wanted {
        status: 1,
        out: lines.as_str(),
        err: "",
    };
    expect(&rt, ALL, &DOWNLINK, &DOWNLINK_TURNED, &wanted)
}

#[test]
fn counts_alone(rt: HostRuntime) -> Result<(), Fail> {
    let quiet = CompareSettings {
        is_quiet: true,
        ..ALL
    };
    let wanted = Wanted {
        status: 1,
        out: BLOCK_COUNTS,
        err: "",
    };
    expect(&rt, quiet, &DOWNLINK, &DOWNLINK_TURNED, &wanted)
}

/// What is printed where the control block is lost, and where it is added.
const LOST: &str = "     0.36       6 1  A  BS*  1  CSBK          opcode 0, fid 0, 0000000000000000
                     B  silence
records 14 same 13 different 1 only-in-A 0 only-in-B 0
";

const ADDED: &str = "     0.36       6 1  A  silence
                     B  BS*  1  CSBK          opcode 0, fid 0, 0000000000000000
records 14 same 13 different 1 only-in-A 0 only-in-B 0
";

/// The downlink with silence in the place of the control block.
const DOWNLINK_SILENT: [&str; 3] = [DOWNLINK_BEFORE, "00", DOWNLINK_BEHIND];

#[test]
fn a_block_that_is_lost(rt: HostRuntime) -> Result<(), Fail> {
    let wanted = Wanted {
        status: 1,
        out: LOST,
        err: "",
    };
    expect(&rt, ALL, &DOWNLINK, &DOWNLINK_SILENT, &wanted)
}

#[test]
fn a_block_that_is_added(rt: HostRuntime) -> Result<(), Fail> {
    let wanted = Wanted {
        status: 1,
        out: ADDED,
        err: "",
    };
    expect(&rt, ALL, &DOWNLINK_SILENT, &DOWNLINK, &wanted)
}

/// What is printed of the CACH before place A, whose second bit is one of the Short LC.
const CACH_DIFFERS: &str = "     0.42       7 1  A  BS*  -  voice A
                     B  BS*  -  voice A  [differ: CACH 1]
records 52 same 51 different 1 only-in-A 0 only-in-B 0
";

#[test]
fn a_cach(rt: HostRuntime) -> Result<(), Fail> {
    let got = call_with(VOICE_A, 1, "C3");
    for (cach, vocoder, status, out) in [
        (false, false, 1, CACH_DIFFERS),
        (true, false, 0, ALIKE),
        // Vocoder bits are something else.
        (false, true, 1, CACH_DIFFERS),
    ] {
        let settings = CompareSettings {
            ignored: Ignored { cach, vocoder },
            ..ALL
        };
        let wanted = Wanted {
            status,
            out,
            err: "",
        };
        expect(&rt, settings, &[CALL], &got, &wanted)?;
    }
    Ok(())
}

/// What is printed of a vocoder bit of place B, and of the last bit of its centre.
const VOICE_DIFFERS: &str = "     0.48       8 1  A  - *  1  voice B       LCSS 1
                     B  - *  1  voice B       LCSS 1  [differ: burst 1]
records 52 same 51 different 1 only-in-A 0 only-in-B 0
";

/// The digits of place B with one bit turned: bits 0, 107, 156 and 263 are vocoder bits. The burst stands behind its tag and its
/// CACH.
const VOCODER_BITS: [(u8, &str); 4] = [(4, "8E"), (17, "41"), (23, "17"), (36, "CF")];

#[test]
fn vocoder_bits(rt: HostRuntime) -> Result<(), Fail> {
    let wanted = Wanted {
        status: 1,
        out: VOICE_DIFFERS,
        err: "",
    };
    for (octet, digits) in VOCODER_BITS {
        expect(
            &rt,
            ALL,
            &[CALL],
            &call_with(VOICE_B, octet, digits),
            &wanted,
        )?;
    }
    Ok(())
}

#[test]
fn vocoder_bits_that_are_ignored(rt: HostRuntime) -> Result<(), Fail> {
    let without = CompareSettings {
        ignored: Ignored {
            cach: false,
            vocoder: true,
        },
        ..ALL
    };
    let wanted = Wanted {
        status: 0,
        out: ALIKE,
        err: "",
    };
    for (octet, digits) in VOCODER_BITS {
        expect(
            &rt,
            without,
            &[CALL],
            &call_with(VOICE_B, octet, digits),
            &wanted,
        )?;
    }
    Ok(())
}

/// The burst of a record of a downlink, in digits.
fn burst_of(rt: &(impl Abort + AllocGlobal), record: &str) -> Result<RecordedBurst, Fail> {
    let octets = hex::decode(rt.alloc(), record.as_bytes())?;
    let mut source = FromRead::new(octets.as_slice());
    match read_recording(&mut source, Recording::Downlink, 0) {
        Ok(NextSlot::Slot(Some(burst))) => Ok(burst),
        _ => panic!(rt; "no burst"),
    }
}

/// The burst of a record of a downlink with its CACH, in digits, as it is listed.
fn listed(rt: &(impl Abort + AllocGlobal), record: &str) -> Result<ListedBurst, Fail> {
    let burst = burst_of(rt, record)?;
    assert!(rt; burst.cach.is_some());
    let line = RecordingView::new().line(&burst);
    Ok(ListedBurst { burst, line })
}

/// How many bits of the bursts of two records differ.
fn between(
    rt: &(impl Abort + AllocGlobal),
    ignored: Ignored,
    first: &str,
    second: &str,
) -> Result<Differing, Fail> {
    let one = listed(rt, first)?;
    let other = listed(rt, second)?;
    Ok(Differing::between(ignored, &one, &other))
}

/// Of the bursts of two records so many bits differ.
fn expect_between(
    rt: &(impl Abort + AllocGlobal),
    ignored: Ignored,
    first: &str,
    second: &str,
    wanted: Differing,
) -> Result<(), Fail> {
    let differing = between(rt, ignored, first, second)?;
    are_same(rt, "bits", &differing, &wanted);
    let is_none = wanted.cach == 0 && wanted.burst == 0;
    are_same(rt, "none", &differing.is_none(), &is_none);
    Ok(())
}

/// Place B of the call with its CACH. In the other one the last bit of the CACH is turned, bits 0 and 7 of the burst, and bit 155,
/// the last one of its centre.
const PLACE_B: &str = "01800A650E71E0FD77B07670EB940BD5335130000000091F973DAAD8619B91FFC911F57CCE";

const OTHER_B: &str = "01800A648F71E0FD77B07670EB940BD5335130000000090F973DAAD8619B91FFC911F57CCE";

#[test]
fn bits_between(rt: HostRuntime) -> Result<(), Fail> {
    for (is_ignored, first, second, cach, burst) in [
        (false, PLACE_B, OTHER_B, 1, 3),
        (true, PLACE_B, OTHER_B, 0, 1),
        (false, PLACE_B, PLACE_B, 0, 0),
        // Of data all bits count: bit 19 of the control block is turned.
        (true, REPEATED, TURNED, 0, 1),
    ] {
        let ignored = Ignored {
            cach: is_ignored,
            vocoder: is_ignored,
        };
        expect_between(&rt, ignored, first, second, Differing { cach, burst })?;
    }
    Ok(())
}

/// With this shift two files are alike.
fn expect_shift(
    rt: &(impl Abort + AllocGlobal),
    shift: Shift,
    first: &[&str],
    second: &[&str],
) -> Result<(), Fail> {
    let settings = CompareSettings {
        shift: Some(shift),
        ..ALL
    };
    let wanted = Wanted {
        status: 0,
        out: ALIKE,
        err: "",
    };
    expect(rt, settings, first, second, &wanted)
}

#[test]
fn shifts(rt: HostRuntime) -> Result<(), Fail> {
    let head = CALL.get(..16).unwrap_or("");
    let rest = CALL.get(16..).unwrap_or("");
    let later = [head, "000000000000", rest];
    expect_shift(&rt, Shift::Later(3), &[CALL], &later)?;
    expect_shift(&rt, Shift::Earlier(3), &later, &[CALL])
}

/// More frames than there are stand in front.
#[test]
fn a_far_shift(rt: HostRuntime) -> Result<(), Fail> {
    let far = CompareSettings {
        shift: Some(Shift::Later(1_000)),
        ..ALL
    };
    let wanted = Wanted {
        status: 1,
        out: "records 52 same 0 different 0 only-in-A 52 only-in-B 0\n",
        err: "",
    };
    expect(&rt, far, &[CALL], &[CALL], &wanted)
}

#[test]
fn one_is_longer(rt: HostRuntime) -> Result<(), Fail> {
    let more = "00000000";
    for (first, second, out) in [
        (
            "",
            more,
            "records 56 same 52 different 0 only-in-A 0 only-in-B 4\n",
        ),
        (
            more,
            "",
            "records 56 same 52 different 0 only-in-A 4 only-in-B 0\n",
        ),
    ] {
        let wanted = Wanted {
            status: 1,
            out,
            err: "",
        };
        expect(&rt, ALL, &[CALL, first], &[CALL, second], &wanted)?;
    }
    Ok(())
}

#[test]
fn kinds(rt: HostRuntime) -> Result<(), Fail> {
    for (first, err) in [
        (
            UPLINK,
            "error: two?.dmrd: another kind of file than one.dmrd\n",
        ),
        ("444D5244", "error: one.dmrd: cut record at octet 0\n"),
    ] {
        let wanted = Wanted {
            status: 2,
            out: "",
            err,
        };
        expect(&rt, ALL, &[first], &[CALL], &wanted)?;
    }
    Ok(())
}

/// The second ends behind slot 1 of frame 6, which differs.
#[test]
fn half_a_frame(rt: HostRuntime) -> Result<(), Fail> {
    let wanted = Wanted {
        status: 2,
        out: WRONG_BLOCK,
        err: "error: two?.dmrd: half frame at octet 57, frame 6, slot 2\n",
    };
    expect(&rt, ALL, &DOWNLINK, &[DOWNLINK_BEFORE, TURNED], &wanted)
}

/// The first has a record that begins with 02 there.
#[test]
fn a_bad_tag(rt: HostRuntime) -> Result<(), Fail> {
    let broken = [DOWNLINK_BEFORE, REPEATED, "02"];
    let wanted = Wanted {
        status: 2,
        out: WRONG_BLOCK,
        err: "error: one.dmrd: bad tag at octet 57, frame 6, slot 2\n",
    };
    expect(&rt, ALL, &broken, &DOWNLINK_TURNED, &wanted)
}

/// A file is compared with itself until reading fails, for each of the two at one of these calls. Nothing is printed then, and this
/// is told.
pub(crate) fn expect_read_failure(
    rt: &(impl Abort + AllocGlobal),
    octets: &[u8],
    first_fails: u64,
    second_fails: u64,
    told: &str,
) {
    let failing = Failing {
        first: first_fails,
        second: second_fails,
        ..NONE_FAILS
    };
    let compared = what_is_compared(rt.alloc(), &ALL, octets, octets, failing);
    are_same(rt, "status", &compared.status, &2);
    is_text(rt, "output", compared.out.as_slice(), "");
    is_text(rt, "errors", compared.err.as_slice(), told);
}

/// Two files that differ are compared until printing fails at this call. So many lines are printed then, and nothing is told.
pub(crate) fn expect_write_failure(
    rt: &(impl Abort + AllocGlobal),
    first: &[u8],
    second: &[u8],
    fails: u64,
    lines: usize,
) {
    let failing = Failing {
        output: fails,
        ..NONE_FAILS
    };
    let compared = what_is_compared(rt.alloc(), &ALL, first, second, failing);
    are_same(rt, "status", &compared.status, &2);
    is_text(rt, "errors", compared.err.as_slice(), "");
    let ends = compared.out.as_slice().iter().filter(|octet| **octet == 10);
    are_same(rt, "lines", &ends.count(), &lines);
}

/// Each file fails at one of these calls, and what is told of the first and of the second then. The head is one call, each silent
/// slot one, and a burst two.
const FAILING_SOURCES: [(u64, &str, &str); 4] = [
    (
        0,
        "error: one.dmrd: read failed at octet 0\n",
        "error: two?.dmrd: read failed at octet 0\n",
    ),
    (
        1,
        "error: one.dmrd: read failed at octet 8, frame 0, slot 1\n",
        "error: two?.dmrd: read failed at octet 8, frame 0, slot 1\n",
    ),
    (
        12,
        "error: one.dmrd: read failed at octet 19, frame 5, slot 2\n",
        "error: two?.dmrd: read failed at octet 19, frame 5, slot 2\n",
    ),
    (
        14,
        "error: one.dmrd: read failed at octet 20, frame 6, slot 1\n",
        "error: two?.dmrd: read failed at octet 20, frame 6, slot 1\n",
    ),
];

#[test]
fn failing_sources(rt: HostRuntime) -> Result<(), Fail> {
    let octets = octets_of(&rt, &DOWNLINK)?;
    for (calls, first, second) in FAILING_SOURCES {
        expect_read_failure(&rt, octets.as_slice(), calls, NEVER, first);
        expect_read_failure(&rt, octets.as_slice(), NEVER, calls, second);
    }
    Ok(())
}

#[test]
fn failing_sinks(rt: HostRuntime) -> Result<(), Fail> {
    let first = octets_of(&rt, &DOWNLINK)?;
    let second = octets_of(&rt, &DOWNLINK_TURNED)?;
    // A line is one write: two of the difference, and one of the counts.
    for (fails, lines) in [(0, 0), (1, 1), (2, 2)] {
        expect_write_failure(&rt, first.as_slice(), second.as_slice(), fails, lines);
    }
    Ok(())
}

#[test]
fn fault_that_cannot_be_told(rt: HostRuntime) {
    let failing = Failing {
        errors: 0,
        ..NONE_FAILS
    };
    let compared = what_is_compared(rt.alloc(), &ALL, b"DMRD\x01\x00\x00\x00", b"DMRD", failing);
    are_same(&rt, "status", &compared.status, &2);
}

/// A file that is read by one octet at a time is compared with itself, and this is printed.
pub(crate) fn expect_alike_by_octets(rt: &(impl Abort + AllocGlobal), octets: &[u8], out: &str) {
    let alloc = rt.alloc();
    let mut one = OneByOne::new(octets);
    let mut other = FromRead::new(octets);
    let mut output = ToWrite::new(Vec::new(alloc));
    let mut errors = ToWrite::new(Vec::new(alloc));
    let status = compare(
        alloc,
        &ALL,
        &NAMES,
        &mut one,
        &mut other,
        &mut output,
        &mut errors,
    );
    are_same(rt, "status", &status, &0);
    is_text(rt, "output", output.into_inner().as_slice(), out);
}

#[test]
fn an_octet_at_a_time(rt: HostRuntime) -> Result<(), Fail> {
    let octets = octets_of(&rt, &[CALL])?;
    expect_alike_by_octets(&rt, octets.as_slice(), ALIKE);
    Ok(())
}
