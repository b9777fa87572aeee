//! What is printed of two lists. The lines are worked out from docs/protocol.md, and so are the counts.
use crate::recordings::UPLINK;
use crate::tests::{
    ALL, NEVER, Wanted, expect, expect_alike_by_octets, expect_octets, expect_read_failure,
    expect_write_failure, octets_of,
};
use dmr_compare::{CompareSettings, Ignored, Shift};
use hex::FromHexError;
use std::alloc::{AllocError, Global};
use std::process::Abort;
use std::test::Fail;

/// The head of an outgoing list, and that of a received list.
const OUTGOING: &str = "444D524F01000000";

const RECEIVED: &str = "444D524901000000";

/// The record of the sample `datagram_sent`.
const DATAGRAM: &str = "02000000050100001C\
    4500001C123400004011509B0C0000010C0000021398139A0008C0A9";

/// An outgoing record of two octets, and its line.
const SENT: &str = "020000000501000002AB01";

const SENT_LINE: &str = "     0.30       5 1  unconfirmed, rate 1/2, 2 octets: AB01";

/// The record of the sample `status_received`, and its line.
const STATUS: &str = "03000000060102000003000401020005";

const STATUS_LINE: &str = "     0.36       6 1  status from 3, 4 octets: port 1 -> 2, status 5";

const NOTHING: &str = "records 0 same 0 different 0 only-in-A 0 only-in-B 0\n";

const ONE_ALIKE: &str = "records 1 same 1 different 0 only-in-A 0 only-in-B 0\n";

const ONE_DIFFERS: &str = "records 1 same 0 different 1 only-in-A 0 only-in-B 0\n";

/// Two lists of a record each, by their heads, are compared so: the records differ, and have these lines.
fn expect_difference(
    rt: &(impl Abort + AllocGlobal),
    head: &str,
    first: (&str, &str),
    second: (&str, &str),
) -> Result<(), Fail> {
    let lines = format!(in rt.alloc(); "A  {}\nB  {}\n{ONE_DIFFERS}", first.1, second.1)?;
    let wanted = Wanted {
        status: 1,
        out: lines.as_str(),
        err: "",
    };
    expect(rt, ALL, &[head, first.0], &[head, second.0], &wanted)
}

#[test]
fn lists_alike(rt: HostRuntime) -> Result<(), Fail> {
    for (head, record, out) in [
        (OUTGOING, DATAGRAM, ONE_ALIKE),
        (RECEIVED, STATUS, ONE_ALIKE),
        (OUTGOING, "", NOTHING),
        (RECEIVED, "", NOTHING),
    ] {
        let wanted = Wanted {
            status: 0,
            out,
            err: "",
        };
        expect(&rt, ALL, &[head, record], &[head, record], &wanted)?;
    }
    Ok(())
}

#[test]
fn outgoing_records(rt: HostRuntime) -> Result<(), Fail> {
    for (record, line) in [
        // Another frame, another slot, confirmed, at rate 1.
        (
            "020000000601000002AB01",
            "     0.36       6 1  unconfirmed, rate 1/2, 2 octets: AB01",
        ),
        (
            "020000000502000002AB01",
            "     0.33       5 2  unconfirmed, rate 1/2, 2 octets: AB01",
        ),
        (
            "020000000501010002AB01",
            "     0.30       5 1  confirmed, rate 1/2, 2 octets: AB01",
        ),
        (
            "020000000501020002AB01",
            "     0.30       5 1  unconfirmed, rate 1, 2 octets: AB01",
        ),
        // Other octets, one more, one fewer, and both.
        (
            "020000000501000002AB00",
            "     0.30       5 1  unconfirmed, rate 1/2, 2 octets: AB00  [differ: 1 octets]",
        ),
        (
            "020000000501000003AB0100",
            "     0.30       5 1  unconfirmed, rate 1/2, 3 octets: AB0100  [differ: 1 octets]",
        ),
        (
            "020000000501000001AB",
            "     0.30       5 1  unconfirmed, rate 1/2, 1 octet: AB  [differ: 1 octets]",
        ),
        (
            "020000000501000004AC010000",
            "     0.30       5 1  unconfirmed, rate 1/2, 4 octets: AC010000  [differ: 3 octets]",
        ),
        // Other octets, and another slot.
        (
            "020000000502000002AB00",
            "     0.33       5 2  unconfirmed, rate 1/2, 2 octets: AB00",
        ),
        (DATAGRAM, DATAGRAM_DIFFERS),
    ] {
        expect_difference(&rt, OUTGOING, (SENT, SENT_LINE), (record, line))?;
    }
    Ok(())
}

/// All 28 octets of the datagram differ from the two of the other record, or stand behind their end.
const DATAGRAM_DIFFERS: &str = "     \
    0.30       5 1  unconfirmed, rate 1/2, 28 octets: UDP 12.0.0.1:5016 -> 12.0.0.2:5018, 0 octets of data  \
    [differ: 28 octets]";

#[test]
fn received_records(rt: HostRuntime) -> Result<(), Fail> {
    for (record, line) in [
        // Another frame, another slot, another kind, another source.
        (
            "03000000070102000003000401020005",
            "     0.42       7 1  status from 3, 4 octets: port 1 -> 2, status 5",
        ),
        (
            "03000000060202000003000401020005",
            "     0.39       6 2  status from 3, 4 octets: port 1 -> 2, status 5",
        ),
        (
            "03000000060101000003000401020005",
            "     0.36       6 1  short data from 3, 4 octets: 01020005",
        ),
        (
            "03000000060100000003000401020005",
            "     0.36       6 1  datagram from 3, 4 octets: 01020005",
        ),
        (
            "03000000060102FFFFFF000401020005",
            "     0.36       6 1  status from 16777215, 4 octets: port 1 -> 2, status 5",
        ),
        // Other octets, and fewer.
        (
            "03000000060102000003000402010006",
            "     0.36       6 1  status from 3, 4 octets: port 2 -> 1, status 6  [differ: 3 octets]",
        ),
        (
            "030000000601020000030000",
            "     0.36       6 1  status from 3, 0 octets:   [differ: 4 octets]",
        ),
    ] {
        expect_difference(&rt, RECEIVED, (STATUS, STATUS_LINE), (record, line))?;
    }
    Ok(())
}

/// An outgoing list of one record with as many octets as there can be, which are 0 but for the last one.
fn list_of_a_long_record(rt: &impl AllocGlobal, last: u8) -> Result<Vec<u8>, FromHexError> {
    let mut list = octets_of(rt, &[OUTGOING, "02000000050100FFFF"])?;
    let zeros = vec![in rt.alloc(); 0u8; 65_534]?;
    list.extend_from_slice(zeros.as_slice())?;
    list.extend_from_slice(&[last])?;
    Ok(list)
}

/// What is printed of two such lists. The line of an outgoing record shows 1,400 octets at most.
fn lines_of_long_records(alloc: Global) -> Result<String, AllocError> {
    let shown = format!(in alloc;
        "     0.30       5 1  unconfirmed, rate 1/2, 65535 octets: {:02800}",
        0
    )?;
    format!(in alloc; "A  {shown}\nB  {shown}  [differ: 1 octets]\n{ONE_DIFFERS}")
}

#[test]
fn octets_that_no_line_shows(rt: HostRuntime) -> Result<(), Fail> {
    let first = list_of_a_long_record(&rt, 1)?;
    let second = list_of_a_long_record(&rt, 2)?;
    let lines = lines_of_long_records(rt.alloc())?;
    let wanted = Wanted {
        status: 1,
        out: lines.as_str(),
        err: "",
    };
    expect_octets(&rt, ALL, first.as_slice(), second.as_slice(), &wanted);
    Ok(())
}

#[test]
fn one_list_is_longer(rt: HostRuntime) -> Result<(), Fail> {
    for (first, second, out) in [
        (
            "",
            DATAGRAM,
            "records 2 same 1 different 0 only-in-A 0 only-in-B 1\n",
        ),
        (
            DATAGRAM,
            "",
            "records 2 same 1 different 0 only-in-A 1 only-in-B 0\n",
        ),
    ] {
        let wanted = Wanted {
            status: 1,
            out,
            err: "",
        };
        let first = [OUTGOING, SENT, first];
        let second = [OUTGOING, SENT, second];
        expect(&rt, ALL, &first, &second, &wanted)?;
    }
    Ok(())
}

/// The lines of the record of two octets and of the datagram, which differ.
const SENT_AND_DATAGRAM: &str = "\
A       0.30       5 1  unconfirmed, rate 1/2, 2 octets: AB01
B       0.30       5 1  unconfirmed, rate 1/2, 28 octets: UDP 12.0.0.1:5016 -> 12.0.0.2:5018, 0 octets of data  \
    [differ: 28 octets]
";

/// Record by record: where one is left out, all behind it are compared with the next one.
#[test]
fn a_record_is_left_out(rt: HostRuntime) -> Result<(), Fail> {
    let lines = format!(in rt.alloc();
        "{SENT_AND_DATAGRAM}records 2 same 0 different 1 only-in-A 1 only-in-B 0\n"
    )?;
    let wanted = Wanted {
        status: 1,
        out: lines.as_str(),
        err: "",
    };
    let two = [OUTGOING, SENT, DATAGRAM];
    expect(&rt, ALL, &two, &[OUTGOING, DATAGRAM], &wanted)
}

/// A list of no record or one is compared with itself with this shift, which is refused.
fn expect_no_shift(
    rt: &(impl Abort + AllocGlobal),
    shift: Shift,
    head: &str,
    record: &str,
) -> Result<(), Fail> {
    let shifted = CompareSettings {
        shift: Some(shift),
        ..ALL
    };
    let refused = Wanted {
        status: 2,
        out: "",
        err: "error: one.dmrd: a list has no shift\n",
    };
    expect(rt, shifted, &[head, record], &[head, record], &refused)
}

#[test]
fn no_shift_of_lists(rt: HostRuntime) -> Result<(), Fail> {
    for shift in [Shift::Later(0), Shift::Earlier(0), Shift::Later(3)] {
        expect_no_shift(&rt, shift, RECEIVED, STATUS)?;
        expect_no_shift(&rt, shift, OUTGOING, "")?;
    }
    Ok(())
}

/// Another status than that of the sample.
const OTHER_STATUS: &str = "03000000060102000003000401020006";

/// Nothing is ignored of lists, and differences may be counted alone.
#[test]
fn settings_of_lists(rt: HostRuntime) -> Result<(), Fail> {
    let quiet = CompareSettings {
        shift: None,
        ignored: Ignored {
            cach: true,
            vocoder: true,
        },
        is_quiet: true,
    };
    let wanted = Wanted {
        status: 1,
        out: ONE_DIFFERS,
        err: "",
    };
    let first = [RECEIVED, STATUS];
    let second = [RECEIVED, OTHER_STATUS];
    expect(&rt, quiet, &first, &second, &wanted)
}

#[test]
fn kinds_of_lists(rt: HostRuntime) -> Result<(), Fail> {
    for (shift, first, second) in [
        (None, OUTGOING, RECEIVED),
        (None, RECEIVED, OUTGOING),
        (None, UPLINK, RECEIVED),
        (Some(Shift::Later(1)), OUTGOING, UPLINK),
    ] {
        let wanted = Wanted {
            status: 2,
            out: "",
            err: "error: two?.dmrd: another kind of file than one.dmrd\n",
        };
        let settings = CompareSettings { shift, ..ALL };
        expect(&rt, settings, &[first], &[second], &wanted)?;
    }
    Ok(())
}

/// The second list ends inside its second record, which begins behind 8 octets and 37.
#[test]
fn a_cut_list(rt: HostRuntime) -> Result<(), Fail> {
    let whole = [OUTGOING, SENT, SENT];
    let cut = [OUTGOING, DATAGRAM, "02000000"];
    let wanted = Wanted {
        status: 2,
        out: SENT_AND_DATAGRAM,
        err: "error: two?.dmrd: cut record at octet 45\n",
    };
    expect(&rt, ALL, &whole, &cut, &wanted)
}

/// The first has a record of an earlier frame there, behind 8 octets and 11.
#[test]
fn a_list_with_an_earlier_frame(rt: HostRuntime) -> Result<(), Fail> {
    let early = [OUTGOING, SENT, "020000000401000000"];
    let behind = [OUTGOING, DATAGRAM, DATAGRAM];
    let wanted = Wanted {
        status: 2,
        out: SENT_AND_DATAGRAM,
        err: "error: one.dmrd: frame order at octet 19\n",
    };
    expect(&rt, ALL, &early, &behind, &wanted)
}

/// A status behind a status of the same slot, behind 8 octets and 16, which nothing is compared with.
#[test]
fn a_status_behind_a_status(rt: HostRuntime) -> Result<(), Fail> {
    let once = [RECEIVED, STATUS];
    let twice = [RECEIVED, STATUS, STATUS];
    let wanted = Wanted {
        status: 2,
        out: "",
        err: "error: two?.dmrd: frame order at octet 24\n",
    };
    expect(&rt, ALL, &once, &twice, &wanted)
}

#[test]
fn failing_sources_of_lists(rt: HostRuntime) -> Result<(), Fail> {
    let list = octets_of(&rt, &[RECEIVED, STATUS])?;
    // The head is one call, and a record three: its tag, its fields and its octets.
    for (calls, told) in [
        (0, "error: two?.dmrd: read failed at octet 0\n"),
        (1, "error: two?.dmrd: read failed at octet 8\n"),
        (3, "error: two?.dmrd: read failed at octet 8\n"),
        (4, "error: two?.dmrd: read failed at octet 24\n"),
    ] {
        expect_read_failure(&rt, list.as_slice(), NEVER, calls, told);
    }
    Ok(())
}

#[test]
fn failing_sinks_of_lists(rt: HostRuntime) -> Result<(), Fail> {
    let first = octets_of(&rt, &[RECEIVED, STATUS])?;
    let second = octets_of(&rt, &[RECEIVED, OTHER_STATUS])?;
    // The first line is one write, the second two, and the counts are one.
    for (fails, lines) in [(0, 0), (1, 1), (2, 1), (3, 2)] {
        expect_write_failure(&rt, first.as_slice(), second.as_slice(), fails, lines);
    }
    Ok(())
}

#[test]
fn a_list_octet_by_octet(rt: HostRuntime) -> Result<(), Fail> {
    let octets = octets_of(&rt, &[OUTGOING, DATAGRAM])?;
    expect_alike_by_octets(&rt, octets.as_slice(), ONE_ALIKE);
    Ok(())
}
