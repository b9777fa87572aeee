//! What is printed of files, and where.
mod objects;
mod text;

use dmr_record::{FromRead, ToWrite};
use dmr_show::{Filter, Form, show};
use std::alloc::Global;
use std::fmt::{Debug, Display};
use std::process::Abort;
use std::test::Fail;

/// That both are the same, of what is told where they aren't.
pub(crate) fn are_same<T: PartialEq + Debug>(rt: &impl Abort, what: &str, got: &T, expected: &T) {
    assert_eq!(rt; got, expected, "{what}");
}

/// That a value is printed so.
pub(crate) fn is_printed<T: Display>(
    rt: &(impl Abort + AllocGlobal),
    value: &T,
    expected: &str,
) -> Result<(), Fail> {
    let printed = format!(in rt.alloc(); "{value}")?;
    are_same(rt, "printed", &printed.as_str(), &expected);
    Ok(())
}

/// That each of these values is printed as the text beside it.
pub(crate) fn are_printed<T: Display>(
    rt: &(impl Abort + AllocGlobal),
    rows: &[(T, &str)],
) -> Result<(), Fail> {
    for (value, expected) in rows {
        is_printed(rt, value, expected)?;
    }
    Ok(())
}

/// All lines.
const ALL: Filter = Filter {
    slot: None,
    from: None,
    to: None,
};

/// The recording of the sample `one_csbk`.
const ONE_CSBK: &str = "444D52550100000001\
    0062008201900100042004E004CD5D7F77FD757AC81800280250028000C012002200";

/// What a listing of it begins with.
const HEAD: &str = "uplink recording, version 1\n";

/// What is listed of its head alone, and of its first half frame.
const NO_FRAME: &str = "uplink recording, version 1\n\
    frames 0 seconds 0.00 slot-1 0 slot-2 0 unreadable 0\n";

const HALF_FRAME: &str = "uplink recording, version 1\n     \
    0.00       0 1  MS   1  CSBK          opcode 0, fid 0, 0000000000000000\n";

/// Its listing, and that without the line of its burst.
const ONE_FRAME: &str = "uplink recording, version 1\n     \
    0.00       0 1  MS   1  CSBK          opcode 0, fid 0, 0000000000000000\n\
    frames 1 seconds 0.06 slot-1 1 slot-2 0 unreadable 0\n";

const NO_LINE: &str = "uplink recording, version 1\n\
    frames 1 seconds 0.06 slot-1 1 slot-2 0 unreadable 0\n";

/// A file, as far as it is there, is listed so.
fn expect(
    rt: &(impl Abort + AllocGlobal),
    file: &str,
    count: usize,
    filter: Filter,
    status: u8,
    out: &str,
    err: &str,
) -> Result<(), Fail> {
    expect_in(rt, Form::Listing, file, count, filter, status, out, err)
}

/// A file, as far as it is there, is shown so in a form, whether its lines wait for one another or not.
fn expect_in(
    rt: &(impl Abort + AllocGlobal),
    form: Form,
    file: &str,
    count: usize,
    filter: Filter,
    status: u8,
    out: &str,
    err: &str,
) -> Result<(), Fail> {
    let file = hex::decode(rt.alloc(), file.as_bytes())?;
    let octets = file.get(..count).unwrap_or(file.as_slice());
    for is_live in [false, true] {
        expect_shown(rt, form, octets, filter, is_live, status, out, err);
    }
    Ok(())
}

/// These octets are shown so in a form.
fn expect_shown(
    rt: &(impl Abort + AllocGlobal),
    form: Form,
    octets: &[u8],
    filter: Filter,
    is_live: bool,
    status: u8,
    out: &str,
    err: &str,
) {
    let shown = what_is_shown(rt.alloc(), "cut.dmru", form, octets, filter, is_live);
    assert!(rt; shown.out.as_slice() == out.as_bytes());
    assert!(rt; shown.err.as_slice() == err.as_bytes());
    are_same(rt, "status", &shown.status, &status);
}

/// What comes of a file that is shown: its status, and what is printed and told.
#[derive(Drop)]
struct Shown {
    status: u8,
    out: Vec<u8>,
    err: Vec<u8>,
}

/// What comes of these octets in a form.
fn what_is_shown(
    alloc: Global,
    name: &str,
    form: Form,
    octets: &[u8],
    filter: Filter,
    is_live: bool,
) -> Shown {
    let mut source = FromRead::new(octets);
    let mut output = ToWrite::new(Vec::new(alloc));
    let mut errors = ToWrite::new(Vec::new(alloc));
    let status = show(
        alloc,
        name,
        form,
        filter,
        is_live,
        &mut source,
        &mut output,
        &mut errors,
    );
    Shown {
        status,
        out: output.into_inner(),
        err: errors.into_inner(),
    }
}

#[test]
fn a_recording_cut_and_whole(rt: HostRuntime) -> Result<(), Fail> {
    for (count, status, out, err) in [
        (4, 1, "", "error: cut.dmru: cut record at octet 0\n"),
        (8, 0, NO_FRAME, ""),
        (
            20,
            1,
            HEAD,
            "error: cut.dmru: cut record at octet 8, frame 0, slot 1\n",
        ),
        (
            42,
            1,
            HALF_FRAME,
            "error: cut.dmru: half frame at octet 42, frame 0, slot 2\n",
        ),
        (43, 0, ONE_FRAME, ""),
    ] {
        expect(&rt, ONE_CSBK, count, ALL, status, out, err)?;
    }
    Ok(())
}

#[test]
fn an_outgoing_list(rt: HostRuntime) -> Result<(), Fail> {
    let outgoing = "444D524F010000000200000005010000\
        1C4500001C123400004011509B0C0000010C0000021398139A0008C0A9";
    let listed = "outgoing list, version 1
     0.30       5 1  unconfirmed, rate 1/2, 28 octets: UDP 12.0.0.1:5016 -> 12.0.0.2:5018, 0 octets of data
records 1
";
    expect(&rt, outgoing, 99, ALL, 0, listed, "")
}

#[test]
fn a_received_list(rt: HostRuntime) -> Result<(), Fail> {
    let received = "444D524901000000030000000601020000030004\
        01020005";
    let listed = "received list, version 1
     0.36       6 1  status from 3, 4 octets: port 1 -> 2, status 5
records 1
";
    expect(&rt, received, 99, ALL, 0, listed, "")
}

/// A filter leaves lines out, and nothing of the last line.
#[test]
fn filters(rt: HostRuntime) -> Result<(), Fail> {
    for (slot, from, to, out) in [
        (Some(1), Some(0), Some(0), ONE_FRAME),
        (Some(2), None, None, NO_LINE),
        (None, Some(1), None, NO_LINE),
        (None, None, Some(0), ONE_FRAME),
    ] {
        let filter = Filter { slot, from, to };
        expect(&rt, ONE_CSBK, 43, filter, 0, out, "")?;
    }
    Ok(())
}

/// A received record whose octets take the longest line.
#[test]
fn the_longest_line(rt: HostRuntime) -> Result<(), Fail> {
    let alloc = rt.alloc();
    let mut file = hex::decode(alloc, b"444D52490100000003000000060101000003FFFF")?;
    let zeros = vec![in alloc; 0u8; 65_535]?;
    file.extend_from_slice(zeros.as_slice())?;
    let shown = what_is_shown(
        alloc,
        "long.dmri",
        Form::Listing,
        file.as_slice(),
        ALL,
        false,
    );
    are_same(&rt, "status", &shown.status, &0);
    assert!(rt; shown.out.ends_with(b"000000\nrecords 1\n"));
    Ok(())
}

/// A sink with room for four octets fails, and nothing is told on the other.
#[test]
fn sinks_that_fail(rt: HostRuntime) -> Result<(), Fail> {
    let alloc = rt.alloc();
    let octets = hex::decode(alloc, ONE_CSBK.as_bytes())?;
    let mut source = FromRead::new(octets.as_slice());
    let mut room = [0u8; 4];
    let mut full = ToWrite::new(&mut room[..]);
    let mut errors = ToWrite::new(Vec::new(alloc));
    let ended = show(
        alloc,
        "it",
        Form::Listing,
        ALL,
        false,
        &mut source,
        &mut full,
        &mut errors,
    );
    are_same(&rt, "status", &ended, &1);
    assert!(rt; errors.into_inner().is_empty());
    Ok(())
}

/// Strips: of what stands before a fault too.
#[test]
fn strips(rt: HostRuntime) -> Result<(), Fail> {
    let whole = "      0 1  c\n      0 2  .\n";
    let half = "      0 1  c\n";
    let fault = "error: cut.dmru: half frame at octet 42, frame 0, slot 2\n";
    for (count, slot, from, status, out, err) in [
        (43, None, None, 0, whole, ""),
        (43, Some(2), None, 0, "      0 2  .\n", ""),
        (43, None, Some(1), 0, "", ""),
        (8, None, None, 0, "", ""),
        (42, None, None, 1, half, fault),
    ] {
        let filter = Filter {
            slot,
            from,
            to: None,
        };
        expect_in(&rt, Form::Strip, ONE_CSBK, count, filter, status, out, err)?;
    }
    Ok(())
}

#[test]
fn no_strip_of_a_list(rt: HostRuntime) -> Result<(), Fail> {
    let list = "444D524901000000";
    let none = "error: cut.dmru: a list has no strip\n";
    expect_in(&rt, Form::Strip, list, 8, ALL, 1, "", none)
}
