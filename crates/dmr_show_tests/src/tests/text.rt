//! Files and their texts.
use dmr_record::{FromRead, RecordFault, ToWrite};
use dmr_recording::{FaultLine, Place};
use dmr_test_devices::FailsAt;
use dmr_text::{Carried, ExportEnd, ImportEnd, LineFault, TextFault, export_text, import_text};
use std::process::Abort;
use std::test::Fail;

/// The sample `one_csbk` and its text.
const UPLINK: &str = "444D52550100000001\
    0062008201900100042004E004CD5D7F77FD757AC81800280250028000C012002200";

const UPLINK_TEXT: &str = "dmrgate uplink 1\n\
    0 1 0062008201900100042004E004CD5D7F77FD757AC81800280250028000C0120022\n\
    frames 1\n";

/// Its downlink and the text of that.
const DOWNLINK: &str = "444D524401000000000000000000000000000000\
    01800A200062008201900100042004E004CDFF57D75DF5DAC81800280250028000C0120022\
    0108882053C25EABA8671DC7383BD936065DFF57D75DF5D92BF6E465171B48CA6D4FC610B4";

const DOWNLINK_TEXT: &str = "dmrgate downlink 1\n\
    6 1 800A20 0062008201900100042004E004CDFF57D75DF5DAC81800280250028000C0120022\n\
    6 2 088820 53C25EABA8671DC7383BD936065DFF57D75DF5D92BF6E465171B48CA6D4FC610B4\n\
    frames 7\n";

/// An outgoing list and its text: a datagram in each mode, and the first one without an octet.
const OUTGOING: &str = "444D524F01000000\
    020000000501000000\
    020000000502010003ABCDEF\
    0200000006010200010A\
    02FFFFFFFF01030002F00F";

const OUTGOING_TEXT: &str = "dmrgate outgoing 1\n\
    5 1 unconfirmed half -\n\
    5 2 confirmed half ABCDEF\n\
    6 1 unconfirmed full 0A\n\
    4294967295 1 confirmed full F00F\n\
    records 4\n";

/// A received list and its text: a status, a datagram and short data.
const RECEIVED: &str = "444D524901000000\
    03000000060102000003000401020005\
    03000000060100000102000112\
    03000000070201FFFFFF0000";

const RECEIVED_TEXT: &str = "dmrgate received 1\n\
    6 1 status 3 01020005\n\
    6 1 datagram 258 12\n\
    7 2 short-data 16777215 -\n\
    records 3\n";

/// What comes of a file that is exported, and the text that is written.
fn expect_text(
    rt: &(impl Abort + AllocGlobal),
    file: &str,
    count: usize,
    end: Result<Carried, ExportEnd>,
    text: &str,
) -> Result<(), Fail> {
    let alloc = rt.alloc();
    let octets = hex::decode(alloc, file.as_bytes())?;
    let mut source = FromRead::new(octets.get(..count).unwrap_or(octets.as_slice()));
    let mut sink = ToWrite::new(Vec::new(alloc));
    assert!(rt; export_text(alloc, &mut source, &mut sink) == end);
    assert!(rt; sink.into_inner().as_slice() == text.as_bytes());
    Ok(())
}

#[test]
fn files_as_text(rt: HostRuntime) -> Result<(), Fail> {
    let recording = |frames| Carried::Recording { frames };
    let list = |records| Carried::List { records };
    for (file, count, carried, text) in [
        (UPLINK, 43, recording(1), UPLINK_TEXT),
        (UPLINK, 8, recording(0), "dmrgate uplink 1\nframes 0\n"),
        (DOWNLINK, 94, recording(7), DOWNLINK_TEXT),
        (OUTGOING, 50, list(4), OUTGOING_TEXT),
        (RECEIVED, 49, list(3), RECEIVED_TEXT),
    ] {
        expect_text(&rt, file, count, Ok(carried), text)?;
    }
    Ok(())
}

#[test]
fn files_at_fault_as_text(rt: HostRuntime) -> Result<(), Fail> {
    let half = Some(Place { frame: 0, slot: 2 });
    let front = UPLINK_TEXT.strip_suffix("frames 1\n").unwrap_or("");
    for (file, count, fault, octet, place, text) in [
        (UPLINK, 7, RecordFault::CutRecord, 0, None, ""),
        (UPLINK, 42, RecordFault::HalfFrame, 42, half, front),
        (
            OUTGOING,
            28,
            RecordFault::CutRecord,
            17,
            None,
            "dmrgate outgoing 1\n5 1 unconfirmed half -\n",
        ),
        (
            RECEIVED,
            36,
            RecordFault::CutRecord,
            24,
            None,
            "dmrgate received 1\n6 1 status 3 01020005\n",
        ),
    ] {
        let end = ExportEnd::File(FaultLine {
            fault,
            octet,
            place,
        });
        expect_text(&rt, file, count, Err(end), text)?;
    }
    Ok(())
}

/// Of a file so many lines can be written, which are so many octets of this text.
fn expect_failure(
    rt: &(impl Abort + AllocGlobal),
    file: &[u8],
    text: &str,
    lines: u64,
    written: usize,
) {
    let alloc = rt.alloc();
    let mut source = FromRead::new(file);
    let mut sink = FailsAt::new(ToWrite::new(Vec::new(alloc)), lines);
    let end = export_text(alloc, &mut source, &mut sink);
    assert!(rt; end == Err(ExportEnd::Output));
    let exported = sink.into_inner().into_inner();
    assert!(rt; Some(exported.as_slice()) == text.as_bytes().get(..written));
}

#[test]
fn texts_that_cannot_be_written(rt: HostRuntime) -> Result<(), Fail> {
    let octets = hex::decode(rt.alloc(), UPLINK.as_bytes())?;
    // A line is one write.
    for (lines, written) in [(0, 0), (1, 17), (2, 88)] {
        expect_failure(&rt, octets.as_slice(), UPLINK_TEXT, lines, written);
    }
    Ok(())
}

/// What comes of a text that is imported, and the file that is written.
fn expect_file(
    rt: &(impl Abort + AllocGlobal),
    text: &str,
    end: Result<Carried, ImportEnd>,
    file: &str,
) -> Result<(), Fail> {
    let alloc = rt.alloc();
    let octets = hex::decode(alloc, file.as_bytes())?;
    let mut source = FromRead::new(text.as_bytes());
    let mut sink = ToWrite::new(Vec::new(alloc));
    assert!(rt; import_text(alloc, &mut source, &mut sink) == end);
    assert!(rt; sink.into_inner().as_slice() == octets.as_slice());
    Ok(())
}

#[test]
fn texts_as_files(rt: HostRuntime) -> Result<(), Fail> {
    let recording = |frames| Carried::Recording { frames };
    let list = |records| Carried::List { records };
    for (text, carried, file) in [
        (UPLINK_TEXT, recording(1), UPLINK),
        (DOWNLINK_TEXT, recording(7), DOWNLINK),
        (OUTGOING_TEXT, list(4), OUTGOING),
        (RECEIVED_TEXT, list(3), RECEIVED),
    ] {
        expect_file(&rt, text, Ok(carried), file)?;
    }
    Ok(())
}

#[test]
fn a_recording_by_hand(rt: HostRuntime) -> Result<(), Fail> {
    let text = "# a burst\r\n\r\n dmrgate\tuplink  1\r\n\
        0\t1 0062008201900100042004e004cd5d7f77fd757ac81800280250028000c0120022 \r\n\
        #\n\t\nframes 1";
    let one_frame = Ok(Carried::Recording { frames: 1 });
    expect_file(&rt, text, one_frame, UPLINK)
}

#[test]
fn a_list_by_hand(rt: HostRuntime) -> Result<(), Fail> {
    let text = "dmrgate received 1\n6 1 status 3 01020005\nrecords 1\n\n# no more";
    let one_record = Ok(Carried::List { records: 1 });
    expect_file(
        &rt,
        text,
        one_record,
        "444D52490100000003000000060102000003000401020005",
    )
}

/// A text of an uplink whose first line is followed by these is at fault in this line.
fn expect_fault(
    rt: &(impl Abort + AllocGlobal),
    lines: &str,
    line: u64,
    fault: TextFault,
    file: &str,
) -> Result<(), Fail> {
    let alloc = rt.alloc();
    let text = format!(in alloc; "dmrgate uplink 1\n{lines}")?;
    let end = Err(ImportEnd::Text(LineFault { line, fault }));
    expect_file(rt, text.as_str(), end, file)
}

/// The head of an uplink without a frame.
const HEAD: &str = "444D525501000000";

#[test]
fn texts_at_fault_behind_a_burst(rt: HostRuntime) -> Result<(), Fail> {
    let line = "0 1 0062008201900100042004E004CD5D7F77FD757AC81800280250028000C0120022\n";
    let slot = UPLINK.strip_suffix("00").unwrap_or("");
    for (behind, fault) in [
        ("", TextFault::NoLastLine),
        (line, TextFault::PlacesDontGrow),
        ("frames 0\n", TextFault::WrongNumber),
    ] {
        let lines = format!(in rt.alloc(); "{line}{behind}")?;
        expect_fault(&rt, lines.as_str(), 3, fault, slot)?;
    }
    Ok(())
}

#[test]
fn texts_at_fault(rt: HostRuntime) -> Result<(), Fail> {
    let odd = "0 1 0062008201900100042004E004CD5D7F77FD757AC81800280250028000C012002\n";
    for (lines, line, fault) in [
        (odd, 2, TextFault::WrongBurst),
        ("1048576 1 -\n", 2, TextFault::TooLong),
        ("00 1 -\n", 2, TextFault::WrongNumber),
        ("records 0\n", 2, TextFault::NoLastLine),
        ("frames 0\n\n#\nframes 0\n", 5, TextFault::LineBehindLast),
    ] {
        expect_fault(&rt, lines, line, fault, HEAD)?;
    }
    Ok(())
}

#[test]
fn texts_without_a_first_line(rt: HostRuntime) -> Result<(), Fail> {
    for (text, line) in [("", 1), ("\ndmrgate uplink 2\n", 2)] {
        let fault = LineFault {
            line,
            fault: TextFault::NoFirstLine,
        };
        expect_file(&rt, text, Err(ImportEnd::Text(fault)), "")?;
    }
    Ok(())
}

#[test]
fn faults_of_lists_of_text(rt: HostRuntime) -> Result<(), Fail> {
    let outgoing = "444D524F01000000";
    let received = "444D524901000000";
    for (text, fault, head) in [
        (
            "dmrgate outgoing 1\n5 1 confirmed fast -\n",
            TextFault::WrongMode,
            outgoing,
        ),
        (
            "dmrgate outgoing 1\n5 1 confirmed half ABC\n",
            TextFault::WrongOctets,
            outgoing,
        ),
        (
            "dmrgate received 1\n5 1 letter 7 -\n",
            TextFault::WrongKind,
            received,
        ),
        (
            "dmrgate received 1\n5 1 status 16777216 -\n",
            TextFault::WrongNumber,
            received,
        ),
    ] {
        let fault = LineFault { line: 2, fault };
        expect_file(&rt, text, Err(ImportEnd::Text(fault)), head)?;
    }
    Ok(())
}

#[test]
fn faults_of_texts_as_words(rt: HostRuntime) -> Result<(), Fail> {
    let alloc = rt.alloc();
    let fault = LineFault {
        line: 7,
        fault: TextFault::WrongBurst,
    };
    let told = format!(in alloc; "{fault}")?;
    assert!(rt; told.as_str() == "line 7: wrong burst");
    Ok(())
}

#[test]
fn counts_of_what_was_carried(rt: HostRuntime) -> Result<(), Fail> {
    let alloc = rt.alloc();
    let frames = u32::MAX;
    let recording = Carried::Recording { frames };
    let list = Carried::List { records: 1 };
    let told = format!(in alloc; "{recording}, {list}")?;
    assert!(rt; told.as_str() == "frames 4294967295 records 8589934590, records 1");
    Ok(())
}
