//! Captures of datagrams from and to lists. The lists are spelled by docs/protocol.md, and the captures are those of `captures`.
ghost use Rattle.dmr_record.specs.Received.{IsSlot};

use crate::captures::{ETHERNET, TWICE, TWICE_BY_EDITCAP, front};
use crate::comparing::{are_same, expect_octets, octets_of};
use dmr_capture::CaptureFault;
use dmr_datagrams::{
    ExportEnd, ExportSettings, ExportedDatagrams, ImportEnd, ImportSettings, ImportedDatagrams,
    export_datagrams, import_datagrams,
};
use dmr_record::{FromRead, RecordFault, ToWrite};
use dmr_recording::FaultLine;
use dmr_test_devices::FailsAt;
use std::process::Abort;

/// A datagram in frame 88 in slot 1, a status in frame 90, and the datagram in frame 104 in slot 2.
const RECEIVED: &str = "444D524901000000\
    03000000580100000001001C4500001C123400004011509B0C0000010C0000021398139A0008C0A9\
    030000005A0102000003000401020005\
    03000000680200000001001C4500001C123400004011509B0C0000010C0000021398139A0008C0A9";

/// Both slots, from the begin of 1970.
const BOTH: ExportSettings = ExportSettings {
    slot: None,
    start: 0,
};

/// What comes of the first octets of a received list, and the first octets of a capture that are written, from an octet on.
fn expect_capture(
    rt: &(impl Abort + AllocGlobal),
    settings: ExportSettings,
    count: usize,
    end: Result<ExportedDatagrams, ExportEnd>,
    capture: &str,
) {
    let alloc = rt.alloc();
    let octets = octets_of(rt, RECEIVED);
    let mut source = FromRead::new(octets.get(..count).unwrap_or(octets.as_slice()));
    let mut sink = ToWrite::new(Vec::new(alloc));
    assert!(rt; export_datagrams(alloc, settings, &mut source, &mut sink) == end);
    let written = sink.into_inner();
    expect_octets(rt, written.as_slice(), capture);
}

#[test]
fn a_received_list_as_a_capture(rt: HostRuntime) {
    let counted = |records, written| Ok(ExportedDatagrams { records, written });
    expect_capture(&rt, BOTH, usize::MAX, counted(3, 2), TWICE);
    expect_capture(&rt, BOTH, 8, counted(0, 0), front(TWICE, 24));
    let slot_1 = ExportSettings {
        slot: Some(1),
        start: 0,
    };
    expect_capture(&rt, slot_1, usize::MAX, counted(3, 1), front(TWICE, 68));
    let late = ExportSettings {
        slot: Some(2),
        start: 1_000_000_250_000,
    };
    // 6.27 s behind that is 1,000,006.52 s: 000F4246 and 0007EF40.
    let shifted = "D4C3B2A1020004000000000000000000FFFF0000E4000000\
        46420F0040EF07001C0000001C000000\
        4500001C123400004011509B0C0000010C0000021398139A0008C0A9";
    expect_capture(&rt, late, usize::MAX, counted(3, 1), shifted);
}

#[test]
fn lists_at_fault_as_a_capture(rt: HostRuntime) {
    let at = |fault, octet| Err(ExportEnd::File(FaultLine {
        fault,
        octet,
        place: None,
    }));
    expect_capture(&rt, BOTH, 7, at(RecordFault::CutRecord, 0), "");
    let first = front(TWICE, 68);
    expect_capture(&rt, BOTH, 60, at(RecordFault::CutRecord, 48), first);
    // The last microsecond that has room for the first record but not for the last.
    let late = ExportSettings {
        slot: None,
        start: 4_294_967_295_999_999 - 5_280_000,
    };
    let second = "D4C3B2A1020004000000000000000000FFFF0000E4000000\
        FFFFFFFF3F420F001C0000001C000000\
        4500001C123400004011509B0C0000010C0000021398139A0008C0A9";
    expect_capture(&rt, late, usize::MAX, at(RecordFault::TooLong, 64), second);
}

/// The settings of slot 1, and of the first frame.
const SLOT_1: ImportSettings = ImportSettings {
    slot: 1,
    confirmed: false,
    full: false,
    first_frame: 0,
};

/// What comes of the first octets of a capture, and the outgoing list that is written.
fn expect_list(
    rt: &(impl Abort + AllocGlobal),
    settings: ImportSettings,
    capture: &str,
    end: Result<ImportedDatagrams, ImportEnd>,
    list: &str,
)
    requires slot { IsSlot settings.slot }
{
    let alloc = rt.alloc();
    let octets = octets_of(rt, capture);
    let mut source = FromRead::new(octets.as_slice());
    let mut sink = ToWrite::new(Vec::new(alloc));
    assert!(rt; import_datagrams(alloc, settings, &mut source, &mut sink) == end);
    let written = sink.into_inner();
    expect_octets(rt, written.as_slice(), list);
}

#[test]
fn captures_as_an_outgoing_list(rt: HostRuntime) {
    let counted = |records, other| Ok(ImportedDatagrams { records, other });
    let list = "444D524F01000000\
        02000000000100001C4500001C123400004011509B0C0000010C0000021398139A0008C0A9\
        02000000100100001C4500001C123400004011509B0C0000010C0000021398139A0008C0A9";
    expect_list(&rt, SLOT_1, TWICE, counted(2, 0), list);
    expect_list(&rt, SLOT_1, TWICE_BY_EDITCAP, counted(2, 0), list);
    let full = ImportSettings {
        slot: 1,
        confirmed: true,
        full: true,
        first_frame: 4_294_967_279,
    };
    let list = "444D524F01000000\
        02FFFFFFEF0103001C4500001C123400004011509B0C0000010C0000021398139A0008C0A9\
        02FFFFFFFF0103001C4500001C123400004011509B0C0000010C0000021398139A0008C0A9";
    expect_list(&rt, full, TWICE, counted(2, 0), list);
    // What fills up a packet isn't in its record. A nanosecond less than 60 milliseconds is the same frame, and the clock that was
    // set back leaves the last frame.
    let list = "444D524F01000000\
        02000000000100001C4500001C123400004011509B0C0000010C0000021398139A0008C0A9\
        02000000000100001C4500001C123400004011509B0C0000010C0000021398139A0008C0A9\
        02000000010100001C4500001C123400004011509B0C0000010C0000021398139A0008C0A9\
        02000000010100001C4500001C123400004011509B0C0000010C0000021398139A0008C0A9";
    expect_list(&rt, SLOT_1, ETHERNET, counted(4, 3), list);
}

#[test]
fn captures_at_fault_as_an_outgoing_list(rt: HostRuntime) {
    let at = |fault| Err(ImportEnd::Capture(fault));
    let last = ImportSettings {
        slot: 1,
        confirmed: false,
        full: false,
        first_frame: u32::MAX,
    };
    let first = "444D524F01000000\
        02FFFFFFFF0100001C4500001C123400004011509B0C0000010C0000021398139A0008C0A9";
    let long = CaptureFault::TooLong { octet: 68 };
    expect_list(&rt, last, TWICE, at(long), first);
    let cut = CaptureFault::CutPacket { octet: 68 };
    expect_list(&rt, last, front(TWICE, 90), at(cut), first);
    expect_list(&rt, SLOT_1, "", at(CaptureFault::CutHead), "");
}

/// A sink fails at a call, and so many octets of a capture are written.
fn expect_torn_capture(rt: &(impl Abort + AllocGlobal), calls: u64, count: usize) {
    let alloc = rt.alloc();
    let octets = octets_of(rt, RECEIVED);
    let mut source = FromRead::new(octets.as_slice());
    let mut sink = FailsAt::new(ToWrite::new(Vec::new(alloc)), calls);
    let end = export_datagrams(alloc, BOTH, &mut source, &mut sink);
    assert!(rt; end == Err(ExportEnd::Output));
    let written = sink.into_inner().into_inner();
    expect_octets(rt, written.as_slice(), front(TWICE, count));
}

#[test]
fn captures_to_sinks_that_fail(rt: HostRuntime) {
    expect_torn_capture(&rt, 0, 0);
    expect_torn_capture(&rt, 1, 24);
    expect_torn_capture(&rt, 2, 40);
    expect_torn_capture(&rt, 3, 68);
}

/// A sink fails at a call, and so many octets of a list are written.
fn expect_torn_list(rt: &(impl Abort + AllocGlobal), calls: u64, count: usize) {
    let alloc = rt.alloc();
    let capture = octets_of(rt, TWICE);
    let mut source = FromRead::new(capture.as_slice());
    let mut sink = FailsAt::new(ToWrite::new(Vec::new(alloc)), calls);
    let end = import_datagrams(alloc, SLOT_1, &mut source, &mut sink);
    assert!(rt; end == Err(ImportEnd::Output));
    let written = sink.into_inner().into_inner();
    are_same(rt, "octets", &written.len(), &count);
}

// The head of a list and each record are two writes.
#[test]
fn lists_to_sinks_that_fail(rt: HostRuntime) {
    expect_torn_list(&rt, 0, 0);
    expect_torn_list(&rt, 1, 4);
    expect_torn_list(&rt, 2, 8);
    expect_torn_list(&rt, 3, 17);
    expect_torn_list(&rt, 4, 45);
}

#[test]
fn captures_from_sources_that_fail(rt: HostRuntime) {
    let alloc = rt.alloc();
    let octets = octets_of(&rt, RECEIVED);
    let mut source = FailsAt::new(FromRead::new(octets.as_slice()), 1);
    let mut sink = ToWrite::new(Vec::new(alloc));
    let end = export_datagrams(alloc, BOTH, &mut source, &mut sink);
    let fault = FaultLine {
        fault: RecordFault::Read,
        octet: 8,
        place: None,
    };
    assert!(rt; end == Err(ExportEnd::File(fault)));
    are_same(&rt, "octets", &sink.into_inner().len(), &24);
}

#[test]
fn lists_from_sources_that_fail(rt: HostRuntime) {
    let alloc = rt.alloc();
    let capture = octets_of(&rt, TWICE);
    let mut source = FailsAt::new(FromRead::new(capture.as_slice()), 2);
    let mut sink = ToWrite::new(Vec::new(alloc));
    let end = import_datagrams(alloc, SLOT_1, &mut source, &mut sink);
    assert!(rt; end == Err(ImportEnd::Capture(CaptureFault::Read { octet: 24 })));
    are_same(&rt, "octets", &sink.into_inner().len(), &8);
}

#[test]
fn counts_as_words(rt: HostRuntime) {
    let alloc = rt.alloc();
    let exported = ExportedDatagrams {
        records: 3,
        written: 2,
    };
    let imported = ImportedDatagrams {
        records: 2,
        other: 18_446_744_073_709_551_615,
    };
    let told = format!(in alloc; "{exported}, {imported}").expect(&rt, "there is room");
    let wanted = "records 3 written 2 left-out 1, records 2 other 18446744073709551615";
    are_same(&rt, "words", &told.as_str(), &wanted);
}
