//! Captures of downlinks. The downlinks are spelled by docs/protocol.md, and the captures by it and by RFC 791, RFC 768 and RFC
//! 1071.

use crate::captures::front;
use crate::comparing::{are_same, expect_octets, octets_of};
use dmr_dmrd_export::{ExportSettings, ExportedBursts, export_dmrd};
use dmr_record::{FromRead, RecordFault, ToWrite};
use dmr_recording::{FaultLine, Place, Stop};
use dmr_test_devices::FailsAt;
use std::process::Abort;

/// Six silent frames, and one with a control signalling block in slot 1 that is repeated, and an idle burst in slot 2.
const ONE_BLOCK: &str = "444D524401000000\
    000000000000000000000000\
    01800A200062008201900100042004E004CDFF57D75DF5DAC81800280250028000C0120022\
    0108882053C25EABA8671DC7383BD936065DFF57D75DF5D92BF6E465171B48CA6D4FC610B4";

/// Its capture: the head, and the packet of the block.
const ITS_CAPTURE: &str = "D4C3B2A1020004000000000000000000FFFF0000E4000000\
    00000000407E05005100000051000000\
    45000051000040004011B698C0000201C0000202F24FF24F003D1F78\
    444D524400000000000000000000012300000001\
    0062008201900100042004E004CDFF57D75DF5DAC81800280250028000C0120022";

/// The settings of a repeater of a number, whose downlink begins in 1970.
fn repeater(rt: &impl Abort, number: u32) -> ExportSettings {
    ExportSettings::new(number, 0).expect(rt, "1970 is in time")
}

/// What comes of the first octets of the downlink, and how many octets of its capture are written.
fn expect_capture(
    rt: &(impl Abort + AllocGlobal),
    count: usize,
    end: Result<ExportedBursts, Stop>,
    written: usize,
) {
    let octets = octets_of(rt, ONE_BLOCK);
    let mut source = FromRead::new(octets.get(..count).unwrap_or(octets.as_slice()));
    let mut sink = ToWrite::new(Vec::new(rt.alloc()));
    assert!(rt; export_dmrd(&repeater(rt, 1), &mut source, &mut sink) == end);
    let capture = sink.into_inner();
    expect_octets(rt, capture.as_slice(), front(ITS_CAPTURE, written));
}

#[test]
fn downlinks_as_captures(rt: HostRuntime) {
    let counted = |records, written| Ok(ExportedBursts { records, written });
    expect_capture(&rt, usize::MAX, counted(2, 1), 121);
    expect_capture(&rt, 20, counted(0, 0), 24);
}

#[test]
fn another_repeater_and_begin(rt: HostRuntime) {
    let octets = octets_of(&rt, ONE_BLOCK);
    let settings = ExportSettings::new(0x0003_FF71, 1_000_000_250_000).expect(&rt, "in time");
    let mut source = FromRead::new(octets.as_slice());
    let mut sink = ToWrite::new(Vec::new(rt.alloc()));
    assert!(rt; export_dmrd(&settings, &mut source, &mut sink).is_ok());
    let capture = sink.into_inner();
    // 0.36 s behind that is 1,000,000.61 s: 000F4240 and 00094ED0.
    let begin = b"\x40\x42\x0F\x00\xD0\x4E\x09\x00".as_slice();
    assert!(rt; capture.get(24..32) == Some(begin));
    assert!(rt; capture.get(66..68) == Some(b"\xAB\x78".as_slice()));
    assert!(rt; capture.get(79..83) == Some(b"\x00\x03\xFF\x71".as_slice()));
}

#[test]
fn last_begin_in_time(rt: HostRuntime) {
    assert!(rt; ExportSettings::new(1, 4_294_904_381_080_000).is_some());
    assert!(rt; ExportSettings::new(1, 4_294_904_381_080_001).is_none());
}

#[test]
fn downlinks_at_fault(rt: HostRuntime) {
    let at = |fault, octet, place| Err(Stop::File(FaultLine {
        fault,
        octet,
        place,
    }));
    expect_capture(&rt, 7, at(RecordFault::CutRecord, 0, None), 0);
    let slot_1 = Some(Place { frame: 6, slot: 1 });
    expect_capture(&rt, 56, at(RecordFault::CutRecord, 20, slot_1), 24);
    let slot_2 = Some(Place { frame: 6, slot: 2 });
    expect_capture(&rt, 57, at(RecordFault::HalfFrame, 57, slot_2), 121);
    expect_capture(&rt, 58, at(RecordFault::CutRecord, 57, slot_2), 121);
}

/// A sink fails at a call, and so many octets are written.
fn expect_torn(rt: &(impl Abort + AllocGlobal), calls: u64, count: usize) {
    let octets = octets_of(rt, ONE_BLOCK);
    let mut source = FromRead::new(octets.as_slice());
    let mut sink = FailsAt::new(ToWrite::new(Vec::new(rt.alloc())), calls);
    let end = export_dmrd(&repeater(rt, 1), &mut source, &mut sink);
    assert!(rt; end == Err(Stop::Output));
    let written = sink.into_inner().into_inner();
    expect_octets(rt, written.as_slice(), front(ITS_CAPTURE, count));
}

#[test]
fn sinks_that_fail(rt: HostRuntime) {
    expect_torn(&rt, 0, 0);
    expect_torn(&rt, 1, 24);
    expect_torn(&rt, 2, 40);
}

#[test]
fn source_that_fails(rt: HostRuntime) {
    let octets = octets_of(&rt, ONE_BLOCK);
    let mut source = FailsAt::new(FromRead::new(octets.as_slice()), 1);
    let mut sink = ToWrite::new(Vec::new(rt.alloc()));
    let end = export_dmrd(&repeater(&rt, 1), &mut source, &mut sink);
    let fault = FaultLine {
        fault: RecordFault::Read,
        octet: 8,
        place: Some(Place { frame: 0, slot: 1 }),
    };
    assert!(rt; end == Err(Stop::File(fault)));
    are_same(&rt, "octets", &sink.into_inner().len(), &24);
}

#[test]
fn counts_of_bursts_as_words(rt: HostRuntime) {
    let exported = ExportedBursts {
        records: 52,
        written: 26,
    };
    let told = format!(in rt.alloc(); "{exported}").expect(&rt, "there is room");
    are_same(
        &rt,
        "words",
        &told.as_str(),
        &"records 52 written 26 left-out 26",
    );
}
