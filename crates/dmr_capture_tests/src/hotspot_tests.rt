//! Captures of hotspots as recordings. The captures are those of `captures`, and the recordings are spelled by docs/protocol.md.

use crate::captures::{HOTSPOT, HOTSPOT_IN_BLOCKS, front};
use crate::comparing::{are_same, expect_octets, octets_of};
use dmr_capture::CaptureFault;
use dmr_dmrd::{ImportEnd, ImportSettings, ImportedBursts, Ports, import_dmrd};
use dmr_record::{FromRead, ToWrite};
use dmr_test_devices::FailsAt;
use std::process::Abort;

/// What the packet carries, a control signalling block in slot 1, and a silent slot 2: one frame.
const ONE_FRAME: &str = "444D525501000000\
    010062008201900100042004E004CD5D7F77FD757AC81800280250028000C012002200";

/// The packets that go to the port of a network, of any one repeater, as they came.
const TO_NETWORK: ImportSettings = ImportSettings {
    ports: Ports::To(62031),
    repeater: None,
    as_uplink: false,
};

/// The counts of a recording of slot 1 alone.
fn counted(frames: u32, slot_1: u32, late: u64, other: u64) -> ImportedBursts {
    ImportedBursts {
        frames,
        slot_1,
        slot_2: 0,
        lost: 0,
        late,
        other,
    }
}

/// What comes of a capture, and the recording that is written.
fn expect_recording(
    rt: &(impl Abort + AllocGlobal),
    settings: &ImportSettings,
    capture: &str,
    end: Result<ImportedBursts, ImportEnd>,
    recording: &str,
) {
    let alloc = rt.alloc();
    let octets = octets_of(rt, capture);
    let mut source = FromRead::new(octets.as_slice());
    let mut sink = ToWrite::new(Vec::new(alloc));
    assert!(rt; import_dmrd(alloc, settings, &mut source, &mut sink) == end);
    let written = sink.into_inner();
    expect_octets(rt, written.as_slice(), recording);
}

#[test]
fn captures_of_hotspots_as_recordings(rt: HostRuntime) {
    expect_recording(
        &rt,
        &TO_NETWORK,
        HOTSPOT,
        Ok(counted(1, 1, 0, 0)),
        ONE_FRAME,
    );
    let blocks = HOTSPOT_IN_BLOCKS;
    expect_recording(&rt, &TO_NETWORK, blocks, Ok(counted(1, 1, 0, 0)), ONE_FRAME);
    let from = ImportSettings {
        ports: Ports::From(62032),
        repeater: Some(0x0003_FF71),
        as_uplink: true,
    };
    expect_recording(&rt, &from, HOTSPOT, Ok(counted(1, 1, 0, 0)), ONE_FRAME);
    let other = ImportSettings {
        ports: Ports::To(62031),
        repeater: Some(1),
        as_uplink: false,
    };
    let none = "444D525501000000";
    expect_recording(&rt, &other, HOTSPOT, Ok(counted(0, 0, 0, 1)), none);
}

#[test]
fn captures_at_fault_leave_no_recording(rt: HostRuntime) {
    let at = |fault| Err(ImportEnd::Capture(fault));
    let cut = HOTSPOT.get(..100).unwrap_or(HOTSPOT);
    let fault = CaptureFault::CutPacket { octet: 24 };
    expect_recording(&rt, &TO_NETWORK, cut, at(fault), "");
    expect_recording(&rt, &TO_NETWORK, "", at(CaptureFault::CutHead), "");
}

/// A sink fails at a call, and so many octets are written.
fn expect_torn(rt: &(impl Abort + AllocGlobal), calls: u64, count: usize) {
    let alloc = rt.alloc();
    let octets = octets_of(rt, HOTSPOT);
    let mut source = FromRead::new(octets.as_slice());
    let mut sink = FailsAt::new(ToWrite::new(Vec::new(alloc)), calls);
    let end = import_dmrd(alloc, &TO_NETWORK, &mut source, &mut sink);
    assert!(rt; end == Err(ImportEnd::Output));
    let written = sink.into_inner().into_inner();
    expect_octets(rt, written.as_slice(), front(ONE_FRAME, count));
}

// The head is two writes, and each slot is one.
#[test]
fn sinks_that_fail_at_a_recording(rt: HostRuntime) {
    expect_torn(&rt, 0, 0);
    expect_torn(&rt, 1, 4);
    expect_torn(&rt, 2, 8);
    expect_torn(&rt, 3, 42);
}

#[test]
fn source_that_fails_at_a_recording(rt: HostRuntime) {
    let alloc = rt.alloc();
    let octets = octets_of(&rt, HOTSPOT);
    let mut source = FailsAt::new(FromRead::new(octets.as_slice()), 2);
    let mut sink = ToWrite::new(Vec::new(alloc));
    let end = import_dmrd(alloc, &TO_NETWORK, &mut source, &mut sink);
    assert!(rt; end == Err(ImportEnd::Capture(CaptureFault::Read { octet: 24 })));
    assert!(rt; sink.into_inner().is_empty());
}

#[test]
fn counts_of_a_recording_as_words(rt: HostRuntime) {
    let alloc = rt.alloc();
    let counted = ImportedBursts {
        frames: 20,
        slot_1: 18,
        slot_2: 0,
        lost: 2,
        late: 0,
        other: 7,
    };
    let told = format!(in alloc; "{counted}").expect(&rt, "there is room");
    let wanted = "frames 20 slot-1 18 slot-2 0 lost 2 late 0 other 7";
    are_same(&rt, "words", &told.as_str(), &wanted);
}
