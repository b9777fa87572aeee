//! Files at fault, and devices that fail: what a run says, and what it has written before.

use super::gateway::status_burst;
use super::{
    DOWNLINK, FRAME_5, ONE_DATAGRAM, OUTGOING, RECEIVED, Ran, UPLINK, answer_of, are_same, joined,
    run_over, run_pieces, settings,
};
use dmr_record::{FromRead, RecordFault, ToWrite};
use dmr_repeater::{RunFault, Stream};
use dmr_test_devices::FailsAt;
use dmr_test_values::{EMPTY_DATAGRAM, ONE_CSBK};
use std::alloc::Global;
use std::process::Abort;

/// Two files, one at fault, and what is on the downlink then: all in pieces.
struct Row {
    name: &'static str,
    uplink: &'static [&'static [u8]],
    outgoing: &'static [&'static [u8]],
    fault: RunFault,
    downlink: &'static [&'static [u8]],
}

/// A fault shows in the frame that wants what is behind it; where a head is at fault, nothing is written.
static ROWS: [Row; 17] = [
    Row {
        name: "half_frame_first",
        uplink: &[&UPLINK, &[0]],
        outgoing: &[&OUTGOING],
        fault: RunFault::File(Stream::Uplink, RecordFault::HalfFrame),
        downlink: &[&DOWNLINK, &[0; 2]],
    },
    Row {
        name: "half_frame_after_silence",
        uplink: &[&UPLINK, &[0; 21]],
        outgoing: &[&OUTGOING],
        fault: RunFault::File(Stream::Uplink, RecordFault::HalfFrame),
        downlink: &[&DOWNLINK, &[0; 22]],
    },
    Row {
        name: "faulty_uplinks, half a second frame",
        uplink: &[&UPLINK, &[0; 3]],
        outgoing: &[&OUTGOING],
        fault: RunFault::File(Stream::Uplink, RecordFault::HalfFrame),
        downlink: &[&DOWNLINK, &[0; 4]],
    },
    Row {
        name: "faulty_uplinks, cut",
        uplink: &[&UPLINK, &[1, 0, 0, 0]],
        outgoing: &[&OUTGOING],
        fault: RunFault::File(Stream::Uplink, RecordFault::CutRecord),
        downlink: &[&DOWNLINK, &[0; 2]],
    },
    Row {
        name: "faulty_uplinks, no tag",
        uplink: &[&UPLINK, &[7]],
        outgoing: &[&OUTGOING],
        fault: RunFault::File(Stream::Uplink, RecordFault::BadTag),
        downlink: &[&DOWNLINK, &[0; 2]],
    },
    Row {
        name: "faulty_uplinks, empty",
        uplink: &[],
        outgoing: &[&OUTGOING],
        fault: RunFault::File(Stream::Uplink, RecordFault::CutRecord),
        downlink: &[],
    },
    Row {
        name: "outgoing, empty",
        uplink: &[&UPLINK],
        outgoing: &[],
        fault: RunFault::File(Stream::Outgoing, RecordFault::CutRecord),
        downlink: &[],
    },
    Row {
        name: "outgoing, magic of an uplink",
        uplink: &[&UPLINK],
        outgoing: &[&UPLINK],
        fault: RunFault::File(Stream::Outgoing, RecordFault::Magic),
        downlink: &[],
    },
    Row {
        name: "outgoing, version 2",
        uplink: &[&UPLINK],
        outgoing: &[b"DMRO\x02\0\0\0"],
        fault: RunFault::File(Stream::Outgoing, RecordFault::Version),
        downlink: &[],
    },
    Row {
        name: "outgoing, no tag",
        uplink: &[&UPLINK],
        outgoing: &[&OUTGOING, &[3]],
        fault: RunFault::File(Stream::Outgoing, RecordFault::BadTag),
        downlink: &[&DOWNLINK],
    },
    Row {
        name: "outgoing, slot 3",
        uplink: &[&UPLINK],
        outgoing: &[&OUTGOING, &[2, 0, 0, 0, 0, 3, 0, 0, 0]],
        fault: RunFault::File(Stream::Outgoing, RecordFault::BadTag),
        downlink: &[&DOWNLINK],
    },
    Row {
        name: "outgoing, cut behind the tag",
        uplink: &[&UPLINK],
        outgoing: &[&OUTGOING, &[2]],
        fault: RunFault::File(Stream::Outgoing, RecordFault::CutRecord),
        downlink: &[&DOWNLINK],
    },
    Row {
        name: "outgoing, cut before the datagram",
        uplink: &[&UPLINK],
        outgoing: &[&OUTGOING, &[2, 0, 0, 0, 0, 1, 0, 0, 1]],
        fault: RunFault::File(Stream::Outgoing, RecordFault::CutRecord),
        downlink: &[&DOWNLINK],
    },
    Row {
        name: "decreasing_frames",
        uplink: &[&UPLINK],
        outgoing: &[
            &OUTGOING,
            &FRAME_5,
            &EMPTY_DATAGRAM,
            &[2, 0, 0, 0, 4, 1, 0, 0, 0],
        ],
        fault: RunFault::File(Stream::Outgoing, RecordFault::FrameOrder),
        downlink: &[&DOWNLINK, &[0; 10]],
    },
    Row {
        name: "fault of frame 1, no frame",
        uplink: &[&UPLINK],
        outgoing: &[&OUTGOING, &[2, 0, 0, 0, 1, 1, 0, 0, 0], &[7]],
        fault: RunFault::File(Stream::Outgoing, RecordFault::BadTag),
        downlink: &[&DOWNLINK, &[0; 2]],
    },
    Row {
        name: "fault of frame 1, a frame",
        uplink: &[&UPLINK, &[0, 0]],
        outgoing: &[&OUTGOING, &[2, 0, 0, 0, 1, 1, 0, 0, 0], &[7]],
        fault: RunFault::File(Stream::Outgoing, RecordFault::BadTag),
        downlink: &[&DOWNLINK, &[0; 2]],
    },
    Row {
        name: "fault of frame 1, half a frame: the uplink is read first",
        uplink: &[&UPLINK, &[0]],
        outgoing: &[&OUTGOING, &[2, 0, 0, 0, 1, 1, 0, 0, 0], &[7]],
        fault: RunFault::File(Stream::Uplink, RecordFault::HalfFrame),
        downlink: &[&DOWNLINK, &[0; 2]],
    },
];

/// The run over these files ends with this fault, with both heads written or none.
fn check_row(rt: &impl Abort, alloc: Global, row: &Row) {
    let ran = run_pieces(rt, alloc, row.uplink, row.outgoing);
    are_same(rt, row.name, &ran.answer, &Err(row.fault));
    let downlink = joined(rt, alloc, row.downlink);
    are_same(rt, row.name, &ran.downlink, &downlink);
    let received: &[u8] = if row.downlink.is_empty() {
        &[]
    } else {
        &RECEIVED
    };
    are_same(rt, row.name, &ran.received.as_slice(), &received);
}

#[test]
fn faulty_files(rt: HostRuntime) {
    for row in &ROWS {
        check_row(&rt, rt.alloc(), row);
    }
}

/// After how many calls a device fails: that of the stream that is to fail, and others never.
fn calls_of(stream: Stream, failing: Stream, calls: u64) -> u64 {
    if stream == failing { calls } else { u64::MAX }
}

/// Two files, of which stream the device is to fail, and what is told then.
#[derive(Drop)]
struct Failing<'a> {
    uplink: &'a [u8],
    outgoing: &'a [u8],
    stream: Stream,
    fault: RecordFault,
}

/// A run in which the device fails after so many calls.
fn run_failing(rt: &impl Abort, alloc: Global, failing: &Failing, calls: u64) -> Ran {
    let uplink_calls = calls_of(Stream::Uplink, failing.stream, calls);
    let mut uplink = FailsAt::new(FromRead::new(failing.uplink), uplink_calls);
    let outgoing_calls = calls_of(Stream::Outgoing, failing.stream, calls);
    let mut outgoing = FailsAt::new(FromRead::new(failing.outgoing), outgoing_calls);
    let downlink_calls = calls_of(Stream::Downlink, failing.stream, calls);
    let mut downlink = FailsAt::new(ToWrite::new(Vec::new(alloc)), downlink_calls);
    let received_calls = calls_of(Stream::Received, failing.stream, calls);
    let mut received = FailsAt::new(ToWrite::new(Vec::new(alloc)), received_calls);
    let answer = answer_of(
        alloc,
        settings(rt, 1),
        &mut uplink,
        &mut outgoing,
        &mut downlink,
        &mut received,
    );
    Ran {
        answer,
        downlink: downlink.into_inner().into_inner(),
        received: received.into_inner().into_inner(),
    }
}

/// What a run has written before the device failed, after so many calls, is a front of what the whole run has.
fn expect_front(rt: &impl Abort, whole: &Ran, ran: &Ran, calls: u64) {
    assert!(rt; whole.downlink.starts_with(&ran.downlink), "at {calls}");
    assert!(rt; whole.received.starts_with(&ran.received), "at {calls}");
}

/// A run tells the fault of the device that failed after so many calls.
fn expect_fault(rt: &impl Abort, failing: &Failing, ran: &Ran, calls: u64) {
    let told = Err(RunFault::File(failing.stream, failing.fault));
    assert!(rt; ran.answer == told, "at {calls}");
}

/// Whether a run in which the device fails after so many calls ends as the whole one does. Else it tells the fault, and either way
/// what is written before is a front.
fn ends_whole(rt: &impl Abort, alloc: Global, failing: &Failing, whole: &Ran, calls: u64) -> bool {
    let ran = run_failing(rt, alloc, failing, calls);
    expect_front(rt, whole, &ran, calls);
    let is_whole = ran.answer == whole.answer;
    if !is_whole {
        expect_fault(rt, failing, &ran, calls);
    }
    is_whole
}

/// How many calls of the device fail, each in turn, up to a whole run.
fn count_failures(rt: &impl Abort, alloc: Global, failing: &Failing) -> u64 {
    let whole = run_over(rt, alloc, failing.uplink, failing.outgoing);
    for calls in 0..100u64 {
        if ends_whole(rt, alloc, failing, &whole, calls) {
            return calls;
        }
    }
    100
}

/// So many calls of the device fail, each in turn.
fn expect_failures(rt: &impl Abort, alloc: Global, failing: &Failing, calls: u64) {
    let failures = count_failures(rt, alloc, failing);
    are_same(rt, "calls that fail", &failures, &calls);
}

/// The uplink of a frame with this burst in slot 1, and of so much silence behind it.
fn uplink_of(rt: &impl Abort, alloc: Global, burst: &[u8; 33], silence: &[u8]) -> Vec<u8> {
    joined(rt, alloc, &[&UPLINK, &[1], burst, silence])
}

// Of the uplink the head, each of twenty tags, a burst, and the end; of the outgoing file the head, the tag, the fields, the
// datagram, and the end.
#[test]
fn failing_reads(rt: HostRuntime) {
    let uplink = uplink_of(&rt, rt.alloc(), &ONE_CSBK, &[0; 19]);
    let outgoing = joined(&rt, rt.alloc(), &ONE_DATAGRAM);
    for (stream, calls) in [
        (Stream::Uplink, 1 + 20 + 1 + 1),
        (Stream::Outgoing, 1 + 3 + 1),
    ] {
        let failing = Failing {
            uplink: &uplink,
            outgoing: &outgoing,
            stream,
            fault: RecordFault::Read,
        };
        expect_failures(&rt, rt.alloc(), &failing, calls);
    }
}

// Of the downlink the two pieces of the head, and each of seven frames; of the received file the two pieces of the head, and those
// of a status.
#[test]
fn failing_writes(rt: HostRuntime) {
    let uplink = uplink_of(&rt, rt.alloc(), &status_burst(), &[0]);
    let outgoing = joined(&rt, rt.alloc(), &ONE_DATAGRAM);
    for (stream, calls) in [(Stream::Downlink, 2 + 7), (Stream::Received, 2 + 2)] {
        let failing = Failing {
            uplink: &uplink,
            outgoing: &outgoing,
            stream,
            fault: RecordFault::Write,
        };
        expect_failures(&rt, rt.alloc(), &failing, calls);
    }
}

/// A run that can't write the status after so many calls has written the whole downlink, the frame before it too.
fn expect_whole_downlink(rt: &impl Abort, alloc: Global, failing: &Failing, calls: u64) {
    let whole = run_over(rt, alloc, failing.uplink, failing.outgoing);
    let ran = run_failing(rt, alloc, failing, calls);
    are_same(rt, "downlink", &ran.downlink, &whole.downlink);
    assert!(rt; ran.received.len() < 8 + 16);
}

// The status can't be written: the frame before it is.
#[test]
fn failing_received(rt: HostRuntime) {
    let uplink = uplink_of(&rt, rt.alloc(), &status_burst(), &[0]);
    let failing = Failing {
        uplink: &uplink,
        outgoing: &OUTGOING,
        stream: Stream::Received,
        fault: RecordFault::Write,
    };
    for calls in 2..4u64 {
        expect_whole_downlink(&rt, rt.alloc(), &failing, calls);
    }
}
