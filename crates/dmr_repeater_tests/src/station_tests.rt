//! Frames from outside, and what a station gives for them.
mod gateway;

use crate::tests::are_same;
use dmr_gateway::Config;
use dmr_station::{Counts, DownlinkFrame, SILENCE, Station, UplinkFrame};
use dmr_test_values::{CALL_HEADER, IDLE_BURST, ONE_CSBK, REPEATED_CALL_HEADER, REPEATED_CSBK};
use std::alloc::Global;
use std::process::Abort;

/// Nothing is counted.
const NO_COUNTS: Counts = Counts {
    frames: 0,
    repeated: 0,
    offered: 0,
    refused: 0,
    received: 0,
    delivered: 0,
    sent: 0,
    given_up: 0,
};

/// A new station of colour code 1, with a channel hang of five frames.
fn new_station(rt: &impl Abort, alloc: Global) -> Station {
    let config = Config::new(1, 1, 3, 5, 9).expect(rt, "the settings are in range");
    Station::new(alloc, &config).expect(rt, "there is room for two lines")
}

/// The next frame of the downlink.
fn next_frame(rt: &impl Abort, station: &mut Station, frame: &UplinkFrame) -> DownlinkFrame {
    assert!(rt; station.counts().frames < 1_000_000);
    station.exchange(frame)
}

/// What goes out for a burst in slot 1, six frames later.
fn sent_for(rt: &impl Abort, station: &mut Station, burst: [u8; 33]) -> DownlinkFrame {
    let frames = [
        SILENCE,
        [Some(burst), None],
        SILENCE,
        SILENCE,
        SILENCE,
        SILENCE,
    ];
    for frame in &frames {
        assert!(rt; next_frame(rt, station, frame) == [None, None]);
    }
    next_frame(rt, station, &SILENCE)
}

/// A station has counted this.
fn expect_counts(rt: &impl Abort, station: &Station, want: Counts) {
    are_same(rt, "counts", &station.counts(), &want);
}

/// A new station repeats a burst in slot 1 by these records, and counts it.
fn expect_repeated(rt: &impl Abort, alloc: Global, burst: [u8; 33], want: &DownlinkFrame) {
    let mut station = new_station(rt, alloc);
    let records = sent_for(rt, &mut station, burst);
    are_same(rt, "records", &records, want);
    let counts = Counts {
        frames: 7,
        repeated: 1,
        ..NO_COUNTS
    };
    expect_counts(rt, &station, counts);
}

#[test]
fn one_csbk(rt: HostRuntime) {
    let repeated = Some(([0x80, 0x0A, 0x20], REPEATED_CSBK));
    let idle = Some(([0x08, 0x88, 0x20], IDLE_BURST));
    expect_repeated(&rt, rt.alloc(), ONE_CSBK, &[repeated, idle]);
}

// Both CACHs announce the call.
#[test]
fn header_of_a_call(rt: HostRuntime) {
    let repeated = Some(([0x80, 0x0A, 0x65], REPEATED_CALL_HEADER));
    let idle = Some(([0x1B, 0x9C, 0x70], IDLE_BURST));
    expect_repeated(&rt, rt.alloc(), CALL_HEADER, &[repeated, idle]);
}
