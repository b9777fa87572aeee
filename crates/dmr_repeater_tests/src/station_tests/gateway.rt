//! A station with its gateway: what it is offered, what it sends and receives, and what it counts.

use super::{NO_COUNTS, expect_counts, new_station, next_frame};
use crate::tests::are_same;
use dmr_bits::Bits;
use dmr_bptc::{bptc_decode, bptc_encode};
use dmr_burst::{Burst, Side, data_type, encode_burst, read_info};
use dmr_checks::{Mask, seal};
use dmr_gateway::Received;
use dmr_record::{Octets, Outgoing, ReceivedKind};
use dmr_station::{Counts, SILENCE, Station};
use dmr_test_values::EMPTY_DATAGRAM;
use std::process::Abort;

/// A status of radio 3 for radio 1, of ports 1 and 2, and 5, as a mobile station of colour code 1 sends it.
fn status_burst() -> [u8; 33] {
    let octets = [0x0E, 0xA0, 0, 0, 1, 0, 0, 3, 0x28, 5];
    let info = bptc_encode(&Bits::<96>::from_octets(&seal(&octets, Mask::Header)));
    encode_burst(
        &Burst::Data {
            colour: 1,
            kind: data_type::DATA_HEADER,
            info,
        },
        Side::Ms,
    )
}

/// Offers so many octets of the datagram, for slot 2.
fn offer(rt: &impl Abort, station: &mut Station, count: u16, confirmed: bool) {
    assert!(rt; station.counts().offered < 1_000_000);
    let mut octets = Octets::new();
    octets.keep(EMPTY_DATAGRAM.get(..usize::from(count)).unwrap_or(&[]));
    station.offer(&Outgoing {
        frame: 0,
        slot: 2,
        confirmed,
        full: false,
        length: count,
        octets,
    });
}

/// What is received is the status, in slot 2.
fn is_the_status(rt: &impl Abort, received: &Received) {
    are_same(rt, "slot", &received.slot, &2);
    are_same(rt, "kind", &received.kind, &ReceivedKind::Status);
    are_same(rt, "source", &received.source, &3);
    are_same(
        rt,
        "octets",
        &received.octets.as_slice(),
        &&[1, 2, 0, 5][..],
    );
}

/// The station has received nothing.
fn expect_nothing_received(rt: &impl Abort, station: &mut Station) {
    assert!(rt; station.take_received().is_none());
}

/// The station has received the status, and nothing more.
fn expect_status(rt: &impl Abort, station: &mut Station) {
    let received = station.take_received().expect(rt, "a status is received");
    is_the_status(rt, &received);
    expect_nothing_received(rt, station);
}

/// Takes seven frames, the second of which has the status in slot 2. Before each of them the station has received nothing.
fn pass_status(rt: &impl Abort, station: &mut Station) {
    let status = status_burst();
    for number in 0..7u32 {
        expect_nothing_received(rt, station);
        let second = if number == 1 { Some(status) } else { None };
        let _records = next_frame(rt, station, &[None, second]);
    }
}

// It came in the first frame of the uplink, and is received in the frame of the downlink in which it is repeated.
#[test]
fn status_received(rt: HostRuntime) {
    let counts = Counts {
        frames: 7,
        repeated: 1,
        received: 1,
        ..NO_COUNTS
    };
    let mut station = new_station(&rt, rt.alloc());
    pass_status(&rt, &mut station);
    expect_status(&rt, &mut station);
    expect_counts(&rt, &station, counts);
}

/// Both slots are on the air in the next frame, and slot 2 sends a block that begins with these octets.
fn expect_block(rt: &impl Abort, station: &mut Station, front: &[u8; 10]) {
    let [first, second] = next_frame(rt, station, &SILENCE);
    assert!(rt; first.is_some());
    let (_, burst) = second.expect(rt, "slot 2 sends");
    let message = bptc_decode(&read_info(&burst)).expect(rt, "it is read");
    let octets: [u8; 12] = message.octets();
    assert!(rt; octets.starts_with(front));
}

/// In three frames go two preambles and the header: of two datagrams that were offered one was refused, and none is sent yet.
fn expect_header_out(rt: &impl Abort, station: &mut Station) {
    expect_block(rt, station, b"\xBD\x00\x80\x03\x00\x00\x02\x00\x00\x01");
    expect_block(rt, station, b"\xBD\x00\x80\x02\x00\x00\x02\x00\x00\x01");
    let _header = next_frame(rt, station, &SILENCE);
    let counts = Counts {
        frames: 3,
        offered: 2,
        refused: 1,
        ..NO_COUNTS
    };
    expect_counts(rt, station, counts);
}

/// The block goes in the fourth frame, and the datagram is sent.
fn expect_block_out(rt: &impl Abort, station: &mut Station) {
    let _block = next_frame(rt, station, &SILENCE);
    let counts = Counts {
        frames: 4,
        offered: 2,
        refused: 1,
        sent: 1,
        ..NO_COUNTS
    };
    expect_counts(rt, station, counts);
}

// Octets that end in the address go nowhere. A packet is counted with its last burst.
#[test]
fn datagrams_offered(rt: HostRuntime) {
    let mut station = new_station(&rt, rt.alloc());
    offer(&rt, &mut station, 28, false);
    offer(&rt, &mut station, 19, false);
    expect_header_out(&rt, &mut station);
    expect_block_out(&rt, &mut station);
}
