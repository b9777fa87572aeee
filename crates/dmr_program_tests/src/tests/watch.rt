//! Where the octets of a file have got to, and what is heard of an uplink.
use crate::tests::are_same;
use arrayvec::ArrayString;
use dmr_record::{FileFormat, RecordFault};
use dmr_recording::FaultLine;
use dmr_watch::{Ear, Heard, Reached};
use std::fmt::Write;
use std::process::Abort;

/// An idle burst of a base station, of colour code 1.
const IDLE: [u8; 33] = [
    0x53, 0xC2, 0x5E, 0xAB, 0xA8, 0x67, 0x1D, 0xC7, 0x38, 0x3B, 0xD9, 0x36, 0x06, 0x5D, 0xFF, 0x57,
    0xD7, 0x5D, 0xF5, 0xD9, 0x2B, 0xF6, 0xE4, 0x65, 0x17, 0x1B, 0x48, 0xCA, 0x6D, 0x4F, 0xC6, 0x10,
    0xB4,
];

/// A control signalling block of a mobile station, of colour code 1.
const BLOCK: [u8; 33] = [
    0x00, 0x62, 0x00, 0x82, 0x01, 0x90, 0x01, 0x00, 0x04, 0x20, 0x04, 0xE0, 0x04, 0xCD, 0x5D, 0x7F,
    0x77, 0xFD, 0x75, 0x7A, 0xC8, 0x18, 0x00, 0x28, 0x02, 0x50, 0x02, 0x80, 0x00, 0xC0, 0x12, 0x00,
    0x22,
];

/// Where octets behind a head have got to that come one by one.
fn reached_one_by_one(head: Reached, format: FileFormat, octets: &[u8]) -> Reached {
    let mut reached = head;
    for octet in octets {
        reached = reached.with(format, *octet);
    }
    reached
}

/// How a fault is told.
fn told(line: FaultLine) -> ArrayString<64> {
    let mut told = ArrayString::new();
    // There is room for each of them.
    let _ = write!(told, "{line}");
    told
}

/// In a file of a head and these octets behind it, in however many pieces they come, a fault is told so.
fn expect_place(
    rt: &impl Abort,
    format: FileFormat,
    octets: &[u8],
    fault: RecordFault,
    text: &str,
) {
    let head = Reached::nothing().by(format, b"DMR?\x01\x00\x00\x00");
    let reached = head.by(format, octets);
    let told = told(reached.fault_line(format, fault));
    are_same(rt, "told", &told.as_str(), &text);
    let slowly = reached_one_by_one(head, format, octets);
    assert!(rt; reached == slowly, "{text}");
}

/// Each fault is told where its record begins.
#[test]
fn places_in_uplinks(rt: HostRuntime) {
    expect_place(
        &rt,
        FileFormat::Uplink,
        &[],
        RecordFault::HalfFrame,
        "half frame at octet 8, frame 0, slot 1",
    );
    expect_place(
        &rt,
        FileFormat::Uplink,
        &[],
        RecordFault::Version,
        "bad version at octet 0",
    );
    expect_place(
        &rt,
        FileFormat::Uplink,
        &[0],
        RecordFault::HalfFrame,
        "half frame at octet 9, frame 0, slot 2",
    );
    expect_place(
        &rt,
        FileFormat::Uplink,
        &[0, 0, 7],
        RecordFault::BadTag,
        "bad tag at octet 10, frame 1, slot 1",
    );
    expect_place(
        &rt,
        FileFormat::Uplink,
        &[0, 1, 9, 9],
        RecordFault::CutRecord,
        "cut record at octet 9, frame 0, slot 2",
    );
    expect_place(
        &rt,
        FileFormat::Uplink,
        &[0, 1, 9, 9],
        RecordFault::Read,
        "read failed at octet 9, frame 0, slot 2",
    );
    expect_place(
        &rt,
        FileFormat::Uplink,
        &[0, 0],
        RecordFault::Read,
        "read failed at octet 10, frame 1, slot 1",
    );
    expect_place(
        &rt,
        FileFormat::Uplink,
        &[0, 0, 0],
        RecordFault::TooLong,
        "too long at octet 10, frame 1, slot 1",
    );
}

#[test]
fn places_in_downlinks(rt: HostRuntime) {
    expect_place(
        &rt,
        FileFormat::Downlink,
        &[0, 0, 0],
        RecordFault::Write,
        "write failed at octet 11, frame 1, slot 2",
    );
    expect_place(
        &rt,
        FileFormat::Downlink,
        &[0, 1, 5, 5, 5],
        RecordFault::Write,
        "write failed at octet 9, frame 0, slot 2",
    );
}

#[test]
fn places_in_outgoing_lists(rt: HostRuntime) {
    expect_place(
        &rt,
        FileFormat::Outgoing,
        &[9],
        RecordFault::BadTag,
        "bad tag at octet 8",
    );
    expect_place(
        &rt,
        FileFormat::Outgoing,
        &[2, 0, 0, 0, 0, 1, 0, 0, 2, 7, 7],
        RecordFault::Read,
        "read failed at octet 19",
    );
    expect_place(
        &rt,
        FileFormat::Outgoing,
        &[2, 0, 0, 0, 0, 1, 0, 0, 2, 7],
        RecordFault::CutRecord,
        "cut record at octet 8",
    );
    expect_place(
        &rt,
        FileFormat::Outgoing,
        &[2, 0, 0, 0, 0, 3, 0, 0, 0],
        RecordFault::BadTag,
        "bad tag at octet 8",
    );
    expect_place(
        &rt,
        FileFormat::Outgoing,
        &[2, 0, 0, 0, 0, 1, 0, 0, 0, 2],
        RecordFault::CutRecord,
        "cut record at octet 17",
    );
}

#[test]
fn places_in_received_files(rt: HostRuntime) {
    expect_place(
        &rt,
        FileFormat::Received,
        &[3, 0, 0, 0, 0, 1, 2, 0, 0, 5, 0, 1, 7],
        RecordFault::Write,
        "write failed at octet 21",
    );
    expect_place(
        &rt,
        FileFormat::Received,
        &[3, 0, 0, 0, 0, 1, 2, 0, 0, 5, 0, 1],
        RecordFault::Write,
        "write failed at octet 8",
    );
}

/// In front of the head and inside it there is no record.
#[test]
fn places_in_a_head(rt: HostRuntime) {
    for octets in [b"".as_slice(), b"DMRU\x01\x00\x00"] {
        let reached = Reached::nothing().by(FileFormat::Uplink, octets);
        for fault in [
            RecordFault::Read,
            RecordFault::CutRecord,
            RecordFault::Magic,
        ] {
            let line = reached.fault_line(FileFormat::Uplink, fault);
            assert!(rt; line.octet == 0 && line.place.is_none());
        }
    }
}

/// An ear for an uplink of a head, silence, an idle burst and a block, in pieces of so many octets.
fn heard_in_pieces(format: FileFormat, colour: u8, piece: usize) -> Heard {
    let mut ear = Ear::new(format, colour);
    let parts: [&[u8]; 6] = [b"DMRU\x01\x00\x00\x00", &[0], &[1], &IDLE, &[1], &BLOCK];
    for part in parts {
        for octets in part.chunks(piece.max(1)) {
            ear.hear(octets);
        }
    }
    ear.heard
}

/// Bursts count by themselves, those of other colour codes and those of base stations.
#[test]
fn bursts_that_are_heard(rt: HostRuntime) {
    for piece in [1usize, 2, 7, 33] {
        for (colour, others) in [(1, 0), (0, 2), (15, 2)] {
            let heard = heard_in_pieces(FileFormat::Uplink, colour, piece);
            let wanted = Heard {
                bursts: 2,
                of_other_colours: others,
                of_base_stations: 1,
            };
            assert!(rt; heard == wanted, "{colour}, {piece}");
        }
    }
    let of_a_list = heard_in_pieces(FileFormat::Outgoing, 0, 33);
    assert!(rt; of_a_list == Heard::nothing());
}
