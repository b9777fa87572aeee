//! The two files that a run writes, read again: records in and out of their order, and past their limits.
use dmr_record::*;
use dmr_test_devices::{FailsAt, OneByOne, Silence};

/// The CACH of a repeated burst in slot 1, and the control signalling block that it stands before.
const BLOCK: ([u8; 3], [u8; 33]) = (
    [0x80, 0x0a, 0x20],
    [
        0x00, 0x62, 0x00, 0x82, 0x01, 0x90, 0x01, 0x00, 0x04, 0x20, 0x04, 0xe0, 0x04, 0xcd, 0xff,
        0x57, 0xd7, 0x5d, 0xf5, 0xda, 0xc8, 0x18, 0x00, 0x28, 0x02, 0x50, 0x02, 0x80, 0x00, 0xc0,
        0x12, 0x00, 0x22,
    ],
);

/// The downlink of one frame: that block in slot 1, and silence in slot 2.
const ONE_FRAME: [u8; 46] = [
    0x44, 0x4d, 0x52, 0x44, 0x01, 0x00, 0x00, 0x00, 0x01, 0x80, 0x0a, 0x20, 0x00, 0x62, 0x00, 0x82,
    0x01, 0x90, 0x01, 0x00, 0x04, 0x20, 0x04, 0xe0, 0x04, 0xcd, 0xff, 0x57, 0xd7, 0x5d, 0xf5, 0xda,
    0xc8, 0x18, 0x00, 0x28, 0x02, 0x50, 0x02, 0x80, 0x00, 0xc0, 0x12, 0x00, 0x22, 0x00,
];

/// A status from 3 in frame 6 of slot 1: port 1 to port 2, status 5.
const ONE_STATUS: [u8; 24] = [
    0x44, 0x4d, 0x52, 0x49, 0x01, 0x00, 0x00, 0x00, 0x03, 0x00, 0x00, 0x00, 0x06, 0x01, 0x02, 0x00,
    0x00, 0x03, 0x00, 0x04, 0x01, 0x02, 0x00, 0x05,
];

/// That record without its octets.
const STATUS: Received = Received {
    frame: 6,
    slot: 1,
    kind: ReceivedKind::Status,
    source: 3,
    length: 4,
};

#[test]
fn downlink_slots(rt: HostRuntime) {
    let mut source = OneByOne::new(ONE_FRAME.get(8..).unwrap_or(&[]));
    assert!(rt; read_slot(&mut source, 0) == Ok(NextSlot::Slot(Some(BLOCK))));
    assert!(rt; read_slot(&mut source, 1) == Ok(NextSlot::Slot(None)));
    assert!(rt; read_slot(&mut source, 2) == Ok(NextSlot::End));
}

#[test]
fn received_status(rt: HostRuntime) {
    let mut buffer = [0u8; OCTET_LIMIT];
    let mut source = FromRead::new(ONE_STATUS.get(8..).unwrap_or(&[]));
    let read = read_received(&mut source, 0, None, &mut buffer);
    assert!(rt; read == Ok(Some(STATUS)));
    assert!(rt; buffer.starts_with(&[1, 2, 0, 5]));
    assert!(rt; read_received(&mut source, 1, Some(STATUS), &mut buffer) == Ok(None));
}

/// Each kind is told by its octet, and what follows a status of slot 1 in frame 6.
#[test]
fn records_behind_another(rt: HostRuntime) {
    let cases: [(u8, u8, u8, Result<ReceivedKind, RecordFault>); 10] = [
        (6, 1, 0, Ok(ReceivedKind::Datagram)),
        (6, 1, 1, Ok(ReceivedKind::ShortData)),
        (6, 1, 2, Err(RecordFault::FrameOrder)),
        (6, 2, 2, Ok(ReceivedKind::Status)),
        (7, 1, 2, Ok(ReceivedKind::Status)),
        (5, 2, 0, Err(RecordFault::FrameOrder)),
        (7, 0, 0, Err(RecordFault::BadTag)),
        (7, 3, 0, Err(RecordFault::BadTag)),
        (7, 1, 3, Err(RecordFault::BadTag)),
        (5, 1, 3, Err(RecordFault::BadTag)),
    ];
    let mut buffer = [0u8; OCTET_LIMIT];
    for (frame, slot, number, wanted) in cases {
        let octets = [3, 0, 0, 0, frame, slot, number, 0, 0, 9, 0, 0];
        let mut source = FromRead::new(&octets[..]);
        let found = read_received(&mut source, 1, Some(STATUS), &mut buffer);
        let is_right = match found {
            Ok(Some(read)) => wanted == Ok(read.kind),
            Ok(None) => false,
            Err(fault) => wanted == Err(fault),
        };
        assert!(rt; is_right, "{octets:?}");
    }
}

/// A packet ends its slot, and a frame ends with slot 2. The order is tested once the fields are there, and before the octets.
#[test]
fn records_out_of_order(rt: HostRuntime) {
    let packet = Received {
        slot: 2,
        kind: ReceivedKind::Datagram,
        ..STATUS
    };
    let cases: [(&[u8], Result<bool, RecordFault>); 6] = [
        (
            b"\x03\0\0\0\x06\x02\x01\0\0\x09\0\0",
            Err(RecordFault::FrameOrder),
        ),
        (
            b"\x03\0\0\0\x06\x02\x02\0\0\x09\0\0",
            Err(RecordFault::FrameOrder),
        ),
        (
            b"\x03\0\0\0\x06\x01\x02\0\0\x09\0\0",
            Err(RecordFault::FrameOrder),
        ),
        (
            b"\x03\0\0\0\x06\x01\x02\0\0\x09\0\x09",
            Err(RecordFault::FrameOrder),
        ),
        (
            b"\x03\0\0\0\x06\x01\x02\0\0\x09\0",
            Err(RecordFault::CutRecord),
        ),
        (b"\x03\0\0\0\x07\x01\x02\0\0\x09\0\0", Ok(true)),
    ];
    let mut buffer = [0u8; OCTET_LIMIT];
    for (octets, wanted) in cases {
        let found = read_received(&mut FromRead::new(octets), 1, Some(packet), &mut buffer);
        let answer = match found {
            Ok(read) => Ok(read.is_some()),
            Err(fault) => Err(fault),
        };
        assert!(rt; answer == wanted, "{octets:?}");
    }
}

/// Whether these octets are read as the longest record: short data from 9 in frame 7 of slot 2.
fn is_longest(octets: &[u8]) -> bool {
    let mut buffer = [0u8; OCTET_LIMIT];
    let want = Received {
        frame: 7,
        slot: 2,
        kind: ReceivedKind::ShortData,
        source: 9,
        length: 65_535,
    };
    let read = read_received(&mut FromRead::new(octets), 0, None, &mut buffer);
    read == Ok(Some(want)) && buffer == [0xa5; OCTET_LIMIT]
}

/// The longest record that is written is read again.
#[test]
fn longest_record(rt: HostRuntime) {
    let mut sink = ToWrite::new(Vec::new(rt.alloc()));
    let longest = [0xa5; OCTET_LIMIT];
    let wrote = write_received(&mut sink, 7, 2, ReceivedKind::ShortData, 9, &longest);
    let written = sink.into_inner();
    assert!(rt; wrote.is_ok() && is_longest(written.as_slice()));
}

/// Where a file is at its limit, any octet more is too long, whether it is a tag or not.
#[test]
fn limits_of_downlinks(rt: HostRuntime) {
    assert!(rt; SLOT_LIMIT == 2_097_164);
    for octet in 0..=255u8 {
        let past = [octet; 64];
        let slot = read_slot(&mut FromRead::new(past.as_slice()), SLOT_LIMIT);
        assert!(rt; slot == Err(RecordFault::TooLong), "{octet}");
    }
    assert!(rt; read_slot(&mut Silence, SLOT_LIMIT - 1) == Ok(NextSlot::Slot(None)));
    assert!(rt; read_slot(&mut FromRead::new(&b""[..]), SLOT_LIMIT) == Ok(NextSlot::End));
}

#[test]
fn limits_of_received_lists(rt: HostRuntime) {
    assert!(rt; RECEIVED_LIMIT == 4_194_328);
    let mut buffer = [0u8; OCTET_LIMIT];
    for octet in 0..=255u8 {
        let past = [octet; 64];
        let mut source = FromRead::new(past.as_slice());
        let record = read_received(&mut source, RECEIVED_LIMIT, None, &mut buffer);
        assert!(rt; record == Err(RecordFault::TooLong), "{octet}");
    }
    let mut end = FromRead::new(&b""[..]);
    assert!(rt; read_received(&mut end, RECEIVED_LIMIT, None, &mut buffer) == Ok(None));
}

/// What is read of a slot and of a record where the device fails after so many calls.
fn failing_slot(calls: u64) -> Option<RecordFault> {
    let slot = ONE_FRAME.get(8..45).unwrap_or(&[]);
    let mut source = FailsAt::new(OneByOne::new(slot), calls);
    read_slot(&mut source, 0).err()
}

fn failing_record(calls: u64, buffer: &mut [u8; OCTET_LIMIT]) -> Option<RecordFault> {
    let record = ONE_STATUS.get(8..).unwrap_or(&[]);
    let mut source = FailsAt::new(OneByOne::new(record), calls);
    read_received(&mut source, 0, None, buffer).err()
}

#[test]
fn failing_reads_of_outputs(rt: HostRuntime) {
    let mut buffer = [0u8; OCTET_LIMIT];
    for calls in 0..37u64 {
        let is_right = failing_slot(calls) == Some(RecordFault::Read)
            && (calls >= 16 || failing_record(calls, &mut buffer) == Some(RecordFault::Read));
        assert!(rt; is_right, "at {calls}");
    }
}
