//! The formats by examples from outside, and devices that fail or go an octet at a time.
mod inputs;
mod outputs;

use dmr_record::*;
use dmr_test_devices::{FailsAt, OneByOne, Silence};

const CACH: [u8; 3] = [0x80, 0x0a, 0x20];

/// A record of the outgoing file: a datagram of four octets in slot 1, confirmed and at rate 1.
const SENDING: [u8; 13] = [2, 0, 0, 0, 5, 1, 3, 0, 4, 0x45, 0, 0x20, 0xff];

const BURST: [u8; 33] = *b"abcdefghijklmnopqrstuvwxyz0123456";

/// Heads, with what they are for an uplink, and which of the four formats they tell.
const HEADS: [(
    &[u8],
    Result<(), RecordFault>,
    Result<FileFormat, RecordFault>,
); 11] = [
    (b"DMRU\x01\0\0\0", Ok(()), Ok(FileFormat::Uplink)),
    (b"DMRU\x01\0\0\0\x07", Ok(()), Ok(FileFormat::Uplink)),
    (
        b"",
        Err(RecordFault::CutRecord),
        Err(RecordFault::CutRecord),
    ),
    (
        b"DMRX\x02\0\0",
        Err(RecordFault::CutRecord),
        Err(RecordFault::CutRecord),
    ),
    (
        b"DMRD\x01\0\0\0",
        Err(RecordFault::Magic),
        Ok(FileFormat::Downlink),
    ),
    (
        b"DMRO\x01\0\0\0",
        Err(RecordFault::Magic),
        Ok(FileFormat::Outgoing),
    ),
    (
        b"DMRI\x01\0\0\0",
        Err(RecordFault::Magic),
        Ok(FileFormat::Received),
    ),
    (
        b"DMRX\x02\0\0\0",
        Err(RecordFault::Magic),
        Err(RecordFault::Magic),
    ),
    (
        b"DMRU\x02\0\0\0",
        Err(RecordFault::Version),
        Err(RecordFault::Version),
    ),
    (
        b"DMRU\x01\0\0\x01",
        Err(RecordFault::Version),
        Err(RecordFault::Version),
    ),
    (
        b"DMRI\x02\0\0\0",
        Err(RecordFault::Magic),
        Err(RecordFault::Version),
    ),
];

/// Records of the outgoing file, with the frame, the slot, whether it is confirmed, whether it is at rate 1, and the datagram.
const SENDINGS: [(&[u8], u32, u8, bool, bool, &[u8]); 5] = [
    (&SENDING, 5, 1, true, true, &[0x45, 0, 0x20, 0xff]),
    (&[2, 0, 1, 0, 0, 2, 0, 0, 0], 65_536, 2, false, false, &[]),
    (&[2, 0, 1, 0, 0, 2, 1, 0, 0], 65_536, 2, true, false, &[]),
    (&[2, 0, 1, 0, 0, 2, 2, 0, 0], 65_536, 2, false, true, &[]),
    (&[2, 0, 1, 0, 0, 2, 3, 0, 0], 65_536, 2, true, true, &[]),
];

/// Records of the received file: frame, slot, kind, source and octets, and what is written before the octets.
const RECEIVED: [(u32, u8, ReceivedKind, u32, &[u8], &[u8]); 3] = [
    (
        6,
        1,
        ReceivedKind::Status,
        3,
        &[1, 2, 0, 5],
        b"\x03\0\0\0\x06\x01\x02\0\0\x03\0\x04",
    ),
    (
        0x01020304,
        2,
        ReceivedKind::ShortData,
        0xabcdef,
        b"",
        b"\x03\x01\x02\x03\x04\x02\x01\xab\xcd\xef\0\0",
    ),
    (
        0,
        1,
        ReceivedKind::Datagram,
        1,
        &[0xff; 258],
        b"\x03\0\0\0\0\x01\0\0\0\x01\x01\x02",
    ),
];

/// What is read of a head for an uplink.
fn uplink_head(octets: &[u8]) -> Result<(), RecordFault> {
    read_head(&mut FromRead::new(octets), UPLINK_MAGIC)
}

/// Which of the four formats a head tells.
fn any_head(octets: &[u8]) -> Result<FileFormat, RecordFault> {
    read_any_head(&mut FromRead::new(octets))
}

#[test]
fn heads(rt: HostRuntime) {
    for (octets, of_uplink, of_any) in HEADS {
        let is_right = uplink_head(octets) == of_uplink && any_head(octets) == of_any;
        assert!(rt; is_right, "of {octets:?}");
    }
}

#[test]
fn written_heads(rt: HostRuntime) {
    for (magic, want) in [
        (UPLINK_MAGIC, *b"DMRU\x01\0\0\0"),
        (DOWNLINK_MAGIC, *b"DMRD\x01\0\0\0"),
        (OUTGOING_MAGIC, *b"DMRO\x01\0\0\0"),
        (RECEIVED_MAGIC, *b"DMRI\x01\0\0\0"),
    ] {
        let mut written = [0; 8];
        let mut sink = ToWrite::new(&mut written[..]);
        assert!(rt; write_head(&mut sink, magic).is_ok());
        assert!(rt; written == want);
    }
}

#[test]
fn frames(rt: HostRuntime) {
    let mut source = OneByOne::new(b"\x01abcdefghijklmnopqrstuvwxyz0123456\0\0\0");
    assert!(rt; read_frame(&mut source, 0) == Ok(Some([Some(BURST), None])));
    assert!(rt; read_frame(&mut source, 1) == Ok(Some([None, None])));
    assert!(rt; read_frame(&mut source, 2) == Ok(None));
}

#[test]
fn uplink_slots(rt: HostRuntime) {
    let mut source = FromRead::new(&b"\0\x01abcdefghijklmnopqrstuvwxyz0123456\0"[..]);
    assert!(rt; read_uplink_slot(&mut source, 0) == Ok(NextSlot::Slot(None)));
    assert!(rt; read_uplink_slot(&mut source, 1) == Ok(NextSlot::Slot(Some(BURST))));
    assert!(rt; read_uplink_slot(&mut source, 2) == Ok(NextSlot::Slot(None)));
    assert!(rt; read_uplink_slot(&mut source, 3) == Err(RecordFault::HalfFrame));
}

#[test]
fn endless_silence(rt: HostRuntime) {
    assert!(rt; FRAME_LIMIT == 1_048_576);
    assert!(rt; RECORD_LIMIT == 1_048_576);
    assert!(rt; read_frame(&mut Silence, FRAME_LIMIT - 1) == Ok(Some([None, None])));
    assert!(rt; read_frame(&mut Silence, FRAME_LIMIT) == Err(RecordFault::TooLong));
    assert!(rt; read_uplink_slot(&mut Silence, 2_097_151) == Ok(NextSlot::Slot(None)));
    assert!(rt; read_uplink_slot(&mut Silence, 2_097_152) == Err(RecordFault::TooLong));
}

/// The first record of an outgoing file, where it has one.
fn first_of(octets: &[u8]) -> Option<Outgoing> {
    match read_outgoing(&mut FromRead::new(octets), 0, 0) {
        Ok(read) => read,
        Err(_) => None,
    }
}

/// Whether a record holds this datagram.
fn holds(read: &Outgoing, datagram: &[u8]) -> bool {
    usize::from(read.length) == datagram.len() && read.octets.as_slice() == datagram
}

#[test]
fn outgoing_records(rt: HostRuntime) {
    for (octets, frame, slot, confirmed, full, datagram) in SENDINGS {
        let is_right = match first_of(octets) {
            Some(read) => read.frame == frame
                && read.slot == slot
                && read.confirmed == confirmed
                && read.full == full
                && holds(&read, datagram),
            None => false,
        };
        assert!(rt; is_right, "of {octets:?}");
    }
}

/// Both readers of a record tell one fault.
#[test]
fn faulty_outgoing_records(rt: HostRuntime) {
    let mut buffer = [0u8; OCTET_LIMIT];
    let cases: [(&[u8], RecordFault); 8] = [
        (b"\x03", RecordFault::BadTag),
        (b"\x02\0\0\0\0\x03\x04\0", RecordFault::CutRecord),
        (b"\x02\0\0\0\0\x03\0\0\0", RecordFault::BadTag),
        (b"\x02\0\0\0\0\0\0\0\0", RecordFault::BadTag),
        (b"\x02\0\0\0\0\x01\x04\0\0", RecordFault::BadTag),
        (b"\x02\0\0\0\x04\x03\0\0\0", RecordFault::BadTag),
        (b"\x02\0\0\0\x04\x01\0\0\x09", RecordFault::FrameOrder),
        (b"\x02\0\0\0\x05\x01\0\0\x01", RecordFault::CutRecord),
    ];
    for (octets, want) in cases {
        let answer = read_outgoing(&mut FromRead::new(octets), 0, 5);
        assert!(rt; answer.err() == Some(want), "of {octets:?}");
        let whole = read_whole_outgoing(&mut FromRead::new(octets), 0, 5, &mut buffer);
        assert!(rt; whole == Err(want), "of {octets:?}");
    }
}

// The first 1,400 octets are kept, and the record behind it is read.
#[test]
fn long_datagram(rt: HostRuntime) {
    let mut octets = [0x5a; 1424];
    octets[..9].copy_from_slice(b"\x02\0\0\0\0\x01\0\x05\x79");
    octets[1409] = 7;
    octets[1410] = 3;
    let mut source = FromRead::new(octets.as_slice());
    let is_right = match read_outgoing(&mut source, 0, 0) {
        Ok(Some(read)) => read.length == 1401 && read.octets.as_slice() == [0x5a; 1400].as_slice(),
        _ => false,
    };
    assert!(rt; is_right);
    assert!(rt; read_outgoing(&mut source, 1, 0).err() == Some(RecordFault::BadTag));
}

/// What is read of these octets where the device fails after so many calls: a record, a frame, a head.
fn failing_record(calls: u64) -> Option<RecordFault> {
    let mut source = FailsAt::new(OneByOne::new(&SENDING), calls);
    read_outgoing(&mut source, 0, 0).err()
}

fn failing_frame(calls: u64) -> Option<RecordFault> {
    let octets = b"\0\x01abcdefghijklmnopqrstuvwxyz0123456";
    let mut source = FailsAt::new(OneByOne::new(octets), calls);
    read_frame(&mut source, 0).err()
}

fn failing_head(calls: u64) -> Option<RecordFault> {
    let mut source = FailsAt::new(OneByOne::new(b"DMRX\x02\0\0\0"), calls);
    read_head(&mut source, UPLINK_MAGIC).err()
}

#[test]
fn failing_reads(rt: HostRuntime) {
    for calls in 0..34u64 {
        let is_right = (calls >= 13 || failing_record(calls) == Some(RecordFault::Read))
            && failing_frame(calls) == Some(RecordFault::Read)
            && (calls >= 8 || failing_head(calls) == Some(RecordFault::Read));
        assert!(rt; is_right, "at {calls}");
    }
}

#[test]
fn received_records(rt: HostRuntime) {
    for (frame, slot, kind, source, octets, head) in RECEIVED {
        let mut written = [0xee; 270];
        let mut sink = ToWrite::new(&mut written[..]);
        let wrote = write_received(&mut sink, frame, slot, kind, source, octets);
        let is_right = written.starts_with(head) && written[12..].starts_with(octets);
        assert!(rt; wrote.is_ok() && is_right, "of {head:?}");
    }
}

#[test]
fn short_writes(rt: HostRuntime) {
    let mut room = [0xee; 5];
    let mut sink = ToWrite::new(&mut room[..]);
    assert!(rt; write_slot(&mut sink, None).is_ok());
    assert!(rt; write_slot(&mut sink, Some((CACH, [7; 33]))) == Err(RecordFault::Write));
    assert!(rt; room == [0, 1, 0x80, 0x0a, 0x20]);
}
