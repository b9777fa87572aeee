//! The two files that a run reads, written and read again: records by examples from outside, and devices that fail.
ghost use Rattle.std.specs.Prelude.{◌≡◌, false, true};

use super::SENDINGS;
use dmr_record::*;
use dmr_test_devices::{FailsAt, OneByOne};
use std::io::BufReader;

/// A control signalling block as a radio sends it.
const BLOCK: [u8; 33] = [
    0x00, 0x62, 0x00, 0x82, 0x01, 0x90, 0x01, 0x00, 0x04, 0x20, 0x04, 0xe0, 0x04, 0xcd, 0x5d, 0x7f,
    0x77, 0xfd, 0x75, 0x7a, 0xc8, 0x18, 0x00, 0x28, 0x02, 0x50, 0x02, 0x80, 0x00, 0xc0, 0x12, 0x00,
    0x22,
];

/// The uplink of one frame: that block in slot 1, and silence in slot 2.
const ONE_FRAME: [u8; 43] = [
    0x44, 0x4d, 0x52, 0x55, 0x01, 0x00, 0x00, 0x00, 0x01, 0x00, 0x62, 0x00, 0x82, 0x01, 0x90, 0x01,
    0x00, 0x04, 0x20, 0x04, 0xe0, 0x04, 0xcd, 0x5d, 0x7f, 0x77, 0xfd, 0x75, 0x7a, 0xc8, 0x18, 0x00,
    0x28, 0x02, 0x50, 0x02, 0x80, 0x00, 0xc0, 0x12, 0x00, 0x22, 0x00,
];

/// A datagram from 12.0.0.1 to 12.0.0.2, of 28 octets.
const DATAGRAM: [u8; 28] = [
    0x45, 0x00, 0x00, 0x1c, 0x12, 0x34, 0x00, 0x00, 0x40, 0x11, 0x50, 0x9b, 0x0c, 0x00, 0x00, 0x01,
    0x0c, 0x00, 0x00, 0x02, 0x13, 0x98, 0x13, 0x9a, 0x00, 0x08, 0xc0, 0xa9,
];

/// An outgoing file: that datagram in frame 5 of slot 1, unconfirmed and at rate 1/2.
const ONE_DATAGRAM: [u8; 45] = [
    0x44, 0x4d, 0x52, 0x4f, 0x01, 0x00, 0x00, 0x00, 0x02, 0x00, 0x00, 0x00, 0x05, 0x01, 0x00, 0x00,
    0x1c, 0x45, 0x00, 0x00, 0x1c, 0x12, 0x34, 0x00, 0x00, 0x40, 0x11, 0x50, 0x9b, 0x0c, 0x00, 0x00,
    0x01, 0x0c, 0x00, 0x00, 0x02, 0x13, 0x98, 0x13, 0x9a, 0x00, 0x08, 0xc0, 0xa9,
];

/// Its record without its octets.
const RECORD: OutgoingRecord = OutgoingRecord {
    frame: 5,
    slot: 1,
    confirmed: false,
    full: false,
    length: 28,
};

/// Writes the file of one frame, as far as the sink takes it.
fn write_one_frame<K: Sink>(sink: &mut K) -> Result<(), RecordFault>
    requires well { K.has_failed sink.old ≡ false }
{
    write_head(sink, UPLINK_MAGIC)?;
    write_uplink_slot(sink, Some(BLOCK))?;
    write_uplink_slot(sink, None)
}

/// Writes the file of one datagram, as far as the sink takes it.
fn write_one_datagram<K: Sink>(sink: &mut K) -> Result<(), RecordFault>
    requires well { K.has_failed sink.old ≡ false }
{
    write_head(sink, OUTGOING_MAGIC)?;
    write_outgoing(sink, 5, 1, false, false, &DATAGRAM)
}

#[test]
fn written_uplink(rt: HostRuntime) {
    let mut written = [0xee; 43];
    let mut sink = ToWrite::new(&mut written[..]);
    assert!(rt; write_one_frame(&mut sink) == Ok(()));
    assert!(rt; written == ONE_FRAME);
}

#[test]
fn written_outgoing(rt: HostRuntime) {
    let mut written = [0xee; 45];
    let mut sink = ToWrite::new(&mut written[..]);
    assert!(rt; write_one_datagram(&mut sink) == Ok(()));
    assert!(rt; written == ONE_DATAGRAM);
}

/// Each mode and both slots, written.
#[test]
fn written_records(rt: HostRuntime) {
    for (octets, frame, slot, confirmed, full, datagram) in SENDINGS {
        let mut written = [0xee; 13];
        let mut sink = ToWrite::new(&mut written[..]);
        let wrote = write_outgoing(&mut sink, frame, slot, confirmed, full, datagram);
        assert!(rt;
            wrote == Ok(()) && written.starts_with(octets),
            "of {octets:?}"
        );
    }
}

/// Each mode and both slots, read whole.
#[test]
fn read_records(rt: HostRuntime) {
    let mut buffer = [0u8; OCTET_LIMIT];
    for (octets, frame, slot, confirmed, full, datagram) in SENDINGS {
        let want = OutgoingRecord {
            frame,
            slot,
            confirmed,
            full,
            length: datagram.len() as u16,
        };
        let read = read_whole_outgoing(&mut FromRead::new(octets), 0, frame, &mut buffer);
        assert!(rt;
            read == Ok(Some(want)) && buffer.starts_with(datagram),
            "of {octets:?}"
        );
    }
}

#[test]
fn whole_records(rt: HostRuntime) {
    let mut buffer = [0u8; OCTET_LIMIT];
    let mut source = OneByOne::new(ONE_DATAGRAM.get(8..).unwrap_or(&[]));
    let read = read_whole_outgoing(&mut source, 0, 0, &mut buffer);
    assert!(rt; read == Ok(Some(RECORD)) && buffer.starts_with(&DATAGRAM));
    assert!(rt; read_whole_outgoing(&mut source, 1, 5, &mut buffer) == Ok(None));
}

/// Whether these octets are read whole as the longest record: a datagram in frame 7 of slot 2, confirmed and at rate 1/2.
fn is_longest(octets: &[u8]) -> bool {
    let mut buffer = [0u8; OCTET_LIMIT];
    let want = OutgoingRecord {
        frame: 7,
        slot: 2,
        confirmed: true,
        full: false,
        length: 65_535,
    };
    let read = read_whole_outgoing(&mut FromRead::new(octets), 0, 0, &mut buffer);
    read == Ok(Some(want)) && buffer == [0xa5; OCTET_LIMIT]
}

/// The longest record that is written is read whole.
#[test]
fn longest_record(rt: HostRuntime) {
    let mut sink = ToWrite::new(Vec::new(rt.alloc()));
    let wrote = write_outgoing(&mut sink, 7, 2, true, false, &[0xa5; OCTET_LIMIT]);
    let written = sink.into_inner();
    assert!(rt; wrote.is_ok() && is_longest(written.as_slice()));
}

/// At the limit of the file any octet more is too long, whether it is a tag or not.
#[test]
fn limits_of_outgoing_lists(rt: HostRuntime) {
    let mut buffer = [0u8; OCTET_LIMIT];
    for octet in 0..=255u8 {
        let past = [octet; 64];
        let mut source = FromRead::new(past.as_slice());
        let record = read_whole_outgoing(&mut source, RECORD_LIMIT, 0, &mut buffer);
        assert!(rt; record == Err(RecordFault::TooLong), "{octet}");
    }
    let mut end = FromRead::new(&b""[..]);
    assert!(rt; read_whole_outgoing(&mut end, RECORD_LIMIT, 0, &mut buffer) == Ok(None));
}

/// Where the device fails in any call, that is told.
#[test]
fn failing_reads_of_a_record(rt: HostRuntime) {
    let mut buffer = [0u8; OCTET_LIMIT];
    for calls in 0..37u64 {
        let record = ONE_DATAGRAM.get(8..).unwrap_or(&[]);
        let mut source = FailsAt::new(OneByOne::new(record), calls);
        let read = read_whole_outgoing(&mut source, 0, 0, &mut buffer);
        assert!(rt; read == Err(RecordFault::Read), "at {calls}");
    }
}

/// What comes of writing the file of one datagram where the device fails after so many calls.
fn failing_datagram(calls: u64) -> Result<(), RecordFault> {
    let mut written = [0xee; 45];
    write_one_datagram(&mut FailsAt::new(ToWrite::new(&mut written[..]), calls))
}

/// The same of the file of one frame.
fn failing_frame(calls: u64) -> Result<(), RecordFault> {
    let mut written = [0xee; 45];
    write_one_frame(&mut FailsAt::new(ToWrite::new(&mut written[..]), calls))
}

#[test]
fn failing_writes(rt: HostRuntime) {
    for calls in 0..4u64 {
        let is_right = failing_datagram(calls) == Err(RecordFault::Write)
            && failing_frame(calls) == Err(RecordFault::Write);
        assert!(rt; is_right, "at {calls}");
    }
}

#[test]
fn full_sink_of_an_uplink(rt: HostRuntime) {
    let mut room = [0xee; 42];
    assert!(rt; write_one_frame(&mut ToWrite::new(&mut room[..])) == Err(RecordFault::Write));
    assert!(rt; ONE_FRAME.starts_with(&room));
}

#[test]
fn full_sink_of_an_outgoing_list(rt: HostRuntime) {
    let mut room = [0xee; 44];
    assert!(rt; write_one_datagram(&mut ToWrite::new(&mut room[..])) == Err(RecordFault::Write));
    assert!(rt; ONE_DATAGRAM.starts_with(&room));
}

/// What comes of copying silence to a sink with this room.
fn copied_to<S: Source>(source: &mut S, room: &mut [u8]) -> Copied
    requires well { S.has_failed source.old ≡ false }
    ensures well { S.has_failed source.new ≡ false }
{
    source.copy_silence(&mut ToWrite::new(room))
}

/// Nothing was copied.
const NONE: Copied = Copied {
    frames: 0,
    result: Ok(()),
};

/// A run of silent frames was copied.
const WHOLE: Copied = Copied {
    frames: 32,
    result: Ok(()),
};

/// The sink failed in the last frame of a run.
const TORN: Copied = Copied {
    frames: 31,
    result: Err(DeviceFault),
};

/// The octets of a run of silent frames.
const SILENCE: [u8; 64] = [0; 64];

#[test]
fn silence_out_of_reach(rt: HostRuntime) {
    let mut room = [0xee; 64];
    assert!(rt; copied_to(&mut FromRead::new(&[0; 135][..]), &mut room) == NONE);
}

/// Whether nothing is at hand before the first octet is read, and a run is copied behind it.
fn copies_a_run<S: Source>(source: &mut S) -> bool
    requires well { S.has_failed source.old ≡ false }
    ensures well { result ≡ true → S.has_failed source.new ≡ false }
{
    let mut room = [0xee; 64];
    copied_to(source, &mut room) == NONE
        && source.next() == Ok(Some(0))
        && copied_to(source, &mut room) == WHOLE
        && room == SILENCE
}

/// Whether a run is torn where there is room for 31 frames and half of one. Eight octets are left then, and no run.
fn tears_a_run<S: Source>(source: &mut S) -> bool
    requires well { S.has_failed source.old ≡ false }
{
    let mut less = [0xee; 63];
    let mut room = [0xee; 64];
    copied_to(source, &mut less) == TORN && copied_to(source, &mut room) == NONE
}

/// A run of silent frames is copied where all of it is at hand, as far as the sink takes it.
#[test]
fn silence_at_hand(rt: HostRuntime) {
    let silence = [0u8; 135];
    if let Ok(reader) = BufReader::with_capacity(rt.alloc(), 200, &silence[..]) {
        let mut source = FromBuffered::new(reader);
        assert!(rt; copies_a_run(&mut source) && tears_a_run(&mut source));
    } else {
        assert!(rt; false, "there is room");
    }
}
