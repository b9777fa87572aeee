//! Devices and records, a run from file to file, and what the program prints of it.
ghost use Rattle.std.specs.Prelude.{◌≡◌, false};

use dmr_gateway::{Config, ConfigFault};
use dmr_program::{RunEnd, print_end, print_slot};
use dmr_record::{
    DOWNLINK_MAGIC, DeviceFault, FromRead, ReceivedKind, RecordFault, Sink, Source, ToWrite,
    UPLINK_MAGIC, read_frame, read_head, read_outgoing, write_head, write_received, write_slot,
};
use dmr_repeater::{RunFault, Stream, Summary, run};
use dmr_test_values::{EMPTY_DATAGRAM, ONE_CSBK, REPEATED_CSBK};
use std::alloc::Global;
use std::process::Abort;

/// An uplink of one frame: a control signalling block in slot 1, and silence in slot 2.
const UPLINK: [u8; 43] = [
    0x44, 0x4D, 0x52, 0x55, 0x01, 0x00, 0x00, 0x00, 0x01, 0x00, 0x62, 0x00, 0x82, 0x01, 0x90, 0x01,
    0x00, 0x04, 0x20, 0x04, 0xE0, 0x04, 0xCD, 0x5D, 0x7F, 0x77, 0xFD, 0x75, 0x7A, 0xC8, 0x18, 0x00,
    0x28, 0x02, 0x50, 0x02, 0x80, 0x00, 0xC0, 0x12, 0x00, 0x22, 0x00,
];

/// An outgoing file and a received file of no record.
pub(crate) const OUTGOING: [u8; 8] = *b"DMRO\x01\0\0\0";

const RECEIVED: [u8; 8] = *b"DMRI\x01\0\0\0";

/// The downlink of that uplink: six silent frames, and one with the block in slot 1 and idle in slot 2.
const DOWNLINK: [u8; 94] = [
    0x44, 0x4D, 0x52, 0x44, 0x01, 0x00, 0x00, 0x00, 0x00, 0x00, 0x00, 0x00, 0x00, 0x00, 0x00, 0x00,
    0x00, 0x00, 0x00, 0x00, 0x01, 0x80, 0x0A, 0x20, 0x00, 0x62, 0x00, 0x82, 0x01, 0x90, 0x01, 0x00,
    0x04, 0x20, 0x04, 0xE0, 0x04, 0xCD, 0xFF, 0x57, 0xD7, 0x5D, 0xF5, 0xDA, 0xC8, 0x18, 0x00, 0x28,
    0x02, 0x50, 0x02, 0x80, 0x00, 0xC0, 0x12, 0x00, 0x22, 0x01, 0x08, 0x88, 0x20, 0x53, 0xC2, 0x5E,
    0xAB, 0xA8, 0x67, 0x1D, 0xC7, 0x38, 0x3B, 0xD9, 0x36, 0x06, 0x5D, 0xFF, 0x57, 0xD7, 0x5D, 0xF5,
    0xD9, 0x2B, 0xF6, 0xE4, 0x65, 0x17, 0x1B, 0x48, 0xCA, 0x6D, 0x4F, 0xC6, 0x10, 0xB4,
];

/// What that run counts.
const SUMMARY: Summary = Summary {
    frames: 7,
    repeated: 1,
    received: 0,
    delivered: 0,
    sent: 0,
    given_up: 0,
    refused: 0,
    unoffered: 0,
};

/// What a source answers: `read` with no more than its `requires`.
fn read_of<S: Source>(source: &mut S, buffer: &mut [u8]) -> Result<usize, DeviceFault>
    requires well { S.has_failed source.old ≡ false }
{
    source.read(buffer)
}

/// What a sink answers: `write` with no more than its `requires`.
fn write_of<K: Sink>(sink: &mut K, piece: &[u8]) -> Result<usize, DeviceFault>
    requires well { K.has_failed sink.old ≡ false }
{
    sink.write(piece)
}

#[test]
fn devices(rt: HostRuntime) {
    let mut source = FromRead::new(&b"\x01\x02"[..]);
    let mut buffer = [0xEEu8; 4];
    assert!(rt; read_of(&mut source, &mut buffer) == Ok(2));
    assert!(rt; buffer == [1, 2, 0xEE, 0xEE]);
    let mut room = [0xEE; 2];
    let mut sink = ToWrite::new(&mut room[..]);
    assert!(rt; write_of(&mut sink, &[3, 4, 5]) == Ok(2));
    assert!(rt; room == [3, 4]);
}

#[test]
fn uplink_of_one_frame(rt: HostRuntime) {
    let mut source = FromRead::new(&UPLINK[..]);
    assert!(rt; read_head(&mut source, UPLINK_MAGIC).is_ok());
    assert!(rt; read_frame(&mut source, 0) == Ok(Some([Some(ONE_CSBK), None])));
    assert!(rt; read_frame(&mut source, 1) == Ok(None));
}

/// A record of the outgoing file: a datagram for frame 5 in slot 1, unconfirmed and at rate 1/2.
const SENDING: [u8; 37] = [
    0x02, 0x00, 0x00, 0x00, 0x05, 0x01, 0x00, 0x00, 0x1C, 0x45, 0x00, 0x00, 0x1C, 0x12, 0x34, 0x00,
    0x00, 0x40, 0x11, 0x50, 0x9B, 0x0C, 0x00, 0x00, 0x01, 0x0C, 0x00, 0x00, 0x02, 0x13, 0x98, 0x13,
    0x9A, 0x00, 0x08, 0xC0, 0xA9,
];

#[test]
fn outgoing_record(rt: HostRuntime) {
    let mut source = FromRead::new(&SENDING[..]);
    let is_right = match read_outgoing(&mut source, 0, 0) {
        Ok(Some(read)) => {
            read.frame == 5
                && read.slot == 1
                && !read.confirmed
                && !read.full
                && read.length == 28
                && read.octets.as_slice() == EMPTY_DATAGRAM.as_slice()
        }
        _ => false,
    };
    assert!(rt; is_right);
}

#[test]
fn downlink_slots(rt: HostRuntime) {
    let mut head = [0xEE; 8];
    let mut sink = ToWrite::new(&mut head[..]);
    assert!(rt; write_head(&mut sink, DOWNLINK_MAGIC).is_ok());
    assert!(rt; head == *b"DMRD\x01\0\0\0");
    let mut written = [0xEE; 38];
    let mut sink = ToWrite::new(&mut written[..]);
    assert!(rt; write_slot(&mut sink, Some(([0x80, 0x0A, 0x20], REPEATED_CSBK))).is_ok());
    assert!(rt; write_slot(&mut sink, None).is_ok());
    assert!(rt; written.starts_with(&[1, 0x80, 0x0A, 0x20]));
    assert!(rt; written[4..].starts_with(&REPEATED_CSBK) && written[37] == 0);
}

#[test]
fn received_status(rt: HostRuntime) {
    let mut written = [0xEE; 16];
    let mut sink = ToWrite::new(&mut written[..]);
    let wrote = write_received(&mut sink, 6, 1, ReceivedKind::Status, 3, &[1, 2, 0, 5]);
    assert!(rt; wrote.is_ok());
    assert!(rt; written == *b"\x03\0\0\0\x06\x01\x02\0\0\x03\0\x04\x01\x02\0\x05");
}

// In frame 88 of slot 2, from 2, an octet of either kind.
#[test]
fn received_octets(rt: HostRuntime) {
    let mut written = [0xEE; 26];
    let mut sink = ToWrite::new(&mut written[..]);
    let datagram = write_received(&mut sink, 88, 2, ReceivedKind::Datagram, 2, &[0x45]);
    assert!(rt; datagram.is_ok());
    let short = write_received(&mut sink, 88, 2, ReceivedKind::ShortData, 2, &[0x41]);
    assert!(rt; short.is_ok());
    let records = b"\x03\0\0\0\x58\x02\0\0\0\x02\0\x01\x45\x03\0\0\0\x58\x02\x01\0\0\x02\0\x01\x41";
    assert!(rt; written == *records);
}

/// What a run answers: `run` with no more than its `requires`.
pub(crate) fn answer_of<U: Source, O: Source, D: Sink, R: Sink>(
    alloc: Global,
    config: Config,
    uplink: &mut U,
    outgoing: &mut O,
    downlink: &mut D,
    received: &mut R,
) -> Result<Summary, RunFault>
    requires uplink { U.has_failed uplink.old ≡ false }
    requires outgoing { O.has_failed outgoing.old ≡ false }
    requires downlink { D.has_failed downlink.old ≡ false }
    requires received { R.has_failed received.old ≡ false }
{
    run(alloc, config, uplink, outgoing, downlink, received)
}

/// A sink holds these octets.
fn holds(rt: &impl Abort, sink: ToWrite<Vec<u8>>, octets: &[u8]) {
    let written = sink.into_inner();
    assert!(rt; written.as_slice() == octets);
}

#[test]
fn one_csbk(rt: HostRuntime) {
    let config = Config::new(1, 1, 3, 5, 9).expect(&rt, "the settings are in range");
    let mut uplink = FromRead::new(&UPLINK[..]);
    let mut outgoing = FromRead::new(&OUTGOING[..]);
    let mut downlink = ToWrite::new(Vec::new(rt.alloc()));
    let mut received = ToWrite::new(Vec::new(rt.alloc()));
    let answer = answer_of(
        rt.alloc(),
        config,
        &mut uplink,
        &mut outgoing,
        &mut downlink,
        &mut received,
    );
    assert!(rt; answer == Ok(SUMMARY));
    holds(&rt, downlink, &DOWNLINK);
    holds(&rt, received, &RECEIVED);
}

/// The end of a run has this status, and is printed so to either sink.
pub(crate) fn expect_end(
    rt: &impl Abort,
    alloc: Global,
    end: &RunEnd,
    status: u8,
    out: &[u8],
    err: &[u8],
) {
    let mut output = ToWrite::new(Vec::new(alloc));
    let mut errors = ToWrite::new(Vec::new(alloc));
    assert!(rt; print_end(end, &mut output, &mut errors) == status);
    holds(rt, output, out);
    holds(rt, errors, err);
}

#[test]
fn end_of_a_run(rt: HostRuntime) {
    let line =
        b"frames 7 repeated 1 received 0 delivered 0 sent 0 given-up 0 refused 0 unoffered 0\n";
    expect_end(&rt, rt.alloc(), &RunEnd::Done(SUMMARY), 0, line, b"");
}

/// An end that is no success has this status and this line, and nothing is printed as output.
fn expect_error(rt: &impl Abort, alloc: Global, end: &RunEnd, status: u8, line: &[u8]) {
    expect_end(rt, alloc, end, status, b"", line);
}

/// Faults of a run, and what is printed of them.
const FAULTS: [(RunFault, &[u8]); 4] = [
    (RunFault::Memory, b"error: out of memory\n"),
    (
        RunFault::File(Stream::Outgoing, RecordFault::FrameOrder),
        b"error: outgoing: frame order\n",
    ),
    (
        RunFault::File(Stream::Downlink, RecordFault::Write),
        b"error: downlink: write failed\n",
    ),
    (
        RunFault::File(Stream::Received, RecordFault::Write),
        b"error: received: write failed\n",
    ),
];

#[test]
fn faults_of_a_run(rt: HostRuntime) {
    for (fault, line) in FAULTS {
        expect_error(&rt, rt.alloc(), &RunEnd::Fault(fault), 1, line);
    }
}

// What ends a run before it begins: a file that can't be opened, and settings.
#[test]
fn runs_that_do_not_begin(rt: HostRuntime) {
    let alloc = rt.alloc();
    let missing = RunEnd::CannotOpen(Stream::Outgoing);
    expect_error(&rt, alloc, &missing, 1, b"error: outgoing: cannot open\n");
    let hang = RunEnd::Setting(ConfigFault::Hang);
    let line = b"error: call hang is longer than channel hang\n";
    expect_error(&rt, alloc, &hang, 2, line);
    let colour = RunEnd::Setting(ConfigFault::Colour);
    expect_error(&rt, alloc, &colour, 2, b"error: bad setting\n");
}

#[test]
fn idle_burst(rt: HostRuntime) {
    let mut output = ToWrite::new(Vec::new(rt.alloc()));
    let mut errors = ToWrite::new(Vec::new(rt.alloc()));
    let digits = "53C25EABA8671DC7383BD936065DFF57D75DF5D92BF6E465171B48CA6D4FC610B4";
    assert!(rt; print_slot(digits, &mut output, &mut errors) == 0);
    let line = b"data BS, colour 1, type 9, information FF83DF1732094ED1E7CD8A91\n";
    holds(&rt, output, line);
    holds(&rt, errors, b"");
}
