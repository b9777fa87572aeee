//! What is printed, to which sink, and the status.
use crate::tests::{are_same, has_taken};
use arrayvec::ArrayString;
use dmr_files::Printer;
use dmr_gateway::ConfigFault;
use dmr_lines::{print_error, print_line, print_text};
use dmr_options::print_unwritten;
use dmr_program::{RunEnd, print_end, print_end_beside, print_slot};
use dmr_record::{RecordFault, ToWrite};
use dmr_repeater::{RunFault, Stream, Summary};
use std::fmt::Write;
use std::io::{self, ErrorKind};
use std::process::Abort;

/// The longest summary there is, in which each number has its own value.
const LONGEST: Summary = Summary {
    frames: 4294967295,
    repeated: 4294967294,
    received: 4294967293,
    delivered: 4294967292,
    sent: 4294967291,
    given_up: 4294967290,
    refused: 4294967289,
    unoffered: 4294967288,
};

/// Its line.
const LONGEST_LINE: &str =
    "frames 4294967295 repeated 4294967294 received 4294967293 delivered 4294967292 sent 4294967291 \
            given-up 4294967290 refused 4294967289 unoffered 4294967288\n";

/// The four files, by their names.
const STREAMS: [(Stream, &str); 4] = [
    (Stream::Uplink, "uplink"),
    (Stream::Outgoing, "outgoing"),
    (Stream::Downlink, "downlink"),
    (Stream::Received, "received"),
];

/// The faults of a file, by their texts.
const FAULTS: [(RecordFault, &str); 9] = [
    (RecordFault::Magic, "bad magic"),
    (RecordFault::Version, "bad version"),
    (RecordFault::CutRecord, "cut record"),
    (RecordFault::BadTag, "bad tag"),
    (RecordFault::HalfFrame, "half frame"),
    (RecordFault::FrameOrder, "frame order"),
    (RecordFault::TooLong, "too long"),
    (RecordFault::Read, "read failed"),
    (RecordFault::Write, "write failed"),
];

/// A writer that fails with an error of this kind, or takes nothing where there is none.
#[derive(Drop)]
struct Unwritable(Option<ErrorKind>);

impl io::Write for Unwritable {
    fn write(&mut self, _piece: &[u8]) -> io::Result<usize> {
        match self.0 {
            Some(kind) => Err(io::Error::from(kind)),
            None => Ok(0),
        }
    }

    fn flush(&mut self) -> io::Result<()> {
        Ok(())
    }
}

/// A run end prints this beside standard output, and ends with this status.
fn expect_end_beside(rt: &(impl Abort + AllocGlobal), end: &RunEnd, status: u8, text: &str) {
    let mut beside = ToWrite::new(Vec::new(rt.alloc()));
    are_same(rt, text, &print_end_beside(end, &mut beside), &status);
    has_taken(rt, beside, text);
}

/// A run end prints this, and ends with this status. Beside standard output all of it goes to one place.
fn expect_end(rt: &(impl Abort + AllocGlobal), end: RunEnd, status: u8, out: &str, err: &str) {
    let alloc = rt.alloc();
    let mut output = ToWrite::new(Vec::new(alloc));
    let mut errors = ToWrite::new(Vec::new(alloc));
    let ended = print_end(&end, &mut output, &mut errors);
    are_same(rt, "status", &ended, &status);
    has_taken(rt, output, out);
    has_taken(rt, errors, err);
    expect_end_beside(rt, &end, status, if out.is_empty() { err } else { out });
}

/// A text given to `slot` prints this, and ends with this status.
fn expect_slot(rt: &(impl Abort + AllocGlobal), text: &str, status: u8, out: &str, err: &str) {
    let alloc = rt.alloc();
    let mut output = ToWrite::new(Vec::new(alloc));
    let mut errors = ToWrite::new(Vec::new(alloc));
    let ended = print_slot(text, &mut output, &mut errors);
    are_same(rt, text, &ended, &status);
    has_taken(rt, output, out);
    has_taken(rt, errors, err);
}

/// The line that tells a fault of a file.
fn line_of(file: &str, fault: &str) -> ArrayString<64> {
    let mut line = ArrayString::new();
    // There is room for each of them.
    let _ = write!(line, "error: {file}: {fault}\n");
    line
}

/// There is room for the longest line.
#[test]
fn longest_summary(rt: HostRuntime) {
    expect_end(&rt, RunEnd::Done(LONGEST), 0, LONGEST_LINE, "");
}

/// A run end that is no success is told so, and ends with this status.
fn expect_failure(rt: &(impl Abort + AllocGlobal), end: RunEnd, status: u8, line: &str) {
    expect_end(rt, end, status, "", line);
}

#[test]
fn files_that_cannot_be_opened(rt: HostRuntime) {
    let uplink = RunEnd::CannotOpen(Stream::Uplink);
    expect_failure(&rt, uplink, 1, "error: uplink: cannot open\n");
    let outgoing = RunEnd::CannotOpen(Stream::Outgoing);
    expect_failure(&rt, outgoing, 1, "error: outgoing: cannot open\n");
    let downlink = RunEnd::CannotOpen(Stream::Downlink);
    expect_failure(&rt, downlink, 1, "error: downlink: cannot open\n");
    let received = RunEnd::CannotOpen(Stream::Received);
    expect_failure(&rt, received, 1, "error: received: cannot open\n");
}

#[test]
fn files_that_are_terminals(rt: HostRuntime) {
    let downlink = RunEnd::Terminal(Stream::Downlink);
    let line = "error: downlink: standard output is a terminal\n";
    expect_failure(&rt, downlink, 1, line);
    let received = RunEnd::Terminal(Stream::Received);
    let line = "error: received: standard output is a terminal\n";
    expect_failure(&rt, received, 1, line);
}

#[test]
fn memory_that_is_exhausted(rt: HostRuntime) {
    let memory = RunEnd::Fault(RunFault::Memory);
    expect_failure(&rt, memory, 1, "error: out of memory\n");
}

#[test]
fn settings_that_are_refused(rt: HostRuntime) {
    let hang = RunEnd::Setting(ConfigFault::Hang);
    let line = "error: call hang is longer than channel hang\n";
    expect_failure(&rt, hang, 2, line);
    let colour = RunEnd::Setting(ConfigFault::Colour);
    expect_failure(&rt, colour, 2, "error: bad setting\n");
    let address = RunEnd::Setting(ConfigFault::Llid);
    expect_failure(&rt, address, 2, "error: bad setting\n");
    let queue = RunEnd::Setting(ConfigFault::Queue);
    expect_failure(&rt, queue, 2, "error: bad setting\n");
}

/// Each fault of each file, by the words of both.
#[test]
fn faults_of_files(rt: HostRuntime) {
    for (stream, name) in STREAMS {
        for (fault, text) in FAULTS {
            let line = line_of(name, text);
            let end = RunEnd::Fault(RunFault::File(stream, fault));
            expect_end(&rt, end, 1, "", line.as_str());
        }
    }
}

/// A text given to `slot` is told as this line.
fn expect_burst(rt: &(impl Abort + AllocGlobal), text: &str, line: &str) {
    expect_slot(rt, text, 0, line, "");
}

#[test]
fn idle_bursts(rt: HostRuntime) {
    // The idle burst of a base station of colour code 1.
    expect_burst(
        &rt,
        "53C25EABA8671DC7383BD936065DFF57D75DF5D92BF6E465171B48CA6D4FC610B4",
        "data BS, colour 1, type 9, information FF83DF1732094ED1E7CD8A91\n",
    );
    // In lower case.
    expect_burst(
        &rt,
        "53c25eaba8671dc7383bd936065dff57d75df5d92bf6e465171b48ca6d4fc610b4",
        "data BS, colour 1, type 9, information FF83DF1732094ED1E7CD8A91\n",
    );
    // With four wrong bits of its information, in two columns and three rows.
    expect_burst(
        &rt,
        "53C25EABA8671DC7383BD936065DFF57D75DF5D92BF66465171B48C26D6FC650B4",
        "data BS, colour 1, type 9, information unreadable\n",
    );
    // With four wrong bits of its slot type.
    expect_burst(
        &rt,
        "53C25EABA8671DC7383BD9363A5DFF57D75DF5D92BF6E465171B48CA6D4FC610B4",
        "data BS, slot type unreadable\n",
    );
}

#[test]
fn data_bursts_of_each_rate(rt: HostRuntime) {
    // A control signalling block of a mobile station.
    expect_burst(
        &rt,
        "0062008201900100042004E004CD5D7F77FD757AC81800280250028000C0120022",
        "data MS, colour 1, type 3, information 000000000000000000005A5A\n",
    );
    // Rate 3/4 and rate 1, all of their information zero.
    expect_burst(
        &rt,
        "000000000000000000000000063D5D7F77FD757A84000000000000000000000000",
        "data MS, colour 1, type 8, information as received\n",
    );
    expect_burst(
        &rt,
        "000000000000000000000000069D5D7F77FD757E7C000000000000000000000000",
        "data MS, colour 1, type 10, information as received\n",
    );
}

#[test]
fn numbers_of_data_bursts(rt: HostRuntime) {
    // Each number of a data burst is printed as the slot type has it, and the side as the sync has it.
    expect_burst(
        &rt,
        "53C25EABA8671DC7383BD936326DFF57D75DF5DDBBF6E465171B48CA6D4FC610B4",
        "data BS, colour 12, type 9, information FF83DF1732094ED1E7CD8A91\n",
    );
    expect_burst(
        &rt,
        "53C25EABA8671DC7383BD9361D0D5D7F77FD757A93F6E465171B48CA6D4FC610B4",
        "data MS, colour 7, type 4, information FF83DF1732094ED1E7CD8A91\n",
    );
    expect_burst(
        &rt,
        "0000000000000000000000003E1D5D7F77FD7578BC000000000000000000000000",
        "data MS, colour 15, type 8, information as received\n",
    );
    expect_burst(
        &rt,
        "00000000000000000000000012ADFF57D75DF5D584000000000000000000000000",
        "data BS, colour 4, type 10, information as received\n",
    );
}

#[test]
fn voice_syncs(rt: HostRuntime) {
    expect_burst(
        &rt,
        "0000000000000000000000000007F7D5DD57DFD000000000000000000000000000",
        "voice sync MS\n",
    );
    expect_burst(
        &rt,
        "000000000000000000000000000755FD7DF75F7000000000000000000000000000",
        "voice sync BS\n",
    );
}

#[test]
fn numbers_of_voice_bursts(rt: HostRuntime) {
    // Each number of a voice burst is printed as its embedded signalling has it.
    expect_burst(
        &rt,
        "0000000000000000000000000005D00000000D0000000000000000000000000000",
        "voice, colour 5, PI 1, LCSS 2\n",
    );
    expect_burst(
        &rt,
        "000000000000000000000000000E60000000070000000000000000000000000000",
        "voice, colour 14, PI 0, LCSS 3\n",
    );
    expect_burst(
        &rt,
        "0000000000000000000000000000900000000C9000000000000000000000000000",
        "voice, colour 0, PI 1, LCSS 0\n",
    );
}

#[test]
fn wrong_bits_of_a_voice_burst(rt: HostRuntime) {
    // A printed voice burst: as it is, with two wrong bits of its embedded signalling, and with three.
    expect_burst(
        &rt,
        "000000000000000000000000000130000000091000000000000000000000000000",
        "voice, colour 1, PI 0, LCSS 1\n",
    );
    expect_burst(
        &rt,
        "000000000000000000000000000330000000090000000000000000000000000000",
        "voice, colour 1, PI 0, LCSS 1\n",
    );
    expect_burst(
        &rt,
        "000000000000000000000000000330000000080000000000000000000000000000",
        "unreadable\n",
    );
}

/// A text is no burst.
fn expect_no_burst(rt: &(impl Abort + AllocGlobal), text: &str) {
    expect_slot(rt, text, 2, "", "error: a burst is 66 hexadecimal digits\n");
}

/// Of no digit, one too few, one too many, and with a G for the last of them.
#[test]
fn texts_that_are_no_bursts(rt: HostRuntime) {
    expect_no_burst(&rt, "");
    expect_no_burst(
        &rt,
        "53C25EABA8671DC7383BD936065DFF57D75DF5D92BF6E465171B48CA6D4FC610B",
    );
    expect_no_burst(
        &rt,
        "53C25EABA8671DC7383BD936065DFF57D75DF5D92BF6E465171B48CA6D4FC610B40",
    );
    expect_no_burst(
        &rt,
        "53C25EABA8671DC7383BD936065DFF57D75DF5D92BF6E465171B48CA6D4FC610BG",
    );
}

/// A text is printed as it is, and an error as a line.
#[test]
fn texts_and_errors(rt: HostRuntime) {
    let mut output = ToWrite::new(Vec::new(rt.alloc()));
    assert!(rt; print_text(&mut output, "one\ntwo\n", 0) == 0);
    assert!(rt; print_error(&mut output, "three", 2) == 2);
    has_taken(&rt, output, "one\ntwo\nerror: three\n");
}

/// Where standard output can't be written, that is told, but not where its reader has left.
#[test]
fn standard_output_that_fails(rt: HostRuntime) {
    let told = "error: standard output: write failed\n";
    for (kind, err) in [
        (Some(ErrorKind::BrokenPipe), ""),
        (Some(ErrorKind::StorageFull), told),
        (Some(ErrorKind::Other), told),
        (None, told),
    ] {
        let mut output = Printer::new(Unwritable(kind));
        let mut errors = ToWrite::new(Vec::new(rt.alloc()));
        are_same(&rt, "status", &print_line(&mut output, "a line", 0), &1);
        print_unwritten(output.fault(), &mut errors);
        has_taken(&rt, errors, err);
    }
}

/// Where standard output is written, nothing is told.
#[test]
fn standard_output_that_is_written(rt: HostRuntime) {
    let mut output = Printer::new(Vec::new(rt.alloc()));
    let mut errors = ToWrite::new(Vec::new(rt.alloc()));
    are_same(&rt, "status", &print_line(&mut output, "a line", 0), &0);
    print_unwritten(output.fault(), &mut errors);
    has_taken(&rt, errors, "");
}
