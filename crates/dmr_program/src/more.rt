//! What more can be told of how a run ended.
ghost use Rattle.std.specs.Prelude.{◌≡◌};
ghost use Rattle.dmr_program.specs.More.{is_of_device, more_of, passed_of, place_of_fault, stream_format};

use dmr_command::Places;
use dmr_files::Place;
use dmr_lines::ToldName;
use dmr_record::{FileFormat, RecordFault};
use dmr_recording::FaultLine;
use dmr_repeater::{RunFault, Stream, Summary};
use dmr_watch::{Heard, Reached};
use std::fmt;
use std::io::Error;

/// What more can be told of how a run ended.
#[derive(Clone, Copy, Drop)]
pub(crate) enum More {
    /// This file can't be opened, and why, where the system said so.
    Unopened(Stream, Option<Error>),
    /// This file is at fault at this place, and why, where the system said so.
    Fault(Stream, FaultLine, Option<Error>),
    /// Nothing was repeated, and this was heard in its place.
    Heard(Heard),
}

/// Where a file of a run has got to, and the error of the last call that failed.
#[derive(Clone, Copy, Drop)]
pub(crate) struct Passed {
    pub(crate) reached: Reached,
    pub(crate) error: Option<Error>,
}

/// What was watched in a run.
#[derive(Clone, Copy, Drop)]
pub(crate) struct Watched {
    pub(crate) uplink: Passed,
    pub(crate) outgoing: Passed,
    pub(crate) downlink: Passed,
    pub(crate) received: Passed,
    pub(crate) heard: Heard,
}

/// The format of a file of a run.
fn format_of(stream: Stream) -> FileFormat
    ensures value { result ≡ stream_format stream }
{
    match stream {
        Stream::Uplink => FileFormat::Uplink,
        Stream::Outgoing => FileFormat::Outgoing,
        Stream::Downlink => FileFormat::Downlink,
        Stream::Received => FileFormat::Received,
    }
}

impl Watched {
    /// What was watched of a file.
    fn of(&self, stream: Stream) -> Passed
        ensures value { result ≡ passed_of self.now stream }
    {
        match stream {
            Stream::Uplink => self.uplink,
            Stream::Outgoing => self.outgoing,
            Stream::Downlink => self.downlink,
            Stream::Received => self.received,
        }
    }

    /// A fault of a file with its place.
    fn fault(&self, stream: Stream, fault: RecordFault) -> More
        ensures value { result ≡ place_of_fault self.now stream fault }
    {
        let Passed { reached, error } = self.of(stream);
        let line = reached.fault_line(format_of(stream), fault);
        More::Fault(stream, line, if is_of_device(fault) { error } else { None })
    }

    /// What more can be told of a run that ended so.
    pub(crate) fn more(&self, end: &Result<Summary, RunFault>) -> Option<More>
        ensures value { result ≡ more_of self.now end.now }
    {
        match *end {
            Ok(summary) if summary.repeated == 0 => Some(More::Heard(self.heard)),
            Ok(_) => None,
            Err(RunFault::File(stream, fault)) => Some(self.fault(stream, fault)),
            Err(RunFault::Memory) => None,
        }
    }
}

/// Whether the system has a reason for a fault.
fn is_of_device(fault: RecordFault) -> bool
    ensures value { result ≡ is_of_device fault }
{
    match fault {
        RecordFault::Read => true,
        RecordFault::Write => true,
        RecordFault::Magic => false,
        RecordFault::Version => false,
        RecordFault::CutRecord => false,
        RecordFault::BadTag => false,
        RecordFault::HalfFrame => false,
        RecordFault::FrameOrder => false,
        RecordFault::TooLong => false,
    }
}

/// The name of a file of a run: a hyphen of a standard stream, and else its path.
fn name_of<'a>(places: &Places<'a>, stream: Stream) -> &'a str {
    match stream {
        Stream::Uplink => places.uplink.name(),
        Stream::Outgoing => name_if_any(places.outgoing),
        Stream::Downlink => places.downlink.name(),
        Stream::Received => name_if_any(places.received),
    }
}

/// The name of a file that may be left out. One that is can't be at fault.
fn name_if_any<'a>(place: Option<Place<'a>>) -> &'a str {
    match place {
        Some(place) => place.name(),
        None => "",
    }
}

/// What more is told, behind the name of the file.
#[derive(Clone, Copy)]
pub(crate) struct ToldMore<'a> {
    pub(crate) more: More,
    pub(crate) places: Places<'a>,
}

impl fmt::Display for ToldMore<'_> {
    fn fmt<W: fmt::Write>(&self, f: &mut fmt::Formatter<W>) -> fmt::Result {
        match self.more {
            More::Unopened(stream, reason) => {
                let name = ToldName(name_of(&self.places, stream));
                write!(f, "{name}: cannot open")?;
                write_reason(reason, f)
            }
            More::Fault(stream, line, reason) => {
                let name = ToldName(name_of(&self.places, stream));
                write!(f, "{name}: {line}")?;
                write_reason(reason, f)
            }
            More::Heard(heard) => {
                let name = ToldName(self.places.uplink.name());
                write!(f, "{name}: nothing was repeated: ")?;
                write_heard(&heard, f)
            }
        }
    }
}

/// The reason of the system, where it gave one.
fn write_reason<W: fmt::Write>(reason: Option<Error>, f: &mut fmt::Formatter<W>) -> fmt::Result {
    match reason {
        Some(error) => write!(f, ": {error}"),
        None => Ok(()),
    }
}

/// What was heard.
fn write_heard<W: fmt::Write>(heard: &Heard, f: &mut fmt::Formatter<W>) -> fmt::Result {
    let Heard {
        bursts,
        of_other_colours,
        of_base_stations,
    } = *heard;
    write!(
        f,
        "bursts {bursts}, of other colour codes {of_other_colours}, "
    )?;
    write!(f, "of base stations {of_base_stations}")
}
