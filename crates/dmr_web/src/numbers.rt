//! The numbers that a caller gives and gets.
ghost use Rattle.std.specs.Prelude.{◌≡◌};
ghost use Rattle.dmr_web.specs.Numbers as spec;

use dmr_record::{FileFormat, RecordFault};
use dmr_recording::{FaultLine, Place};

/// All was listed, up to the end.
pub(crate) const ALL: u32 = 0;

/// All was listed, up to a fault.
pub(crate) const AT_FAULT: u32 = 1;

/// There was no room for one line more.
pub(crate) const NO_ROOM: u32 = 2;

/// Nothing was listed, since that can't be asked for.
pub(crate) const REFUSED: u32 = 3;

/// What a call tells beside its text. A number is 0 where it has no meaning.
#[repr(C)]
#[derive(Clone, Copy)]
pub struct Told {
    /// How many octets of the text are lines.
    pub length: u64,
    /// Which of the four files it is, from 1 on.
    pub format: u64,
    /// How many bursts or records were gone by. A window that is to go on begins with this number.
    pub next: u64,
    /// The fault of the file.
    pub fault: u64,
    /// Where the record begins that shows the fault, in octets behind the begin of the file.
    pub octet: u64,
    /// The frame of the slot that shows it.
    pub frame: u64,
    /// That slot.
    pub slot: u64,
}

/// The number of a format. This project's own.
fn format_number(format: FileFormat) -> u64
    ensures value { result ≡ spec.format_number format }
{
    match format {
        FileFormat::Uplink => 1,
        FileFormat::Downlink => 2,
        FileFormat::Outgoing => 3,
        FileFormat::Received => 4,
    }
}

/// The format of a number, where it has one.
pub(crate) fn numbered_format(number: u32) -> Option<FileFormat>
    ensures value { result ≡ spec.numbered_format number }
{
    match number {
        1 => Some(FileFormat::Uplink),
        2 => Some(FileFormat::Downlink),
        3 => Some(FileFormat::Outgoing),
        4 => Some(FileFormat::Received),
        _ => None,
    }
}

/// The number of a fault, as `dmr_record` has it.
fn fault_number(fault: RecordFault) -> u64
    ensures value { result ≡ spec.fault_number fault }
{
    match fault {
        RecordFault::Magic => 1,
        RecordFault::Version => 2,
        RecordFault::CutRecord => 3,
        RecordFault::BadTag => 4,
        RecordFault::HalfFrame => 5,
        RecordFault::FrameOrder => 6,
        RecordFault::TooLong => 7,
        RecordFault::Read => 8,
        RecordFault::Write => 9,
    }
}

impl Told {
    /// Nothing but that the text has so many octets, and so many bursts or records were gone by.
    pub(crate) fn of_text(length: usize, next: u64) -> Told
        ensures value { result ≡ spec.told_text length next }
    {
        Told {
            length: length as u64,
            format: 0,
            next,
            fault: 0,
            octet: 0,
            frame: 0,
            slot: 0,
        }
    }

    /// The same, and which file it is.
    pub(crate) fn with_format(self, format: FileFormat) -> Told
        ensures value { result ≡ record self { format = spec.format_number format } }
    {
        Told {
            format: format_number(format),
            ..self
        }
    }

    /// The same, and the fault.
    pub(crate) fn with_fault(self, fault: FaultLine) -> Told
        ensures value { result ≡ spec.told_fault fault self }
    {
        let place = fault.place.unwrap_or(Place { frame: 0, slot: 0 });
        Told {
            fault: fault_number(fault.fault),
            octet: fault.octet,
            frame: u64::from(place.frame),
            slot: u64::from(place.slot),
            ..self
        }
    }
}
