//! How carrying datagrams ended.
ghost use Rattle.std.specs.Prelude.{◌≤◌, Some};
ghost use Rattle.dmr_datagrams.specs.CountTexts.{exported_datagrams_text, imported_datagrams_text};

use dmr_capture::CaptureFault;
use dmr_recording::FaultLine;
use std::fmt;

/// How many records of a received list were read, and how many of them were written to a capture.
#[derive(Clone, Copy, Debug, Drop, PartialEq, Eq)]
pub struct ExportedDatagrams {
    /// How many were read.
    pub records: u32,
    /// How many were written.
    pub written: u32,
}

impl fmt::Display for ExportedDatagrams {
    ghost output = { λ exported. Some (exported_datagrams_text exported) };

    /// `records 3 written 2 left-out 1`
    fn fmt<W: fmt::Write>(&self, f: &mut fmt::Formatter<W>) -> fmt::Result {
        let ExportedDatagrams { records, written } = *self;
        let left_out = records.saturating_sub(written);
        write!(f, "records {records} written {written} left-out {left_out}")
    }
}

/// Why a capture wasn't written to its end.
#[derive(Clone, Copy, Drop, PartialEq, Eq)]
pub enum ExportEnd {
    /// The list is at fault, or a record came later than a capture can say. What stands before it was written.
    File(FaultLine),
    /// The capture could not be written.
    Output,
    /// There was no memory for the octets of a record. Nothing was read, and nothing written.
    Memory,
}

/// How many records were written to an outgoing list, and how many packets of a capture were passed over.
#[derive(Clone, Copy, Debug, Drop, PartialEq, Eq)]
pub struct ImportedDatagrams {
    /// How many were written.
    pub records: u32,
    /// How many were passed over.
    pub other: u64,
}

impl fmt::Display for ImportedDatagrams {
    ghost output = { λ imported. Some (imported_datagrams_text imported) };

    /// `records 2 other 0`
    fn fmt<W: fmt::Write>(&self, f: &mut fmt::Formatter<W>) -> fmt::Result {
        let ImportedDatagrams { records, other } = *self;
        write!(f, "records {records} other {other}")
    }
}

/// Why an outgoing list wasn't written to its end.
#[derive(Clone, Copy, Drop, PartialEq, Eq)]
pub enum ImportEnd {
    /// The capture is at fault, or a packet asks for a record past the limit of the list. What stands before it was written.
    Capture(CaptureFault),
    /// The list could not be written.
    Output,
    /// There was no memory for the octets of a packet. Nothing was read, and nothing written.
    Memory,
}
