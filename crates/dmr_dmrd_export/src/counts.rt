//! What is counted of a downlink.
ghost use Rattle.std.specs.Prelude.{Some};
ghost use Rattle.dmr_dmrd_export.specs.CountTexts.{exported_bursts_text};

use std::fmt;

/// How many bursts a downlink has, and how many of them were written to a capture.
#[derive(Clone, Copy, Debug, Drop, PartialEq, Eq)]
pub struct ExportedBursts {
    /// How many it has.
    pub records: u32,
    /// How many were written, which are those that are repeated.
    pub written: u32,
}

impl fmt::Display for ExportedBursts {
    ghost output = { λ exported. Some (exported_bursts_text exported) };

    /// `records 52 written 26 left-out 26`
    fn fmt<W: fmt::Write>(&self, f: &mut fmt::Formatter<W>) -> fmt::Result {
        let ExportedBursts { records, written } = *self;
        let left_out = records.saturating_sub(written);
        write!(f, "records {records} written {written} left-out {left_out}")
    }
}
