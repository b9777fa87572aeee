//! What was carried.
ghost use Rattle.std.specs.Prelude.{◌≡◌, Some};
ghost use Rattle.dmr_text.specs.CountTexts.{carried_text};

use std::fmt;

/// How much a file holds that was carried between a file and its text.
#[derive(Clone, Copy, Debug, Drop, PartialEq, Eq)]
pub enum Carried {
    /// So many frames of a recording, each of which has the records of two slots.
    Recording { frames: u32 },
    /// So many records of a list.
    List { records: u32 },
}

impl fmt::Display for Carried {
    ghost output = { λ carried. Some (carried_text carried) };

    /// `frames 7 records 14` of a recording, `records 1` of a list.
    fn fmt<W: fmt::Write>(&self, f: &mut fmt::Formatter<W>) -> fmt::Result {
        match *self {
            Carried::Recording { frames } => {
                let records = 2 * u64::from(frames);
                write!(f, "frames {frames} records {records}")
            }
            Carried::List { records } => write!(f, "records {records}"),
        }
    }
}
