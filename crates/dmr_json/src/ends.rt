//! What a listing ends with, by whose absence a cut one is known.
ghost use Rattle.std.specs.Prelude.{◌*◌, Some, decimal};
ghost use Rattle.dmr_json.specs.Records.{list_end, recording_end};

use std::fmt;

/// The last object of a recording.
#[derive(Drop)]
pub struct RecordingEnd {
    /// How many frames it has. Each has two records, silent ones among them.
    pub frames: u32,
}

/// How many records so many frames have.
#[derive(Drop)]
struct RecordCount(u32);

impl fmt::Display for RecordCount {
    ghost output = { λ frames. Some (decimal (2 * frames.0)) };

    fn fmt<W: fmt::Write>(&self, f: &mut fmt::Formatter<W>) -> fmt::Result {
        let records = 2 * u64::from(self.0);
        write!(f, "{records}")
    }
}

impl fmt::Display for RecordingEnd {
    ghost output = { λ end. Some (recording_end end.frames) };

    fn fmt<W: fmt::Write>(&self, f: &mut fmt::Formatter<W>) -> fmt::Result {
        let frames = self.frames;
        let records = RecordCount(frames);
        write!(f, "{{\"frames\":{frames},\"records\":{records}}}")
    }
}

/// The last object of a list.
#[derive(Drop)]
pub struct ListEnd {
    /// How many records it has.
    pub records: u32,
}

impl fmt::Display for ListEnd {
    ghost output = { λ end. Some (list_end end.records) };

    fn fmt<W: fmt::Write>(&self, f: &mut fmt::Formatter<W>) -> fmt::Result {
        let records = self.records;
        write!(f, "{{\"records\":{records}}}")
    }
}
