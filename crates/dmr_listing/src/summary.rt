//! The last line of a listing.
ghost use Rattle.std.specs.Prelude.{◌≡◌};
ghost use Rattle.dmr_listing.specs.Summaries.{counted_line};

use crate::burst_line::BurstLine;
use dmr_reading::Reading;
use dmr_recording::{Place, Seconds};
use std::fmt;

/// What a listing of a recording counts.
#[derive(Clone, Copy, Debug, Default, PartialEq, Eq, Drop)]
pub struct BurstCounts {
    /// The bursts of slot 1.
    pub slot_1: u32,
    /// The bursts of slot 2.
    pub slot_2: u32,
    /// Those of both that can't be read.
    pub unreadable: u32,
}

impl BurstCounts {
    /// With one line more. At most 2^32 - 1 of each are counted, of which no recording has so many.
    pub fn with(self, line: &BurstLine) -> BurstCounts
        ensures value { result ≡ counted_line line.now self }
    {
        let is_unreadable = matches!(line.reading, Reading::Unreadable);
        BurstCounts {
            slot_1: self.slot_1.saturating_add(u32::from(line.place.slot == 1)),
            slot_2: self.slot_2.saturating_add(u32::from(line.place.slot == 2)),
            unreadable: self.unreadable.saturating_add(u32::from(is_unreadable)),
        }
    }
}

/// The last line of a listing of a recording.
#[derive(Clone, Copy, Debug, PartialEq, Eq, Drop)]
pub struct RecordingSummary {
    /// How many frames there are.
    pub frames: u32,
    /// The bursts in them.
    pub bursts: BurstCounts,
}

impl fmt::Display for RecordingSummary {
    fn fmt<W: fmt::Write>(&self, f: &mut fmt::Formatter<W>) -> fmt::Result {
        let end = Place {
            frame: self.frames,
            slot: 1,
        };
        let seconds = Seconds(end.milliseconds());
        let bursts = self.bursts;
        write!(f, "frames {} seconds {seconds} ", self.frames)?;
        write!(
            f,
            "slot-1 {} slot-2 {} unreadable {}",
            bursts.slot_1, bursts.slot_2, bursts.unreadable
        )
    }
}
