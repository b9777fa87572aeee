//! When a recording began.

use dmr_recording::Seconds;
use jiff::{SignedDuration, Timestamp};
use std::fmt;

/// How many milliseconds the longest recording takes: 1,048,576 frames of 60. This project's own.
const LONGEST: i64 = 62_914_560;

/// When a recording began, so that what stands in it has a time of day: in milliseconds behind the begin of the year 1970.
#[derive(Clone, Copy, Debug, PartialEq, Eq, Drop)]
pub struct StartTime(i64);

impl StartTime {
    /// Reads a time of RFC 3339, as `2026-01-31T12:00:00Z`, to the millisecond. One from which the longest recording would pass the
    /// year 9999 is refused.
    pub fn read(text: &str) -> Option<StartTime> {
        let start = text.parse::<Timestamp>().ok()?;
        start
            .checked_add(SignedDuration::from_millis(LONGEST))
            .ok()?;
        Some(StartTime(start.as_millisecond()))
    }

    /// The instant that many milliseconds later. No place of a recording is past the last instant that there is.
    fn later(self, milliseconds: u64) -> Timestamp {
        let behind = i64::try_from(milliseconds).unwrap_or(LONGEST);
        Timestamp::from_millisecond(self.0.saturating_add(behind)).unwrap_or(Timestamp::MAX)
    }
}

/// When something begins, printed as seconds behind the begin of the recording, or as a time of day to the millisecond, where it is
/// known when the recording began.
#[derive(Clone, Copy, Drop)]
pub struct Begin {
    /// When the recording began, if that is known.
    pub start: Option<StartTime>,
    /// How many milliseconds later it begins.
    pub milliseconds: u64,
}

impl fmt::Display for Begin {
    fn fmt<W: fmt::Write>(&self, f: &mut fmt::Formatter<W>) -> fmt::Result {
        match self.start {
            Some(start) => write!(f, "{:.3}", start.later(self.milliseconds)),
            None => write!(f, "{}", Seconds(self.milliseconds)),
        }
    }
}
