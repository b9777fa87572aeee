//! What a listing ends with.
use dmr_listing::RecordingSummary;
use std::fmt;

/// What a listing ends with.
#[derive(Clone, Copy, Drop)]
pub(crate) enum FileSummary {
    /// The frames and bursts of a recording.
    OfRecording(RecordingSummary),
    /// How many records a list has.
    OfList(u32),
}

impl fmt::Display for FileSummary {
    fn fmt<W: fmt::Write>(&self, f: &mut fmt::Formatter<W>) -> fmt::Result {
        match self {
            FileSummary::OfRecording(summary) => write!(f, "{summary}"),
            FileSummary::OfList(count) => write!(f, "records {count}"),
        }
    }
}
