//! What a page ends with.
use dmr_listing::Counted;
use dmr_log::{LogCounts, LogSummary};
use dmr_recording::{Place, Seconds};
use std::fmt;

/// What a page ends with: what was counted.
#[derive(Clone, Copy, Drop)]
pub(crate) struct PageEnd {
    /// What the log counted.
    pub(crate) summary: LogSummary,
    /// Whether a gateway listened.
    pub(crate) has_gateway: bool,
}

/// So many of something.
fn counted(count: u32, name: &'static str) -> Counted {
    Counted(count as usize, name)
}

impl fmt::Display for PageEnd {
    fn fmt<W: fmt::Write>(&self, f: &mut fmt::Formatter<W>) -> fmt::Result {
        let LogSummary { frames, counts } = self.summary;
        let end = Place {
            frame: frames,
            slot: 1,
        };
        let seconds = Seconds(end.milliseconds());
        let LogCounts {
            calls,
            packets,
            controls,
            repeated,
            received,
        } = counts;
        write!(f, "<p>{}, {seconds} s; ", counted(frames, "frame"))?;
        write!(f, "{}, ", counted(calls, "call"))?;
        write!(f, "{}, ", counted(packets, "packet"))?;
        write!(f, "{} of control blocks; ", counted(controls, "row"))?;
        write!(f, "{} repeated", counted(repeated, "burst"))?;
        if self.has_gateway {
            write!(f, "; {} received", counted(received, "record"))?;
        }
        write!(f, "</p>\n")
    }
}
