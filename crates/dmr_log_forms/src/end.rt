//! What a log ends with.
use dmr_log::LogSummary;
use dmr_recording::{Place, Seconds};
use std::fmt;

/// The last line of a log for people.
#[derive(Clone, Copy, Drop)]
pub(crate) struct EndLine {
    /// What the log counted.
    pub summary: LogSummary,
    /// Whether a gateway listened.
    pub has_gateway: bool,
}

impl fmt::Display for EndLine {
    fn fmt<W: fmt::Write>(&self, f: &mut fmt::Formatter<W>) -> fmt::Result {
        let LogSummary { frames, counts } = self.summary;
        let end = Place {
            frame: frames,
            slot: 1,
        };
        let seconds = Seconds(end.milliseconds());
        write!(f, "frames {frames} seconds {seconds} ")?;
        write!(f, "calls {} packets {} ", counts.calls, counts.packets)?;
        let repeated = counts.repeated;
        write!(f, "controls {} repeated {repeated}", counts.controls)?;
        if self.has_gateway {
            write!(f, " received {}", counts.received)
        } else {
            Ok(())
        }
    }
}

/// The last object of a log as JSON.
#[derive(Clone, Copy, Drop)]
pub(crate) struct EndObject {
    /// What the log counted.
    pub summary: LogSummary,
    /// Whether a gateway listened.
    pub has_gateway: bool,
}

impl fmt::Display for EndObject {
    fn fmt<W: fmt::Write>(&self, f: &mut fmt::Formatter<W>) -> fmt::Result {
        let LogSummary { frames, counts } = self.summary;
        write!(f, "{{\"frames\":{frames},\"calls\":{},", counts.calls)?;
        let controls = counts.controls;
        write!(f, "\"packets\":{},\"controls\":{controls},", counts.packets)?;
        write!(f, "\"repeated\":{}", counts.repeated)?;
        if self.has_gateway {
            write!(f, ",\"received\":{}}}", counts.received)
        } else {
            write!(f, "}}")
        }
    }
}
