//! Bursts with what a listing shows of them.
use crate::burst_line::BurstLine;
use dmr_recording::RecordedBurst;

/// A burst of a recording, and what a listing shows of it.
#[derive(Clone, Copy, Drop)]
pub struct ListedBurst {
    /// The burst.
    pub burst: RecordedBurst,
    /// Its line.
    pub line: BurstLine,
}
