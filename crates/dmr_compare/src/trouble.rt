//! Why two files weren't compared to their ends.
use dmr_recording::FaultLine;

/// Why two files weren't compared to their ends.
#[derive(Clone, Copy, Drop)]
pub enum Trouble {
    /// The first is at fault.
    First(FaultLine),
    /// The second is at fault.
    Second(FaultLine),
    /// The second is another kind of file than the first.
    OtherKind,
    /// Both are lists, and a shift is given, which lists don't have.
    ShiftOfLists,
    /// There was no memory for the records of two lists.
    Memory,
    /// What was to be printed couldn't be.
    Output,
}
