//! Why a file wasn't gone through to its end.

use crate::fault_line::FaultLine;

/// How many octets the head of a file has. This project's own.
pub const HEAD_OCTETS: u64 = 8;

/// Why something that goes through a file stopped before its end.
#[derive(Clone, Copy, Drop, PartialEq, Eq)]
pub enum Stop {
    /// The file is at fault.
    File(FaultLine),
    /// What was made of a record could not be given.
    Output,
}
