//! Why a log wasn't printed whole.
use dmr_recording::FaultLine;
use std::fmt;

/// Why the log of a file wasn't printed whole.
#[derive(Clone, Copy, Drop)]
pub enum LogFault {
    /// The file is at fault.
    File(FaultLine),
    /// It is one of the other three files.
    NotUplink,
    /// The colour code or the gateway's address is out of its range.
    Range,
    /// There is no memory.
    Memory,
    /// The sink failed.
    Output,
}

impl fmt::Display for LogFault {
    fn fmt<W: fmt::Write>(&self, f: &mut fmt::Formatter<W>) -> fmt::Result {
        match self {
            LogFault::File(fault) => write!(f, "{fault}"),
            LogFault::NotUplink => write!(f, "not an uplink"),
            LogFault::Range => write!(f, "a setting is out of its range"),
            LogFault::Memory => write!(f, "out of memory"),
            LogFault::Output => write!(f, "write failed"),
        }
    }
}
