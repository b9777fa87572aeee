//! Why reading stops.
use crate::fault::Refusal;
use std::alloc::{AllocError, AllocFailed};

/// Why a line isn't read to its end.
#[derive(Clone, Copy, Drop)]
pub(crate) enum Halt {
    /// It is refused.
    Refused(Refusal),
    /// There was no memory for what it says.
    Memory,
}

impl From<Refusal> for Halt {
    fn from(refusal: Refusal) -> Halt {
        Halt::Refused(refusal)
    }
}

impl From<AllocError> for Halt {
    fn from(_error: AllocError) -> Halt {
        Halt::Memory
    }
}

impl<T: Drop> From<AllocFailed<T>> for Halt {
    fn from(_error: AllocFailed<T>) -> Halt {
        Halt::Memory
    }
}
