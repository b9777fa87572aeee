//! Why planning stops at a statement.
ghost use Rattle.std.specs.Prelude.{◌≡◌};
ghost use Rattle.dmr_planning.specs.declared.halt.Halt.TheVariants as halt;

use dmr_script::Refusal;
use std::alloc::{AllocError, AllocFailed};

/// Why a statement isn't planned.
#[derive(Clone, Copy, Debug, Drop, PartialEq, Eq)]
pub(crate) enum Halt {
    /// It is refused.
    Refused(Refusal),
    /// There was no memory for what it says.
    Memory,
}

impl From<Refusal> for Halt {
    ghost from_gives = { λ refusal made. made ≡ halt.Refused refusal };

    fn from(refusal: Refusal) -> Halt {
        Halt::Refused(refusal)
    }
}

impl From<AllocError> for Halt {
    ghost from_gives = { λ _ made. made ≡ halt.Memory };

    fn from(_error: AllocError) -> Halt {
        Halt::Memory
    }
}

impl<T: Drop> From<AllocFailed<T>> for Halt {
    ghost from_gives = { λ _ made. made ≡ halt.Memory };

    fn from(_error: AllocFailed<T>) -> Halt {
        Halt::Memory
    }
}
