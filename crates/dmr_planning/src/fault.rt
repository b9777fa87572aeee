//! Why there is no plan.
ghost use Rattle.std.specs.Prelude.{◌≡◌};
ghost use Rattle.dmr_planning.specs.declared.fault.PlanFault.TheVariants as fault;

use dmr_script::RefusedLine;
use std::alloc::AllocError;

/// Why there is no plan of a script.
#[derive(Clone, Copy, Debug, Drop, PartialEq, Eq)]
pub enum PlanFault {
    /// A line shows that there is none.
    Refused(RefusedLine),
    /// There was no memory for it.
    Memory,
}

impl From<AllocError> for PlanFault {
    ghost from_gives = { λ _ made. made ≡ fault.Memory };

    fn from(_error: AllocError) -> PlanFault {
        PlanFault::Memory
    }
}
