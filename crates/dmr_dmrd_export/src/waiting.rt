//! Slots on which isn't decided yet.
ghost use Rattle.std.specs.Prelude.{◌≡◌, ◌<◌, ◌≤◌, ◌∷◌, ◌++◌, [], List, length, IfSome, IfNone};
ghost use Rattle.std.specs.Prelude as prelude;
ghost use Rattle.dmr_dmrd_export.specs.declared.burst.RepeatedBurst as declared;

use crate::burst::RepeatedBurst;
use arrayvec::ArrayVec;
use std::marker::Model;

/// The slots of four frames at most, on which isn't decided yet: the burst that is repeated in each, or none.
#[derive(Drop)]
pub(crate) struct WaitingSlots {
    bursts: ArrayVec<Option<RepeatedBurst>, 8>,
}

// Clauses see the list of them, the newest last.
impl Model for WaitingSlots {
    ghost use Rattle.std.specs.Prelude.{List, Option};
    ghost use Rattle.dmr_dmrd_export.specs.declared.burst.RepeatedBurst.{RepeatedBurst};

    ghost Value = { List (Option RepeatedBurst) };

    ghost view = { λ waiting. waiting.bursts.items };
}

impl WaitingSlots {
    /// Nothing came yet.
    pub(crate) fn new() -> WaitingSlots
        ensures value { result ≡ [] }
    {
        WaitingSlots {
            bursts: ArrayVec::new(),
        }
    }

    /// The next slot came. Where eight wait, it is the turn of the oldest.
    pub(crate) fn push(&mut self, newest: Option<RepeatedBurst>) -> Option<Option<RepeatedBurst>>
        ensures due { IfSome result (λ oldest. (rest : List (prelude.Option declared.RepeatedBurst))
            × (self.old ≡ oldest ∷ rest) × (length rest ≡ 7)
            × (self.new ≡ rest ++ newest ∷ [])) }
        ensures none { IfNone result ((length self.old < 8) × (self.new ≡ self.old ++ newest ∷ [])) }
        ensures few { length self.new ≤ 8 }
    {
        if self.bursts.is_full() {
            let oldest = self.bursts.remove(0);
            self.bursts.push(newest);
            return Some(oldest);
        }
        self.bursts.push(newest);
        None
    }
}
