//! Laws of recordings that were damaged within the limits. The crate has no code, and no command stands on it.
//!
//! dmr_damage says what each slot of a recording may be written as. The laws say what that leaves of the whole. Of well-formed
//! transmissions that were sent, and of a recording of them that is damaged within the limits, what is written is such a recording
//! again: of transmissions that are the same, but for the embedded fields that places from B to E were received with, and that mean
//! the same. So a run of the repeater writes the same of both.
//!
//! `specs/SameTransmissions.antt` says which transmissions are the same so. `specs/DamagedSlots.antt` has the law of a slot, and
//! `specs/DamagedCopies.antt` those of whole files and of runs over them, in the words of the headline of dmr_repeater.
#![tactic(auto)]

pub mod laws;
