//! Laws of recordings that are made of scripts. The crate has no code, and no command stands on it.
//!
//! dmr_planning says which plan a script is, and what goes out for each slot of it. The laws say what that means as a whole. The
//! transmissions of a slot are a list as the headline of dmr_repeater speaks of one, each with the silences behind it. Each plan
//! has such lists, and they are well formed. What is written of the plan is a recording of the lists of both slots, with no damage:
//! no voice burst with an EMB is taken for one with a sync. So a run of the repeater over it writes the exact encoding of what the
//! script means. What stands in front of a line that is refused has such lists too, and no refusal of a pause is needless.
//!
//! `specs/Lists.antt` says which list the transmissions of a slot are. `specs/Scripts.antt` has the laws, in the words of the
//! headline, and `specs/Refused.antt` those of scripts that are refused.
#![tactic(auto)]

pub mod laws;
