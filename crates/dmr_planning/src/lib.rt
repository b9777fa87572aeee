//! The plan of a script: where each of its transmissions is sent, and which records its outgoing list has.
//!
//! `plan_script` goes over the statements of a script (dmr_script) and places its transmissions in their slots, with the silences
//! that stand between them. It answers a `Plan`, or the first line that shows that there is none (`PlanFault`). A plan writes the
//! recording (dmr_making) and the outgoing list, and says how much they have (`Made`). So nothing has to be written before it is
//! known that all can be made.
#![tactic(auto)]

mod counting;
mod fault;
mod halt;
pub mod laws;
mod plan;
mod planner;
mod sends;
mod slot_plan;
mod slot_state;
mod tries;
mod udp;

pub use fault::PlanFault;
pub use plan::{Made, Plan};
pub use planner::plan_script;
pub use sends::PlannedSend;
