//! Hearing: what a slot of the uplink is heard as, whatever call it may be of.
//!
//! `hear` answers each part of a burst, exactly where the burst has it (`specs/Hearing.antt`, with what the information of each
//! data type holds, `specs/DataTypes.antt`). `silence` is what nothing is heard as. A `Heard` tells what its parts say
//! (`specs/Parts.antt`).
//!
//! `read_fields` reads the link control that four embedded fields carry, and undoes the damage that they may have together
//! (`specs/Fields.antt`).
//!
//! `laws` has that there is one answer, and that it is what was sent (`specs/Slots.antt`) where the damage is within the limits
//! (`specs/Damage.antt`). What is sent is a recording of itself, and a slot which is a recording of two things can be heard as both
//! (`specs/Recorded.antt`). The types have no private fields, and are their own model; what is heard fits its fields
//! (`specs/Fit.antt`).
#![tactic(auto)]

mod data_types;
mod fields;
mod heard;
mod hearing;
mod information;
pub mod laws;

pub use data_types::Payload;
pub use fields::read_fields;
pub use heard::{DataBurst, Heard};
pub use hearing::{hear, hear_into, silence};
