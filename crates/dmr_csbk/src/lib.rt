//! Control signalling blocks.
//!
//! `Csbk` has the fields of a block as the standard names them; contracts read them as they are. One list of fields
//! serves `csbk_info` and `csbk_read`, and `specs/Block.antt` spells the block a second time, as the definition that
//! both are proved to meet: eighty bits of fields, and a check under the CSBK's mask. `meaning` tells what a block means, by
//! `specs/Meaning.antt`, as one enum for whoever has to say something of each. `down_act` and `preamble` see the body of the
//! blocks that they are named for, by the opcode alone. The laws of the definition of a block are the contracts of the functions
//! in `laws`.
#![tactic(auto)]

mod block;
mod fault;
pub mod laws;
mod meaning;
mod views;

pub use block::{Csbk, csbk_info, csbk_read};
pub use fault::CsbkFault;
pub use meaning::ControlMeaning;
pub use views::{BsDownAct, PREAMBLE, Preamble};
