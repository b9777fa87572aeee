//! Where things stand in the files of a run, and where such a file is at fault.
//!
//! `Recording` is which of the two recordings a file is, and `read_recording` reads a slot of either (`RecordedBurst`). A `Place`
//! is a slot of a frame, which has its time. A `FaultLine` tells where a file is at fault. `Stop` is why something that goes
//! through a whole file stopped before its end.
//!
//! Contracts say what the octets of a slot are, and which of them show a fault (`specs/Recordings.antt`). They also say where a
//! slot and a record stand (`specs/Places.antt`). They cite the definitions of the files in dmr_record.
#![tactic(auto)]

mod fault_line;
mod place;
mod recording;
mod stop;

pub use fault_line::FaultLine;
pub use place::{Place, Seconds};
pub use recording::{RecordedBurst, Recording, read_recording, record_octets};
pub use stop::{HEAD_OCTETS, Stop};
