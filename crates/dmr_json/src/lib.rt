//! What a file holds, as JSON: an object for the file, one for each burst or record, and a last one.
//!
//! `FileObject` begins a listing; `BurstObject` shows what the line of a burst shows in `dmr_listing`, and its octets,
//! `OutgoingObject` and `ReceivedObject` the fields of a record; `RecordingEnd` and `ListEnd` end it. Each is printed as one line
//! of ASCII, with its keys in one order. All texts are fixed, so nothing has to be escaped, and what came over the air is printed
//! as numbers and digits alone. `null` stands where something couldn't be read.
//!
//! What is printed of a data header of format 1 to 3, and of what a control signalling block means, is a clause, letter by letter
//! (`specs/DataHeaders.antt`, `ControlBlocks`). So are the objects of a file, of a record of either list and of the end of a
//! listing (`specs/Records.antt`). How keys and values are written is said once (`specs/Values.antt`). Nothing is promised of the
//! other texts beyond safety; they are tested.
#![tactic(auto)]

mod burst;
mod cach;
mod contents;
mod control_block;
mod data_header;
mod ends;
mod file;
mod link_control;
mod place;
mod records;
mod values;
mod wrong;

pub use burst::BurstObject;
pub use ends::{ListEnd, RecordingEnd};
pub use file::FileObject;
pub use records::{OutgoingObject, ReceivedObject};
