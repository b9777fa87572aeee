//! What passes of the files of a run: where their octets have got to, and what was heard of an uplink.
//!
//! `Reached` is where the octets of a file have got to, of any of the four formats, and tells a fault with its place
//! (`specs/Reached.antt`). `Heard` counts the bursts of an uplink, and those among them that a repeater doesn't repeat: of other
//! colour codes, and of base stations (`specs/Heard.antt`). An `Ear` is both, over octets in pieces of any length
//! (`specs/Ears.antt`).
//!
//! Three devices do what the one behind them does, and remember something beside it. `KeptReader` has the error of the last read
//! that failed. `WatchedSource` has an ear for what is read. `WatchedWriter` has where the octets that were written have got to,
//! and the error of the last write that failed (`specs/Devices.antt`). `laws` says that a fault of a recording is told at the slot
//! that has it (`specs/Slots.antt`).
#![tactic(auto)]

mod ear;
mod heard;
mod kept_reader;
pub mod laws;
mod reached;
mod watched_source;
mod watched_writer;

pub use ear::Ear;
pub use heard::Heard;
pub use kept_reader::KeptReader;
pub use reached::Reached;
pub use watched_source::WatchedSource;
pub use watched_writer::WatchedWriter;
