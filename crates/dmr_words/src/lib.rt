//! Lines of a text that comes from a device, and their words.
//!
//! `Lines` gives the lines of a text one after the other, in constant memory, and their numbers. It reads from a source
//! (`dmr_record`), which is handed in at each call, and takes what is there: a line that has come whole is told before anything
//! further is read. `Words` gives the words of a line, and `decimal` the number that a word is.
//!
//! Contracts see a `Lines` as what it remembers of its text, a `TextState` of `specs/Lines.antt`. A call says which lines of the
//! text it told, by `TellsLines` there: those that std's `lines` has, with their numbers. What a word is stands in
//! `specs/Words.antt`. Laws say what a whole run of calls told.
#![tactic(auto)]

mod chunk;
mod fault;
pub mod laws;
mod lines;
mod number;
mod words;

pub use fault::LineFault;
pub use lines::{LINE_LIMIT, Lines};
pub use number::decimal;
pub use words::{Words, is_worded};
