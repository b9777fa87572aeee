//! The command line of the program that repeats: what its words ask for.
//!
//! `request_of` reads the words, by a command line parser whose texts are its own, and answers a `Request`: to run with settings
//! over files at their `Places`, to say what a burst is, or a command that another program has. A run two files of which would be
//! one standard stream is refused (`SharedStream`, `specs/Places.antt`). `specs/Request.antt` says from which option each place and
//! each setting comes. Doing what a request asks for is left to `dmr_program`.
#![tactic(auto)]

mod places;
mod request;

pub use places::Places;
pub use request::{Request, SharedStream, request_of};
