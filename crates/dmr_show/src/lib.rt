//! A file of the repeater, listed for people.
//!
//! `show` reads a file of any of the four formats. It prints a line for the file, a line for each burst or record that a `Filter`
//! lets pass, and a last line with what the file holds, all as text or as JSON. Or it prints, of a recording, the strip of the
//! frames and slots that the filter lets pass (`Form`). Where the file is at fault, the lines up to the fault stand, and then what
//! it is and where. Which lines there are and what they show is `dmr_listing`'s, and the objects of JSON are `dmr_json`'s.
//!
//! Contracts cite `specs/Showing.antt` for files that were read to their end or to a fault, and `specs/Records.antt` for what was
//! read of them. `specs/Printed.antt` says how many lines there are, and `specs/Filter.antt` which pass. `specs/Forms.antt` says
//! what lines are written in, and `specs/Held.antt` has the lines that wait to be written. Contracts leave open what the texts are,
//! but that each is one line.
#![tactic(auto)]

mod file_listing;
mod file_summary;
mod filter;
mod form;
mod lines;
mod showing;
mod waiting;
mod written;

pub use filter::Filter;
pub use form::Form;
pub use showing::{print_want_of_memory, show};
