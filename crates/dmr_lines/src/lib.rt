//! Lines of text that a program prints, and the statuses that it ends with.
//!
//! Lines go to sinks (`dmr_record`). `print_line` prints one, `print_error` one that tells an error and begins with `error: `, and
//! `print_text` a text that has its own ends of lines. Each of them answers the exit status that it was given, or `FAILURE` where
//! the sink fails. What a text says is up to the caller; `line_of` cuts it to its first line, so that it is printed as one, and a
//! `ToldName` is told without its control characters.
//! Contracts cite `specs/Line.antt` for the octets of a line, and `specs/Status.antt` for the statuses.
#![tactic(auto)]

mod line;
mod name;
mod status;

pub use line::{line_of, print_error, print_line, print_text};
pub use name::ToldName;
pub use status::{FAILURE, SUCCESS, USAGE};
