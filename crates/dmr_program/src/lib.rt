//! The program that repeats: a run over the files of a system, a line about one burst, and doing what a command line asks for.
//!
//! `run_places` opens the files of a run at their places: the inputs, and then the outputs. The outgoing list and the received file
//! may be left out (`specs/Devices.antt`). No output is emptied before each is known to be no other file of the run and none behind
//! a standard stream (`specs/Apart.antt`). Then it runs over them (`dmr_repeater`), with buffers between, but with none in front of
//! the outputs where more of an input may come. It answers a `RunEnd`, how the run ended (`specs/Ending.antt`).
//!
//! `print_end` prints how a run ended, and answers the exit status (`specs/RunEnd.antt`). `print_slot` prints what a burst of 66
//! hexadecimal digits is read as (`specs/Digits.antt`, `dmr_reading`). Both print one line and touch one sink: a line that begins
//! with `error: ` goes to the second, and every other to the first. Where standard output is a file of the run, `print_end_beside`
//! prints to the second whatever there is (`specs/Summary.antt`).
//!
//! Where more is to be told, the files of the run are watched (`dmr_watch`). Then one more line tells where a file is at fault, and
//! why by the system, or what was heard where nothing was repeated (`specs/More.antt`, `specs/Told.antt`). A run without that is
//! not watched.
//!
//! `obey` does what the words of a command line ask for (`dmr_command`), on a system (`dmr_files`), and `program` does that on the
//! system that it runs on. Both print to two sinks (`dmr_record`): what was asked for to the first, errors to the second.
#![tactic(auto)]

mod devices;
mod more;
mod obeying;
mod opening;
mod process;
mod run_end;
mod running;
mod slot;
mod text;
mod watched_run;

pub use obeying::obey;
pub use process::program;
pub use run_end::{RunEnd, print_end, print_end_beside};
pub use running::run_places;
pub use slot::print_slot;
