//! The command line of the tools: what its words ask for, and doing that.
//!
//! The tools are what `dmrgate` does beside repeating: `show`, `log`, `make`, `damage`, `compare`, `import` and `export`. They are
//! a program of their own, so that nobody who repeats waits for their proofs. `request_of` reads the words, by a command line
//! parser whose texts are its own, and answers a `Request`. `obey` reads them and does what they ask for, on a system
//! (`dmr_files`), and prints to two sinks (`dmr_record`): what was asked for to the first, errors to the second. `program` is that
//! on the system that it runs on. `specs/Request.antt` says from which option each part of a request comes, with `Filters`,
//! `LogRequest`, `Making`, `Damaging`, `Datagrams`, `Hotspot` and `Comparison`, and where a line goes that tells how much was
//! written. `specs/Listed.antt` says what a listing or a log prints, and `specs/Comparing.antt` what a comparison does. What a file
//! shows is `dmr_show`'s, its log is `dmr_log_forms`'s and as a page `dmr_log_page`'s, and its text is `dmr_text`'s. Captures are
//! those of `dmr_datagrams`, `dmr_dmrd` and `dmr_dmrd_export`. Wrong bits are `dmr_damage`'s, and where a file differs from
//! another is `dmr_compare`'s. What a script says is `dmr_script`'s, and what is made of it `dmr_planning`'s.
#![tactic(auto)]

mod carrying;
mod comparing;
mod comparison;
mod damaging;
mod datagrams;
mod hotspot;
mod listing;
mod make_places;
mod making;
mod obeying;
mod opening;
mod outputs;
mod printing;
mod process;
mod request;

pub use comparison::Comparison;
pub use make_places::MakePlaces;
pub use obeying::obey;
pub use process::program;
pub use request::{ExportFormat, ImportFormat, LogRefusal, PairPlaces, Request, request_of};
