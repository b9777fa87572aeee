//! The four files of a run as text, both ways.
//!
//! A file of text has a line that says what it is, a line for each burst or record, and a line that says how much that was. A line
//! is words with single spaces between: a place, and what stands there, its octets as capital hexadecimal digits. `export_text`
//! reads a file of any of the four formats and writes its text. `import_text` reads such a text, also one that was written by hand,
//! and writes its file. Both go record by record, so that their memory doesn't grow. What was carried is counted (`Carried`).
//!
//! Contracts say what the text of a file is (`specs/Spelling.antt` a line, `specs/Files.antt` a file), and what was read and
//! written up to a fault (`specs/Exports.antt`). Where a file is at fault is told by a `FaultLine` of dmr_recording, as a listing
//! tells it. Of a text they say which words say a record (`specs/Says.antt`), which words show which fault
//! (`specs/TextFaults.antt`), and what was read and written up to that (`specs/Imports.antt`, over `Telling`). The lines of a text
//! are those of dmr_words. `laws` says that a text says one file, that the written text of a file says that file, and that a line
//! at fault says nothing.
#![tactic(auto)]

mod carried;
mod digit_pairs;
mod export;
mod fault;
mod first;
mod import;
mod import_outgoing;
mod import_received;
mod import_recording;
pub mod laws;
mod line;
mod lines;
mod octets;
mod outgoing;
mod received;
mod recording;
mod said;
mod telling;

pub use carried::Carried;
pub use export::{ExportEnd, export_text};
pub use fault::{LineFault, TextFault};
pub use import::{ImportEnd, import_text};
