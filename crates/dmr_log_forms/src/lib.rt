//! A log of transmissions (dmr_log), as it is printed: as lines for people, as rows of CSV, and as objects of JSON.
//!
//! A `LogEntry` is a transmission that has ended, or a record that a gateway has received. Its `EntryColumns` are what all forms
//! show of it: when it begins and how long it takes, what `EntryKind` it is, who sends it to whom, and what a call or a packet has.
//! A row of CSV is written by the kit's `csv`. Times count from the begin of the recording, or from a `StartTime`. `print_log`
//! prints the log of a whole file to a sink, by its `LogSettings`, each line as soon as it is known. What transmissions there are
//! is dmr_log's.
//!
//! Contracts cite `specs/Columns.antt` for what the columns hold, `specs/Kinds.antt` for what a transmission is called, and
//! `specs/Rows.antt` for the cells of a row. `specs/Entries.antt` has what is an entry, `specs/Printed.antt` what is put of a
//! frame, and `specs/Whole.antt` what is put of a whole file. `specs/Part.antt` has what is put of one that isn't printed whole, by
//! the `LogFault` that is why, and `specs/Faults.antt` when a sink has failed. What the texts are is left open by contracts, and is
//! tested.
#![tactic(auto)]

mod columns;
mod details;
mod end;
mod entry;
mod fault;
mod kind;
mod line;
mod object;
mod printer;
mod printing;
mod row;
mod settings;
mod start_time;

pub use columns::{CallEnd, EntryColumns};
pub use entry::LogEntry;
pub use fault::LogFault;
pub use kind::EntryKind;
pub use printing::{new_log, print_log, print_log_fault, read_uplink_head};
pub use settings::{LogForm, LogSettings};
pub use start_time::{Begin, StartTime};
