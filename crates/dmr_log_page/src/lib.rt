//! The log of a recording as a page of HTML: for each minute a picture of both slots, and a table of what ended in it.
//!
//! `print_page` prints the page of a whole file to a sink, by its `PageSettings`, in constant memory: a `Minute` is kept until it is
//! over. A `SlotMinute` has what is shown of each frame (`FrameKind`), and the transmissions with frames in it. From these a
//! `MinutePicture` has its bars and its labels (`Label`). A `TableRow` has the columns of an entry of the log, which are
//! dmr_log_forms's. What transmissions there are is dmr_log's.
//!
//! Contracts cite `specs/Rows.antt` for the rows of a table and the columns that they show, and `specs/Minutes.antt` for when a
//! minute is put, and which rows it has. `specs/Pages.antt` has what is put of a whole file, and `specs/Part.antt` of one that isn't
//! printed whole. What pictures and other texts say is left open by contracts, and is tested.
#![tactic(auto)]

mod clock;
mod end;
mod frame_kind;
mod head;
mod label;
mod minute;
mod page;
mod picture;
mod printer;
mod row;
mod settings;
mod slot_minute;
mod what;

pub use page::print_page;
pub use settings::PageSettings;
