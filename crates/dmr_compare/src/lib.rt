//! Two files of one format, compared: recordings slot by slot, lists record by record.
//!
//! `compare` reads two files in constant memory. It prints two lines for each place that differs and a last line with the
//! `PlaceCounts`, and answers an exit status as `cmp` does (`SAME`, `DIFFERENT`, `TROUBLE`). `CompareSettings` say which frames of
//! recordings are compared with one another (`Shift`), what is left out of their bursts (`Ignored`), and whether differences are
//! counted alone. Why files weren't compared (`Trouble`) is told by their names (`FileNames`). Of bursts it compares what a
//! `ListedBurst` of dmr_listing has, and `Differing` is how many bits differ of two of them. A `RecordHead` is a record of a list
//! (`ListKind`) without its octets; all of these are compared. What a line shows of a burst or a record is dmr_listing's.
//!
//! Contracts say what was read of two files and what was printed (`specs/Files.antt`). What both kinds of files have stands in
//! these words:
//!
//! - what is counted of two lists (`specs/Counting.antt`), and of what was found next in them (`specs/Taking.antt`);
//! - what is printed of a place, and of all places (`specs/Printed.antt`);
//! - the exit statuses (`specs/Status.antt`).
//!
//! Of recordings they say:
//!
//! - the slots with their lines (`specs/Slots.antt`), and how far they were read (`specs/Reading.antt`);
//! - which slots are compared (`specs/Shifts.antt`), and what isn't ignored of them (`specs/Kept.antt`);
//! - what was compared, up to an end or a fault (`specs/Comparing.antt`).
//!
//! Of lists they say:
//!
//! - the records, and what differs of two of them (`specs/ListRecords.antt`);
//! - how far they were read (`specs/ListReading.antt`);
//! - what was compared, up to an end or a fault (`specs/ListComparing.antt`).
//!
//! A line is known to be one line, and the second of a difference to end with the bits or octets that differ. What stands in front
//! of that is left open by contracts, and is tested.
#![tactic(auto)]

mod comparing;
mod counts;
mod difference;
mod differing;
mod files;
mod heads;
mod line;
mod list_comparing;
mod list_difference;
mod list_reader;
mod list_record;
mod list_taking;
mod listed;
mod reader;
mod settings;
mod status;
mod taking;
mod telling;
mod trouble;

pub use counts::PlaceCounts;
pub use differing::Differing;
pub use files::compare;
pub use list_record::{ListKind, RecordHead};
pub use settings::{CompareSettings, Ignored, Shift};
pub use status::{DIFFERENT, SAME, TROUBLE};
pub use telling::FileNames;
pub use trouble::Trouble;
