//! What a listing shows of a file: a line for each burst or record.
//!
//! `SlotView` makes the lines of one slot of a recording, frame by frame, and `RecordingView` those of both, slot by slot. A
//! `BurstLine` has all that the line of a burst shows, and prints it; `BurstText` prints it without its place. It shows what the
//! burst is read as (`Reading` of `dmr_reading`), in which place of a superframe it stands (`VoicePlaces`), and what its
//! information holds (`Contents`). It also shows the link control that four voice bursts carry, what its CACH announces
//! (`AccessType`), and how many of its bits are wrong (`Wrong`). `read_tact` reads all fields of a CACH (`Tact`). `OutgoingLine`
//! and `ReceivedLine` print the records of the two lists. All of it comes from the readers that a run stands on. Octets that came
//! over the air are printed as digits, never as text. `RecordingSummary` is the last line of a listing, of what `BurstCounts`
//! counts line by line.
//!
//! `list_recording`, `list_outgoing` and `list_received` go through a whole file behind its head, and give the lines one by one to
//! whoever takes them (`Taker` of `ListedBurst`, `Outgoing` or `ReceivedRecord`), in constant memory.
//!
//! `strip_recording` gives the picture of a recording in place of its lines: a `Strip` has a `Mark` for each slot of 50 `Frames`,
//! and prints a line for each slot (`StripLine`). The marks are those of the lines that the listing has.
//!
//! Contracts say what a line shows (`specs/Lines.antt`), in these words:
//!
//! - which place follows, and what a place means over all that a slot was read as (`specs/VoicePlace.antt`);
//! - what a burst of a type holds (`specs/Contents.antt`), and what four frames carry (`specs/Fragments.antt`);
//! - what a CACH announces (`specs/AccessType.antt`), and which bits are wrong (`specs/Wrong.antt`);
//! - who sends a data header to whom (`specs/Ways.antt`);
//! - what is printed of a data header, a control signalling block and what else a data burst holds but a link control
//!   (`specs/ContentsTexts.antt` over `HeaderTexts` and `BlockTexts`), and of the octets of a received record
//!   (`specs/DatagramTexts.antt`), letter by letter;
//! - what is counted (`specs/Summaries.antt`).
//!
//! Of a whole file they say that each burst or record has a line, in order and once, and that a fault is told exactly where the
//! octets show it (`specs/ListingRules.antt`, `OutgoingListings`, `ReceivedListings`). `laws` has the places of the lines. Of
//! strips they say that each slot has its mark, in order and once (`specs/Marks.antt`, `Strips`). What all other texts are is
//! left open by contracts, and is tested.
#![tactic(auto)]

mod access_type;
mod burst_line;
mod contents;
mod control_block;
mod counted;
mod data_header;
mod datagram;
mod digits;
mod fragments;
mod frames;
pub mod laws;
mod link_control;
mod listed_burst;
mod listing;
mod mark;
mod outgoing_listing;
mod received_listing;
mod record_line;
mod recording_view;
mod slot_view;
mod strip;
mod strips;
mod summary;
mod taker;
mod voice_place;
mod way;
mod wrong;

pub use access_type::{AccessType, Tact, read_tact};
pub use burst_line::{BurstLine, BurstName, BurstText, DataTypeName};
pub use contents::Contents;
pub use counted::Counted;
pub use digits::Digits;
pub use frames::Frames;
pub use link_control::LinkControlName;
pub use listed_burst::ListedBurst;
pub use listing::list_recording;
pub use mark::Mark;
pub use outgoing_listing::list_outgoing;
pub use received_listing::{ReceivedRecord, list_received};
pub use record_line::{OutgoingLine, ReceivedLine, ReceivedText};
pub use recording_view::RecordingView;
pub use slot_view::SlotView;
pub use strip::{Strip, StripLine};
pub use strips::strip_recording;
pub use summary::{BurstCounts, RecordingSummary};
pub use taker::Taker;
pub use voice_place::{VoicePlace, VoicePlaces};
pub use way::Way;
pub use wrong::Wrong;
