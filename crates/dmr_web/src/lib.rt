//! A file of the repeater, listed into memory that the caller has: what a web page calls. Nothing here takes memory of its own.
//!
//! `page_head` reads the head of a file. `page_list` lists what stands behind it by windows: the lines of its bursts or records
//! from one of them on, as far as there is room, as text or as JSON. It tells where to go on. `page_strip` marks what stands in
//! each slot of a recording. All of them go by the listings of `dmr_listing` and print what `dmr_show` prints.
//!
//! A part of a recording that begins with a frame is listed as a recording of its own, whose frames are counted from any number on.
//! Then the lines of its first frames don't know what came before.
//!
//! Contracts cite `specs/Windows.antt` for what a window holds, and `specs/Heads.antt` for what its lines begin with. They cite
//! `specs/Pictures.antt` for strips, and `specs/Numbers.antt` for the numbers that stand for statuses, formats and faults. They
//! leave open what follows in the texts, but that each is one line.
#![tactic(auto)]

mod calls;
pub mod laws;
mod line;
mod listing;
mod numbers;
mod place;
mod window;
