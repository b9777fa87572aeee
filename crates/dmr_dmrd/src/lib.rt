//! Packets of hotspots, and their places in a recording.
//!
//! Hotspots and repeaters carry bursts to their network and back, each in a packet of UDP: the protocol of Homebrew repeaters,
//! whose payloads begin with `DMRD`. `import_dmrd` makes a recording of a capture of such packets. It takes those of one repeater
//! that go to a port, or come from one. Each slot is placed alone, by the streams, the numbers and the times of its packets, so
//! that what was lost or never sent is silence. What it did is counted (`ImportedBursts`).
//!
//! Contracts say which packets are taken (`specs/Payloads.antt`, `specs/Taking.antt`), in which frames they are placed
//! (`specs/Placing.antt`), and what a slot holds of them (`specs/Lines.antt`). `specs/Holding.antt` goes packet by packet, and
//! `specs/Imports.antt` says what was read and written, also up to a fault. They cite the captures of dmr_capture and the
//! recordings of dmr_record. `laws` has that a burst stands exactly where its packet is placed (`specs/Standing.antt`), and that
//! this is the frame in which it was sent where delays differ little (`specs/Sending.antt`).
#![tactic(auto)]

mod counts;
mod held;
mod hold;
mod import;
pub mod laws;
mod packet;
mod placing;
mod recording;
mod sync;
mod taking;

pub use counts::{ImportEnd, ImportedBursts};
pub use hold::ImportSettings;
pub use import::import_dmrd;
pub use taking::Ports;
