//! A downlink as packets of a hotspot.
//!
//! `export_dmrd` writes the repeated bursts of a downlink, those whose CACH says so, as a duplex repeater sends them to its
//! network: a capture with a packet for each, by the protocol of Homebrew repeaters. A stream is what a log calls a transmission,
//! and all its packets have its addresses. It goes slot by slot in constant memory. It decides on a slot four frames behind it,
//! since a late call has its addresses in its first superframe. What was carried is counted (`ExportedBursts`).
//!
//! Contracts say which bursts are repeated (`specs/Repeats.antt`), of which streams they are (`specs/Streams.antt`), and what
//! octets their packets have (`specs/BurstPackets.antt`). `specs/BurstExports.antt` says what was read and written, also up to a
//! fault. They cite the listing's words of bursts, the log's of transmissions, and the captures of dmr_capture. `laws` has that
//! each repeated burst is one packet, in order and with its octets.
#![tactic(auto)]

mod addresses;
mod burst;
mod checksum;
mod counts;
mod datagram;
mod export;
pub mod laws;
mod packet;
mod settings;
mod state;
mod stream;
mod streams;
mod waiting;

pub use counts::ExportedBursts;
pub use export::export_dmrd;
pub use settings::ExportSettings;
