//! Captures of datagrams, from a received list and to an outgoing list.
//!
//! `export_datagrams` writes the datagrams of a received list as a capture, which Wireshark and tcpdump read. `import_datagrams`
//! makes an outgoing list of the datagrams of a capture that are for radios. Both go record by record and packet by packet, so that
//! their memory doesn't grow. What was carried is counted (`ExportedDatagrams`, `ImportedDatagrams`).
//!
//! Contracts say which packets a list has and when they came (`specs/Packets.antt`), and which records a capture has and in which
//! frames (`specs/Sendings.antt`). `specs/Exports.antt` and `specs/Imports.antt` say what was read and written, also up to a fault.
//! They cite the lists of dmr_record and the captures of dmr_capture.
#![tactic(auto)]

mod ends;
mod export;
mod import;
mod progress;
mod wanted;

pub use ends::{ExportEnd, ExportedDatagrams, ImportEnd, ImportedDatagrams};
pub use export::export_datagrams;
pub use import::import_datagrams;
pub use progress::ImportSettings;
pub use wanted::ExportSettings;
