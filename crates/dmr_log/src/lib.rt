//! What a repeater repeats of a recording, transmission by transmission.
//!
//! A `Log` takes the uplink frame by frame. For each slot it has a line of dmr_slot, which decides what is repeated, and a view of
//! dmr_listing, which tells how many bits are wrong. From both comes what the frame repeats (`Repeated`), and with that the open
//! transmission goes on or ends (`Transmission`, `Ended`). A `Log` may have a gateway too. Then it gives the records that the
//! gateway receives. `log_recording` goes through a whole recording, and gives what ends in each frame to whoever takes it
//! (`Taker` of dmr_listing), in constant memory.
//!
//! Contracts cite `specs/Repeated.antt` for what a frame repeats, and `specs/Transmissions.antt` for which frames are one
//! transmission and what is told of it. `specs/SlotTracks.antt` has what a slot remembers, and `specs/LogRules.antt` both slots,
//! the gateway and whole recordings. That each frame which repeats is in exactly one transmission is a law of `laws`. What the
//! texts are is left open by contracts, and is tested.
#![tactic(auto)]

mod arrived;
mod checks;
mod ear;
pub mod laws;
mod log;
mod recording_log;
mod repeated;
mod slot_log;
mod transmission;

pub use arrived::Came;
pub use checks::Checks;
pub use ear::FrameReceived;
pub use log::{FrameTold, Log, LogCounts};
pub use recording_log::{LogSummary, log_recording};
pub use repeated::{ControlKind, PacketHead, Repeated, data_told};
pub use slot_log::SlotTold;
pub use transmission::{
    Call, CallStage, Ended, EndedBy, Packet, Span, Subject, Transmission, go_on,
};
