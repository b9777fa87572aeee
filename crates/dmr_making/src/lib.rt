//! What the transmissions of a script send, slot by slot, and recordings of them.
//!
//! A `SlotTransmission` is a transmission as a script says it (dmr_script), with the packet that it may send again. `slot`
//! answers what goes out in one of its slots: nothing, or the 33 octets of a burst of a mobile station, which are the exact
//! encoding of what it says. `write_recording` writes a recording in which such transmissions are placed.
//!
//! Contracts see the statements as they were read. `SendsSaid` of `specs/Sends.antt` says what a transmission sends: which
//! transmission of a channel it is (dmr_voice), and what each of its slots sends (dmr_hearing). `Calls.antt`, `Packets.antt`,
//! `Tries.antt` and `Controls.antt` have the parts of that, and `Information.antt` what data bursts hold. `IsMade` of `Made.antt`
//! is what goes out for a slot. `IsLineOfSlot` of `Playing.antt` is what a slot sends of the transmissions that are placed in it,
//! and `WritesRecording` what is written of both. `laws` ties these to what a channel hears: what goes out is a recording of what
//! is sent, and what is sent is what the transmission says (`Seen.antt`).
#![tactic(auto)]

mod bursts;
mod calls;
mod controls;
pub mod laws;
mod packets;
mod playing;
mod recording;
mod sending;
mod tries;

pub use playing::{PlacedTransmission, packet_in};
pub use recording::{BurstsMade, write_recording};
pub use sending::SlotTransmission;
