//! The four files of the repeater, octet by octet, over devices that may fail.
//!
//! Each file is a head of eight octets and records behind it, in formats of this project's own. The uplink file
//! holds the bursts that a base station received and the downlink file those that it sends; the outgoing file
//! holds the datagrams that its gateway is to send, and the received file what the gateway received.
//!
//! Contracts see a device as the octets that it has left or holds, where it tells them, and whether it has
//! failed: `specs/Devices.antt`. What a file holds is a list of records, and each stream has a file of `specs/`
//! that says how a record is spelled and what octets show which fault: `Head`, `Uplink`, `Outgoing`, `Downlink`
//! and `Received`. `Silence` has the octets of silent frames, which are the same in both streams of slots. A call
//! says what it did by the octets that it took or put: those of a record, or those that show the fault. `laws` says
//! that a file has one reading, and that a file of records shows no fault.
#![tactic(auto)]

mod device;
mod downlink;
mod fault;
mod head;
pub mod laws;
mod next_slot;
mod outgoing;
mod received;
mod silence;
mod tag;
mod transfer;
mod uplink;

pub use device::{DeviceFault, FromBuffered, FromRead, Sink, Source, ToWrite};
pub use dmr_octets::Octets;
pub use downlink::{SLOT_LIMIT, read_slot, write_slot, write_slots};
pub use fault::RecordFault;
pub use head::{
    DOWNLINK_MAGIC, FileFormat, OUTGOING_MAGIC, RECEIVED_MAGIC, UPLINK_MAGIC, read_any_head,
    read_head, write_head,
};
pub use next_slot::NextSlot;
pub use outgoing::{
    Outgoing, OutgoingRecord, RECORD_LIMIT, read_outgoing, read_outgoing_into, read_whole_outgoing,
    write_outgoing,
};
pub use received::{
    OCTET_LIMIT, RECEIVED_LIMIT, Received, ReceivedKind, read_received, write_received,
};
pub use silence::{Copied, SILENT_RUN};
pub use transfer::put;
pub use uplink::{FRAME_LIMIT, read_frame, read_frame_into, read_uplink_slot, write_uplink_slot};
