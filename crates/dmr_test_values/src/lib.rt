//! Octets that tests of several crates hold their answers against: outside vectors, of the standard and of other implementations.
//!
//! Only tests use it.
#![tactic(auto)]

mod blocks;
mod bursts;
mod datagrams;

pub use blocks::{CALL_FIELDS, DATAGRAM_BLOCK, GROUP_CALL, IDLE_BLOCK, TERMINATOR_BLOCK};
pub use bursts::{
    CALL_HEADER, CALL_TERMINATOR, IDLE_BURST, ONE_CSBK, PRINTED_VOICE_BURST, REPEATED_CALL_HEADER,
    REPEATED_CSBK,
};
pub use datagrams::{EMPTY_DATAGRAM, OTHER_TIME_TO_LIVE};
