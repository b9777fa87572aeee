//! Laws of the log of dmr_log over whole recordings. The crate has no code, and no command stands on it.
//!
//! A log tells of transmissions that have ended: its entries. The laws say that each burst which is repeated is in exactly one
//! entry, and that the entries tell as many bursts as a run over the same file counts. Of well-formed transmissions that were sent,
//! damaged within the limits, each call has its entry, and so has each data try whose header counts its blocks.
//!
//! `specs/WholeLogs.antt` says what the log of a whole recording is, and what its entries are. `specs/CallEntries.antt` has what is
//! due for a call, and `specs/TryEntries.antt` what is due for a data try, in the words of what transmissions mean (dmr_voice).
#![tactic(auto)]

pub mod laws;
