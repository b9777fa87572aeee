//! The octet that a record begins with.

/// Begins a silent slot.
pub const SILENCE: u8 = 0;

/// Begins a slot with a burst.
pub const BURST: u8 = 1;

/// Begins a record of the outgoing file.
pub const OUTGOING: u8 = 2;

/// Begins a record of the received file.
pub const RECEIVED: u8 = 3;
