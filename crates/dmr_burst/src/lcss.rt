//! The link control start and stop: which fragment of a link control, embedded or short, stands in a burst or a CACH,
//! in two bits. ETSI TS 102 361-1, clause 9.3.3.

/// The only fragment, as where no link control is carried.
pub const SINGLE_FRAGMENT: u8 = 0;

pub const FIRST_FRAGMENT: u8 = 1;

pub const LAST_FRAGMENT: u8 = 2;

pub const CONTINUATION_FRAGMENT: u8 = 3;
