//! The data types of data bursts, each below 16. Those from 12 on are reserved: they have no names, and keep their
//! four bits wherever a slot type is read and sent. ETSI TS 102 361-1, clause 9.3.6.

/// The privacy indicator header. The PI of an EMB is another one, the pre-emption and power control indicator.
pub const PI_HEADER: u8 = 0;

pub const VOICE_LC_HEADER: u8 = 1;

pub const TERMINATOR_WITH_LC: u8 = 2;

/// A control signalling block.
pub const CSBK: u8 = 3;

/// The first burst of a multi block control.
pub const MBC_HEADER: u8 = 4;

/// Each burst behind the first of a multi block control.
pub const MBC_CONTINUATION: u8 = 5;

pub const DATA_HEADER: u8 = 6;

pub const RATE_HALF_DATA: u8 = 7;

/// In the trellis code.
pub const RATE_THREE_QUARTERS_DATA: u8 = 8;

pub const IDLE: u8 = 9;

/// In no code.
pub const RATE_ONE_DATA: u8 = 10;

pub const UNIFIED_SINGLE_BLOCK_DATA: u8 = 11;
