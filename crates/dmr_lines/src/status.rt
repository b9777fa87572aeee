//! Exit statuses.

/// What was asked for was done.
pub const SUCCESS: u8 = 0;

/// A file, a stream or the memory was at fault, or what was to be printed could not be.
pub const FAILURE: u8 = 1;

/// The command line was refused, or could not be read.
pub const USAGE: u8 = 2;
