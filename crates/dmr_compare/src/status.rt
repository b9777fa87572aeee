//! Exit statuses of a comparison, those of `cmp` and `diff`.

/// The files are the same, as far as they are compared.
pub const SAME: u8 = 0;

/// They differ.
pub const DIFFERENT: u8 = 1;

/// A file, a stream or the memory was at fault, or the files are of two formats, or lists for which a shift is given.
pub const TROUBLE: u8 = 2;
