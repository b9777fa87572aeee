//! The Reed-Solomon code (12,9) over octets, which protects a full link control message.
//!
//! Octets are the elements of a field of 256. Contracts see an `Octet` as its number, its sums and products are
//! those of `specs/Field.antt`, and what a word of the code is stands in `specs/Word.antt`: a multiple of the
//! generator, in the sense of `dmr_bits`. The laws of these words are the contracts of the functions in `laws`.
#![tactic(auto)]

mod code;
mod generator;
pub mod laws;
mod octet;

pub use code::{rs_correct, rs_parity};
pub use octet::Octet;
