//! Bits as the standard's tables have them: lists, the highest bit first.
//!
//! `Bits<N>` is a list of `N` bits, packed into words, and contracts see it as a `List Bool`. `Reader` and `Writer` go over such a
//! list from its front, a number at a time: contracts see what is left to read, and what is written so far.
//! `write_fields!` and `read_fields!` write and read a whole unit from one list of its fields.
//! The words of all contracts on bits, here and in the crates above, stand in `specs/Bits.antt`; products and
//! multiples of polynomials, on which checks and the Reed-Solomon code stand, in `specs/Polynomials.antt`, and the
//! register of their division in `specs/Register.antt`.
//! The laws of these words are the contracts of the functions in `laws`.
#![tactic(auto)]

mod bits;
mod fields;
pub mod laws;
mod reader;
mod word_octets;
mod word_sums;
mod words;
mod writer;

pub use bits::Bits;
pub use reader::Reader;
pub use writer::Writer;
