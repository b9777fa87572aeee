//! Octets in a list of fixed room.
//!
//! An `Octets` stands where it is made, and contracts see it as the list of its octets. What its users put in is said by their own
//! numbers; that of a datagram, which files and packets share, is here.
#![tactic(auto)]

mod octets;

pub use octets::{DATAGRAM_LIMIT, Octets};
