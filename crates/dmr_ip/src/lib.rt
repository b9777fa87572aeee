//! UDP datagrams over IPv4, and the header compression by which DMR packets carry them.
//!
//! `Datagram` is a list of octets that is a UDP datagram over IPv4, by RFC 791 and RFC 768, and
//! contracts see it as that list. What the octets have to be, and which fault comes first, stands in
//! `specs/Datagram.antt`, the sums in one's complement in `specs/Checksum.antt`. `compress` and
//! `expand` go between a datagram and its compressed form, ETSI TS 102 361-3: `specs/Contents.antt`
//! says which datagram is built of the contents that a form carries, and `specs/Spelling.antt` which
//! octets spell it. The laws of these words are the contracts of the functions in `laws`.
#![tactic(auto)]

mod checksum;
mod compression;
mod datagram;
mod fault;
mod fields;
mod headers;
mod identifiers;
pub mod laws;
mod message;

pub use compression::{compress, compress_octets, expand};
pub use datagram::Datagram;
pub use fault::{ExpandFault, IpFault};
pub use identifiers::FORM_LIMIT;
