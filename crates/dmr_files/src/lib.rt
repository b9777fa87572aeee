//! Files of the system that a program runs on: where they are, how they are opened, and which of them are one.
//!
//! What a program needs of the system is the trait `System`, so that tests can stand in for it. `Place` is where a file is, and
//! `specs/Place.antt` says which place a name means. `Identity` is which file an open file is, by what the system says of it,
//! since names may lie; `specs/Identity.antt` says when what is written to one file would get into another. `open_source` opens a
//! file that is only read, and `open_buffered` an input and an output of a command: the output is emptied once it is known to get
//! into nothing that is read or printed (`specs/Pair.antt`). `open_apart` and `empty_apart` are these steps by themselves, for an
//! output that is opened later. Between a program and its files stand buffers (`buffered_source`, `buffered_sink`, `write_out`),
//! but none in front of an output where more of an input may come (`kept_back`).
//! `is_sent_to_terminal` tells which output octets aren't written to. `StandIns` keep files out of the places of standard streams
//! that are closed. A `Printer` is a sink over standard output that tells why it failed (`specs/Printing.antt`). What a file of
//! the system holds is beyond any contract.
#![tactic(auto)]

mod buffering;
mod host;
mod identity;
mod pair;
mod place;
mod printing;
mod reading;
mod system;

pub use buffering::{buffered_sink, buffered_source, kept_back, write_out};
pub use host::StandIns;
pub use identity::{FileKind, Identity};
pub use pair::{
    BufferedPair, PairFault, empty_apart, is_sent_to_terminal, open_apart, open_buffered,
};
pub use place::Place;
pub use printing::{PrintFault, Printer};
pub use reading::{OpenFault, open_source};
pub use system::{Open, StandardFiles, System};
