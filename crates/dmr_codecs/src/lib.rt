//! The codes and checks of DMR on numbers and octets, for whoever writes a decoder in C, or in what calls C.
//! `share/c/dmrgate.h` declares what is exported here.
//!
//! Each function is flat: it takes numbers and fixed arrays, takes no memory, and does what the function of the crate below does
//! that it calls. Its clauses say so by the same definitions. A word of a code crosses as the number that its bits spell, the first
//! of them the highest. What the numbers stand for that tell of a burst is in `specs/Told.antt`.
#![tactic(auto)]

mod block_codes;
mod bursts;
mod check_sums;
mod link_control;
mod numbers;
mod product_code;
mod reading;
mod reed_solomon;
mod values;
