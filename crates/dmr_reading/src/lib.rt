//! What one burst is read as, by itself: with no word of the bursts before it and behind it.
//!
//! `read_burst` reads a burst by its sync, and where it has none by its embedded signalling (EMB). `Reading` is what it is read as,
//! with the fields that can be read, and prints them as words. `Information` is what a data burst holds. Contracts cite
//! `specs/Reading.antt`.
#![tactic(auto)]

mod reading;

pub use reading::{Information, Reading, read_burst};
