//! A module a crate, and what they run over.
mod command;
mod files;
mod report;
mod stand_in;
mod watch;

use dmr_record::ToWrite;
use std::fmt::Debug;
use std::process::Abort;

/// That both are the same, of what is told where they aren't.
fn are_same<T: PartialEq + Debug>(rt: &impl Abort, what: &str, got: &T, expected: &T) {
    assert_eq!(rt; got, expected, "{what}");
}

/// A sink has taken this text.
fn has_taken(rt: &impl Abort, sink: ToWrite<Vec<u8>>, text: &str) {
    let octets = sink.into_inner();
    assert!(rt; octets.as_slice() == text.as_bytes(), "{text}");
}
