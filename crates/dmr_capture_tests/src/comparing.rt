//! What all files of tests read digits and compare by.
use std::fmt::Debug;
use std::process::Abort;

/// That both are the same, of what is told where they aren't.
pub(crate) fn are_same<T: PartialEq + Debug>(rt: &impl Abort, what: &str, got: &T, expected: &T) {
    assert_eq!(rt; got, expected, "{what}");
}

/// The octets of these digits.
pub(crate) fn octets_of(rt: &(impl Abort + AllocGlobal), digits: &str) -> Vec<u8> {
    hex::decode(rt.alloc(), digits.as_bytes()).expect(rt, "these are digits")
}

/// These octets are those of the digits.
pub(crate) fn expect_octets(rt: &(impl Abort + AllocGlobal), octets: &[u8], digits: &str) {
    let wanted = octets_of(rt, digits);
    assert!(rt; octets == wanted.as_slice());
}
