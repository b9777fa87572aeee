//! Records of lists, and what differs of two of them.
ghost use Rattle.std.specs.Prelude.{◌≡◌, ◌≤◌, ℕ, List, length};
ghost use Rattle.dmr_compare.specs.ListReading.{length_of, record_with};
ghost use Rattle.dmr_compare.specs.ListRecords.{differing_octets, has_same_fields};

use dmr_record::{OutgoingRecord, Received};

/// The kind of a list.
#[derive(Clone, Copy, Debug, Drop, PartialEq, Eq)]
pub enum ListKind {
    /// Datagrams that are to be sent.
    Outgoing,
    /// What was received.
    Received,
}

/// A record of a list without its octets.
#[derive(Clone, Copy, Debug, Drop, PartialEq, Eq)]
pub enum RecordHead {
    /// Of an outgoing list.
    Outgoing(OutgoingRecord),
    /// Of a received list.
    Received(Received),
}

impl RecordHead {
    /// How many octets the record carries.
    pub(crate) fn length(self) -> usize
        ensures value { result ≡ length_of self }
        ensures fits { result ≤ 65535 }
    {
        match self {
            RecordHead::Outgoing(record) => usize::from(record.length),
            RecordHead::Received(record) => usize::from(record.length),
        }
    }

    /// Whether all but the octets is the same of two records. How many octets there are follows from these.
    pub(crate) fn has_same_fields(self, other: RecordHead) -> bool
        ensures value { (xs ys : List ℕ) → result ≡ has_same_fields (record_with self xs) (record_with other ys) }
    {
        match (self, other) {
            (RecordHead::Outgoing(first), RecordHead::Outgoing(second)) => {
                first.frame == second.frame
                    && first.slot == second.slot
                    && first.confirmed == second.confirmed
                    && first.full == second.full
            }
            (RecordHead::Received(first), RecordHead::Received(second)) => {
                first.frame == second.frame
                    && first.slot == second.slot
                    && first.kind == second.kind
                    && first.source == second.source
            }
            _ => false,
        }
    }
}

/// How many octets differ of two lists: those that differ in one place, and those that one has behind the end of the other.
pub(crate) fn differing_octets(first: &[u8], second: &[u8]) -> usize
    requires first { length first.now ≤ 65535 }
    requires second { length second.now ≤ 65535 }
    ensures value { result ≡ differing_octets first.now second.now }
{
    let mut count = 0;
    for (one, other) in first.iter().zip(second) {
        if one != other {
            count += 1;
        }
    }
    count + first.len().abs_diff(second.len())
}
