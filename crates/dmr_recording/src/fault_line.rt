//! Where a file is at fault.
use crate::place::Place;
use dmr_record::RecordFault;
use std::fmt;

/// A fault of a file, and the record that shows it.
#[derive(Clone, Copy, PartialEq, Eq, Drop)]
pub struct FaultLine {
    /// The fault.
    pub fault: RecordFault,
    /// Where the record begins, in octets behind the begin of the file.
    pub octet: u64,
    /// The slot whose record it is, in a recording behind its head.
    pub place: Option<Place>,
}

impl fmt::Display for FaultLine {
    fn fmt<W: fmt::Write>(&self, f: &mut fmt::Formatter<W>) -> fmt::Result {
        let FaultLine {
            fault,
            octet,
            place,
        } = *self;
        write!(f, "{fault} at octet {octet}")?;
        match place {
            Some(Place { frame, slot }) => write!(f, ", frame {frame}, slot {slot}"),
            None => Ok(()),
        }
    }
}
