//! Where a text is at fault.
use std::fmt;
use thiserror::Error;

/// The first fault that a text shows, or that its device failed. The numbers are this project's own.
#[derive(Clone, Copy, Debug, Drop, PartialEq, Eq, Error)]
pub enum TextFault {
    /// The first line isn't `dmrgate`, what kind of file it is, and `1`.
    #[error("no first line")]
    NoFirstLine = 1,
    /// A line stands behind the one that says how much there is.
    #[error("a line behind the last")]
    LineBehindLast = 2,
    /// The text ends without a line that says how much there is, or has that of another kind of file.
    #[error("no last line")]
    NoLastLine = 3,
    /// A frame, a slot, a source or a count is no decimal number within its range, or the count is another one.
    #[error("wrong number")]
    WrongNumber = 4,
    /// A place or a record is past the limit of the file, or a line is too long.
    #[error("too long")]
    TooLong = 5,
    /// A place doesn't stand behind the one before it.
    #[error("places don't grow")]
    PlacesDontGrow = 6,
    /// A record of an outgoing list doesn't say how it is to be sent.
    #[error("wrong mode")]
    WrongMode = 7,
    /// A record of a received list doesn't say what it is.
    #[error("wrong kind")]
    WrongKind = 8,
    /// A burst or a CACH hasn't its number of hexadecimal digits, or words stand behind it.
    #[error("wrong burst")]
    WrongBurst = 9,
    /// The octets of a record aren't hexadecimal digits in pairs, or words stand behind them.
    #[error("wrong octets")]
    WrongOctets = 10,
    /// The source failed.
    #[error("read failed")]
    Read = 11,
}

/// A fault of a text, and the line that shows it.
#[derive(Clone, Copy, Debug, Drop, PartialEq, Eq)]
pub struct LineFault {
    /// The number of the line, from 1. What the end of the text shows is told in the line behind its last.
    pub line: u64,
    /// The fault.
    pub fault: TextFault,
}

impl fmt::Display for LineFault {
    /// `line 7: wrong burst`
    fn fmt<W: fmt::Write>(&self, f: &mut fmt::Formatter<W>) -> fmt::Result {
        let LineFault { line, fault } = *self;
        write!(f, "line {line}: {fault}")
    }
}

/// Why something that goes through a text stopped before its end.
#[derive(Clone, Copy, Drop, PartialEq, Eq)]
pub(crate) enum Halt {
    /// The text is at fault.
    Text(LineFault),
    /// What was made of a line could not be given.
    Output,
}
