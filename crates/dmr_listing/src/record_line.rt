//! The lines of the lists: of what is to be sent, and of what was received.
ghost use Rattle.std.specs.Prelude.{Some};
ghost use Rattle.dmr_listing.specs.DatagramTexts.{received_text, status_text};

use crate::counted::Counted;
use crate::datagram::DatagramText;
use crate::digits::Digits;
use byteorder::{BigEndian, ByteOrder};
use dmr_record::{Outgoing, Received, ReceivedKind};
use dmr_recording::Place;
use std::fmt;

/// The line of a record of an outgoing list.
#[derive(Drop)]
pub struct OutgoingLine<'a> {
    /// The record.
    pub record: &'a Outgoing,
}

/// The line of a record of a received list.
#[derive(Clone, Copy, Drop)]
pub struct ReceivedLine<'a> {
    /// The record.
    pub record: Received,
    /// Its octets.
    pub octets: &'a [u8],
}

/// What a received record is, printed as how many octets it has, and what they say.
#[derive(Clone, Copy, Drop)]
pub struct ReceivedText<'a> {
    /// What its octets are.
    pub kind: ReceivedKind,
    /// Its octets.
    pub octets: &'a [u8],
}

/// How a packet is sent.
fn mode_name(confirmed: bool) -> &'static str {
    if confirmed {
        "confirmed"
    } else {
        "unconfirmed"
    }
}

/// The rate of its blocks.
fn rate_name(full: bool) -> &'static str {
    if full { "1" } else { "1/2" }
}

impl fmt::Display for OutgoingLine<'_> {
    /// Time, frame and slot, how it is sent, and what it is.
    fn fmt<W: fmt::Write>(&self, f: &mut fmt::Formatter<W>) -> fmt::Result {
        let place = Place {
            frame: self.record.frame,
            slot: self.record.slot,
        };
        let mode = mode_name(self.record.confirmed);
        let rate = rate_name(self.record.full);
        let count = Counted(usize::from(self.record.length), "octet");
        let octets = self.record.octets.as_slice();
        write!(f, "{place}  {mode}, rate {rate}, {count}: ")?;
        // Of one that is too long the front alone is kept, whatever that looks like.
        if octets.len() < usize::from(self.record.length) {
            return write!(f, "{}", Digits(octets));
        }
        write!(f, "{}", DatagramText(octets))
    }
}

/// The octets of a status, printed as its ports and its number. Octets of any other length are printed in digits.
#[derive(Drop)]
struct StatusText<'a>(&'a [u8]);

impl fmt::Display for StatusText<'_> {
    ghost output = { λ text. Some (status_text text.0.now) };

    fn fmt<W: fmt::Write>(&self, f: &mut fmt::Formatter<W>) -> fmt::Result {
        match self.0 {
            [source, destination, high, low] => {
                let status = BigEndian::read_u16(&[*high, *low]);
                write!(f, "port {source} -> {destination}, status {status}")
            }
            octets => write!(f, "{}", Digits(octets)),
        }
    }
}

impl fmt::Display for ReceivedText<'_> {
    ghost output = { λ text. Some (received_text text.kind text.octets.now) };

    fn fmt<W: fmt::Write>(&self, f: &mut fmt::Formatter<W>) -> fmt::Result {
        let count = Counted(self.octets.len(), "octet");
        write!(f, "{count}: ")?;
        match self.kind {
            ReceivedKind::Datagram => write!(f, "{}", DatagramText(self.octets)),
            ReceivedKind::ShortData => write!(f, "{}", Digits(self.octets)),
            ReceivedKind::Status => write!(f, "{}", StatusText(self.octets)),
        }
    }
}

/// What came.
fn kind_name(kind: ReceivedKind) -> &'static str {
    match kind {
        ReceivedKind::Datagram => "datagram",
        ReceivedKind::ShortData => "short data",
        ReceivedKind::Status => "status",
    }
}

impl fmt::Display for ReceivedLine<'_> {
    /// Time, frame and slot, from whom it came, and what it is.
    fn fmt<W: fmt::Write>(&self, f: &mut fmt::Formatter<W>) -> fmt::Result {
        let place = Place {
            frame: self.record.frame,
            slot: self.record.slot,
        };
        let kind = kind_name(self.record.kind);
        let text = ReceivedText {
            kind: self.record.kind,
            octets: self.octets,
        };
        write!(f, "{place}  {kind} from {}, {text}", self.record.source)
    }
}
