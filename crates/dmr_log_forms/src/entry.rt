//! What has a line in a log.
ghost use Rattle.std.specs.Prelude.{◌≡◌};
ghost use Rattle.dmr_log_forms.specs.Entries.{columns_of_entry};

use crate::columns::EntryColumns;
use crate::details::{BlockDetails, HeaderDetails};
use dmr_gateway::Received;
use dmr_listing::ReceivedText;
use dmr_log::{Ended, Subject};
use dmr_recording::Place;
use std::fmt;

/// What has a line in a log.
#[derive(Clone, Copy, Drop)]
pub enum LogEntry<'a> {
    /// A transmission that has ended.
    Transmission {
        /// The slot in which it is.
        slot: u8,
        /// The transmission.
        ended: &'a Ended,
    },
    /// A record that a gateway has received.
    Received {
        /// The place of its last burst.
        place: Place,
        /// The gateway's address.
        address: u32,
        /// The record.
        record: &'a Received,
    },
}

impl LogEntry<'_> {
    /// What its columns hold.
    pub fn columns(&self) -> EntryColumns
        ensures value { result ≡ columns_of_entry self.now }
    {
        match *self {
            LogEntry::Transmission { slot, ended } => EntryColumns::of_ended(slot, ended),
            LogEntry::Received {
                place,
                address,
                record,
            } => EntryColumns::of_received(place, record.kind, record.source, address),
        }
    }
}

/// What tells an entry apart from others, beside what its columns hold.
#[derive(Clone, Copy, Drop)]
pub(crate) struct EntryDetails<'a>(pub(crate) &'a LogEntry<'a>);

impl fmt::Display for EntryDetails<'_> {
    fn fmt<W: fmt::Write>(&self, f: &mut fmt::Formatter<W>) -> fmt::Result {
        match self.0 {
            LogEntry::Transmission { ended, .. } => match &ended.transmission.subject {
                Subject::Call(_) => Ok(()),
                Subject::Packet(packet) => write!(f, "{}", HeaderDetails(&packet.head)),
                Subject::Controls(kind) => write!(f, "{}", BlockDetails(*kind)),
            },
            LogEntry::Received { record, .. } => {
                let text = ReceivedText {
                    kind: record.kind,
                    octets: record.octets.as_slice(),
                };
                write!(f, "{text}")
            }
        }
    }
}
