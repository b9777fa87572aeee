//! The objects of the two lists.
ghost use Rattle.std.specs.Prelude.{◌≡◌, Some};
ghost use Rattle.dmr_json.specs.Records as spec;
ghost use Rattle.dmr_json.specs.Values.{hex};

use crate::place::PlaceKeys;
use crate::values::Hex;
use dmr_record::{Outgoing, Received, ReceivedKind};
use dmr_recording::Place;
use std::fmt;

/// The object of a record of an outgoing list: how many octets it has, and those that are kept.
#[derive(Drop)]
pub struct OutgoingObject<'a> {
    /// The record.
    pub record: &'a Outgoing,
}

/// The object of a record of a received list.
#[derive(Drop)]
pub struct ReceivedObject<'a> {
    /// The record.
    pub record: Received,
    /// Its octets.
    pub octets: &'a [u8],
}

/// The rate of the blocks of a packet.
fn rate_name(full: bool) -> &'static str
    ensures value { result.now ≡ spec.rate_text full }
{
    if full { "1" } else { "1/2" }
}

/// How a datagram is to be sent: confirmed or not, and at rate 1 or not.
#[derive(Drop)]
struct ModeKeys(bool, bool);

impl fmt::Display for ModeKeys {
    ghost output = { λ mode. Some (spec.mode_keys mode.0 mode.1) };

    #[tactic(auto, unfolding(crate::specs::Records::mode_keys))]
    fn fmt<W: fmt::Write>(&self, f: &mut fmt::Formatter<W>) -> fmt::Result {
        let ModeKeys(confirmed, full) = *self;
        let rate = rate_name(full);
        write!(f, "\"confirmed\":{confirmed},")?;
        write!(f, "\"rate\":\"{rate}\"")
    }
}

/// The octets of a datagram that are kept.
#[derive(Drop)]
struct KeptOctets<'a>(&'a Outgoing);

impl fmt::Display for KeptOctets<'_> {
    ghost output = { λ kept. Some (hex kept.0.now.octets) };

    fn fmt<W: fmt::Write>(&self, f: &mut fmt::Formatter<W>) -> fmt::Result {
        let octets = Hex(self.0.octets.as_slice());
        write!(f, "{octets}")
    }
}

impl fmt::Display for OutgoingObject<'_> {
    ghost output = { λ object. Some (spec.outgoing_object object.record.now) };

    fn fmt<W: fmt::Write>(&self, f: &mut fmt::Formatter<W>) -> fmt::Result {
        let place = Place {
            frame: self.record.frame,
            slot: self.record.slot,
        };
        let place = PlaceKeys(&place);
        let mode = ModeKeys(self.record.confirmed, self.record.full);
        let length = self.record.length;
        let octets = KeptOctets(self.record);
        write!(f, "{{{place},{mode},")?;
        write!(f, "\"length\":{length},\"octets\":{octets}}}")
    }
}

/// What came.
fn kind_name(kind: ReceivedKind) -> &'static str
    ensures value { result.now ≡ spec.kind_text kind }
{
    match kind {
        ReceivedKind::Datagram => "datagram",
        ReceivedKind::ShortData => "short data",
        ReceivedKind::Status => "status",
    }
}

impl fmt::Display for ReceivedObject<'_> {
    ghost output = { λ object. Some (spec.received_object object.record object.octets.now) };

    fn fmt<W: fmt::Write>(&self, f: &mut fmt::Formatter<W>) -> fmt::Result {
        let place = Place {
            frame: self.record.frame,
            slot: self.record.slot,
        };
        let place = PlaceKeys(&place);
        let kind = kind_name(self.record.kind);
        let source = self.record.source;
        let octets = Hex(self.octets);
        write!(f, "{{{place},\"kind\":\"{kind}\",")?;
        write!(f, "\"source\":{source},\"octets\":{octets}}}")
    }
}
