//! Room for what a packet gave.
use crate::packets::{COMPRESSED, IP};
use crate::received::Received;
use dmr_arq::Delivered;
use dmr_data::{Header, Octets};
use dmr_ip::expand;
use dmr_octets::DATAGRAM_LIMIT;
use dmr_record::ReceivedKind;
use std::marker::Model;
use std::mem;

/// Room for what a packet gave, with that in it or nothing. It is there while there is nothing, since it is large. What is in it
/// then is of no meaning.
#[derive(Drop)]
pub struct ReceivedRoom {
    is_there: bool,
    received: Received,
}

// Clauses see what is there, if anything.
impl Model for ReceivedRoom {
    ghost use Rattle.std.specs.Prelude.{IsTrue, Option, Some, None, if◌then◌else◌};
    ghost use Rattle.dmr_gateway.specs.Received.{IsFitReceived};
    ghost use Rattle.dmr_gateway.specs.declared.received.Received.{Received};

    ghost Value = { Option Received };

    ghost view = { λ r. if r.is_there then Some r.received else None };

    ghost invariant = { λ r. IsTrue r.is_there → IsFitReceived r.received };
}

impl ReceivedRoom {
    ghost use Rattle.std.specs.Prelude.{◌≡◌, ◌≤◌, ◌<◌, ◌^◌, ◌↔◌, IfSome, IsTrue, None, Some, length, option_copied};
    ghost use Rattle.dmr_data.specs.Header.{IsFitHeader};
    ghost use Rattle.dmr_gateway.specs.Received as spec;
    ghost use Rattle.dmr_gateway.specs.Received.{IsSlot, IsFitReceived};

    /// Room with nothing in it.
    pub(crate) fn new() -> ReceivedRoom
        ensures nothing { result ≡ None }
    {
        ReceivedRoom {
            is_there: false,
            received: nothing(),
        }
    }

    /// Whether there is nothing in it.
    pub(crate) fn is_empty(&self) -> bool
        ensures value { IsTrue result ↔ (self.now ≡ None) }
    {
        !self.is_there
    }

    /// What is there.
    pub(crate) fn get(&self) -> Option<&Received>
        ensures value { option_copied result ≡ self.now }
        ensures fit { IfSome (option_copied result) IsFitReceived }
    {
        if self.is_there {
            Some(&self.received)
        } else {
            None
        }
    }

    /// What is there goes.
    pub(crate) fn clear(&mut self)
        ensures nothing { self.new ≡ None }
    {
        self.is_there = false;
    }

    /// What is there is taken.
    pub(crate) fn take(&mut self) -> Option<Received>
        ensures value { result ≡ self.old }
        ensures nothing { self.new ≡ None }
        ensures fit { IfSome result IsFitReceived }
    {
        if !self.is_there {
            return None;
        }
        self.is_there = false;
        Some(mem::replace(&mut self.received, nothing()))
    }

    /// Holds what these octets give.
    fn put(&mut self, slot: u8, kind: ReceivedKind, source: u32, octets: &[u8])
        requires slot { IsSlot slot }
        requires source { source < 2 ^ 24 }
        requires octets { length octets.now ≤ 3044 }
        ensures value { self.new ≡ Some (record { slot = slot; kind = kind; source = source; octets = octets.now }) }
    {
        self.is_there = true;
        self.received.slot = slot;
        self.received.kind = kind;
        self.received.source = source;
        self.received.octets.clear();
        self.received.octets.extend_from_slice(octets);
    }

    /// Holds a body that is a datagram as it is.
    fn put_datagram(&mut self, slot: u8, source: u32, body: &[u8])
        requires slot { IsSlot slot }
        requires source { source < 2 ^ 24 }
        ensures value { self.new ≡ spec.plain_datagram slot source body.now }
    {
        if !body.is_empty() && body.len() <= DATAGRAM_LIMIT {
            self.put(slot, ReceivedKind::Datagram, source, body);
        } else {
            self.clear();
        }
    }

    /// Holds the datagram that a body is the compressed form of.
    fn put_expanded(&mut self, llid: u32, slot: u8, source: u32, body: &[u8])
        requires llid { llid < 2 ^ 24 }
        requires slot { IsSlot slot }
        requires source { source < 2 ^ 24 }
        ensures value { self.new ≡ spec.expanded slot source (spec.expansion body.now source llid) }
    {
        match expand(body, source, llid, false) {
            Ok(datagram) => self.put(slot, ReceivedKind::Datagram, source, datagram.octets()),
            Err(_) => self.clear(),
        }
    }

    /// Holds what the packet of a service access point gives.
    fn put_of_service(&mut self, llid: u32, slot: u8, service: u8, source: u32, body: &[u8])
        requires llid { llid < 2 ^ 24 }
        requires slot { IsSlot slot }
        requires source { source < 2 ^ 24 }
        ensures value { self.new ≡ spec.service_gives llid slot service source body.now }
    {
        if service == IP {
            self.put_datagram(slot, source, body);
        } else if service == COMPRESSED {
            self.put_expanded(llid, slot, source, body);
        } else {
            self.clear();
        }
    }

    /// Holds what a completed packet gives, in a slot of the gateway with this LLID.
    pub(crate) fn put_packet(&mut self, llid: u32, slot: u8, delivered: &Delivered)
        requires llid { llid < 2 ^ 24 }
        requires slot { IsSlot slot }
        requires header { IfSome delivered.now (λ j. IsFitHeader j.header) }
        ensures value { self.new ≡ spec.record_given llid slot delivered.now }
    {
        match delivered.header() {
            None => self.clear(),
            Some(Header::Unconfirmed(header)) => {
                self.put_of_service(llid, slot, header.sap, header.source, delivered.body());
            }
            Some(Header::Confirmed(header)) => {
                self.put_of_service(llid, slot, header.sap, header.source, delivered.body());
            }
            Some(Header::ShortData(header)) => {
                self.put(
                    slot,
                    ReceivedKind::ShortData,
                    header.source,
                    delivered.body(),
                );
            }
            Some(Header::Status(_)) | Some(Header::Response(_)) => self.clear(),
        }
    }
}

/// What stands in a room with nothing in it.
fn nothing() -> Received {
    Received {
        slot: 1,
        kind: ReceivedKind::Datagram,
        source: 0,
        octets: Octets::new(),
    }
}
