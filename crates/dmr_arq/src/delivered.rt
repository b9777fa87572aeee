//! Room for a packet that was completed.
use crate::Joined;
use crate::headers::pad_of;
use dmr_data::{BODY_LIMIT, Header, JoinFault, Octets, join_packet_into};
use std::marker::Model;

/// Room for a completed packet, with one in it or none. It is there while there is none, since a packet is large. What is in it
/// then is of no meaning.
#[derive(Drop)]
pub struct Delivered {
    header: Option<Header>,
    body: Octets<BODY_LIMIT>,
}

// Clauses see the packet, where there is one.
impl Model for Delivered {
    ghost use Rattle.std.specs.Prelude.{Option};
    ghost use Rattle.std.specs.Option.{option_map};
    ghost use Rattle.dmr_arq.specs.declared.received.Joined.{Joined};

    ghost Value = { Option Joined };

    ghost view = { λ d. option_map (λ header. record { header = header; body = d.body }) d.header };
}

impl Delivered {
    ghost use Rattle.std.specs.Prelude.{◌≡◌, ◌≤◌, ◌%◌, List, ℕ, None, Some, Ok, Err, IfErr, IfSome, OnOk, length};
    ghost use Rattle.std.specs.Option.{option_map};
    ghost use Rattle.dmr_data.specs.Join.{joined};
    ghost use Rattle.dmr_arq.specs.ReceiverRules as spec;

    /// Room with no packet in it.
    pub fn new() -> Delivered
        ensures none { result ≡ None }
    {
        Delivered {
            header: None,
            body: Octets::new(),
        }
    }

    /// No packet was completed.
    pub fn clear(&mut self)
        ensures none { self.new ≡ None }
    {
        self.header = None;
    }

    /// The header that opened the packet.
    pub fn header(&self) -> Option<Header>
        ensures header { result ≡ option_map (λ joined. joined.header) self.now }
    {
        let Delivered { header, .. } = self;
        *header
    }

    /// The body of the packet, without pad octets and check. Where there is no packet it is of no meaning.
    pub fn body(&self) -> &[u8]
        ensures body { IfSome self.now (λ joined. result.now ≡ joined.body) }
        ensures most { length result.now ≤ 3044 }
    {
        self.body.as_slice()
    }

    /// The packet.
    pub(crate) fn into_joined(self) -> Option<Joined>
        ensures value { result ≡ self }
    {
        match self.header {
            Some(header) => Some(Joined {
                header,
                body: self.body,
            }),
            None => None,
        }
    }

    /// Holds the packet of these octets, which this header opened, or none where they can't be joined.
    pub(crate) fn join(&mut self, first: Header, octets: &[u8]) -> Result<(), JoinFault>
        requires pairs { length octets.now % 2 ≡ 0 }
        requires most { length octets.now ≤ 3048 }
        ensures joined { OnOk result ((body : List ℕ) × (joined octets.now (spec.pad_of first) ≡ Ok body)
            × (self.new ≡ Some (record { header = first; body = body }))) }
        ensures fault { IfErr result (λ fault. (joined octets.now (spec.pad_of first) ≡ Err fault) × (self.new ≡ None)) }
    {
        match join_packet_into(octets, pad_of(first), &mut self.body) {
            Ok(()) => {
                self.header = Some(first);
                Ok(())
            }
            Err(fault) => {
                self.clear();
                Err(fault)
            }
        }
    }
}
