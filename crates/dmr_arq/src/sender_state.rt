//! What a sender of packets keeps: the packet in hand with how far its try is, what became of the last one, and the numbers of
//! its destinations.
use crate::serials::{Selection, Serials};
use crate::table::Table;
use dmr_data::{Blocks, Packet, Rate};
use std::marker::Model;

/// Where a packet goes.
#[derive(Clone, Copy, Debug, Default, PartialEq, Eq)]
pub struct Route {
    /// The LLID of the destination, an address of 24 bits.
    pub destination: u32,
    /// The destination is a talk group; else it is a radio.
    pub group: bool,
    /// The service access point, in four bits.
    pub sap: u8,
}

/// How far a try is.
#[derive(Clone, Copy)]
pub enum Phase {
    /// None of its bursts is out.
    Due,
    /// So many of its bursts are out, and not all.
    Sending(u8),
    /// All are out, and so many frames are left for an answer.
    Waiting(u8),
}

/// The packet in hand.
#[derive(Drop)]
pub struct Held {
    /// The packet.
    pub packet: Packet,
    /// Where it goes.
    pub route: Route,
    /// N(S) of a confirmed packet, in three bits.
    pub number: u8,
    /// How many more tries may begin.
    pub tries_left: u8,
    /// The blocks of the try.
    pub selection: Selection,
    /// How far the try is.
    pub phase: Phase,
}

/// What became of a packet.
#[derive(Clone, Copy, Debug, PartialEq, Eq)]
pub enum Outcome {
    /// A confirmed packet was acknowledged.
    Delivered,
    /// The last burst of an unconfirmed packet is out.
    Sent,
    /// No try is left.
    GivenUp,
}

/// All that a sender keeps. The place of the packet in hand is there while there is none, since a packet is large: what is
/// there then is of no meaning.
#[derive(Drop)]
pub(crate) struct Kept {
    pub(crate) llid: u32,
    pub(crate) table: Table,
    pub(crate) hand: Held,
    pub(crate) is_busy: bool,
    pub(crate) outcome: Option<Outcome>,
}

// Clauses see the packet in hand, where there is one.
impl Model for Kept {
    ghost use Rattle.std.specs.Prelude.{if◌then◌else◌, Some, None};
    ghost use Rattle.dmr_arq.specs.SenderRules.{SenderState};

    ghost Value = { SenderState };

    ghost view = { λ k. record {
      llid = k.llid;
      table = k.table;
      held = if k.is_busy then Some k.hand else None;
      outcome = k.outcome;
    } };
}

impl Held {
    /// A place for a packet in hand.
    pub(crate) fn nothing() -> Held {
        Held {
            packet: Packet {
                rate: Rate::Half,
                confirmed: false,
                pad: 0,
                blocks: Blocks::new(),
            },
            route: Route {
                destination: 0,
                group: false,
                sap: 0,
            },
            number: 0,
            tries_left: 0,
            selection: Selection {
                full: false,
                serials: Serials::new(),
            },
            phase: Phase::Due,
        }
    }
}
