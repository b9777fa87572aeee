//! What a receiver of packets keeps: the open try, the packet in progress, and the sources that it heard last.
use crate::cells::Cells;
use crate::table::Table;
use dmr_data::{BLOCK_LIMIT, Block, Confirmed, Header, Octets};
use std::marker::Model;

/// What an open try is of.
#[derive(Clone, Copy)]
pub enum Kind {
    /// A packet without confirmation, of which it is the one try.
    Single,
    /// The confirmed packet in progress.
    InProgress(Confirmed),
    /// A confirmed packet that was completed before.
    Repeat(Confirmed),
}

/// An open try.
#[derive(Clone, Copy)]
pub struct Attempt {
    /// How many of its places are to come.
    pub left: u8,
    /// What it is of.
    pub kind: Kind,
}

/// Room for a packet in progress, with one in it or none. It is there while there is none, since a packet is large: what is in
/// it then is of no meaning.
#[derive(Drop)]
pub struct PacketRoom {
    /// The header that opened the packet, where there is one.
    pub(crate) first: Option<Header>,
    /// How many octets the first block has that counted; so its rate is known.
    width: Option<usize>,
    /// Its blocks.
    pub(crate) cells: Cells,
}

// Clauses see the packet in progress, where there is one.
impl Model for PacketRoom {
    ghost use Rattle.std.specs.Prelude.{Option};
    ghost use Rattle.dmr_arq.specs.Progress.{Progress, in_progress};

    ghost Value = { Option Progress };

    ghost view = { λ r. in_progress r.first r.width r.cells };
}

/// All that a receiver keeps.
#[derive(Drop)]
pub struct ReceiverState {
    /// The LLID that it receives for.
    pub llid: u32,
    /// The sources of the last completed packets.
    pub table: Table,
    /// The packet in progress.
    pub packet: PacketRoom,
    /// The open try.
    pub attempt: Option<Attempt>,
}

impl Attempt {
    ghost use Rattle.std.specs.Prelude.{◌≡◌, ◌-◌};

    /// The same with a place fewer to come.
    pub(crate) fn after_place(self) -> Attempt
        ensures value { result ≡ record { left = self.left - 1; kind = self.kind } }
    {
        Attempt {
            left: self.left.saturating_sub(1),
            kind: self.kind,
        }
    }
}

impl PacketRoom {
    ghost use Rattle.std.specs.Prelude.{◌≡◌, ◌≤◌, Some, None, option_map, replicate};
    ghost use Rattle.dmr_arq.specs.ReceiverRules.{is_of, total_of, heard, counted};
    ghost use Rattle.dmr_arq.specs.declared.receiver_state.Kind.TheVariants.{InProgress};

    /// Room with no packet in it.
    pub(crate) fn new() -> PacketRoom
        ensures value { result ≡ None }
    {
        PacketRoom {
            first: None,
            width: None,
            cells: Cells::new(0),
        }
    }

    /// A packet begins, none of its blocks heard.
    pub(crate) fn begin(&mut self, first: Header, blocks: u8)
        requires most { blocks ≤ 127 }
        ensures value { self.new ≡ Some (record { header = first; width = None; cells = replicate blocks None }) }
    {
        self.first = Some(first);
        self.width = None;
        self.cells.restart(usize::from(blocks));
    }

    /// No packet is in progress.
    pub(crate) fn clear(&mut self)
        ensures value { self.new ≡ None }
    {
        self.first = None;
    }

    /// Whether a header is of the packet in progress.
    pub(crate) fn is_of(&self, header: Confirmed) -> bool
        ensures value { result ≡ is_of header self.now }
    {
        match self.first {
            Some(Header::Confirmed(first)) => first.source == header.source
                && first.number == header.number,
            _ => false,
        }
    }

    /// How many blocks the packet in progress has, 0 where there is none.
    pub(crate) fn blocks(&self) -> u8
        ensures value { (h : Confirmed) → total_of (InProgress h) self.now ≡ Some result }
    {
        if self.first.is_some() {
            self.cells.len() as u8
        } else {
            0
        }
    }

    /// A block stood in a place of a try.
    pub(crate) fn hear(&mut self, attempt: Attempt, block: &Block)
        ensures state { self.new ≡ heard attempt.kind attempt.left (Some block.now) self.old }
    {
        match attempt.kind {
            Kind::Single => {
                let serial = self.cells.len().saturating_sub(usize::from(attempt.left));
                self.count(serial, &block.octets);
            }
            Kind::InProgress(_) => {
                let serial = usize::from(block.serial.unwrap_or(0));
                self.count(serial, &block.octets);
            }
            Kind::Repeat(_) => {}
        }
    }

    /// A block counts where it has as many octets as the first that counted, and they are pairs.
    fn count(&mut self, serial: usize, octets: &Octets<BLOCK_LIMIT>)
        ensures state { self.new ≡ option_map (λ p. counted serial octets.now p) self.old }
    {
        let width = octets.as_slice().len();
        if width % 2 == 0 && self.width.unwrap_or(width) == width {
            self.width = Some(width);
            self.cells.put(serial, octets);
        }
    }
}
