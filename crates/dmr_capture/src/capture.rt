//! A capture, packet by packet.
ghost use Rattle.std.specs.Prelude.{◌≡◌, ◌≢◌, ◌+◌, ◌^◌, ◌<◌, ◌≤◌, ◌++◌, ◌∷◌, [], List, ℕ, length, take, false, true};
ghost use Rattle.std.specs.Prelude.{IfSome, IfNone, IfOk, IfErr, OnOk, OnErr};
ghost use Rattle.std.specs.Io.KnownBytes.{Consumes, IsAtEnd};
ghost use Rattle.dmr_capture.specs.Cuts.{is_device_cut};
ghost use Rattle.dmr_capture.specs.CutFaults.{cut_head_fault, cut_packet_fault};
ghost use Rattle.dmr_capture.specs.Reading.{is_of_capture_end, is_capture_read};

use crate::block::{
    Block, BlockHead, INTERFACE, PACKET, SECTION, cut_block, head_length, is_length, read_rest,
    section_order,
};
use crate::fault::CaptureFault;
use crate::interface::{Interface, counted_time, resolution_said};
use crate::link::Link;
use crate::order::Order;
use crate::packet::{PACKET_LIMIT, Packet};
use crate::pcap::{Fraction, Magic, PCAP_HEAD, link_said, magic_of, time_in};
use crate::transfer::{Cut, fill, fill_whole};
use arrayvec::ArrayVec;
use dmr_record::Source;
use std::marker::Model;

/// How many interfaces a section has at most.
const INTERFACE_LIMIT: usize = 256;

/// How many octets may stand in front of a record or a block.
const OCTET_LIMIT: u64 = 1 << 62;

/// How many octets the head of a record of a pcap has.
const RECORD_HEAD: usize = 16;

/// Which capture it is.
#[derive(Clone, Copy, Debug, Drop, PartialEq, Eq)]
pub enum Format {
    /// A pcap, of packets of this link, whose times count in this fraction.
    Pcap { link: Link, fraction: Fraction },
    /// A pcapng.
    Pcapng,
}

/// What a piece of a capture is.
#[derive(Clone, Copy, Debug, Drop, PartialEq, Eq)]
pub(crate) enum Found {
    /// There is none: the capture is at its end.
    End,
    /// A packet, whose octets stand in front of the room.
    Captured(Packet),
    /// A block that holds no packet.
    Passed,
}

/// Reads a capture, packet by packet. It is for one source, which is handed in at each call.
#[derive(Drop)]
pub struct Capture {
    format: Format,
    order: Order,
    interfaces: ArrayVec<Interface, INTERFACE_LIMIT>,
    octet: u64,
}

// Clauses see what it remembers of its capture.
impl Model for Capture {
    ghost use Rattle.std.specs.Prelude.{◌≤◌, ◌+◌, ◌^◌};
    ghost use Rattle.dmr_capture.specs.State.{CaptureState, octet_limit};

    ghost Value = { CaptureState };

    ghost view = { λ c. record { format = c.format; order = c.order; interfaces = c.interfaces.items; octet = c.octet } };

    ghost invariant = { λ c. c.octet ≤ octet_limit + 2 ^ 33 };
}

/// The fault of a pcap whose record is cut, or in which the source failed.
fn cut_packet(cut: Cut, octet: u64) -> CaptureFault
    ensures fault { result ≡ cut_packet_fault cut octet }
    ensures end { is_of_capture_end result ≡ true → cut ≡ Cut.End }
    ensures device { is_capture_read result ≡ is_device_cut cut }
{
    match cut {
        Cut::End => CaptureFault::CutPacket { octet },
        Cut::Device => CaptureFault::Read { octet },
    }
}

/// The fault of a capture whose head is cut, or in which the source failed.
fn cut_head(cut: Cut) -> CaptureFault
    ensures fault { result ≡ cut_head_fault cut }
    ensures end { is_of_capture_end result ≡ true → cut ≡ Cut.End }
    ensures device { is_capture_read result ≡ is_device_cut cut }
{
    match cut {
        Cut::End => CaptureFault::CutHead,
        Cut::Device => CaptureFault::Read { octet: 0 },
    }
}

impl Capture {
    ghost use Rattle.dmr_capture.specs.Blocks.{
      HasHeadLength,
      IsBehindBlock,
      IsCaptureBlock,
      IsBlockHead,
      IsNumbered,
      ShowsFaultInBlock,
      ShowsBlockHeadFault,
    };
    ghost use Rattle.dmr_capture.specs.Blocks.{packets_in, section_type};
    ghost use Rattle.dmr_capture.specs.Found.{IfEnd, IfOnwards, IfPassed, IsFound, IsOfText, IsWithinRoom, found_packets};
    ghost use Rattle.dmr_capture.specs.Orders.{ordered_number};
    ghost use Rattle.dmr_capture.specs.Reading.{AreRead, BeginsCapture, IsPiece, ShowsBeginFault, ShowsFault, ShowsRecordFault};
    ghost use Rattle.dmr_capture.specs.Reading.{is_of_capture_end, is_capture_read};
    ghost use Rattle.dmr_capture.specs.Records.{HasPcapMagic, IsRecord};
    ghost use Rattle.dmr_capture.specs.State.{fresh_pcapng, octet_limit, captured_packet};

    /// In front of a capture of this format.
    fn at(format: Format, order: Order, octet: u64) -> Capture
        requires near { octet ≤ 24 }
        ensures value { result ≡ record { format = format; order = order; interfaces = []; octet = octet } }
    {
        Capture {
            format,
            order,
            interfaces: ArrayVec::new(),
            octet,
        }
    }

    /// Reads the rest of the head of a pcap, whose first four octets stand in the buffer.
    fn begin_pcap<S: Source>(
        source: &mut S,
        head: &mut [u8],
        order: Order,
        fraction: Fraction,
    ) -> Result<Capture, CaptureFault>
        requires well { S.has_failed source.old ≡ false }
        requires room { length head.old ≡ 28 }
        requires magic { HasPcapMagic (take 4 head.old) order fraction }
        ensures head { IfOk result (λ capture. (more : List ℕ) × Consumes (S.left source.old) (S.left source.new) more
            × BeginsCapture (take 4 head.old ++ more) capture) }
        ensures fault { IfErr result (λ e. (more : List ℕ) × Consumes (S.left source.old) (S.left source.new) more
            × ShowsBeginFault e (take 4 head.old ++ more)) }
        ensures well { OnOk result (S.has_failed source.new ≡ false) }
        ensures cut { IfErr result (λ e. is_of_capture_end e ≡ true → IsAtEnd (S.left source.new)) }
        ensures device { IfErr result (λ e. S.has_failed source.new ≡ is_capture_read e) }
    {
        if let Err(cut) = fill_whole(source, head, 4, PCAP_HEAD) {
            return Err(cut_head(cut));
        }
        let link = link_said(head, order, fraction)?;
        let format = Format::Pcap { link, fraction };
        Ok(Capture::at(format, order, 24))
    }

    /// Reads the rest of the first section of a pcapng, whose first four octets stand in the buffer.
    fn begin_pcapng<S: Source>(source: &mut S, head: &mut [u8]) -> Result<Capture, CaptureFault>
        requires well { S.has_failed source.old ≡ false }
        requires room { length head.old ≡ 28 }
        requires magic { take 4 head.old ≡ section_type }
        ensures head { IfOk result (λ capture. (more : List ℕ) × Consumes (S.left source.old) (S.left source.new) more
            × IsCaptureBlock fresh_pcapng (take 4 head.old ++ more) capture []) }
        ensures fault { IfErr result (λ e. (more : List ℕ) × Consumes (S.left source.old) (S.left source.new) more
            × ShowsFaultInBlock fresh_pcapng e (take 4 head.old ++ more)) }
        ensures well { OnOk result (S.has_failed source.new ≡ false) }
        ensures cut { IfErr result (λ e. is_of_capture_end e ≡ true → IsAtEnd (S.left source.new)) }
        ensures device { IfErr result (λ e. S.has_failed source.new ≡ is_capture_read e) }
    {
        let mut capture = Capture::at(Format::Pcapng, Order::Big, 0);
        if let Err(cut) = fill_whole(source, head, 4, 8) {
            return Err(cut_block(cut, 0));
        }
        let block = match capture.read_head(source, head) {
            Ok(block) => block,
            Err(fault) => return Err(fault),
        };
        if let Err(fault) = read_rest(source, 0, block, &mut []) {
            return Err(fault);
        }
        capture.pass(block, &[]);
        Ok(capture)
    }

    /// Reads the begin of a capture: the head of a pcap, or the first section of a pcapng.
    pub fn begin<S: Source>(source: &mut S) -> Result<Capture, CaptureFault>
        requires well { S.has_failed source.old ≡ false }
        ensures head { IfOk result (λ capture. (taken : List ℕ) × Consumes (S.left source.old) (S.left source.new) taken
            × BeginsCapture taken capture) }
        ensures well { OnOk result (S.has_failed source.new ≡ false) }
        // A fault is shown by the octets taken.
        ensures fault { IfErr result (λ e. (taken : List ℕ) × Consumes (S.left source.old) (S.left source.new) taken
            × ShowsBeginFault e taken) }
        ensures cut { IfErr result (λ e. is_of_capture_end e ≡ true → IsAtEnd (S.left source.new)) }
        // `Read` is told exactly where the device failed.
        ensures device { IfErr result (λ e. S.has_failed source.new ≡ is_capture_read e) }
    {
        let mut head = [0u8; 28];
        if let Err(cut) = fill_whole(source, &mut head, 0, 4) {
            return Err(cut_head(cut));
        }
        match magic_of(&head[..4]) {
            Some(Magic::OfPcap { order, fraction }) => {
                Capture::begin_pcap(source, &mut head, order, fraction)
            }
            Some(Magic::OfPcapng) => Capture::begin_pcapng(source, &mut head),
            None => Err(CaptureFault::NoCapture),
        }
    }

    /// Reads a record of a pcap, and its packet to the front of the room.
    fn next_record<S: Source>(
        &mut self,
        source: &mut S,
        room: &mut [u8],
        link: Link,
        fraction: Fraction,
    ) -> Result<Found, CaptureFault>
        requires format { self.old.format ≡ Format.Pcap link fraction }
        requires well { S.has_failed source.old ≡ false }
        requires room { 262144 ≤ length room.old }
        requires near { self.old.octet ≤ octet_limit }
        ensures packet { IfOk result (λ found. IsFound found (λ packet. (octets : List ℕ)
            × Consumes (S.left source.old) (S.left source.new) octets
            × IsRecord link fraction self.old octets self.new (captured_packet packet (take packet.length room.new) ∷ []))) }
        ensures passed { IfOk result (λ found. IfPassed found ⊥) }
        ensures end { IfOk result (λ found. IfEnd found (Consumes (S.left source.old) (S.left source.new) []
            × IsAtEnd (S.left source.new) × (self.new ≡ self.old))) }
        ensures onwards { IfOk result (λ found. IfOnwards found (self.old.octet < self.new.octet)) }
        ensures far { self.new.octet ≤ octet_limit + 2 ^ 33 }
        ensures whole { IfOk result (λ found. IsFound found (λ packet. length (take packet.length room.new) ≡ packet.length)) }
        ensures fault { IfErr result (λ e. (part : List ℕ) × Consumes (S.left source.old) (S.left source.new) part
            × ShowsRecordFault self.old e part) }
        ensures same { OnErr result (self.new ≡ self.old) }
        ensures well { OnOk result (S.has_failed source.new ≡ false) }
        ensures cut { IfErr result (λ e. is_of_capture_end e ≡ true → IsAtEnd (S.left source.new)) }
        ensures device { IfErr result (λ e. S.has_failed source.new ≡ is_capture_read e) }
    {
        let octet = self.octet;
        let mut head = [0u8; RECORD_HEAD];
        match fill(source, &mut head, 0, RECORD_HEAD) {
            Ok(0) => return Ok(Found::End),
            Ok(RECORD_HEAD) => {}
            Ok(_) => return Err(CaptureFault::CutPacket { octet }),
            Err(_) => return Err(CaptureFault::Read { octet }),
        }
        let length = self.order.u32_at(&head, 8);
        if length as usize > PACKET_LIMIT {
            return Err(CaptureFault::TooLong { octet });
        }
        if let Err(cut) = fill_whole(source, room, 0, length as usize) {
            return Err(cut_packet(cut, octet));
        }
        let time = time_in(
            fraction,
            self.order.u32_at(&head, 0),
            self.order.u32_at(&head, 4),
        );
        self.octet += 16 + u64::from(length);
        Ok(Found::Captured(Packet {
            octet,
            link,
            time,
            length,
        }))
    }

    /// What the first octets of a section say.
    fn section_head(&self, head: &[u8]) -> Result<BlockHead, CaptureFault>
        requires whole { length head.now ≡ 12 }
        requires typed { take 4 head.now ≡ section_type }
        ensures head { IfOk result (λ b. IsBlockHead self.now head.now b) }
        ensures fault { IfErr result (λ e. ShowsBlockHeadFault self.now e head.now) }
        ensures text { IfErr result (λ e. IsOfText e) }
    {
        let octet = self.octet;
        let Some(order) = section_order(head) else {
            return Err(CaptureFault::BadBlock { octet });
        };
        let len = order.u32_at(head, 4);
        if !is_length(28, len) {
            return Err(CaptureFault::BadBlock { octet });
        }
        Ok(BlockHead {
            block: Block::NewSection,
            order,
            len,
            head: 12,
            kept: 0,
        })
    }

    /// What the first octets of a block say that describes an interface.
    fn interface_head(&self, head: &[u8]) -> Result<BlockHead, CaptureFault>
        requires whole { length head.now ≡ 16 }
        requires typed { take 4 head.now ≢ section_type }
        requires number { ordered_number self.now.order 4 0 head.now ≡ 1 }
        ensures head { IfOk result (λ b. IsBlockHead self.now head.now b) }
        ensures fault { IfErr result (λ e. ShowsBlockHeadFault self.now e head.now) }
        ensures text { IfErr result (λ e. IsOfText e) }
    {
        let octet = self.octet;
        let order = self.order;
        let len = order.u32_at(head, 4);
        if !is_length(20, len) {
            return Err(CaptureFault::BadBlock { octet });
        }
        if self.interfaces.len() >= INTERFACE_LIMIT {
            return Err(CaptureFault::ManyInterfaces { octet });
        }
        let kept = len as usize - 20;
        if kept > PACKET_LIMIT {
            return Err(CaptureFault::TooLong { octet });
        }
        let link = order.u16_at(head, 8);
        Ok(BlockHead {
            block: Block::NewInterface { link },
            order,
            len,
            head: 16,
            kept,
        })
    }

    /// The interface of this number in the section, from 0, where there is one.
    fn interface(&self, number: u32) -> Option<Interface>
        ensures some { IfSome result (λ interface. IsNumbered self.now.interfaces number interface) }
        ensures none { IfNone result ((interface : Interface) → ¬ IsNumbered self.now.interfaces number interface) }
    {
        let number = number as usize;
        if number >= self.interfaces.len() {
            return None;
        }
        Some(self.interfaces[number])
    }

    /// What the first octets of a block say that holds a packet.
    fn packet_head(&self, head: &[u8]) -> Result<BlockHead, CaptureFault>
        requires whole { length head.now ≡ 28 }
        requires typed { take 4 head.now ≢ section_type }
        requires number { ordered_number self.now.order 4 0 head.now ≡ 6 }
        ensures head { IfOk result (λ b. IsBlockHead self.now head.now b) }
        ensures fault { IfErr result (λ e. ShowsBlockHeadFault self.now e head.now) }
        ensures text { IfErr result (λ e. IsOfText e) }
    {
        let octet = self.octet;
        let order = self.order;
        let len = order.u32_at(head, 4);
        if !is_length(32, len) {
            return Err(CaptureFault::BadBlock { octet });
        }
        let Some(interface) = self.interface(order.u32_at(head, 8)) else {
            return Err(CaptureFault::BadBlock { octet });
        };
        let captured = order.u32_at(head, 20) as usize;
        if captured > PACKET_LIMIT {
            return Err(CaptureFault::TooLong { octet });
        }
        if 32 + captured > len as usize {
            return Err(CaptureFault::BadBlock { octet });
        }
        let link_type = u32::from(interface.link);
        let Some(link) = Link::of_number(link_type) else {
            return Err(CaptureFault::LinkType { link: link_type });
        };
        let high = u64::from(order.u32_at(head, 12));
        let count = high * (1 << 32) + u64::from(order.u32_at(head, 16));
        Ok(BlockHead {
            block: Block::Captured {
                link,
                time: counted_time(interface.resolution, count),
            },
            order,
            len,
            head: 28,
            kept: captured,
        })
    }

    /// What the first octets of any other block say.
    fn other_head(&self, head: &[u8]) -> Result<BlockHead, CaptureFault>
        requires whole { length head.now ≡ 8 }
        requires typed { take 4 head.now ≢ section_type }
        requires interface { ordered_number self.now.order 4 0 head.now ≢ 1 }
        requires packet { ordered_number self.now.order 4 0 head.now ≢ 6 }
        ensures head { IfOk result (λ b. IsBlockHead self.now head.now b) }
        ensures fault { IfErr result (λ e. ShowsBlockHeadFault self.now e head.now) }
        ensures text { IfErr result (λ e. IsOfText e) }
    {
        let octet = self.octet;
        let order = self.order;
        let len = order.u32_at(head, 4);
        if !is_length(12, len) {
            return Err(CaptureFault::BadBlock { octet });
        }
        Ok(BlockHead {
            block: Block::Passed,
            order,
            len,
            head: 8,
            kept: 0,
        })
    }

    /// What the first octets of a block say.
    fn block_head(&self, head: &[u8]) -> Result<BlockHead, CaptureFault>
        requires count { HasHeadLength self.now.order head.now (length head.now) }
        ensures head { IfOk result (λ b. IsBlockHead self.now head.now b) }
        ensures fault { IfErr result (λ e. ShowsBlockHeadFault self.now e head.now) }
        ensures text { IfErr result (λ e. IsOfText e) }
    {
        if head[..4] == SECTION[..] {
            return self.section_head(head);
        }
        match self.order.u32_at(head, 0) {
            INTERFACE => self.interface_head(head),
            PACKET => self.packet_head(head),
            _ => self.other_head(head),
        }
    }

    /// Reads what a block is judged by, behind its first eight octets, which stand in the buffer.
    fn read_head<S: Source>(
        &self,
        source: &mut S,
        head: &mut [u8],
    ) -> Result<BlockHead, CaptureFault>
        requires well { S.has_failed source.old ≡ false }
        requires room { length head.old ≡ 28 }
        ensures head { IfOk result (λ b. (more : List ℕ) × Consumes (S.left source.old) (S.left source.new) more
            × IsBlockHead self.now (take 8 head.old ++ more) b) }
        ensures fault { IfErr result (λ e. (more : List ℕ) × Consumes (S.left source.old) (S.left source.new) more
            × ShowsFaultInBlock self.now e (take 8 head.old ++ more)) }
        ensures well { OnOk result (S.has_failed source.new ≡ false) }
        ensures cut { IfErr result (λ e. is_of_capture_end e ≡ true → IsAtEnd (S.left source.new)) }
        ensures device { IfErr result (λ e. S.has_failed source.new ≡ is_capture_read e) }
    {
        let count = head_length(self.order, &head[..8]);
        if let Err(cut) = fill_whole(source, head, 8, count) {
            return Err(cut_block(cut, self.octet));
        }
        self.block_head(&head[..count])
    }

    /// Goes on behind a block, of which this was kept.
    fn pass(&mut self, head: BlockHead, kept: &[u8]) -> Found
        requires near { self.old.octet ≤ octet_limit }
        requires format { self.old.format ≡ Format.Pcapng }
        requires few { IsWithinRoom head.block (length self.old.interfaces) }
        requires long { length kept.now ≡ head.kept }
        requires short { head.kept ≤ 262144 }
        ensures behind { IsBehindBlock head.block self.old head kept.now self.new }
        ensures found { found_packets result kept.now ≡ packets_in head.block self.old.octet kept.now }
        ensures piece { IfEnd result ⊥ }
        ensures whole { IsFound result (λ packet. packet.length ≡ head.kept) }
    {
        let octet = self.octet;
        self.octet += u64::from(head.len);
        match head.block {
            Block::NewSection => {
                self.order = head.order;
                self.interfaces.clear();
                Found::Passed
            }
            Block::NewInterface { link } => {
                let resolution = resolution_said(head.order, kept);
                self.interfaces.push(Interface { link, resolution });
                Found::Passed
            }
            Block::Captured { link, time } => Found::Captured(Packet {
                octet,
                link,
                time,
                length: head.kept as u32,
            }),
            Block::Passed => Found::Passed,
        }
    }

    /// Reads a block of a pcapng, and where it holds a packet, that to the front of the room.
    fn next_block<S: Source>(
        &mut self,
        source: &mut S,
        room: &mut [u8],
    ) -> Result<Found, CaptureFault>
        requires format { self.old.format ≡ Format.Pcapng }
        requires well { S.has_failed source.old ≡ false }
        requires room { 262144 ≤ length room.old }
        requires near { self.old.octet ≤ octet_limit }
        ensures packet { IfOk result (λ found. IsFound found (λ packet. (octets : List ℕ)
            × Consumes (S.left source.old) (S.left source.new) octets
            × IsCaptureBlock self.old octets self.new (captured_packet packet (take packet.length room.new) ∷ []))) }
        ensures passed { IfOk result (λ found. IfPassed found ((octets : List ℕ)
            × Consumes (S.left source.old) (S.left source.new) octets
            × IsCaptureBlock self.old octets self.new [])) }
        ensures end { IfOk result (λ found. IfEnd found (Consumes (S.left source.old) (S.left source.new) []
            × IsAtEnd (S.left source.new) × (self.new ≡ self.old))) }
        ensures onwards { IfOk result (λ found. IfOnwards found (self.old.octet < self.new.octet)) }
        ensures far { self.new.octet ≤ octet_limit + 2 ^ 33 }
        ensures whole { IfOk result (λ found. IsFound found (λ packet. length (take packet.length room.new) ≡ packet.length)) }
        ensures fault { IfErr result (λ e. (part : List ℕ) × Consumes (S.left source.old) (S.left source.new) part
            × ShowsFaultInBlock self.old e part) }
        ensures same { OnErr result (self.new ≡ self.old) }
        ensures well { OnOk result (S.has_failed source.new ≡ false) }
        ensures cut { IfErr result (λ e. is_of_capture_end e ≡ true → IsAtEnd (S.left source.new)) }
        ensures device { IfErr result (λ e. S.has_failed source.new ≡ is_capture_read e) }
    {
        let octet = self.octet;
        let mut head = [0u8; 28];
        match fill(source, &mut head, 0, 8) {
            Ok(0) => return Ok(Found::End),
            Ok(8) => {}
            Ok(_) => return Err(CaptureFault::CutBlock { octet }),
            Err(_) => return Err(CaptureFault::Read { octet }),
        }
        let block = match self.read_head(source, &mut head) {
            Ok(block) => block,
            Err(fault) => return Err(fault),
        };
        if let Err(fault) = read_rest(source, octet, block, room) {
            return Err(fault);
        }
        Ok(self.pass(block, &room[..block.kept]))
    }

    /// Reads a piece of a capture, and where it holds a packet, that to the front of the room.
    fn next_piece<S: Source>(
        &mut self,
        source: &mut S,
        room: &mut [u8],
    ) -> Result<Found, CaptureFault>
        requires well { S.has_failed source.old ≡ false }
        requires room { 262144 ≤ length room.old }
        ensures packet { IfOk result (λ found. IsFound found (λ packet. (octets : List ℕ)
            × Consumes (S.left source.old) (S.left source.new) octets
            × IsPiece self.old octets self.new (captured_packet packet (take packet.length room.new) ∷ []))) }
        ensures passed { IfOk result (λ found. IfPassed found ((octets : List ℕ)
            × Consumes (S.left source.old) (S.left source.new) octets
            × IsPiece self.old octets self.new [])) }
        ensures end { IfOk result (λ found. IfEnd found (Consumes (S.left source.old) (S.left source.new) []
            × IsAtEnd (S.left source.new) × (self.new ≡ self.old))) }
        ensures onwards { IfOk result (λ found. IfOnwards found (self.old.octet < self.new.octet)) }
        ensures far { self.new.octet ≤ octet_limit + 2 ^ 33 }
        ensures whole { IfOk result (λ found. IsFound found (λ packet. length (take packet.length room.new) ≡ packet.length)) }
        ensures fault { IfErr result (λ e. (part : List ℕ) × Consumes (S.left source.old) (S.left source.new) part
            × ShowsFault self.old e part) }
        ensures same { OnErr result (self.new ≡ self.old) }
        ensures well { OnOk result (S.has_failed source.new ≡ false) }
        ensures cut { IfErr result (λ e. is_of_capture_end e ≡ true → IsAtEnd (S.left source.new)) }
        ensures device { IfErr result (λ e. S.has_failed source.new ≡ is_capture_read e) }
    {
        if self.octet > OCTET_LIMIT {
            return Err(CaptureFault::TooLong { octet: self.octet });
        }
        match self.format {
            Format::Pcap { link, fraction } => self.next_record(source, room, link, fraction),
            Format::Pcapng => self.next_block(source, room),
        }
    }

    /// Reads the next packet, and its octets to the front of the room, which takes `PACKET_LIMIT`. It answers `None` at the end of
    /// the capture. What holds no packet is passed over.
    pub fn next_packet<S: Source>(
        &mut self,
        source: &mut S,
        room: &mut [u8],
    ) -> Result<Option<Packet>, CaptureFault>
        requires well { S.has_failed source.old ≡ false }
        requires room { 262144 ≤ length room.old }
        // What was read holds this packet alone.
        ensures packet { IfOk result (λ found. IfSome found (λ packet. (octets : List ℕ)
            × Consumes (S.left source.old) (S.left source.new) octets
            × AreRead self.old octets self.new (captured_packet packet (take packet.length room.new) ∷ []))) }
        ensures whole { IfOk result (λ found. IfSome found (λ packet. length (take packet.length room.new) ≡ packet.length)) }
        // Or it holds none, and is all that there was.
        ensures end { IfOk result (λ found. IfNone found ((octets : List ℕ)
            × Consumes (S.left source.old) (S.left source.new) octets
            × AreRead self.old octets self.new [])) }
        ensures done { IfOk result (λ found. IfNone found (IsAtEnd (S.left source.new))) }
        // A fault is shown by the octets behind those that hold none.
        ensures fault { IfErr result (λ e. (octets : List ℕ) × (part : List ℕ)
            × Consumes (S.left source.old) (S.left source.new) (octets ++ part)
            × AreRead self.old octets self.new [] × ShowsFault self.new e part) }
        // `Read` is told exactly where the device failed.
        ensures well { OnOk result (S.has_failed source.new ≡ false) }
        ensures cut { IfErr result (λ e. is_of_capture_end e ≡ true → IsAtEnd (S.left source.new)) }
        ensures device { IfErr result (λ e. S.has_failed source.new ≡ is_capture_read e) }
        // No capture goes on without end.
        ensures onwards { IfOk result (λ found. IfSome found (λ packet. self.old.octet < self.new.octet)) }
        ensures far { self.new.octet ≤ octet_limit + 2 ^ 33 }
    {
        loop {
            match self.next_piece(source, room)? {
                Found::End => return Ok(None),
                Found::Captured(packet) => return Ok(Some(packet)),
                Found::Passed => {}
            }
        }
    }
}
