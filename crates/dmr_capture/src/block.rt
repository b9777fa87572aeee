//! The blocks of a pcapng.
ghost use Rattle.std.specs.Prelude.{◌≡◌, ◌≢◌, ◌+◌, ◌<◌, ◌≤◌, ◌++◌, ◌↔◌, List, ℕ, length, take, false, true};
ghost use Rattle.std.specs.Prelude.{IsTrue, IfSome, IfNone, IfOk, IfErr, OnOk, OnErr};
ghost use Rattle.std.specs.Io.KnownBytes.{Consumes, IsAtEnd};
ghost use Rattle.dmr_capture.specs.Blocks.{IsLength, HasHeadLength, IsBlockRest, section_magic};
ghost use Rattle.dmr_capture.specs.Orders.{ordered_number};
ghost use Rattle.dmr_capture.specs.CutFaults.{cut_block_fault};
ghost use Rattle.dmr_capture.specs.Cuts.{is_device_cut};
ghost use Rattle.dmr_capture.specs.Rests.{ShowsRestFault};
ghost use Rattle.dmr_capture.specs.Reading.{is_of_capture_end, is_capture_read};

use crate::fault::CaptureFault;
use crate::link::Link;
use crate::order::Order;
use crate::transfer::{Cut, fill_whole, skip};
use dmr_record::Source;

/// What a section begins with, in either order of octets.
pub(crate) const SECTION: [u8; 4] = [0x0a, 0x0d, 0x0d, 0x0a];

/// The type of a block that describes an interface.
pub(crate) const INTERFACE: u32 = 1;

/// The type of a block that holds a packet.
pub(crate) const PACKET: u32 = 6;

/// What a block is for.
#[derive(Clone, Copy, Debug, Drop, PartialEq, Eq)]
pub(crate) enum Block {
    /// It begins a section.
    NewSection,
    /// It describes an interface, of this link type.
    NewInterface { link: u16 },
    /// It holds a packet, which came at this time.
    Captured { link: Link, time: u128 },
    /// It is passed over.
    Passed,
}

/// What the first octets of a block say.
#[derive(Clone, Copy, Debug, Drop, PartialEq, Eq)]
pub(crate) struct BlockHead {
    /// What the block is for.
    pub(crate) block: Block,
    /// The order of its octets.
    pub(crate) order: Order,
    /// How many octets it has.
    pub(crate) len: u32,
    /// How many of them were read.
    pub(crate) head: usize,
    /// How many of those behind are kept.
    pub(crate) kept: usize,
}

/// By which order of octets a section tells its own.
const SECTION_MAGIC: u32 = 0x1a2b_3c4d;

/// The order of the octets of a section, by its magic.
pub(crate) fn section_order(head: &[u8]) -> Option<Order>
    requires whole { length head.now ≡ 12 }
    ensures some { IfSome result (λ order. ordered_number order 4 8 head.now ≡ section_magic) }
    ensures none { IfNone result ((order : Order) → ordered_number order 4 8 head.now ≢ section_magic) }
{
    if Order::Big.u32_at(head, 8) == SECTION_MAGIC {
        return Some(Order::Big);
    }
    if Order::Little.u32_at(head, 8) == SECTION_MAGIC {
        return Some(Order::Little);
    }
    None
}

/// Whether a block that needs so many octets may have this length.
pub(crate) fn is_length(least: u32, len: u32) -> bool
    ensures value { IsTrue result ↔ IsLength least len }
{
    least <= len && len % 4 == 0
}

/// How many octets of a block are read before it is judged, by its first eight.
pub(crate) fn head_length(order: Order, first: &[u8]) -> usize
    requires eight { length first.now ≡ 8 }
    ensures count { HasHeadLength order first.now result }
    ensures within { (8 ≤ result) × (result ≤ 28) }
{
    if first[..4] == SECTION[..] {
        return 12;
    }
    match order.u32_at(first, 0) {
        INTERFACE => 16,
        PACKET => 28,
        _ => 8,
    }
}

/// The fault of a block that is cut, or in which the source failed.
pub(crate) fn cut_block(cut: Cut, octet: u64) -> CaptureFault
    ensures fault { result ≡ cut_block_fault cut octet }
    ensures end { is_of_capture_end result ≡ true → cut ≡ Cut.End }
    ensures device { is_capture_read result ≡ is_device_cut cut }
{
    match cut {
        Cut::End => CaptureFault::CutBlock { octet },
        Cut::Device => CaptureFault::Read { octet },
    }
}

/// Reads what stands behind the first octets of a block that begins at this octet: what is kept to the front of the room, the rest,
/// and the length once more.
pub(crate) fn read_rest<S: Source>(
    source: &mut S,
    octet: u64,
    head: BlockHead,
    room: &mut [u8],
) -> Result<(), CaptureFault>
    requires well { S.has_failed source.old ≡ false }
    requires room { head.kept ≤ length room.old }
    requires fits { head.head + head.kept + 4 ≤ head.len }
    ensures rest { OnOk result ((rest : List ℕ) × Consumes (S.left source.old) (S.left source.new) rest
        × IsBlockRest head (take head.kept room.new) rest) }
    ensures well { OnOk result (S.has_failed source.new ≡ false) }
    ensures fault { IfErr result (λ e. (rest : List ℕ) × Consumes (S.left source.old) (S.left source.new) rest
        × ShowsRestFault octet head e rest) }
    ensures cut { IfErr result (λ e. is_of_capture_end e ≡ true → IsAtEnd (S.left source.new)) }
    ensures device { IfErr result (λ e. S.has_failed source.new ≡ is_capture_read e) }
{
    if let Err(cut) = fill_whole(source, room, 0, head.kept) {
        return Err(cut_block(cut, octet));
    }
    if let Err(cut) = skip(source, head.len as usize - head.head - head.kept - 4) {
        return Err(cut_block(cut, octet));
    }
    let mut last = [0u8; 4];
    if let Err(cut) = fill_whole(source, &mut last, 0, 4) {
        return Err(cut_block(cut, octet));
    }
    if head.order.u32_at(&last, 0) != head.len {
        return Err(CaptureFault::BadBlock { octet });
    }
    Ok(())
}
