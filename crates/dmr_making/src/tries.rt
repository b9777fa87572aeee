//! The bursts of a try of a packet, slot by slot.
ghost use Rattle.std.specs.Prelude.{◌≡◌, ◌<◌, ◌≤◌, ◌^◌, ◌+◌, ◌-◌, ℕ, slice_index_or, false, length};
ghost use Rattle.dmr_making.specs.Made.{IsMade};
ghost use Rattle.dmr_making.specs.Standing.{HoldsAt};
ghost use Rattle.dmr_making.specs.Tries as spec;
ghost use Rattle.dmr_making.specs.Tries.{TryForms, AreTryForms, IsFitTry};

use crate::bursts::{block_burst, csbk_burst, header_burst};
use dmr_csbk::{Csbk, PREAMBLE};
use dmr_data::{Blocks, Header, Rate};

/// A try of a packet: what its bursts hold, if all of them are sent.
#[derive(Drop)]
pub(crate) struct SentTry {
    /// Who sends it, an address of 24 bits.
    pub(crate) source: u32,
    /// Whether it is for a talk group.
    pub(crate) group: bool,
    /// Whom it is for, an address of 24 bits.
    pub(crate) destination: u32,
    /// Its header.
    pub(crate) header: Header,
    /// The rate of its blocks.
    pub(crate) rate: Rate,
    /// Its blocks.
    pub(crate) blocks: Blocks,
}

/// The preamble of a try that so many bursts follow.
fn preamble(t: &SentTry, left: u8) -> Csbk
    requires source { t.now.source < 2 ^ 24 }
    requires destination { t.now.destination < 2 ^ 24 }
    ensures value { result ≡ spec.preamble_of t.now left }
{
    Csbk {
        last: true,
        protect: false,
        code: PREAMBLE,
        fid: 0,
        body: [
            if t.group { 0xC0 } else { 0x80 },
            left,
            (t.destination / 65536) as u8,
            (t.destination / 256 % 256) as u8,
            (t.destination % 256) as u8,
            (t.source / 65536) as u8,
            (t.source / 256 % 256) as u8,
            (t.source % 256) as u8,
        ],
    }
}

/// How many bursts follow a preamble, with which there are so many in front of the header.
fn count_behind(preambles: usize, blocks: &[bool]) -> u8
    requires room { preambles + length blocks.now ≤ 255 }
    ensures value { result ≡ preambles + length blocks.now }
{
    (preambles + blocks.len()) as u8
}

/// Whether a block is sent. None past the last is.
fn is_there(blocks: &[bool], place: usize) -> bool
    ensures value { result ≡ slice_index_or blocks.now place false }
{
    place < blocks.len() && blocks[place]
}

/// What goes out in the slot of a block, and nothing past the last.
fn block_slot(
    colour: u8,
    t: &SentTry,
    preambles: u8,
    blocks: &[bool],
    place: usize,
) -> Option<[u8; 33]>
    requires colour { colour < 16 }
    requires fit { IsFitTry t.now preambles blocks.now }
    ensures slot { (frame : ℕ) (forms : TryForms) → AreTryForms t.now preambles blocks.now forms
        → HoldsAt (λ slot. IsMade colour frame slot result)
        (spec.block_slots t.now.rate blocks.now forms.blocks) place }
{
    if !is_there(blocks, place) {
        return None;
    }
    let block = t.blocks.get(place)?;
    Some(block_burst(colour, t.rate, block))
}

/// What goes out in a slot of a try, counted from 0.
pub(crate) fn try_slot(
    colour: u8,
    t: &SentTry,
    preambles: u8,
    blocks: &[bool],
    place: usize,
) -> Option<[u8; 33]>
    requires colour { colour < 16 }
    requires fit { IsFitTry t.now preambles blocks.now }
    ensures slot { (frame : ℕ) (forms : TryForms) → AreTryForms t.now preambles blocks.now forms
        → HoldsAt (λ slot. IsMade colour frame slot result) (spec.try_slots t.now preambles blocks.now forms) place }
{
    let before = usize::from(preambles);
    if place < before {
        let left = count_behind(before - place, blocks);
        return Some(csbk_burst(colour, &preamble(t, left)));
    }
    if place == before {
        return Some(header_burst(colour, &t.header));
    }
    block_slot(colour, t, preambles, blocks, place - before - 1)
}
