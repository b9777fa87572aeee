//! The shape of a packet from its letters.
ghost use Rattle.std.specs.Prelude.{◌≡◌, ◌+◌, ◌<◌, ◌≤◌, length, take, drop, true, false, IfOk, OnOk, IfSome};
ghost use Rattle.dmr_script.specs.Fits.{HasBlocks};
ghost use Rattle.dmr_script.specs.Foreign.{IsForeignPacket};

use crate::fault::Refusal;
use crate::halt::Halt;
use crate::letters::{Letter, run_of, shape_letters};
use crate::shape::{PacketShape, Place};
use crate::token::Cursor;
use std::alloc::Global;

/// How many bursts the last preamble but its own can count: what eight bits can say.
const COUNT_LIMIT: usize = 255;

/// How many blocks a packet has at most.
pub(crate) const MOST_BLOCKS: usize = 127;

/// Which blocks are sent.
fn blocks_of(alloc: Global, letters: &[Letter]) -> Result<Vec<bool>, Halt>
    ensures count { IfOk result (λ blocks. length blocks.items ≡ length letters.now) }
{
    let mut blocks = Vec::new(alloc);
    for letter in letters {
        match *letter {
            Letter::Block => blocks.push(true)?,
            Letter::Absent => blocks.push(false)?,
            _ => return Err(Halt::Refused(Refusal::PacketShape)),
        }
    }
    Ok(blocks)
}

/// That a shape has as many blocks as its packet, where it is known how many that has, and not more than any packet.
fn fit_blocks(shape: usize, packet: Option<usize>) -> Result<(), Refusal>
    requires few { shape ≤ 1048576 }
    requires most { IfSome packet (λ packet. packet ≤ 127) }
    ensures count { OnOk result (IfSome packet (λ packet. shape ≡ packet)) }
    ensures most { OnOk result (shape ≤ 127) }
{
    match packet {
        Some(packet) if packet != shape => Err(Refusal::BlockCount {
            shape: shape as u32,
            packet: packet as u32,
        }),
        _ if shape > MOST_BLOCKS => Err(Refusal::LongPacket),
        _ => Ok(()),
    }
}

/// The shape of a packet of so many blocks, where that is known.
pub(crate) fn packet_shape(
    alloc: Global,
    letters: &[Letter],
    packet: Option<usize>,
) -> Result<PacketShape, Halt>
    requires few { length letters.now ≤ 1048576 }
    requires most { IfSome packet (λ packet. packet ≤ 127) }
    ensures count { IfOk result (λ shape. IfSome packet (λ packet. length shape.blocks.items ≡ packet)) }
    ensures shape { IfOk result (λ shape. HasBlocks (length shape.blocks.items) shape) }
{
    let preambles = run_of(letters, Letter::Csbk);
    let [Letter::Place(Place::D), blocks @ ..] = preambles.behind else {
        return Err(Halt::Refused(Refusal::PacketShape));
    };
    let blocks = blocks_of(alloc, blocks)?;
    fit_blocks(blocks.len(), packet)?;
    if preambles.count > COUNT_LIMIT - blocks.len() {
        return Err(Halt::Refused(Refusal::PacketShape));
    }
    Ok(PacketShape {
        preambles: preambles.count as u8,
        blocks,
    })
}

/// A header and all of so many blocks.
fn whole(alloc: Global, blocks: usize) -> Result<PacketShape, Halt>
    requires few { blocks ≤ 127 }
    ensures shape { IfOk result (λ shape. HasBlocks blocks shape) }
{
    Ok(PacketShape {
        preambles: 0,
        blocks: vec![in alloc; true; blocks]?,
    })
}

/// The shape of a packet of so many blocks, to the end of the line: its header and all of them, where the line says none.
pub(crate) fn known_shape(
    alloc: Global,
    cursor: &mut Cursor,
    packet: usize,
) -> Result<PacketShape, Halt>
    requires most { packet ≤ 127 }
    ensures shape { IfOk result (λ shape. HasBlocks packet shape) }
{
    match shape_letters(alloc, cursor)? {
        Some(letters) => packet_shape(alloc, letters.as_slice(), Some(packet)),
        None => whole(alloc, packet),
    }
}

/// The shape of a packet whose blocks other lines say, to the end of the line, where there is one.
pub(crate) fn any_shape(alloc: Global, cursor: &mut Cursor) -> Result<Option<PacketShape>, Halt>
    ensures shape { IfOk result (λ shape. IfSome shape (λ shape. HasBlocks (length shape.blocks.items) shape)) }
{
    match shape_letters(alloc, cursor)? {
        Some(letters) => Ok(Some(packet_shape(alloc, letters.as_slice(), None)?)),
        None => Ok(None),
    }
}

/// That what has this shape may have another colour code: it ends with a burst.
pub(crate) fn may_be_foreign(shape: &PacketShape) -> Result<(), Refusal>
    ensures foreign { OnOk result (IsForeignPacket shape.now) }
{
    let mut rest = shape.blocks.as_slice();
    while let Some((is_sent, behind)) = rest.split_first() {
        if !*is_sent && behind.is_empty() {
            return Err(Refusal::ForeignEnds);
        }
        rest = behind;
    }
    Ok(())
}
