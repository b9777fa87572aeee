//! Further tries of packets, and what of a statement can be sent.
ghost use Rattle.std.specs.Prelude.{◌≡◌, ◌<◌, ◌≤◌, All, length, false, nat_le, Some, None, OnOk, IfErr, IfSome, option_copied};
ghost use Rattle.std.specs.List.{list_any};
ghost use Rattle.dmr_making.specs.Fit.{IsFitLone, IsFitRaw};
ghost use Rattle.dmr_making.specs.Senders.{IsFitAgain, IsSendable};
ghost use Rattle.dmr_planning.specs.Tries as spec;
ghost use Rattle.dmr_script.specs.Fits.{FitsAgain, FitsPacket, FitsPartial, FitsTransmission};

use dmr_script::{Again, LoneBurst, PacketShape, PacketTry, PartialTry, Refusal, Transmission};

/// That a shape has as many blocks as the packet.
fn hold_blocks(packet: &PacketTry, shape: &PacketShape) -> Result<(), Refusal>
    requires packet { length packet.now.shape.blocks.items ≤ 127 }
    requires shape { length shape.now.blocks.items ≤ 127 }
    ensures fits { OnOk result
        (spec.count_fault (length shape.now.blocks.items) (length packet.now.shape.blocks.items) ≡ None) }
    ensures same { OnOk result (length shape.now.blocks.items ≡ length packet.now.shape.blocks.items) }
    ensures fault { IfErr result (λ e.
        spec.count_fault (length shape.now.blocks.items) (length packet.now.shape.blocks.items) ≡ Some e) }
{
    let has = shape.blocks.len();
    let wanted = packet.shape.blocks.len();
    if has == wanted {
        return Ok(());
    }
    Err(Refusal::BlockCount {
        shape: has as u32,
        packet: wanted as u32,
    })
}

/// Whether a block isn't among those of a packet with so many.
fn has_block_past(blocks: usize, serials: &[u8]) -> bool
    ensures value { result ≡ list_any (λ serial. nat_le blocks serial) serials.now }
    ensures within { result ≡ false → All (λ serial. serial < blocks) serials.now }
{
    serials.iter().any(|serial| blocks <= usize::from(*serial))
}

/// That the blocks of a part are among those of the packet.
fn hold_serials(packet: &PacketTry, partial: &PartialTry) -> Result<(), Refusal>
    ensures fits { OnOk result
        (spec.serial_fault (length packet.now.shape.blocks.items) partial.now.serials.items ≡ None) }
    ensures within { OnOk result (All (λ serial. serial < length packet.now.shape.blocks.items) partial.now.serials.items) }
    ensures fault { IfErr result (λ e.
        spec.serial_fault (length packet.now.shape.blocks.items) partial.now.serials.items ≡ Some e) }
{
    if has_block_past(packet.shape.blocks.len(), &partial.serials) {
        return Err(Refusal::BlockPastPacket);
    }
    Ok(())
}

/// That a further try fits the packet.
fn hold_again(packet: &PacketTry, again: &Again) -> Result<(), Refusal>
    requires packet { FitsPacket packet.now }
    requires fit { FitsAgain again.now }
    ensures fits { OnOk result (spec.again_fault packet.now again.now ≡ None) }
    ensures sendable { OnOk result (IsFitAgain packet.now again.now) }
    ensures fault { IfErr result (λ e. spec.again_fault packet.now again.now ≡ Some e) }
{
    match again {
        Again::Full(None) => Ok(()),
        Again::Full(Some(shape)) => hold_blocks(packet, shape),
        Again::Partial(partial) => hold_serials(packet, partial),
    }
}

/// Reads the information that a data burst says bit by bit.
fn read_raw(lone: &LoneBurst)
    ensures raw { IsFitRaw lone.now }
{
    match lone {
        LoneBurst::RateThreeQuarters(bits) | LoneBurst::RateOne(bits) => {
            let _length = bits.len();
        }
        _ => {}
    }
}

/// That a transmission can be sent: a further try has a packet that it fits. `last` is the last confirmed packet in front of it in
/// its slot.
pub(crate) fn hold_try(transmission: &Transmission, last: Option<&PacketTry>) -> Result<(), Refusal>
    requires fit { FitsTransmission transmission.now }
    requires packet { IfSome (option_copied last) FitsPacket }
    ensures fits { OnOk result (spec.try_fault transmission.now (option_copied last.entry) ≡ None) }
    ensures sendable { OnOk result (IsSendable (option_copied last.entry) transmission.now) }
    ensures fault { IfErr result (λ e. spec.try_fault transmission.now (option_copied last.entry) ≡ Some e) }
{
    match transmission {
        Transmission::Again(again) => match last {
            None => Err(Refusal::NothingToTryAgain),
            Some(packet) => hold_again(packet, again),
        },
        Transmission::Burst(lone) => {
            read_raw(lone);
            Ok(())
        }
        _ => Ok(()),
    }
}
