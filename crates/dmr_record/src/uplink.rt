//! The uplink file, frame by frame.

ghost use Rattle.std.specs.Prelude.{◌≡◌, ◌%◌, ◌<◌, ◌⊎◌, [], ◌∷◌, List, ℕ, length, None, Some, false, true};
ghost use Rattle.std.specs.Prelude.{IfOk, IfErr, OnOk, OnErr, IfSome, IfNone};
ghost use Rattle.std.specs.Io.KnownBytes.{Consumes, Appends, IsAtEnd};
ghost use Rattle.dmr_record.specs.Devices.{Tears};
ghost use Rattle.dmr_record.specs.Faults.{is_of_end, is_device_fault};
ghost use Rattle.dmr_record.specs.Uplink.{IsSilenceOrBurst, IsFrame, ShowsSlotFault, ShowsUplinkFault, slot_tag, slot_body};
ghost use Rattle.dmr_record.specs.Uplink.{frame_octets};
ghost use Rattle.dmr_record.specs.Uplink.{ShowsUplinkSlotFault, uplink_slot_limit, slot_octets};
ghost use Rattle.dmr_record.specs.Head.{frame_limit};
ghost use Rattle.dmr_record.specs.NextSlot.{IfNoSlot, IfSlot};

use crate::device::{Sink, Source};
use crate::fault::RecordFault;
use crate::next_slot::NextSlot;
use crate::tag::{BURST, SILENCE};
use crate::transfer::{fill_whole, put, read_octet};

/// How many frames an uplink file has at most.
pub const FRAME_LIMIT: u32 = 1 << 20;

/// How many slots an uplink file has at most: two for each frame.
const UPLINK_SLOT_LIMIT: u32 = 2 * FRAME_LIMIT;

/// Makes a slot silent, which most often is so already.
#[inline(always)]
fn silence(slot: &mut Option<[u8; 33]>)
    ensures silent { slot.new ≡ None }
{
    if slot.is_some() {
        *slot = None;
    }
}

/// Reads the rest of a slot that begins with this tag, to its place.
#[inline(always)]
fn read_slot_into<S: Source>(
    source: &mut S,
    tag: u8,
    slot: &mut Option<[u8; 33]>,
) -> Result<(), RecordFault>
    requires well { S.has_failed source.old ≡ false }
    ensures tag { OnOk result (tag ≡ slot_tag slot.new) }
    ensures slot { OnOk result (IsSilenceOrBurst slot.new) }
    ensures body { OnOk result (Consumes (S.left source.old) (S.left source.new) (slot_body slot.new)) }
    ensures well { OnOk result (S.has_failed source.new ≡ false) }
    ensures fault { IfErr result (λ e. (rest : List ℕ) × Consumes (S.left source.old) (S.left source.new) rest
        × ShowsSlotFault e (tag ∷ rest)) }
    ensures cut { IfErr result (λ e. is_of_end e ≡ true → IsAtEnd (S.left source.new)) }
    ensures device { IfErr result (λ e. S.has_failed source.new ≡ is_device_fault e) }
{
    match tag {
        SILENCE => {
            silence(slot);
            Ok(())
        }
        BURST => read_burst(source, slot.insert([0; 33])),
        _ => Err(RecordFault::BadTag),
    }
}

/// Reads the octets of a burst to their place.
#[inline(always)]
fn read_burst<S: Source>(source: &mut S, burst: &mut [u8; 33]) -> Result<(), RecordFault>
    requires well { S.has_failed source.old ≡ false }
    ensures burst { OnOk result (Consumes (S.left source.old) (S.left source.new) burst.new) }
    ensures whole { length burst.new ≡ 33 }
    ensures well { OnOk result (S.has_failed source.new ≡ false) }
    ensures part { OnErr result ((part : List ℕ) × (length part < 33)
        × Consumes (S.left source.old) (S.left source.new) part) }
    ensures cause { IfErr result (λ e. (e ≡ RecordFault.CutRecord) ⊎ (e ≡ RecordFault.Read)) }
    ensures cut { IfErr result (λ e. is_of_end e ≡ true → IsAtEnd (S.left source.new)) }
    ensures device { IfErr result (λ e. S.has_failed source.new ≡ is_device_fault e) }
{
    // Most often a source gives all of it at once.
    match source.read(&mut burst[..]) {
        Ok(33) => Ok(()),
        Ok(0) => Err(RecordFault::CutRecord),
        Ok(came) => fill_whole(source, &mut burst[came..], 33 - came),
        Err(_) => Err(RecordFault::Read),
    }
}

/// Reads the next frame of an uplink file behind its head: slot 1 and slot 2, each silent or a burst. It
/// answers `None` at the end of the source.
///
/// `before` is the number of frames that were read before it. A frame past `FRAME_LIMIT` is `TooLong` as soon
/// as its first octet is there, whatever that is. The format is this project's own.
pub fn read_frame<S: Source>(
    source: &mut S,
    before: u32,
) -> Result<Option<[Option<[u8; 33]>; 2]>, RecordFault>
    requires well { S.has_failed source.old ≡ false }
    // A frame is what the octets taken spell.
    ensures frame { IfOk result (λ found. IfSome found (λ frame. (before < frame_limit) × IsFrame frame
        × Consumes (S.left source.old) (S.left source.new) (frame_octets frame))) }
    // There is none only at the end.
    ensures end { IfOk result (λ found. IfNone found (Consumes (S.left source.old) (S.left source.new) []
        × IsAtEnd (S.left source.new))) }
    ensures well { OnOk result (S.has_failed source.new ≡ false) }
    // A fault is shown by the octets taken, all of this frame.
    ensures fault { IfErr result (λ e. (taken : List ℕ) × Consumes (S.left source.old) (S.left source.new) taken
        × ShowsUplinkFault frame_limit before e taken) }
    ensures cut { IfErr result (λ e. is_of_end e ≡ true → IsAtEnd (S.left source.new)) }
    // `Read` is told exactly where the device failed.
    ensures device { IfErr result (λ e. S.has_failed source.new ≡ is_device_fault e) }
{
    let mut frame = [None, None];
    match read_frame_into(source, &mut frame, before) {
        Ok(true) => Ok(Some(frame)),
        Ok(false) => Ok(None),
        Err(fault) => Err(fault),
    }
}

/// Reads the next frame as `read_frame` does, to a place that is there, since frames are large. It answers whether there is one.
/// At an `Err` and at the end what the place holds is of no meaning.
pub fn read_frame_into<S: Source>(
    source: &mut S,
    frame: &mut [Option<[u8; 33]>; 2],
    before: u32,
) -> Result<bool, RecordFault>
    requires well { S.has_failed source.old ≡ false }
    // A frame is what the octets taken spell.
    ensures frame { IfOk result (λ found. found ≡ true → (before < frame_limit) × IsFrame frame.new
        × Consumes (S.left source.old) (S.left source.new) (frame_octets frame.new)) }
    // There is none only at the end.
    ensures end { IfOk result (λ found. found ≡ false → Consumes (S.left source.old) (S.left source.new) []
        × IsAtEnd (S.left source.new)) }
    ensures well { OnOk result (S.has_failed source.new ≡ false) }
    // A fault is shown by the octets taken, all of this frame.
    ensures fault { IfErr result (λ e. (taken : List ℕ) × Consumes (S.left source.old) (S.left source.new) taken
        × ShowsUplinkFault frame_limit before e taken) }
    ensures cut { IfErr result (λ e. is_of_end e ≡ true → IsAtEnd (S.left source.new)) }
    // `Read` is told exactly where the device failed.
    ensures device { IfErr result (λ e. S.has_failed source.new ≡ is_device_fault e) }
{
    let Some(tag) = read_octet(source)? else {
        return Ok(false);
    };
    if before >= FRAME_LIMIT {
        return Err(RecordFault::TooLong);
    }
    read_slot_into(source, tag, &mut frame[0])?;
    let Some(tag) = read_octet(source)? else {
        return Err(RecordFault::HalfFrame);
    };
    read_slot_into(source, tag, &mut frame[1])?;
    Ok(true)
}

/// Reads the next slot of an uplink file behind its head: silence or a burst. It answers `End` at the end of the
/// source, where that is behind slot 2 of a frame or the head.
///
/// `before` is the number of slots that were read before it. A slot past those of `FRAME_LIMIT` frames is `TooLong`
/// as soon as its first octet is there, whatever that is. What it tells of a slot, `read_frame` tells of its frame.
/// The format is this project's own.
pub fn read_uplink_slot<S: Source>(
    source: &mut S,
    before: u32,
) -> Result<NextSlot<[u8; 33]>, RecordFault>
    requires well { S.has_failed source.old ≡ false }
    // A slot is what the octets taken spell.
    ensures slot { IfOk result (λ found. IfSlot found (λ slot. (before < uplink_slot_limit) × IsSilenceOrBurst slot
        × Consumes (S.left source.old) (S.left source.new) (slot_octets slot))) }
    // There is none only at the end, behind whole frames.
    ensures end { IfOk result (λ found. IfNoSlot found ((before % 2 ≡ 0)
        × Consumes (S.left source.old) (S.left source.new) [] × IsAtEnd (S.left source.new))) }
    ensures well { OnOk result (S.has_failed source.new ≡ false) }
    // A fault is shown by the octets taken, all of this slot.
    ensures fault { IfErr result (λ e. (taken : List ℕ) × Consumes (S.left source.old) (S.left source.new) taken
        × ShowsUplinkSlotFault uplink_slot_limit before e taken) }
    ensures cut { IfErr result (λ e. is_of_end e ≡ true → IsAtEnd (S.left source.new)) }
    // `Read` is told exactly where the device failed.
    ensures device { IfErr result (λ e. S.has_failed source.new ≡ is_device_fault e) }
{
    let Some(tag) = read_octet(source)? else {
        return if before % 2 == 0 {
            Ok(NextSlot::End)
        } else {
            Err(RecordFault::HalfFrame)
        };
    };
    if before >= UPLINK_SLOT_LIMIT {
        return Err(RecordFault::TooLong);
    }
    let mut slot = None;
    read_slot_into(source, tag, &mut slot)?;
    Ok(NextSlot::Slot(slot))
}

/// The record of a burst.
fn burst_record(burst: [u8; 33]) -> [u8; 34]
    ensures octets { result ≡ slot_octets (Some burst) }
{
    let mut record = [BURST; 34];
    record[1..].copy_from_slice(&burst);
    record
}

/// Writes a slot of the uplink file: silence or a burst. At an `Err` the sink failed with a front of the record out.
/// The format is this project's own.
pub fn write_uplink_slot<K: Sink>(sink: &mut K, slot: Option<[u8; 33]>) -> Result<(), RecordFault>
    requires well { K.has_failed sink.old ≡ false }
    ensures slot { OnOk result (Appends (K.held sink.old) (K.held sink.new) (slot_octets slot)) }
    ensures well { OnOk result (K.has_failed sink.new ≡ false) }
    ensures fault { IfErr result (λ e. e ≡ RecordFault.Write) }
    ensures failed { OnErr result (K.has_failed sink.new ≡ true) }
    ensures torn { OnErr result (Tears (K.held sink.old) (K.held sink.new) (slot_octets slot)) }
{
    match slot {
        None => put(sink, &[SILENCE]),
        Some(burst) => put(sink, &burst_record(burst)),
    }
}
