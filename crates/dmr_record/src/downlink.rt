//! The downlink file, slot by slot.

ghost use Rattle.std.specs.Prelude.{◌≡◌, ◌%◌, ◌<◌, ◌⊎◌, ◌++◌, [], List, ℕ, length, false, true, Some};
ghost use Rattle.std.specs.Prelude.{IfOk, IfErr, OnOk, OnErr};
ghost use Rattle.std.specs.Io.KnownBytes.{Consumes, Appends, IsAtEnd};
ghost use Rattle.dmr_record.specs.Devices.{Tears};
ghost use Rattle.dmr_record.specs.Downlink.{IsSent, downlink_octets, sent_octets, slot_limit, ShowsDownlinkFault};
ghost use Rattle.dmr_record.specs.Faults.{is_of_end, is_device_fault};
ghost use Rattle.dmr_record.specs.NextSlot.{IfNoSlot, IfSlot};

use crate::device::{Sink, Source};
use crate::fault::RecordFault;
use crate::next_slot::NextSlot;
use crate::tag::{BURST, SILENCE};
use crate::transfer::{fill_whole, put, read_octet};
use crate::uplink::FRAME_LIMIT;

/// How many slots a downlink file has at most: those of the longest uplink file, and of the six frames behind it.
pub const SLOT_LIMIT: u32 = 2 * (FRAME_LIMIT + 6);

/// Lays the record of a burst behind its CACH into its place.
#[inline(always)]
fn lay_record(sent: &([u8; 3], [u8; 33]), place: &mut [u8])
    requires room { length place.old ≡ 37 }
    ensures octets { place.new ≡ sent_octets (Some sent.now) }
{
    place[0] = BURST;
    place[1..4].copy_from_slice(&sent.0);
    place[4..].copy_from_slice(&sent.1);
}

/// The record of a burst behind its CACH.
fn burst_record(sent: &([u8; 3], [u8; 33])) -> [u8; 37]
    ensures octets { result ≡ sent_octets (Some sent.now) }
{
    let mut record = [0; 37];
    lay_record(sent, &mut record[..]);
    record
}

/// Writes a slot of the downlink file: silence, or a CACH and a burst. At an `Err` the sink failed with a front
/// of the record out. The format is this project's own.
pub fn write_slot<K: Sink>(
    sink: &mut K,
    slot: Option<([u8; 3], [u8; 33])>,
) -> Result<(), RecordFault>
    requires well { K.has_failed sink.old ≡ false }
    ensures slot { OnOk result (Appends (K.held sink.old) (K.held sink.new) (sent_octets slot)) }
    ensures well { OnOk result (K.has_failed sink.new ≡ false) }
    ensures fault { IfErr result (λ e. e ≡ RecordFault.Write) }
    ensures failed { OnErr result (K.has_failed sink.new ≡ true) }
    ensures torn { OnErr result (Tears (K.held sink.old) (K.held sink.new) (sent_octets slot)) }
{
    match slot {
        None => put(sink, &[SILENCE]),
        Some(sent) => put(sink, &burst_record(&sent)),
    }
}

/// The records of two bursts, one behind the other.
fn both_records(first: &([u8; 3], [u8; 33]), second: &([u8; 3], [u8; 33])) -> [u8; 74]
    ensures octets { result ≡ sent_octets (Some first.now) ++ sent_octets (Some second.now) }
{
    let mut records = [0; 74];
    lay_record(first, &mut records[..37]);
    lay_record(second, &mut records[37..]);
    records
}

/// Writes both slots of a frame of the downlink file, as `write_slot` writes each of them, in one piece where both are alike.
#[inline(always)]
pub fn write_slots<K: Sink>(
    sink: &mut K,
    slots: &[Option<([u8; 3], [u8; 33])>; 2],
) -> Result<(), RecordFault>
    requires well { K.has_failed sink.old ≡ false }
    ensures slots { OnOk result (Appends (K.held sink.old) (K.held sink.new) (downlink_octets slots.now)) }
    ensures well { OnOk result (K.has_failed sink.new ≡ false) }
    ensures fault { IfErr result (λ e. e ≡ RecordFault.Write) }
    ensures failed { OnErr result (K.has_failed sink.new ≡ true) }
    ensures torn { OnErr result (Tears (K.held sink.old) (K.held sink.new) (downlink_octets slots.now)) }
{
    match (&slots[0], &slots[1]) {
        (None, None) => put(sink, &[SILENCE, SILENCE]),
        (Some(first), Some(second)) => put_records(sink, first, second),
        (first, second) => write_each_slot(sink, first, second),
    }
}

/// Writes two slots, one after the other.
#[inline(never)]
#[tactic(auto, using(crate::proofs::Torn::Tears_after, crate::proofs::Torn::Tears_more))]
fn write_each_slot<K: Sink>(
    sink: &mut K,
    first: &Option<([u8; 3], [u8; 33])>,
    second: &Option<([u8; 3], [u8; 33])>,
) -> Result<(), RecordFault>
    requires well { K.has_failed sink.old ≡ false }
    ensures octets { OnOk result (Appends (K.held sink.old) (K.held sink.new) (sent_octets first.now ++ sent_octets second.now)) }
    ensures well { OnOk result (K.has_failed sink.new ≡ false) }
    ensures fault { IfErr result (λ e. e ≡ RecordFault.Write) }
    ensures failed { OnErr result (K.has_failed sink.new ≡ true) }
    ensures torn { OnErr result (Tears (K.held sink.old) (K.held sink.new) (sent_octets first.now ++ sent_octets second.now)) }
{
    write_slot(sink, *first)?;
    write_slot(sink, *second)
}

/// Writes the records of two bursts. Room for them is taken here alone.
#[inline(never)]
fn put_records<K: Sink>(
    sink: &mut K,
    first: &([u8; 3], [u8; 33]),
    second: &([u8; 3], [u8; 33]),
) -> Result<(), RecordFault>
    requires well { K.has_failed sink.old ≡ false }
    ensures octets { OnOk result (Appends (K.held sink.old) (K.held sink.new)
        (sent_octets (Some first.now) ++ sent_octets (Some second.now))) }
    ensures well { OnOk result (K.has_failed sink.new ≡ false) }
    ensures fault { IfErr result (λ e. e ≡ RecordFault.Write) }
    ensures failed { OnErr result (K.has_failed sink.new ≡ true) }
    ensures torn { OnErr result (Tears (K.held sink.old) (K.held sink.new)
        (sent_octets (Some first.now) ++ sent_octets (Some second.now))) }
{
    put(sink, &both_records(first, second))
}

/// Reads a CACH and a burst behind a tag.
fn read_sent<S: Source>(source: &mut S) -> Result<([u8; 3], [u8; 33]), RecordFault>
    requires well { S.has_failed source.old ≡ false }
    ensures octets { IfOk result (λ sent. Consumes (S.left source.old) (S.left source.new) (sent.0 ++ sent.1)) }
    ensures well { OnOk result (S.has_failed source.new ≡ false) }
    ensures part { OnErr result ((part : List ℕ) × (length part < 36)
        × Consumes (S.left source.old) (S.left source.new) part) }
    ensures cause { IfErr result (λ e. (e ≡ RecordFault.CutRecord) ⊎ (e ≡ RecordFault.Read)) }
    ensures cut { IfErr result (λ e. is_of_end e ≡ true → IsAtEnd (S.left source.new)) }
    ensures device { IfErr result (λ e. S.has_failed source.new ≡ is_device_fault e) }
{
    let mut octets = [0u8; 36];
    fill_whole(source, &mut octets, 36)?;
    let mut cach = [0u8; 3];
    let mut burst = [0u8; 33];
    cach.copy_from_slice(&octets[..3]);
    burst.copy_from_slice(&octets[3..]);
    Ok((cach, burst))
}

/// Reads the next slot of a downlink file behind its head: silence, or a CACH and a burst. It answers `End` at
/// the end of the source, where that is behind slot 2 of a frame or the head.
///
/// `before` is the number of slots that were read before it. A slot past `SLOT_LIMIT` is `TooLong` as soon as its
/// first octet is there, whatever that is. The format is this project's own.
pub fn read_slot<S: Source>(
    source: &mut S,
    before: u32,
) -> Result<NextSlot<([u8; 3], [u8; 33])>, RecordFault>
    requires well { S.has_failed source.old ≡ false }
    // A slot is what the octets taken spell.
    ensures slot { IfOk result (λ found. IfSlot found (λ slot. (before < slot_limit) × IsSent slot
        × Consumes (S.left source.old) (S.left source.new) (sent_octets slot))) }
    // There is none only at the end, behind whole frames.
    ensures end { IfOk result (λ found. IfNoSlot found ((before % 2 ≡ 0)
        × Consumes (S.left source.old) (S.left source.new) [] × IsAtEnd (S.left source.new))) }
    ensures well { OnOk result (S.has_failed source.new ≡ false) }
    // A fault is shown by the octets taken, all of this slot.
    ensures fault { IfErr result (λ e. (taken : List ℕ) × Consumes (S.left source.old) (S.left source.new) taken
        × ShowsDownlinkFault slot_limit before e taken) }
    ensures cut { IfErr result (λ e. is_of_end e ≡ true → IsAtEnd (S.left source.new)) }
    // `Read` is told exactly where the device failed.
    ensures device { IfErr result (λ e. S.has_failed source.new ≡ is_device_fault e) }
{
    let Some(tag) = read_octet(source)? else {
        if before % 2 == 1 {
            return Err(RecordFault::HalfFrame);
        }
        return Ok(NextSlot::End);
    };
    if before >= SLOT_LIMIT {
        return Err(RecordFault::TooLong);
    }
    match tag {
        SILENCE => Ok(NextSlot::Slot(None)),
        BURST => {
            let sent = read_sent(source)?;
            Ok(NextSlot::Slot(Some(sent)))
        }
        _ => Err(RecordFault::BadTag),
    }
}
