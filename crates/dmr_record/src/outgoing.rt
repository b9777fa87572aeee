//! The outgoing file, record by record.

ghost use Rattle.std.specs.Prelude.{◌≡◌, ◌<◌, ◌≤◌, ◌⊎◌, ◌^◌, [], ◌∷◌, List, ℕ, length};
ghost use Rattle.std.specs.Prelude.{take, false, true, IfOk, IfErr, OnOk, OnErr, IfSome, IfNone};
ghost use Rattle.std.specs.Io.KnownBytes.{Consumes, Appends, IsAtEnd};
ghost use Rattle.dmr_record.specs.Devices.{Tears};
ghost use Rattle.dmr_record.specs.Faults.{is_of_end, is_device_fault};
ghost use Rattle.dmr_record.specs.Outgoing.{outgoing_field_octets, mode_of, IsSlotAndMode, Keeps};
ghost use Rattle.dmr_record.specs.Outgoing.{IsSending, emptied, sending_of, sending_octets, ShowsOutgoingFault};
ghost use Rattle.dmr_record.specs.Outgoing.{record_fields, whole_sending};
ghost use Rattle.dmr_record.specs.Received.{IsSlot};
ghost use Rattle.dmr_record.specs.Head.{record_limit};

use crate::device::{Sink, Source};
use crate::fault::RecordFault;
use crate::tag::OUTGOING;
use crate::transfer::{fill, fill_whole, put_both, read_octet};
use byteorder::{BigEndian, ByteOrder};
use dmr_octets::{DATAGRAM_LIMIT, Octets};

/// How many records an outgoing file has at most.
pub const RECORD_LIMIT: u32 = 1 << 20;

/// A datagram that is to be sent, with the first `DATAGRAM_LIMIT` of its octets.
#[derive(Debug, Default, Drop)]
pub struct Outgoing {
    /// The downlink frame in which it is offered.
    pub frame: u32,
    /// The slot that it is sent in: 1 or 2.
    pub slot: u8,
    /// Whether it is sent as a confirmed packet.
    pub confirmed: bool,
    /// Whether it is sent at rate 1, and not at rate 1/2.
    pub full: bool,
    /// How many octets it has, those that aren't kept too.
    pub length: u16,
    /// The first of its octets.
    pub octets: Octets<DATAGRAM_LIMIT>,
}

/// A record of the outgoing file without its octets: how a datagram is to be sent, and when.
#[derive(Clone, Copy, Debug, PartialEq, Eq)]
pub struct OutgoingRecord {
    /// The downlink frame in which it is offered.
    pub frame: u32,
    /// The slot that it is sent in: 1 or 2.
    pub slot: u8,
    /// Whether it is sent as a confirmed packet.
    pub confirmed: bool,
    /// Whether it is sent at rate 1, and not at rate 1/2.
    pub full: bool,
    /// How many octets it has.
    pub length: u16,
}

/// The fields of a record between its tag and its octets.
#[derive(Clone, Copy)]
struct Fields {
    frame: u32,
    slot: u8,
    mode: u8,
    length: u16,
}

/// How a datagram is to be sent.
#[derive(Clone, Copy)]
struct Mode {
    confirmed: bool,
    full: bool,
}

impl Mode {
    /// The octet that says the mode in a record.
    fn octet(self) -> u8
        ensures value { result ≡ mode_of self.confirmed self.full }
    {
        let confirmed = if self.confirmed { 1 } else { 0 };
        let full = if self.full { 2 } else { 0 };
        confirmed + full
    }
}

/// The fields that eight octets spell.
fn fields_of(octets: [u8; 8]) -> Fields
    ensures octets { octets ≡ outgoing_field_octets
        (record { frame = result.frame; slot = result.slot; mode = result.mode; count = result.length }) }
{
    Fields {
        frame: BigEndian::read_u32(&octets[..4]),
        slot: octets[4],
        mode: octets[5],
        length: BigEndian::read_u16(&octets[6..]),
    }
}

/// Reads so many octets, and keeps the first of them in the place that is given for them, since they are many.
fn read_octets<S: Source>(
    source: &mut S,
    count: u16,
    octets: &mut Octets<DATAGRAM_LIMIT>,
) -> Result<(), RecordFault>
    requires well { S.has_failed source.old ≡ false }
    requires empty { octets.old ≡ [] }
    ensures octets { OnOk result ((all : List ℕ) × (length all ≡ count)
        × (octets.new ≡ take 1400 all) × Consumes (S.left source.old) (S.left source.new) all) }
    ensures well { OnOk result (S.has_failed source.new ≡ false) }
    ensures part { OnErr result ((part : List ℕ) × (length part < count)
        × Consumes (S.left source.old) (S.left source.new) part) }
    ensures emptied { OnErr result (octets.new ≡ []) }
    ensures cause { IfErr result (λ e. (e ≡ RecordFault.CutRecord) ⊎ (e ≡ RecordFault.Read)) }
    ensures cut { IfErr result (λ e. is_of_end e ≡ true → IsAtEnd (S.left source.new)) }
    ensures device { IfErr result (λ e. S.has_failed source.new ≡ is_device_fault e) }
{
    let mut left = count as usize;
    let mut chunk = [0u8; 256];
    while left > 0 {
        let most = left.min(256);
        if let Err(fault) = fill_whole(source, &mut chunk, most) {
            octets.clear();
            return Err(fault);
        }
        octets.keep(&chunk[..most]);
        left -= most;
    }
    Ok(())
}

/// Reads the fields behind a tag.
fn read_fields<S: Source>(source: &mut S) -> Result<Fields, RecordFault>
    requires well { S.has_failed source.old ≡ false }
    ensures fields { IfOk result (λ f. Consumes (S.left source.old) (S.left source.new)
        (outgoing_field_octets (record { frame = f.frame; slot = f.slot; mode = f.mode; count = f.length }))) }
    ensures well { OnOk result (S.has_failed source.new ≡ false) }
    ensures part { OnErr result ((part : List ℕ) × (length part < 8)
        × Consumes (S.left source.old) (S.left source.new) part) }
    ensures cause { IfErr result (λ e. (e ≡ RecordFault.CutRecord) ⊎ (e ≡ RecordFault.Read)) }
    ensures cut { IfErr result (λ e. is_of_end e ≡ true → IsAtEnd (S.left source.new)) }
    ensures device { IfErr result (λ e. S.has_failed source.new ≡ is_device_fault e) }
{
    let mut octets = [0u8; 8];
    match fill(source, &mut octets) {
        Ok(8) => Ok(fields_of(octets)),
        Ok(_) => Err(RecordFault::CutRecord),
        Err(fault) => Err(fault),
    }
}

/// The mode, where the fields name a slot and a mode.
fn mode_named(slot: u8, mode: u8) -> Option<Mode>
    ensures mode { IfSome result (λ found. mode ≡ mode_of found.confirmed found.full) }
    ensures place { IfSome result (λ _. IsSlotAndMode slot mode) }
    ensures none { IfNone result (¬ IsSlotAndMode slot mode) }
{
    if slot != 1 && slot != 2 {
        return None;
    }
    match mode {
        0..=3 => Some(Mode {
            confirmed: mode % 2 == 1,
            full: mode >= 2,
        }),
        _ => None,
    }
}

/// Reads the next record up to its octets, where there is one.
fn read_record<S: Source>(
    source: &mut S,
    before: u32,
    last: u32,
) -> Result<Option<OutgoingRecord>, RecordFault>
    requires well { S.has_failed source.old ≡ false }
    ensures fields { IfOk result (λ found. IfSome found (λ r. (before < record_limit) × (last ≤ r.frame) × IsSlot r.slot
        × Consumes (S.left source.old) (S.left source.new) (2 ∷ outgoing_field_octets (record_fields r)))) }
    ensures end { IfOk result (λ found. IfNone found (Consumes (S.left source.old) (S.left source.new) []
        × IsAtEnd (S.left source.new))) }
    ensures well { OnOk result (S.has_failed source.new ≡ false) }
    ensures fault { IfErr result (λ e. (taken : List ℕ) × Consumes (S.left source.old) (S.left source.new) taken
        × ShowsOutgoingFault record_limit before last e taken) }
    ensures cut { IfErr result (λ e. is_of_end e ≡ true → IsAtEnd (S.left source.new)) }
    ensures device { IfErr result (λ e. S.has_failed source.new ≡ is_device_fault e) }
{
    let Some(tag) = read_octet(source)? else {
        return Ok(None);
    };
    if before >= RECORD_LIMIT {
        return Err(RecordFault::TooLong);
    }
    if tag != OUTGOING {
        return Err(RecordFault::BadTag);
    }
    let fields = read_fields(source)?;
    let Some(mode) = mode_named(fields.slot, fields.mode) else {
        return Err(RecordFault::BadTag);
    };
    if fields.frame < last {
        return Err(RecordFault::FrameOrder);
    }
    Ok(Some(OutgoingRecord {
        frame: fields.frame,
        slot: fields.slot,
        confirmed: mode.confirmed,
        full: mode.full,
        length: fields.length,
    }))
}

/// Reads the next record of an outgoing file behind its head. It answers `None` at the end of the source.
///
/// `before` is the number of records that were read before it, and `last` the frame of the last of them, or 0.
/// The octets are tested as `read_outgoing_into` tests them. The format is this project's own.
pub fn read_outgoing<S: Source>(
    source: &mut S,
    before: u32,
    last: u32,
) -> Result<Option<Outgoing>, RecordFault>
    requires well { S.has_failed source.old ≡ false }
    // A record is what the octets taken spell.
    ensures sending { IfOk result (λ found. IfSome found (λ o. (before < record_limit) × (last ≤ o.frame)
        × ((datagram : List ℕ) × Keeps o datagram × IsSending (sending_of o datagram)
        × Consumes (S.left source.old) (S.left source.new) (sending_octets (sending_of o datagram))))) }
    // There is none only at the end.
    ensures end { IfOk result (λ found. IfNone found (Consumes (S.left source.old) (S.left source.new) []
        × IsAtEnd (S.left source.new))) }
    ensures well { OnOk result (S.has_failed source.new ≡ false) }
    // A fault is shown by the octets taken, all of this record.
    ensures fault { IfErr result (λ e. (taken : List ℕ) × Consumes (S.left source.old) (S.left source.new) taken
        × ShowsOutgoingFault record_limit before last e taken) }
    ensures cut { IfErr result (λ e. is_of_end e ≡ true → IsAtEnd (S.left source.new)) }
    // `Read` is told exactly where the device failed.
    ensures device { IfErr result (λ e. S.has_failed source.new ≡ is_device_fault e) }
{
    let mut outgoing = Outgoing::default();
    let is_read = read_outgoing_into(source, &mut outgoing, before, last)?;
    Ok(is_read.then_some(outgoing))
}

/// Reads the next record of an outgoing file behind its head into a place that is kept, since a record is large. It answers whether
/// there was one: at the end of the source there is none. Where none is read, the place keeps all but its octets.
///
/// `before` is the number of records that were read before it, and `last` the frame of the last of them, or 0.
/// A record past `RECORD_LIMIT` is `TooLong` as soon as its first octet is there, whatever that is. Then the
/// first octet is tested; the slot and the mode, and then the order of the frames, once the fields are there; and
/// then the octets are read. The format is this project's own.
pub fn read_outgoing_into<S: Source>(
    source: &mut S,
    outgoing: &mut Outgoing,
    before: u32,
    last: u32,
) -> Result<bool, RecordFault>
    requires well { S.has_failed source.old ≡ false }
    // A record is what the octets taken spell.
    ensures sending { IfOk result (λ found. found ≡ true → (before < record_limit) × (last ≤ outgoing.new.frame)
        × ((datagram : List ℕ) × Keeps outgoing.new datagram × IsSending (sending_of outgoing.new datagram)
        × Consumes (S.left source.old) (S.left source.new) (sending_octets (sending_of outgoing.new datagram)))) }
    // There is none only at the end.
    ensures end { IfOk result (λ found. found ≡ false → Consumes (S.left source.old) (S.left source.new) []
        × IsAtEnd (S.left source.new)) }
    // Where none is read, the place keeps all but its octets.
    ensures none { IfOk result (λ found. found ≡ false → outgoing.new ≡ emptied outgoing.old) }
    ensures well { OnOk result (S.has_failed source.new ≡ false) }
    // A fault is shown by the octets taken, all of this record.
    ensures fault { IfErr result (λ e. (taken : List ℕ) × Consumes (S.left source.old) (S.left source.new) taken
        × ShowsOutgoingFault record_limit before last e taken) }
    ensures faulty { OnErr result (outgoing.new ≡ emptied outgoing.old) }
    ensures cut { IfErr result (λ e. is_of_end e ≡ true → IsAtEnd (S.left source.new)) }
    // `Read` is told exactly where the device failed.
    ensures device { IfErr result (λ e. S.has_failed source.new ≡ is_device_fault e) }
{
    outgoing.octets.clear();
    let Some(read) = read_record(source, before, last)? else {
        return Ok(false);
    };
    read_octets(source, read.length, &mut outgoing.octets)?;
    outgoing.frame = read.frame;
    outgoing.slot = read.slot;
    outgoing.confirmed = read.confirmed;
    outgoing.full = read.full;
    outgoing.length = read.length;
    Ok(true)
}

/// Reads the next record of an outgoing file behind its head, and all its octets to the front of the buffer, which
/// has room for `OCTET_LIMIT`. It answers `None` at the end of the source.
///
/// `before` is the number of records that were read before it, and `last` the frame of the last of them, or 0.
/// The octets are tested as `read_outgoing_into` tests them. The format is this project's own.
pub fn read_whole_outgoing<S: Source>(
    source: &mut S,
    before: u32,
    last: u32,
    octets: &mut [u8],
) -> Result<Option<OutgoingRecord>, RecordFault>
    requires well { S.has_failed source.old ≡ false }
    requires room { 65535 ≤ length octets.old }
    // A record is what the octets taken spell.
    ensures sending { IfOk result (λ found. IfSome found (λ r. (before < record_limit) × (last ≤ r.frame)
        × (length (take r.length octets.new) ≡ r.length) × IsSending (whole_sending r (take r.length octets.new))
        × Consumes (S.left source.old) (S.left source.new) (sending_octets (whole_sending r (take r.length octets.new))))) }
    // There is none only at the end.
    ensures end { IfOk result (λ found. IfNone found (Consumes (S.left source.old) (S.left source.new) []
        × IsAtEnd (S.left source.new))) }
    ensures well { OnOk result (S.has_failed source.new ≡ false) }
    // A fault is shown by the octets taken, all of this record.
    ensures fault { IfErr result (λ e. (taken : List ℕ) × Consumes (S.left source.old) (S.left source.new) taken
        × ShowsOutgoingFault record_limit before last e taken) }
    ensures cut { IfErr result (λ e. is_of_end e ≡ true → IsAtEnd (S.left source.new)) }
    // `Read` is told exactly where the device failed.
    ensures device { IfErr result (λ e. S.has_failed source.new ≡ is_device_fault e) }
{
    let Some(read) = read_record(source, before, last)? else {
        return Ok(None);
    };
    fill_whole(source, octets, read.length as usize)?;
    Ok(Some(read))
}

/// What stands in a record before so many octets.
fn octets_before(frame: u32, slot: u8, mode: Mode, count: u16) -> [u8; 9]
    ensures fields { result ≡ 2 ∷ outgoing_field_octets
        (record { frame = frame; slot = slot; mode = mode_of mode.confirmed mode.full; count = count }) }
{
    let mut fields = [OUTGOING; 9];
    BigEndian::write_u32(&mut fields[1..5], frame);
    fields[5] = slot;
    fields[6] = mode.octet();
    BigEndian::write_u16(&mut fields[7..9], count);
    fields
}

/// Writes a record of the outgoing file: a datagram of at most `OCTET_LIMIT` octets, for slot 1 or 2, confirmed or
/// not, at rate 1 where it is `full` and else at rate 1/2. At an `Err` the sink failed with a front of the record
/// out. The format is this project's own.
pub fn write_outgoing<K: Sink>(
    sink: &mut K,
    frame: u32,
    slot: u8,
    confirmed: bool,
    full: bool,
    octets: &[u8],
) -> Result<(), RecordFault>
    requires well { K.has_failed sink.old ≡ false }
    requires slot { IsSlot slot }
    requires short { length octets.now < 2 ^ 16 }
    ensures sending { OnOk result (Appends (K.held sink.old) (K.held sink.new) (sending_octets
        (record { frame = frame; slot = slot; confirmed = confirmed; full = full; datagram = octets.now }))) }
    ensures well { OnOk result (K.has_failed sink.new ≡ false) }
    ensures fault { IfErr result (λ e. e ≡ RecordFault.Write) }
    ensures failed { OnErr result (K.has_failed sink.new ≡ true) }
    ensures torn { OnErr result (Tears (K.held sink.old) (K.held sink.new) (sending_octets
        (record { frame = frame; slot = slot; confirmed = confirmed; full = full; datagram = octets.now }))) }
{
    let mode = Mode { confirmed, full };
    let fields = octets_before(frame, slot, mode, octets.len() as u16);
    put_both(sink, &fields, octets)
}
