//! The received file, record by record.

ghost use Rattle.std.specs.Prelude.{◌≡◌, ◌<◌, ◌≤◌, ◌^◌, ◌↔◌, [], List, ℕ, length, take, false, true};
ghost use Rattle.std.specs.Prelude.{IsTrue, IfOk, IfErr, OnOk, OnErr, IfSome, IfNone};
ghost use Rattle.std.specs.Io.KnownBytes.{Consumes, Appends, IsAtEnd};
ghost use Rattle.dmr_record.specs.Devices.{Tears};
ghost use Rattle.dmr_record.specs.Faults.{is_of_end, is_device_fault};
ghost use Rattle.dmr_record.specs.Received.{kind_octet, receipt_fields, receipt_octets, IsReceipt};
ghost use Rattle.dmr_record.specs.Received.{ReceivedFields, FitsReceived, IsSlot, IsSlotAndKind, IsBehind, Follows};
ghost use Rattle.dmr_record.specs.Received.{received_field_octets};
ghost use Rattle.dmr_record.specs.Received.{fields_read, last_read, receipt_of, received_limit, ShowsReceivedFault};

use crate::device::{Sink, Source};
use crate::downlink::SLOT_LIMIT;
use crate::fault::RecordFault;
use crate::tag::RECEIVED;
use crate::transfer::{fill_whole, put_both, read_octet};
use byteorder::{BigEndian, ByteOrder};

/// How many records a received file has at most: a status and a packet in each slot of the longest downlink file.
pub const RECEIVED_LIMIT: u32 = 2 * SLOT_LIMIT;

/// How many octets a record has at most, in the received file and in the outgoing file.
pub const OCTET_LIMIT: usize = 65_535;

/// What the octets of a received packet are.
#[derive(Clone, Copy, Debug, PartialEq, Eq)]
pub enum ReceivedKind {
    /// A whole datagram.
    Datagram,
    /// Short data.
    ShortData,
    /// A status: source port, destination port, and the status in two octets.
    Status,
}

impl ReceivedKind {
    /// The octet that says the kind in a record.
    fn octet(self) -> u8
        ensures value { result ≡ kind_octet self }
    {
        match self {
            ReceivedKind::Datagram => 0,
            ReceivedKind::ShortData => 1,
            ReceivedKind::Status => 2,
        }
    }

    /// The kind that an octet says, where it says one.
    fn of_octet(octet: u8) -> Option<ReceivedKind>
        ensures kind { IfSome result (λ kind. octet ≡ kind_octet kind) }
        ensures none { IfNone result (2 < octet) }
    {
        match octet {
            0 => Some(ReceivedKind::Datagram),
            1 => Some(ReceivedKind::ShortData),
            2 => Some(ReceivedKind::Status),
            _ => None,
        }
    }
}

/// A record of the received file without its octets: what came in a slot, from whom, and when it was whole.
#[derive(Clone, Copy, Debug, PartialEq, Eq)]
pub struct Received {
    /// The downlink frame in which it was whole.
    pub frame: u32,
    /// The slot in which it came: 1 or 2.
    pub slot: u8,
    /// What its octets are.
    pub kind: ReceivedKind,
    /// The address of its source, of 24 bits.
    pub source: u32,
    /// How many octets it has.
    pub length: u16,
}

impl Received {
    /// Whether it may stand behind the record `last` in a file.
    fn is_behind(self, last: Received) -> bool
        ensures value { IsTrue result ↔ IsBehind (fields_read last) (fields_read self) }
    {
        if self.frame != last.frame {
            return self.frame > last.frame;
        }
        if self.slot != last.slot {
            return self.slot > last.slot;
        }
        matches!(last.kind, ReceivedKind::Status) && !matches!(self.kind, ReceivedKind::Status)
    }

    /// Whether it may stand behind the last record of those before it, if there are any.
    fn follows(self, last: Option<Received>) -> bool
        ensures value { IsTrue result ↔ Follows (last_read last) (fields_read self) }
    {
        match last {
            None => true,
            Some(last) => self.is_behind(last),
        }
    }
}

/// What stands in a record before so many octets.
fn fields_of(frame: u32, slot: u8, kind: ReceivedKind, source: u32, count: u16) -> [u8; 12]
    requires fits { source < 2 ^ 24 }
    ensures fields { result ≡ receipt_fields frame slot kind source count }
{
    let mut fields = [RECEIVED; 12];
    BigEndian::write_u32(&mut fields[1..5], frame);
    fields[5] = slot;
    fields[6] = kind.octet();
    BigEndian::write_u24(&mut fields[7..10], source);
    BigEndian::write_u16(&mut fields[10..], count);
    fields
}

/// Writes a record of the received file: what came in a slot from this source, and in which downlink frame it
/// was whole. At an `Err` the sink failed with a front of the record out. The format is this project's own.
pub fn write_received<K: Sink>(
    sink: &mut K,
    frame: u32,
    slot: u8,
    kind: ReceivedKind,
    source: u32,
    octets: &[u8],
) -> Result<(), RecordFault>
    requires well { K.has_failed sink.old ≡ false }
    requires slot { IsSlot slot }
    requires fits { source < 2 ^ 24 }
    requires short { length octets.now < 2 ^ 16 }
    ensures receipt { OnOk result (Appends (K.held sink.old) (K.held sink.new)
        (receipt_octets (record { frame = frame; slot = slot; kind = kind; source = source; octets = octets.now }))) }
    ensures well { OnOk result (K.has_failed sink.new ≡ false) }
    ensures fault { IfErr result (λ e. e ≡ RecordFault.Write) }
    ensures failed { OnErr result (K.has_failed sink.new ≡ true) }
    ensures torn { OnErr result (Tears (K.held sink.old) (K.held sink.new)
        (receipt_octets (record { frame = frame; slot = slot; kind = kind; source = source; octets = octets.now }))) }
{
    let fields = fields_of(frame, slot, kind, source, octets.len() as u16);
    put_both(sink, &fields, octets)
}

/// The record that these fields are of, where they name a slot and a kind.
fn received_of(octets: [u8; 11]) -> Option<Received>
    ensures fields { IfSome result (λ r. octets ≡ received_field_octets (fields_read r)) }
    ensures fit { IfSome result (λ r. FitsReceived (fields_read r)) }
    ensures slot { IfSome result (λ r. IsSlot r.slot) }
    ensures none { IfNone result ((f : ReceivedFields) × FitsReceived f × (¬ IsSlotAndKind f.slot f.kind)
        × (octets ≡ received_field_octets f)) }
{
    let frame = BigEndian::read_u32(&octets[..4]);
    let slot = octets[4];
    let source = BigEndian::read_u24(&octets[6..9]);
    let length = BigEndian::read_u16(&octets[9..]);
    if slot != 1 && slot != 2 {
        return None;
    }
    let Some(kind) = ReceivedKind::of_octet(octets[5]) else {
        return None;
    };
    Some(Received {
        frame,
        slot,
        kind,
        source,
        length,
    })
}

/// Reads the next record of a received file behind its head, and its octets to the front of the buffer. It
/// answers `None` at the end of the source.
///
/// `before` is the number of records that were read before it, and `last` the last of them. A record past
/// `RECEIVED_LIMIT` is `TooLong` as soon as its first octet is there, whatever that is. Then the first octet is
/// tested; the slot and the kind, and then the order of the records, once the fields are there; and then the
/// octets are read. The order is that of the frames; of a frame slot 1 stands first, and of a slot its status,
/// which at most one packet follows. The format is this project's own.
pub fn read_received<S: Source>(
    source: &mut S,
    before: u32,
    last: Option<Received>,
    octets: &mut [u8],
) -> Result<Option<Received>, RecordFault>
    requires well { S.has_failed source.old ≡ false }
    requires room { 65535 ≤ length octets.old }
    // A record is what the octets taken spell.
    ensures receipt { IfOk result (λ found. IfSome found (λ r. (before < received_limit) × IsSlot r.slot
        × Follows (last_read last) (fields_read r) × (length (take r.length octets.new) ≡ r.length)
        × IsReceipt (receipt_of r (take r.length octets.new))
        × Consumes (S.left source.old) (S.left source.new) (receipt_octets (receipt_of r (take r.length octets.new))))) }
    // There is none only at the end.
    ensures end { IfOk result (λ found. IfNone found (Consumes (S.left source.old) (S.left source.new) []
        × IsAtEnd (S.left source.new))) }
    ensures well { OnOk result (S.has_failed source.new ≡ false) }
    // A fault is shown by the octets taken, all of this record.
    ensures fault { IfErr result (λ e. (taken : List ℕ) × Consumes (S.left source.old) (S.left source.new) taken
        × ShowsReceivedFault received_limit before (last_read last) e taken) }
    ensures cut { IfErr result (λ e. is_of_end e ≡ true → IsAtEnd (S.left source.new)) }
    // `Read` is told exactly where the device failed.
    ensures device { IfErr result (λ e. S.has_failed source.new ≡ is_device_fault e) }
{
    let Some(tag) = read_octet(source)? else {
        return Ok(None);
    };
    if before >= RECEIVED_LIMIT {
        return Err(RecordFault::TooLong);
    }
    if tag != RECEIVED {
        return Err(RecordFault::BadTag);
    }
    let mut fields = [0u8; 11];
    fill_whole(source, &mut fields, 11)?;
    let Some(received) = received_of(fields) else {
        return Err(RecordFault::BadTag);
    };
    if !received.follows(last) {
        return Err(RecordFault::FrameOrder);
    }
    fill_whole(source, octets, received.length as usize)?;
    Ok(Some(received))
}
