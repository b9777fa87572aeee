//! Which packets of a capture become records of an outgoing list, and in which frames.
ghost use Rattle.std.specs.Prelude.{◌≡◌, ◌≤◌, ◌<◌, ◌+◌, ◌^◌, true, false, Some, None, length, IfSome, IfNone, IfOk, IfErr, OnOk};
ghost use Rattle.std.specs.List.{AllByRecursion};
ghost use Rattle.std.specs.Io.KnownBytes.{Appends};
ghost use Rattle.dmr_record.specs.Devices.{Tears};
ghost use Rattle.dmr_record.specs.Head.{record_limit};
ghost use Rattle.dmr_record.specs.Outgoing.{IsSending, sendings_octets};
ghost use Rattle.dmr_record.specs.Received.{IsSlot};
ghost use Rattle.dmr_capture.specs.State.{captured_packet};
ghost use Rattle.dmr_datagrams.specs.Sendings.{IsPastList, asked_frame, frame_of, progress_of, sendings_of, to_radios};
ghost use Rattle.dmr_datagrams.specs.Untaken.{IfPast, IfRecordTorn};

use dmr_capture::{Link, Packet, ipv4_in};
use dmr_record::{RECORD_LIMIT, Sink, write_outgoing};

/// What each record of an outgoing list says beside its datagram.
#[derive(Clone, Copy, Debug, Drop, PartialEq, Eq)]
pub struct ImportSettings {
    /// The slot in which the datagrams are sent: 1 or 2.
    pub slot: u8,
    /// Whether they are sent as confirmed packets.
    pub confirmed: bool,
    /// Whether they are sent at rate 1, and not at rate 1/2.
    pub full: bool,
    /// The frame of the first record.
    pub first_frame: u32,
}

/// Where an outgoing list that is made of a capture has got to.
#[derive(Clone, Copy, Debug, Drop, PartialEq, Eq)]
pub(crate) struct ListedSoFar {
    /// When the first packet came that was taken, in nanoseconds.
    pub(crate) first: Option<u128>,
    /// The frame of the last record, or 0.
    pub(crate) last: u32,
    /// How many records there are.
    pub(crate) records: u32,
}

/// How many nanoseconds a frame has.
const FRAME: u128 = 60_000_000;

/// Why a packet that is taken didn't become a record.
#[derive(Clone, Copy, Drop, PartialEq, Eq)]
pub(crate) enum Untaken {
    /// There is no room for its record in a list, or for its frame in a record.
    Past,
    /// The sink failed.
    Torn,
}

/// The IPv4 packet that a packet carries, where it is for radios: its destination begins with 12 or 225.
fn to_radios(link: Link, octets: &[u8]) -> Option<&[u8]>
    ensures some { IfSome result (λ datagram. to_radios link octets.now ≡ Some datagram.now) }
    ensures short { IfSome result (λ datagram. length datagram.now < 2 ^ 16) }
    ensures none { IfNone result (to_radios link octets.now ≡ None) }
{
    let datagram = ipv4_in(link, octets)?;
    match datagram[16] {
        12 | 225 => Some(datagram),
        _ => None,
    }
}

/// The frame of a record, by the time of its packet and that of the first, where a record has room for it. It is no earlier than
/// that of the last record.
fn frame_of(first_frame: u32, first: u128, last: u32, time: u128) -> Option<u32>
    ensures some { IfSome result (λ frame. frame ≡ frame_of first_frame first last time) }
    ensures none { IfNone result (2 ^ 32 ≤ asked_frame first_frame first time) }
{
    let since = if time > first { time - first } else { 0 };
    let frame = u128::from(first_frame) + since / FRAME;
    match u32::try_from(frame) {
        Ok(frame) => Some(frame.max(last)),
        Err(_) => None,
    }
}

impl ListedSoFar {
    /// In front of a list.
    pub(crate) fn new() -> ListedSoFar
        ensures value { result ≡ record { first = None; last = 0; records = 0 } }
    {
        ListedSoFar {
            first: None,
            last: 0,
            records: 0,
        }
    }

    /// Takes a packet, and writes its record where it is for radios.
    pub(crate) fn take<K: Sink>(
        self,
        settings: ImportSettings,
        packet: Packet,
        octets: &[u8],
        sink: &mut K,
    ) -> Result<ListedSoFar, Untaken>
        requires slot { IsSlot settings.slot }
        requires well { K.has_failed sink.old ≡ false }
        ensures progress { IfOk result (λ new. new ≡ progress_of settings self (captured_packet packet octets.now)) }
        ensures records { OnOk result (Appends (K.held sink.old) (K.held sink.new)
            (sendings_octets (sendings_of settings self (captured_packet packet octets.now)))) }
        ensures fit { OnOk result (AllByRecursion IsSending (sendings_of settings self (captured_packet packet octets.now))) }
        ensures few { IfOk result (λ new. self.records ≤ record_limit → new.records ≤ record_limit) }
        ensures one { IfOk result (λ new. new.records ≤ self.records + 1) }
        ensures well { OnOk result (K.has_failed sink.new ≡ false) }
        ensures past { IfErr result (λ e. IfPast e (IsPastList settings self (captured_packet packet octets.now))) }
        ensures kept { IfErr result (λ e. IfPast e (sink.new ≡ sink.old)) }
        ensures torn { IfErr result (λ e. IfRecordTorn e (Tears (K.held sink.old) (K.held sink.new)
            (sendings_octets (sendings_of settings self (captured_packet packet octets.now))))) }
        ensures whole { IfErr result (λ e. IfRecordTorn e
            (AllByRecursion IsSending (sendings_of settings self (captured_packet packet octets.now)))) }
        ensures room { IfErr result (λ e. IfRecordTorn e
            ((progress_of settings self (captured_packet packet octets.now)).records ≤ record_limit)) }
        ensures failed { IfErr result (λ e. IfRecordTorn e (K.has_failed sink.new ≡ true)) }
    {
        let Some(datagram) = to_radios(packet.link, octets) else {
            return Ok(self);
        };
        if self.records >= RECORD_LIMIT {
            return Err(Untaken::Past);
        }
        let first = self.first.unwrap_or(packet.time);
        let Some(frame) = frame_of(settings.first_frame, first, self.last, packet.time) else {
            return Err(Untaken::Past);
        };
        let ImportSettings {
            slot,
            confirmed,
            full,
            first_frame: _,
        } = settings;
        match write_outgoing(sink, frame, slot, confirmed, full, datagram) {
            Ok(()) => Ok(ListedSoFar {
                first: Some(first),
                last: frame,
                records: self.records + 1,
            }),
            Err(_) => Err(Untaken::Torn),
        }
    }
}
