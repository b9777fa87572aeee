//! Which records of a received list are written to a capture, and when they came.
ghost use Rattle.std.specs.Prelude.{◌≡◌, ◌≤◌, ◌<◌, ◌^◌, ◌*◌, true, false, length, IfSome, IfNone, IfOk, IfErr, OnOk};
ghost use Rattle.std.specs.Io.KnownBytes.{Appends};
ghost use Rattle.std.specs.List.{AllByRecursion, flat_map};
ghost use Rattle.dmr_record.specs.Devices.{Tears};
ghost use Rattle.dmr_record.specs.Received.{receipt_of};
ghost use Rattle.dmr_capture.specs.Written.{IsWritable, packet_record};
ghost use Rattle.dmr_datagrams.specs.Packets.{IsLate, is_wanted, exported_packets, time_limit, exported_time};
ghost use Rattle.dmr_datagrams.specs.Unwritten.{IfLate, IfPacketTorn};

use dmr_capture::write_packet;
use dmr_record::{Received, ReceivedKind, Sink};

/// Which records of a received list are written to a capture, and when the recording began.
#[derive(Clone, Copy, Debug, Drop, PartialEq, Eq)]
pub struct ExportSettings {
    /// The slot whose records are written, 1 or 2, or none for both.
    pub slot: Option<u8>,
    /// When the recording began, in microseconds behind the begin of the year 1970.
    pub start: u64,
}

/// How many microseconds a frame has.
const FRAME: u64 = 60_000;

/// How many microseconds slot 2 of a frame begins behind slot 1.
const SLOT_2: u64 = 30_000;

/// The first time, in microseconds, that a capture has no room for: its seconds have 32 bits.
const TIME_LIMIT: u64 = (1 << 32) * 1_000_000;

/// Why a record wasn't written.
#[derive(Clone, Copy, Drop, PartialEq, Eq)]
pub(crate) enum Unwritten {
    /// It came later than a capture can say.
    Late,
    /// The sink failed.
    Torn,
}

/// Whether a record is written: a datagram, in a slot that is wanted.
fn is_wanted(settings: ExportSettings, received: Received) -> bool
    ensures value { result ≡ is_wanted settings received.kind received.slot }
{
    let is_of_slot = match settings.slot {
        Some(slot) => slot == received.slot,
        None => true,
    };
    matches!(received.kind, ReceivedKind::Datagram) && is_of_slot
}

/// When a record came, in microseconds, where a capture can say it.
fn exported_time(start: u64, frame: u32, slot: u8) -> Option<u64>
    ensures some { IfSome result (λ time. time ≡ exported_time start frame slot) }
    ensures fits { IfSome result (λ time. time < time_limit) }
    ensures none { IfNone result (time_limit ≤ exported_time start frame slot) }
{
    let half = if slot == 2 { SLOT_2 } else { 0 };
    let behind = FRAME * u64::from(frame) + half;
    if start >= TIME_LIMIT - behind {
        return None;
    }
    Some(start + behind)
}

/// Writes a record of a received list to a capture, where it is wanted, and answers how many packets that are.
pub(crate) fn export_record<K: Sink>(
    settings: ExportSettings,
    received: Received,
    octets: &[u8],
    sink: &mut K,
) -> Result<u32, Unwritten>
    requires well { K.has_failed sink.old ≡ false }
    requires short { length octets.now < 2 ^ 16 }
    ensures packets { OnOk result (Appends (K.held sink.old) (K.held sink.new)
        (flat_map packet_record (exported_packets settings (receipt_of received octets.now)))) }
    ensures count { IfOk result (λ n. n ≡ length (exported_packets settings (receipt_of received octets.now))) }
    ensures fit { OnOk result (AllByRecursion IsWritable (exported_packets settings (receipt_of received octets.now))) }
    ensures well { OnOk result (K.has_failed sink.new ≡ false) }
    ensures late { IfErr result (λ e. IfLate e (IsLate settings (receipt_of received octets.now))) }
    ensures kept { IfErr result (λ e. IfLate e (sink.new ≡ sink.old)) }
    ensures torn { IfErr result (λ e. IfPacketTorn e (Tears (K.held sink.old) (K.held sink.new)
        (flat_map packet_record (exported_packets settings (receipt_of received octets.now))))) }
    ensures failed { IfErr result (λ e. IfPacketTorn e (K.has_failed sink.new ≡ true)) }
{
    if !is_wanted(settings, received) {
        return Ok(0);
    }
    let Some(time) = exported_time(settings.start, received.frame, received.slot) else {
        return Err(Unwritten::Late);
    };
    match write_packet(sink, time, octets) {
        Ok(()) => Ok(1),
        Err(_) => Err(Unwritten::Torn),
    }
}
