//! The datagram that carries a packet, and its record in a capture.
ghost use Rattle.std.specs.Prelude.{◌≡◌, ◌<◌, ◌≤◌, ◌+◌, ◌*◌, ◌^◌, true, false, length, IfErr, OnOk, OnErr};
ghost use Rattle.std.specs.Io.KnownBytes.{Appends};
ghost use Rattle.dmr_record.specs.Devices.{Tears};
ghost use Rattle.dmr_capture.specs.Written.{IsWritable, packet_record};
ghost use Rattle.dmr_dmrd_export.specs.BurstPackets as spec;

use crate::checksum::checksum_of;
use crate::packet::BurstPacket;
use crate::settings::ExportSettings;
use dmr_capture::write_packet;
use dmr_record::{RecordFault, Sink};

/// The head of IPv4, which all packets have: from 192.0.2.1 to 192.0.2.2. RFC 791.
const IP_HEAD: [u8; 20] = [
    0x45, 0, 0, 81, 0, 0, 0x40, 0, 64, 17, 0xb6, 0x98, 192, 0, 2, 1, 192, 0, 2, 2,
];

/// The head of UDP: between ports 62031. RFC 768.
fn udp_head(payload: &[u8; 53]) -> [u8; 8]
    ensures value { result ≡ spec.packet_udp_head payload.now }
{
    let [high, low] = checksum_of(payload).to_be_bytes();
    [0xf2, 0x4f, 0xf2, 0x4f, 0, 61, high, low]
}

/// The datagram with this payload.
fn datagram(payload: &[u8; 53]) -> [u8; 81]
    ensures value { result ≡ spec.packet_datagram payload.now }
{
    let mut octets = [0u8; 81];
    octets[..20].copy_from_slice(&IP_HEAD);
    octets[20..28].copy_from_slice(&udp_head(payload));
    octets[28..].copy_from_slice(payload);
    octets
}

/// When a burst goes out, in microseconds behind the begin of the year 1970.
fn burst_time(settings: &ExportSettings, packet: &BurstPacket) -> u64
    requires frame { packet.now.place.frame < 1048582 }
    requires slot { packet.now.place.slot ≤ 2 }
    ensures value { result ≡ spec.burst_time settings.now packet.now }
    ensures fits { result < 2 ^ 32 * 1000000 }
{
    settings.start + 1_000 * packet.place.milliseconds()
}

/// Writes the packet of a burst to a capture. At an `Err` the sink failed with a front of its record out.
pub(crate) fn write_burst<K: Sink>(
    settings: &ExportSettings,
    packet: &BurstPacket,
    sink: &mut K,
) -> Result<(), RecordFault>
    requires well { K.has_failed sink.old ≡ false }
    requires frame { packet.now.place.frame < 1048582 }
    requires slot { packet.now.place.slot ≤ 2 }
    ensures record { OnOk result (Appends (K.held sink.old) (K.held sink.new)
        (packet_record (spec.dmrd_packet settings.now packet.now))) }
    ensures fit { IsWritable (spec.dmrd_packet settings.now packet.now) }
    ensures well { OnOk result (K.has_failed sink.new ≡ false) }
    ensures failed { OnErr result (K.has_failed sink.new ≡ true) }
    ensures torn { OnErr result (Tears (K.held sink.old) (K.held sink.new)
        (packet_record (spec.dmrd_packet settings.now packet.now))) }
{
    let octets = datagram(&packet.payload(settings.repeater));
    write_packet(sink, burst_time(settings, packet), &octets)
}
