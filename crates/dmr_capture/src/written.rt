//! A capture that is written: a pcap of IPv4 packets.
ghost use Rattle.std.specs.Prelude.{◌≡◌, ◌+◌, ◌*◌, ◌<◌, ◌^◌, ◌++◌, length, false, true, IfErr, OnOk, OnErr};
ghost use Rattle.std.specs.Io.KnownBytes.{Appends};
ghost use Rattle.dmr_record.specs.Devices.{Tears};
ghost use Rattle.dmr_capture.specs.Written.{written_head, written_record, written_record_head};

use byteorder::{ByteOrder, LittleEndian};
use dmr_record::{RecordFault, Sink, put};

/// The head of a capture that is written: little endian, microseconds, version 2.4, packets of up to 65,535 octets, link type 228.
const HEAD: [u8; 24] = [
    0xd4, 0xc3, 0xb2, 0xa1, 0x02, 0x00, 0x04, 0x00, 0x00, 0x00, 0x00, 0x00, 0x00, 0x00, 0x00, 0x00,
    0xff, 0xff, 0x00, 0x00, 0xe4, 0x00, 0x00, 0x00,
];

/// Writes the head of a capture of IPv4 packets. At an `Err` the sink failed with a front of it out.
pub fn write_capture_head<K: Sink>(sink: &mut K) -> Result<(), RecordFault>
    requires well { K.has_failed sink.old ≡ false }
    ensures head { OnOk result (Appends (K.held sink.old) (K.held sink.new) written_head) }
    ensures well { OnOk result (K.has_failed sink.new ≡ false) }
    ensures fault { IfErr result (λ e. e ≡ RecordFault.Write) }
    ensures failed { OnErr result (K.has_failed sink.new ≡ true) }
    ensures torn { OnErr result (Tears (K.held sink.old) (K.held sink.new) written_head) }
{
    put(sink, &HEAD)
}

/// What stands in a record before a packet of so many octets.
fn record_head(seconds: u32, microseconds: u32, count: u32) -> [u8; 16]
    ensures head { result ≡ written_record_head seconds microseconds count }
{
    let mut head = [0u8; 16];
    LittleEndian::write_u32(&mut head[..4], seconds);
    LittleEndian::write_u32(&mut head[4..8], microseconds);
    LittleEndian::write_u32(&mut head[8..12], count);
    LittleEndian::write_u32(&mut head[12..], count);
    head
}

/// Writes two pieces, or stops where the sink fails.
#[tactic(auto, using(dmr_record::proofs::Torn::Tears_after, dmr_record::proofs::Torn::Tears_more))]
fn put_both<K: Sink>(sink: &mut K, front: &[u8], rest: &[u8]) -> Result<(), RecordFault>
    requires well { K.has_failed sink.old ≡ false }
    ensures octets { OnOk result (Appends (K.held sink.old) (K.held sink.new) (front.now ++ rest.now)) }
    ensures well { OnOk result (K.has_failed sink.new ≡ false) }
    ensures fault { IfErr result (λ e. e ≡ RecordFault.Write) }
    ensures failed { OnErr result (K.has_failed sink.new ≡ true) }
    ensures torn { OnErr result (Tears (K.held sink.old) (K.held sink.new) (front.now ++ rest.now)) }
{
    put(sink, front)?;
    put(sink, rest)
}

/// Writes a record of a capture: an IPv4 packet, and when it came, in microseconds behind the begin of the year 1970. At an `Err`
/// the sink failed with a front of the record out.
pub fn write_packet<K: Sink>(sink: &mut K, time: u64, octets: &[u8]) -> Result<(), RecordFault>
    requires well { K.has_failed sink.old ≡ false }
    requires time { time < 2 ^ 32 * 1000000 }
    requires short { length octets.now < 2 ^ 16 }
    ensures record { OnOk result (Appends (K.held sink.old) (K.held sink.new) (written_record time octets.now)) }
    ensures well { OnOk result (K.has_failed sink.new ≡ false) }
    ensures fault { IfErr result (λ e. e ≡ RecordFault.Write) }
    ensures failed { OnErr result (K.has_failed sink.new ≡ true) }
    ensures torn { OnErr result (Tears (K.held sink.old) (K.held sink.new) (written_record time octets.now)) }
{
    let seconds = (time / 1_000_000) as u32;
    let microseconds = (time % 1_000_000) as u32;
    let head = record_head(seconds, microseconds, octets.len() as u32);
    put_both(sink, &head, octets)
}
