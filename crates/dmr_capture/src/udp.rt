//! What UDP carries in an IPv4 packet.
ghost use Rattle.std.specs.Prelude.{◌≡◌, Some, None, IfSome, IfNone};
ghost use Rattle.dmr_capture.specs.Udp.{udp_carried};

use byteorder::{BigEndian, ByteOrder};

/// A datagram of UDP.
#[derive(Clone, Copy, Debug, Drop, PartialEq, Eq)]
pub struct Udp<'a> {
    /// The port of its source.
    pub source: u16,
    /// The port of its destination.
    pub destination: u16,
    /// What it carries.
    pub payload: &'a [u8],
}

/// The datagram of UDP that an IPv4 packet carries, as `ipv4_in` finds it. The checksums aren't tested.
///
/// There is none in a fragment, in a packet of another protocol, and where less is there than the heads say. UDP is RFC 768.
pub fn udp_in(packet: &[u8]) -> Option<Udp<'_>>
    ensures some { IfSome result (λ udp. udp_carried packet.now
        ≡ Some (record { source = udp.source; destination = udp.destination; payload = udp.payload.now })) }
    ensures none { IfNone result (udp_carried packet.now ≡ None) }
{
    if packet.len() < 20 || packet[9] != 17 {
        return None;
    }
    // The first octet says the length of the head in four octets each, and octets 6 and 7 whether it is a fragment.
    let head = usize::from(packet[0] % 16) * 4;
    let is_fragment = packet[6] % 64 != 0 || packet[7] != 0;
    if is_fragment || head < 20 || packet.len() < head + 8 {
        return None;
    }
    let length = usize::from(BigEndian::read_u16(&packet[head + 4..]));
    if length < 8 || packet.len() < head + length {
        return None;
    }
    Some(Udp {
        source: BigEndian::read_u16(&packet[head..]),
        destination: BigEndian::read_u16(&packet[head + 2..]),
        payload: &packet[head + 8..head + length],
    })
}
