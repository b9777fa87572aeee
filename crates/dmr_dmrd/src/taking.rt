//! Which packets of a capture are taken.
ghost use Rattle.std.specs.Prelude.{◌≡◌};
ghost use Rattle.dmr_capture.specs.Udp.{udp_carried};
ghost use Rattle.dmr_dmrd.specs.Taking as spec;

use crate::packet::{HotspotPacket, packet_in};
use dmr_capture::{Link, Udp, ipv4_in, udp_in};

/// Which way the packets go that are taken.
#[derive(Clone, Copy, Debug, Drop, PartialEq, Eq)]
pub enum Ports {
    /// To this port.
    To(u16),
    /// From this port.
    From(u16),
}

impl Ports {
    /// Whether a datagram goes this way.
    fn has(self, udp: &Udp<'_>) -> bool
        ensures value { result ≡ spec.is_that_way self
            (record { source = udp.now.source; destination = udp.now.destination; payload = udp.now.payload.now }) }
    {
        match self {
            Ports::To(port) => udp.destination == port,
            Ports::From(port) => udp.source == port,
        }
    }
}

/// The packet of a hotspot that an IPv4 packet carries, where it goes this way.
fn packet_of_ipv4(ports: Ports, packet: &[u8]) -> Option<HotspotPacket>
    ensures value { result ≡ spec.packet_of_udp ports (udp_carried packet.now) }
{
    let udp = udp_in(packet)?;
    if ports.has(&udp) {
        packet_in(udp.payload)
    } else {
        None
    }
}

/// The packet of a hotspot that a packet of this link carries, where it goes this way.
fn carried_packet(ports: Ports, link: Link, octets: &[u8]) -> Option<HotspotPacket>
    ensures value { result ≡ spec.carried_packet ports link octets.now }
{
    packet_of_ipv4(ports, ipv4_in(link, octets)?)
}

/// The packet that is taken of a packet of this link, where one is: it is of the repeater that is known, where one is.
pub(crate) fn taken_packet(
    ports: Ports,
    repeater: Option<u32>,
    link: Link,
    octets: &[u8],
) -> Option<HotspotPacket>
    ensures value { result ≡ spec.taken_packet ports repeater link octets.now }
{
    let packet = carried_packet(ports, link, octets)?;
    match repeater {
        Some(known) if packet.repeater != known => None,
        _ => Some(packet),
    }
}
