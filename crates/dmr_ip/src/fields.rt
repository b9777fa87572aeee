//! Where the fields of the headers stand in a datagram.
ghost use Rattle.std.specs.Prelude.{◌≡◌, ◌+◌, ◌≤◌, length};
ghost use Rattle.dmr_ip.specs.Datagram.{number_at};

use byteorder::{BigEndian, ByteOrder};

/// Version and length of the header, four bits each.
pub const VERSION: usize = 0;

/// Total length, two octets.
pub const TOTAL_LENGTH: usize = 2;

/// Identification, two octets.
pub const IDENTIFICATION: usize = 4;

/// Flags in three bits and the fragment offset in thirteen.
pub const FRAGMENT: usize = 6;

/// Time to live.
pub const TIME_TO_LIVE: usize = 8;

/// Protocol.
pub const PROTOCOL: usize = 9;

/// Header checksum, two octets.
pub const HEADER_CHECKSUM: usize = 10;

/// Source address, four octets, with the destination address behind it.
pub const SOURCE_ADDRESS: usize = 12;

/// Destination address, four octets.
pub const DESTINATION_ADDRESS: usize = 16;

/// UDP source port, two octets.
pub const SOURCE_PORT: usize = 20;

/// UDP destination port, two octets.
pub const DESTINATION_PORT: usize = 22;

/// UDP length, two octets.
pub const UDP_LENGTH: usize = 24;

/// UDP checksum, two octets.
pub const UDP_CHECKSUM: usize = 26;

/// How many octets the IPv4 header has.
pub const IP_HEADER: usize = 20;

/// How many octets the UDP header has.
pub const UDP_HEADER: usize = 8;

/// How many octets both headers have.
pub const HEADERS: usize = IP_HEADER + UDP_HEADER;

/// The protocol number of UDP.
pub const UDP: u8 = 17;

/// The number that two octets spell, the high one first, at a place.
pub(crate) fn number_at(octets: &[u8], place: usize) -> u16
    requires inside { place + 2 ≤ length octets.now }
    ensures value { result ≡ number_at octets.now place }
{
    BigEndian::read_u16(&octets[place..])
}
