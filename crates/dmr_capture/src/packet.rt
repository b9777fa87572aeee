//! A packet of a capture.

use crate::link::Link;

/// How many octets of a packet a capture has at most. It is the greatest length to which tcpdump keeps packets.
pub const PACKET_LIMIT: usize = 262_144;

/// A packet of a capture without its octets.
#[derive(Clone, Copy, Debug, Drop, PartialEq, Eq)]
pub struct Packet {
    /// Where its record or block begins, in octets behind the begin of the capture.
    pub octet: u64,
    /// What stands in front of its datagram.
    pub link: Link,
    /// When it came, in nanoseconds behind the begin of the year 1970. What is finer was dropped.
    pub time: u128,
    /// How many of its octets the capture has.
    pub length: u32,
}
