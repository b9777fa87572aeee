//! Numbers in the order of octets of who wrote them.
ghost use Rattle.std.specs.Prelude.{◌≡◌, ◌+◌, ◌≤◌, length};
ghost use Rattle.dmr_capture.specs.Orders.{ordered_number};

use byteorder::{BigEndian, ByteOrder, LittleEndian};

/// In which order the octets of a number stand.
#[derive(Clone, Copy, Debug, Drop, PartialEq, Eq)]
pub enum Order {
    /// The highest first.
    Big,
    /// The lowest first.
    Little,
}

impl Order {
    /// The number of two octets from this place on.
    pub(crate) fn u16_at(self, octets: &[u8], at: usize) -> u16
        requires within { at + 2 ≤ length octets.now }
        ensures number { result ≡ ordered_number self 2 at octets.now }
    {
        match self {
            Order::Big => BigEndian::read_u16(&octets[at..]),
            Order::Little => LittleEndian::read_u16(&octets[at..]),
        }
    }

    /// The number of four octets from this place on.
    pub(crate) fn u32_at(self, octets: &[u8], at: usize) -> u32
        requires within { at + 4 ≤ length octets.now }
        ensures number { result ≡ ordered_number self 4 at octets.now }
    {
        match self {
            Order::Big => BigEndian::read_u32(&octets[at..]),
            Order::Little => LittleEndian::read_u32(&octets[at..]),
        }
    }
}
