//! Confirmed blocks, of the octets that a burst holds.
ghost use Rattle.std.specs.Prelude.{◌≡◌, length};
ghost use Rattle.dmr_data.specs.Block.{burst_octets};
ghost use Rattle.dmr_gateway.specs.Heard.{Tells, IsConfirmedOf};

use dmr_bits::{Bits, Reader};
use dmr_checks::crc9;
use dmr_data::{Block, Octets, Rate};

/// The confirmed block that all octets of a burst are, if they are one: its serial in seven bits, its CRC-9 and its octets
/// (ETSI TS 102 361-1, clause 8.2.2).
pub(crate) fn confirmed_of(octets: &[u8], rate: Rate) -> Option<Block>
    requires whole { length octets.now ≡ burst_octets rate }
    ensures tells { Tells result (IsConfirmedOf rate octets.now) }
{
    let start = Bits::<16>::from_octets(&[octets[0], octets[1]]);
    let mut reader = Reader::<16>::new(&start);
    let serial = reader.next(7) as u8;
    let check = reader.next(9) as u16;
    let rest = &octets[2..];
    if rate.mask() ^ check == crc9(rest, serial) {
        Some(Block {
            serial: Some(serial),
            octets: Octets::from_slice(rest),
        })
    } else {
        None
    }
}
