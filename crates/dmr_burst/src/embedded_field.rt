//! The embedded field of a voice burst.
ghost use Rattle.std.specs.Prelude.{◌≡◌};
ghost use Rattle.dmr_bits.specs.Bits.{bits_of_octets, number_of};
ghost use Rattle.dmr_burst.specs.Layout.{embedded_field};

use crate::layout::one_piece;
use dmr_bits::Bits;

/// The bits of an embedded field.
pub(crate) fn embedded_bits(embedded: u32) -> Bits<32>
    ensures says { number_of result ≡ embedded }
{
    Bits::<32>::zero().with_field(0, 32, u64::from(embedded))
}

/// The embedded field of a voice burst, as received. ETSI TS 102 361-1, clause 7.1.3.
pub fn read_embedded(burst: &[u8; 33]) -> u32
    ensures value { result ≡ number_of (embedded_field (bits_of_octets burst.now)) }
{
    one_piece::<32>(burst, 116, 148).field(0, 32) as u32
}
