//! Bits as the numbers that they spell.
ghost use Rattle.std.specs.Prelude.{◌≡◌, ◌^◌, ◌<◌, ◌≤◌};
ghost use Rattle.dmr_bits.specs.Bits.{bits_of};

use dmr_bits::{Bits, Writer};

/// The bits that the lowest `N` bits of a number are, the highest first.
pub(crate) fn to_bits<const N: usize>(number: u32) -> Bits<N>
    requires narrow { N ≤ 32 }
    ensures value { result ≡ bits_of N number }
{
    let mut writer = Writer::new();
    writer.push(N, u64::from(number));
    writer.finish()
}

/// The number that bits spell, the first of them its highest.
#[tactic(auto, using(crate::proofs::Spelling::bits_of_field))]
pub(crate) fn to_number<const N: usize>(bits: &Bits<N>) -> u32
    requires narrow { N ≤ 32 }
    ensures value { bits_of N result ≡ bits.now }
    ensures fits { result < 2 ^ N }
{
    bits.field(0, N) as u32
}
