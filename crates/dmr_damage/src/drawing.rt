//! What is drawn.
ghost use Rattle.std.specs.Prelude.{◌≡◌, ◌<◌, ◌≤◌, true, false, not, length, slice_index_or, slice_set};
ghost use Rattle.dmr_bits.specs.Bits.{distance};

use dmr_bits::Bits;
use rand::RngExt;
use rand_pcg::Pcg32;

/// A number below a bound.
pub(crate) fn below(rng: &mut Pcg32, bound: u32) -> u32
    requires some { 0 < bound }
    ensures below { result < bound }
{
    rng.random_range(0..bound)
}

/// Whether something happens that does so `rate` times in `bound`.
pub(crate) fn happens(rng: &mut Pcg32, rate: u32, bound: u32) -> bool
    requires some { 0 < bound }
    ensures never { rate ≡ 0 → result ≡ false }
    ensures always { bound ≤ rate → result ≡ true }
{
    below(rng, bound) < rate
}

/// These bits with up to so many of them turned.
pub(crate) fn turned<const N: usize>(bits: &Bits<N>, most: u32, rng: &mut Pcg32) -> Bits<N>
    requires some { 0 < N }
    requires capacity { N ≤ 320 }
    requires few { most < 320 }
    ensures near { distance bits.now result ≤ most }
{
    let mut found = *bits;
    let count = below(rng, most + 1);
    for _turn in 0..count {
        turn(&mut found, below(rng, N as u32) as usize);
    }
    found
}

/// Turns the bit at a place.
pub(crate) fn turn<const N: usize>(bits: &mut Bits<N>, place: usize)
    requires inside { place < N }
    ensures value { bits.new ≡ slice_set bits.old place (not (slice_index_or bits.old place false)) }
    ensures length { length bits.old ≡ N }
{
    let bit = bits.get(place);
    bits.set(place, !bit);
}
