//! Sums of words, and how many of their bits are set.
ghost use Rattle.std.specs.Prelude.{◌≡◌, ◌^◌, ◌<◌, ◌≤◌, All, length};
ghost use Rattle.dmr_bits.specs.Bits.{weight, xor_bits};
ghost use Rattle.dmr_bits.specs.Words.{bits_of_words};

/// The words of the sum, bit by bit.
#[inline(always)]
pub(crate) fn sum(words: &[u64; 5], other: &[u64; 5]) -> [u64; 5]
    requires words { All (λ word. word < 2 ^ 64) words.now }
    requires other { All (λ word. word < 2 ^ 64) other.now }
    ensures value { bits_of_words result ≡ xor_bits (bits_of_words words.now) (bits_of_words other.now) }
    ensures long { length result ≡ 5 }
    ensures small { All (λ word. word < 2 ^ 64) result }
{
    [
        words[0] ^ other[0],
        words[1] ^ other[1],
        words[2] ^ other[2],
        words[3] ^ other[3],
        words[4] ^ other[4],
    ]
}

/// How many bits are set.
#[inline(always)]
pub(crate) fn ones(words: &[u64; 5]) -> u32
    requires small { All (λ word. word < 2 ^ 64) words.now }
    ensures value { result ≡ weight (bits_of_words words.now) }
    ensures bound { result ≤ 320 }
{
    words[0].count_ones()
        + words[1].count_ones()
        + words[2].count_ones()
        + words[3].count_ones()
        + words[4].count_ones()
}
