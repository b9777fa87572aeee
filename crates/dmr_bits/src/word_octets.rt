//! Words, and the octets that spell the same bits.
ghost use Rattle.std.specs.Prelude.{◌≡◌, ◌+◌, ◌*◌, ◌^◌, ◌<◌, ◌≤◌, All, length, take, drop};
ghost use Rattle.dmr_bits.specs.Bits.{bits_of_octets};
ghost use Rattle.dmr_bits.specs.Words.{word_bits, bits_of_words};

/// The word that eight octets spell, from place `from` on.
#[inline(always)]
fn word_of(octets: &[u8; 40], from: usize) -> u64
    requires inside { from + 8 ≤ 40 }
    ensures value { word_bits result ≡ take 64 (drop (8 * from) (bits_of_octets octets.now)) }
{
    u64::from_be_bytes([
        octets[from],
        octets[from + 1],
        octets[from + 2],
        octets[from + 3],
        octets[from + 4],
        octets[from + 5],
        octets[from + 6],
        octets[from + 7],
    ])
}

/// The words that octets spell.
#[inline(always)]
pub(crate) fn words_of(octets: &[u8; 40]) -> [u64; 5]
    ensures value { bits_of_words result ≡ bits_of_octets octets.now }
    ensures long { length result ≡ 5 }
    ensures small { All (λ word. word < 2 ^ 64) result }
{
    [
        word_of(octets, 0),
        word_of(octets, 8),
        word_of(octets, 16),
        word_of(octets, 24),
        word_of(octets, 32),
    ]
}

/// The octets that words spell.
#[inline(always)]
pub(crate) fn octets_of(words: &[u64; 5]) -> [u8; 40]
    requires small { All (λ word. word < 2 ^ 64) words.now }
    ensures value { bits_of_octets result ≡ bits_of_words words.now }
    ensures long { length result ≡ 40 }
    ensures small { All (λ octet. octet < 256) result }
{
    let mut octets = [0; 40];
    for k in 0..5 {
        octets[8 * k..8 * k + 8].copy_from_slice(&words[k].to_be_bytes());
    }
    octets
}
