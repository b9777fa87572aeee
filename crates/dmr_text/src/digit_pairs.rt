//! Bursts as words of hexadecimal digits.
ghost use Rattle.std.specs.Prelude.{◌≡◌, ◌≢◌, ℕ, List, Ok, IfSome, IfNone};
ghost use Rattle.hex.specs.Hex.{decode_sized};
ghost use Rattle.dmr_text.specs.DigitValues.{digit_value};

/// What stands in the table for an octet that is no digit.
const NO_DIGIT: u8 = 16;

/// For each octet its value as a hexadecimal digit, small or capital. A look at a table doesn't depend on which digit it is, and so
/// costs less than a branch that can't be foreseen.
const VALUES: [u8; 256] = [
    16, 16, 16, 16, 16, 16, 16, 16, 16, 16, 16, 16, 16, 16, 16, 16, 16, 16, 16, 16, 16, 16, 16, 16,
    16, 16, 16, 16, 16, 16, 16, 16, 16, 16, 16, 16, 16, 16, 16, 16, 16, 16, 16, 16, 16, 16, 16, 16,
    0, 1, 2, 3, 4, 5, 6, 7, 8, 9, 16, 16, 16, 16, 16, 16, 16, 10, 11, 12, 13, 14, 15, 16, 16, 16,
    16, 16, 16, 16, 16, 16, 16, 16, 16, 16, 16, 16, 16, 16, 16, 16, 16, 16, 16, 16, 16, 16, 16, 10,
    11, 12, 13, 14, 15, 16, 16, 16, 16, 16, 16, 16, 16, 16, 16, 16, 16, 16, 16, 16, 16, 16, 16, 16,
    16, 16, 16, 16, 16, 16, 16, 16, 16, 16, 16, 16, 16, 16, 16, 16, 16, 16, 16, 16, 16, 16, 16, 16,
    16, 16, 16, 16, 16, 16, 16, 16, 16, 16, 16, 16, 16, 16, 16, 16, 16, 16, 16, 16, 16, 16, 16, 16,
    16, 16, 16, 16, 16, 16, 16, 16, 16, 16, 16, 16, 16, 16, 16, 16, 16, 16, 16, 16, 16, 16, 16, 16,
    16, 16, 16, 16, 16, 16, 16, 16, 16, 16, 16, 16, 16, 16, 16, 16, 16, 16, 16, 16, 16, 16, 16, 16,
    16, 16, 16, 16, 16, 16, 16, 16, 16, 16, 16, 16, 16, 16, 16, 16, 16, 16, 16, 16, 16, 16, 16, 16,
    16, 16, 16, 16, 16, 16, 16, 16, 16, 16, 16, 16, 16, 16,
];

/// The value of a hexadecimal digit, and `NO_DIGIT` for any other octet.
fn value_of(octet: u8) -> u8
    ensures value { result ≡ digit_value octet }
{
    VALUES[octet as usize]
}

/// So many octets that a word says, two digits for each.
pub(crate) fn octets_of_digits<const N: usize>(word: &[u8]) -> Option<[u8; N]>
    ensures octets { IfSome result (λ octets. decode_sized word.now N ≡ Ok octets) }
    ensures none { IfNone result ((octets : List ℕ) → decode_sized word.now N ≢ Ok octets) }
{
    if word.len() % 2 != 0 || word.len() / 2 != N {
        return None;
    }
    let mut octets = [0; N];
    let mut greatest = 0u8;
    for place in 0..N {
        let upper = value_of(word[2 * place]);
        let lower = value_of(word[2 * place + 1]);
        octets[place] = upper.wrapping_mul(16).wrapping_add(lower);
        greatest = greatest.max(upper).max(lower);
    }
    if greatest < NO_DIGIT {
        Some(octets)
    } else {
        None
    }
}
