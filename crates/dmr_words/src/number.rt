//! Numbers as words.
ghost use Rattle.std.specs.Prelude.{◌≡◌, ◌≢◌, ℕ, ◌^◌, ◌<◌, IfSome, IfNone};
ghost use Rattle.std.specs.Fmt.{decimal};
ghost use Rattle.dmr_words.specs.Numbers.{has_plain_front};

/// Whether neither a sign stands in front of a word, nor a zero in front of something else.
fn has_plain_front(word: &[u8]) -> bool
    ensures value { result ≡ has_plain_front word.now }
{
    word.first() != Some(&b'+') && (word.first() != Some(&b'0') || word.len() == 1)
}

/// The number below 2^32 that a word is in decimal digits, written as `{}` writes it: without a sign, and without zeros in front.
pub fn decimal(word: &[u8]) -> Option<u32>
    ensures value { IfSome result (λ n. word.now ≡ decimal n) }
    ensures none { IfNone result ((n : ℕ) → n < 2 ^ 32 → word.now ≢ decimal n) }
{
    if !has_plain_front(word) {
        return None;
    }
    match str::from_utf8(word) {
        Ok(text) => text.parse().ok(),
        Err(_) => None,
    }
}
