//! Octets that a word says.
ghost use Rattle.std.specs.Prelude.{◌≡◌, ℕ, ◌^◌, ◌<◌, ◌≤◌, List, [], ◌∷◌, length, take, IfSome, IfNone};
ghost use Rattle.dmr_text.specs.Says.{SaysOctets};
ghost use Rattle.dmr_text.specs.TextFaults.{HasNoOctets};

use crate::said::last_word;
use dmr_words::Words;
use hex::decode_to_slice;

/// How many octets a word says: two hexadecimal digits are one, and a hyphen is none. They go to the front of the room.
fn word_said(word: &[u8], room: &mut [u8]) -> Option<u16>
    requires room { length room.old ≡ 65535 }
    ensures octets { IfSome result (λ n. SaysOctets word.now (take n room.new)) }
    ensures none { IfNone result ((octets : List ℕ) → length octets < 2 ^ 16 → ¬ SaysOctets word.now octets) }
    ensures within { IfSome result (λ n. n ≤ 65535) }
    ensures room { length room.new ≡ 65535 }
{
    if word == b"-".as_slice() {
        return Some(0);
    }
    let length = word.len() / 2;
    if length == 0 {
        return None;
    }
    if length > room.len() {
        return None;
    }
    let octets = &mut room[..length];
    match decode_to_slice(word, octets) {
        Ok(()) => Some(length as u16),
        Err(_) => None,
    }
}

/// How many octets the last word says, where it is the one that is left. They go to the front of the room.
pub(crate) fn octets_said(words: &mut Words, room: &mut [u8]) -> Option<u16>
    requires room { length room.old ≡ 65535 }
    ensures octets { IfSome result (λ n. (word : List ℕ) × (words.old ≡ word ∷ []) × SaysOctets word (take n room.new)) }
    ensures none { IfNone result (HasNoOctets words.old) }
    ensures room { length room.new ≡ 65535 }
{
    let word = last_word(words)?;
    word_said(word, room)
}
