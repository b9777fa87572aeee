//! The words of a line.
ghost use Rattle.std.specs.Prelude.{◌≡◌, ◌≤◌, length};
ghost use Rattle.std.specs.Iterator.{YieldsFirstRef, item_count};
ghost use Rattle.std.specs.List.{prefix_len, position_or_len};
ghost use Rattle.dmr_words.specs.Words.{is_blank, line_words, is_worded};

use memchr::memchr2;
use std::marker::Model;

/// Whether an octet stands between words.
fn is_blank(octet: u8) -> bool
    ensures value { result ≡ is_blank octet }
{
    octet == b' ' || octet == b'\t'
}

/// How many blanks stand in front.
fn blanks_in_front(octets: &[u8]) -> usize
    ensures value { result ≡ prefix_len is_blank octets.now }
    ensures within { result ≤ length octets.now }
{
    let mut count = 0;
    while count < octets.len() && is_blank(octets[count]) {
        count += 1;
    }
    count
}

/// How many octets stand in front of the first blank, or in all where there is none.
fn word_length(octets: &[u8]) -> usize
    ensures value { result ≡ position_or_len is_blank octets.now }
    ensures within { result ≤ length octets.now }
{
    memchr2(b' ', b'\t', octets).unwrap_or(octets.len())
}

/// The words of a line, from the first to the last.
#[derive(Drop)]
pub struct Words<'a> {
    rest: &'a [u8],
}

// Clauses see the words that are left.
impl<'a> Model for Words<'a> {
    ghost use Rattle.std.specs.Prelude.{ℕ, List};
    ghost use Rattle.dmr_words.specs.Words.{line_words};

    ghost Value = { List (List ℕ) };

    ghost view = { λ w. line_words w.rest.now };
}

impl<'a> Words<'a> {
    /// The words of a line: what stands between its spaces and tabs.
    pub fn new(line: &'a [u8]) -> Words<'a>
        ensures value { result ≡ line_words line.now }
    {
        Words { rest: line }
    }
}

impl<'a> Iterator for Words<'a> {
    type Item = &'a [u8];

    ghost next_gives = { YieldsFirstRef (λ w. w) };

    ghost remaining = { item_count (λ w. w) };

    fn next(&mut self) -> Option<&'a [u8]> {
        let (_, rest) = self.rest.split_at(blanks_in_front(self.rest));
        let (word, rest) = rest.split_at(word_length(rest));
        self.rest = rest;
        if word.is_empty() {
            return None;
        }
        Some(word)
    }
}

/// Whether a line counts: it has a word, and is no remark, which begins with `#`.
#[tactic(auto, using(crate::proofs::Parts::words_there))]
pub fn is_worded(line: &[u8]) -> bool
    ensures value { result ≡ is_worded line.now }
{
    match line.first() {
        Some(first) if !is_blank(*first) => *first != b'#',
        _ => Words::new(line).next().is_some(),
    }
}
