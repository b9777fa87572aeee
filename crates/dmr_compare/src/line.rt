//! A line in the making, whose octets are known.
ghost use Rattle.std.specs.Prelude.{◌≡◌, ◌+◌, ◌≤◌, ◌++◌, [], length, decimal};

use arrayvec::ArrayVec;
use itoa::Buffer;
use std::marker::Model;

/// How many octets a line has at most, with its line feed. This project's own.
const ROOM: usize = 640;

/// The octets of a line, as far as it is made.
#[derive(Drop)]
pub(crate) struct Line {
    octets: ArrayVec<u8, ROOM>,
}

// Clauses see the list of the octets.
impl Model for Line {
    ghost use Rattle.std.specs.Prelude.{ℕ, List};

    ghost Value = { List ℕ };

    ghost view = { λ line. line.octets.items };
}

impl Line {
    /// No octets.
    pub(crate) fn new() -> Line
        ensures value { result ≡ [] }
    {
        Line {
            octets: ArrayVec::new(),
        }
    }

    /// The octets so far.
    pub(crate) fn as_slice(&self) -> &[u8]
        ensures value { result.now ≡ self.now }
    {
        self.octets.as_slice()
    }

    /// Adds octets.
    pub(crate) fn add(&mut self, more: &[u8])
        requires room { length self.old + length more.now ≤ 640 }
        ensures value { self.new ≡ self.old ++ more.now }
        ensures length { length self.new ≡ length self.old + length more.now }
    {
        let _ = self.octets.try_extend_from_slice(more);
    }

    /// Adds a number in decimal digits behind a word.
    pub(crate) fn add_number(&mut self, word: &[u8], number: u64)
        requires room { length self.old + length word.now + 20 ≤ 640 }
        ensures value { self.new ≡ self.old ++ (word.now ++ decimal number) }
        ensures length { length self.new ≤ length self.old + length word.now + 20 }
    {
        self.add(word);
        let mut digits = Buffer::new();
        self.add(digits.format(number).as_bytes());
    }
}
