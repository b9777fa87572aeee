//! A line in the making.
ghost use Rattle.std.specs.Prelude.{◌≡◌, ◌+◌, ◌*◌, ◌≤◌, ◌++◌, [], ◌∷◌, length, decimal, codes};
ghost use Rattle.hex.specs.Hex.{encode_upper};
ghost use Rattle.dmr_text.specs.Spelling.{octets_word};

use arrayvec::ArrayVec;
use hex::encode_to_slice;
use itoa::Buffer;
use std::marker::Model;

/// How many octets a line has at most, with its line feed. This project's own.
const ROOM: usize = 131_201;

/// How many octets are made digits at once.
const PIECE: usize = 64;

/// The octets of a line, as far as it is made.
#[derive(Drop)]
pub(crate) struct Line {
    octets: ArrayVec<u8, ROOM>,
}

// Clauses see the list of the octets.
impl Model for Line {
    ghost use Rattle.std.specs.Prelude.{ℕ, List};

    ghost Value = { List ℕ };

    ghost view = { λ line. line.octets.items };
}

impl Line {
    /// No octets.
    pub(crate) fn new() -> Line
        ensures value { result ≡ [] }
    {
        Line {
            octets: ArrayVec::new(),
        }
    }

    /// The octets so far.
    pub(crate) fn as_slice(&self) -> &[u8]
        ensures value { result.now ≡ self.now }
    {
        self.octets.as_slice()
    }

    /// Adds octets.
    fn add(&mut self, more: &[u8])
        requires room { length self.old + length more.now ≤ 131201 }
        ensures value { self.new ≡ self.old ++ more.now }
    {
        let _ = self.octets.try_extend_from_slice(more);
    }

    /// Adds a number in decimal digits.
    fn add_number(&mut self, number: u32)
        requires room { length self.old + 10 ≤ 131201 }
        ensures value { self.new ≡ self.old ++ decimal number }
        ensures length { length self.new ≤ length self.old + 10 }
    {
        let mut digits = Buffer::new();
        self.add(digits.format(number).as_bytes());
    }

    /// Begins a line anew with the place of a record.
    pub(crate) fn begin(&mut self, frame: u32, slot: u8)
        ensures value { self.new ≡ decimal frame ++ (32 ∷ decimal slot) }
        ensures length { length self.new ≤ 21 }
    {
        self.octets.clear();
        self.add_number(frame);
        self.number_behind(u32::from(slot));
    }

    /// Begins a line anew with a word.
    pub(crate) fn begin_with(&mut self, word: &str)
        requires short { length word.now ≤ 10 }
        ensures value { self.new ≡ word.now }
    {
        self.octets.clear();
        self.add(word.as_bytes());
    }

    /// Adds a number as a further word.
    pub(crate) fn number_behind(&mut self, number: u32)
        requires room { length self.old + 11 ≤ 131201 }
        ensures value { self.new ≡ self.old ++ (32 ∷ decimal number) }
        ensures length { length self.new ≤ length self.old + 11 }
    {
        self.add(b" ");
        self.add_number(number);
    }

    /// Adds a further word.
    pub(crate) fn word_behind(&mut self, word: &str)
        requires room { length self.old + 1 + length word.now ≤ 131201 }
        ensures value { self.new ≡ self.old ++ (32 ∷ word.now) }
    {
        self.add(b" ");
        self.add(word.as_bytes());
    }

    /// Adds a few octets as capital digits, two for each.
    fn add_digits(&mut self, octets: &[u8])
        requires few { length octets.now ≤ 64 }
        requires room { length self.old + 2 * length octets.now ≤ 131201 }
        ensures value { self.new ≡ self.old ++ encode_upper octets.now }
    {
        let mut digits = [0u8; 2 * PIECE];
        let digits = &mut digits[..2 * octets.len()];
        let _ = encode_to_slice(octets, digits);
        digits.make_ascii_uppercase();
        self.add(digits);
    }

    /// Adds octets as a further word, each as two capital digits; none are a hyphen.
    pub(crate) fn octets_behind(&mut self, octets: &[u8])
        requires room { length self.old + 2 + 2 * length octets.now ≤ 131201 }
        ensures value { self.new ≡ self.old ++ (32 ∷ octets_word octets.now) }
        ensures length { length self.new ≤ length self.old + 2 + 2 * length octets.now }
    {
        if octets.is_empty() {
            self.add(b" -");
            return;
        }
        self.add(b" ");
        let mut rest = octets;
        while !rest.is_empty() {
            let (piece, behind) = rest.split_at(rest.len().min(PIECE));
            self.add_digits(piece);
            rest = behind;
        }
    }

    /// Ends the line.
    pub(crate) fn end(&mut self)
        requires room { length self.old + 1 ≤ 131201 }
        ensures value { self.new ≡ self.old ++ (10 ∷ []) }
    {
        self.add(b"\n");
    }
}
