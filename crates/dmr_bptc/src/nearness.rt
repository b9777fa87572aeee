//! Whether two words differ at most once in each column of the table.
//!
//! Behind the first place stand thirteen lines of fifteen places. Each line has a place of each column, and from one line to the
//! next their order is turned by eight places. So lines that are turned back have a column in one bit each.
ghost use Rattle.std.specs.Prelude.{◌≡◌, ◌<◌, ◌≤◌, ◌+◌, ◌-◌, ◌%◌, ◌^◌, ℕ, IsTrue, false, bit_and, bit_or, slice_index_or};
ghost use Rattle.dmr_bits.specs.Bits.{bits_of, distance};
ghost use Rattle.dmr_bptc.specs.ProductWord.{column};
ghost use Rattle.dmr_bptc.specs.Seen.{AreSeen};

use dmr_bits::Bits;

/// Columns as the bits of numbers.
#[derive(Clone, Copy)]
struct Seen {
    /// Those that have a set bit in the lines so far.
    once: u64,
    /// Those that have set bits in two of them.
    twice: u64,
}

/// Whether two words differ at most once in each column.
pub(crate) fn differs_once_a_column(word: &Bits<196>, bits: &Bits<196>) -> bool
    ensures near { IsTrue result → (c : ℕ) → c < 15 → distance (column word.now c) (column bits.now c) ≤ 1 }
{
    let wrong = word.xor(bits);
    let mut seen = Seen { once: 0, twice: 0 };
    for group in 0..3 {
        seen = with_four_lines(seen, &wrong, 4 * group);
    }
    let last = with_line(seen, turned(wrong.field(181, 15), 8 * 12 % 15));
    last.twice == 0
}

/// The columns that are seen in four lines more.
#[inline(always)]
fn with_four_lines(before: Seen, bits: &Bits<196>, from: usize) -> Seen
    requires inside { from ≤ 8 }
    requires seen { AreSeen bits.now from before.once before.twice }
    ensures seen { AreSeen bits.now (from + 4) result.once result.twice }
{
    let lines = bits.field(1 + 15 * from, 60);
    let mut seen = before;
    for line in 0..4 {
        let places = (lines >> (45 - 15 * line)) % 32768;
        seen = with_line(seen, turned(places, 8 * (from + line) % 15));
    }
    seen
}

/// The columns that are seen in a line more.
#[inline(always)]
fn with_line(seen: Seen, line: u64) -> Seen
    ensures once { result.once ≡ bit_or seen.once line }
    ensures twice { result.twice ≡ bit_or seen.twice (bit_and seen.once line) }
{
    Seen {
        once: seen.once | line,
        twice: seen.twice | (seen.once & line),
    }
}

/// Fifteen bits that are turned, so that the last so many come first, with some of them once more above these.
#[inline(always)]
fn turned(places: u64, by: usize) -> u64
    requires places { places < 2 ^ 15 }
    requires by { by < 15 }
    ensures bits { (i : ℕ) → i < 15
        → slice_index_or (bits_of 15 result) i false ≡ slice_index_or (bits_of 15 places) ((i + 15 - by) % 15) false }
{
    (places * 32769) >> by
}
