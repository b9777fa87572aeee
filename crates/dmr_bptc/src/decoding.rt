//! Correcting columns and then rows, and the information of what that gives.
ghost use Rattle.std.specs.Prelude.{◌≡◌, ◌<◌, ◌≤◌, ◌+◌, ◌-◌, ◌*◌, ◌/◌, ◌%◌, ◌^◌, ℕ, List, Bool, IsTrue, true, false, Some};
ghost use Rattle.std.specs.Prelude.{IfSome, option_map, slice_index_or};
ghost use Rattle.dmr_bits.specs.Bits.{bits_of};
ghost use Rattle.dmr_codes.specs.Seven.{IsHamming15};
ghost use Rattle.dmr_bptc.specs.ProductWord.{cell, row};
ghost use Rattle.dmr_bptc.specs.ProductWord.{IsProductWord, IsWritten, information};
ghost use Rattle.dmr_bptc.specs.Decoding.{IsCorrected, IsDecoded, IsDamaged};
ghost use Rattle.dmr_bptc.specs.declared.decoding.Restored.{Restored};

use crate::encoding::bptc_encode;
use crate::likely::likely_information;
use crate::mended::mended_information;
use crate::nearness::differs_once_a_column;
use crate::reserved::with_reserved_cells;
use crate::table::{Table, are_columns_words, correct_columns, correct_row, first_cells, table_of};
use dmr_bits::Bits;

/// What received bits hold.
#[derive(Clone, Copy, Debug, PartialEq, Eq)]
pub struct Restored {
    /// The information.
    pub information: Bits<96>,
    /// Its written form.
    pub written: Bits<196>,
}

/// The information of 196 bits as they were received, reserved bits ignored. Each column is replaced by the word
/// within one bit where there is one, and then each row; where all rows and columns are words then, they hold the
/// information, and else there is none. ETSI TS 102 361-1, annex B.1.1; the order of corrections is this project's own.
pub fn bptc_decode(bits: &Bits<196>) -> Option<Bits<96>>
    ensures decoded { IsDecoded bits.now result }
    ensures undone { (word : List Bool) → IsProductWord word → IsDamaged word bits.now
        → result ≡ Some (information word) }
{
    match bptc_restore(bits) {
        Some(restored) => Some(restored.information),
        None => None,
    }
}

/// What 196 bits hold as they were received: the information as `bptc_decode` finds it, and its written form, in which a
/// repeater sends it on. ETSI TS 102 361-1, annex B.1.1.
pub fn bptc_restore(bits: &Bits<196>) -> Option<Restored>
    ensures decoded { IsDecoded bits.now (option_map (λ (r : Restored). r.information) result) }
    ensures written { IfSome result (λ r. IsWritten r.information r.written) }
{
    // Most often no bit is wrong but reserved ones.
    let likely = likely_information(bits);
    let written = bptc_encode(&likely);
    if is_received(&written, bits) {
        return Some(Restored {
            information: likely,
            written,
        });
    }
    // Where few are wrong, they most often stand in columns of their own.
    let mended = mended_information(bits, &likely);
    let written = bptc_encode(&mended);
    if is_near(&written, bits) {
        return Some(Restored {
            information: mended,
            written,
        });
    }
    let Some(information) = corrected(bits) else {
        return None;
    };
    Some(Restored {
        information,
        written: bptc_encode(&information),
    })
}

/// Whether a written form was received, but for the reserved cells.
fn is_received(written: &Bits<196>, bits: &Bits<196>) -> bool
    ensures decoded { IsTrue result → (message : List Bool) → IsWritten message written.now → IsDecoded bits.now (Some message) }
{
    with_reserved_cells(written, bits) == *bits
}

/// Whether received bits hold what a written form holds, as far as a look at the columns tells: but for the reserved cells, they
/// differ from it at most once in each column.
fn is_near(written: &Bits<196>, bits: &Bits<196>) -> bool
    ensures decoded { IsTrue result → (message : List Bool) → IsWritten message written.now → IsDecoded bits.now (Some message) }
{
    differs_once_a_column(&with_reserved_cells(written, bits), bits)
}

/// The information of 196 bits once each column and then each row is corrected.
fn corrected(bits: &Bits<196>) -> Option<Bits<96>>
    ensures decoded { IsDecoded bits.now result }
{
    let mut table = table_of(bits);
    let columns = correct_columns(&mut table);
    let rows = correct_rows(&mut table);
    // Where no row was changed, the columns are the words that they were.
    if (columns & rows) || are_columns_words(&table) {
        Some(information_of(&table))
    } else {
        None
    }
}

/// Corrects each row, and answers whether all were words.
fn correct_rows(bits: &mut Table) -> bool
    ensures words { (r : ℕ) → r < 13 → IsHamming15 (row bits.new r) }
    ensures same { result ≡ true → (r c : ℕ) → r < 13 → c < 15 → cell bits.new r c ≡ cell bits.old r c }
    ensures corrected { (r : ℕ) → r < 13 → IsCorrected IsHamming15 (row bits.old r) (row bits.new r) }
{
    let mut all = true;
    for row in 0..13 {
        let was_word = correct_row(bits, row);
        all = all & was_word;
    }
    all
}

/// The information that a table holds.
fn information_of(bits: &Table) -> Bits<96>
    ensures value { result ≡ information bits.now }
{
    // The first three cells are reserved.
    let upper = gather_rows(bits, 0, 5) % (1 << 52);
    let lower = gather_rows(bits, 5, 9);
    let front = Bits::<96>::zero().with_field(0, 52, upper);
    front.with_field(52, 44, lower)
}

/// The number that the first eleven cells of at most five rows spell.
#[inline(always)]
fn gather_rows(bits: &Table, from: usize, to: usize) -> u64
    requires order { from ≤ to }
    requires few { to ≤ from + 5 }
    requires inside { to ≤ 13 }
    ensures fits { result < 2 ^ (11 * (to - from)) }
    ensures cells { (k : ℕ) → k < 11 * (to - from)
        → slice_index_or (bits_of (11 * (to - from)) result) k false ≡ cell bits.now (from + k / 11) (k % 11) }
{
    let mut number = 0;
    for row in from..to {
        number = number * 2048 + first_cells(bits, row);
    }
    number
}
