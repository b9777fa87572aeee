//! The table of 13 rows and 15 columns: its cells, its rows and its columns.
ghost use Rattle.std.specs.Prelude.{◌≡◌, ◌<◌, ◌^◌, ℕ, false, slice_index_or};
ghost use Rattle.dmr_bits.specs.Bits.{bits_of};
ghost use Rattle.dmr_bptc.specs.ProductWord.{cell};

mod checks;
mod places;
mod row_checks;

pub(crate) use checks::{are_columns_words, correct_columns};
pub(crate) use places::table_of;
pub(crate) use row_checks::correct_row;
use std::marker::Model;

/// The table, a number for each row, its first cell the highest.
#[derive(Drop)]
pub struct Table {
    rows: [u64; 13],
}

// Clauses see the 196 bits that the table is sent as, the first of them clear.
impl Model for Table {
    ghost use Rattle.std.specs.Prelude.{List, Bool};
    ghost use Rattle.dmr_bptc.specs.Rows.{AreRows, laid};

    ghost Value = { List Bool };

    ghost view = { λ t. laid t.rows };

    ghost invariant = { λ t. AreRows t.rows };
}

/// The number that the first eleven cells of a row spell.
#[inline(always)]
pub(crate) fn first_cells(bits: &Table, row_number: usize) -> u64
    requires inside { row_number < 13 }
    ensures fits { result < 2 ^ 11 }
    ensures cells { (c : ℕ) → c < 11 → slice_index_or (bits_of 11 result) c false ≡ cell bits.now row_number c }
{
    bits.rows[row_number] >> 4
}
