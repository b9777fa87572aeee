//! The checks of a row, by two tables, and the cell that they correct.
ghost use Rattle.std.specs.Prelude.{◌≡◌, ◌≢◌, ◌<◌, ◌^◌, ℕ, true};
ghost use Rattle.dmr_bits.specs.Bits.{bits_of};
ghost use Rattle.dmr_codes.specs.Seven.{IsHamming15, hamming15_columns};
ghost use Rattle.dmr_bptc.specs.Decoding.{IsCorrected};
ghost use Rattle.dmr_bptc.specs.Sums.{AreFailing};
ghost use Rattle.dmr_bptc.specs.ProductWord.{cell, row};

use crate::table::Table;

/// For the number that the first eight cells of a row spell, the checks in which they have an odd number of ones, as the
/// bits of a number: those of the code (15,11).
const FRONT_CHECKS: [u8; 256] = [
    0, 11, 5, 14, 10, 1, 15, 4, 7, 12, 2, 9, 13, 6, 8, 3, 14, 5, 11, 0, 4, 15, 1, 10, 9, 2, 12, 7,
    3, 8, 6, 13, 15, 4, 10, 1, 5, 14, 0, 11, 8, 3, 13, 6, 2, 9, 7, 12, 1, 10, 4, 15, 11, 0, 14, 5,
    6, 13, 3, 8, 12, 7, 9, 2, 13, 6, 8, 3, 7, 12, 2, 9, 10, 1, 15, 4, 0, 11, 5, 14, 3, 8, 6, 13, 9,
    2, 12, 7, 4, 15, 1, 10, 14, 5, 11, 0, 2, 9, 7, 12, 8, 3, 13, 6, 5, 14, 0, 11, 15, 4, 10, 1, 12,
    7, 9, 2, 6, 13, 3, 8, 11, 0, 14, 5, 1, 10, 4, 15, 9, 2, 12, 7, 3, 8, 6, 13, 14, 5, 11, 0, 4,
    15, 1, 10, 7, 12, 2, 9, 13, 6, 8, 3, 0, 11, 5, 14, 10, 1, 15, 4, 6, 13, 3, 8, 12, 7, 9, 2, 1,
    10, 4, 15, 11, 0, 14, 5, 8, 3, 13, 6, 2, 9, 7, 12, 15, 4, 10, 1, 5, 14, 0, 11, 4, 15, 1, 10,
    14, 5, 11, 0, 3, 8, 6, 13, 9, 2, 12, 7, 10, 1, 15, 4, 0, 11, 5, 14, 13, 6, 8, 3, 7, 12, 2, 9,
    11, 0, 14, 5, 1, 10, 4, 15, 12, 7, 9, 2, 6, 13, 3, 8, 5, 14, 0, 11, 15, 4, 10, 1, 2, 9, 7, 12,
    8, 3, 13, 6,
];

/// The same for the last seven cells.
const BACK_CHECKS: [u8; 128] = [
    0, 1, 2, 3, 4, 5, 6, 7, 8, 9, 10, 11, 12, 13, 14, 15, 3, 2, 1, 0, 7, 6, 5, 4, 11, 10, 9, 8, 15,
    14, 13, 12, 6, 7, 4, 5, 2, 3, 0, 1, 14, 15, 12, 13, 10, 11, 8, 9, 5, 4, 7, 6, 1, 0, 3, 2, 13,
    12, 15, 14, 9, 8, 11, 10, 12, 13, 14, 15, 8, 9, 10, 11, 4, 5, 6, 7, 0, 1, 2, 3, 15, 14, 13, 12,
    11, 10, 9, 8, 7, 6, 5, 4, 3, 2, 1, 0, 10, 11, 8, 9, 14, 15, 12, 13, 2, 3, 0, 1, 6, 7, 4, 5, 9,
    8, 11, 10, 13, 12, 15, 14, 1, 0, 3, 2, 5, 4, 7, 6,
];

/// For the checks that fail in a row, as the bits of a number, the cell that takes part in just these, as the bit of a number.
const CELLS: [u64; 16] = [
    0x0, 0x1, 0x2, 0x10, 0x4, 0x100, 0x20, 0x400, 0x8, 0x4000, 0x200, 0x80, 0x40, 0x2000, 0x800,
    0x1000,
];

/// Corrects one row, and answers whether it was a word.
#[inline(always)]
pub(crate) fn correct_row(table: &mut Table, row_number: usize) -> bool
    requires inside { row_number < 13 }
    ensures word { IsHamming15 (row table.new row_number) }
    ensures same { result ≡ true → table.new ≡ table.old }
    ensures corrected { IsCorrected IsHamming15 (row table.old row_number) (row table.new row_number) }
    ensures kept { (r c : ℕ) → r < 13 → c < 15 → r ≢ row_number → cell table.new r c ≡ cell table.old r c }
{
    let received = table.rows[row_number];
    let failing = failing_checks(received);
    // Most are words as they are received.
    if failing == 0 {
        return true;
    }
    table.rows[row_number] = received ^ CELLS[failing as usize];
    false
}

/// The checks that fail in a row, as the bits of a number.
#[inline(always)]
fn failing_checks(received: u64) -> u8
    requires small { received < 2 ^ 15 }
    ensures failing { AreFailing hamming15_columns (bits_of 15 received) result }
{
    let front = FRONT_CHECKS[(received >> 7) as usize];
    let back = BACK_CHECKS[(received % 128) as usize];
    front ^ back
}
