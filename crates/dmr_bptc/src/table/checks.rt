//! The checks of all columns at once, as sums of rows, and the columns that they correct.
ghost use Rattle.std.specs.Prelude.{◌≡◌, ◌<◌, ◌≤◌, ◌-◌, ◌%◌, ◌^◌, ◌==◌, ◌↔◌, ℕ, IsTrue, true, false, All, slice_index_or};
ghost use Rattle.dmr_bits.specs.Bits.{bits_of, xor};
ghost use Rattle.dmr_codes.specs.Seven.{IsHamming13, hamming13_columns};
ghost use Rattle.dmr_bptc.specs.Decoding.{IsCorrected};
ghost use Rattle.dmr_bptc.specs.Rows.{row_bit};
ghost use Rattle.dmr_bptc.specs.Sums.{sum_rows, failing_in};
ghost use Rattle.dmr_bptc.specs.ProductWord.{cell, column};

use crate::table::Table;

/// For each row the checks of the columns that it takes part in, as the bits of a number: those of the code (13,9).
const CHECKS: [u64; 13] = [
    0xf, 0xe, 0x7, 0xa, 0x5, 0xb, 0xc, 0x6, 0x3, 0x8, 0x4, 0x2, 0x1,
];

/// The two sets of failing checks that no wrong bit of one row gives.
const CHECKS_OF_NO_ROW: [u64; 2] = [0x9, 0xd];

/// All columns, as the bits of a number, the first the highest of fifteen.
const ALL_COLUMNS: u64 = 0x7fff;

/// Corrects each column, and answers whether all are words then.
pub(crate) fn correct_columns(table: &mut Table) -> bool
    ensures words { result ≡ true → (c : ℕ) → c < 15 → IsHamming13 (column table.new c) }
    ensures corrected { (c : ℕ) → c < 15 → IsCorrected IsHamming13 (column table.old c) (column table.new c) }
{
    let failing = failing_columns(&table.rows);
    // Most are words as they are received.
    if none_fails(&failing) {
        return true;
    }
    turn_wrong_bits(&mut table.rows, &failing);
    let [first, second] = CHECKS_OF_NO_ROW;
    (columns_with(&failing, first) | columns_with(&failing, second)) == 0
}

/// Whether all columns are words.
pub(crate) fn are_columns_words(table: &Table) -> bool
    ensures tells { IsTrue result ↔ ((c : ℕ) → c < 15 → IsHamming13 (column table.now c)) }
{
    none_fails(&failing_columns(&table.rows))
}

/// For each check those columns in which it fails, as the bits of a number, the first column the highest of fifteen.
#[inline(always)]
fn failing_columns(rows: &[u64; 13]) -> [u64; 4]
    requires small { All (λ row. row < 2 ^ 15) rows.now }
    ensures value { (j : ℕ) → j < 4 → slice_index_or result j 0 ≡ sum_rows j hamming13_columns rows.now }
    ensures fits { All (λ columns. columns < 2 ^ 15) result }
{
    [
        sum_of(rows, 0),
        sum_of(rows, 1),
        sum_of(rows, 2),
        sum_of(rows, 3),
    ]
}

/// Whether no check fails in any column.
#[inline(always)]
fn none_fails(failing: &[u64; 4]) -> bool
    requires fits { All (λ columns. columns < 2 ^ 15) failing.now }
    ensures tells { IsTrue result ↔ ((c : ℕ) → c < 15 → failing_in failing.now c ≡ 0) }
{
    (failing[0] | failing[1] | failing[2] | failing[3]) == 0
}

/// Turns in each column the bit of the row that takes part in just the checks that fail there, where there is one.
#[inline(always)]
fn turn_wrong_bits(rows: &mut [u64; 13], failing: &[u64; 4])
    requires small { All (λ row. row < 2 ^ 15) rows.old }
    ensures small { All (λ row. row < 2 ^ 15) rows.new }
    ensures turned { (r c : ℕ) → r < 13 → c < 15 → row_bit rows.new r c
        ≡ xor (row_bit rows.old r c) (failing_in failing.now c == slice_index_or hamming13_columns r 0) }
{
    for row in 0..13 {
        rows[row] ^= columns_with(failing, CHECKS[row]);
    }
}

/// The columns in which these checks fail and no other.
#[inline(always)]
fn columns_with(failing: &[u64; 4], checks: u64) -> u64
    requires checks { checks < 16 }
    ensures value { (c : ℕ) → c < 15 → slice_index_or (bits_of 15 result) c false ≡ (failing_in failing.now c == checks) }
    ensures fits { result < 2 ^ 15 }
{
    let mut columns = ALL_COLUMNS;
    for check in 0..4 {
        let fails = failing[check];
        columns &= if (checks >> check) % 2 == 1 {
            fails
        } else {
            ALL_COLUMNS ^ fails
        };
    }
    columns
}

/// The sum of the rows that take part in a check of the columns.
#[inline(always)]
fn sum_of(rows: &[u64; 13], check: usize) -> u64
    requires inside { check < 4 }
    requires small { All (λ row. row < 2 ^ 15) rows.now }
    ensures value { result ≡ sum_rows check hamming13_columns rows.now }
    ensures fits { result < 2 ^ 15 }
{
    let mut sum = 0;
    for above in 0..13 {
        let row = 12 - above;
        if (CHECKS[row] >> check) % 2 == 1 {
            sum ^= rows[row];
        }
    }
    sum
}
