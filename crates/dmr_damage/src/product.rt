//! Information in the product code, with wrong bits.
ghost use Rattle.std.specs.Prelude.{◌≡◌, ◌≢◌, ◌<◌, ◌≤◌, ℕ};
ghost use Rattle.dmr_bits.specs.Bits.{distance};
ghost use Rattle.dmr_bptc.specs.Decoding.{IsDamaged};
ghost use Rattle.dmr_bptc.specs.ProductWord.{column, place};

use crate::drawing::{below, happens, turn};
use dmr_bits::Bits;
use rand_pcg::Pcg32;

/// The place at which a cell of the table of 13 rows and 15 columns is sent. ETSI TS 102 361-1, annex B.1.1.
fn place_of(row: usize, column: usize) -> usize
    requires inside_rows { row < 13 }
    requires inside_columns { column < 15 }
    ensures value { result ≡ place row column }
    ensures bound { result < 196 }
{
    181 * (1 + 15 * row + column) % 196
}

/// The information with wrong bits: any in R(3) and in one column of its table, and at most one in each other column.
pub(crate) fn turned_product(information: &Bits<196>, rng: &mut Pcg32) -> Bits<196>
    ensures damaged { IsDamaged information.now result }
{
    let mut bits = *information;
    if happens(rng, 1, 2) {
        turn_reserved(&mut bits);
    }
    let bad = below(rng, 15) as usize;
    for column in 0..15usize {
        if column == bad {
            turn_any(&mut bits, column, rng);
        } else {
            turn_one(&mut bits, column, rng);
        }
    }
    bits
}

/// Turns R(3), which belongs to no column.
fn turn_reserved(bits: &mut Bits<196>)
    ensures kept { (c : ℕ) → c < 15 → column bits.new c ≡ column bits.old c }
{
    turn(bits, 0);
}

/// Turns any bits of a column.
fn turn_any(bits: &mut Bits<196>, column_number: usize, rng: &mut Pcg32)
    requires inside { column_number < 15 }
    ensures kept { (c : ℕ) → c < 15 → c ≢ column_number → column bits.new c ≡ column bits.old c }
{
    for row in 0..13usize {
        if happens(rng, 1, 2) {
            turn_cell(bits, row, column_number);
        }
    }
}

/// Turns one bit of a column, or none.
fn turn_one(bits: &mut Bits<196>, column_number: usize, rng: &mut Pcg32)
    requires inside { column_number < 15 }
    ensures kept { (c : ℕ) → c < 15 → c ≢ column_number → column bits.new c ≡ column bits.old c }
    ensures near { distance (column bits.old column_number) (column bits.new column_number) ≤ 1 }
{
    if happens(rng, 3, 5) {
        let row = below(rng, 13) as usize;
        turn_cell(bits, row, column_number);
    }
}

/// Turns the bit of a cell.
fn turn_cell(bits: &mut Bits<196>, row_number: usize, column_number: usize)
    requires inside_rows { row_number < 13 }
    requires inside_columns { column_number < 15 }
    ensures kept { (c : ℕ) → c < 15 → c ≢ column_number → column bits.new c ≡ column bits.old c }
    ensures near { distance (column bits.old column_number) (column bits.new column_number) ≤ 1 }
{
    turn(bits, place_of(row_number, column_number));
}
