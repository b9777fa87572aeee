//! Where each cell of the table is sent among the 196 bits.
//!
//! Behind the first place stand thirteen lines of fifteen places. The cells of the table, row by row, are the columns
//! of these lines, each from the last line up.
ghost use Rattle.std.specs.Prelude.{◌≡◌, ◌<◌, ◌≤◌, ◌+◌, ◌-◌, ◌*◌, ◌/◌, ◌%◌, ◌^◌, ℕ, false, length, slice_index_or};
ghost use Rattle.dmr_bits.specs.Bits.{bits_of};
ghost use Rattle.dmr_bptc.specs.Spread.{four};
ghost use Rattle.dmr_bptc.specs.ProductWord.{cell};
ghost use Rattle.dmr_bptc.specs.Rows.{AreRows, laid};

use crate::table::Table;
use dmr_bits::Bits;

/// For four places of a line their bits, each in a column of its own of thirteen lines, the first place in the highest.
const IN_COLUMNS: [u64; 16] = [
    0x0,
    0x1,
    0x2000,
    0x2001,
    0x4000000,
    0x4000001,
    0x4002000,
    0x4002001,
    0x8000000000,
    0x8000000001,
    0x8000002000,
    0x8000002001,
    0x8004000000,
    0x8004000001,
    0x8004002000,
    0x8004002001,
];

/// The table that 196 bits hold, the first of them left out.
pub(crate) fn table_of(bits: &Bits<196>) -> Table
    ensures cells { (r c : ℕ) → r < 13 → c < 15 → cell result r c ≡ cell bits.now r c }
{
    let cells = received_cells(bits);
    let mut rows = [0; 13];
    for row in 0..13 {
        rows[row] = cells.field(15 * row, 15);
    }
    Table { rows }
}

/// Columns of lines as they grow from the last line up, the first three of them in one number and then four in each.
#[derive(Clone, Copy)]
struct Columns {
    first: u64,
    second: u64,
    third: u64,
    fourth: u64,
}

/// The cells that 196 bits hold, row by row.
#[inline(always)]
fn received_cells(bits: &Bits<196>) -> Bits<195>
    ensures cells { (k : ℕ) → k < 195 → slice_index_or result k false ≡ cell bits.now (k / 15) (k % 15) }
{
    let none = Columns {
        first: 0,
        second: 0,
        third: 0,
        fourth: 0,
    };
    let mut columns = with_line(none, bits.field(181, 15));
    for group in 0..3 {
        let lines = bits.field(121 - 60 * group, 60);
        for above in 0..4_u32 {
            let line = (lines >> (15 * above)) % 32768;
            columns = with_line(columns, line);
        }
    }
    let three = Bits::<195>::zero().with_field(0, 39, columns.first);
    let seven = three.with_field(39, 52, columns.second);
    let eleven = seven.with_field(91, 52, columns.third);
    eleven.with_field(143, 52, columns.fourth)
}

/// The columns with one line more.
#[inline(always)]
fn with_line(columns: Columns, line: u64) -> Columns
    requires line { line < 2 ^ 15 }
    requires first { columns.first < 2 ^ 52 }
    requires second { columns.second < 2 ^ 52 }
    requires third { columns.third < 2 ^ 52 }
    requires fourth { columns.fourth < 2 ^ 52 }
    ensures first { result.first
        ≡ 2 * columns.first + four 13 0 (line / 16384) (line / 8192 % 2) (line / 4096 % 2) }
    ensures second { result.second
        ≡ 2 * columns.second + four 13 (line / 2048 % 2) (line / 1024 % 2) (line / 512 % 2) (line / 256 % 2) }
    ensures third { result.third
        ≡ 2 * columns.third + four 13 (line / 128 % 2) (line / 64 % 2) (line / 32 % 2) (line / 16 % 2) }
    ensures fourth { result.fourth
        ≡ 2 * columns.fourth + four 13 (line / 8 % 2) (line / 4 % 2) (line / 2 % 2) (line % 2) }
{
    Columns {
        first: 2 * columns.first + in_columns(line >> 12),
        second: 2 * columns.second + in_columns((line >> 8) % 16),
        third: 2 * columns.third + in_columns((line >> 4) % 16),
        fourth: 2 * columns.fourth + in_columns(line % 16),
    }
}

/// The bits of four places of a line, each in a column of its own of thirteen lines.
#[inline(always)]
fn in_columns(places: u64) -> u64
    requires four { places < 16 }
    ensures value { result ≡ four 13 (places / 8 % 2) (places / 4 % 2) (places / 2 % 2) (places % 2) }
    ensures fits { result < 2 ^ 40 }
{
    IN_COLUMNS[places as usize]
}
