//! Rows, written into the four fields that carry the table.
//!
//! A field holds four columns of eight cells. So the cells of a row stand eight places apart in it.
ghost use Rattle.std.specs.Prelude.{◌≡◌, ◌≢◌, ◌+◌, ◌*◌, ◌<◌, ◌^◌, ℕ, false, All, length, slice_index_or};
ghost use Rattle.dmr_bits.specs.Bits.{bits_of, xor};
ghost use Rattle.dmr_embedded.specs.EmbeddedWord.{bits_of_fields, cell, row};

use dmr_bits::Bits;

/// For four cells of row 0 the field that holds them alone, the first cell highest.
const SPREAD: [u32; 16] = [
    0x0000_0000,
    0x0000_0080,
    0x0000_8000,
    0x0000_8080,
    0x0080_0000,
    0x0080_0080,
    0x0080_8000,
    0x0080_8080,
    0x8000_0000,
    0x8000_0080,
    0x8000_8000,
    0x8000_8080,
    0x8080_0000,
    0x8080_0080,
    0x8080_8000,
    0x8080_8080,
];

/// The fields with a word in a row that was clear.
#[inline(always)]
pub(crate) fn with_row(fields: &[u32; 4], row_number: usize, word: &Bits<16>) -> [u32; 4]
    requires inside { row_number < 8 }
    requires clear { (c : ℕ) → c < 16 → cell (bits_of_fields fields.now) row_number c ≡ false }
    ensures four { length result ≡ 4 }
    ensures narrow { All (λ field. field < 2 ^ 32) result }
    ensures written { row (bits_of_fields result) row_number ≡ word.now }
    ensures kept { (r c : ℕ) → r < 8 → c < 16 → r ≢ row_number
        → cell (bits_of_fields result) r c ≡ cell (bits_of_fields fields.now) r c }
{
    [
        with_cells(fields[0], row_number, word.field(0, 4)),
        with_cells(fields[1], row_number, word.field(4, 4)),
        with_cells(fields[2], row_number, word.field(8, 4)),
        with_cells(fields[3], row_number, word.field(12, 4)),
    ]
}

/// A field to which four cells of a row are added.
#[inline(always)]
fn with_cells(field: u32, row_number: usize, cells: u64) -> u32
    requires inside { row_number < 8 }
    requires four { cells < 16 }
    ensures narrow { result < 2 ^ 32 }
    ensures added { (k : ℕ) → k < 4 → slice_index_or (bits_of 32 result) (8 * k + row_number) false
        ≡ xor (slice_index_or (bits_of 32 field) (8 * k + row_number) false) (slice_index_or (bits_of 4 cells) k false) }
    ensures kept { (k r : ℕ) → k < 4 → r < 8 → r ≢ row_number
        → slice_index_or (bits_of 32 result) (8 * k + r) false ≡ slice_index_or (bits_of 32 field) (8 * k + r) false }
{
    field ^ (SPREAD[cells as usize] >> row_number)
}
