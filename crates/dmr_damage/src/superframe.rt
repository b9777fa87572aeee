//! The embedded fields of a superframe, with wrong bits.
ghost use Rattle.std.specs.Prelude.{◌≡◌, ◌≢◌, ◌<◌, ◌≤◌, ℕ, drop, length};
ghost use Rattle.dmr_bits.specs.Bits.{distance};
ghost use Rattle.dmr_embedded.specs.EmbeddedWord.{bits_of_fields, row};
ghost use Rattle.dmr_embedded.specs.Extracting.{AreRowsDamaged};
ghost use Rattle.dmr_hearing.specs.Fields.{IsCarrier, IsReceived};
ghost use Rattle.dmr_link.specs.FullLc.{FitsFullLc};
ghost use Rattle.dmr_voice.specs.Carried.{IsCarried};
ghost use Rattle.dmr_damage.specs.Fitting.{IsFitCarried};

use crate::drawing::{below, happens, turn};
use dmr_bits::{Bits, Reader, Writer};
use dmr_burst::lcss;
use dmr_embedded::embed;
use dmr_hearing::{Heard, read_fields};
use dmr_link::FullLc;
use rand_pcg::Pcg32;

/// The link control that the places B to E after an A carry, where each is heard with the LCSS of its place.
fn carried(colour: u8, ahead: &[Heard]) -> Option<FullLc>
    ensures carried { IsCarried colour ahead.now result }
    ensures fit { IsFitCarried result }
{
    match ahead {
        [b, c, d, e, ..]
            if b.has_lcss(colour, lcss::FIRST_FRAGMENT)
                && c.has_lcss(colour, lcss::CONTINUATION_FRAGMENT)
                && d.has_lcss(colour, lcss::CONTINUATION_FRAGMENT)
                && e.has_lcss(colour, lcss::LAST_FRAGMENT) => {
            read_fields(&[b.embedded, c.embedded, d.embedded, e.embedded])
        }
        _ => None,
    }
}

/// The same, of a window that begins with the A.
pub(crate) fn carried_behind(colour: u8, window: &[Heard; 6]) -> Option<FullLc>
    ensures carried { IsCarried colour (drop 1 window.now) result }
    ensures fit { IsFitCarried result }
{
    let places = &window[..];
    carried(colour, &places[1..])
}

/// The four fields that carry a link control.
fn fields_of(link_control: &FullLc) -> [u32; 4]
    requires fit { FitsFullLc link_control.now }
    ensures carrier { IsCarrier link_control.now result }
{
    embed(&link_control.octets())
}

/// The bits of four fields.
fn table_of(fields: &[u32; 4]) -> Bits<128>
    ensures value { result ≡ bits_of_fields fields.now }
{
    let mut writer = Writer::<128>::new();
    for field in fields {
        writer.push(32, u64::from(*field));
    }
    writer.finish()
}

/// The four fields that bits spell.
fn fields_spelled(bits: &Bits<128>) -> [u32; 4]
    ensures four { length result ≡ 4 }
    ensures value { bits_of_fields result ≡ bits.now }
{
    let mut reader = Reader::<128>::new(bits);
    let mut fields = [0; 4];
    for i in 0..4 {
        fields[i] = reader.next(32) as u32;
    }
    fields
}

/// Bits with at most one wrong in each of the eight rows of their table of 16 columns, which is sent column by column.
fn turned_rows(bits: &Bits<128>, rng: &mut Pcg32) -> Bits<128>
    ensures damaged { AreRowsDamaged bits.now result }
{
    let mut found = *bits;
    for row in 0..8usize {
        turn_one(&mut found, row, rng);
    }
    found
}

/// Turns one bit of a row, or none.
fn turn_one(bits: &mut Bits<128>, row_number: usize, rng: &mut Pcg32)
    requires inside { row_number < 8 }
    ensures kept { (r : ℕ) → r < 8 → r ≢ row_number → row bits.new r ≡ row bits.old r }
    ensures near { distance (row bits.old row_number) (row bits.new row_number) ≤ 1 }
{
    if happens(rng, 7, 10) {
        let column = below(rng, 16) as usize;
        turn_cell(bits, row_number, column);
    }
}

/// Turns the bit of a cell.
fn turn_cell(bits: &mut Bits<128>, row_number: usize, column_number: usize)
    requires inside_rows { row_number < 8 }
    requires inside_columns { column_number < 16 }
    ensures kept { (r : ℕ) → r < 8 → r ≢ row_number → row bits.new r ≡ row bits.old r }
    ensures near { distance (row bits.old row_number) (row bits.new row_number) ≤ 1 }
{
    turn(bits, 8 * column_number + row_number);
}

/// The four fields that carry a link control, with at most one wrong bit in each of the eight rows of their table.
pub(crate) fn turned_fields(link_control: &FullLc, rng: &mut Pcg32) -> [u32; 4]
    requires fit { FitsFullLc link_control.now }
    ensures four { length result ≡ 4 }
    ensures received { IsReceived link_control.now result }
{
    fields_spelled(&turned_rows(&table_of(&fields_of(link_control)), rng))
}
