//! The rows of the table of a minute.
ghost use Rattle.std.specs.Prelude.{◌≡◌, ◌+◌, ◌++◌, ◌<◌, ◌≤◌, ◌^◌, OnOk, length, decimal, codes, string_bytes};
ghost use Rattle.dmr_log_forms.specs.Entries.{columns_of_entry};
ghost use Rattle.dmr_log_forms.specs.Rows.{end_cell};
ghost use Rattle.dmr_log_page.specs.Rows as spec;
ghost use Rattle.dmr_log_page.specs.Cells.{page_cells_of};

use crate::clock::ToTheHundredth;
use crate::what::What;
use arrayvec::ArrayString;
use dmr_listing::Way;
use dmr_log::Checks;
use dmr_log_forms::{Begin, CallEnd, EntryColumns, LogEntry, StartTime};
use dmr_recording::Seconds;
use itoa::{Buffer, Integer};
use std::alloc::AllocError;
use std::fmt::{Display, Write};

/// What the table of a minute has of an entry.
#[derive(Clone, Copy, Drop)]
pub(crate) struct TableRow {
    pub(crate) columns: EntryColumns,
    pub(crate) what: What,
}

impl TableRow {
    /// That of an entry.
    pub(crate) fn of_entry(entry: &LogEntry<'_>) -> TableRow
        ensures columns { result.columns ≡ columns_of_entry entry.now }
    {
        TableRow {
            columns: entry.columns(),
            what: What::of_entry(entry),
        }
    }
}

/// A text of at most 40 letters.
type Short = ArrayString<40>;

/// The text of a cell.
type Cell = ArrayString<160>;

/// A number.
fn number<N: Integer>(value: N) -> Short
    ensures value { result.bytes ≡ N.text value }
{
    ArrayString::from(Buffer::new().format(value)).unwrap_or_default()
}

/// Two texts behind one another, as a cell.
fn both(first: &str, second: &str) -> Cell
    requires room { length first.now + length second.now ≤ 160 }
    ensures value { result.bytes ≡ first.now ++ second.now }
{
    let mut cell: Cell = ArrayString::new();
    cell.push_str(first);
    cell.push_str(second);
    cell
}

/// The text of something, for which there is room.
fn text_of<T: Display>(value: &T) -> Cell {
    let mut text = ArrayString::new();
    let _ = write!(text, "{value}");
    text
}

/// So many of all, or nothing where there are none.
fn share(part: u64, all: u64) -> Cell
    ensures value { result.bytes ≡ spec.share part all }
{
    if all == 0 {
        return ArrayString::new();
    }
    let part = both(number(part).as_str(), " of ");
    both(part.as_str(), number(all).as_str())
}

/// The sender, if there is one.
fn from(way: Option<Way>) -> Cell
    ensures value { result.bytes ≡ spec.from_cell way }
{
    match way {
        Some(way) => both(number(way.source).as_str(), ""),
        None => ArrayString::new(),
    }
}

/// To whom it is sent. A talk group is told from a radio, but of calls, whose name tells.
fn to(is_late: Option<bool>, way: Option<Way>) -> Cell
    ensures value { result.bytes ≡ spec.to_cell is_late way }
{
    match way {
        Some(way) => {
            let group = if is_late.is_none() && way.to_group {
                "TG "
            } else {
                ""
            };
            both(group, number(way.destination).as_str())
        }
        None => ArrayString::new(),
    }
}

/// How many blocks of a packet came, by these and those that didn't.
fn blocks_there(blocks: Option<u8>, missing: Option<u8>) -> Cell
    ensures value { result.bytes ≡ spec.blocks_cell blocks missing }
{
    match (blocks, missing) {
        (Some(blocks), Some(missing)) => {
            share(u64::from(blocks), u64::from(blocks) + u64::from(missing))
        }
        _ => ArrayString::new(),
    }
}

/// How many places of a call came, or how many blocks of a packet.
fn there(columns: &EntryColumns) -> Cell
    ensures value { result.bytes
        ≡ spec.there_cell columns.now.places columns.now.filled columns.now.blocks columns.now.missing }
{
    match (columns.places, columns.filled) {
        (Some(places), Some(filled)) => {
            share(u64::from(places.saturating_sub(filled)), u64::from(places))
        }
        _ => blocks_there(columns.blocks, columns.missing),
    }
}

/// How many bits are wrong.
fn wrong(checks: Option<Checks>) -> Cell
    ensures value { result.bytes ≡ spec.wrong_cell checks }
{
    match checks {
        Some(Checks { wrong, covered }) => share(wrong, covered),
        None => ArrayString::new(),
    }
}

/// How a call ended.
fn end(value: Option<CallEnd>) -> Cell
    ensures value { result.bytes ≡ end_cell value }
{
    match value {
        Some(end) => ArrayString::from(end.name()).unwrap_or_default(),
        None => ArrayString::new(),
    }
}

/// The cells of a row.
#[derive(Drop)]
pub(crate) struct TableCells {
    start: Cell,
    slot: Cell,
    what: Cell,
    from: Cell,
    to: Cell,
    seconds: Cell,
    there: Cell,
    wrong: Cell,
    end: Cell,
}

/// Writes a cell behind what stands in front of it.
fn write_cell(head: &str, cell: &Cell, text: &mut String) -> Result<(), AllocError>
    ensures written { OnOk result (string_bytes text.new ≡ string_bytes text.old ++ (head.now ++ cell.now.bytes)) }
{
    text.push_str(head)?;
    text.push_str(cell.as_str())
}

/// Writes a cell with a number.
fn write_number(cell: &Cell, text: &mut String) -> Result<(), AllocError>
    ensures written { OnOk result (string_bytes text.new ≡ string_bytes text.old ++ spec.number_octets cell.now.bytes) }
{
    write_cell("<td class=\"n\">", cell, text)
}

/// Writes a cell with a text.
fn write_text(cell: &Cell, text: &mut String) -> Result<(), AllocError>
    ensures written { OnOk result (string_bytes text.new ≡ string_bytes text.old ++ spec.text_octets cell.now.bytes) }
{
    write_cell("<td>", cell, text)
}

impl TableCells {
    /// Those of a row of the table, of a recording that began then.
    fn of_row(start: Option<StartTime>, row: &TableRow) -> TableCells
        ensures shows { spec.ShowsEntry row.now.columns (page_cells_of result) }
    {
        let columns = &row.columns;
        let begin = Begin {
            start,
            milliseconds: columns.place.milliseconds(),
        };
        TableCells {
            start: text_of(&ToTheHundredth(begin)),
            slot: both(number(columns.place.slot).as_str(), ""),
            what: text_of(&row.what),
            from: from(columns.way),
            to: to(columns.is_late, columns.way),
            seconds: text_of(&Seconds(columns.milliseconds)),
            there: there(columns),
            wrong: wrong(columns.checks),
            end: end(columns.end),
        }
    }

    /// Writes them in place of a text.
    fn write(&self, text: &mut String) -> Result<(), AllocError>
        ensures written { OnOk result (string_bytes text.new ≡ spec.row_text (page_cells_of self.now)) }
    {
        text.clear();
        text.push_str("<tr>")?;
        write_number(&self.start, text)?;
        write_number(&self.slot, text)?;
        write_text(&self.what, text)?;
        write_number(&self.from, text)?;
        write_number(&self.to, text)?;
        write_number(&self.seconds, text)?;
        write_number(&self.there, text)?;
        write_number(&self.wrong, text)?;
        write_text(&self.end, text)?;
        text.push_str("</tr>\n")
    }
}

/// Writes a row of the table in place of a text.
pub(crate) fn write_row(
    start: Option<StartTime>,
    row: &TableRow,
    text: &mut String,
) -> Result<(), AllocError>
    ensures row { OnOk result (spec.IsRowOf row.now.columns (string_bytes text.new)) }
{
    TableCells::of_row(start, row).write(text)
}
