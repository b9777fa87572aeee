//! The rows of a log as CSV.
ghost use Rattle.std.specs.Prelude.{◌≡◌, IfOk, IfSome, map, option_map};
ghost use Rattle.dmr_log_forms.specs.Kinds.{kind_name};
ghost use Rattle.csv.specs.Writing.{default_writer, row_text};
ghost use Rattle.dmr_log_forms.specs.Entries.{columns_of_entry};
ghost use Rattle.dmr_log_forms.specs.Rows as spec;

use crate::columns::{CallEnd, EntryColumns};
use crate::entry::{EntryDetails, LogEntry};
use crate::kind::EntryKind;
use crate::start_time::{Begin, StartTime};
use arrayvec::ArrayString;
use csv::{Error, Writer};
use dmr_data::BODY_LIMIT;
use dmr_listing::Way;
use dmr_log::Checks;
use dmr_recording::Seconds;
use itoa::{Buffer, Integer};
use std::alloc::Global;
use std::fmt::{Display, Write};

/// The names of the columns.
const HEAD: [&[u8]; 19] = [
    b"start", b"seconds", b"frame", b"slot", b"kind", b"from", b"to", b"group", b"options",
    b"late", b"bursts", b"places", b"filled", b"blocks", b"missing", b"wrong", b"checked", b"end",
    b"details",
];

/// How many letters the details of an entry have at most: those of a received record have its octets in digits.
pub(crate) const DETAILS: usize = 2 * BODY_LIMIT + 40;

/// A text of at most 40 letters, which a cell holds.
type Cell = ArrayString<40>;

/// A number as a cell, which is empty where there is none.
fn number<N: Integer>(value: Option<N>) -> Cell
    ensures value { result.bytes ≡ spec.number_cell N.text value }
{
    match value {
        Some(number) => ArrayString::from(Buffer::new().format(number)).unwrap_or_default(),
        None => ArrayString::new(),
    }
}

/// The sender, if there is one.
fn source(way: Option<Way>) -> Option<u32>
    ensures value { result ≡ option_map (λ way. way.source) way }
{
    Some(way?.source)
}

/// To whom it sends.
fn destination(way: Option<Way>) -> Option<u32>
    ensures value { result ≡ option_map (λ way. way.destination) way }
{
    Some(way?.destination)
}

/// Whether that is a talk group.
fn is_to_group(way: Option<Way>) -> Option<bool>
    ensures value { result ≡ option_map (λ way. way.to_group) way }
{
    Some(way?.to_group)
}

/// How many bits are wrong.
fn wrong(checks: Option<Checks>) -> Option<u64>
    ensures value { result ≡ option_map (λ checks. checks.wrong) checks }
{
    Some(checks?.wrong)
}

/// How many are covered.
fn covered(checks: Option<Checks>) -> Option<u64>
    ensures value { result ≡ option_map (λ checks. checks.covered) checks }
{
    Some(checks?.covered)
}

/// A flag as a cell: 1 or 0.
fn flag(value: Option<bool>) -> Cell
    ensures value { result.bytes ≡ spec.flag_cell value }
{
    match value {
        Some(true) => number(Some(1u8)),
        Some(false) => number(Some(0u8)),
        None => ArrayString::new(),
    }
}

/// How a call ended, as a cell.
fn end(value: Option<CallEnd>) -> Cell
    ensures value { result.bytes ≡ spec.end_cell value }
{
    match value {
        Some(end) => ArrayString::from(end.name()).unwrap_or_default(),
        None => ArrayString::new(),
    }
}

/// What something is, as a cell.
fn name(kind: EntryKind) -> Cell
    ensures name { IfSome (kind_name kind) (λ name. result.bytes ≡ name) }
{
    match kind.name() {
        Some(name) => ArrayString::from(name).unwrap_or_default(),
        None => text_of(&kind),
    }
}

/// The text of something, for which there is room.
fn text_of<const ROOM: usize, T: Display>(value: &T) -> ArrayString<ROOM> {
    let mut text = ArrayString::new();
    let _ = write!(text, "{value}");
    text
}

/// A row of these cells.
fn row_of(alloc: Global, cells: &[&[u8]]) -> Result<Vec<u8>, Error>
    ensures row { IfOk result (λ row. row.items ≡ row_text default_writer (map (λ cell. cell.now) cells.now)) }
{
    let mut writer = Writer::from_writer(Vec::new(alloc));
    writer.write_fields(cells)?;
    match writer.into_inner() {
        Ok(row) => Ok(row),
        Err(error) => Err(error.into_error()),
    }
}

/// The row that names the columns.
pub(crate) fn head_row(alloc: Global) -> Result<Vec<u8>, Error>
    ensures row { IfOk result (λ row. row.items ≡ row_text default_writer spec.names) }
{
    row_of(alloc, &HEAD)
}

/// The cells of a row.
#[derive(Drop)]
struct RowCells {
    start: Cell,
    seconds: Cell,
    frame: Cell,
    slot: Cell,
    kind: Cell,
    from: Cell,
    to: Cell,
    group: Cell,
    options: Cell,
    late: Cell,
    bursts: Cell,
    places: Cell,
    filled: Cell,
    blocks: Cell,
    missing: Cell,
    wrong: Cell,
    checked: Cell,
    end: Cell,
    details: ArrayString<DETAILS>,
}

impl RowCells {
    /// Those of an entry.
    fn of_entry(start: Option<StartTime>, entry: &LogEntry<'_>) -> RowCells
        ensures shows { spec.Shows (columns_of_entry entry.now) (spec.cell_octets result) }
    {
        let columns = entry.columns();
        let EntryColumns { place, way, .. } = columns;
        let begin = Begin {
            start,
            milliseconds: place.milliseconds(),
        };
        RowCells {
            start: text_of(&begin),
            seconds: text_of(&Seconds(columns.milliseconds)),
            frame: number(Some(place.frame)),
            slot: number(Some(place.slot)),
            kind: name(columns.kind.in_table()),
            from: number(source(way)),
            to: number(destination(way)),
            group: flag(is_to_group(way)),
            options: number(columns.options),
            late: flag(columns.is_late),
            bursts: number(columns.bursts),
            places: number(columns.places),
            filled: number(columns.filled),
            blocks: number(columns.blocks),
            missing: number(columns.missing),
            wrong: number(wrong(columns.checks)),
            checked: number(covered(columns.checks)),
            end: end(columns.end),
            details: text_of(&EntryDetails(entry)),
        }
    }

    /// Their octets, in the order of the columns.
    fn octets(&self) -> [&[u8]; 19]
        ensures value { map (λ cell. cell.now) result ≡ spec.cell_octets self.now }
    {
        [
            self.start.as_str().as_bytes(),
            self.seconds.as_str().as_bytes(),
            self.frame.as_str().as_bytes(),
            self.slot.as_str().as_bytes(),
            self.kind.as_str().as_bytes(),
            self.from.as_str().as_bytes(),
            self.to.as_str().as_bytes(),
            self.group.as_str().as_bytes(),
            self.options.as_str().as_bytes(),
            self.late.as_str().as_bytes(),
            self.bursts.as_str().as_bytes(),
            self.places.as_str().as_bytes(),
            self.filled.as_str().as_bytes(),
            self.blocks.as_str().as_bytes(),
            self.missing.as_str().as_bytes(),
            self.wrong.as_str().as_bytes(),
            self.checked.as_str().as_bytes(),
            self.end.as_str().as_bytes(),
            self.details.as_str().as_bytes(),
        ]
    }
}

/// The row of an entry. Only want of memory is an error.
pub(crate) fn entry_row(
    alloc: Global,
    start: Option<StartTime>,
    entry: &LogEntry<'_>,
) -> Result<Vec<u8>, Error>
    ensures shows { IfOk result (λ row. spec.ShowsColumns (columns_of_entry entry.now) row.items) }
{
    let cells = RowCells::of_entry(start, entry);
    row_of(alloc, &cells.octets())
}
