//! A minute of a recording.
ghost use Rattle.std.specs.Prelude.{◌≡◌, ◌∷◌, ◌++◌, [], IfOk, OnOk};
ghost use Rattle.dmr_log_forms.specs.Entries.{columns_of_entry};
ghost use Rattle.dmr_log_forms.specs.Printed.{shown_ended, shown_of, shown_record, shown_records, shown_slot};
ghost use Rattle.dmr_log_page.specs.Minutes.{begins_minute, entries_of, everything};

use crate::clock::DayAndTime;
use crate::picture::{MinutePicture, PictureRow, SlotRow};
use crate::row::TableRow;
use crate::slot_minute::{FRAMES, SlotMinute};
use dmr_gateway::Received;
use dmr_log::{Ended, FrameReceived, FrameTold};
use dmr_log_forms::{Begin, LogEntry, StartTime};
use dmr_recording::Place;
use std::alloc::{AllocError, Global};
use std::fmt;

/// How many rows the table of a minute has room for: in a frame two transmissions end at most, and four records are received.
const ROWS: usize = 6 * FRAMES;

/// What is kept of a minute until it is over. Its memory is taken once.
#[derive(Drop)]
pub(crate) struct Minute {
    /// Its first frame.
    first: u32,
    slot_1: SlotMinute,
    slot_2: SlotMinute,
    /// What ended in it and was received in it, in order.
    rows: Vec<TableRow>,
}

/// Which frame of a minute begins its second row.
const SECOND_ROW: u32 = 500;

/// Whether a frame is the first of a minute.
pub(crate) fn begins_minute(frame: u32) -> bool
    ensures value { result ≡ begins_minute frame }
{
    frame % 1000 == 0
}

/// The head of a table.
const TABLE: &str =
    "<table><tr><th class=\"n\">start<th class=\"n\">slot<th>what<th class=\"n\">from<th class=\"n\">to\
    <th class=\"n\">seconds<th class=\"n\">there<th class=\"n\">wrong bits<th>end</tr>\n";

impl Minute {
    /// The first minute, of which nothing is known.
    pub(crate) fn new(alloc: Global) -> Result<Minute, AllocError>
        ensures none { IfOk result (λ minute. entries_of minute.rows.items ≡ []) }
    {
        Ok(Minute {
            first: 0,
            slot_1: SlotMinute::new(alloc)?,
            slot_2: SlotMinute::new(alloc)?,
            rows: Vec::with_capacity(alloc, ROWS)?,
        })
    }

    /// Begins the minute of this frame.
    pub(crate) fn begin(&mut self, first: u32)
        ensures none { entries_of self.new.rows.items ≡ [] }
    {
        self.first = first;
        self.slot_1.clear();
        self.slot_2.clear();
        self.rows.clear();
    }

    /// The rows of its table.
    pub(crate) fn rows(&self) -> &[TableRow]
        ensures value { result.now ≡ self.now.rows.items }
    {
        self.rows.as_slice()
    }

    /// Takes an entry.
    fn take_entry(&mut self, entry: &LogEntry<'_>) -> Result<(), AllocError>
        ensures taken { OnOk result (entries_of self.new.rows.items
            ≡ entries_of self.old.rows.items ++ columns_of_entry entry.now ∷ []) }
    {
        self.rows.push(TableRow::of_entry(entry))?;
        Ok(())
    }

    /// Takes the transmission that ended in a slot, if one did.
    fn take_ended(&mut self, slot: u8, ended: &Option<Ended>) -> Result<(), AllocError>
        ensures taken { OnOk result (entries_of self.new.rows.items
            ≡ entries_of self.old.rows.items ++ shown_ended everything slot ended.now) }
    {
        match ended {
            Some(ended) => self.take_entry(&LogEntry::Transmission { slot, ended }),
            None => Ok(()),
        }
    }

    /// Takes a record that was received in a frame, if there is one, and it was received in this slot.
    fn take_record(
        &mut self,
        place: Place,
        address: u32,
        received: &Option<Received>,
    ) -> Result<(), AllocError>
        ensures taken { OnOk result (entries_of self.new.rows.items
            ≡ entries_of self.old.rows.items ++ shown_record everything place.slot address place.frame received.now) }
    {
        match received {
            Some(record) if record.slot == place.slot => self.take_entry(&LogEntry::Received {
                place,
                address,
                record,
            }),
            _ => Ok(()),
        }
    }

    /// Takes those of four records that were received in a slot of a frame.
    fn take_four(
        &mut self,
        place: Place,
        address: u32,
        first: &Option<Received>,
        second: &Option<Received>,
        third: &Option<Received>,
        fourth: &Option<Received>,
    ) -> Result<(), AllocError>
        ensures taken { OnOk result (entries_of self.new.rows.items
            ≡ entries_of self.old.rows.items ++ shown_records everything place.slot address place.frame
            (first.now ∷ second.now ∷ third.now ∷ fourth.now ∷ [])) }
    {
        self.take_record(place, address, first)?;
        self.take_record(place, address, second)?;
        self.take_record(place, address, third)?;
        self.take_record(place, address, fourth)
    }

    /// Takes what was received in a slot of a frame.
    fn take_records(
        &mut self,
        place: Place,
        address: u32,
        received: &FrameReceived,
    ) -> Result<(), AllocError>
        ensures taken { OnOk result (entries_of self.new.rows.items
            ≡ entries_of self.old.rows.items ++ shown_records everything place.slot address place.frame received.now) }
    {
        let [first, second, third, fourth] = received;
        self.take_four(place, address, first, second, third, fourth)
    }

    /// Takes what ended in a slot, and what was received in it in a frame.
    fn take_slot(
        &mut self,
        place: Place,
        address: u32,
        ended: &Option<Ended>,
        received: &FrameReceived,
    ) -> Result<(), AllocError>
        ensures taken { OnOk result (entries_of self.new.rows.items
            ≡ entries_of self.old.rows.items ++ shown_slot everything place.slot address place.frame ended.now received.now) }
    {
        self.take_ended(place.slot, ended)?;
        self.take_records(place, address, received)
    }

    /// Takes what ended in front of a frame, and what a gateway of this address received in the frame before.
    pub(crate) fn take_entries(&mut self, address: u32, told: &FrameTold) -> Result<(), AllocError>
        ensures taken { OnOk result (entries_of self.new.rows.items
            ≡ entries_of self.old.rows.items ++ shown_of everything address told.now) }
    {
        let frame = told.frame.saturating_sub(1);
        let (first, second) = (Place { frame, slot: 1 }, Place { frame, slot: 2 });
        self.take_slot(first, address, &told.slot_1.ended, &told.received)?;
        self.take_slot(second, address, &told.slot_2.ended, &told.received)
    }

    /// Takes what is shown of a frame of the minute.
    pub(crate) fn take_frame(&mut self, told: &FrameTold) -> Result<(), AllocError>
        ensures same { entries_of self.new.rows.items ≡ entries_of self.old.rows.items }
    {
        let at = told.frame.saturating_sub(self.first) as usize;
        self.slot_1.take(at, &told.slot_1)?;
        self.slot_2.take(at, &told.slot_2)
    }

    /// Its picture, of a recording that began then.
    fn picture(&self, start: Option<StartTime>) -> MinutePicture<'_> {
        let first = PictureRow {
            start,
            slot_1: self.slot_row(1, 0),
            slot_2: self.slot_row(2, 0),
        };
        let second = PictureRow {
            start,
            slot_1: self.slot_row(1, SECOND_ROW),
            slot_2: self.slot_row(2, SECOND_ROW),
        };
        MinutePicture {
            rows: [first, second],
        }
    }

    /// A row of a slot, from this frame of the minute on.
    fn slot_row(&self, slot: u8, from: u32) -> SlotRow<'_> {
        let minute = if slot == 1 {
            &self.slot_1
        } else {
            &self.slot_2
        };
        SlotRow {
            slot,
            first: self.first.saturating_add(from),
            from: from as usize,
            minute,
        }
    }
}

/// What a page has of a minute in front of the rows of its table: nothing where the minute has no rows and no picture.
#[derive(Clone, Copy, Drop)]
pub(crate) struct MinuteHead<'a> {
    /// When the recording began, if that is known.
    pub(crate) start: Option<StartTime>,
    pub(crate) minute: &'a Minute,
}

impl fmt::Display for MinuteHead<'_> {
    fn fmt<W: fmt::Write>(&self, f: &mut fmt::Formatter<W>) -> fmt::Result {
        let minute = self.minute;
        let picture = minute.picture(self.start);
        if !picture.is_shown() && minute.rows.is_empty() {
            return Ok(());
        }
        let number = minute.first / 1000;
        let place = Place {
            frame: minute.first,
            slot: 1,
        };
        let when = DayAndTime(Begin {
            start: self.start,
            milliseconds: place.milliseconds(),
        });
        write!(f, "<h2>minute {number}{when}</h2>{picture}")?;
        if minute.rows.is_empty() {
            return Ok(());
        }
        write!(f, "{TABLE}")
    }
}

/// What a page has of a minute behind the rows of its table.
#[derive(Clone, Copy, Drop)]
pub(crate) struct MinuteEnd<'a>(pub(crate) &'a Minute);

impl fmt::Display for MinuteEnd<'_> {
    fn fmt<W: fmt::Write>(&self, f: &mut fmt::Formatter<W>) -> fmt::Result {
        let end = if self.0.rows.is_empty() {
            ""
        } else {
            "</table>\n"
        };
        write!(f, "{end}")
    }
}
