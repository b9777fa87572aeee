//! The entries of a log, printed as they are told.
ghost use Rattle.std.specs.Prelude.{◌≡◌, ◌||◌, [], ◌∷◌, IfErr, OnOk, false, true};
ghost use Rattle.dmr_log_forms.specs.Entries.{columns_of_entry};
ghost use Rattle.dmr_log_forms.specs.Faults.{has_sink_failed};
ghost use Rattle.dmr_log_forms.specs.Part.{PutsByEnd, PutsFirstOfTold};
ghost use Rattle.dmr_log_forms.specs.Printed as spec;
ghost use Rattle.dmr_lines.specs.Line.{PutsLine};

use crate::entry::LogEntry;
use crate::fault::LogFault;
use crate::line::EntryLine;
use crate::object::EntryObject;
use crate::row::entry_row;
use crate::settings::LogForm;
use crate::start_time::StartTime;
use dmr_gateway::Received;
use dmr_lines::{SUCCESS, line_of, print_line};
use dmr_listing::Taker;
use dmr_log::{Ended, FrameReceived, FrameTold};
use dmr_record::{DeviceFault, Sink, put};
use dmr_recording::Place;
use dmr_show::Filter;
use std::alloc::Global;
use std::fmt::{Display, Write};

/// How entries are printed.
#[derive(Clone, Copy, Drop)]
pub(crate) struct Printing {
    pub(crate) alloc: Global,
    pub(crate) form: LogForm,
    pub(crate) start: Option<StartTime>,
    /// The address of the gateway. It means nothing where there is none, since then nothing is received.
    pub(crate) address: u32,
    pub(crate) filter: Filter,
}

/// Prints a line. The text has room for the longest.
pub(crate) fn print_text<T: Display, K: Sink>(
    line: &T,
    text: &mut String,
    sink: &mut K,
) -> Result<(), LogFault>
    requires sink { K.has_failed sink.old ≡ false }
    ensures line { OnOk result (PutsLine (K.held sink.old) (K.held sink.new)) }
    ensures fault { IfErr result (λ e. e ≡ LogFault.Output) }
    ensures failed { K.has_failed sink.new ≡ has_sink_failed result }
{
    text.clear();
    // There is room for every line, and nothing else makes this fail.
    let _ = write!(text, "{line}");
    match print_line(sink, line_of(text.as_str()), SUCCESS) {
        SUCCESS => Ok(()),
        _ => Err(LogFault::Output),
    }
}

impl Printing {
    /// Prints an entry, whatever its place.
    fn print<K: Sink>(
        &self,
        entry: &LogEntry<'_>,
        text: &mut String,
        sink: &mut K,
    ) -> Result<(), LogFault>
        requires sink { K.has_failed sink.old ≡ false }
        ensures entry { PutsByEnd result self.now.form (columns_of_entry entry.now ∷ [])
            (K.held sink.old) (K.held sink.new) }
        ensures failed { K.has_failed sink.new ≡ has_sink_failed result }
    {
        let start = self.start;
        match self.form {
            LogForm::Lines => print_text(
                &EntryLine {
                    start,
                    entry: *entry,
                },
                text,
                sink,
            ),
            LogForm::Json => print_text(
                &EntryObject {
                    start,
                    entry: *entry,
                },
                text,
                sink,
            ),
            LogForm::Table => {
                let Ok(row) = entry_row(self.alloc, start, entry) else {
                    return Err(LogFault::Memory);
                };
                match put(sink, row.as_slice()) {
                    Ok(()) => Ok(()),
                    Err(_) => Err(LogFault::Output),
                }
            }
        }
    }

    /// Prints an entry that begins in this place, where the filter lets that pass.
    fn print_at<K: Sink>(
        &self,
        place: Place,
        entry: &LogEntry<'_>,
        text: &mut String,
        sink: &mut K,
    ) -> Result<(), LogFault>
        requires sink { K.has_failed sink.old ≡ false }
        requires place { place ≡ (columns_of_entry entry.now).place }
        ensures put { PutsByEnd result self.now.form (spec.shown_entry self.now.filter (columns_of_entry entry.now))
            (K.held sink.old) (K.held sink.new) }
        ensures failed { K.has_failed sink.new ≡ has_sink_failed result }
    {
        if self.filter.passes(place) {
            self.print(entry, text, sink)
        } else {
            Ok(())
        }
    }

    /// Prints the transmission that ended in a slot, if one did.
    fn print_ended<K: Sink>(
        &self,
        slot: u8,
        ended: &Option<Ended>,
        text: &mut String,
        sink: &mut K,
    ) -> Result<(), LogFault>
        requires sink { K.has_failed sink.old ≡ false }
        ensures put { PutsByEnd result self.now.form (spec.shown_ended self.now.filter slot ended.now)
            (K.held sink.old) (K.held sink.new) }
        ensures failed { K.has_failed sink.new ≡ has_sink_failed result }
    {
        let Some(ended) = ended else {
            return Ok(());
        };
        let entry = LogEntry::Transmission { slot, ended };
        self.print_at(entry.columns().place, &entry, text, sink)
    }

    /// Prints a record that was received in a frame, if there is one, and it was received in this slot.
    fn print_record<K: Sink>(
        &self,
        place: Place,
        received: &Option<Received>,
        text: &mut String,
        sink: &mut K,
    ) -> Result<(), LogFault>
        requires sink { K.has_failed sink.old ≡ false }
        ensures put { PutsByEnd result self.now.form
            (spec.shown_record self.now.filter place.slot self.now.address place.frame received.now)
            (K.held sink.old) (K.held sink.new) }
        ensures failed { K.has_failed sink.new ≡ has_sink_failed result }
    {
        match received {
            Some(record) if record.slot == place.slot => {
                let entry = LogEntry::Received {
                    place,
                    address: self.address,
                    record,
                };
                self.print_at(place, &entry, text, sink)
            }
            _ => Ok(()),
        }
    }

    /// Prints those of four records that were received in a slot of a frame.
    fn print_four<K: Sink>(
        &self,
        place: Place,
        first: &Option<Received>,
        second: &Option<Received>,
        third: &Option<Received>,
        fourth: &Option<Received>,
        text: &mut String,
        sink: &mut K,
    ) -> Result<(), LogFault>
        requires sink { K.has_failed sink.old ≡ false }
        ensures put { PutsByEnd result self.now.form
            (spec.shown_records self.now.filter place.slot self.now.address place.frame
            (first.now ∷ second.now ∷ third.now ∷ fourth.now ∷ []))
            (K.held sink.old) (K.held sink.new) }
        ensures failed { K.has_failed sink.new ≡ has_sink_failed result }
    {
        self.print_record(place, first, text, sink)?;
        self.print_record(place, second, text, sink)?;
        self.print_record(place, third, text, sink)?;
        self.print_record(place, fourth, text, sink)
    }

    /// Prints what was received in a slot of a frame.
    fn print_records<K: Sink>(
        &self,
        place: Place,
        received: &FrameReceived,
        text: &mut String,
        sink: &mut K,
    ) -> Result<(), LogFault>
        requires sink { K.has_failed sink.old ≡ false }
        ensures put { PutsByEnd result self.now.form
            (spec.shown_records self.now.filter place.slot self.now.address place.frame received.now)
            (K.held sink.old) (K.held sink.new) }
        ensures failed { K.has_failed sink.new ≡ has_sink_failed result }
    {
        let [first, second, third, fourth] = received;
        self.print_four(place, first, second, third, fourth, text, sink)
    }

    /// Prints what ended in a slot, and what was received in it in a frame.
    fn print_slot<K: Sink>(
        &self,
        place: Place,
        ended: &Option<Ended>,
        received: &FrameReceived,
        text: &mut String,
        sink: &mut K,
    ) -> Result<(), LogFault>
        requires sink { K.has_failed sink.old ≡ false }
        ensures put { PutsByEnd result self.now.form
            (spec.shown_slot self.now.filter place.slot self.now.address place.frame ended.now received.now)
            (K.held sink.old) (K.held sink.new) }
        ensures failed { K.has_failed sink.new ≡ has_sink_failed result }
    {
        self.print_ended(place.slot, ended, text, sink)?;
        self.print_records(place, received, text, sink)
    }

    /// Prints what ended in both slots in front of a frame, and what was received in the frame before, which is this.
    fn print_slots<K: Sink>(
        &self,
        frame: u32,
        told: &FrameTold,
        text: &mut String,
        sink: &mut K,
    ) -> Result<(), LogFault>
        requires sink { K.has_failed sink.old ≡ false }
        ensures put { PutsByEnd result self.now.form
            (spec.shown_slots self.now.filter self.now.address frame told.now)
            (K.held sink.old) (K.held sink.new) }
        ensures failed { K.has_failed sink.new ≡ has_sink_failed result }
    {
        let (first, second) = (Place { frame, slot: 1 }, Place { frame, slot: 2 });
        self.print_slot(first, &told.slot_1.ended, &told.received, text, sink)?;
        self.print_slot(second, &told.slot_2.ended, &told.received, text, sink)
    }

    /// Prints what a log told of a frame.
    fn print_told<K: Sink>(
        &self,
        told: &FrameTold,
        text: &mut String,
        sink: &mut K,
    ) -> Result<(), LogFault>
        requires sink { K.has_failed sink.old ≡ false }
        ensures put { PutsByEnd result self.now.form (spec.shown_of self.now.filter self.now.address told.now)
            (K.held sink.old) (K.held sink.new) }
        ensures failed { K.has_failed sink.new ≡ has_sink_failed result }
    {
        self.print_slots(told.frame.saturating_sub(1), told, text, sink)
    }
}

/// Prints a log to a sink.
#[derive(Drop)]
pub(crate) struct EntryPrinter<'a, K> {
    pub(crate) sink: &'a mut K,
    pub(crate) printing: Printing,
    /// Memory was refused, and nothing more is printed.
    pub(crate) is_refused: bool,
    /// The line that is printed; there is room for every line.
    pub(crate) text: &'a mut String,
}

impl<K: Sink> Taker<FrameTold> for EntryPrinter<'_, K> {
    ghost Takes = { λ old told new. (new.printing ≡ old.printing)
        × spec.PutsEntries old.printing.form (spec.shown_of old.printing.filter old.printing.address told)
        (K.held old.sink.now) (K.held new.sink.now) };

    ghost Refuses = { λ old told new. new.is_refused ≡ true → (K.has_failed new.sink.now ≡ false)
        × (new.printing ≡ old.printing)
        × PutsFirstOfTold old.printing.form old.printing.filter old.printing.address
        (K.held old.sink.now) told (K.held new.sink.now) };

    ghost has_failed = { λ printer. K.has_failed printer.sink.now || printer.is_refused };

    ghost kept = { λ printer. printer.sink.ghost_name };

    fn put(&mut self, told: &FrameTold) -> Result<(), DeviceFault> {
        match self.printing.print_told(told, self.text, self.sink) {
            Ok(()) => Ok(()),
            Err(LogFault::Output) => Err(DeviceFault),
            Err(_) => {
                self.is_refused = true;
                Err(DeviceFault)
            }
        }
    }
}
