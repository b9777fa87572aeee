//! The lines of a file, printed in a notation.
ghost use Rattle.std.specs.Io.KnownBytes.{Appends};
ghost use Rattle.std.specs.Prelude.{◌≡◌, ◌≤◌, [], OnOk, false, true, length};
ghost use Rattle.dmr_record.specs.Devices.{failed_after};
ghost use Rattle.dmr_lines.specs.Line.{PutsLine};
ghost use Rattle.dmr_show.specs.Held.{held_by};
ghost use Rattle.dmr_show.specs.Filter.{IsInSlot, Passes};
ghost use Rattle.dmr_show.specs.Printed.{PutsLines, frames_of, lines_at, lines_of_slot, lines_of_strip};
ghost use Rattle.dmr_show.specs.Records.{place_of_outgoing, place_of_receipt};

use crate::file_summary::FileSummary;
use crate::filter::Filter;
use crate::form::Notation;
use crate::waiting::Waiting;
use crate::written::Written;
use dmr_json::{BurstObject, FileObject, ListEnd, OutgoingObject, ReceivedObject, RecordingEnd};
use dmr_lines::line_of;
use dmr_listing::{
    Frames, ListedBurst, OutgoingLine, ReceivedLine, ReceivedRecord, RecordingSummary, Strip, Taker,
};
use dmr_record::{DeviceFault, FileFormat, Outgoing, Sink};
use dmr_recording::Place;
use std::fmt::{Display, Write};

/// Prints the lines of a file to a sink, each in a notation, as far as a filter lets them pass.
#[derive(Drop)]
pub(crate) struct Lines<'a, K> {
    pub(crate) sink: &'a mut K,
    /// What waits to be written to it.
    pub(crate) waiting: Waiting,
    pub(crate) notation: Notation,
    pub(crate) filter: Filter,
    /// Whether no line waits for others.
    is_live: bool,
    /// The line that is printed; there is room for every line.
    text: &'a mut String,
}

/// What a listing begins with.
fn head_of(format: FileFormat) -> &'static str {
    match format {
        FileFormat::Uplink => "uplink recording, version 1",
        FileFormat::Downlink => "downlink recording, version 1",
        FileFormat::Outgoing => "outgoing list, version 1",
        FileFormat::Received => "received list, version 1",
    }
}

impl<'a, K: Sink> Lines<'a, K> {
    /// Lines go to this sink, each at once where they are live. The text has room for the longest of them.
    pub(crate) fn new(
        sink: &'a mut K,
        notation: Notation,
        filter: Filter,
        is_live: bool,
        text: &'a mut String,
    ) -> Lines<'a, K>
        ensures same_sink { result.sink.ghost_name ≡ sink.entry.ghost_name }
        ensures sink { result.sink.now ≡ sink.old }
        ensures waiting { result.waiting ≡ [] }
        ensures notation { result.notation ≡ notation }
        ensures filter { result.filter ≡ filter }
    {
        Lines {
            sink,
            waiting: Waiting::new(),
            notation,
            filter,
            is_live,
            text,
        }
    }

    /// Writes what waits to the sink.
    pub(crate) fn flush(&mut self) -> Result<(), DeviceFault>
        requires well { K.has_failed self.old.sink.now ≡ false }
        ensures octets { OnOk result (Appends (K.held self.old.sink.now) (K.held self.new.sink.now) self.old.waiting) }
        ensures none { self.new.waiting ≡ [] }
        ensures failure { K.has_failed self.new.sink.now ≡ failed_after (K.has_failed self.old.sink.now) result }
        ensures same_sink { self.new.sink.ghost_name ≡ self.old.sink.ghost_name }
    {
        self.waiting.flush(self.sink)
    }

    /// Writes what waits to the sink, where no line waits for others.
    #[tactic(auto, using(crate::proofs::Held::still_waiting, crate::proofs::Held::written_alone))]
    fn let_go(&mut self) -> Result<(), DeviceFault>
        requires well { K.has_failed self.old.sink.now ≡ false }
        ensures live { self.old.is_live ≡ true → self.new.waiting ≡ [] }
        ensures octets { OnOk result (Appends (K.held self.old.sink.now) (held_by (K.held self.new.sink.now) self.new.waiting)
            self.old.waiting) }
        ensures failure { K.has_failed self.new.sink.now ≡ failed_after (K.has_failed self.old.sink.now) result }
        ensures same_sink { self.new.sink.ghost_name ≡ self.old.sink.ghost_name }
        ensures same_notation { self.new.notation ≡ self.old.notation }
        ensures same_filter { self.new.filter ≡ self.old.filter }
    {
        if self.is_live {
            self.waiting.flush(self.sink)
        } else {
            Ok(())
        }
    }

    /// Prints a line, whatever it is written in.
    #[tactic(auto, using(crate::proofs::Held::line_let_go))]
    fn write<T: Display>(&mut self, line: &T) -> Result<(), DeviceFault>
        requires well { K.has_failed self.old.sink.now ≡ false }
        ensures live { self.old.is_live ≡ true → OnOk result (self.new.waiting ≡ []) }
        ensures line { OnOk result (PutsLine (held_by (K.held self.old.sink.now) self.old.waiting)
            (held_by (K.held self.new.sink.now) self.new.waiting)) }
        ensures failure { K.has_failed self.new.sink.now ≡ failed_after (K.has_failed self.old.sink.now) result }
        ensures same_sink { self.new.sink.ghost_name ≡ self.old.sink.ghost_name }
        ensures same_notation { self.new.notation ≡ self.old.notation }
        ensures same_filter { self.new.filter ≡ self.old.filter }
    {
        self.text.clear();
        // There is room for every line, and nothing else makes this fail.
        let _ = write!(self.text, "{line}");
        self.waiting
            .put_line(self.sink, line_of(self.text.as_str()))?;
        self.let_go()
    }

    /// Prints a line of the notation that is asked for.
    fn print<T: Written>(&mut self, line: &T) -> Result<(), DeviceFault>
        requires well { K.has_failed self.old.sink.now ≡ false }
        requires notation { T.notation line.now ≡ self.old.notation }
        ensures line { OnOk result (PutsLine (held_by (K.held self.old.sink.now) self.old.waiting)
            (held_by (K.held self.new.sink.now) self.new.waiting)) }
        ensures failure { K.has_failed self.new.sink.now ≡ failed_after (K.has_failed self.old.sink.now) result }
        ensures same_sink { self.new.sink.ghost_name ≡ self.old.sink.ghost_name }
        ensures same_notation { self.new.notation ≡ self.old.notation }
        ensures same_filter { self.new.filter ≡ self.old.filter }
    {
        self.write(line)
    }

    /// Prints what the listing of a file of this format begins with.
    pub(crate) fn begin(&mut self, format: FileFormat) -> Result<(), DeviceFault>
        requires well { K.has_failed self.old.sink.now ≡ false }
        ensures line { OnOk result (PutsLine (held_by (K.held self.old.sink.now) self.old.waiting)
            (held_by (K.held self.new.sink.now) self.new.waiting)) }
        ensures failure { K.has_failed self.new.sink.now ≡ failed_after (K.has_failed self.old.sink.now) result }
        ensures same_sink { self.new.sink.ghost_name ≡ self.old.sink.ghost_name }
        ensures same_notation { self.new.notation ≡ self.old.notation }
        ensures same_filter { self.new.filter ≡ self.old.filter }
    {
        match self.notation {
            Notation::Text => self.write(&head_of(format)),
            Notation::Json => self.print(&FileObject { format }),
        }
    }

    /// Prints what a listing ends with.
    pub(crate) fn end(&mut self, summary: &FileSummary) -> Result<(), DeviceFault>
        requires well { K.has_failed self.old.sink.now ≡ false }
        ensures line { OnOk result (PutsLine (held_by (K.held self.old.sink.now) self.old.waiting)
            (held_by (K.held self.new.sink.now) self.new.waiting)) }
        ensures failure { K.has_failed self.new.sink.now ≡ failed_after (K.has_failed self.old.sink.now) result }
        ensures same_sink { self.new.sink.ghost_name ≡ self.old.sink.ghost_name }
        ensures same_notation { self.new.notation ≡ self.old.notation }
        ensures same_filter { self.new.filter ≡ self.old.filter }
    {
        match (self.notation, *summary) {
            (Notation::Text, _) => self.print(summary),
            (Notation::Json, FileSummary::OfRecording(RecordingSummary { frames, .. })) => {
                self.print(&RecordingEnd { frames })
            }
            (Notation::Json, FileSummary::OfList(records)) => self.print(&ListEnd { records }),
        }
    }

    /// Prints the line of what stands in a place, where the filter lets it pass.
    fn print_at<T: Written>(&mut self, place: Place, line: &T) -> Result<(), DeviceFault>
        requires well { K.has_failed self.old.sink.now ≡ false }
        requires notation { T.notation line.now ≡ self.old.notation }
        ensures line { OnOk result (Passes self.old.filter place
            → PutsLine (held_by (K.held self.old.sink.now) self.old.waiting)
            (held_by (K.held self.new.sink.now) self.new.waiting)) }
        ensures others { OnOk result ((Passes self.old.filter place → ⊥)
            → (self.new.sink.now ≡ self.old.sink.now) × (self.new.waiting ≡ self.old.waiting)) }
        ensures lines { OnOk result (PutsLines (lines_at self.old.filter place)
            (held_by (K.held self.old.sink.now) self.old.waiting) (held_by (K.held self.new.sink.now) self.new.waiting)) }
        ensures failure { K.has_failed self.new.sink.now ≡ failed_after (K.has_failed self.old.sink.now) result }
        ensures same_sink { self.new.sink.ghost_name ≡ self.old.sink.ghost_name }
        ensures same_notation { self.new.notation ≡ self.old.notation }
        ensures same_filter { self.new.filter ≡ self.old.filter }
    {
        if self.filter.passes(place) {
            self.print(line)
        } else {
            Ok(())
        }
    }

    /// The frames that the filter lets pass.
    pub(crate) fn frames(&self) -> Frames
        ensures value { result ≡ frames_of self.now.filter }
    {
        self.filter.frames()
    }

    /// Prints the line of a slot of a strip, where the strip has that slot and the filter lets it pass.
    fn print_slot(&mut self, strip: &Strip, slot: u8) -> Result<(), DeviceFault>
        requires well { K.has_failed self.old.sink.now ≡ false }
        ensures line { OnOk result (IsInSlot self.old.filter slot → slot ≤ length strip.now.marks
            → PutsLine (held_by (K.held self.old.sink.now) self.old.waiting)
            (held_by (K.held self.new.sink.now) self.new.waiting)) }
        ensures lines { OnOk result (PutsLines (lines_of_slot self.old.filter slot strip.now)
            (held_by (K.held self.old.sink.now) self.old.waiting) (held_by (K.held self.new.sink.now) self.new.waiting)) }
        ensures failure { K.has_failed self.new.sink.now ≡ failed_after (K.has_failed self.old.sink.now) result }
        ensures same_sink { self.new.sink.ghost_name ≡ self.old.sink.ghost_name }
        ensures same_notation { self.new.notation ≡ self.old.notation }
        ensures same_filter { self.new.filter ≡ self.old.filter }
    {
        match strip.line(slot) {
            Some(line) if self.filter.has_slot(slot) => self.write(&line),
            _ => Ok(()),
        }
    }
}

impl<K: Sink> Taker<ListedBurst> for Lines<'_, K> {
    ghost Takes = { λ old listed new. (new.filter ≡ old.filter) × (new.notation ≡ old.notation)
        × PutsLines (lines_at old.filter listed.line.place)
        (held_by (K.held old.sink.now) old.waiting) (held_by (K.held new.sink.now) new.waiting) };

    ghost Refuses = { λ old listed new. (new.filter ≡ old.filter) × (new.notation ≡ old.notation) };

    ghost has_failed = { λ lines. K.has_failed lines.sink.now };

    ghost kept = { λ lines. lines.sink.ghost_name };

    fn put(&mut self, listed: &ListedBurst) -> Result<(), DeviceFault> {
        let ListedBurst { burst, line } = listed;
        match self.notation {
            Notation::Text => self.print_at(line.place, line),
            Notation::Json => self.print_at(line.place, &BurstObject { burst, line }),
        }
    }
}

impl<K: Sink> Taker<Outgoing> for Lines<'_, K> {
    ghost Takes = { λ old outgoing new. (new.filter ≡ old.filter) × (new.notation ≡ old.notation)
        × PutsLines (lines_at old.filter (place_of_outgoing outgoing))
        (held_by (K.held old.sink.now) old.waiting) (held_by (K.held new.sink.now) new.waiting) };

    ghost Refuses = { λ old outgoing new. (new.filter ≡ old.filter) × (new.notation ≡ old.notation) };

    ghost has_failed = { λ lines. K.has_failed lines.sink.now };

    ghost kept = { λ lines. lines.sink.ghost_name };

    fn put(&mut self, outgoing: &Outgoing) -> Result<(), DeviceFault> {
        let place = Place {
            frame: outgoing.frame,
            slot: outgoing.slot,
        };
        let record = outgoing;
        match self.notation {
            Notation::Text => self.print_at(place, &OutgoingLine { record }),
            Notation::Json => self.print_at(place, &OutgoingObject { record }),
        }
    }
}

impl<'r, K: Sink> Taker<ReceivedRecord<'r>> for Lines<'_, K> {
    ghost Takes = { λ old receipt new. (new.filter ≡ old.filter) × (new.notation ≡ old.notation)
        × PutsLines (lines_at old.filter (place_of_receipt receipt))
        (held_by (K.held old.sink.now) old.waiting) (held_by (K.held new.sink.now) new.waiting) };

    ghost Refuses = { λ old receipt new. (new.filter ≡ old.filter) × (new.notation ≡ old.notation) };

    ghost has_failed = { λ lines. K.has_failed lines.sink.now };

    ghost kept = { λ lines. lines.sink.ghost_name };

    fn put(&mut self, received: &ReceivedRecord<'r>) -> Result<(), DeviceFault> {
        let line = received.line();
        let ReceivedLine { record, octets } = line;
        let place = Place {
            frame: record.frame,
            slot: record.slot,
        };
        match self.notation {
            Notation::Text => self.print_at(place, &line),
            Notation::Json => self.print_at(place, &ReceivedObject { record, octets }),
        }
    }
}

impl<K: Sink> Taker<Strip> for Lines<'_, K> {
    ghost Takes = { λ old strip new. (new.filter ≡ old.filter) × (new.notation ≡ old.notation)
        × PutsLines (lines_of_strip old.filter strip)
        (held_by (K.held old.sink.now) old.waiting) (held_by (K.held new.sink.now) new.waiting) };

    ghost Refuses = { λ old strip new. (new.filter ≡ old.filter) × (new.notation ≡ old.notation) };

    ghost has_failed = { λ lines. K.has_failed lines.sink.now };

    ghost kept = { λ lines. lines.sink.ghost_name };

    fn put(&mut self, strip: &Strip) -> Result<(), DeviceFault> {
        self.print_slot(strip, 1)?;
        self.print_slot(strip, 2)
    }
}
