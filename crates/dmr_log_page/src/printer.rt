//! A page, printed as a log is told.
ghost use Rattle.std.specs.Prelude.{◌≡◌, ◌||◌, IfErr, OnOk, true, false, string_bytes};
ghost use Rattle.std.specs.Io.KnownBytes.{Appends};
ghost use Rattle.dmr_log_forms.specs.Faults.{has_sink_failed};
ghost use Rattle.dmr_log_page.specs.Minutes as spec;
ghost use Rattle.dmr_log_page.specs.Part.{IsPrintFault};
ghost use Rattle.dmr_log_page.specs.Rows.{PutsRow, PutsRows};

use crate::minute::{Minute, MinuteEnd, MinuteHead, begins_minute};
use crate::row::{TableRow, write_row};
use dmr_listing::Taker;
use dmr_log::FrameTold;
use dmr_log_forms::{LogFault, StartTime};
use dmr_record::{DeviceFault, Sink, put};
use std::fmt::{Display, Write};

/// Puts a text as it is.
fn put_text<K: Sink>(text: &String, sink: &mut K) -> Result<(), LogFault>
    requires sink { K.has_failed sink.old ≡ false }
    ensures text { OnOk result (Appends (K.held sink.old) (K.held sink.new) (string_bytes text.now)) }
    ensures fault { IfErr result IsPrintFault }
    ensures failed { K.has_failed sink.new ≡ has_sink_failed result }
{
    match put(sink, text.as_str().as_bytes()) {
        Ok(()) => Ok(()),
        Err(_) => Err(LogFault::Output),
    }
}

/// Prints something.
pub(crate) fn print<T: Display, K: Sink>(
    piece: &T,
    text: &mut String,
    sink: &mut K,
) -> Result<(), LogFault>
    requires sink { K.has_failed sink.old ≡ false }
    ensures text { OnOk result (spec.PutsText (K.held sink.old) (K.held sink.new)) }
    ensures fault { IfErr result IsPrintFault }
    ensures failed { K.has_failed sink.new ≡ has_sink_failed result }
{
    text.clear();
    if write!(text, "{piece}").is_err() {
        return Err(LogFault::Memory);
    }
    put_text(text, sink)
}

/// Prints a row of the table of a minute.
fn print_row<K: Sink>(
    start: Option<StartTime>,
    row: &TableRow,
    text: &mut String,
    sink: &mut K,
) -> Result<(), LogFault>
    requires sink { K.has_failed sink.old ≡ false }
    ensures row { OnOk result (PutsRow row.now.columns (K.held sink.old) (K.held sink.new)) }
    ensures fault { IfErr result IsPrintFault }
    ensures failed { K.has_failed sink.new ≡ has_sink_failed result }
{
    if write_row(start, row, text).is_err() {
        return Err(LogFault::Memory);
    }
    put_text(text, sink)
}

/// Prints the rows of the table of a minute.
fn print_rows<K: Sink>(
    start: Option<StartTime>,
    rows: &[TableRow],
    text: &mut String,
    sink: &mut K,
) -> Result<(), LogFault>
    requires sink { K.has_failed sink.old ≡ false }
    ensures rows { OnOk result (PutsRows (spec.entries_of rows.now) (K.held sink.old) (K.held sink.new)) }
    ensures fault { IfErr result IsPrintFault }
    ensures failed { K.has_failed sink.new ≡ has_sink_failed result }
{
    for row in rows {
        print_row(start, row, text, sink)?;
    }
    Ok(())
}

/// Prints a minute.
fn print_minute<K: Sink>(
    start: Option<StartTime>,
    minute: &Minute,
    text: &mut String,
    sink: &mut K,
) -> Result<(), LogFault>
    requires sink { K.has_failed sink.old ≡ false }
    ensures minute { OnOk result (spec.PutsMinute (spec.entries_of minute.now.rows.items) (K.held sink.old) (K.held sink.new)) }
    ensures fault { IfErr result IsPrintFault }
    ensures failed { K.has_failed sink.new ≡ has_sink_failed result }
{
    print(&MinuteHead { start, minute }, text, sink)?;
    print_rows(start, minute.rows(), text, sink)?;
    print(&MinuteEnd(minute), text, sink)
}

/// How a page is printed.
#[derive(Clone, Copy, Drop)]
pub(crate) struct PagePrinting {
    /// When the recording began, if that is known.
    pub(crate) start: Option<StartTime>,
    /// The address of the gateway. It means nothing where there is none, since then nothing is received.
    pub(crate) address: u32,
}

impl PagePrinting {
    /// Takes what is told of a frame, and prints the minute in front of it where that is over.
    fn take<K: Sink>(
        &self,
        told: &FrameTold,
        minute: &mut Minute,
        text: &mut String,
        sink: &mut K,
    ) -> Result<(), LogFault>
        requires sink { K.has_failed sink.old ≡ false }
        ensures taken { OnOk result (spec.TakesTold self.now.address
            (record { held = K.held sink.old; entries = spec.entries_of minute.old.rows.items }) told.now
            (record { held = K.held sink.new; entries = spec.entries_of minute.new.rows.items })) }
        ensures fault { IfErr result IsPrintFault }
        ensures failed { K.has_failed sink.new ≡ has_sink_failed result }
    {
        if minute.take_entries(self.address, told).is_err() {
            return Err(LogFault::Memory);
        }
        if begins_minute(told.frame) {
            print_minute(self.start, minute, text, sink)?;
            minute.begin(told.frame);
        }
        if minute.take_frame(told).is_err() {
            return Err(LogFault::Memory);
        }
        Ok(())
    }
}

/// Prints a page to a sink.
#[derive(Drop)]
pub(crate) struct PagePrinter<'a, K> {
    pub(crate) sink: &'a mut K,
    pub(crate) printing: PagePrinting,
    /// The minute that isn't over yet.
    pub(crate) minute: &'a mut Minute,
    /// Memory was refused, and nothing more is printed.
    pub(crate) is_refused: bool,
    /// What is printed next.
    pub(crate) text: &'a mut String,
}

impl<K: Sink> PagePrinter<'_, K> {
    /// Prints the last minute.
    pub(crate) fn print_last(&mut self) -> Result<(), LogFault>
        requires sink { K.has_failed self.old.sink.now ≡ false }
        ensures last { OnOk result (spec.PutsMinute (spec.entries_of self.old.minute.now.rows.items)
            (K.held self.old.sink.now) (K.held self.new.sink.now)) }
        ensures fault { IfErr result IsPrintFault }
        ensures failed { K.has_failed self.new.sink.now ≡ has_sink_failed result }
        ensures kept { self.new.sink.ghost_name ≡ self.old.sink.ghost_name }
    {
        print_minute(self.printing.start, self.minute, self.text, self.sink)
    }
}

impl<K: Sink> Taker<FrameTold> for PagePrinter<'_, K> {
    ghost Takes = { λ old told new. (new.printing ≡ old.printing)
        × spec.TakesTold old.printing.address
        (record { held = K.held old.sink.now; entries = spec.entries_of old.minute.now.rows.items }) told
        (record { held = K.held new.sink.now; entries = spec.entries_of new.minute.now.rows.items }) };

    ghost Refuses = { λ old told new. new.is_refused ≡ true → K.has_failed new.sink.now ≡ false };

    ghost has_failed = { λ printer. K.has_failed printer.sink.now || printer.is_refused };

    ghost kept = { λ printer. printer.sink.ghost_name };

    fn put(&mut self, told: &FrameTold) -> Result<(), DeviceFault> {
        match self.printing.take(told, self.minute, self.text, self.sink) {
            Ok(()) => Ok(()),
            Err(LogFault::Output) => Err(DeviceFault),
            Err(_) => {
                self.is_refused = true;
                Err(DeviceFault)
            }
        }
    }
}
