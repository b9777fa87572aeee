//! The page of a file.
ghost use Rattle.std.specs.Prelude.{◌≡◌, ◌≤◌, ◌⊎◌, [], false, true, Err, IfErr, IfOk, OnOk};
ghost use Rattle.std.specs.Io.KnownBytes.{IsAtEnd};
ghost use Rattle.dmr_lines.specs.Status.{failure, success};
ghost use Rattle.dmr_log_forms.specs.Faults.{has_sink_failed};
ghost use Rattle.dmr_log_forms.specs.Part as forms;
ghost use Rattle.dmr_log_forms.specs.Whole.{log_of};
ghost use Rattle.dmr_log_forms.specs.declared.fault.LogFault as declared;
ghost use Rattle.dmr_log_page.specs.Minutes.{entries_of};
ghost use Rattle.dmr_log_page.specs.Pages as spec;
ghost use Rattle.dmr_log_page.specs.Part as part;
ghost use Rattle.dmr_show.specs.Showing.{IsUntouched, TellsFault};

use crate::end::PageEnd;
use crate::head::PageHead;
use crate::minute::Minute;
use crate::printer::{PagePrinter, PagePrinting, print};
use crate::settings::PageSettings;
use dmr_lines::{FAILURE, SUCCESS};
use dmr_log::{Log, LogSummary, log_recording};
use dmr_log_forms::{LogFault, new_log, print_log_fault, read_uplink_head};
use dmr_record::{Sink, Source};
use dmr_recording::Stop;
use std::alloc::Global;

/// How much is printed at once in most cases. The picture of a minute with more bars and labels takes more.
const TEXT: usize = 65536;

/// Prints what a log tells of an uplink, whose head was read: all minutes.
fn print_minutes<S: Source, K: Sink>(
    printing: PagePrinting,
    minute: &mut Minute,
    log: &mut Log,
    source: &mut S,
    text: &mut String,
    sink: &mut K,
) -> Result<LogSummary, LogFault>
    requires begin { log.old.taken ≡ 0 }
    requires none { entries_of minute.old.rows.items ≡ [] }
    requires source { S.has_failed source.old ≡ false }
    requires sink { K.has_failed sink.old ≡ false }
    ensures put { part.AreMinutesPutByEnd result printing.address log.old log.new
        (S.left source.old) (S.left source.new) (K.held sink.old) (K.held sink.new) }
    ensures end { OnOk result (IsAtEnd (S.left source.new)) }
    ensures well { OnOk result (S.has_failed source.new ≡ false) }
    ensures source { IfErr result (λ e. forms.HasReadFailed e (S.has_failed source.new)) }
    ensures failed { K.has_failed sink.new ≡ has_sink_failed result }
{
    let mut printer = PagePrinter {
        sink,
        printing,
        minute,
        is_refused: false,
        text,
    };
    match log_recording(source, log, &mut printer) {
        Ok(summary) => {
            printer.print_last()?;
            Ok(summary)
        }
        Err(Stop::File(fault)) => {
            printer.print_last()?;
            Err(LogFault::File(fault))
        }
        Err(Stop::Output) if printer.is_refused => Err(LogFault::Memory),
        Err(Stop::Output) => Err(LogFault::Output),
    }
}

/// Prints the page of what a log, of which no frame came, tells of a file, as far as the file can be read.
fn print_told<S: Source, K: Sink>(
    alloc: Global,
    name: &str,
    settings: &PageSettings,
    log: &mut Log,
    source: &mut S,
    sink: &mut K,
) -> Result<(), LogFault>
    requires new { log.old ≡ log_of settings.now.colour settings.now.address }
    requires source { S.has_failed source.old ≡ false }
    requires sink { K.has_failed sink.old ≡ false }
    ensures put { part.IsPagePutByEnd result settings.now (S.left source.old) (S.left source.new)
        (K.held sink.old) (K.held sink.new) }
    ensures well { OnOk result (S.has_failed source.new ≡ false) }
    ensures source { IfErr result (λ e. forms.HasReadFailed e (S.has_failed source.new)) }
    ensures failed { K.has_failed sink.new ≡ has_sink_failed result }
{
    let Ok(mut minute) = Minute::new(alloc) else {
        return Err(LogFault::Memory);
    };
    let Ok(mut text) = String::with_capacity(alloc, TEXT) else {
        return Err(LogFault::Memory);
    };
    read_uplink_head(source)?;
    print(&PageHead { name, settings }, &mut text, sink)?;
    let printing = PagePrinting {
        start: settings.start,
        address: settings.address.unwrap_or(0),
    };
    let summary = print_minutes(printing, &mut minute, log, source, &mut text, sink)?;
    let end = PageEnd {
        summary,
        has_gateway: settings.address.is_some(),
    };
    print(&end, &mut text, sink)
}

/// Prints the page of a file to a sink, as far as the file can be read.
fn print_to<S: Source, K: Sink>(
    alloc: Global,
    name: &str,
    settings: &PageSettings,
    source: &mut S,
    sink: &mut K,
) -> Result<(), LogFault>
    requires source { S.has_failed source.old ≡ false }
    requires sink { K.has_failed sink.old ≡ false }
    ensures put { part.IsPagePutByEnd result settings.now (S.left source.old) (S.left source.new)
        (K.held sink.old) (K.held sink.new) }
    ensures range { forms.IsOutOfRange settings.now.colour settings.now.address → (result ≡ Err LogFault.Range)
        × IsUntouched (S.left source.old) (S.left source.new) (K.held sink.old) (K.held sink.new) }
    ensures well { OnOk result (S.has_failed source.new ≡ false) }
    ensures source { IfErr result (λ e. forms.HasReadFailed e (S.has_failed source.new)) }
    ensures failed { K.has_failed sink.new ≡ has_sink_failed result }
{
    let mut log = new_log(alloc, settings.colour, settings.address)?;
    print_told(alloc, name, settings, &mut log, source, sink)
}

/// Prints the page of a file of this name to the first sink, as far as the file can be read, and answers the exit status. The
/// source stands before the head. Each minute is printed as soon as it is over. A fault of the file is told on the second sink, by
/// the name of the file, and so is that it is no uplink.
pub fn print_page<S: Source, K: Sink, E: Sink>(
    alloc: Global,
    name: &str,
    settings: &PageSettings,
    source: &mut S,
    out: &mut K,
    err: &mut E,
) -> u8
    requires source { S.has_failed source.old ≡ false }
    requires out { K.has_failed out.old ≡ false }
    requires err { E.has_failed err.old ≡ false }
    ensures success { result ≡ success → err.new ≡ err.old }
    // All of the file was read then, which is an uplink, and its page stands behind what the first sink held.
    ensures whole { result ≡ success → spec.IsPagePut settings.now (S.left source.old) (S.left source.new)
        (K.held out.old) (K.held out.new) }
    ensures well { result ≡ success → S.has_failed source.new ≡ false }
    // Else a fault is told, unless the page can't be printed.
    ensures fault { result ≡ failure → K.has_failed out.new ≡ false
        → TellsFault result (K.has_failed out.new) (E.has_failed err.new) (E.held err.old) (E.held err.new) }
    // Then this fault is told, the page is printed up to it, and the source has failed where that is the fault.
    ensures up_to { result ≡ failure → K.has_failed out.new ≡ false → (fault : declared.LogFault)
        × part.IsPagePutUpTo fault settings.now (S.left source.old) (S.left source.new) (K.held out.old) (K.held out.new)
        × forms.HasReadFailed fault (S.has_failed source.new)
        × (E.has_failed err.new ≡ false → forms.TellsLogFault fault (E.held err.old) (E.held err.new)) }
    // A setting that is out of its range is found before anything is read.
    ensures range { forms.IsOutOfRange settings.now.colour settings.now.address → (result ≡ failure)
        × IsUntouched (S.left source.old) (S.left source.new) (K.held out.old) (K.held out.new) }
    ensures alone { (err.new ≡ err.old)
        ⊎ TellsFault result (K.has_failed out.new) (E.has_failed err.new) (E.held err.old) (E.held err.new) }
    ensures status { result ≤ 1 }
    ensures out_failed { K.has_failed out.new ≡ true → result ≡ failure }
    ensures err_failed { E.has_failed err.new ≡ true → result ≡ failure }
{
    match print_to(alloc, name, settings, source, out) {
        Ok(()) => SUCCESS,
        Err(LogFault::Output) => FAILURE,
        Err(fault) => {
            print_log_fault(alloc, name, &fault, err);
            FAILURE
        }
    }
}
