//! The log of a file, printed.
ghost use Rattle.std.specs.Prelude.{◌≡◌, ◌≤◌, ◌<◌, ◌⊎◌, false, true, Err, IfErr, IfOk, None, OnOk};
ghost use Rattle.std.specs.Io.KnownBytes.{Consumes, IsAtEnd};
ghost use Rattle.dmr_lines.specs.Line.{PutsError};
ghost use Rattle.dmr_lines.specs.Status.{failure, success};
ghost use Rattle.dmr_log_forms.specs.Faults.{has_sink_failed};
ghost use Rattle.dmr_log_forms.specs.Part as part;
ghost use Rattle.dmr_log_forms.specs.Whole as spec;
ghost use Rattle.dmr_log_forms.specs.declared.fault.LogFault as declared;
ghost use Rattle.dmr_record.specs.Head.{head_octets, magic_of};
ghost use Rattle.dmr_record.specs.declared.head.FileFormat.TheVariants as format;
ghost use Rattle.dmr_show.specs.Showing.{IsUntouched, TellsFault};

use crate::end::{EndLine, EndObject};
use crate::fault::LogFault;
use crate::printer::{EntryPrinter, Printing, print_text};
use crate::row::head_row;
use crate::settings::{LogForm, LogSettings};
use dmr_data::BODY_LIMIT;
use dmr_gateway::Gateway;
use dmr_lines::{FAILURE, SUCCESS, ToldName, line_of, print_error};
use dmr_log::{Log, LogSummary, log_recording};
use dmr_record::{FileFormat, RecordFault, Sink, Source, put, read_any_head};
use dmr_recording::{FaultLine, Stop};
use dmr_settings::Config;
use dmr_show::print_want_of_memory;
use std::alloc::Global;

/// How many octets the longest line has at most: that of a received record, whose octets stand in digits behind the rest.
const LONGEST_LINE: usize = 2 * BODY_LIMIT + 400;

/// A fault of a head.
fn head_fault(fault: RecordFault) -> LogFault
    ensures value { result ≡ LogFault.File (record { fault = fault; octet = 0; place = None }) }
{
    LogFault::File(FaultLine {
        fault,
        octet: 0,
        place: None,
    })
}

/// The gateway that listens, if one is to. It sends nothing, so what a run sets for that means nothing here.
fn new_gateway(alloc: Global, colour: u8, address: Option<u32>) -> Result<Option<Gateway>, LogFault>
    requires colour { colour < 16 }
    ensures gateway { IfOk result (λ gateway. gateway ≡ spec.listening colour address) }
    ensures fault { IfErr result (λ e. part.IsLogNotBegun e colour address) }
    ensures range { part.IsOutOfRange colour address → result ≡ Err LogFault.Range }
{
    let Some(llid) = address else {
        return Ok(None);
    };
    if llid == 0 || llid > 16_777_215 {
        return Err(LogFault::Range);
    }
    let config = Config {
        colour,
        llid,
        call_hang: 0,
        channel_hang: 0,
        queue: 1,
    };
    match Gateway::new(alloc, config) {
        Ok(gateway) => Ok(Some(gateway)),
        Err(_) => Err(LogFault::Memory),
    }
}

/// A log of a repeater with this colour code and a gateway at this address, if one is to listen, of which no frame came. An error
/// is that one of the two is out of its range, or that there is no memory.
pub fn new_log(alloc: Global, colour: u8, address: Option<u32>) -> Result<Log, LogFault>
    ensures log { IfOk result (λ log. log ≡ spec.log_of colour address) }
    ensures fault { IfErr result (λ e. part.IsLogNotBegun e colour address) }
    ensures range { part.IsOutOfRange colour address → result ≡ Err LogFault.Range }
{
    if colour > 15 {
        return Err(LogFault::Range);
    }
    let gateway = new_gateway(alloc, colour, address)?;
    match Log::new(alloc, colour, gateway) {
        Ok(log) => Ok(log),
        Err(_) => Err(LogFault::Memory),
    }
}

/// Reads the head of an uplink. An error is a fault of the head, or that the file is one of the other three.
pub fn read_uplink_head<S: Source>(source: &mut S) -> Result<(), LogFault>
    requires source { S.has_failed source.old ≡ false }
    ensures uplink { OnOk result (Consumes (S.left source.old) (S.left source.new) (head_octets (magic_of format.Uplink))) }
    ensures well { OnOk result (S.has_failed source.new ≡ false) }
    ensures fault { IfErr result (λ e. part.IsNoUplinkHead e (S.left source.old) (S.left source.new)) }
    ensures source { IfErr result (λ e. part.HasReadFailed e (S.has_failed source.new)) }
{
    match read_any_head(source) {
        Ok(FileFormat::Uplink) => Ok(()),
        Ok(_) => Err(LogFault::NotUplink),
        Err(fault) => Err(head_fault(fault)),
    }
}

/// Prints what a log begins with: a table with the names of its columns, and anything else with nothing.
fn print_head<K: Sink>(alloc: Global, form: LogForm, sink: &mut K) -> Result<(), LogFault>
    requires sink { K.has_failed sink.old ≡ false }
    ensures head { OnOk result (spec.PutsHead form (K.held sink.old) (K.held sink.new)) }
    ensures fault { IfErr result (λ e. part.IsHeadNotPut e (K.held sink.old) (K.held sink.new)) }
    ensures failed { K.has_failed sink.new ≡ has_sink_failed result }
{
    match form {
        LogForm::Lines | LogForm::Json => Ok(()),
        LogForm::Table => {
            let Ok(row) = head_row(alloc) else {
                return Err(LogFault::Memory);
            };
            match put(sink, row.as_slice()) {
                Ok(()) => Ok(()),
                Err(_) => Err(LogFault::Output),
            }
        }
    }
}

/// Prints what a log ends with: a table with nothing, and anything else with what was counted.
fn print_end<K: Sink>(
    settings: &LogSettings,
    summary: LogSummary,
    text: &mut String,
    sink: &mut K,
) -> Result<(), LogFault>
    requires sink { K.has_failed sink.old ≡ false }
    ensures end { OnOk result (spec.PutsEnd settings.now.form (K.held sink.old) (K.held sink.new)) }
    ensures fault { IfErr result (λ e. e ≡ LogFault.Output) }
    ensures failed { K.has_failed sink.new ≡ has_sink_failed result }
{
    let has_gateway = settings.address.is_some();
    match settings.form {
        LogForm::Table => Ok(()),
        LogForm::Lines => {
            let line = EndLine {
                summary,
                has_gateway,
            };
            print_text(&line, text, sink)
        }
        LogForm::Json => {
            let object = EndObject {
                summary,
                has_gateway,
            };
            print_text(&object, text, sink)
        }
    }
}

/// Prints what a log tells of an uplink, whose head was read.
fn print_entries<S: Source, K: Sink>(
    printing: Printing,
    log: &mut Log,
    source: &mut S,
    text: &mut String,
    sink: &mut K,
) -> Result<LogSummary, LogFault>
    requires begin { log.old.taken ≡ 0 }
    requires source { S.has_failed source.old ≡ false }
    requires sink { K.has_failed sink.old ≡ false }
    ensures put { part.ArePut result printing.form printing.filter printing.address log.old log.new
        (S.left source.old) (S.left source.new) (K.held sink.old) (K.held sink.new) }
    ensures end { OnOk result (IsAtEnd (S.left source.new)) }
    ensures well { OnOk result (S.has_failed source.new ≡ false) }
    ensures source { IfErr result (λ e. part.HasReadFailed e (S.has_failed source.new)) }
    ensures failed { K.has_failed sink.new ≡ has_sink_failed result }
{
    let mut printer = EntryPrinter {
        sink,
        printing,
        is_refused: false,
        text,
    };
    match log_recording(source, log, &mut printer) {
        Ok(summary) => Ok(summary),
        Err(Stop::File(fault)) => Err(LogFault::File(fault)),
        Err(Stop::Output) if printer.is_refused => Err(LogFault::Memory),
        Err(Stop::Output) => Err(LogFault::Output),
    }
}

/// Prints what a log, of which no frame came, tells of a file, as far as the file can be read.
fn print_told<S: Source, K: Sink>(
    alloc: Global,
    settings: &LogSettings,
    log: &mut Log,
    source: &mut S,
    sink: &mut K,
) -> Result<(), LogFault>
    requires new { log.old ≡ spec.log_of settings.now.colour settings.now.address }
    requires source { S.has_failed source.old ≡ false }
    requires sink { K.has_failed sink.old ≡ false }
    ensures put { part.IsLogPutByEnd result settings.now (S.left source.old) (S.left source.new)
        (K.held sink.old) (K.held sink.new) }
    ensures well { OnOk result (S.has_failed source.new ≡ false) }
    ensures source { IfErr result (λ e. part.HasReadFailed e (S.has_failed source.new)) }
    ensures failed { K.has_failed sink.new ≡ has_sink_failed result }
{
    let Ok(mut text) = String::with_capacity(alloc, LONGEST_LINE) else {
        return Err(LogFault::Memory);
    };
    read_uplink_head(source)?;
    print_head(alloc, settings.form, sink)?;
    let printing = Printing {
        alloc,
        form: settings.form,
        start: settings.start,
        address: settings.address.unwrap_or(0),
        filter: settings.filter,
    };
    let summary = print_entries(printing, log, source, &mut text, sink)?;
    print_end(settings, summary, &mut text, sink)
}

/// Prints the log of a file to a sink, as far as the file can be read.
fn print_to<S: Source, K: Sink>(
    alloc: Global,
    settings: &LogSettings,
    source: &mut S,
    sink: &mut K,
) -> Result<(), LogFault>
    requires source { S.has_failed source.old ≡ false }
    requires sink { K.has_failed sink.old ≡ false }
    ensures put { part.IsLogPutByEnd result settings.now (S.left source.old) (S.left source.new)
        (K.held sink.old) (K.held sink.new) }
    ensures range { part.IsOutOfRange settings.now.colour settings.now.address → result ≡ Err LogFault.Range }
    ensures well { OnOk result (S.has_failed source.new ≡ false) }
    ensures source { IfErr result (λ e. part.HasReadFailed e (S.has_failed source.new)) }
    ensures failed { K.has_failed sink.new ≡ has_sink_failed result }
{
    let mut log = new_log(alloc, settings.colour, settings.address)?;
    print_told(alloc, settings, &mut log, source, sink)
}

/// Tells why the log of a file of this name wasn't printed whole, or another view of that log.
pub fn print_log_fault<E: Sink>(alloc: Global, name: &str, fault: &LogFault, err: &mut E)
    requires err { E.has_failed err.old ≡ false }
    ensures error { E.has_failed err.new ≡ false → PutsError (E.held err.old) (E.held err.new) }
    ensures told { E.has_failed err.new ≡ false → part.TellsLogFault fault.now (E.held err.old) (E.held err.new) }
{
    if let LogFault::Memory = fault {
        print_want_of_memory(err);
        return;
    }
    let name = ToldName(name);
    match format!(in alloc; "{name}: {fault}") {
        Ok(text) => {
            let _failure = print_error(err, line_of(text.as_str()), FAILURE);
        }
        Err(_) => print_want_of_memory(err),
    }
}

/// Prints the log of a file to the first sink, as far as the file can be read, and answers the exit status. The source stands
/// before the head. Each line is printed as soon as it is known. A fault of the file is told on the second sink, by the name of the
/// file, and so is that it is no uplink.
pub fn print_log<S: Source, K: Sink, E: Sink>(
    alloc: Global,
    name: &str,
    settings: &LogSettings,
    source: &mut S,
    out: &mut K,
    err: &mut E,
) -> u8
    requires source { S.has_failed source.old ≡ false }
    requires out { K.has_failed out.old ≡ false }
    requires err { E.has_failed err.old ≡ false }
    ensures success { result ≡ success → err.new ≡ err.old }
    // All of the file was read then, which is an uplink, and its log stands behind what the first sink held.
    ensures whole { result ≡ success → spec.IsLogPut settings.now (S.left source.old) (S.left source.new)
        (K.held out.old) (K.held out.new) }
    ensures well { result ≡ success → S.has_failed source.new ≡ false }
    // Else a fault is told, unless the log can't be printed.
    ensures fault { result ≡ failure → K.has_failed out.new ≡ false
        → TellsFault result (K.has_failed out.new) (E.has_failed err.new) (E.held err.old) (E.held err.new) }
    // Then this fault is told, the log is printed up to it, and the source has failed where that is the fault.
    ensures up_to { result ≡ failure → K.has_failed out.new ≡ false → (fault : declared.LogFault)
        × part.IsLogPutUpTo fault settings.now (S.left source.old) (S.left source.new) (K.held out.old) (K.held out.new)
        × part.HasReadFailed fault (S.has_failed source.new)
        × (E.has_failed err.new ≡ false → part.TellsLogFault fault (E.held err.old) (E.held err.new)) }
    // A setting that is out of its range is found before anything is read.
    ensures range { part.IsOutOfRange settings.now.colour settings.now.address → (result ≡ failure)
        × IsUntouched (S.left source.old) (S.left source.new) (K.held out.old) (K.held out.new) }
    ensures alone { (err.new ≡ err.old)
        ⊎ TellsFault result (K.has_failed out.new) (E.has_failed err.new) (E.held err.old) (E.held err.new) }
    ensures status { result ≤ 1 }
    ensures out_failed { K.has_failed out.new ≡ true → result ≡ failure }
    ensures err_failed { E.has_failed err.new ≡ true → result ≡ failure }
{
    match print_to(alloc, settings, source, out) {
        Ok(()) => SUCCESS,
        Err(LogFault::Output) => FAILURE,
        Err(fault) => {
            print_log_fault(alloc, name, &fault, err);
            FAILURE
        }
    }
}
