//! The file of a whole text, head and all.
ghost use Rattle.std.specs.Prelude.{◌≡◌, ℕ, true, false, length, IfOk, IfErr, OnOk};
ghost use Rattle.std.specs.Io.KnownBytes.{IsAtEnd};
ghost use Rattle.dmr_words.specs.Lines.{TextState, fresh_text};
ghost use Rattle.dmr_text.specs.Exports.{IsNotBegun};
ghost use Rattle.dmr_text.specs.Files.{File, carried_of, file_format};
ghost use Rattle.dmr_text.specs.Halts.{IfNotGiven, IfText};
ghost use Rattle.dmr_text.specs.ImportEndings.{IfFileOutput, IfNoMemory, IfTextAtFault};
ghost use Rattle.dmr_text.specs.Imports.{IsFaultBehind, IsFileTorn, IsImported, IsImportedBehind, IsTextFault, IsTornBehindFirst};
ghost use Rattle.dmr_text.specs.Telling.{IsStopped, IsTakenWhole, IsTornIn};
ghost use Rattle.dmr_text.specs.TextFaults.{is_read};

use crate::carried::Carried;
use crate::fault::{Halt, LineFault, TextFault};
use crate::first::{first_said, magic};
use crate::import_outgoing::import_sendings;
use crate::import_received::import_receipts;
use crate::import_recording::import_slots;
use crate::telling::{tell_end, tell_line};
use dmr_record::{FileFormat, OCTET_LIMIT, Sink, Source, write_head};
use dmr_recording::Recording;
use dmr_words::Lines;
use std::alloc::Global;

/// Why a file wasn't written to its end.
#[derive(Clone, Copy, Drop, PartialEq, Eq)]
pub enum ImportEnd {
    /// The text is at fault. The records of the lines before that were written, and behind the first line the head of the file.
    Text(LineFault),
    /// The file could not be written.
    Output,
    /// There was no memory for the octets of a record. Nothing was read, and nothing written.
    Memory,
}

/// Writes the records that the lines of a text of this format say, to the last line, and answers how much that is.
fn import_records<S: Source, K: Sink>(
    source: &mut S,
    lines: &mut Lines,
    format: FileFormat,
    room: &mut [u8],
    sink: &mut K,
) -> Result<Carried, Halt>
    requires source { S.has_failed source.old ≡ false }
    requires over { lines.old.is_over ≡ true → IsAtEnd (S.left source.old) }
    requires sink { K.has_failed sink.old ≡ false }
    requires room { length room.old ≡ 65535 }
    ensures all { IfOk result (λ carried. (file : File) × (file_format file ≡ format) × (carried ≡ carried_of file)
        × IsTakenWhole file lines.old lines.new (S.left source.old) (S.left source.new) (K.held sink.old) (K.held sink.new)) }
    ensures over { OnOk result (lines.new.is_over ≡ true → IsAtEnd (S.left source.new)) }
    ensures source { OnOk result (S.has_failed source.new ≡ false) }
    ensures sink { OnOk result (K.has_failed sink.new ≡ false) }
    ensures fault { IfErr result (λ e. IfText e (λ fault. (file : File) × (file_format file ≡ format)
        × IsStopped TextFault.NoLastLine file fault lines.old
        (S.left source.old) (S.left source.new) (K.held sink.old) (K.held sink.new))) }
    ensures read { IfErr result (λ e. IfText e (λ fault. S.has_failed source.new ≡ is_read fault.fault)) }
    ensures others { IfErr result (λ e. IfText e (λ fault. K.has_failed sink.new ≡ false)) }
    ensures torn { IfErr result (λ e. IfNotGiven e ((file : File) × (file_format file ≡ format) × IsTornIn file lines.old lines.new
        (S.left source.old) (S.left source.new) (K.held sink.old) (K.held sink.new))) }
    ensures failed { IfErr result (λ e. IfNotGiven e (K.has_failed sink.new ≡ true)) }
{
    match format {
        FileFormat::Uplink => match import_slots(source, lines, Recording::Uplink, sink) {
            Ok(frames) => Ok(Carried::Recording { frames }),
            Err(halt) => Err(halt),
        },
        FileFormat::Downlink => match import_slots(source, lines, Recording::Downlink, sink) {
            Ok(frames) => Ok(Carried::Recording { frames }),
            Err(halt) => Err(halt),
        },
        FileFormat::Outgoing => match import_sendings(source, lines, room, sink) {
            Ok(records) => Ok(Carried::List { records }),
            Err(halt) => Err(halt),
        },
        FileFormat::Received => match import_receipts(source, lines, room, sink) {
            Ok(records) => Ok(Carried::List { records }),
            Err(halt) => Err(halt),
        },
    }
}

/// The same, and reads on to the end of the text.
fn import_behind<S: Source, K: Sink>(
    source: &mut S,
    lines: &mut Lines,
    format: FileFormat,
    room: &mut [u8],
    sink: &mut K,
) -> Result<Carried, Halt>
    requires source { S.has_failed source.old ≡ false }
    requires over { lines.old.is_over ≡ true → IsAtEnd (S.left source.old) }
    requires sink { K.has_failed sink.old ≡ false }
    requires room { length room.old ≡ 65535 }
    ensures all { IfOk result (λ carried. IsImportedBehind format carried lines.old lines.new
        (S.left source.old) (S.left source.new) (K.held sink.old) (K.held sink.new)) }
    ensures end { OnOk result (IsAtEnd (S.left source.new)) }
    ensures source { OnOk result (S.has_failed source.new ≡ false) }
    ensures sink { OnOk result (K.has_failed sink.new ≡ false) }
    ensures fault { IfErr result (λ e. IfText e (λ fault. IsFaultBehind format fault lines.old
        (S.left source.old) (S.left source.new) (K.held sink.old) (K.held sink.new))) }
    ensures read { IfErr result (λ e. IfText e (λ fault. S.has_failed source.new ≡ is_read fault.fault)) }
    ensures others { IfErr result (λ e. IfText e (λ fault. K.has_failed sink.new ≡ false)) }
    ensures torn { IfErr result (λ e. IfNotGiven e (IsTornBehindFirst format lines.old lines.new
        (S.left source.old) (S.left source.new) (K.held sink.old) (K.held sink.new))) }
    ensures failed { IfErr result (λ e. IfNotGiven e (K.has_failed sink.new ≡ true)) }
{
    let carried = match import_records(source, lines, format, room, sink) {
        Ok(carried) => carried,
        Err(halt) => return Err(halt),
    };
    match tell_end(lines, source) {
        Ok(()) => Ok(carried),
        Err(fault) => Err(Halt::Text(fault)),
    }
}

/// Writes the file of a text, of any of the four formats. Nothing of the text was read.
fn import_file<S: Source, K: Sink>(
    source: &mut S,
    lines: &mut Lines,
    room: &mut [u8],
    sink: &mut K,
) -> Result<Carried, Halt>
    requires source { S.has_failed source.old ≡ false }
    requires sink { K.has_failed sink.old ≡ false }
    requires lines { lines.old ≡ fresh_text }
    requires room { length room.old ≡ 65535 }
    ensures all { IfOk result (λ carried. IsImported carried
        (S.left source.old) (S.left source.new) (K.held sink.old) (K.held sink.new)) }
    ensures source { OnOk result (S.has_failed source.new ≡ false) }
    ensures sink { OnOk result (K.has_failed sink.new ≡ false) }
    ensures fault { IfErr result (λ e. IfText e (λ fault. IsTextFault fault
        (S.left source.old) (S.left source.new) (K.held sink.old) (K.held sink.new))) }
    ensures read { IfErr result (λ e. IfText e (λ fault. S.has_failed source.new ≡ is_read fault.fault)) }
    ensures others { IfErr result (λ e. IfText e (λ fault. K.has_failed sink.new ≡ false)) }
    ensures torn { IfErr result (λ e. IfNotGiven e (IsFileTorn
        (S.left source.old) (S.left source.new) (K.held sink.old) (K.held sink.new))) }
    ensures failed { IfErr result (λ e. IfNotGiven e (K.has_failed sink.new ≡ true)) }
{
    if let Err(fault) = tell_line(lines, source, TextFault::NoFirstLine) {
        return Err(Halt::Text(fault));
    }
    let Some(format) = first_said(lines.line()) else {
        return Err(Halt::Text(LineFault {
            line: lines.number(),
            fault: TextFault::NoFirstLine,
        }));
    };
    if write_head(sink, magic(format)).is_err() {
        return Err(Halt::Output);
    }
    import_behind(source, lines, format, room, sink)
}

/// Writes the file that a text says, of any of the four formats, as far as the text can be read, and answers how much the file
/// holds. Nothing of the text was read. Each record is written as soon as its line was read. The format is this project's own.
pub fn import_text<S: Source, K: Sink>(
    alloc: Global,
    source: &mut S,
    sink: &mut K,
) -> Result<Carried, ImportEnd>
    requires source { S.has_failed source.old ≡ false }
    requires sink { K.has_failed sink.old ≡ false }
    // The whole text was read, its lines say a file, and that was written.
    ensures whole { IfOk result (λ carried. IsImported carried
        (S.left source.old) (S.left source.new) (K.held sink.old) (K.held sink.new)) }
    // Or it is at fault, and the head and the records of the lines before that were written.
    ensures fault { IfErr result (λ e. IfTextAtFault e (λ fault. IsTextFault fault
        (S.left source.old) (S.left source.new) (K.held sink.old) (K.held sink.new))) }
    // Or a front of what was said was.
    ensures torn { IfErr result (λ e. IfFileOutput e (IsFileTorn
        (S.left source.old) (S.left source.new) (K.held sink.old) (K.held sink.new))) }
    ensures memory { IfErr result (λ e. IfNoMemory e (IsNotBegun source.old source.new sink.old sink.new)) }
    // `Read` is told exactly where the source failed, and `Output` where the sink did.
    ensures source { IfErr result (λ e. IfTextAtFault e (λ fault. S.has_failed source.new ≡ is_read fault.fault)) }
    ensures sink { IfErr result (λ e. IfFileOutput e (K.has_failed sink.new ≡ true)) }
    ensures others { IfErr result (λ e. IfTextAtFault e (λ fault. K.has_failed sink.new ≡ false)) }
    ensures well { OnOk result (K.has_failed sink.new ≡ false) }
    ensures read { OnOk result (S.has_failed source.new ≡ false) }
{
    let Ok(mut room) = vec![in alloc; 0u8; OCTET_LIMIT] else {
        return Err(ImportEnd::Memory);
    };
    let mut lines = Lines::new();
    match import_file(source, &mut lines, room.as_mut_slice(), sink) {
        Ok(carried) => Ok(carried),
        Err(Halt::Text(fault)) => Err(ImportEnd::Text(fault)),
        Err(Halt::Output) => Err(ImportEnd::Output),
    }
}
