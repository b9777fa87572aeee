//! The text of a whole file, head and all.
ghost use Rattle.std.specs.Prelude.{◌≡◌, ◌≤◌, true, false, length, IfOk, IfErr, OnOk};
ghost use Rattle.std.specs.Io.KnownBytes.{IsAtEnd};
ghost use Rattle.dmr_record.specs.Faults.{is_of_end, is_device_fault};
ghost use Rattle.dmr_recording.specs.Endings.{IfFile, IfNotWritten};
ghost use Rattle.dmr_text.specs.Behind.{AreLinesTorn, AreLinesWritten, AreLinesWrittenUpToFault};
ghost use Rattle.dmr_text.specs.Endings.{IfAtFault, IfUnwritten, IfMemory};
ghost use Rattle.dmr_text.specs.Exports.{IsExportFault, IsExported, IsTextTorn, IsNotBegun};
ghost use Rattle.dmr_text.specs.Exports.{IsExportedBehind, IsExportedBehindUpToFault, IsTextTornBehind};
ghost use Rattle.dmr_text.specs.Files.{File, HasWholeFrames, carried_of, file_format};

use crate::carried::Carried;
use crate::line::Line;
use crate::lines::{make_last, make_title};
use crate::outgoing::export_sendings;
use crate::received::export_receipts;
use crate::recording::export_slots;
use dmr_record::{FileFormat, OCTET_LIMIT, Sink, Source, put, read_any_head};
use dmr_recording::{FaultLine, Recording, Stop};
use std::alloc::Global;

/// Why the text of a file wasn't written to its end.
#[derive(Clone, Copy, Drop, PartialEq, Eq)]
pub enum ExportEnd {
    /// The file is at fault. The text of what stands before that was written.
    File(FaultLine),
    /// The text could not be written.
    Output,
    /// There was no memory for the octets of a record. Nothing was read, and nothing written.
    Memory,
}

/// Writes the lines of the records of a file of this format, and answers how much it holds.
fn export_records<S: Source, K: Sink>(
    source: &mut S,
    format: FileFormat,
    room: &mut [u8],
    line: &mut Line,
    sink: &mut K,
) -> Result<Carried, Stop>
    requires source { S.has_failed source.old ≡ false }
    requires sink { K.has_failed sink.old ≡ false }
    requires room { 65535 ≤ length room.old }
    ensures all { IfOk result (λ carried. (file : File) × (file_format file ≡ format) × HasWholeFrames file
        × AreLinesWritten file (S.left source.old) (S.left source.new) (K.held sink.old) (K.held sink.new)
        × (carried ≡ carried_of file)) }
    ensures end { OnOk result (IsAtEnd (S.left source.new)) }
    ensures fault { IfErr result (λ e. IfFile e (λ fault. (file : File) × (file_format file ≡ format)
        × AreLinesWrittenUpToFault file fault (S.left source.old) (S.left source.new) (K.held sink.old) (K.held sink.new))) }
    ensures cut { IfErr result (λ e. IfFile e (λ fault. is_of_end fault.fault ≡ true → IsAtEnd (S.left source.new))) }
    ensures output { IfErr result (λ e. IfNotWritten e ((file : File) × (file_format file ≡ format)
        × AreLinesTorn file (S.left source.old) (S.left source.new) (K.held sink.old) (K.held sink.new))) }
    ensures source { IfErr result (λ e. IfFile e (λ fault. S.has_failed source.new ≡ is_device_fault fault.fault)) }
    ensures sink { IfErr result (λ e. IfNotWritten e (K.has_failed sink.new ≡ true)) }
    ensures others { IfErr result (λ e. IfFile e (λ fault. K.has_failed sink.new ≡ false)) }
    ensures well { OnOk result (K.has_failed sink.new ≡ false) }
{
    match format {
        FileFormat::Uplink => match export_slots(source, Recording::Uplink, line, sink) {
            Ok(frames) => Ok(Carried::Recording { frames }),
            Err(stop) => Err(stop),
        },
        FileFormat::Downlink => match export_slots(source, Recording::Downlink, line, sink) {
            Ok(frames) => Ok(Carried::Recording { frames }),
            Err(stop) => Err(stop),
        },
        FileFormat::Outgoing => match export_sendings(source, room, line, sink) {
            Ok(records) => Ok(Carried::List { records }),
            Err(stop) => Err(stop),
        },
        FileFormat::Received => match export_receipts(source, room, line, sink) {
            Ok(records) => Ok(Carried::List { records }),
            Err(stop) => Err(stop),
        },
    }
}

/// Writes the text of a file of this format, whose head was read.
fn export_behind<S: Source, K: Sink>(
    source: &mut S,
    format: FileFormat,
    room: &mut [u8],
    line: &mut Line,
    sink: &mut K,
) -> Result<Carried, Stop>
    requires source { S.has_failed source.old ≡ false }
    requires sink { K.has_failed sink.old ≡ false }
    requires room { 65535 ≤ length room.old }
    ensures all { IfOk result (λ carried. IsExportedBehind format carried
        (S.left source.old) (S.left source.new) (K.held sink.old) (K.held sink.new)) }
    ensures end { OnOk result (IsAtEnd (S.left source.new)) }
    ensures fault { IfErr result (λ e. IfFile e (λ fault. IsExportedBehindUpToFault format fault
        (S.left source.old) (S.left source.new) (K.held sink.old) (K.held sink.new))) }
    ensures cut { IfErr result (λ e. IfFile e (λ fault. is_of_end fault.fault ≡ true → IsAtEnd (S.left source.new))) }
    ensures output { IfErr result (λ e. IfNotWritten e (IsTextTornBehind format
        (S.left source.old) (S.left source.new) (K.held sink.old) (K.held sink.new))) }
    ensures source { IfErr result (λ e. IfFile e (λ fault. S.has_failed source.new ≡ is_device_fault fault.fault)) }
    ensures sink { IfErr result (λ e. IfNotWritten e (K.has_failed sink.new ≡ true)) }
    ensures others { IfErr result (λ e. IfFile e (λ fault. K.has_failed sink.new ≡ false)) }
    ensures well { OnOk result (K.has_failed sink.new ≡ false) }
{
    make_title(line, format);
    if put(sink, line.as_slice()).is_err() {
        return Err(Stop::Output);
    }
    let carried = match export_records(source, format, room, line, sink) {
        Ok(carried) => carried,
        Err(stop) => return Err(stop),
    };
    make_last(line, carried);
    if put(sink, line.as_slice()).is_err() {
        return Err(Stop::Output);
    }
    Ok(carried)
}

/// Writes the text of a file of any of the four formats.
fn export_file<S: Source, K: Sink>(
    source: &mut S,
    room: &mut [u8],
    line: &mut Line,
    sink: &mut K,
) -> Result<Carried, Stop>
    requires source { S.has_failed source.old ≡ false }
    requires sink { K.has_failed sink.old ≡ false }
    requires room { 65535 ≤ length room.old }
    ensures whole { IfOk result (λ carried. IsExported carried
        (S.left source.old) (S.left source.new) (K.held sink.old) (K.held sink.new)) }
    ensures fault { IfErr result (λ e. IfFile e (λ fault. IsExportFault fault
        (S.left source.old) (S.left source.new) (K.held sink.old) (K.held sink.new))) }
    ensures cut { IfErr result (λ e. IfFile e (λ fault. is_of_end fault.fault ≡ true → IsAtEnd (S.left source.new))) }
    ensures torn { IfErr result (λ e. IfNotWritten e (IsTextTorn
        (S.left source.old) (S.left source.new) (K.held sink.old) (K.held sink.new))) }
    ensures source { IfErr result (λ e. IfFile e (λ fault. S.has_failed source.new ≡ is_device_fault fault.fault)) }
    ensures sink { IfErr result (λ e. IfNotWritten e (K.has_failed sink.new ≡ true)) }
    ensures others { IfErr result (λ e. IfFile e (λ fault. K.has_failed sink.new ≡ false)) }
    ensures well { OnOk result (K.has_failed sink.new ≡ false) }
{
    let format = match read_any_head(source) {
        Ok(format) => format,
        Err(fault) => {
            return Err(Stop::File(FaultLine {
                fault,
                octet: 0,
                place: None,
            }));
        }
    };
    export_behind(source, format, room, line, sink)
}

/// Writes the text of a file of any of the four formats, as far as the file can be read, and answers how much it holds. The source
/// stands before the head. Each line is written as soon as its record was read. The format is this project's own.
pub fn export_text<S: Source, K: Sink>(
    alloc: Global,
    source: &mut S,
    sink: &mut K,
) -> Result<Carried, ExportEnd>
    requires source { S.has_failed source.old ≡ false }
    requires sink { K.has_failed sink.old ≡ false }
    // A file of one of the formats was read whole, head and all, and its text was written.
    ensures whole { IfOk result (λ carried. IsExported carried
        (S.left source.old) (S.left source.new) (K.held sink.old) (K.held sink.new)) }
    // Or it is at fault, and the text of what stands before that was written.
    ensures fault { IfErr result (λ e. IfAtFault e (λ fault. IsExportFault fault
        (S.left source.old) (S.left source.new) (K.held sink.old) (K.held sink.new))) }
    ensures cut { IfErr result (λ e. IfAtFault e (λ fault. is_of_end fault.fault ≡ true → IsAtEnd (S.left source.new))) }
    // Or a front of the text of what was read was.
    ensures torn { IfErr result (λ e. IfUnwritten e (IsTextTorn
        (S.left source.old) (S.left source.new) (K.held sink.old) (K.held sink.new))) }
    ensures memory { IfErr result (λ e. IfMemory e (IsNotBegun source.old source.new sink.old sink.new)) }
    // `Read` is told exactly where the source failed, and `Output` where the sink did.
    ensures source { IfErr result (λ e. IfAtFault e (λ fault. S.has_failed source.new ≡ is_device_fault fault.fault)) }
    ensures sink { IfErr result (λ e. IfUnwritten e (K.has_failed sink.new ≡ true)) }
    ensures others { IfErr result (λ e. IfAtFault e (λ fault. K.has_failed sink.new ≡ false)) }
    ensures well { OnOk result (K.has_failed sink.new ≡ false) }
{
    let Ok(mut room) = vec![in alloc; 0u8; OCTET_LIMIT] else {
        return Err(ExportEnd::Memory);
    };
    let mut line = Line::new();
    match export_file(source, room.as_mut_slice(), &mut line, sink) {
        Ok(carried) => Ok(carried),
        Err(Stop::File(fault)) => Err(ExportEnd::File(fault)),
        Err(Stop::Output) => Err(ExportEnd::Output),
    }
}
