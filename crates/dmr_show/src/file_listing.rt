//! A listing of a whole file, head and all.
ghost use Rattle.std.specs.Prelude.{◌≡◌, ◌≤◌, true, false, None, length, IfOk, IfErr, OnOk};
ghost use Rattle.std.specs.Io.KnownBytes.{IsAtEnd};
ghost use Rattle.dmr_record.specs.Faults.{is_of_end};
ghost use Rattle.dmr_recording.specs.Endings.{IfFile};
ghost use Rattle.dmr_show.specs.Forms.{notation_of};
ghost use Rattle.dmr_show.specs.Held.{held_by};
ghost use Rattle.dmr_show.specs.Showing.{HaveFailed, IsRestShown, IsRestShownUpToFault, IsShown, format_of, has_strip};
ghost use Rattle.dmr_show.specs.declared.file_summary.FileSummary as declared;
ghost use Rattle.dmr_show.specs.declared.file_summary.FileSummary.TheVariants.{OfRecording};

use crate::file_summary::FileSummary;
use crate::form::Form;
use crate::lines::Lines;
use dmr_listing::{
    RecordingSummary, list_outgoing, list_received, list_recording, strip_recording,
};
use dmr_record::{FileFormat, RecordFault, Sink, Source, read_any_head};
use dmr_recording::{FaultLine, Recording, Stop};

/// A fault of a head.
fn head_fault(fault: RecordFault) -> FaultLine
    ensures fault { result.fault ≡ fault }
    ensures octet { result.octet ≡ 0 }
    ensures place { result.place ≡ None }
{
    FaultLine {
        fault,
        octet: 0,
        place: None,
    }
}

/// Lists what stands behind the head of a file of this format.
fn list_behind<S: Source, K: Sink>(
    source: &mut S,
    format: FileFormat,
    room: &mut [u8],
    lines: &mut Lines<'_, K>,
) -> Result<FileSummary, Stop>
    requires source { S.has_failed source.old ≡ false }
    requires lines { K.has_failed lines.old.sink.now ≡ false }
    requires room { 65535 ≤ length room.old }
    ensures whole { IfOk result (λ summary. IsRestShown Form.Listing lines.old.filter format summary 0 0
        (S.left source.old) (S.left source.new)
        (held_by (K.held lines.old.sink.now) lines.old.waiting) (held_by (K.held lines.new.sink.now) lines.new.waiting)) }
    ensures end { OnOk result (IsAtEnd (S.left source.new)) }
    ensures fault { IfErr result (λ e. IfFile e (λ fault. IsRestShownUpToFault Form.Listing lines.old.filter format fault 0
        (S.left source.old) (S.left source.new)
        (held_by (K.held lines.old.sink.now) lines.old.waiting) (held_by (K.held lines.new.sink.now) lines.new.waiting))) }
    ensures cut { IfErr result (λ e. IfFile e (λ fault. is_of_end fault.fault ≡ true → IsAtEnd (S.left source.new))) }
    ensures failed { HaveFailed result (S.has_failed source.new) (K.has_failed lines.new.sink.now) }
    ensures same_sink { lines.new.sink.ghost_name ≡ lines.old.sink.ghost_name }
{
    match format {
        FileFormat::Uplink => match list_recording(source, Recording::Uplink, lines) {
            Ok(summary) => Ok(FileSummary::OfRecording(summary)),
            Err(end) => Err(end),
        },
        FileFormat::Downlink => match list_recording(source, Recording::Downlink, lines) {
            Ok(summary) => Ok(FileSummary::OfRecording(summary)),
            Err(end) => Err(end),
        },
        FileFormat::Outgoing => match list_outgoing(source, lines) {
            Ok(count) => Ok(FileSummary::OfList(count)),
            Err(end) => Err(end),
        },
        FileFormat::Received => match list_received(source, room, lines) {
            Ok(count) => Ok(FileSummary::OfList(count)),
            Err(end) => Err(end),
        },
    }
}

/// How a file that has no fault was shown.
#[derive(Clone, Copy, Drop)]
pub(crate) enum Shown {
    /// To its end.
    Whole,
    /// Not at all, since it is a list, which has no strip.
    NoStrip,
}

/// Lists what stands behind the head of a file of this format, between a line for the file and one with what all of it holds.
fn list_rest<S: Source, K: Sink>(
    source: &mut S,
    format: FileFormat,
    room: &mut [u8],
    lines: &mut Lines<'_, K>,
) -> Result<Shown, Stop>
    requires source { S.has_failed source.old ≡ false }
    requires lines { K.has_failed lines.old.sink.now ≡ false }
    requires room { 65535 ≤ length room.old }
    ensures whole { OnOk result ((summary : declared.FileSummary) × IsRestShown Form.Listing lines.old.filter format summary 1 1
        (S.left source.old) (S.left source.new)
        (held_by (K.held lines.old.sink.now) lines.old.waiting) (held_by (K.held lines.new.sink.now) lines.new.waiting)) }
    ensures shown { IfOk result (λ shown. shown ≡ Shown.Whole) }
    ensures end { OnOk result (IsAtEnd (S.left source.new)) }
    ensures fault { IfErr result (λ e. IfFile e (λ fault. IsRestShownUpToFault Form.Listing lines.old.filter format fault 1
        (S.left source.old) (S.left source.new)
        (held_by (K.held lines.old.sink.now) lines.old.waiting) (held_by (K.held lines.new.sink.now) lines.new.waiting))) }
    ensures cut { IfErr result (λ e. IfFile e (λ fault. is_of_end fault.fault ≡ true → IsAtEnd (S.left source.new))) }
    ensures failed { HaveFailed result (S.has_failed source.new) (K.has_failed lines.new.sink.now) }
    ensures same_sink { lines.new.sink.ghost_name ≡ lines.old.sink.ghost_name }
{
    if lines.begin(format).is_err() {
        return Err(Stop::Output);
    }
    let summary = list_behind(source, format, room, lines)?;
    match lines.end(&summary) {
        Ok(()) => Ok(Shown::Whole),
        Err(_) => Err(Stop::Output),
    }
}

/// Prints the strip of what stands behind the head of a recording, whose frames the filter of the lines tells.
fn strip_behind<S: Source, K: Sink>(
    source: &mut S,
    recording: Recording,
    lines: &mut Lines<'_, K>,
) -> Result<RecordingSummary, Stop>
    requires source { S.has_failed source.old ≡ false }
    requires lines { K.has_failed lines.old.sink.now ≡ false }
    ensures whole { IfOk result (λ summary. IsRestShown Form.Strip lines.old.filter (format_of recording) (OfRecording summary) 0 0
        (S.left source.old) (S.left source.new)
        (held_by (K.held lines.old.sink.now) lines.old.waiting) (held_by (K.held lines.new.sink.now) lines.new.waiting)) }
    ensures end { OnOk result (IsAtEnd (S.left source.new)) }
    ensures fault { IfErr result (λ e. IfFile e (λ fault. IsRestShownUpToFault
        Form.Strip lines.old.filter (format_of recording) fault 0
        (S.left source.old) (S.left source.new)
        (held_by (K.held lines.old.sink.now) lines.old.waiting) (held_by (K.held lines.new.sink.now) lines.new.waiting))) }
    ensures cut { IfErr result (λ e. IfFile e (λ fault. is_of_end fault.fault ≡ true → IsAtEnd (S.left source.new))) }
    ensures failed { HaveFailed result (S.has_failed source.new) (K.has_failed lines.new.sink.now) }
    ensures same_sink { lines.new.sink.ghost_name ≡ lines.old.sink.ghost_name }
{
    let frames = lines.frames();
    strip_recording(source, recording, frames, lines)
}

/// Prints the strip of what stands behind the head of a file of this format, where such a file has one.
fn strip_rest<S: Source, K: Sink>(
    source: &mut S,
    format: FileFormat,
    lines: &mut Lines<'_, K>,
) -> Result<Shown, Stop>
    requires source { S.has_failed source.old ≡ false }
    requires lines { K.has_failed lines.old.sink.now ≡ false }
    ensures whole { IfOk result (λ shown. shown ≡ Shown.Whole
        → (summary : declared.FileSummary) × IsRestShown Form.Strip lines.old.filter format summary 0 0
        (S.left source.old) (S.left source.new)
        (held_by (K.held lines.old.sink.now) lines.old.waiting) (held_by (K.held lines.new.sink.now) lines.new.waiting)) }
    ensures shown { IfOk result (λ shown. shown ≡ Shown.Whole → has_strip format ≡ true) }
    ensures none { IfOk result (λ shown. shown ≡ Shown.NoStrip → has_strip format ≡ false) }
    ensures untouched { IfOk result (λ shown. shown ≡ Shown.NoStrip → lines.new ≡ lines.old) }
    ensures end { IfOk result (λ shown. shown ≡ Shown.Whole → IsAtEnd (S.left source.new)) }
    ensures fault { IfErr result (λ e. IfFile e (λ fault. IsRestShownUpToFault Form.Strip lines.old.filter format fault 0
        (S.left source.old) (S.left source.new)
        (held_by (K.held lines.old.sink.now) lines.old.waiting) (held_by (K.held lines.new.sink.now) lines.new.waiting))) }
    ensures cut { IfErr result (λ e. IfFile e (λ fault. is_of_end fault.fault ≡ true → IsAtEnd (S.left source.new))) }
    ensures failed { HaveFailed result (S.has_failed source.new) (K.has_failed lines.new.sink.now) }
    ensures same_sink { lines.new.sink.ghost_name ≡ lines.old.sink.ghost_name }
{
    match format {
        FileFormat::Uplink => match strip_behind(source, Recording::Uplink, lines) {
            Ok(_) => Ok(Shown::Whole),
            Err(end) => Err(end),
        },
        FileFormat::Downlink => match strip_behind(source, Recording::Downlink, lines) {
            Ok(_) => Ok(Shown::Whole),
            Err(end) => Err(end),
        },
        FileFormat::Outgoing | FileFormat::Received => Ok(Shown::NoStrip),
    }
}

/// Shows a file in this form, by the format that its head tells. `room` takes the octets of a received record, and may hold
/// anything.
fn show_file<S: Source, K: Sink>(
    form: Form,
    source: &mut S,
    room: &mut [u8],
    lines: &mut Lines<'_, K>,
) -> Result<Shown, Stop>
    requires source { S.has_failed source.old ≡ false }
    requires lines { K.has_failed lines.old.sink.now ≡ false }
    requires notation { lines.old.notation ≡ notation_of form }
    requires room { 65535 ≤ length room.old }
    // All of it, with the strip of a recording; no strip of a list; or what stands before a fault.
    ensures shown { IsShown form lines.old.filter result (S.left source.old) (S.left source.new)
        (held_by (K.held lines.old.sink.now) lines.old.waiting) (held_by (K.held lines.new.sink.now) lines.new.waiting) }
    ensures cut { IfErr result (λ e. IfFile e (λ fault. is_of_end fault.fault ≡ true → IsAtEnd (S.left source.new))) }
    ensures failed { HaveFailed result (S.has_failed source.new) (K.has_failed lines.new.sink.now) }
    ensures same_sink { lines.new.sink.ghost_name ≡ lines.old.sink.ghost_name }
{
    let format = match read_any_head(source) {
        Ok(format) => format,
        Err(fault) => return Err(Stop::File(head_fault(fault))),
    };
    match form {
        Form::Listing | Form::Json => list_rest(source, format, room, lines),
        Form::Strip => strip_rest(source, format, lines),
    }
}

/// Shows a file in this form, and writes all that waits, whether the file is at fault or not, but to no sink that has failed.
pub(crate) fn show_all<S: Source, K: Sink>(
    form: Form,
    source: &mut S,
    room: &mut [u8],
    lines: &mut Lines<'_, K>,
) -> Result<Shown, Stop>
    requires source { S.has_failed source.old ≡ false }
    requires lines { K.has_failed lines.old.sink.now ≡ false }
    requires notation { lines.old.notation ≡ notation_of form }
    requires room { 65535 ≤ length room.old }
    ensures shown { IsShown form lines.old.filter result (S.left source.old) (S.left source.new)
        (held_by (K.held lines.old.sink.now) lines.old.waiting) (K.held lines.new.sink.now) }
    ensures cut { IfErr result (λ e. IfFile e (λ fault. is_of_end fault.fault ≡ true → IsAtEnd (S.left source.new))) }
    ensures failed { HaveFailed result (S.has_failed source.new) (K.has_failed lines.new.sink.now) }
    ensures same_sink { lines.new.sink.ghost_name ≡ lines.old.sink.ghost_name }
{
    let shown = show_file(form, source, room, lines);
    match shown {
        // A sink that has failed isn't used again.
        Err(Stop::Output) => Err(Stop::Output),
        Ok(_) | Err(Stop::File(_)) => match lines.flush() {
            Ok(()) => shown,
            Err(_) => Err(Stop::Output),
        },
    }
}
