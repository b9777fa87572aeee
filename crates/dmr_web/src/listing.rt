//! What stands behind the head of a file, listed to a window.
ghost use Rattle.std.specs.Prelude.{◌≡◌, ◌≤◌, false, length, IfErr, IfOk, None, OnErr, OnOk};
ghost use Rattle.std.specs.Io.KnownBytes.{IsAtEnd};
ghost use Rattle.dmr_recording.specs.Endings.{IfFile, IfNotWritten};
ghost use Rattle.dmr_lines.specs.Line.{PutsLine};
ghost use Rattle.dmr_show.specs.Showing.{IsHeadFault};
ghost use Rattle.dmr_web.specs.Pictures.{IsPicturedToEnd, IsPicturedToFault};
ghost use Rattle.dmr_web.specs.Windows.{IsHeadRead, IsListedInPart, IsListedToEnd, IsListedToFault, front_held};

use crate::window::{TextWindow, WrittenAs};
use dmr_json::{FileObject, ListEnd, RecordingEnd};
use dmr_listing::{
    Frames, RecordingSummary, list_outgoing, list_received, list_recording, strip_recording,
};
use dmr_record::{DeviceFault, FileFormat, RecordFault, Source, read_any_head};
use dmr_recording::{FaultLine, Recording, Stop};
use std::fmt;

/// What was listed, all in all.
#[derive(Clone, Copy, Drop)]
enum LastLine {
    /// The frames and bursts of a recording.
    OfRecording(RecordingSummary),
    /// How many records a list has.
    OfList(u32),
}

impl fmt::Display for LastLine {
    fn fmt<W: fmt::Write>(&self, f: &mut fmt::Formatter<W>) -> fmt::Result {
        match self {
            LastLine::OfRecording(summary) => write!(f, "{summary}"),
            LastLine::OfList(count) => write!(f, "records {count}"),
        }
    }
}

/// What a listing begins with.
fn head_of(format: FileFormat) -> &'static str {
    match format {
        FileFormat::Uplink => "uplink recording, version 1",
        FileFormat::Downlink => "downlink recording, version 1",
        FileFormat::Outgoing => "outgoing list, version 1",
        FileFormat::Received => "received list, version 1",
    }
}

/// Prints the line of a file of this format.
fn print_format(window: &mut TextWindow<'_>, format: FileFormat) -> Result<(), DeviceFault>
    requires well { window.old.is_full ≡ false }
    ensures line { OnOk result (PutsLine (front_held window.old.text.now window.old.length)
        (front_held window.new.text.now window.new.length)) }
    ensures same_text { window.new.text.ghost_name ≡ window.old.text.ghost_name }
{
    match window.notation {
        WrittenAs::Text => window.print(&head_of(format)),
        WrittenAs::Json => window.print(&FileObject { format }),
    }
}

/// A fault of a head.
fn head_fault(fault: RecordFault) -> FaultLine
    ensures value { result ≡ record { fault = fault; octet = 0; place = None } }
{
    FaultLine {
        fault,
        octet: 0,
        place: None,
    }
}

/// Reads the head of a file, and prints the line of the file, or of the fault.
pub(crate) fn print_head<S: Source>(
    source: &mut S,
    window: &mut TextWindow<'_>,
) -> Result<FileFormat, Stop>
    requires source { S.has_failed source.old ≡ false }
    requires well { window.old.is_full ≡ false }
    ensures head { IfOk result (λ format. IsHeadRead format (S.left source.old) (S.left source.new)) }
    ensures line { OnOk result (PutsLine (front_held window.old.text.now window.old.length)
        (front_held window.new.text.now window.new.length)) }
    ensures fault { IfErr result (λ e. IfFile e (λ fault. IsHeadFault fault (S.left source.old) (S.left source.new))) }
    ensures fault_line { IfErr result (λ e. IfFile e (λ fault. PutsLine (front_held window.old.text.now window.old.length)
        (front_held window.new.text.now window.new.length))) }
    ensures same_text { window.new.text.ghost_name ≡ window.old.text.ghost_name }
{
    match read_any_head(source) {
        Ok(format) => match print_format(window, format) {
            Ok(()) => Ok(format),
            Err(_) => Err(Stop::Output),
        },
        Err(fault) => {
            let fault = head_fault(fault);
            match window.print(&fault) {
                Ok(()) => Err(Stop::File(fault)),
                Err(_) => Err(Stop::Output),
            }
        }
    }
}

/// Lists what stands behind the head of a file of this format. `room` takes the octets of a received record, and may hold anything.
fn list_entries<S: Source>(
    source: &mut S,
    format: FileFormat,
    room: &mut [u8],
    window: &mut TextWindow<'_>,
) -> Result<LastLine, Stop>
    requires source { S.has_failed source.old ≡ false }
    requires well { window.old.is_full ≡ false }
    requires begun { window.old.taken ≡ 0 }
    requires room { 65535 ≤ length room.old }
    ensures whole { OnOk result (IsListedToEnd format
        window.old.notation window.old.frame window.old.left_out window.new.taken 0
        (S.left source.old) (S.left source.new) (front_held window.old.text.now window.old.length)
        (front_held window.new.text.now window.new.length)) }
    ensures end { OnOk result (IsAtEnd (S.left source.new)) }
    ensures fault { IfErr result (λ e. IfFile e (λ fault. IsListedToFault format
        window.old.notation window.old.frame window.old.left_out window.new.taken 0 fault
        (S.left source.old) (S.left source.new) (front_held window.old.text.now window.old.length)
        (front_held window.new.text.now window.new.length))) }
    ensures part { IfErr result (λ e. IfNotWritten e (IsListedInPart format
        window.old.notation window.old.frame window.old.left_out window.new.taken
        (S.left source.old) (S.left source.new) (front_held window.old.text.now window.old.length)
        (front_held window.new.text.now window.new.length))) }
    ensures well { OnOk result (window.new.is_full ≡ false) }
    ensures well_at_fault { IfErr result (λ e. IfFile e (λ fault. window.new.is_full ≡ false)) }
    ensures same_text { window.new.text.ghost_name ≡ window.old.text.ghost_name }
{
    match format {
        FileFormat::Uplink => match list_recording(source, Recording::Uplink, window) {
            Ok(summary) => Ok(LastLine::OfRecording(summary)),
            Err(stop) => Err(stop),
        },
        FileFormat::Downlink => match list_recording(source, Recording::Downlink, window) {
            Ok(summary) => Ok(LastLine::OfRecording(summary)),
            Err(stop) => Err(stop),
        },
        FileFormat::Outgoing => match list_outgoing(source, window) {
            Ok(count) => Ok(LastLine::OfList(count)),
            Err(stop) => Err(stop),
        },
        FileFormat::Received => match list_received(source, room, window) {
            Ok(count) => Ok(LastLine::OfList(count)),
            Err(stop) => Err(stop),
        },
    }
}

/// Prints the last line of what was listed.
fn print_summary(window: &mut TextWindow<'_>, summary: &LastLine) -> Result<(), DeviceFault>
    requires well { window.old.is_full ≡ false }
    ensures line { OnOk result (PutsLine (front_held window.old.text.now window.old.length)
        (front_held window.new.text.now window.new.length)) }
    ensures none { OnErr result (front_held window.new.text.now window.new.length
        ≡ front_held window.old.text.now window.old.length) }
    ensures same_text { window.new.text.ghost_name ≡ window.old.text.ghost_name }
    ensures same_taken { window.new.taken ≡ window.old.taken }
{
    match (window.notation, *summary) {
        (WrittenAs::Text, _) => window.print(summary),
        (WrittenAs::Json, LastLine::OfRecording(RecordingSummary { frames, .. })) => {
            window.print(&RecordingEnd { frames })
        }
        (WrittenAs::Json, LastLine::OfList(records)) => window.print(&ListEnd { records }),
    }
}

/// Lists what stands behind the head of a file of this format, and behind that a line with what was listed, or with the fault.
pub(crate) fn list_window<S: Source>(
    source: &mut S,
    format: FileFormat,
    room: &mut [u8],
    window: &mut TextWindow<'_>,
) -> Result<(), Stop>
    requires source { S.has_failed source.old ≡ false }
    requires well { window.old.is_full ≡ false }
    requires begun { window.old.taken ≡ 0 }
    requires room { 65535 ≤ length room.old }
    ensures whole { OnOk result (IsListedToEnd format
        window.old.notation window.old.frame window.old.left_out window.new.taken 1
        (S.left source.old) (S.left source.new) (front_held window.old.text.now window.old.length)
        (front_held window.new.text.now window.new.length)) }
    ensures end { OnOk result (IsAtEnd (S.left source.new)) }
    ensures fault { IfErr result (λ e. IfFile e (λ fault. IsListedToFault format
        window.old.notation window.old.frame window.old.left_out window.new.taken 1 fault
        (S.left source.old) (S.left source.new) (front_held window.old.text.now window.old.length)
        (front_held window.new.text.now window.new.length))) }
    ensures part { IfErr result (λ e. IfNotWritten e (IsListedInPart format
        window.old.notation window.old.frame window.old.left_out window.new.taken
        (S.left source.old) (S.left source.new) (front_held window.old.text.now window.old.length)
        (front_held window.new.text.now window.new.length))) }
    ensures same_text { window.new.text.ghost_name ≡ window.old.text.ghost_name }
{
    match list_entries(source, format, room, window) {
        Ok(summary) => match print_summary(window, &summary) {
            Ok(()) => Ok(()),
            Err(_) => Err(Stop::Output),
        },
        Err(Stop::File(fault)) => match window.print(&fault) {
            Ok(()) => Err(Stop::File(fault)),
            Err(_) => Err(Stop::Output),
        },
        Err(Stop::Output) => Err(Stop::Output),
    }
}

/// Prints the strips of these frames of a recording, and behind them a line with what it holds, or with the fault. The source
/// stands behind the head.
pub(crate) fn picture<S: Source>(
    source: &mut S,
    recording: Recording,
    frames: Frames,
    window: &mut TextWindow<'_>,
) -> Result<(), Stop>
    requires source { S.has_failed source.old ≡ false }
    requires well { window.old.is_full ≡ false }
    ensures whole { OnOk result (IsPicturedToEnd recording frames 1
        (S.left source.old) (S.left source.new) (front_held window.old.text.now window.old.length)
        (front_held window.new.text.now window.new.length)) }
    ensures end { OnOk result (IsAtEnd (S.left source.new)) }
    ensures fault { IfErr result (λ e. IfFile e (λ fault. IsPicturedToFault recording frames 1 fault
        (S.left source.old) (S.left source.new) (front_held window.old.text.now window.old.length)
        (front_held window.new.text.now window.new.length))) }
    ensures same_text { window.new.text.ghost_name ≡ window.old.text.ghost_name }
{
    match strip_recording(source, recording, frames, window) {
        Ok(summary) => match window.print(&summary) {
            Ok(()) => Ok(()),
            Err(_) => Err(Stop::Output),
        },
        Err(Stop::File(fault)) => match window.print(&fault) {
            Ok(()) => Err(Stop::File(fault)),
            Err(_) => Err(Stop::Output),
        },
        Err(Stop::Output) => Err(Stop::Output),
    }
}
