//! What a page calls. Slices are passed as where they begin and how long they are, and numbers as they are.
ghost use Rattle.std.specs.Prelude.{◌≡◌, ◌≢◌, ◌≤◌, false, length, IfNone, IfSome, None, Some};
ghost use Rattle.dmr_recording.specs.declared.recording.Recording.{Recording};
ghost use Rattle.dmr_show.specs.Showing.{format_of, has_strip};
ghost use Rattle.dmr_web.specs.Calls.{IsAllListed, IsAllPictured, IsFaultListed, IsFaultPictured, IsHeadFaultListed, IsHeadListed};
ghost use Rattle.dmr_web.specs.Calls as spec;
ghost use Rattle.dmr_web.specs.Calls.{IsPartListed, status_at, status_by_end, told_at, told_by_end};
ghost use Rattle.dmr_web.specs.Numbers.{all_listed, fault_met, not_listed, numbered_format, text_full};

use crate::listing::{list_window, picture, print_head};
use crate::numbers::{ALL, AT_FAULT, NO_ROOM, REFUSED, Told, numbered_format};
use crate::window::{TextWindow, WrittenAs};
use dmr_listing::Frames;
use dmr_record::{FileFormat, FromRead, OCTET_LIMIT};
use dmr_recording::{Recording, Stop};

/// The status of a call that stopped so.
fn status_at(stop: Stop) -> u32
    ensures value { result ≡ status_at stop }
{
    match stop {
        Stop::File(_) => AT_FAULT,
        Stop::Output => NO_ROOM,
    }
}

/// What is told where a call stopped so, with this text.
fn told_at(stop: Stop, window: &TextWindow<'_>) -> Told
    ensures value { result ≡ told_at stop window.now.length window.now.taken }
{
    let told = Told::of_text(window.length, window.taken);
    match stop {
        Stop::File(fault) => told.with_fault(fault),
        Stop::Output => told,
    }
}

/// The status of a call that ended so.
fn status_by_end(ended: Result<(), Stop>) -> u32
    ensures value { result ≡ status_by_end ended }
{
    match ended {
        Ok(()) => ALL,
        Err(stop) => status_at(stop),
    }
}

/// What is told where a call ended so, with this text.
fn told_by_end(ended: Result<(), Stop>, window: &TextWindow<'_>) -> Told
    ensures value { result ≡ told_by_end ended window.now.length window.now.taken }
{
    match ended {
        Ok(()) => Told::of_text(window.length, window.taken),
        Err(stop) => told_at(stop, window),
    }
}

/// What lines are written in.
fn notation_of(is_json: bool) -> WrittenAs
    ensures value { result ≡ spec.notation_asked is_json }
{
    if is_json {
        WrittenAs::Json
    } else {
        WrittenAs::Text
    }
}

/// Reads the head of a file, and puts the line of the file into the text: its format stands in what is told.
///
/// It answers 0 where it is one of the four, and 1 where it isn't, with the line of the fault. It answers 2 where the text has no
/// room for the line.
#[unsafe(no_mangle)]
pub extern "C" fn page_head(file: &[u8], is_json: bool, text: &mut [u8], told: &mut Told) -> u32
    ensures head { result ≡ all_listed → IsHeadListed file.now text.new told.new }
    ensures fault { result ≡ fault_met → IsHeadFaultListed file.now text.new told.new }
    ensures status { result ≤ 2 }
{
    let mut source = FromRead::new(file);
    let mut window = TextWindow::new(text, notation_of(is_json), 0, 0);
    match print_head(&mut source, &mut window) {
        Ok(format) => {
            *told = Told::of_text(window.length, 0).with_format(format);
            ALL
        }
        Err(stop) => {
            *told = told_at(stop, &window);
            status_at(stop)
        }
    }
}

/// Lists what stands behind the head of a file of a format, from one of its bursts or records on: a line for each, and a last one
/// with what all of it holds.
///
/// `octets` are the file's behind its head, or those of a recording from a frame on; then `frame` is the number of that. `from` is
/// how many bursts or records have no line. `room` takes the octets of a received record: at least 65,535, whatever they are.
///
/// It answers 0 where all was listed to the end, and 1 where it was up to a fault, with the line of that. It answers 2 where the
/// text has no room for the next line: what is told says from which burst or record a further window goes on. It answers 3 where no
/// format has this number, or the room is too small, and then nothing is told.
#[unsafe(no_mangle)]
pub extern "C" fn page_list(
    octets: &[u8],
    format: u32,
    frame: u32,
    from: u64,
    is_json: bool,
    room: &mut [u8],
    text: &mut [u8],
    told: &mut Told,
) -> u32
    ensures all { result ≡ all_listed → IsAllListed format is_json frame from octets.now text.new told.new }
    ensures fault { result ≡ fault_met → IsFaultListed format is_json frame from octets.now text.new told.new }
    ensures part { result ≡ text_full → IsPartListed format is_json frame from octets.now text.new told.new }
    ensures refused { result ≡ not_listed → (text.new ≡ text.old) × (told.new ≡ told.old) }
    ensures no_needless_refusal { numbered_format format ≢ None → 65535 ≤ length room.old → result ≢ not_listed }
    ensures status { result ≤ 3 }
{
    let Some(format) = numbered_format(format) else {
        return REFUSED;
    };
    if room.len() < OCTET_LIMIT {
        return REFUSED;
    }
    let mut source = FromRead::new(octets);
    let mut window = TextWindow::new(text, notation_of(is_json), frame, from);
    let ended = list_window(&mut source, format, room, &mut window);
    *told = told_by_end(ended, &window);
    status_by_end(ended)
}

/// The recording whose files have this format, where they are recordings.
fn recording_of(format: FileFormat) -> Option<Recording>
    ensures recording { IfSome result (λ recording. format ≡ format_of recording) }
    ensures none { IfNone result (has_strip format ≡ false) }
{
    match format {
        FileFormat::Uplink => Some(Recording::Uplink),
        FileFormat::Downlink => Some(Recording::Downlink),
        FileFormat::Outgoing | FileFormat::Received => None,
    }
}

/// Marks what stands in each slot of these frames of a recording: a letter for each slot of a frame, 50 frames a line, slot under
/// slot, and behind them a last line with what all of it holds. The octets are the file's behind its head.
///
/// It answers 0 where all was read to the end, and 1 where it was up to a fault, with the line of that. It answers 2 where the text
/// has no room for all lines, and 3 where the format is that of no recording, and then nothing is told.
#[unsafe(no_mangle)]
pub extern "C" fn page_strip(
    octets: &[u8],
    format: u32,
    first: u32,
    last: u32,
    text: &mut [u8],
    told: &mut Told,
) -> u32
    ensures all { result ≡ all_listed
        → IsAllPictured format (record { first = first; last = last }) octets.now text.new told.new }
    ensures fault { result ≡ fault_met
        → IsFaultPictured format (record { first = first; last = last }) octets.now text.new told.new }
    ensures refused { result ≡ not_listed → (text.new ≡ text.old) × (told.new ≡ told.old) }
    ensures no_needless_refusal { (recording : Recording) → numbered_format format ≡ Some (format_of recording)
        → result ≢ not_listed }
    ensures status { result ≤ 3 }
{
    let Some(format) = numbered_format(format) else {
        return REFUSED;
    };
    let Some(recording) = recording_of(format) else {
        return REFUSED;
    };
    let mut source = FromRead::new(octets);
    let mut window = TextWindow::new(text, WrittenAs::Text, 0, 0);
    let ended = picture(&mut source, recording, Frames { first, last }, &mut window);
    *told = told_by_end(ended, &window);
    status_by_end(ended)
}
