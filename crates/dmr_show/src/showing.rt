//! A file, shown.
ghost use Rattle.std.specs.Prelude.{◌≡◌, ◌≤◌, ◌⊎◌, false, true, codes, length, IfOk};
ghost use Rattle.std.specs.Io.KnownBytes.{Appends};
ghost use Rattle.dmr_lines.specs.Line.{PutsError, error_octets, first_line};
ghost use Rattle.dmr_lines.specs.Status.{failure, success};
ghost use Rattle.dmr_show.specs.Showing.{BeginsWithStrip, HaveFailed, IsShown, IsShownInPart, IsShownWhole, TellsFault};

use crate::file_listing::{Shown, show_all};
use crate::filter::Filter;
use crate::form::Form;
use crate::lines::Lines;
use dmr_lines::{FAILURE, SUCCESS, ToldName, line_of, print_error};
use dmr_record::{OCTET_LIMIT, Sink, Source};
use dmr_recording::{FaultLine, Stop};
use std::alloc::{AllocError, Global};

/// How many octets the longest line has at most: the JSON of a received record, whose octets stand in digits behind its other keys.
const LONGEST_LINE: usize = 2 * OCTET_LIMIT + 200;

/// Prints a file in a form to a sink, which has all that was printed once this answers.
#[tactic(auto, using(crate::proofs::Shown::shown_begun))]
fn show_to<S: Source, K: Sink>(
    form: Form,
    source: &mut S,
    filter: Filter,
    is_live: bool,
    room: &mut [u8],
    text: &mut String,
    out: &mut K,
) -> Result<Shown, Stop>
    requires source { S.has_failed source.old ≡ false }
    requires out { K.has_failed out.old ≡ false }
    requires room { 65535 ≤ length room.old }
    ensures shown { IsShown form filter result (S.left source.old) (S.left source.new) (K.held out.old) (K.held out.new) }
    ensures failed { HaveFailed result (S.has_failed source.new) (K.has_failed out.new) }
{
    let mut lines = Lines::new(out, form.notation(), filter, is_live, text);
    show_all(form, source, room, &mut lines)
}

/// Tells an error.
fn tell<E: Sink>(err: &mut E, what: &str)
    requires err { E.has_failed err.old ≡ false }
    ensures error { E.has_failed err.new ≡ false → PutsError (E.held err.old) (E.held err.new) }
    ensures text { E.has_failed err.new ≡ false → Appends (E.held err.old) (E.held err.new) (error_octets (first_line what.now)) }
{
    let _failure = print_error(err, line_of(what), FAILURE);
}

/// Tells that there is no memory.
pub fn print_want_of_memory<E: Sink>(err: &mut E)
    requires err { E.has_failed err.old ≡ false }
    ensures error { E.has_failed err.new ≡ false → PutsError (E.held err.old) (E.held err.new) }
    ensures text { E.has_failed err.new ≡ false → Appends (E.held err.old) (E.held err.new) (error_octets (codes "out of memory")) }
{
    tell(err, "out of memory");
}

/// Tells a fault of a file.
fn print_fault<E: Sink>(alloc: Global, name: &str, fault: &FaultLine, err: &mut E)
    requires err { E.has_failed err.old ≡ false }
    ensures error { E.has_failed err.new ≡ false → PutsError (E.held err.old) (E.held err.new) }
{
    let name = ToldName(name);
    match format!(in alloc; "{name}: {fault}") {
        Ok(text) => tell(err, text.as_str()),
        Err(_) => print_want_of_memory(err),
    }
}

/// Tells that a file is a list, which has no strip.
fn print_no_strip<E: Sink>(alloc: Global, name: &str, err: &mut E)
    requires err { E.has_failed err.old ≡ false }
    ensures error { E.has_failed err.new ≡ false → PutsError (E.held err.old) (E.held err.new) }
{
    let name = ToldName(name);
    match format!(in alloc; "{name}: a list has no strip") {
        Ok(text) => tell(err, text.as_str()),
        Err(_) => print_want_of_memory(err),
    }
}

/// Room for the octets of a received record, and for the text of a line.
fn room_of(alloc: Global) -> Result<(Vec<u8>, String), AllocError>
    ensures octets { IfOk result (λ room. 65535 ≤ length room.0.items) }
{
    let octets = vec![in alloc; 0u8; OCTET_LIMIT]?;
    let text = String::with_capacity(alloc, LONGEST_LINE)?;
    Ok((octets, text))
}

/// Prints a file of any of the four formats to the first sink, in a form and as far as the file can be read, and answers the exit
/// status. The source stands before the head. A fault of the file is told on the second sink, by the name of the file, and so is
/// that a list has no strip. Where the file is live, so that more of it may come while it is read, each line is printed at once.
/// Else many are printed together, which is faster.
pub fn show<S: Source, K: Sink, E: Sink>(
    alloc: Global,
    name: &str,
    form: Form,
    filter: Filter,
    is_live: bool,
    source: &mut S,
    out: &mut K,
    err: &mut E,
) -> u8
    requires source { S.has_failed source.old ≡ false }
    requires out { K.has_failed out.old ≡ false }
    requires err { E.has_failed err.old ≡ false }
    // A file of one of the formats was read whole, head and all, its lines were printed, and no error is told.
    ensures whole { result ≡ success → IsShownWhole form filter
        (S.left source.old) (S.left source.new) (K.held out.old) (K.held out.new) }
    ensures success { result ≡ success → err.new ≡ err.old }
    // A strip is of a recording.
    ensures strip { result ≡ success → form ≡ Form.Strip → BeginsWithStrip true (S.left source.old) }
    // Or its fault is told, unless what is shown can't be printed.
    ensures fault { result ≡ failure → K.has_failed out.new ≡ false
        → TellsFault result (K.has_failed out.new) (E.has_failed err.new) (E.held err.old) (E.held err.new) }
    // Or it was shown in part: up to a fault, or not at all.
    ensures part { result ≡ failure → K.has_failed out.new ≡ false → IsShownInPart form filter
        (S.left source.old) (S.left source.new) (K.held out.old) (K.held out.new) }
    ensures alone { (err.new ≡ err.old)
        ⊎ TellsFault result (K.has_failed out.new) (E.has_failed err.new) (E.held err.old) (E.held err.new) }

    ensures status { result ≤ 1 }
    ensures out_failed { K.has_failed out.new ≡ true → result ≡ failure }
    ensures err_failed { E.has_failed err.new ≡ true → result ≡ failure }
{
    let Ok((mut room, mut text)) = room_of(alloc) else {
        print_want_of_memory(err);
        return FAILURE;
    };
    match show_to(
        form,
        source,
        filter,
        is_live,
        room.as_mut_slice(),
        &mut text,
        out,
    ) {
        Ok(Shown::Whole) => SUCCESS,
        Ok(Shown::NoStrip) => {
            print_no_strip(alloc, name, err);
            FAILURE
        }
        Err(Stop::File(fault)) => {
            print_fault(alloc, name, &fault, err);
            FAILURE
        }
        Err(Stop::Output) => FAILURE,
    }
}
