//! Doing what the words of a command line ask for.
ghost use Rattle.std.specs.Prelude.{◌≡◌, ◌≤◌, ◌⊎◌, false, true};
ghost use Rattle.dmr_command.specs.Places.{take_output};
ghost use Rattle.dmr_lines.specs.Line.{PutsError, PutsLine};
ghost use Rattle.dmr_lines.specs.Status.{failure, success, usage};
ghost use Rattle.dmr_program.specs.Summary.{IsDoneHere, is_beside, tells_more};
ghost use Rattle.dmr_program.specs.Told.{PutsLineAndError, TellsBoth};

use crate::more::ToldMore;
use crate::run_end::{RunEnd, print_end, print_end_and_more, print_end_beside};
use crate::running::run_places;
use crate::slot::print_slot;
use crate::watched_run::{WatchedEnd, run_places_watched};
use dmr_command::{Places, Request, SharedStream, request_of};
use dmr_files::System;
use dmr_lines::{USAGE, line_of, print_error};
use dmr_options::{print_answer, print_elsewhere};
use dmr_record::Sink;
use dmr_settings::{Config, ConfigFault};
use std::alloc::Global;
use std::convert::AsStr;

/// How a run with these settings over files at these places ends.
fn end_of<S: System>(
    alloc: Global,
    system: &S,
    config: Result<Config, ConfigFault>,
    places: &Places<'_>,
) -> RunEnd {
    match config {
        Ok(config) => run_places(system, alloc, config, places),
        Err(fault) => RunEnd::Setting(fault),
    }
}

/// How a run with these settings over files at these places ends, which is watched.
fn watched_end_of<S: System>(
    alloc: Global,
    system: &S,
    config: Result<Config, ConfigFault>,
    places: &Places<'_>,
) -> WatchedEnd {
    match config {
        Ok(config) => run_places_watched(system, alloc, config, places),
        Err(fault) => WatchedEnd {
            end: RunEnd::Setting(fault),
            more: None,
        },
    }
}

/// Prints how a run ended, and answers the exit status: to the second sink alone where standard output is a file of the run.
fn print_end_apart<K: Sink, E: Sink>(end: &RunEnd, is_beside: bool, out: &mut K, err: &mut E) -> u8
    requires out { K.has_failed out.old ≡ false }
    requires err { E.has_failed err.old ≡ false }
    ensures alone { (out.new ≡ out.old) ⊎ (err.new ≡ err.old) }
    ensures success { result ≡ success → is_beside ≡ false → err.new ≡ err.old }
    ensures beside { is_beside ≡ true → out.new ≡ out.old }
    ensures beside_line { is_beside ≡ true → result ≡ success → PutsLine (E.held err.old) (E.held err.new) }
    ensures line { result ≡ success → is_beside ≡ false → PutsLine (K.held out.old) (K.held out.new) }
    ensures usage { result ≡ usage → out.new ≡ out.old }
    ensures status { result ≤ 2 }
    ensures out_failed { K.has_failed out.new ≡ true → result ≡ failure }
    ensures err_failed { E.has_failed err.new ≡ true → result ≡ failure }
{
    if is_beside {
        print_end_beside(end, err)
    } else {
        print_end(end, out, err)
    }
}

/// Runs, prints how that ended, and behind it what more can be told, and answers the exit status.
fn run_and_tell<S: System, K: Sink, E: Sink>(
    alloc: Global,
    system: &S,
    config: Result<Config, ConfigFault>,
    places: &Places<'_>,
    out: &mut K,
    err: &mut E,
) -> u8
    requires out { K.has_failed out.old ≡ false }
    requires err { E.has_failed err.old ≡ false }
    ensures alone { (out.new ≡ out.old) ⊎ (err.new ≡ err.old)
        ⊎ TellsBoth (K.held out.old) (K.held out.new) (E.has_failed err.new) (E.held err.old) (E.held err.new) }
    ensures success { result ≡ success → take_output places.now ≡ false
        → (err.new ≡ err.old) ⊎ PutsError (E.held err.old) (E.held err.new) }
    ensures beside { take_output places.now ≡ true → out.new ≡ out.old }
    ensures beside_line { take_output places.now ≡ true → result ≡ success
        → PutsLine (E.held err.old) (E.held err.new) ⊎ PutsLineAndError (E.held err.old) (E.held err.new) }
    ensures line { result ≡ success → take_output places.now ≡ false → PutsLine (K.held out.old) (K.held out.new) }
    ensures unwritten { K.has_failed out.new ≡ true → err.new ≡ err.old }
    ensures usage { result ≡ usage → out.new ≡ out.old }
    ensures status { result ≤ 2 }
    ensures out_failed { K.has_failed out.new ≡ true → result ≡ failure }
    ensures err_failed { E.has_failed err.new ≡ true → result ≡ failure }
{
    let WatchedEnd { end, more } = watched_end_of(alloc, system, config, places);
    let is_beside = places.take_output();
    let Some(more) = more else {
        return print_end_apart(&end, is_beside, out, err);
    };
    let told = ToldMore {
        more,
        places: *places,
    };
    let text = format!(in alloc; "{told}");
    let more = match &text {
        Ok(text) => text.as_str(),
        Err(_) => "out of memory",
    };
    print_end_and_more(&end, line_of(more), is_beside, out, err)
}

/// Tells that two files of a run would be one standard stream, and answers the exit status.
fn print_shared<E: Sink>(stream: SharedStream, err: &mut E) -> u8
    requires err { E.has_failed err.old ≡ false }
    ensures status { E.has_failed err.new ≡ false → result ≡ usage }
    ensures failed { E.has_failed err.new ≡ true → result ≡ failure }
{
    let message = match stream {
        SharedStream::Input => "--uplink and --outgoing can't both be standard input",
        SharedStream::Output => "--downlink and --received can't both be standard output",
    };
    print_error(err, message, USAGE)
}

/// Does what is asked for, and answers the exit status.
fn fulfil<S: System, K: Sink, E: Sink>(
    alloc: Global,
    request: Request<'_>,
    system: &S,
    out: &mut K,
    err: &mut E,
) -> u8
    requires out { K.has_failed out.old ≡ false }
    requires err { E.has_failed err.old ≡ false }
    // What is printed goes to one of the two, which of them the status and the request tell, but where more is to be told.
    ensures alone { tells_more request.entry ≡ false → (out.new ≡ out.old) ⊎ (err.new ≡ err.old) }
    ensures success { result ≡ success → is_beside request.entry ≡ false → tells_more request.entry ≡ false → err.new ≡ err.old }
    // Where a file of the run goes to the first, all that is printed goes to the second.
    ensures beside { is_beside request.entry ≡ true → out.new ≡ out.old }
    ensures beside_line { is_beside request.entry ≡ true → tells_more request.entry ≡ false → result ≡ success
        → PutsLine (E.held err.old) (E.held err.new) }
    // Else a success is a line that is printed to the first.
    ensures line { result ≡ success → is_beside request.entry ≡ false → PutsLine (K.held out.old) (K.held out.new) }
    // Where more is to be told, it is a line of error on the second, behind all else.
    ensures both { tells_more request.entry ≡ true → (out.new ≡ out.old) ⊎ (err.new ≡ err.old)
        ⊎ TellsBoth (K.held out.old) (K.held out.new) (E.has_failed err.new) (E.held err.old) (E.held err.new) }
    ensures more { result ≡ success → is_beside request.entry ≡ false → tells_more request.entry ≡ true
        → (err.new ≡ err.old) ⊎ PutsError (E.held err.old) (E.held err.new) }
    ensures beside_more { is_beside request.entry ≡ true → tells_more request.entry ≡ true → result ≡ success
        → PutsLine (E.held err.old) (E.held err.new) ⊎ PutsLineAndError (E.held err.old) (E.held err.new) }
    // Where the first can't be written, nothing goes to the second.
    ensures unwritten { K.has_failed out.new ≡ true → err.new ≡ err.old }
    // What isn't done here is refused.
    ensures refused { (IsDoneHere request.entry → ⊥) → E.has_failed err.new ≡ false → result ≡ usage }
    ensures usage { result ≡ usage → out.new ≡ out.old }
    ensures status { result ≤ 2 }
    ensures out_failed { K.has_failed out.new ≡ true → result ≡ failure }
    ensures err_failed { E.has_failed err.new ≡ true → result ≡ failure }
{
    match request {
        Request::Slot(burst) => print_slot(burst, out, err),
        Request::Run {
            config,
            places,
            is_verbose,
        } => {
            if is_verbose {
                return run_and_tell(alloc, system, config, &places, out, err);
            }
            let end = end_of(alloc, system, config, &places);
            print_end_apart(&end, places.take_output(), out, err)
        }
        Request::Shared(stream) => print_shared(stream, err),
        Request::Elsewhere(_) => print_elsewhere(err),
    }
}

/// Does what the words of a command line ask for, of which the first is the program's name, and answers the exit status.
pub fn obey<T: AsStr, S: System, K: Sink, E: Sink>(
    alloc: Global,
    words: &[T],
    system: &S,
    out: &mut K,
    err: &mut E,
) -> u8
    requires out { K.has_failed out.old ≡ false }
    requires err { E.has_failed err.old ≡ false }
    // What is printed goes to one of the two: what was asked for to the first, but where a file of a run goes to that. Where more
    // is told of a run, a line goes to each.
    ensures alone { (out.new ≡ out.old) ⊎ (err.new ≡ err.old)
        ⊎ TellsBoth (K.held out.old) (K.held out.new) (E.has_failed err.new) (E.held err.old) (E.held err.new) }
    ensures success { result ≡ success → (err.new ≡ err.old) ⊎ PutsError (E.held err.old) (E.held err.new)
        ⊎ ((out.new ≡ out.old) × (PutsLine (E.held err.old) (E.held err.new)
        ⊎ PutsLineAndError (E.held err.old) (E.held err.new))) }
    ensures unwritten { K.has_failed out.new ≡ true → err.new ≡ err.old }
    ensures usage { result ≡ usage → out.new ≡ out.old }
    ensures status { result ≤ 2 }
    ensures out_failed { K.has_failed out.new ≡ true → result ≡ failure }
    ensures err_failed { E.has_failed err.new ≡ true → result ≡ failure }
{
    match request_of(alloc, words) {
        Ok(request) => fulfil(alloc, request, system, out, err),
        Err(answer) => print_answer(alloc, &answer, out, err),
    }
}
