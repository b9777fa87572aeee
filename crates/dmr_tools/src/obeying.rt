//! Doing what the words of a command line ask for.
ghost use Rattle.std.specs.Prelude.{◌≡◌, ◌≤◌, ◌⊎◌, false, true};
ghost use Rattle.dmr_compare.specs.Status.{trouble};
ghost use Rattle.dmr_lines.specs.Line.{PutsError, PutsLine};
ghost use Rattle.dmr_lines.specs.Status.{failure, success, usage};
ghost use Rattle.dmr_show.specs.Showing.{TellsFault};
ghost use Rattle.dmr_tools.specs.Comparing as comparing;
ghost use Rattle.dmr_tools.specs.Comparing.{TellsTrouble};
ghost use Rattle.dmr_tools.specs.Listed as listed;
ghost use Rattle.dmr_tools.specs.Made.{IsMadePrinted};
ghost use Rattle.dmr_tools.specs.Request.{is_to_output};
ghost use Rattle.dmr_tools.specs.Tasks.{IsCarrying, IsComparison, IsShow, IsTool, unwritten_status};

use crate::carrying::{Direction, carry_file};
use crate::comparing::compare_files;
use crate::listing::{Listing, list_file};
use crate::making::make_files;
use crate::request::{LogRefusal, Request, request_of};
use dmr_files::System;
use dmr_lines::{USAGE, line_of, print_error};
use dmr_options::{print_answer, print_elsewhere};
use dmr_record::Sink;
use std::alloc::Global;
use std::convert::AsStr;

/// What is told of lines that are asked for from one on that is beyond the last.
const BACKWARDS: &str = "--from is beyond --to";

/// What is told of a begin that is no time.
const NO_TIME: &str = "--start is no time, as 2026-01-31T12:00:00Z";

/// What is told of a comparison of standard input with itself.
const SHARED_INPUT: &str = "A and B can't both be standard input";

/// What is told of two files of a script that would both be standard output.
const SHARED_OUTPUT: &str = "UPLINK and --outgoing can't both be standard output";

/// What is told of settings of a log that are refused.
fn log_refusal_text(refusal: LogRefusal) -> &'static str {
    match refusal {
        LogRefusal::Backwards => BACKWARDS,
        LogRefusal::Time => NO_TIME,
    }
}

/// Does what is asked for, and answers the exit status.
fn fulfil<S: System, K: Sink, E: Sink>(
    alloc: Global,
    request: Request<'_>,
    system: &S,
    out: &mut K,
    err: &mut E,
) -> u8
    requires out { K.has_failed out.old ≡ false }
    requires err { E.has_failed err.old ≡ false }
    // What isn't done here is told to the second sink.
    ensures elsewhere { (IsTool request.entry → ⊥) → out.new ≡ out.old }
    ensures refused { (IsTool request.entry → ⊥) → E.has_failed err.new ≡ false → result ≡ usage }
    // A listing or a log goes to the first, whole where this succeeds, and else in part.
    ensures listed { result ≡ success → listed.IsListingPrinted request.entry (K.held out.old) (K.held out.new) }
    ensures in_part { IsShow request.entry → result ≡ failure → K.has_failed out.new ≡ false
        → listed.IsListingPrintedInPart request.entry (K.held out.old) (K.held out.new) }
    // Where it ends at a fault, a line of error goes to the second.
    ensures fault { IsShow request.entry → result ≡ failure → K.has_failed out.new ≡ false
        → TellsFault result (K.has_failed out.new) (E.has_failed err.new) (E.held err.old) (E.held err.new) }
    ensures listing { IsShow request.entry → (err.new ≡ err.old)
        ⊎ TellsFault result (K.has_failed out.new) (E.has_failed err.new) (E.held err.old) (E.held err.new) }
    // Where one file is made of another, one line is printed to one of the two: how much it was to the first, and a fault to the
    // second.
    ensures carried { IsCarrying request.entry → (out.new ≡ out.old) ⊎ (err.new ≡ err.old) }
    ensures carried_status { IsCarrying request.entry → result ≤ 1 }
    ensures line { IsCarrying request.entry → result ≡ success → is_to_output request.entry ≡ false
        → PutsLine (K.held out.old) (K.held out.new) }
    ensures error { IsCarrying request.entry → result ≡ failure → K.has_failed out.new ≡ false → E.has_failed err.new ≡ false
        → PutsError (E.held err.old) (E.held err.new) }
    // The line of a script that was made is that of the counts of its plan, whose files were written.
    ensures made { result ≡ success
        → IsMadePrinted request.entry (K.held out.old) (K.held out.new) (E.held err.old) (E.held err.new) }
    // Where standard output is what is written, all that is printed goes to the second.
    ensures beside { is_to_output request.entry ≡ true → out.new ≡ out.old }
    ensures beside_line { is_to_output request.entry ≡ true → result ≡ success → PutsLine (E.held err.old) (E.held err.new) }
    // Where two files are compared whole, that goes to the first, and the status tells whether they are the same.
    ensures compared { result ≤ 1
        → comparing.IsComparisonPrinted request.entry result (K.held out.old) (K.held out.new) }
    // Else they are compared in part, and why that stopped is told to the second.
    ensures compared_in_part { result ≡ trouble → K.has_failed out.new ≡ false
        → comparing.IsComparisonPrintedInPart request.entry (K.held out.old) (K.held out.new) }
    ensures trouble { IsComparison request.entry → result ≡ trouble → K.has_failed out.new ≡ false
        → TellsTrouble result (K.has_failed out.new) (E.has_failed err.new) (E.held err.old) (E.held err.new) }
    ensures comparison { IsComparison request.entry → (err.new ≡ err.old)
        ⊎ TellsTrouble result (K.has_failed out.new) (E.has_failed err.new) (E.held err.old) (E.held err.new) }
    ensures success { result ≡ success → is_to_output request.entry ≡ false → err.new ≡ err.old }
    ensures usage { (IsComparison request.entry → ⊥) → result ≡ usage → out.new ≡ out.old }
    ensures status { result ≤ 2 }
    ensures out_failed { K.has_failed out.new ≡ true → result ≡ unwritten_status request.entry }
    ensures err_failed { E.has_failed err.new ≡ true → result ≡ unwritten_status request.entry }
{
    match request {
        Request::Show { name, form, filter } => {
            let listing = Listing::Lines { form, filter };
            list_file(alloc, system, name, listing, out, err)
        }
        Request::Import { format, places } => {
            carry_file(alloc, system, Direction::Import(format), places, out, err)
        }
        Request::Export { format, places } => {
            carry_file(alloc, system, Direction::Export(format), places, out, err)
        }
        Request::Damage {
            damage,
            seed,
            places,
        } => {
            let direction = Direction::Damage { damage, seed };
            carry_file(alloc, system, direction, places, out, err)
        }
        Request::Backwards => print_error(err, BACKWARDS, USAGE),
        Request::Log { name, settings } => {
            list_file(alloc, system, name, Listing::Log(settings), out, err)
        }
        Request::LogPage { name, settings } => {
            list_file(alloc, system, name, Listing::Page(settings), out, err)
        }
        Request::NoStart => print_error(err, NO_TIME, USAGE),
        Request::LogRefused(refusal) => print_error(err, line_of(log_refusal_text(refusal)), USAGE),
        Request::Make(places) => make_files(alloc, system, &places, out, err),
        Request::SharedOutput => print_error(err, SHARED_OUTPUT, USAGE),
        Request::Compare(comparison) => compare_files(alloc, system, &comparison, out, err),
        Request::SharedInput => print_error(err, SHARED_INPUT, USAGE),
        Request::Elsewhere(_) => print_elsewhere(err),
    }
}

/// Does what the words of a command line ask for, of which the first is the program's name, and answers the exit status.
pub fn obey<T: AsStr, S: System, K: Sink, E: Sink>(
    alloc: Global,
    words: &[T],
    system: &S,
    out: &mut K,
    err: &mut E,
) -> u8
    requires out { K.has_failed out.old ≡ false }
    requires err { E.has_failed err.old ≡ false }
    // What is printed goes to one of the two, which of them the status tells, but where what is written goes to standard output. A
    // listing that ends at a fault goes to the first, and its line of error to the second.
    ensures alone { (out.new ≡ out.old) ⊎ (err.new ≡ err.old)
        ⊎ TellsFault result (K.has_failed out.new) (E.has_failed err.new) (E.held err.old) (E.held err.new)
        ⊎ TellsTrouble result (K.has_failed out.new) (E.has_failed err.new) (E.held err.old) (E.held err.new) }
    ensures success { result ≡ success → (err.new ≡ err.old) ⊎ ((out.new ≡ out.old) × PutsLine (E.held err.old) (E.held err.new)) }
    // The status of mistakes in the words is also that of two files that can't be compared to their ends.
    ensures usage { result ≡ usage → K.has_failed out.new ≡ false → (out.new ≡ out.old)
        ⊎ TellsTrouble result (K.has_failed out.new) (E.has_failed err.new) (E.held err.old) (E.held err.new) }
    ensures status { result ≤ 2 }
    ensures out_failed { K.has_failed out.new ≡ true → (result ≡ failure) ⊎ (result ≡ trouble) }
    ensures err_failed { E.has_failed err.new ≡ true → (result ≡ failure) ⊎ (result ≡ trouble) }
{
    match request_of(alloc, words) {
        Ok(request) => fulfil(alloc, request, system, out, err),
        Err(answer) => print_answer(alloc, &answer, out, err),
    }
}
