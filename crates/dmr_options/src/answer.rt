//! What is printed beside what is asked for: what the parser answers in place of matches, that another program does it, and that
//! standard output can't be written.
ghost use Rattle.std.specs.Prelude.{◌≡◌, ◌≤◌, ◌⊎◌, None, Some, OnSome, false, true, codes};
ghost use Rattle.std.specs.Io.KnownBytes.{Appends};
ghost use Rattle.dmr_lines.specs.Line.{error_octets};
ghost use Rattle.dmr_lines.specs.Status.{failure, success, usage};

use clap::Error;
use dmr_files::PrintFault;
use dmr_lines::{FAILURE, SUCCESS, USAGE, print_error, print_text};
use dmr_record::Sink;
use std::alloc::Global;

/// Prints what the parser answers in place of matches, and answers the exit status: help and the version to the first sink, a
/// mistake in the words to the second.
pub fn print_answer<K: Sink, E: Sink>(alloc: Global, answer: &Error, out: &mut K, err: &mut E) -> u8
    requires out { K.has_failed out.old ≡ false }
    requires err { E.has_failed err.old ≡ false }
    ensures alone { (out.new ≡ out.old) ⊎ (err.new ≡ err.old) }
    ensures success { result ≡ success → err.new ≡ err.old }
    ensures usage { result ≡ usage → out.new ≡ out.old }
    ensures status { result ≤ 2 }
    ensures out_failed { K.has_failed out.new ≡ true → result ≡ failure }
    ensures err_failed { E.has_failed err.new ≡ true → result ≡ failure }
{
    match format!(in alloc; "{answer}") {
        Ok(text) if answer.use_stderr() => print_text(err, text.as_str(), USAGE),
        Ok(text) => print_text(out, text.as_str(), SUCCESS),
        Err(_) => print_error(err, "out of memory", USAGE),
    }
}

/// Tells that another program does what is asked for, and answers the exit status. Whoever starts the command `dmrgate` never sees
/// this, since that starts the program that has the command.
pub fn print_elsewhere<E: Sink>(err: &mut E) -> u8
    requires err { E.has_failed err.old ≡ false }
    ensures error { E.has_failed err.new ≡ false → Appends (E.held err.old) (E.held err.new)
        (error_octets (codes "another program of dmrgate does this: start it by the command dmrgate")) }
    ensures status { E.has_failed err.new ≡ false → result ≡ usage }
    ensures failed { E.has_failed err.new ≡ true → result ≡ failure }
{
    print_error(
        err,
        "another program of dmrgate does this: start it by the command dmrgate",
        USAGE,
    )
}

/// Tells that standard output can't be written, where it has failed so. Where its reader has left, nobody is told: that is how the
/// readers of pipes end what they have enough of.
pub fn print_unwritten<E: Sink>(fault: Option<PrintFault>, err: &mut E)
    requires err { OnSome fault (E.has_failed err.old ≡ false) }
    ensures error { fault ≡ Some PrintFault.Unwritten → E.has_failed err.new ≡ false → Appends (E.held err.old) (E.held err.new)
        (error_octets (codes "standard output: write failed")) }
    ensures left { fault ≡ Some PrintFault.ReaderLeft → err.new ≡ err.old }
    ensures well { fault ≡ None → err.new ≡ err.old }
{
    match fault {
        Some(PrintFault::Unwritten) => {
            let _failure = print_error(err, "standard output: write failed", FAILURE);
        }
        Some(PrintFault::ReaderLeft) | None => {}
    }
}
