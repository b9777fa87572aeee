//! The words that a program is started with.
ghost use Rattle.std.specs.Prelude.{◌≡◌, ◌≤◌, false, true};
ghost use Rattle.dmr_lines.specs.Line.{PutsError};
ghost use Rattle.dmr_lines.specs.Status.{failure, usage};

use dmr_lines::{USAGE, line_of, print_error};
use dmr_record::Sink;
use std::env;
use std::io::{self, Error, ErrorKind};

/// The words of the command line, of which the first is the program's name. They can't be had where there is no memory, or where
/// one of them is no UTF-8 text.
pub fn words_of(rt: &HostRuntime) -> io::Result<Vec<String>> {
    let words = env::args(rt)?.collect(rt.alloc())?;
    Ok(words)
}

/// Tells why the words of the command line can't be had, and answers the exit status.
pub fn print_no_words<E: Sink>(error: &Error, err: &mut E) -> u8
    requires err { E.has_failed err.old ≡ false }
    ensures error { E.has_failed err.new ≡ false → PutsError (E.held err.old) (E.held err.new) }
    ensures status { E.has_failed err.new ≡ false → result ≡ usage }
    ensures failed { E.has_failed err.new ≡ true → result ≡ failure }
{
    let message = match error.kind() {
        ErrorKind::OutOfMemory => "out of memory",
        _ => "the command line is not UTF-8 text",
    };
    print_error(err, line_of(message), USAGE)
}
