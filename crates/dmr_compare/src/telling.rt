//! Why two files weren't compared, told.
ghost use Rattle.std.specs.Prelude.{◌≡◌, false};
ghost use Rattle.dmr_lines.specs.Line.{PutsError};

use crate::trouble::Trouble;
use dmr_lines::{FAILURE, ToldName, line_of, print_error};
use dmr_record::Sink;
use std::alloc::{AllocError, Global};

/// The names of two files, by which their faults are told.
#[derive(Clone, Copy, Debug)]
pub struct FileNames<'a> {
    /// Of the first.
    pub first: &'a str,
    /// Of the second.
    pub second: &'a str,
}

/// What is told of a trouble. A sink that failed tells itself.
fn text_of(alloc: Global, names: &FileNames<'_>, trouble: &Trouble) -> Result<String, AllocError> {
    let first = ToldName(names.first);
    let second = ToldName(names.second);
    match trouble {
        Trouble::First(fault) => format!(in alloc; "{first}: {fault}"),
        Trouble::Second(fault) => format!(in alloc; "{second}: {fault}"),
        Trouble::OtherKind => format!(in alloc; "{second}: another kind of file than {first}"),
        Trouble::ShiftOfLists => format!(in alloc; "{first}: a list has no shift"),
        Trouble::Memory => format!(in alloc; "out of memory"),
        Trouble::Output => format!(in alloc; "write failed"),
    }
}

/// Tells an error.
fn tell_text<E: Sink>(err: &mut E, what: &str)
    requires err { E.has_failed err.old ≡ false }
    ensures error { E.has_failed err.new ≡ false → PutsError (E.held err.old) (E.held err.new) }
{
    let _failure = print_error(err, line_of(what), FAILURE);
}

/// Tells why two files weren't compared, by their names.
pub(crate) fn tell<E: Sink>(alloc: Global, names: &FileNames<'_>, trouble: &Trouble, err: &mut E)
    requires err { E.has_failed err.old ≡ false }
    ensures error { E.has_failed err.new ≡ false → PutsError (E.held err.old) (E.held err.new) }
{
    match text_of(alloc, names, trouble) {
        Ok(text) => tell_text(err, text.as_str()),
        Err(_) => tell_text(err, "out of memory"),
    }
}
