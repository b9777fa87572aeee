//! Files that can't be read at all.
ghost use Rattle.std.specs.Prelude.{◌≡◌, false};
ghost use Rattle.dmr_lines.specs.Line.{PutsError};

use dmr_files::OpenFault;
use dmr_lines::{FAILURE, ToldName, line_of, print_error};
use dmr_record::Sink;
use dmr_show::print_want_of_memory;
use std::alloc::Global;

/// Tells that a file can't be opened.
fn print_cannot_open<E: Sink>(alloc: Global, name: &str, err: &mut E)
    requires err { E.has_failed err.old ≡ false }
    ensures error { E.has_failed err.new ≡ false → PutsError (E.held err.old) (E.held err.new) }
{
    let name = ToldName(name);
    match format!(in alloc; "{name}: cannot open") {
        Ok(text) => {
            let _failure = print_error(err, line_of(text.as_str()), FAILURE);
        }
        Err(_) => print_want_of_memory(err),
    }
}

/// Tells why the file of a name can't be read at all.
pub(crate) fn print_unopened<E: Sink>(alloc: Global, name: &str, fault: OpenFault, err: &mut E)
    requires err { E.has_failed err.old ≡ false }
    ensures error { E.has_failed err.new ≡ false → PutsError (E.held err.old) (E.held err.new) }
{
    match fault {
        OpenFault::CannotOpen => print_cannot_open(alloc, name, err),
        OpenFault::Memory => print_want_of_memory(err),
    }
}
