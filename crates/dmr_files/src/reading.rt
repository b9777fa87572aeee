//! A file that is only read.
ghost use Rattle.std.specs.Prelude.{◌≡◌, false, IfOk};

use crate::buffering::buffered_source;
use crate::place::Place;
use crate::system::{Open, System};
use dmr_record::{FromBuffered, Source};
use std::alloc::Global;

/// Why a file can't be read at all.
#[derive(Clone, Copy, Debug, Drop, PartialEq, Eq)]
pub enum OpenFault {
    /// It can't be opened.
    CannotOpen,
    /// There is no memory for its buffer.
    Memory,
}

/// Opens a file that is to be read, through a buffer, and tells which file it is.
pub fn open_source<S: System>(
    system: &S,
    alloc: Global,
    place: Place<'_>,
) -> Result<Open<FromBuffered<S::Input>>, OpenFault>
    ensures well { IfOk result (λ read. ⟦<FromBuffered<S::Input> as Source>⟧.has_failed read.file ≡ false) }
{
    let Ok(Open { file, identity }) = system.open_input(place) else {
        return Err(OpenFault::CannotOpen);
    };
    match buffered_source(alloc, file) {
        Ok(file) => Ok(Open { file, identity }),
        Err(_) => Err(OpenFault::Memory),
    }
}
