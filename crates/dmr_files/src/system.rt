//! What a program needs of the system that it runs on.
ghost use Rattle.std.specs.Prelude.{◌≡◌};
ghost use Rattle.dmr_files.specs.Identity.{in_use};

use crate::identity::Identity;
use crate::place::Place;
use std::io::{self, Read, Write};

/// An open file.
#[derive(Drop)]
pub struct Open<F> {
    pub file: F,
    pub identity: Identity,
}

/// The files behind the standard streams, where these are open.
#[derive(Clone, Copy, Drop)]
pub struct StandardFiles {
    pub input: Option<Identity>,
    pub output: Option<Identity>,
    pub error: Option<Identity>,
}

impl StandardFiles {
    /// Those that a command reads or prints beside its own files. Where an output of the command is standard output, it prints
    /// nothing else there.
    pub fn in_use(self, is_output_taken: bool) -> StandardFiles
        ensures streams { result ≡ in_use is_output_taken self }
    {
        if is_output_taken {
            StandardFiles {
                output: None,
                ..self
            }
        } else {
            self
        }
    }
}

/// What a program needs of the system that it runs on.
pub trait System {
    type Input: Read + Drop;

    type Output: Write + Drop;

    /// Opens a file that is to be read.
    fn open_input(&self, place: Place<'_>) -> io::Result<Open<Self::Input>>;

    /// Opens a file that is to be written. It is made where there is none, and what it holds is left as it is.
    fn open_output(&self, place: Place<'_>) -> io::Result<Open<Self::Output>>;

    /// Takes out of an open file what it holds, where it holds anything.
    fn empty(&self, output: &Open<Self::Output>) -> io::Result<()>;

    /// The files behind the standard streams.
    fn standard_files(&self) -> StandardFiles;

    /// Whether standard output is a terminal.
    fn prints_to_terminal(&self) -> bool;
}
