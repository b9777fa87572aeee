//! The system that the program runs on.
use crate::identity::{FileKind, Identity};
use crate::place::Place;
use crate::system::{Open, StandardFiles, System};
use std::fs::{self, File, FileType, Metadata, OpenOptions};
use std::io::{self, IsTerminal, Read, Stdin, Stdout, Write};
use std::os::unix::fs::{FileTypeExt, MetadataExt};

/// The paths at which a system has the files behind its standard streams.
const STANDARD_INPUT: &str = "/dev/stdin";

const STANDARD_OUTPUT: &str = "/dev/stdout";

const STANDARD_ERROR: &str = "/dev/stderr";

/// A file that holds nothing.
const NOWHERE: &str = "/dev/null";

/// What is read: a file, or standard input.
#[derive(Drop)]
pub enum HostInput {
    File(File),
    Standard(Stdin),
}

/// What is written: a file, or standard output.
#[derive(Drop)]
pub enum HostOutput {
    File(File),
    Standard(Stdout),
}

impl Read for HostInput {
    fn read(&mut self, buffer: &mut [u8]) -> io::Result<usize> {
        match self {
            HostInput::File(file) => file.read(buffer),
            HostInput::Standard(input) => input.read(buffer),
        }
    }
}

impl Write for HostOutput {
    fn write(&mut self, piece: &[u8]) -> io::Result<usize> {
        match self {
            HostOutput::File(file) => file.write(piece),
            HostOutput::Standard(output) => output.write(piece),
        }
    }

    fn flush(&mut self) -> io::Result<()> {
        match self {
            HostOutput::File(file) => file.flush(),
            HostOutput::Standard(output) => output.flush(),
        }
    }
}

/// Files in the places of the standard streams that are closed. Without them the first files that are opened would take these
/// places, and what is printed would get into one of them.
#[derive(Drop)]
pub struct StandIns {
    input: Option<File>,
    output: Option<File>,
    error: Option<File>,
}

impl StandIns {
    /// Takes the places of the standard streams that are closed, as long as it is held.
    pub fn new(rt: &HostRuntime) -> StandIns {
        StandIns {
            input: stand_in(rt, STANDARD_INPUT),
            output: stand_in(rt, STANDARD_OUTPUT),
            error: stand_in(rt, STANDARD_ERROR),
        }
    }
}

/// A file that takes the place of a standard stream, where that is closed: a system gives the lowest place that is free. It is at
/// its end, and can't be written.
fn stand_in(rt: &HostRuntime, path: &str) -> Option<File> {
    match fs::metadata(rt, path) {
        Ok(_) => None,
        Err(_) => fs::open(rt, NOWHERE).ok(),
    }
}

/// What a type of file is, as far as it matters here.
fn kind_of(kind: FileType) -> FileKind {
    if kind.is_file() {
        FileKind::Regular
    } else if kind.is_char_device() {
        FileKind::Device
    } else {
        FileKind::Other
    }
}

/// Which file this is.
fn identity_of(metadata: &Metadata) -> Identity {
    Identity {
        device: metadata.dev(),
        number: metadata.ino(),
        kind: kind_of(metadata.file_type()),
    }
}

impl System for HostRuntime {
    type Input = HostInput;

    type Output = HostOutput;

    fn open_input(&self, place: Place<'_>) -> io::Result<Open<HostInput>> {
        match place {
            Place::Standard => {
                let identity = identity_of(&fs::metadata(self, STANDARD_INPUT)?);
                let file = HostInput::Standard(self.stdin());
                Ok(Open { file, identity })
            }
            Place::Path(path) => {
                let file = fs::open(self, path)?;
                let identity = identity_of(&file.metadata()?);
                let file = HostInput::File(file);
                Ok(Open { file, identity })
            }
        }
    }

    fn open_output(&self, place: Place<'_>) -> io::Result<Open<HostOutput>> {
        match place {
            Place::Standard => {
                let identity = identity_of(&fs::metadata(self, STANDARD_OUTPUT)?);
                let file = HostOutput::Standard(self.stdout());
                Ok(Open { file, identity })
            }
            Place::Path(path) => {
                let mut options = OpenOptions::new();
                let file = options.write(true).create(true).open(self, path)?;
                let identity = identity_of(&file.metadata()?);
                let file = HostOutput::File(file);
                Ok(Open { file, identity })
            }
        }
    }

    fn empty(&self, output: &Open<HostOutput>) -> io::Result<()> {
        match &output.file {
            HostOutput::File(file) if output.identity.kind == FileKind::Regular => file.set_len(0),
            _ => Ok(()),
        }
    }

    fn standard_files(&self) -> StandardFiles {
        StandardFiles {
            input: standard_file(self, STANDARD_INPUT),
            output: standard_file(self, STANDARD_OUTPUT),
            error: standard_file(self, STANDARD_ERROR),
        }
    }

    fn prints_to_terminal(&self) -> bool {
        self.stdout().is_terminal()
    }
}

/// The file behind a standard stream, where that is open.
fn standard_file(rt: &HostRuntime, path: &str) -> Option<Identity> {
    match fs::metadata(rt, path) {
        Ok(metadata) => Some(identity_of(&metadata)),
        Err(_) => None,
    }
}
