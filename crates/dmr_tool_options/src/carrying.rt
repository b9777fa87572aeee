//! `import` and `export`, each with a command for each other format.

use crate::hotspot::{EXPORT_DMRD, IMPORT_DMRD};
use crate::showing::SLOT;
use crate::texts::{
    ABOUT_EXPORTED_DATAGRAMS, ABOUT_EXPORTED_PACKETS, ABOUT_EXPORTED_TEXTS,
    ABOUT_IMPORTED_DATAGRAMS, ABOUT_IMPORTED_PACKETS, ABOUT_IMPORTED_TEXTS,
};
use clap::Command;
use dmr_options::{
    Described, FLAG, FRAME, Listed, NUMBER, Numbers, TEXT, Takes, WORD, bare_command, with_options,
};
use std::alloc::{AllocError, Global};

/// The command of another format, from which a file is made or in which one is written.
#[derive(Clone, Copy, Drop)]
pub(crate) struct FormatCommand {
    name: &'static str,
    about: &'static str,
    options: &'static [Described],
    /// What help says behind the options.
    more: &'static str,
}

/// The files of `export text`.
const EXPORT_TEXT: [Described; 2] = [
    Described {
        name: "input",
        value: "FILE",
        help: "The file to write as text; - is standard input",
        ..WORD
    },
    Described {
        name: "output",
        value: "OUT",
        help: "The text, to write; - is standard output",
        ..WORD
    },
];

/// The files of `import text`.
const IMPORT_TEXT: [Described; 2] = [
    Described {
        name: "input",
        value: "TEXT",
        help: "The text, to read; - is standard input",
        ..WORD
    },
    Described {
        name: "output",
        value: "OUT",
        help: "The file to make of it; - is standard output",
        ..WORD
    },
];

/// When the recording began.
pub(crate) const START: Described = Described {
    name: "start",
    value: "TIME",
    help: "When the run began, as 2026-01-31T12:00:00Z",
    ..TEXT
};

/// The files of `export datagrams`, and which are written.
const EXPORT_DATAGRAMS: [Described; 4] = [
    Described {
        name: "input",
        value: "RECEIVED",
        help: "The received list; - is standard input",
        ..WORD
    },
    Described {
        name: "output",
        value: "OUT",
        help: "The capture, to write; - is standard output",
        ..WORD
    },
    SLOT,
    START,
];

/// The files of `import datagrams`, and how they are to be sent.
const IMPORT_DATAGRAMS: [Described; 6] = [
    Described {
        name: "input",
        value: "CAPTURE",
        help: "The capture, pcap or pcapng; - is standard input",
        ..WORD
    },
    Described {
        name: "output",
        value: "OUT",
        help: "The outgoing list to make of it; - is standard output",
        ..WORD
    },
    Described {
        name: "slot",
        help: "The slot in which they are to go out, 1 or 2",
        takes: Takes::Number(Numbers::U8(1, 2)),
        is_required: true,
        ..NUMBER
    },
    Described {
        name: "confirmed",
        help: "As confirmed packets",
        ..FLAG
    },
    Described {
        name: "full-rate",
        help: "At rate 1, and not at rate 1/2",
        ..FLAG
    },
    Described {
        name: "first-frame",
        help: "The frame of the first of them",
        default: Some("0"),
        ..FRAME
    },
];

/// The formats in which a file can be written.
pub(crate) static EXPORTS: [FormatCommand; 3] = [
    FormatCommand {
        name: "text",
        about: "Writes any of the four files as lines of text",
        options: &EXPORT_TEXT,
        more: ABOUT_EXPORTED_TEXTS,
    },
    FormatCommand {
        name: "datagrams",
        about: "Writes the datagrams of a received list as a capture",
        options: &EXPORT_DATAGRAMS,
        more: ABOUT_EXPORTED_DATAGRAMS,
    },
    FormatCommand {
        name: "dmrd",
        about: "Writes the repeated bursts of a downlink as a capture",
        options: &EXPORT_DMRD,
        more: ABOUT_EXPORTED_PACKETS,
    },
];

/// The formats from which a file can be made.
pub(crate) static IMPORTS: [FormatCommand; 3] = [
    FormatCommand {
        name: "text",
        about: "Makes any of the four files from lines of text",
        options: &IMPORT_TEXT,
        more: ABOUT_IMPORTED_TEXTS,
    },
    FormatCommand {
        name: "datagrams",
        about: "Makes an outgoing list of the datagrams of a capture",
        options: &IMPORT_DATAGRAMS,
        more: ABOUT_IMPORTED_DATAGRAMS,
    },
    FormatCommand {
        name: "dmrd",
        about: "Makes a recording of the packets of hotspots in a capture",
        options: &IMPORT_DMRD,
        more: ABOUT_IMPORTED_PACKETS,
    },
];

impl FormatCommand {
    /// It, for the parser.
    fn command<'a>(&self, alloc: Global) -> Result<Command<'a>, AllocError> {
        with_options(alloc, self.name, self.about, self.options, self.more)
    }
}

/// A command with these of its own, one for each other format.
pub(crate) fn with_formats<'a>(
    alloc: Global,
    command: Listed,
    formats: &[FormatCommand],
) -> Result<Command<'a>, AllocError> {
    let mut made = Vec::new(alloc);
    for format in formats {
        made.push(format.command(alloc)?)?;
    }
    bare_command(alloc, command)
        .subcommand_required(true)
        .subcommands(made)
}
