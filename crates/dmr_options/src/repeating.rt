//! The command line of the program that repeats: `run` and `slot` with their options, and every other command by its name.

use crate::commands::{COMMANDS, Listed, bare_command, command, whole_command};
use crate::described::{COLOUR, Described, FILE, FLAG, NUMBER, Numbers, Takes, WORD};
use crate::texts::{ABOUT_RUNS, ABOUT_SLOTS};
use clap::Command;
use std::alloc::{AllocError, Global};

/// What the lengths of hangs have in common.
const HANG: Described = Described {
    takes: Takes::Number(Numbers::U16(0, u16::MAX)),
    ..NUMBER
};

/// The options of `run`: its files, and then its settings.
static RUN: [Described; 10] = [
    Described {
        name: "uplink",
        help: "The uplink recording, to read; - is standard input",
        is_required: true,
        ..FILE
    },
    Described {
        name: "outgoing",
        help: "The datagrams to send, to read; none without it",
        ..FILE
    },
    Described {
        name: "downlink",
        help: "The downlink, to write; - is standard output",
        is_required: true,
        ..FILE
    },
    Described {
        name: "received",
        help: "The datagrams received, to write; not kept without it",
        ..FILE
    },
    Described {
        name: "llid",
        help: "The gateway's address on the air (LLID), 1 to 16777215",
        takes: Takes::Number(Numbers::U32(1, 16_777_215)),
        is_required: true,
        ..NUMBER
    },
    COLOUR,
    Described {
        name: "call-hang",
        help: "Frames that a call is held behind its end",
        default: Some("3"),
        ..HANG
    },
    Described {
        name: "channel-hang",
        help: "Frames that the channel stays on the air",
        default: Some("5"),
        ..HANG
    },
    Described {
        name: "queue",
        help: "Datagrams waiting in a slot, 1 to 64",
        takes: Takes::Number(Numbers::U8(1, 64)),
        default: Some("9"),
        ..NUMBER
    },
    Described {
        name: "verbose",
        help: "Tells where a fault is, or why nothing is repeated",
        ..FLAG
    },
];

/// The burst of `slot`.
static SLOT: [Described; 1] = [Described {
    name: "burst",
    value: "HEX",
    help: "A burst of 66 hexadecimal digits",
    ..WORD
}];

/// A command of the program that repeats with its options, or another one by its name alone.
fn listed_command<'a>(alloc: Global, listed: Listed) -> Result<Command<'a>, AllocError> {
    match listed {
        Listed::Run => whole_command(alloc, listed, &RUN, ABOUT_RUNS),
        Listed::Slot => whole_command(alloc, listed, &SLOT, ABOUT_SLOTS),
        Listed::Show
        | Listed::Log
        | Listed::Make
        | Listed::Damage
        | Listed::Compare
        | Listed::Import
        | Listed::Export => Ok(bare_command(alloc, listed)),
    }
}

/// The command line of the program that repeats, with every other command by its name alone.
pub fn repeating_commands<'a>(alloc: Global) -> Result<Command<'a>, AllocError> {
    let mut commands = Vec::new(alloc);
    for listed in COMMANDS {
        commands.push(listed_command(alloc, listed)?)?;
    }
    command(alloc, commands)
}
