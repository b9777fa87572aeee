//! The commands of `dmrgate`, whichever program has them.
ghost use Rattle.std.specs.Prelude.{◌≡◌, IfNone, IfSome};
ghost use Rattle.dmr_options.specs.Commands.{command_name};
ghost use Rattle.dmr_options.specs.declared.commands.Listed.{Listed};

use crate::described::{Described, with_options};
use crate::texts::VERSION;
use clap::Command;
use std::alloc::{AllocError, Global};

/// A command of `dmrgate`. Each program lists all of them, and does those that it has.
#[derive(Clone, Copy, Drop)]
pub enum Listed {
    Run,
    Slot,
    Show,
    Log,
    Make,
    Damage,
    Compare,
    Import,
    Export,
}

/// All commands, in the order in which help has them.
pub const COMMANDS: [Listed; 9] = [
    Listed::Run,
    Listed::Slot,
    Listed::Show,
    Listed::Log,
    Listed::Make,
    Listed::Damage,
    Listed::Compare,
    Listed::Import,
    Listed::Export,
];

impl Listed {
    /// The command of a name, if there is one.
    pub fn named(name: &str) -> Option<Listed>
        ensures name { IfSome result (λ command. name.now ≡ command_name command) }
        ensures none { IfNone result ((command : Listed) → name.now ≡ command_name command → ⊥) }
    {
        match name {
            "run" => Some(Listed::Run),
            "slot" => Some(Listed::Slot),
            "show" => Some(Listed::Show),
            "log" => Some(Listed::Log),
            "make" => Some(Listed::Make),
            "damage" => Some(Listed::Damage),
            "compare" => Some(Listed::Compare),
            "import" => Some(Listed::Import),
            "export" => Some(Listed::Export),
            _ => None,
        }
    }

    /// Its name.
    fn name<'a>(self) -> &'a str
        ensures name { result.now ≡ command_name self }
    {
        match self {
            Listed::Run => "run",
            Listed::Slot => "slot",
            Listed::Show => "show",
            Listed::Log => "log",
            Listed::Make => "make",
            Listed::Damage => "damage",
            Listed::Compare => "compare",
            Listed::Import => "import",
            Listed::Export => "export",
        }
    }

    /// Its line of help.
    fn about<'a>(self) -> &'a str {
        match self {
            Listed::Run => "Repeats a recording of the uplink into the downlink",
            Listed::Slot => "Says what one burst is",
            Listed::Show => "Lists what a file holds",
            Listed::Log => "Lists what a repeater repeats: who calls whom",
            Listed::Make => "Makes a recording of transmissions that are written down",
            Listed::Damage => "Turns bits of a recording, within the limits or at a rate",
            Listed::Compare => "Tells where two files differ",
            Listed::Import => "Makes a file of a run from another format",
            Listed::Export => "Writes a file of a run in another format",
        }
    }
}

/// A command with its line of help and no options, which is all that a program knows of another program's.
pub fn bare_command<'a>(alloc: Global, command: Listed) -> Command<'a> {
    Command::new(alloc, command.name()).about(command.about())
}

/// A command with its line of help, the options that are described so, and what help says behind them.
pub fn whole_command<'a>(
    alloc: Global,
    command: Listed,
    described: &[Described],
    more: &'a str,
) -> Result<Command<'a>, AllocError> {
    with_options(alloc, command.name(), command.about(), described, more)
}

/// The whole command line of a program, with these commands in the order in which help has them.
pub fn command<'a>(alloc: Global, commands: Vec<Command<'a>>) -> Result<Command<'a>, AllocError> {
    Command::new(alloc, "dmrgate")
        .about("A two-slot DMR repeater with an IP data gateway, run on recordings")
        .version(VERSION)
        .subcommand_required(true)
        .bin_name("dmrgate")?
        .subcommands(commands)
}
