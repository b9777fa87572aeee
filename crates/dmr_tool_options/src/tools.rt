//! The command line of the tools.

use crate::carrying::{EXPORTS, IMPORTS, with_formats};
use crate::comparing::COMPARE;
use crate::damaging::DAMAGE;
use crate::logging::LOG;
use crate::making::MAKE;
use crate::showing::SHOW;
use crate::texts::{ABOUT_COMPARISONS, ABOUT_DAMAGE, ABOUT_LISTINGS, ABOUT_LOGS, ABOUT_SCRIPTS};
use clap::Command;
use dmr_options::{COMMANDS, Listed, bare_command, command, whole_command};
use std::alloc::{AllocError, Global};

/// A command of the tools with its options, or another one by its name alone.
fn listed_command<'a>(alloc: Global, listed: Listed) -> Result<Command<'a>, AllocError> {
    match listed {
        Listed::Run | Listed::Slot => Ok(bare_command(alloc, listed)),
        Listed::Show => whole_command(alloc, listed, &SHOW, ABOUT_LISTINGS),
        Listed::Log => whole_command(alloc, listed, &LOG, ABOUT_LOGS),
        Listed::Make => whole_command(alloc, listed, &MAKE, ABOUT_SCRIPTS),
        Listed::Damage => whole_command(alloc, listed, &DAMAGE, ABOUT_DAMAGE),
        Listed::Compare => whole_command(alloc, listed, &COMPARE, ABOUT_COMPARISONS),
        Listed::Import => with_formats(alloc, listed, &IMPORTS),
        Listed::Export => with_formats(alloc, listed, &EXPORTS),
    }
}

/// The command line of the tools, with every other command by its name alone.
pub fn tool_commands<'a>(alloc: Global) -> Result<Command<'a>, AllocError> {
    let mut commands = Vec::new(alloc);
    for listed in COMMANDS {
        commands.push(listed_command(alloc, listed)?)?;
    }
    command(alloc, commands)
}
