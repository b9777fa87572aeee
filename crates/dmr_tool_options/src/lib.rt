//! The options of the tools, with the texts of help. The tools are the program that has every command of `dmrgate` but those that
//! repeat: `show`, `log`, `make`, `damage`, `compare`, `import` and `export`. The last two have a command of their own for each
//! format.
//!
//! `tool_commands` makes their command line for the command line parser, with every other command by its name (`dmr_options`). Of
//! the texts nothing is promised, and tests compare them.
#![tactic(auto)]

mod carrying;
mod comparing;
mod damaging;
mod hotspot;
mod logging;
mod making;
mod showing;
mod texts;
mod tools;

pub use tools::tool_commands;
