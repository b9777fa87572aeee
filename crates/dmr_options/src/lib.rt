//! The command line of `dmrgate`: its commands, the options of `run` and `slot`, and what its programs share of reading words.
//!
//! `dmrgate` is several programs behind one command, so that whoever needs one waits for none of the others. Each program knows
//! every command, with a line of help (`Listed`, `bare_command`), and has the options of its own commands alone. An option is
//! described by a row (`Described`): its name, what it takes and what help says of it. `whole_command` and `with_options` make a
//! command with the options of such rows, and `command` a command line of commands, for the command line parser.
//! `repeating_commands` is that of the program that repeats.
//!
//! `words_of` gives the words that a program was started with. `text_of`, `given_text_of`, `is_text_of` and `flag_of` tell what was
//! given for an option, by `specs/Found.antt`. Where nothing is to be done, three calls print why, and answer the exit status:
//! `print_answer` prints help, the version or a mistake, `print_elsewhere` that another program has the command, and
//! `print_no_words` that there are no words. Behind all that is done, `print_unwritten` tells where standard output can't be
//! written. Of the texts of help nothing is promised, and tests compare them.
//!
//! Rows are plain values. A function that makes the parser's own options holds each while the next wants memory, and a proof goes
//! through each such way: so one function does it for all.
#![tactic(auto)]

mod answer;
mod commands;
mod described;
mod found;
mod repeating;
mod texts;
mod words;

pub use answer::{print_answer, print_elsewhere, print_unwritten};
pub use commands::{COMMANDS, Listed, bare_command, command, whole_command};
pub use described::{
    COLOUR, Described, FILE, FLAG, FRAME, NUMBER, Numbers, TEXT, Takes, WORD, with_options,
};
pub use found::{flag_of, given_text_of, is_text_of, text_of};
pub use repeating::repeating_commands;
pub use words::{print_no_words, words_of};
