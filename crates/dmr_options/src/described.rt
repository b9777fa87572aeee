//! What an option is described by, and the options that are made of that.

use clap::builder::ValueParser;
use clap::{Arg, ArgAction, Command, value_parser};
use std::alloc::{AllocError, Global};

/// A kind of number, with the least and the greatest that are taken.
#[derive(Clone, Copy, Drop)]
pub enum Numbers {
    U8(u8, u8),
    U16(u16, u16),
    U32(u32, u32),
    I32(i32, i32),
    /// Any number of 64 bits.
    U64,
}

/// What an option takes.
#[derive(Clone, Copy, Drop)]
pub enum Takes {
    /// Nothing: it is given or it isn't.
    Nothing,
    /// A text.
    Text,
    /// A number.
    Number(Numbers),
    /// One of these words, each time it is given.
    OneOf(&'static [&'static str]),
}

/// An option of a command, or a word of it that has no option in front.
#[derive(Clone, Copy, Drop)]
pub struct Described {
    /// What it is found by. An option has it behind two dashes.
    pub name: &'static str,
    /// Whether no option stands in front of it.
    pub is_word: bool,
    /// What help calls what it takes.
    pub value: &'static str,
    /// What help says of it.
    pub help: &'static str,
    pub takes: Takes,
    pub is_required: bool,
    /// What it is where it is left out.
    pub default: Option<&'static str>,
    /// Its other spellings.
    pub aliases: &'static [&'static str],
    /// The options beside which it is refused.
    pub conflicts: &'static [&'static str],
}

/// An option that takes a text.
pub const TEXT: Described = Described {
    name: "",
    is_word: false,
    value: "TEXT",
    help: "",
    takes: Takes::Text,
    is_required: false,
    default: None,
    aliases: &[],
    conflicts: &[],
};

/// An option that takes the path of a file.
pub const FILE: Described = Described {
    value: "FILE",
    ..TEXT
};

/// A word that has no option in front of it, and is required.
pub const WORD: Described = Described {
    is_word: true,
    is_required: true,
    ..TEXT
};

/// An option that takes nothing.
pub const FLAG: Described = Described {
    takes: Takes::Nothing,
    ..TEXT
};

/// An option that takes a number.
pub const NUMBER: Described = Described {
    value: "N",
    takes: Takes::Number(Numbers::U64),
    ..TEXT
};

/// An option that takes the number of a frame.
pub const FRAME: Described = Described {
    value: "FRAME",
    takes: Takes::Number(Numbers::U32(0, u32::MAX)),
    ..TEXT
};

/// The colour code, in either spelling.
pub const COLOUR: Described = Described {
    name: "colour",
    help: "The colour code, 0 to 15",
    takes: Takes::Number(Numbers::U8(0, 15)),
    default: Some("1"),
    aliases: &["color"],
    ..NUMBER
};

/// What reads a number of this kind.
fn number_parser<'a>(numbers: Numbers) -> ValueParser<'a> {
    match numbers {
        Numbers::U8(least, greatest) => {
            value_parser!(u8).range(i64::from(least)..=i64::from(greatest))
        }
        Numbers::U16(least, greatest) => {
            value_parser!(u16).range(i64::from(least)..=i64::from(greatest))
        }
        Numbers::U32(least, greatest) => {
            value_parser!(u32).range(i64::from(least)..=i64::from(greatest))
        }
        Numbers::I32(least, greatest) => {
            value_parser!(i32).range(i64::from(least)..=i64::from(greatest))
        }
        Numbers::U64 => value_parser!(u64),
    }
}

impl Takes {
    /// What is done where it is given.
    fn action(self) -> ArgAction {
        match self {
            Takes::Nothing => ArgAction::SetTrue,
            Takes::Text | Takes::Number(_) => ArgAction::Set,
            Takes::OneOf(_) => ArgAction::Append,
        }
    }

    /// What reads what is given, where that isn't any text.
    fn parser<'a>(self) -> Option<ValueParser<'a>> {
        match self {
            Takes::Nothing | Takes::Text => None,
            Takes::Number(numbers) => Some(number_parser(numbers)),
            Takes::OneOf(words) => Some(words.into()),
        }
    }

    /// Whether it may begin with a dash, as an option does.
    fn may_have_sign(self) -> bool {
        match self {
            Takes::Number(Numbers::I32(_, _)) => true,
            _ => false,
        }
    }
}

/// An option with what stands in front of it and what it takes, where it has these.
fn shown<'a>(option: Arg<'a>, described: &Described) -> Arg<'a> {
    if described.is_word {
        return option.value_name(described.value);
    }
    match described.takes {
        Takes::Nothing => option.long(described.name),
        _ => option.long(described.name).value_name(described.value),
    }
}

/// The option that is described so.
fn option<'a>(alloc: Global, described: &Described) -> Result<Arg<'a>, AllocError> {
    let option = Arg::new(alloc, described.name)
        .help(described.help)
        .required(described.is_required)
        .action(described.takes.action())
        .allow_negative_numbers(described.takes.may_have_sign())
        .hide_possible_values(true);
    let option = shown(option, described);
    let option = match described.takes.parser() {
        Some(parser) => option.value_parser(parser),
        None => option,
    };
    let option = match described.default {
        Some(text) => option.default_value(text),
        None => option,
    };
    option
        .conflicts_with_all(described.conflicts)?
        .aliases(described.aliases)
}

/// The options that are described so.
fn options<'a>(alloc: Global, described: &[Described]) -> Result<Vec<Arg<'a>>, AllocError> {
    let mut options = Vec::new(alloc);
    for one in described {
        options.push(option(alloc, one)?)?;
    }
    Ok(options)
}

/// A command of this name: with its line of help, the options that are described so, and what help says behind them.
pub fn with_options<'a>(
    alloc: Global,
    name: &'a str,
    about: &'a str,
    described: &[Described],
    more: &'a str,
) -> Result<Command<'a>, AllocError> {
    let options = options(alloc, described)?;
    Command::new(alloc, name)
        .about(about)
        .after_help(more)
        .args(options)
}
