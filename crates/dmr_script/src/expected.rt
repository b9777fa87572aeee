//! What has to stand in a line.
use crate::keyword::Keyword;
use std::fmt;

/// What has to stand at a place of a line.
#[derive(Clone, Copy, Debug, Drop, PartialEq, Eq)]
pub enum Expected {
    /// This word.
    Word(Keyword),
    /// A decimal number in this range.
    Number {
        /// The least one.
        least: u32,
        /// The greatest one.
        greatest: u32,
    },
    /// An address of 24 bits.
    Address,
    /// So many hexadecimal digits.
    Digits(u32),
    /// Octets as hexadecimal digits, or none.
    Octets,
    /// The data of a datagram: octets, or a text.
    Data,
    /// Data that fits into a datagram.
    ShortData,
    /// The letters of an alias.
    Alias,
    /// An IPv4 address and a port.
    Endpoint,
    /// A link control.
    LinkControl,
    /// What a superframe carries.
    Carried,
    /// A body or a datagram.
    Body,
    /// The rate of a block.
    Rate,
    /// A statement.
    Statement,
    /// A transmission.
    Transmission,
    /// A colon and a shape, or nothing more.
    Shape,
    /// Nothing more.
    End,
}

impl Expected {
    /// How it is told, but for its word or its numbers.
    fn text(self) -> &'static str {
        match self {
            Expected::Word(_) => "a word",
            Expected::Number { .. } => "a number",
            Expected::Address => "an address from 0 to 16777215",
            Expected::Digits(_) => "hexadecimal digits",
            Expected::Octets => "hexadecimal digits in pairs, or '-'",
            Expected::Data => "hexadecimal digits in pairs, '-' or a text in quotes",
            Expected::ShortData => "at most 1372 octets of data",
            Expected::Alias => "a text of at most 27 letters in quotes",
            Expected::Endpoint => "an address and a port, as 12.0.0.1:5016",
            Expected::LinkControl => "a link control",
            Expected::Carried => "'own', 'none', 'alias' or a link control",
            Expected::Body => "'UDP' or 'octets'",
            Expected::Rate => "'1/2', '3/4' or '1'",
            Expected::Statement => "a statement",
            Expected::Transmission => "a transmission",
            Expected::Shape => "':' or the end of the line",
            Expected::End => "the end of the line",
        }
    }
}

impl fmt::Display for Expected {
    fn fmt<W: fmt::Write>(&self, f: &mut fmt::Formatter<W>) -> fmt::Result {
        let text = self.text();
        match *self {
            Expected::Word(word) => write!(f, "'{word}'"),
            Expected::Number { least, greatest } => write!(f, "{text} from {least} to {greatest}"),
            Expected::Digits(count) => write!(f, "{count} {text}"),
            _ => f.write_str(text),
        }
    }
}
