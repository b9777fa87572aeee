//! A name that came from a command line, as it is told.
use std::fmt::{self, Write};

/// A name as it is told in a line: with a question mark for each control character, so that a terminal shows it and does nothing
/// else, and the line is one.
#[derive(Clone, Copy)]
pub struct ToldName<'a>(pub &'a str);

impl fmt::Display for ToldName<'_> {
    fn fmt<W: fmt::Write>(&self, f: &mut fmt::Formatter<W>) -> fmt::Result {
        for letter in self.0.chars() {
            f.write_char(if letter.is_control() { '?' } else { letter })?;
        }
        Ok(())
    }
}
