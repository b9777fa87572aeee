//! The text that a value prints.
use arrayvec::ArrayString;
use std::fmt::{Display, Write};

/// The text of a line.
pub(crate) type Text = ArrayString<256>;

/// The text that a value prints.
pub(crate) fn text_of<T: Display>(value: &T) -> Text {
    let mut text = Text::new();
    // There is room for every text of this crate, and nothing else makes this fail.
    let _ = write!(text, "{value}");
    text
}
