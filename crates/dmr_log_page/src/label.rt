//! The labels above the bars of a picture.
use crate::what::What;
use arrayvec::ArrayString;
use dmr_listing::Way;
use dmr_log::{Ended, EndedBy, Subject, Transmission};
use dmr_log_forms::LogEntry;
use std::fmt;
use std::fmt::Write;

/// What a letter counts, in hundredths of a unit of the picture. This project's own, as are the others.
const LETTER: u64 = 640;

/// What is free at least where a call has a label.
const LEAST: u64 = 2600;

/// Who sends to whom, as a label has it.
#[derive(Clone, Copy, Drop)]
struct WayText(Way);

impl fmt::Display for WayText {
    fn fmt<W: fmt::Write>(&self, f: &mut fmt::Formatter<W>) -> fmt::Result {
        let Way {
            source,
            to_group,
            destination,
        } = self.0;
        let group = if to_group { "TG " } else { "" };
        write!(f, "{source} → {group}{destination}")
    }
}

/// Whether it is a call.
pub(crate) fn is_call(transmission: &Transmission) -> bool {
    matches!(transmission.subject, Subject::Call(_))
}

/// The label of a transmission where there is room: of a call who calls whom, and of others what they are in front of that.
#[derive(Clone, Copy, Drop)]
struct LabelText<'a>(&'a Transmission);

impl fmt::Display for LabelText<'_> {
    fn fmt<W: fmt::Write>(&self, f: &mut fmt::Formatter<W>) -> fmt::Result {
        let ended = Ended {
            transmission: *self.0,
            by: EndedBy::Recording,
        };
        let entry = LogEntry::Transmission {
            slot: 1,
            ended: &ended,
        };
        let columns = entry.columns();
        match (is_call(self.0), columns.way) {
            (true, Some(way)) => write!(f, "{}", WayText(way)),
            (true, None) => write!(f, "call"),
            (false, Some(way)) => write!(f, "{} {}", columns.kind, WayText(way)),
            (false, None) => write!(f, "{}", What::of_entry(&entry)),
        }
    }
}

/// A label and the room that it has, in hundredths of a unit behind the left of its row.
#[derive(Clone, Copy, Drop)]
pub(crate) struct Label<'a> {
    /// What it is of.
    pub(crate) transmission: &'a Transmission,
    /// It goes on from the row before.
    pub(crate) goes_on: bool,
    /// Where it begins.
    pub(crate) left: u64,
    /// Where it has to end.
    pub(crate) right: u64,
}

impl Label<'_> {
    /// How many letters there is room for, with that of one left free behind them.
    fn room(&self) -> u64 {
        (self.right.saturating_sub(self.left) / LETTER).saturating_sub(1)
    }

    /// Its text, whole.
    fn text(&self) -> ArrayString<160> {
        let mut text = ArrayString::new();
        let goes_on = if self.goes_on { "… " } else { "" };
        // There is room for every label, and nothing else makes this fail.
        let _ = write!(text, "{goes_on}{}", LabelText(self.transmission));
        text
    }

    /// The text as the picture has it, if it has it, where the labels in front reach so far. That of a call is cut where there is
    /// no room for it, and left out where there is next to none. Any other is there whole or not at all.
    pub(crate) fn shown(&self, taken: u64) -> Option<ArrayString<160>> {
        let text = self.text();
        let letters = text.as_str().chars().count() as u64;
        let room = self.room();
        if is_call(self.transmission) {
            if self.right.saturating_sub(self.left) < LEAST {
                return None;
            }
            return Some(cut(&text, letters, room));
        }
        if letters > room || self.left < taken {
            return None;
        }
        Some(text)
    }

    /// Where the next label may begin behind this text.
    pub(crate) fn end(&self, text: &ArrayString<160>) -> u64 {
        let letters = text.as_str().chars().count() as u64;
        self.left
            .saturating_add(letters.saturating_add(1).saturating_mul(LETTER))
    }
}

/// A text of so many letters as far as there is room for it, with an ellipsis at its end where there isn't.
fn cut(text: &ArrayString<160>, letters: u64, room: u64) -> ArrayString<160> {
    if letters <= room {
        return *text;
    }
    let mut short = ArrayString::new();
    let kept = room.saturating_sub(1) as usize;
    for letter in text.as_str().chars().take(kept) {
        let _ = short.try_push(letter);
    }
    let _ = short.try_push('…');
    short
}
