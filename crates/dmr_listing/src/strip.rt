//! A strip: the marks of both slots, frame by frame.
ghost use Rattle.std.specs.Prelude.{◌≡◌, ◌↔◌, ◌≤◌, ◌<◌, ◌==◌, [], length, IfSome, IsSome};
ghost use Rattle.dmr_listing.specs.Strips.{pushed};

use crate::mark::Mark;
use arrayvec::ArrayVec;
use dmr_recording::Place;
use std::fmt;
use std::marker::Model;

/// How many marks a strip has at most: those of both slots of 50 frames.
const MOST_MARKS: usize = 100;

/// What stands in both slots of at most 50 frames that follow one another, which are 3 seconds.
#[derive(Drop)]
pub struct Strip {
    frame: u32,
    /// Of slot 1 and slot 2 in turn.
    marks: ArrayVec<Mark, MOST_MARKS>,
}

// Clauses see the first frame, and the list of the marks.
impl Model for Strip {
    ghost use Rattle.dmr_listing.specs.Strips.{Picture};

    ghost Value = { Picture };

    ghost view = { λ strip. record { frame = strip.frame; marks = strip.marks.items } };
}

impl Strip {
    /// A strip with no marks.
    pub(crate) fn new() -> Strip
        ensures none { result.marks ≡ [] }
    {
        Strip {
            frame: 0,
            marks: ArrayVec::new(),
        }
    }

    /// Whether there are no marks.
    pub(crate) fn is_empty(&self) -> bool
        ensures value { result ≡ (length self.now.marks == 0) }
    {
        self.marks.is_empty()
    }

    /// Whether no further mark has room.
    pub(crate) fn is_full(&self) -> bool
        ensures value { result ≡ (length self.now.marks == 100) }
        ensures most { length self.now.marks ≤ 100 }
    {
        self.marks.is_full()
    }

    /// Adds the mark of the next slot.
    pub(crate) fn push(&mut self, place: Place, mark: Mark)
        requires room { length self.old.marks < 100 }
        ensures value { self.new ≡ pushed place mark self.old }
    {
        self.frame = if self.marks.is_empty() {
            place.frame
        } else {
            self.frame
        };
        self.marks.push(mark);
    }

    /// The line of a slot, 1 or 2, unless no frame of the strip has that slot.
    pub fn line(&self, slot: u8) -> Option<StripLine<'_>>
        ensures line { IfSome result (λ line. (line.strip.now ≡ self.now) × (line.slot ≡ slot)) }
        ensures some { IsSome result ↔ (slot ≤ length self.now.marks) }
    {
        if usize::from(slot) <= self.marks.len() {
            Some(StripLine { strip: self, slot })
        } else {
            None
        }
    }
}

/// The marks of one slot of a strip, as a line.
#[derive(Clone, Copy, Drop)]
pub struct StripLine<'a> {
    strip: &'a Strip,
    slot: u8,
}

impl fmt::Display for StripLine<'_> {
    /// The first frame and the slot in columns, and a letter for each frame.
    fn fmt<W: fmt::Write>(&self, f: &mut fmt::Formatter<W>) -> fmt::Result {
        let StripLine { strip, slot } = *self;
        let frame = strip.frame;
        write!(f, "{frame:>7} {slot}  ")?;
        for (mark, of_slot) in strip
            .marks
            .as_slice()
            .iter()
            .zip([1, 2].into_iter().cycle())
        {
            if of_slot == slot {
                write!(f, "{mark}")?;
            }
        }
        Ok(())
    }
}
