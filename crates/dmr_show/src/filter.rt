//! Which lines are shown.
ghost use Rattle.std.specs.Prelude.{◌≡◌, ◌↔◌, ◌-◌, ◌^◌, IsTrue, unwrap_or};
ghost use Rattle.dmr_show.specs.Filter.{IsInSlot, Passes, is_in_slot, lets_pass};
ghost use Rattle.dmr_show.specs.Printed.{frames_of};

use dmr_listing::Frames;
use dmr_recording::Place;

/// Which bursts and records have a line: each part that is left out asks for all.
#[derive(Clone, Copy, Debug, Drop, PartialEq, Eq)]
pub struct Filter {
    /// Those of this slot.
    pub slot: Option<u8>,
    /// Those of this frame, and later ones.
    pub from: Option<u32>,
    /// Those of this frame, and earlier ones.
    pub to: Option<u32>,
}

impl Filter {
    /// Whether what stands in a slot has a line, in some frame.
    pub(crate) fn has_slot(&self, number: u8) -> bool
        ensures has { IsTrue result ↔ IsInSlot self.now number }
        ensures value { result ≡ is_in_slot self.now number }
    {
        match self.slot {
            Some(slot) => number == slot,
            None => true,
        }
    }

    /// Whether what stands in a place has a line.
    pub fn passes(&self, place: Place) -> bool
        ensures passes { IsTrue result ↔ Passes self.now place }
        ensures value { result ≡ lets_pass self.now place }
    {
        let is_in_slot = match self.slot {
            Some(slot) => place.slot == slot,
            None => true,
        };
        let is_begun = match self.from {
            Some(from) => from <= place.frame,
            None => true,
        };
        let is_before_end = match self.to {
            Some(to) => place.frame <= to,
            None => true,
        };
        is_in_slot && is_begun && is_before_end
    }

    /// The frames that have a line.
    pub(crate) fn frames(&self) -> Frames
        ensures first { result.first ≡ unwrap_or self.now.from 0 }
        ensures last { result.last ≡ unwrap_or self.now.to (2 ^ 32 - 1) }
        ensures value { result ≡ frames_of self.now }
    {
        Frames {
            first: self.from.unwrap_or(0),
            last: self.to.unwrap_or(u32::MAX),
        }
    }
}
