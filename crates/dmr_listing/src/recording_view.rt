//! The lines of a recording, slot by slot.
ghost use Rattle.std.specs.Prelude.{◌≡◌, ◌+◌, ◌-◌, ◌^◌, ◌<◌};
ghost use Rattle.dmr_listing.specs.ListingRules.{IsLineAt, begun, turn_after, turn_passed};
ghost use Rattle.dmr_listing.specs.Strips.{IsMarkAt};

use crate::burst_line::BurstLine;
use crate::mark::Mark;
use crate::slot_view::SlotView;
use crate::summary::BurstCounts;
use dmr_recording::{Place, RecordedBurst};
use std::marker::Model;
use std::mem;

/// What the lines of a recording need of the slots before: how many there were, what is kept of both slots of a frame, and what was
/// counted. Slots come in the order of the file: slot 1 and slot 2 of the first frame, and so on.
#[derive(Drop)]
pub struct RecordingView {
    slots: u32,
    next: SlotView,
    other: SlotView,
    bursts: BurstCounts,
}

// Clauses see all four.
impl Model for RecordingView {
    ghost use Rattle.dmr_listing.specs.ListingRules.{ListingTurn};

    ghost Value = { ListingTurn };

    ghost view = { λ view. record { slots = view.slots; next = view.next; other = view.other; bursts = view.bursts } };
}

impl RecordingView {
    /// A recording of which nothing was read.
    pub fn new() -> RecordingView
        ensures value { result ≡ begun }
    {
        RecordingView {
            slots: 0,
            next: SlotView::new(),
            other: SlotView::new(),
            bursts: BurstCounts::default(),
        }
    }

    /// How many slots there were.
    pub fn slots(&self) -> u32
        ensures value { result ≡ self.now.slots }
    {
        self.slots
    }

    /// What was counted in them.
    pub(crate) fn bursts(&self) -> BurstCounts
        ensures value { result ≡ self.now.bursts }
    {
        self.bursts
    }

    /// Goes on to the next slot.
    fn turn(&mut self)
        requires room { self.old.slots < 2 ^ 32 - 1 }
        ensures turn { self.new ≡ record {
          slots = self.old.slots + 1;
          next = self.old.other;
          other = self.old.next;
          bursts = self.old.bursts;
        } }
    {
        self.slots += 1;
        mem::swap(&mut self.next, &mut self.other);
    }

    /// The next slot is silent, and has no line.
    pub fn pass(&mut self)
        requires room { self.old.slots < 2 ^ 32 - 1 }
        ensures turn { self.new ≡ turn_passed self.old }
    {
        self.next.pass();
        self.turn();
    }

    /// The line of the burst that the next slot has.
    pub fn line(&mut self, burst: &RecordedBurst) -> BurstLine
        requires room { self.old.slots < 2 ^ 32 - 1 }
        ensures line { IsLineAt self.old burst.now result }
        ensures turn { self.new ≡ turn_after result burst.now self.old }
    {
        let place = Place::of_slot(self.slots);
        let line = self.next.line(place, burst.cach, &burst.burst);
        self.bursts = self.bursts.with(&line);
        self.turn();
        line
    }

    /// The mark of the next slot, whatever it has.
    pub(crate) fn mark(&mut self, slot: &Option<RecordedBurst>) -> Mark
        requires room { self.old.slots < 2 ^ 32 - 1 }
        ensures mark { IsMarkAt self.old slot.now result self.new }
    {
        match slot {
            None => {
                self.pass();
                Mark::Silence
            }
            Some(burst) => Mark::of_line(&self.line(burst)),
        }
    }
}
