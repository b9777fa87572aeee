//! One slot of a recording, damaged within the limits.
ghost use Rattle.std.specs.Prelude.{◌≡◌, ◌++◌, ◌∷◌, [], ℕ, List, Option, Some, None, drop, length, slice_index_or};
ghost use Rattle.dmr_hearing.specs.Fit.{IsFitHeard};
ghost use Rattle.dmr_hearing.specs.Hearing.{Hears};
ghost use Rattle.dmr_hearing.specs.declared.heard.Heard as declared;
ghost use Rattle.dmr_damage.specs.Bursts.{IsDamagedSlot};
ghost use Rattle.dmr_damage.specs.Fitting.{IsFitCarried};
ghost use Rattle.dmr_damage.specs.LimitedSlots.{AreFieldsBehind, AreFieldsBehindA};
ghost use Rattle.dmr_damage.specs.LimitedSlots as spec;
ghost use Rattle.dmr_link.specs.FullLc.{FitsFullLc};
ghost use Rattle.dmr_damage.specs.Marks as marks;

use crate::burst::damaged_burst;
use crate::mark::mark_of;
use crate::superframe::{carried_behind, turned_fields};
use dmr_burst::Burst;
use dmr_hearing::{Heard, hear, silence};
use dmr_link::FullLc;
use dmr_voice::{VoiceOut, VoiceTrack};
use rand_pcg::Pcg32;
use std::marker::Model;

/// The places of a line that are in hand: the one to be decided next, and those that it looks ahead at.
pub(crate) const PLACES: usize = 6;

/// One slot of a recording, place by place.
#[derive(Drop)]
pub struct LimitedSlot {
    colour: u8,
    track: VoiceTrack,
    rng: Pcg32,
    /// What the embedded fields of the next four places are written as, where they are damaged.
    fields: [Option<u32>; 4],
    /// The six places that came last, oldest first, and what each is heard as.
    slots: [Option<[u8; 33]>; PLACES],
    heard: [Heard; PLACES],
}

// Clauses see the colour code, what is remembered, and the six places. What is heard is what they are heard as.
impl Model for LimitedSlot {
    ghost use Rattle.std.specs.Prelude.{◌≡◌, ◌<◌, All, length};
    ghost use Rattle.dmr_hearing.specs.Fit.{IsFitHeard};
    ghost use Rattle.dmr_hearing.specs.Recorded.{AreHeard};
    ghost use Rattle.dmr_damage.specs.LimitedSlots.{LineState};

    ghost Value = { LineState };

    ghost view = { λ l. record {
      colour = l.colour;
      memory = record { state = l.track.state; fields = l.fields };
      slots = l.slots;
    } };

    ghost invariant = { λ l. (l.colour < 16) × (l.track.colour ≡ l.colour) × AreHeard l.colour l.slots l.heard
        × All IsFitHeard l.heard };
}

/// A window that is moved on by one.
fn moved<T: Copy>(window: &[T; PLACES], next: T) -> [T; PLACES]
    ensures moved { result ≡ drop 1 window.now ++ next ∷ [] }
{
    let [_, second, third, fourth, fifth, sixth] = *window;
    [second, third, fourth, fifth, sixth, next]
}

/// What a slot is heard as.
fn heard_in(slot: &Option<[u8; 33]>, colour: u8) -> Heard
    ensures heard { Hears colour slot.now result }
    ensures fit { IsFitHeard result }
{
    hear(slot.as_ref(), colour)
}

/// What the first of six places is heard as.
fn first_heard(window: &[Heard; PLACES]) -> Heard
    ensures first { (other : declared.Heard) → slice_index_or window.now 0 other ≡ result }
{
    window[0]
}

/// The first of six places.
fn first_slot(window: &[Option<[u8; 33]>; PLACES]) -> Option<[u8; 33]>
    ensures first { result ≡ slice_index_or window.now 0 None }
    ensures six { length window.now ≡ 6 }
{
    window[0]
}

/// What the next four fields are written as, a place later.
fn moved_on(fields: &[Option<u32>; 4]) -> [Option<u32>; 4]
    ensures moved { result ≡ spec.moved_on fields.now }
{
    let [_, second, third, fourth] = *fields;
    [second, third, fourth, None]
}

/// The four fields that carry a link control, with wrong bits.
fn fields_carrying(link_control: &FullLc, rng: &mut Pcg32) -> [Option<u32>; 4]
    requires fit { FitsFullLc link_control.now }
    ensures fields { (before : List (Option ℕ)) → AreFieldsBehindA (Some link_control.now) before result }
{
    let [b, c, d, e] = turned_fields(link_control, rng);
    [Some(b), Some(c), Some(d), Some(e)]
}

/// What the next four fields are written as, behind a place A.
fn fields_behind_a(
    carried: Option<FullLc>,
    before: &[Option<u32>; 4],
    rng: &mut Pcg32,
) -> [Option<u32>; 4]
    requires fit { IsFitCarried carried }
    ensures fields { AreFieldsBehindA carried before.now result }
{
    match carried {
        Some(link_control) => fields_carrying(&link_control, rng),
        None => moved_on(before),
    }
}

/// What the next four fields are written as, behind a place for which this is repeated.
fn fields_behind(
    said: &VoiceOut,
    carried: Option<FullLc>,
    before: &[Option<u32>; 4],
    rng: &mut Pcg32,
) -> [Option<u32>; 4]
    requires fit { IsFitCarried carried }
    ensures fields { AreFieldsBehind said.now carried before.now result }
{
    match said {
        VoiceOut::Repeat {
            burst: Burst::VoiceSync { .. },
            ..
        } => fields_behind_a(carried, before, rng),
        _ => moved_on(before),
    }
}

/// What a slot is written as that is heard so, where this is repeated for it.
fn damaged_slot(
    colour: u8,
    heard: &Heard,
    said: &VoiceOut,
    field: Option<u32>,
    slot: &Option<[u8; 33]>,
    rng: &mut Pcg32,
) -> Option<[u8; 33]>
    requires heard { Hears colour slot.now heard.now }
    ensures damaged { IsDamagedSlot colour (marks.burst_mark colour heard.now said.now) field slot.now result }
{
    match slot {
        None => None,
        Some(burst) => {
            let mark = mark_of(colour, heard, said);
            Some(damaged_burst(colour, &mark, field, burst, rng))
        }
    }
}

impl LimitedSlot {
    ghost use Rattle.std.specs.Prelude.{◌≡◌, ◌<◌, ◌++◌, ◌∷◌, [], None, drop, replicate, slice_index_or};
    ghost use Rattle.dmr_damage.specs.LimitedSlots.{IsDecided, fresh_memory};

    /// A line of this colour code on which nothing came; `number` is 0 of slot 1, and 1 of slot 2.
    pub(crate) fn new(colour: u8, seed: u64, number: u64) -> LimitedSlot
        requires colour { colour < 16 }
        ensures fresh { result ≡ record { colour = colour; memory = fresh_memory; slots = replicate 6 None } }
    {
        LimitedSlot {
            colour,
            track: VoiceTrack::new(colour),
            rng: Pcg32::new(seed, number),
            fields: [None; 4],
            slots: [None; PLACES],
            heard: [silence(); PLACES],
        }
    }

    /// Takes a slot.
    pub(crate) fn take(&mut self, slot: Option<[u8; 33]>)
        ensures taken { self.new ≡ record self.old { slots = drop 1 self.old.slots ++ slot ∷ [] } }
    {
        let heard = heard_in(&slot, self.colour);
        self.heard = moved(&self.heard, heard);
        self.slots = moved(&self.slots, slot);
    }

    /// The oldest slot.
    pub(crate) fn oldest(&self) -> Option<[u8; 33]>
        ensures oldest { result ≡ slice_index_or self.now.slots 0 None }
    {
        first_slot(&self.slots)
    }

    /// Decides the oldest slot, and answers what it is written as.
    pub(crate) fn decide(&mut self) -> Option<[u8; 33]>
        ensures decided { IsDecided self.old.colour self.old.memory (slice_index_or self.old.slots 0 None) (drop 1 self.old.slots)
            result self.new.memory }
        ensures colour { self.new.colour ≡ self.old.colour }
        ensures slots { self.new.slots ≡ self.old.slots }
    {
        let slot = first_slot(&self.slots);
        let here = first_heard(&self.heard);
        let carried = carried_behind(self.colour, &self.heard);
        let said = self.track.step(&self.heard);
        let damaged = damaged_slot(
            self.colour,
            &here,
            &said,
            self.fields[0],
            &slot,
            &mut self.rng,
        );
        self.fields = fields_behind(&said, carried, &self.fields, &mut self.rng);
        damaged
    }
}
