//! The places that were heard last.
ghost use Rattle.std.specs.Prelude.{◌≡◌, ◌≤◌, IfOk, drop, option_copied, replicate, take};
ghost use Rattle.dmr_hearing.specs.Slots as spec;
ghost use Rattle.dmr_hearing.specs.declared.heard.Heard.{Heard};
ghost use Rattle.dmr_slot.specs.LineRules.{HearsOne, moved};

use dmr_voice::{Heard, hear_into, silence};
use std::alloc::{AllocError, Global};
use std::marker::Model;

/// How many places a window has, which is how many frames a burst waits before it goes out.
pub(crate) const DELAY: usize = 6;

/// For how many places there is room: the window slides over them, so that few have to be moved.
const ROOM: usize = 36;

/// The six places that were heard last, oldest first.
#[derive(Drop)]
pub struct Window {
    places: Box<[Heard; ROOM]>,
    from: usize,
}

// Clauses see the six places.
impl Model for Window {
    ghost use Rattle.std.specs.Prelude.{◌≤◌, List, drop, take};
    ghost use Rattle.dmr_hearing.specs.declared.heard.Heard.{Heard};

    ghost Value = { List Heard };

    ghost view = { λ w. take 6 (drop w.from w.places.value) };

    ghost invariant = { λ w. w.from ≤ 30 };
}

impl Window {
    /// Six silent places. Memory is taken here alone.
    pub(crate) fn new(alloc: Global) -> Result<Window, AllocError>
        ensures silent { IfOk result (λ window. window ≡ replicate 6 spec.silence) }
    {
        Ok(Window {
            places: Box::new(alloc, [silence(); ROOM])?,
            from: 0,
        })
    }

    /// Moves on by a place, in which a repeater of this colour code hears this slot.
    pub(crate) fn hear(&mut self, slot: Option<&[u8; 33]>, colour: u8)
        ensures heard { HearsOne colour self.old (option_copied slot.entry) self.new }
    {
        self.from = hear_next(&mut self.places, self.from, slot, colour);
    }

    /// The six places.
    pub(crate) fn places(&self) -> &[Heard; DELAY]
        ensures value { result.now ≡ self.now }
    {
        let all = &self.places[..];
        <&[Heard; DELAY]>::try_from(&all[self.from..self.from + DELAY]).unwrap()
    }
}

/// Slides the window that begins at a place on by one, in which this slot is heard, and answers where it begins then.
fn hear_next(places: &mut [Heard; ROOM], from: usize, slot: Option<&[u8; 33]>, colour: u8) -> usize
    requires inside { from ≤ 30 }
    ensures heard { HearsOne colour (take 6 (drop from places.old)) (option_copied slot.entry) (take 6 (drop result places.new)) }
    ensures inside { result ≤ 30 }
{
    if from + DELAY < ROOM {
        hear_into(slot, colour, &mut places[from + DELAY]);
        return from + 1;
    }
    // What stays of the window goes to the front.
    places.copy_within(ROOM - DELAY + 1..ROOM, 0);
    hear_into(slot, colour, &mut places[DELAY - 1]);
    0
}
