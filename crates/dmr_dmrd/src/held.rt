//! What is held of a slot.
ghost use Rattle.std.specs.Prelude.{◌≡◌, ◌+◌, ◌-◌, ◌≤◌, ◌<◌, ◌^◌, ◌++◌, ◌∷◌, [], ℕ, Some, None, length, replicate};
ghost use Rattle.std.specs.Prelude.{IfErr, OnOk};

use crate::packet::HotspotPacket;
use crate::placing::{SlotPlaces, Start, asked_behind};
use dmr_record::FRAME_LIMIT;
use std::alloc::{AllocError, Global};
use std::marker::Model;

/// Why a packet couldn't be held.
#[derive(Clone, Copy, Debug, Drop, PartialEq, Eq)]
pub(crate) enum Refused {
    /// It asks for a frame past those that a recording may have.
    Past,
    /// There is no memory for it.
    Memory,
}

/// What is held of a slot: what is remembered of the packets that were placed, and a burst or silence for each of its frames.
#[derive(Drop)]
pub(crate) struct SlotHeld {
    places: SlotPlaces,
    line: Vec<Option<[u8; 33]>>,
}

// Clauses see both.
impl Model for SlotHeld {
    ghost use Rattle.dmr_dmrd.specs.Lines.{HeldSlot};

    ghost Value = { HeldSlot };

    ghost view = { λ s. record { places = s.places; line = s.line.items } };
}

/// Makes a line silent up to a frame, which is none before its end.
#[tactic(auto, using(crate::proofs::Lines::silent_more))]
fn fill_up(line: &mut Vec<Option<[u8; 33]>>, frame: usize) -> Result<(), AllocError>
    requires behind { length line.old.items ≤ frame }
    ensures silent { OnOk result (line.new.items ≡ line.old.items ++ replicate (frame - length line.old.items) None) }
{
    while line.len() < frame {
        line.push(None)?;
    }
    Ok(())
}

/// Puts a burst into a frame of a line, which is none before its end.
fn put_burst(
    line: &mut Vec<Option<[u8; 33]>>,
    frame: usize,
    burst: [u8; 33],
) -> Result<(), AllocError>
    requires behind { length line.old.items ≤ frame }
    ensures line { OnOk result (line.new.items
        ≡ (line.old.items ++ replicate (frame - length line.old.items) None) ++ Some burst ∷ []) }
{
    fill_up(line, frame)?;
    line.push(Some(burst))?;
    Ok(())
}

impl SlotHeld {
    ghost use Rattle.dmr_dmrd.specs.Lines.{IsSlotHeld, no_slot, slot_behind};
    ghost use Rattle.dmr_dmrd.specs.Placing.{frame_asked};
    ghost use Rattle.dmr_dmrd.specs.Placing as spec;
    ghost use Rattle.dmr_dmrd.specs.Refusals.{IfPastLimit};

    /// In front of a recording.
    pub(crate) fn none(alloc: Global) -> SlotHeld
        ensures value { result ≡ no_slot }
    {
        SlotHeld {
            places: SlotPlaces::none(),
            line: Vec::new(alloc),
        }
    }

    /// What is remembered of its packets.
    pub(crate) fn places(&self) -> SlotPlaces
        ensures value { result ≡ self.now.places }
    {
        self.places
    }

    /// Its bursts and silences, frame by frame.
    pub(crate) fn line(&self) -> &[Option<[u8; 33]>]
        ensures value { result.now ≡ self.now.line }
    {
        self.line.as_slice()
    }

    /// Takes a packet that came at this time, with the burst that is held of it. At an `Err` the slot may hold anything.
    pub(crate) fn take(
        &mut self,
        start: Start,
        packet: &HotspotPacket,
        time: u128,
        burst: [u8; 33],
    ) -> Result<(), Refused>
        requires held { IsSlotHeld self.old }
        requires late { self.old.places.late < 2 ^ 63 }
        ensures taken { OnOk result (self.new ≡ slot_behind self.old packet.now time burst
            (spec.asked_behind self.old.places.last start packet.now time)) }
        ensures held { OnOk result (IsSlotHeld self.new) }
        ensures late { OnOk result (self.new.places.late ≤ self.old.places.late + 1) }
        ensures past { IfErr result (λ e. IfPastLimit e ((frame : ℕ) × (1048576 ≤ frame)
            × (frame_asked (spec.asked_behind self.old.places.last start packet.now time) ≡ Some frame))) }
    {
        let asked = asked_behind(&self.places.last, start, packet, time);
        let Some(frame) = asked.frame() else {
            self.places = self.places.with_late();
            return Ok(());
        };
        if frame >= u128::from(FRAME_LIMIT) {
            return Err(Refused::Past);
        }
        let frame = frame as u32;
        if put_burst(&mut self.line, frame as usize, burst).is_err() {
            return Err(Refused::Memory);
        }
        self.places = self.places.with(packet, time, asked, frame);
        Ok(())
    }
}
