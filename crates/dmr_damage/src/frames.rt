//! Frames, damaged in their order.
use crate::line::LimitedSlot;
use crate::rate::slot_at_rate;
use crate::settings::{Damage, DamageSettings};
use rand_pcg::Pcg32;

/// A frame of a recording: slot 1 and slot 2.
pub(crate) type Frame = [Option<[u8; 33]>; 2];

/// What past the end of a recording is.
pub(crate) const SILENCE: Frame = [None, None];

/// How many frames a line looks ahead.
const AHEAD: u8 = 5;

/// A frame that was damaged.
#[derive(Drop)]
pub struct DamagedFrame {
    /// As it was read.
    pub was: Frame,
    /// As it is written.
    pub is: Frame,
}

/// Both slots of a recording, damaged within the limits.
#[derive(Drop)]
pub struct LimitedSlots {
    first: LimitedSlot,
    second: LimitedSlot,
    /// How many frames wait to be decided.
    waiting: u8,
}

impl LimitedSlots {
    ghost use Rattle.std.specs.Prelude.{◌≡◌, ◌++◌, ◌∷◌, [], ℕ, List, length, slice_index_or, IfNone, IfSome};
    ghost use Rattle.dmr_record.specs.Uplink.{IsFrame, UplinkSlots};
    ghost use Rattle.dmr_damage.specs.Frames.{AreLinesBehind};

    /// Takes a frame, and answers the frame that is decided then, where five wait behind it.
    fn take(&mut self, frame: &Frame) -> Option<DamagedFrame>
        ensures waits { IfNone result ((colour : ℕ) (frames outs : List UplinkSlots) → AreLinesBehind colour self.old frames outs
            → AreLinesBehind colour self.new (frames ++ frame.now ∷ []) outs) }
        ensures decided { IfSome result (λ pair. (colour : ℕ) (frames outs : List UplinkSlots)
            → AreLinesBehind colour self.old frames outs
            → AreLinesBehind colour self.new (frames ++ frame.now ∷ []) (outs ++ pair.is ∷ [])
            × (pair.was ≡ slice_index_or (frames ++ frame.now ∷ []) (length outs) [])) }
        ensures frame { IfSome result (λ pair. IsFrame pair.is) }
    {
        self.first.take(frame[0]);
        self.second.take(frame[1]);
        if self.waiting < AHEAD {
            self.waiting += 1;
            return None;
        }
        let was = [self.first.oldest(), self.second.oldest()];
        let is = [self.first.decide(), self.second.decide()];
        Some(DamagedFrame { was, is })
    }
}

/// What damages frames.
#[derive(Drop)]
pub enum Damager {
    /// Within the limits.
    Limits(LimitedSlots),
    /// At a rate, with a generator for each slot.
    Rate {
        errors: u16,
        loss: u16,
        first: Pcg32,
        second: Pcg32,
    },
}

impl Damager {
    ghost use Rattle.std.specs.Prelude.{◌≡◌, ◌++◌, ◌∷◌, [], List, length, slice_index_or, IfNone, IfSome};
    ghost use Rattle.dmr_record.specs.Uplink.{IsFrame, UplinkSlots};
    ghost use Rattle.dmr_damage.specs.Frames.{WasGiven, rest_of};
    ghost use Rattle.dmr_damage.specs.declared.settings.Damage as declared;

    /// By these settings, before the first frame.
    pub(crate) fn new(settings: &DamageSettings) -> Damager
        ensures fresh { WasGiven settings.now.damage result [] [] }
    {
        let seed = settings.seed();
        match settings.damage() {
            Damage::WithinLimits { colour } => Damager::Limits(LimitedSlots {
                first: LimitedSlot::new(colour, seed, 0),
                second: LimitedSlot::new(colour, seed, 1),
                waiting: 0,
            }),
            Damage::AtRate { errors, loss } => Damager::Rate {
                errors,
                loss,
                first: Pcg32::new(seed, 0),
                second: Pcg32::new(seed, 1),
            },
        }
    }

    /// Takes a frame, and answers the frame that is decided then, where one is.
    pub(crate) fn take(&mut self, frame: &Frame) -> Option<DamagedFrame>
        ensures waits { IfNone result ((damage : declared.Damage) (frames outs : List UplinkSlots)
            → WasGiven damage self.old frames outs → WasGiven damage self.new (frames ++ frame.now ∷ []) outs) }
        ensures decided { IfSome result (λ pair. (damage : declared.Damage) (frames outs : List UplinkSlots)
            → WasGiven damage self.old frames outs
            → WasGiven damage self.new (frames ++ frame.now ∷ []) (outs ++ pair.is ∷ [])
            × (pair.was ≡ slice_index_or (frames ++ frame.now ∷ []) (length outs) [])) }
        ensures frame { IfSome result (λ pair. IsFrame pair.is) }
        ensures rest { rest_of self.new ≡ rest_of self.old }
    {
        match self {
            Damager::Limits(lines) => lines.take(frame),
            Damager::Rate {
                errors,
                loss,
                first,
                second,
            } => Some(DamagedFrame {
                was: *frame,
                is: [
                    slot_at_rate(&frame[0], *errors, *loss, first),
                    slot_at_rate(&frame[1], *errors, *loss, second),
                ],
            }),
        }
    }

    /// How many silent frames it takes until all are decided.
    pub(crate) fn rest(&self) -> u8
        ensures value { result ≡ rest_of self.now }
    {
        match self {
            Damager::Limits(_) => AHEAD,
            Damager::Rate { .. } => 0,
        }
    }
}
