//! What damaging a recording did.
ghost use Rattle.std.specs.Prelude.{◌≡◌, ◌*◌, ◌+◌, ◌<◌, ◌≤◌, Some};
ghost use Rattle.dmr_bits.specs.Bits.{bits_of_octets, distance};
ghost use Rattle.dmr_damage.specs.CountTexts.{damaged_text};

use dmr_bits::Bits;
use std::fmt;

/// How much of a recording was damaged.
#[derive(Clone, Copy, Debug, PartialEq, Eq, Drop)]
pub struct Damaged {
    /// The frames of the recording.
    pub frames: u32,
    /// The slots in which a burst was.
    pub bursts: u32,
    /// The bursts of which bits were turned.
    pub changed: u32,
    /// The bursts that were left out.
    pub silenced: u32,
    /// The bits that were turned.
    pub bits: u32,
}

impl fmt::Display for Damaged {
    ghost output = { λ damaged. Some (damaged_text damaged) };

    /// `frames 40 bursts 21 changed 13 silenced 0 bits 84`
    fn fmt<W: fmt::Write>(&self, f: &mut fmt::Formatter<W>) -> fmt::Result {
        let Damaged {
            frames,
            bursts,
            changed,
            silenced,
            bits,
        } = *self;
        write!(
            f,
            "frames {frames} bursts {bursts} changed {changed} silenced {silenced} bits {bits}"
        )
    }
}

/// In how many bits two bursts differ.
fn distance_between(was: &[u8; 33], is: &[u8; 33]) -> u32
    ensures value { result ≡ distance (bits_of_octets was.now) (bits_of_octets is.now) }
    ensures bound { result ≤ 264 }
{
    Bits::<264>::from_octets(was).distance(&Bits::<264>::from_octets(is)) as u32
}

impl Damaged {
    ghost use Rattle.dmr_damage.specs.Counts.{counted_frame, counted_slot, counted_turned, none_damaged_yet, IsFew};

    /// Before the first frame.
    pub(crate) fn none() -> Damaged
        ensures value { result ≡ none_damaged_yet }
    {
        Damaged {
            frames: 0,
            bursts: 0,
            changed: 0,
            silenced: 0,
            bits: 0,
        }
    }

    /// Counts a burst of which so many bits were turned.
    fn count_turned(&mut self, turned: u32, slots: u32)
        requires few { IsFew slots self.old }
        requires slots { slots < 4194304 }
        requires turned { turned ≤ 264 }
        ensures value { self.new ≡ counted_turned self.old turned }
        ensures few { IsFew (slots + 1) self.new }
    {
        self.bursts += 1;
        if turned > 0 {
            self.changed += 1;
        }
        self.bits += turned;
    }

    /// Counts what was done to a slot, behind so many slots.
    fn count_slot(&mut self, was: &Option<[u8; 33]>, is: &Option<[u8; 33]>, slots: u32)
        requires few { IsFew slots self.old }
        requires slots { slots < 4194304 }
        ensures value { self.new ≡ counted_slot self.old was.now is.now }
        ensures few { IsFew (slots + 1) self.new }
    {
        match (was, is) {
            (None, _) => {}
            (Some(_), None) => {
                self.bursts += 1;
                self.silenced += 1;
            }
            (Some(was), Some(is)) => self.count_turned(distance_between(was, is), slots),
        }
    }

    /// Counts what was done to a frame.
    pub(crate) fn count_frame(&mut self, was: &[Option<[u8; 33]>; 2], is: &[Option<[u8; 33]>; 2])
        requires few { IsFew (2 * self.old.frames) self.old }
        requires frames { self.old.frames < 2000000 }
        ensures value { self.new ≡ counted_frame self.old was.now is.now }
        ensures few { IsFew (2 * self.new.frames) self.new }
        ensures frames { self.new.frames ≡ self.old.frames + 1 }
    {
        let slots = 2 * self.frames;
        self.frames += 1;
        self.count_slot(&was[0], &is[0], slots);
        self.count_slot(&was[1], &is[1], slots + 1);
    }
}
