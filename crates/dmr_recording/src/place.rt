//! Where a burst or a record stands in time.
ghost use Rattle.std.specs.Prelude.{◌≡◌};
ghost use Rattle.dmr_recording.specs.Places.{milliseconds, place_by_number};

use arrayvec::ArrayString;
use std::fmt;
use std::fmt::Write;

/// A slot of a frame.
#[derive(Clone, Copy, Drop, PartialEq, Eq)]
pub struct Place {
    /// The frame, from 0 on.
    pub frame: u32,
    /// The slot of the frame: 1 or 2.
    pub slot: u8,
}

/// How long a frame takes. ETSI TS 102 361-1, clause 4.2.2.
const FRAME_MILLISECONDS: u64 = 60;

/// How long behind slot 1 of a frame its slot 2 begins.
const SLOT_MILLISECONDS: u64 = 30;

impl Place {
    /// The slot of this number among the slots of a recording, from 0 on: slot 1 and slot 2 of the first frame, and so on.
    pub fn of_slot(number: u32) -> Place
        ensures value { result ≡ place_by_number number }
    {
        Place {
            frame: number / 2,
            slot: (number % 2) as u8 + 1,
        }
    }

    /// When it begins, in milliseconds behind the first frame.
    pub fn milliseconds(self) -> u64
        ensures value { result ≡ milliseconds self }
    {
        let slots_before = u64::from(self.slot.saturating_sub(1));
        FRAME_MILLISECONDS * u64::from(self.frame) + SLOT_MILLISECONDS * slots_before
    }
}

/// Milliseconds, printed as seconds to the hundredth.
#[derive(Drop)]
pub struct Seconds(pub u64);

impl fmt::Display for Seconds {
    fn fmt<W: fmt::Write>(&self, f: &mut fmt::Formatter<W>) -> fmt::Result {
        let whole = self.0 / 1000;
        let hundredths = self.0 % 1000 / 10;
        write!(f, "{whole}.{hundredths:02}")
    }
}

impl fmt::Display for Place {
    /// Seconds, frame and slot, in columns.
    fn fmt<W: fmt::Write>(&self, f: &mut fmt::Formatter<W>) -> fmt::Result {
        let Place { frame, slot } = *self;
        let mut seconds: ArrayString<32> = ArrayString::new();
        write!(seconds, "{}", Seconds(self.milliseconds()))?;
        write!(f, "{:>9} {frame:>7} {slot}", seconds.as_str())
    }
}
