//! The places of voice bursts in their superframes.
ghost use Rattle.std.specs.Prelude.{◌≡◌, None};
ghost use Rattle.dmr_listing.specs.VoicePlace.{following, place_after};

use dmr_reading::Reading;
use std::marker::Model;

/// A place of a superframe. ETSI TS 102 361-1, clause 5.1.2.1.
#[derive(Clone, Copy, PartialEq, Eq)]
pub enum VoicePlace {
    /// The burst with the voice sync.
    A,
    /// One frame behind it.
    B,
    /// Two frames behind it.
    C,
    /// Three frames behind it.
    D,
    /// Four frames behind it.
    E,
    /// Five frames behind it, the last.
    F,
}

impl VoicePlace {
    /// The place a frame behind this one, if it isn't the last.
    fn following(self) -> Option<VoicePlace>
        ensures value { result ≡ following self }
    {
        match self {
            VoicePlace::A => Some(VoicePlace::B),
            VoicePlace::B => Some(VoicePlace::C),
            VoicePlace::C => Some(VoicePlace::D),
            VoicePlace::D => Some(VoicePlace::E),
            VoicePlace::E => Some(VoicePlace::F),
            VoicePlace::F => None,
        }
    }
}

/// Where the frames of one slot stand in superframes, one frame at a time.
#[derive(Drop)]
pub struct VoicePlaces {
    last: Option<VoicePlace>,
}

// Clauses see the place of the last frame.
impl Model for VoicePlaces {
    ghost use Rattle.std.specs.Prelude.{Option};
    ghost use Rattle.dmr_listing.specs.declared.voice_place.VoicePlace.{VoicePlace};

    ghost Value = { Option VoicePlace };

    ghost view = { λ places. places.last };
}

impl VoicePlaces {
    /// A slot of which nothing was read.
    pub fn new() -> VoicePlaces
        ensures value { result ≡ None }
    {
        VoicePlaces { last: None }
    }

    /// The place in which the next frame of the slot stands, if it stands in one. `reading` is what the frame is read as, and none
    /// where it is silent. A voice sync begins a superframe, and data ends one; anything else stands a frame behind what was before
    /// it. This is this project's own, as a listing also names the places of bursts that it can't read.
    pub fn next(&mut self, reading: Option<Reading>) -> Option<VoicePlace>
        ensures place { result ≡ self.new }
        ensures value { self.new ≡ place_after self.old reading }
    {
        self.last = match reading {
            Some(Reading::VoiceSync(_)) => Some(VoicePlace::A),
            Some(Reading::Data(_, _, _)) | Some(Reading::Untyped(_)) => None,
            _ => match self.last {
                Some(place) => place.following(),
                None => None,
            },
        };
        self.last
    }
}
