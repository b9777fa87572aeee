//! What came in a slot, as long as it isn't decided what is repeated of it.
ghost use Rattle.std.specs.Prelude.{◌≡◌, ◌∷◌, ◌++◌, [], drop, replicate, slice_index_or};
ghost use Rattle.dmr_log.specs.SlotTracks as spec;

use crate::checks::Checks;
use crate::repeated::{Repeated, data_told};
use dmr_burst::Burst;
use dmr_hearing::{Heard, hear};
use dmr_link::FullLc;
use dmr_listing::{BurstLine, Contents, SlotView};
use dmr_reading::Reading;
use dmr_recording::Place;
use std::marker::Model;

/// Whether something came in a slot of a frame.
#[derive(Clone, Copy, Debug, PartialEq, Eq, Drop)]
pub enum Came {
    /// Nothing.
    Silence,
    /// A burst that a listing reads as something.
    Burst,
    /// A burst that a listing can't read.
    Unreadable,
}

impl Came {
    /// A burst that is read so.
    fn of_burst(reading: &Reading) -> Came
        ensures value { result ≡ spec.came_as reading.now }
    {
        match reading {
            Reading::Unreadable => Came::Unreadable,
            _ => Came::Burst,
        }
    }
}

/// What came in a slot of a frame.
#[derive(Clone, Copy, Drop)]
pub(crate) struct Arrived {
    /// Whether something came.
    pub(crate) came: Came,
    /// It was heard as a data burst of the own colour code.
    pub(crate) is_data: bool,
    /// It was heard as the voice burst that begins a superframe.
    pub(crate) is_voice: bool,
    /// An EMB of the own colour code was heard.
    pub(crate) is_own: bool,
    /// What the listing shows of its information.
    pub(crate) contents: Option<Contents>,
    /// How many of its bits the listing shows as wrong.
    pub(crate) checks: Checks,
}

/// What a listing shows of a burst by itself hangs on no place.
const ANYWHERE: Place = Place { frame: 0, slot: 1 };

/// Nothing came.
const NOTHING: Arrived = Arrived {
    came: Came::Silence,
    is_data: false,
    is_voice: false,
    is_own: false,
    contents: None,
    checks: Checks {
        wrong: 0,
        covered: 0,
    },
};

impl Arrived {
    /// A burst that is heard so by a repeater of this colour code, and has this line in a listing.
    fn of_burst(colour: u8, heard: &Heard, line: &BurstLine) -> Arrived
        ensures value { result ≡ spec.arrived_of colour heard.now line.now }
    {
        Arrived {
            came: Came::of_burst(&line.reading),
            is_data: heard.data_burst.is_some(),
            is_voice: heard.voice,
            is_own: heard.is_own(colour),
            contents: line.contents,
            checks: Checks::of_burst(&line.reading, &line.wrong),
        }
    }

    /// What comes in a slot, to a repeater of this colour code.
    pub(crate) fn of_slot(colour: u8, slot: &Option<[u8; 33]>) -> Arrived
        ensures arrived { spec.Arrives colour slot.now result }
    {
        match slot {
            None => NOTHING,
            Some(burst) => {
                let line = SlotView::new().line(ANYWHERE, None, burst);
                Arrived::of_burst(colour, &hear(Some(burst), colour), &line)
            }
        }
    }

    /// Whether the burst that is repeated is one that came, and none that the repeater has made.
    fn is_there(&self, burst: &Burst) -> bool
        ensures value { result ≡ spec.is_there burst.now self.now }
    {
        match burst {
            Burst::Data { .. } => self.is_data,
            Burst::VoiceSync { .. } => self.is_voice,
            Burst::Voice { .. } => self.is_own,
        }
    }

    /// What is repeated of it, by the burst that goes out and the link control that is known of its call.
    pub(crate) fn repeated(&self, burst: &Option<Burst>, link_control: Option<FullLc>) -> Repeated
        ensures value { result ≡ spec.repeated_of burst.now link_control self.now }
    {
        match burst {
            None => Repeated::Nothing,
            Some(Burst::Data { kind, .. }) => data_told(*kind, link_control, self.contents),
            Some(burst) => Repeated::Place {
                link_control,
                is_filled: !self.is_there(burst),
            },
        }
    }

    /// The bits of it that count, where this burst goes out: all of a burst that is repeated, and none of any other.
    pub(crate) fn counted(&self, burst: &Option<Burst>) -> Checks
        ensures value { result ≡ spec.counted_bits burst.now self.now }
    {
        match burst {
            Some(burst) if self.is_there(burst) => self.checks,
            _ => Checks::default(),
        }
    }
}

/// What came in five frames in a row, on which is not yet decided.
#[derive(Drop)]
pub(crate) struct Undecided {
    newest: [Arrived; 5],
}

// Clauses see the list of it, the newest last.
impl Model for Undecided {
    ghost use Rattle.std.specs.Prelude.{List};
    ghost use Rattle.dmr_log.specs.declared.arrived.Arrived.{Arrived};

    ghost Value = { List Arrived };

    ghost view = { λ undecided. undecided.newest };
}

impl Undecided {
    /// Nothing came yet.
    pub(crate) fn new() -> Undecided
        ensures value { result ≡ replicate 5 spec.nothing_arrived }
    {
        Undecided {
            newest: [NOTHING; 5],
        }
    }

    /// This came in the next frame. It answers what came five frames before.
    pub(crate) fn push(&mut self, arrived: Arrived) -> Arrived
        ensures oldest { result ≡ slice_index_or self.old 0 spec.nothing_arrived }
        ensures value { self.new ≡ drop 1 self.old ++ arrived ∷ [] }
    {
        let [oldest, second, third, fourth, fifth] = self.newest;
        self.newest = [second, third, fourth, fifth, arrived];
        oldest
    }
}
