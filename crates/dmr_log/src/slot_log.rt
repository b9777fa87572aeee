//! The log of one slot.
ghost use Rattle.std.specs.Prelude.{◌≡◌, ◌<◌, IfOk, None};
ghost use Rattle.dmr_log.specs.SlotTracks as spec;
ghost use Rattle.dmr_log.specs.declared.transmission.EndedBy.TheVariants as by;

use crate::arrived::{Arrived, Came, Undecided};
use crate::repeated::Repeated;
use crate::transmission::{Ended, EndedBy, Transmission, go_on};
use dmr_burst::Burst;
use dmr_slot::SlotLine;
use std::alloc::{AllocError, Global};
use std::marker::Model;

/// What a log tells of a slot in a frame.
#[derive(Clone, Copy, Drop)]
pub struct SlotTold {
    /// The transmission that ended in front of the frame.
    pub ended: Option<Ended>,
    /// Whether something came in it.
    pub came: Came,
    /// What is repeated in it.
    pub repeated: Repeated,
    /// The transmission that is open behind it.
    pub current: Option<Transmission>,
}

impl SlotTold {
    /// No frame follows: this ended with the recording, and nothing else is told.
    fn at_end(ended: Option<Ended>) -> SlotTold
        ensures value { result ≡ spec.told_at_end ended }
    {
        SlotTold {
            ended,
            came: Came::Silence,
            repeated: Repeated::Nothing,
            current: None,
        }
    }

    /// Nothing is told in front of the first frame.
    pub(crate) fn nothing() -> SlotTold
        ensures value { result ≡ spec.told_at_end None }
    {
        SlotTold::at_end(None)
    }
}

/// What the log keeps of a slot: the line that decides what is repeated, and the transmission that is open.
#[derive(Drop)]
pub struct SlotLog {
    colour: u8,
    line: SlotLine,
    undecided: Undecided,
    current: Option<Transmission>,
}

// Clauses see all of it.
impl Model for SlotLog {
    ghost use Rattle.dmr_log.specs.SlotTracks.{SlotTrack};

    ghost Value = { SlotTrack };

    ghost view = { λ log. record {
      colour = log.colour;
      line = log.line;
      undecided = log.undecided;
      current = log.current;
    } };
}

impl SlotLog {
    ghost use Rattle.dmr_log.specs.SlotTracks.{IsPassed, silent_track, ended_with, told_at_end};

    /// A slot in which nothing came, of a repeater with this colour code. Memory is taken here alone.
    pub(crate) fn new(alloc: Global, colour: u8) -> Result<SlotLog, AllocError>
        requires colour { colour < 16 }
        ensures silent { IfOk result (λ log. log ≡ silent_track colour) }
    {
        Ok(SlotLog {
            colour,
            line: SlotLine::new(alloc, colour, 0)?,
            undecided: Undecided::new(),
            current: None,
        })
    }

    /// Takes the slot of the next frame. It decides on what came five frames before, in frame `at`. It tells of that frame,
    /// and gives the burst that is repeated in it.
    pub(crate) fn pass(&mut self, slot: &Option<[u8; 33]>, at: u32) -> (SlotTold, Option<Burst>)
        ensures passed { IsPassed self.old slot.now at result.0 result.1 self.new }
    {
        let arrived = Arrived::of_slot(self.colour, slot);
        let decided = self.undecided.push(arrived);
        let out = self.line.push(slot.as_ref());
        let repeated = decided.repeated(&out.repeated, out.lc);
        let checks = decided.counted(&out.repeated);
        let ended = go_on(&mut self.current, at, &repeated, checks);
        let told = SlotTold {
            ended,
            came: decided.came,
            repeated,
            current: self.current,
        };
        (told, out.repeated)
    }

    /// The recording ends, and with it the transmission that is open.
    pub(crate) fn end(&mut self) -> SlotTold
        ensures told { result ≡ told_at_end (ended_with self.old.current) }
        ensures rest { self.new ≡ record self.old { current = None } }
    {
        let ended = match self.current.take() {
            Some(transmission) => Some(Ended {
                transmission,
                by: EndedBy::Recording,
            }),
            None => None,
        };
        SlotTold::at_end(ended)
    }
}
