//! What stands in a slot, as one letter.
ghost use Rattle.std.specs.Prelude.{◌≡◌};
ghost use Rattle.dmr_listing.specs.Marks.{mark_of, mark_of_type};

use crate::burst_line::{BurstLine, place_letter};
use crate::voice_place::VoicePlace;
use dmr_burst::data_type;
use dmr_reading::Reading;
use std::fmt;

/// What stands in a slot of a frame: what a strip shows of it.
#[derive(Clone, Copy, Default, Drop)]
pub enum Mark {
    /// Nothing.
    #[default]
    Silence,
    /// A PI header.
    PrivacyHeader,
    /// A voice LC header.
    VoiceHeader,
    /// A voice burst, in its place of a superframe, if it stands in one.
    Voice(Option<VoicePlace>),
    /// A terminator with LC.
    Terminator,
    /// A control signalling block.
    ControlBlock,
    /// A part of a multi block control or a unified single block.
    MultiBlock,
    /// A data header.
    DataHeader,
    /// A block of rate 1/2, rate 3/4 or rate 1 data.
    DataBlock,
    /// An idle burst.
    Idle,
    /// A burst that can't be read, or whose data type can't or has no name.
    Unreadable,
}

/// The mark of a data burst of a type. ETSI TS 102 361-1, clause 9.3.6.
fn mark_of_type(kind: u8) -> Mark
    ensures value { result ≡ mark_of_type kind }
{
    match kind {
        data_type::PI_HEADER => Mark::PrivacyHeader,
        data_type::VOICE_LC_HEADER => Mark::VoiceHeader,
        data_type::TERMINATOR_WITH_LC => Mark::Terminator,
        data_type::CSBK => Mark::ControlBlock,
        data_type::MBC_HEADER
        | data_type::MBC_CONTINUATION
        | data_type::UNIFIED_SINGLE_BLOCK_DATA => Mark::MultiBlock,
        data_type::DATA_HEADER => Mark::DataHeader,
        data_type::RATE_HALF_DATA
        | data_type::RATE_THREE_QUARTERS_DATA
        | data_type::RATE_ONE_DATA => Mark::DataBlock,
        data_type::IDLE => Mark::Idle,
        _ => Mark::Unreadable,
    }
}

impl Mark {
    /// The mark of the burst that has this line.
    pub(crate) fn of_line(line: &BurstLine) -> Mark
        ensures value { result ≡ mark_of line.now }
    {
        match line.reading {
            Reading::Data(_, slot_type, _) => mark_of_type(slot_type.kind),
            Reading::VoiceSync(_) | Reading::Voice(_) => Mark::Voice(line.voice_place),
            Reading::Untyped(_) | Reading::Unreadable => Mark::Unreadable,
        }
    }

    /// The letter that stands for it.
    fn letter(self) -> char {
        match self {
            Mark::Silence => '.',
            Mark::PrivacyHeader => 'P',
            Mark::VoiceHeader => 'H',
            Mark::Voice(None) => 'v',
            Mark::Voice(place) => place_letter(place),
            Mark::Terminator => 'T',
            Mark::ControlBlock => 'c',
            Mark::MultiBlock => 'm',
            Mark::DataHeader => 'D',
            Mark::DataBlock => 'b',
            Mark::Idle => 'i',
            Mark::Unreadable => '?',
        }
    }
}

impl fmt::Display for Mark {
    fn fmt<W: fmt::Write>(&self, f: &mut fmt::Formatter<W>) -> fmt::Result {
        let letter = self.letter();
        write!(f, "{letter}")
    }
}
