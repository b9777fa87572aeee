//! Shapes: which bursts of a transmission are sent.
ghost use Rattle.std.specs.Prelude.{◌≡◌};
ghost use Rattle.dmr_script.specs.Shapes.{next_place};

use std::fmt;

/// Which bursts of a call are sent.
///
/// A call of another colour code has shapes of the same kind. It begins and ends with a burst, and behind each of its voice syncs
/// one of the five places that follow is there.
#[derive(Drop, PartialEq, Eq)]
pub struct CallShape {
    /// What stands in front of the first place.
    pub start: CallStart,
    /// For each place from the first A on, whether it is there. Places go A to F, and again from A. The first is there. Where there
    /// is none, the call is headers alone, behind which no silence is counted. No six in a row are absent. The last one is there,
    /// where no terminator follows.
    pub places: Vec<bool>,
    /// How many terminators end the call. Where there are any, the places are whole superframes.
    pub terminators: u32,
}

/// What stands in front of the first A of a call.
#[derive(Drop, PartialEq, Eq)]
pub enum CallStart {
    /// A voice LC header, further headers, and silences.
    Headers(Headers),
    /// The end of a superframe whose first places went by unheard: for each of its last places, at most five, whether it is there.
    /// There is an A behind it, and of the five places behind that one is there.
    Late(Vec<bool>),
}

/// The headers of a call. The first one is a voice LC header.
#[derive(Drop, PartialEq, Eq)]
pub struct Headers {
    /// The headers behind the first.
    pub more: Vec<HeaderKind>,
    /// How many silences stand between the headers and the first place, at most five.
    pub silences: u8,
}

/// What a header of a call is.
#[derive(Clone, Copy, Drop, PartialEq, Eq)]
pub enum HeaderKind {
    /// A voice LC header.
    Voice,
    /// A PI header.
    Privacy,
}

/// Which bursts of a packet are sent: preambles, its header always, and blocks.
#[derive(Drop, PartialEq, Eq)]
pub struct PacketShape {
    /// How many preambles stand in front of the header. Each counts what follows, so with the blocks they are at most 255.
    pub preambles: u8,
    /// For each block of the packet, whether it is sent.
    pub blocks: Vec<bool>,
}

/// A place of a superframe, by its letter. ETSI TS 102 361-1, clause 5.1.2.1.
#[derive(Clone, Copy, Debug, Drop, PartialEq, Eq)]
pub enum Place {
    A,
    B,
    C,
    D,
    E,
    F,
}

impl Place {
    /// The place behind it; a superframe follows upon another.
    pub(crate) fn next(self) -> Place
        ensures value { result ≡ next_place self }
    {
        match self {
            Place::A => Place::B,
            Place::B => Place::C,
            Place::C => Place::D,
            Place::D => Place::E,
            Place::E => Place::F,
            Place::F => Place::A,
        }
    }
}

impl fmt::Display for Place {
    fn fmt<W: fmt::Write>(&self, f: &mut fmt::Formatter<W>) -> fmt::Result {
        match self {
            Place::A => write!(f, "A"),
            Place::B => write!(f, "B"),
            Place::C => write!(f, "C"),
            Place::D => write!(f, "D"),
            Place::E => write!(f, "E"),
            Place::F => write!(f, "F"),
        }
    }
}
