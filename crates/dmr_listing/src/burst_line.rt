//! The line of a burst.
use crate::access_type::AccessType;
use crate::contents::Contents;
use crate::link_control::LinkControl;
use crate::voice_place::VoicePlace;
use crate::wrong::Wrong;
use arrayvec::ArrayString;
use dmr_burst::{Emb, Side, SlotType, data_type};
use dmr_link::FullLc;
use dmr_reading::Reading;
use dmr_recording::Place;
use std::fmt;
use std::fmt::Write;

/// All that a line shows of a burst.
#[derive(Clone, Copy, Drop)]
pub struct BurstLine {
    /// Where it stands.
    pub place: Place,
    /// What its CACH announces, on the downlink.
    pub access_type: Option<AccessType>,
    /// What it is read as.
    pub reading: Reading,
    /// Where in a superframe its frame stands.
    pub voice_place: Option<VoicePlace>,
    /// What its information holds, where it is a data burst.
    pub contents: Option<Contents>,
    /// The link control that it completes, where it stands in place E and what it completes can be read.
    pub link_control: Option<FullLc>,
    /// How many of its bits are wrong.
    pub wrong: Wrong,
}

/// What a burst is called, by what it is read as and the place in which its frame stands. It is printed as a text of at most 13
/// characters of ASCII, with no quotation mark in it.
#[derive(Clone, Copy, Drop)]
pub struct BurstName(pub Reading, pub Option<VoicePlace>);

/// What a data burst is called, by its data type: by a number where that has no name.
#[derive(Clone, Copy, Drop)]
pub struct DataTypeName(pub u8);

/// The name of a data type, if it has one. ETSI TS 102 361-1, clause 9.3.6.
fn type_name(kind: u8) -> Option<&'static str> {
    match kind {
        data_type::PI_HEADER => Some("PI header"),
        data_type::VOICE_LC_HEADER => Some("voice header"),
        data_type::TERMINATOR_WITH_LC => Some("terminator"),
        data_type::CSBK => Some("CSBK"),
        data_type::MBC_HEADER => Some("MBC header"),
        data_type::MBC_CONTINUATION => Some("MBC block"),
        data_type::DATA_HEADER => Some("data header"),
        data_type::RATE_HALF_DATA => Some("rate 1/2"),
        data_type::RATE_THREE_QUARTERS_DATA => Some("rate 3/4"),
        data_type::IDLE => Some("idle"),
        data_type::RATE_ONE_DATA => Some("rate 1"),
        data_type::UNIFIED_SINGLE_BLOCK_DATA => Some("unified block"),
        _ => None,
    }
}

/// The letter of a place, and a question mark for a burst that stands in none.
pub(crate) fn place_letter(place: Option<VoicePlace>) -> char {
    match place {
        Some(VoicePlace::A) => 'A',
        Some(VoicePlace::B) => 'B',
        Some(VoicePlace::C) => 'C',
        Some(VoicePlace::D) => 'D',
        Some(VoicePlace::E) => 'E',
        Some(VoicePlace::F) => 'F',
        None => '?',
    }
}

impl fmt::Display for DataTypeName {
    fn fmt<W: fmt::Write>(&self, f: &mut fmt::Formatter<W>) -> fmt::Result {
        match type_name(self.0) {
            Some(name) => write!(f, "{name}"),
            None => write!(f, "type {}", self.0),
        }
    }
}

impl fmt::Display for BurstName {
    fn fmt<W: fmt::Write>(&self, f: &mut fmt::Formatter<W>) -> fmt::Result {
        match self.0 {
            Reading::Data(_, SlotType { kind, .. }, _) => write!(f, "{}", DataTypeName(kind)),
            Reading::Untyped(_) => write!(f, "data"),
            Reading::VoiceSync(_) => write!(f, "voice A"),
            Reading::Voice(_) => {
                let letter = place_letter(self.1);
                write!(f, "voice {letter}")
            }
            Reading::Unreadable => write!(f, "unreadable"),
        }
    }
}

/// The letters of the side that a burst's sync names.
fn side_letters(reading: Reading) -> &'static str {
    match reading {
        Reading::Data(side, _, _) | Reading::Untyped(side) | Reading::VoiceSync(side) =>
            match side {
                Side::Bs => "BS",
                Side::Ms => "MS",
            },
        Reading::Voice(_) | Reading::Unreadable => "-",
    }
}

/// The details of a line.
#[derive(Drop)]
struct Details<'a>(&'a BurstLine);

impl Details<'_> {
    /// The details of a voice burst with embedded signalling.
    fn write_voice<W: fmt::Write>(&self, emb: Emb, f: &mut fmt::Formatter<W>) -> fmt::Result {
        let Emb { pi, lcss, .. } = emb;
        write!(f, "LCSS {lcss}")?;
        if pi {
            write!(f, ", PI")?;
        }
        match (self.0.voice_place, self.0.link_control) {
            (Some(VoicePlace::E), Some(lc)) => write!(f, ", {}", LinkControl(lc)),
            (Some(VoicePlace::E), None) => write!(f, ", embedded LC unreadable"),
            _ => Ok(()),
        }
    }
}

impl fmt::Display for Details<'_> {
    fn fmt<W: fmt::Write>(&self, f: &mut fmt::Formatter<W>) -> fmt::Result {
        match self.0.reading {
            Reading::Voice(emb) => self.write_voice(emb, f),
            Reading::Untyped(_) => write!(f, "slot type unreadable"),
            _ => match &self.0.contents {
                Some(contents) => write!(f, "{contents}"),
                None => Ok(()),
            },
        }
    }
}

/// Side, and what the CACH announces, in two columns and one.
#[derive(Drop)]
struct SideAndAccessType(Reading, Option<AccessType>);

impl fmt::Display for SideAndAccessType {
    fn fmt<W: fmt::Write>(&self, f: &mut fmt::Formatter<W>) -> fmt::Result {
        let letters = side_letters(self.0);
        match self.1 {
            Some(AccessType::Busy) => write!(f, "{letters:<2}*"),
            Some(AccessType::Free) | None => write!(f, "{letters:<3}"),
        }
    }
}

/// A colour code in two columns, or a hyphen for none.
#[derive(Drop)]
struct Colour(Option<u8>);

impl fmt::Display for Colour {
    fn fmt<W: fmt::Write>(&self, f: &mut fmt::Formatter<W>) -> fmt::Result {
        match self.0 {
            Some(colour) => write!(f, "{colour:>2}"),
            None => write!(f, " -"),
        }
    }
}

/// What a line shows of a burst behind its place.
#[derive(Clone, Copy)]
pub struct BurstText<'a>(pub &'a BurstLine);

impl fmt::Display for BurstText<'_> {
    /// Side, colour code, name, details and wrong bits, in columns; the text ends with no space.
    fn fmt<W: fmt::Write>(&self, f: &mut fmt::Formatter<W>) -> fmt::Result {
        let line = self.0;
        let side = SideAndAccessType(line.reading, line.access_type);
        let colour = Colour(line.reading.colour_code());
        let mut name: ArrayString<16> = ArrayString::new();
        let mut details: ArrayString<192> = ArrayString::new();
        write!(name, "{}", BurstName(line.reading, line.voice_place))?;
        write!(details, "{}{}", Details(line), line.wrong)?;
        let name = name.as_str();
        write!(f, "{side} {colour}  ")?;
        if details.is_empty() {
            write!(f, "{name}")
        } else {
            write!(f, "{name:<13} {}", details.as_str())
        }
    }
}

impl fmt::Display for BurstLine {
    /// Time, frame and slot, and what it shows of the burst.
    fn fmt<W: fmt::Write>(&self, f: &mut fmt::Formatter<W>) -> fmt::Result {
        write!(f, "{}  {}", self.place, BurstText(self))
    }
}
