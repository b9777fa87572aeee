//! What was heard of an uplink.
ghost use Rattle.std.specs.Prelude.{◌≡◌};
ghost use Rattle.dmr_reading.specs.declared.reading.Reading.{Reading};
ghost use Rattle.dmr_watch.specs.Heard.{HearsBurst, heard_counted, is_of_base_station, is_of_other_colour, none_heard};

use dmr_burst::Side;
use dmr_reading::{Reading, read_burst};

/// What was heard of an uplink: how many bursts, and how many of these a repeater doesn't repeat.
#[derive(Clone, Copy, Debug, Drop, PartialEq, Eq)]
pub struct Heard {
    /// The bursts.
    pub bursts: u32,
    /// Those of which the slot type or the EMB names another colour code.
    pub of_other_colours: u32,
    /// Those that have a sync of a base station.
    pub of_base_stations: u32,
}

/// Whether a burst names another colour code than this.
fn is_of_other_colour(colour: u8, reading: &Reading) -> bool
    ensures value { result ≡ is_of_other_colour colour reading.now }
{
    match reading.colour_code() {
        Some(named) => named != colour,
        None => false,
    }
}

/// Whether a burst has a sync of a base station.
fn is_of_base_station(reading: &Reading) -> bool
    ensures value { result ≡ is_of_base_station reading.now }
{
    match reading {
        Reading::Data(Side::Bs, _, _) => true,
        Reading::Untyped(Side::Bs) => true,
        Reading::VoiceSync(Side::Bs) => true,
        Reading::Data(Side::Ms, _, _) => false,
        Reading::Untyped(Side::Ms) => false,
        Reading::VoiceSync(Side::Ms) => false,
        Reading::Voice(_) => false,
        Reading::Unreadable => false,
    }
}

impl Heard {
    /// Nothing.
    pub fn nothing() -> Heard
        ensures value { result ≡ none_heard }
    {
        Heard {
            bursts: 0,
            of_other_colours: 0,
            of_base_stations: 0,
        }
    }

    /// With a burst that is read as this.
    fn counted(self, colour: u8, reading: &Reading) -> Heard
        ensures value { result ≡ heard_counted colour reading.now self }
    {
        let is_of_other_colour = is_of_other_colour(colour, reading);
        let is_of_base_station = is_of_base_station(reading);
        Heard {
            bursts: self.bursts.saturating_add(1),
            of_other_colours: self
                .of_other_colours
                .saturating_add(u32::from(is_of_other_colour)),
            of_base_stations: self
                .of_base_stations
                .saturating_add(u32::from(is_of_base_station)),
        }
    }

    /// With one burst more, where this is the colour code of the repeater. At most 2^32 - 1 of each are counted, of which no
    /// recording has so many.
    pub fn with(self, colour: u8, burst: &[u8; 33]) -> Heard
        ensures counted { HearsBurst colour burst.now self result }
    {
        self.counted(colour, &read_burst(burst))
    }
}
