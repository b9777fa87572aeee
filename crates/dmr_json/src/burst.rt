//! The object of a burst.
use crate::cach::CachKey;
use crate::contents::ContentsKey;
use crate::link_control::LinkControl;
use crate::place::PlaceKeys;
use crate::values::{Hex, Known};
use crate::wrong::WrongObject;
use dmr_burst::{Emb, Side};
use dmr_link::FullLc;
use dmr_listing::{BurstLine, BurstName, VoicePlace};
use dmr_reading::Reading;
use dmr_recording::RecordedBurst;
use std::fmt;

/// The object of a burst of a recording.
#[derive(Drop)]
pub struct BurstObject<'a> {
    /// The burst.
    pub burst: &'a RecordedBurst,
    /// What the line of the burst shows.
    pub line: &'a BurstLine,
}

/// The side that a burst's sync names, as a value.
fn side_value(reading: Reading) -> &'static str {
    match reading {
        Reading::Data(side, _, _) | Reading::Untyped(side) | Reading::VoiceSync(side) =>
            match side {
                Side::Bs => "\"BS\"",
                Side::Ms => "\"MS\"",
            },
        Reading::Voice(_) | Reading::Unreadable => "null",
    }
}

/// The key of the link control that voice E completes, null where it can't be read.
#[derive(Drop)]
struct CompletedKey(Option<VoicePlace>, Option<FullLc>);

impl fmt::Display for CompletedKey {
    fn fmt<W: fmt::Write>(&self, f: &mut fmt::Formatter<W>) -> fmt::Result {
        match (self.0, self.1) {
            (Some(VoicePlace::E), Some(lc)) => write!(f, ",\"lc\":{}", LinkControl(lc)),
            (Some(VoicePlace::E), None) => write!(f, ",\"lc\":null"),
            _ => Ok(()),
        }
    }
}

/// The keys that some bursts alone have.
#[derive(Drop)]
struct DetailKeys<'a>(&'a BurstLine);

impl DetailKeys<'_> {
    /// The keys of a voice burst with embedded signalling.
    fn write_voice<W: fmt::Write>(&self, emb: Emb, f: &mut fmt::Formatter<W>) -> fmt::Result {
        let lcss = emb.lcss;
        let pi = u8::from(emb.pi);
        let completed = CompletedKey(self.0.voice_place, self.0.link_control);
        write!(f, ",\"lcss\":{lcss},\"pi\":{pi}{completed}")
    }
}

impl fmt::Display for DetailKeys<'_> {
    fn fmt<W: fmt::Write>(&self, f: &mut fmt::Formatter<W>) -> fmt::Result {
        match self.0.reading {
            Reading::Voice(emb) => self.write_voice(emb, f),
            _ => match self.0.contents {
                Some(contents) => write!(f, "{}", ContentsKey(contents)),
                None => Ok(()),
            },
        }
    }
}

/// Side and colour code.
#[derive(Drop)]
struct SideKeys(Reading);

impl fmt::Display for SideKeys {
    fn fmt<W: fmt::Write>(&self, f: &mut fmt::Formatter<W>) -> fmt::Result {
        let side = side_value(self.0);
        let colour = Known(self.0.colour_code());
        write!(f, "\"side\":{side},\"colour\":{colour}")
    }
}

/// What the burst is called.
#[derive(Drop)]
struct NameKey<'a>(&'a BurstLine);

impl fmt::Display for NameKey<'_> {
    fn fmt<W: fmt::Write>(&self, f: &mut fmt::Formatter<W>) -> fmt::Result {
        let name = BurstName(self.0.reading, self.0.voice_place);
        write!(f, "\"name\":\"{name}\"")
    }
}

/// How many bits are wrong.
#[derive(Drop)]
struct WrongKey<'a>(&'a BurstLine);

impl fmt::Display for WrongKey<'_> {
    fn fmt<W: fmt::Write>(&self, f: &mut fmt::Formatter<W>) -> fmt::Result {
        let wrong = WrongObject {
            reading: self.0.reading,
            wrong: &self.0.wrong,
        };
        write!(f, "\"wrong\":{wrong}")
    }
}

impl fmt::Display for BurstObject<'_> {
    fn fmt<W: fmt::Write>(&self, f: &mut fmt::Formatter<W>) -> fmt::Result {
        let place = PlaceKeys(&self.line.place);
        let side = SideKeys(self.line.reading);
        let cach = CachKey(self.burst.cach);
        write!(f, "{{{place},{side}{cach},")?;
        let name = NameKey(self.line);
        let details = DetailKeys(self.line);
        let wrong = WrongKey(self.line);
        write!(f, "{name}{details},{wrong},")?;
        write!(f, "\"burst\":{}}}", Hex(&self.burst.burst))
    }
}
