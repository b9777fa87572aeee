//! The lines of one slot.
ghost use Rattle.std.specs.Prelude.{◌≡◌};
ghost use Rattle.dmr_bits.specs.Bits.{bits_of_octets};
ghost use Rattle.dmr_reading.specs.Reading.{IsReadAs};
ghost use Rattle.dmr_listing.specs.Lines.{IsCachAccessType, IsHeld, IsLine, after_burst, fragment_of, no_past, passed};

use crate::access_type::AccessType;
use crate::burst_line::BurstLine;
use crate::contents::{Contents, contents_of};
use crate::fragments::{Fragment, Fragments};
use crate::voice_place::VoicePlaces;
use crate::wrong::wrong_of;
use dmr_burst::read_embedded;
use dmr_reading::{Reading, read_burst};
use dmr_recording::Place;
use std::marker::Model;

/// What the lines of a slot need of the frames before: where superframes stand, and what was carried of a link control.
#[derive(Drop)]
pub struct SlotView {
    places: VoicePlaces,
    fragments: Fragments,
}

// Clauses see both.
impl Model for SlotView {
    ghost use Rattle.dmr_listing.specs.Lines.{SlotPast};

    ghost Value = { SlotPast };

    ghost view = { λ view. record { place = view.places; fragments = view.fragments } };
}

/// What a burst carries of a link control.
fn fragment_of(reading: &Reading, burst: &[u8; 33]) -> Option<Fragment>
    ensures value { result ≡ fragment_of reading.now (bits_of_octets burst.now) }
{
    match *reading {
        Reading::Voice(emb) => Some(Fragment {
            lcss: emb.lcss,
            field: read_embedded(burst),
        }),
        _ => None,
    }
}

/// What a data burst holds.
fn held_by(reading: &Reading, burst: &[u8; 33]) -> Option<Contents>
    requires read { IsReadAs (bits_of_octets burst.now) reading.now }
    ensures held { IsHeld reading.now (bits_of_octets burst.now) result }
{
    match *reading {
        Reading::Data(_, slot_type, information) => {
            Some(contents_of(slot_type.kind, burst, information))
        }
        _ => None,
    }
}

/// What the CACH in front of a burst announces, where there is one.
fn announced_by(cach: Option<[u8; 3]>) -> Option<AccessType>
    ensures announced { IsCachAccessType cach result }
{
    match cach {
        Some(cach) => Some(AccessType::of_cach(&cach)),
        None => None,
    }
}

impl SlotView {
    /// A slot of which nothing was read.
    pub fn new() -> SlotView
        ensures value { result ≡ no_past }
    {
        SlotView {
            places: VoicePlaces::new(),
            fragments: Fragments::new(),
        }
    }

    /// The slot is silent in the next frame, which has no line.
    pub(crate) fn pass(&mut self)
        ensures past { self.new ≡ passed self.old }
    {
        self.places.next(None);
        self.fragments.push(None);
    }

    /// The line of the burst that the slot has in the next frame, which is this place. `cach` stands before the burst on the
    /// downlink.
    pub fn line(&mut self, place: Place, cach: Option<[u8; 3]>, burst: &[u8; 33]) -> BurstLine
        ensures place { result.place ≡ place }
        ensures announced { IsCachAccessType cach result.access_type }
        ensures line { IsLine self.old (bits_of_octets burst.now) result }
        ensures past { self.new ≡ after_burst result.reading (bits_of_octets burst.now) self.old }
    {
        let reading = read_burst(burst);
        self.fragments.push(fragment_of(&reading, burst));
        let voice_place = self.places.next(Some(reading));
        BurstLine {
            place,
            access_type: announced_by(cach),
            reading,
            voice_place,
            contents: held_by(&reading, burst),
            link_control: self.fragments.link_control(),
            wrong: wrong_of(&reading, burst),
        }
    }
}
