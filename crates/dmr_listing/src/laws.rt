//! Laws of what a listing shows, as the contracts of functions that do nothing.
ghost use Rattle.std.specs.Prelude.{◌≡◌, ◌↔◌, List, Option, Some, map};
ghost use Rattle.dmr_recording.specs.Places.{entries};
ghost use Rattle.dmr_listing.specs.ListingRules.{Lists, ListingTurn, begun};
ghost use Rattle.dmr_recording.specs.Recordings.{RecordedSlot};
ghost use Rattle.dmr_listing.specs.VoicePlace.{voice_place_of, StandsIn};
ghost use Rattle.dmr_listing.specs.declared.burst_line.BurstLine.{BurstLine};
ghost use Rattle.dmr_listing.specs.declared.voice_place.VoicePlace.{VoicePlace};
ghost use Rattle.dmr_reading.specs.declared.reading.Reading.{Reading};

/// A frame stands in a place exactly where its slot had a voice sync so many frames before it, and since then neither that
/// nor data.
pub fn places_behind_a_voice_sync()
    ensures law { (readings : List (Option Reading)) (place : VoicePlace)
        → (voice_place_of readings ≡ Some place) ↔ StandsIn place readings }
{}

/// The lines of a listing stand in the places of the bursts, in their order, each once.
pub fn lines_of_bursts()
    ensures law { (slots : List RecordedSlot) (lines : List BurstLine) (end : ListingTurn) → Lists begun slots lines end
        → map (λ (line : BurstLine). line.place) lines ≡ map (λ entry. entry.0) (entries 0 slots) }
{}
