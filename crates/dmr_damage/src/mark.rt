//! What a burst counts as.
ghost use Rattle.std.specs.Prelude.{◌≡◌};
ghost use Rattle.dmr_damage.specs.Marks as spec;

use dmr_burst::Burst;
use dmr_hearing::{DataBurst, Heard};
use dmr_voice::VoiceOut;

/// What a burst counts as, by what is repeated for its slot.
#[derive(Clone, Copy)]
pub enum BurstMark {
    /// A data burst that was heard.
    Data(DataBurst),
    /// Place A of a call that was heard.
    PlaceA,
    /// A place from B to F of a call that was heard.
    PlaceBToF,
    /// Nothing is repeated for its slot.
    Unrepeated,
    /// Something else is repeated for its slot: a header once more, or a place that wasn't heard.
    Other,
}

/// What a burst counts as that is heard so, where this is repeated for its slot.
pub(crate) fn mark_of(colour: u8, heard: &Heard, said: &VoiceOut) -> BurstMark
    ensures mark { result ≡ spec.burst_mark colour heard.now said.now }
{
    match said {
        VoiceOut::Nothing => BurstMark::Unrepeated,
        VoiceOut::Repeat { burst, .. } => match burst {
            Burst::Data { .. } => match heard.data_burst {
                Some(data_burst) => BurstMark::Data(data_burst),
                None => BurstMark::Other,
            },
            Burst::VoiceSync { .. } if heard.voice => BurstMark::PlaceA,
            Burst::Voice { .. } if heard.is_own(colour) => BurstMark::PlaceBToF,
            _ => BurstMark::Other,
        },
    }
}
