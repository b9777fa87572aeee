//! The burst that a base station sends, as a mobile station would have sent it.
ghost use Rattle.std.specs.Prelude.{◌≡◌, true, false};
ghost use Rattle.dmr_burst.specs.Sync.{sync_word};
ghost use Rattle.dmr_burst.specs.declared.sync.Side.TheVariants as side;
ghost use Rattle.dmr_dmrd.specs.Syncs as spec;

use dmr_bits::Bits;
use dmr_burst::{Burst, Side, Sync, encode_burst, read_sync};

/// The sync word of a mobile station's voice.
fn voice_sync() -> Bits<48>
    ensures word { result ≡ sync_word side.Ms true }
{
    let burst = Burst::VoiceSync {
        vocoder: Bits::<216>::zero(),
    };
    Bits::<264>::from_octets(&encode_burst(&burst, Side::Ms)).part(108, 156)
}

/// The sync word of a mobile station's data.
fn data_sync() -> Bits<48>
    ensures word { result ≡ sync_word side.Ms false }
{
    let burst = Burst::Data {
        colour: 0,
        kind: 0,
        info: Bits::<196>::zero(),
    };
    Bits::<264>::from_octets(&encode_burst(&burst, Side::Ms)).part(108, 156)
}

/// The sync word of a mobile station, of voice or of data.
fn mobile_sync(voice: bool) -> Bits<48>
    ensures word { result ≡ sync_word side.Ms voice }
{
    if voice { voice_sync() } else { data_sync() }
}

/// The burst with the sync word of a mobile station.
fn with_mobile_sync(burst: &[u8; 33], voice: bool) -> [u8; 33]
    ensures value { result ≡ spec.with_mobile_sync voice burst.now }
{
    let word = mobile_sync(voice);
    let mut bits = Bits::<264>::from_octets(burst);
    bits.put(108, &word);
    bits.octets()
}

/// Whether the sync of a base station that is read in a burst is that of voice, where one is read.
fn station_voice(burst: &[u8; 33]) -> Option<bool>
    ensures value { result ≡ spec.station_voice burst.now }
{
    match read_sync(burst) {
        Some(
            Sync {
                side: Side::Bs,
                voice,
            },
        ) => Some(voice),
        Some(
            Sync {
                side: Side::Ms,
                voice: _,
            },
        ) => None,
        None => None,
    }
}

/// The burst with the sync of a mobile station where that of a base station is read in it. ETSI TS 102 361-1, clause 9.1.1.
pub(crate) fn mobile_burst(burst: &[u8; 33]) -> [u8; 33]
    ensures value { result ≡ spec.mobile_burst burst.now }
{
    match station_voice(burst) {
        Some(voice) => with_mobile_sync(burst, voice),
        None => *burst,
    }
}
