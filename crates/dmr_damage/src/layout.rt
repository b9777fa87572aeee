//! The fields of a burst, written.
ghost use Rattle.std.specs.Prelude.{◌≡◌, ◌≢◌, ◌+◌, ◌-◌, ◌≤◌, ◌<◌, ◌^◌, ◌++◌, ℕ, true, false, length};
ghost use Rattle.dmr_bits.specs.Bits.{number_of, part};
ghost use Rattle.dmr_burst.specs.Emb.{HasEmb};
ghost use Rattle.dmr_burst.specs.Layout.{information_field, slot_type_field, sync_field, vocoder_field, emb_field, embedded_field};
ghost use Rattle.dmr_burst.specs.SlotType.{HasSlotType};
ghost use Rattle.dmr_burst.specs.Sync.{HasSync, sync_word};
ghost use Rattle.dmr_burst.specs.declared.emb.Emb.{Emb};
ghost use Rattle.dmr_burst.specs.declared.slot_type.SlotType.{SlotType};
ghost use Rattle.dmr_burst.specs.declared.sync.Side.TheVariants as side;

use crate::drawing::turned;
use dmr_bits::Bits;
use dmr_burst::{Burst, Side, encode_burst};
use dmr_codes::{BlockCode, Golay20, Residue16};
use rand_pcg::Pcg32;

/// How many bits of a sync, of a slot type and of an EMB may be wrong.
const MOST_IN_SYNC: u32 = 3;

const MOST_IN_SLOT_TYPE: u32 = 3;

const MOST_IN_EMB: u32 = 2;

/// The field that stands in two pieces of as many bits.
pub(crate) fn halves<const M: usize>(
    bits: &Bits<264>,
    at: usize,
    again: usize,
    half: usize,
) -> Bits<M>
    requires whole { half + half ≡ M }
    requires order { at + half ≤ again }
    requires inside { again + half ≤ 264 }
    ensures value { result ≡ part bits.now at (at + half) ++ part bits.now again (again + half) }
    ensures length { length result ≡ M }
{
    let mut field = Bits::<M>::zero();
    field.put_part(0, bits, at, at + half);
    field.put_part(half, bits, again, again + half);
    field
}

/// Writes a field that stands in two pieces of as many bits.
pub(crate) fn put_halves<const M: usize>(
    bits: &mut Bits<264>,
    at: usize,
    again: usize,
    half: usize,
    field: &Bits<M>,
)
    requires whole { half + half ≡ M }
    requires order { at + half ≤ again }
    requires inside { again + half ≤ 264 }
    ensures written { part bits.new at (at + half) ++ part bits.new again (again + half) ≡ field.now }
    ensures front { (from to : ℕ) → from ≤ to → to ≤ at → part bits.new from to ≡ part bits.old from to }
    ensures between { (from to : ℕ) → at + half ≤ from → from ≤ to → to ≤ again → part bits.new from to ≡ part bits.old from to }
    ensures behind { (from to : ℕ) → again + half ≤ from → from ≤ to → to ≤ 264 → part bits.new from to ≡ part bits.old from to }
{
    bits.put_part(at, field, 0, half);
    bits.put_part(again, field, half, half + half);
}

/// The sync word of a mobile station's voice.
fn voice_sync() -> Bits<48>
    ensures word { result ≡ sync_word side.Ms true }
{
    let burst = Burst::VoiceSync {
        vocoder: Bits::<216>::zero(),
    };
    Bits::<264>::from_octets(&encode_burst(&burst, Side::Ms)).part(108, 156)
}

/// The sync word of a mobile station's data.
fn data_sync() -> Bits<48>
    ensures word { result ≡ sync_word side.Ms false }
{
    let burst = Burst::Data {
        colour: 0,
        kind: 0,
        info: Bits::<196>::zero(),
    };
    Bits::<264>::from_octets(&encode_burst(&burst, Side::Ms)).part(108, 156)
}

/// Writes the centre of a burst.
fn put_centre(bits: &mut Bits<264>, centre: &Bits<48>)
    ensures written { sync_field bits.new ≡ centre.now }
    ensures vocoder { vocoder_field bits.new ≡ vocoder_field bits.old }
    ensures information { information_field bits.new ≡ information_field bits.old }
    ensures slot_type { slot_type_field bits.new ≡ slot_type_field bits.old }
{
    bits.put(108, centre);
}

/// Writes the sync of a mobile station's voice, with wrong bits.
pub(crate) fn write_voice_sync(bits: &mut Bits<264>, rng: &mut Pcg32)
    ensures sync { HasSync (record { side = side.Ms; voice = true }) bits.new }
    ensures vocoder { vocoder_field bits.new ≡ vocoder_field bits.old }
{
    put_centre(bits, &turned(&voice_sync(), MOST_IN_SYNC, rng));
}

/// Writes the sync of a mobile station's data, with wrong bits.
pub(crate) fn write_data_sync(bits: &mut Bits<264>, rng: &mut Pcg32)
    ensures sync { HasSync (record { side = side.Ms; voice = false }) bits.new }
    ensures information { information_field bits.new ≡ information_field bits.old }
    ensures slot_type { slot_type_field bits.new ≡ slot_type_field bits.old }
{
    put_centre(bits, &turned(&data_sync(), MOST_IN_SYNC, rng));
}

/// Writes the slot type that a burst has, with wrong bits, where it reads.
pub(crate) fn write_slot_type(bits: &mut Bits<264>, rng: &mut Pcg32)
    ensures slot_type { (slot_type : SlotType) → HasSlotType slot_type bits.old → HasSlotType slot_type bits.new }
    ensures unread { ((slot_type : SlotType) → HasSlotType slot_type bits.old → ⊥)
        → slot_type_field bits.new ≡ slot_type_field bits.old }
    ensures sync { sync_field bits.new ≡ sync_field bits.old }
    ensures information { information_field bits.new ≡ information_field bits.old }
{
    if let Some(word) = Golay20::decode(&halves::<20>(bits, 98, 156, 10)) {
        put_halves(bits, 98, 156, 10, &turned(&word, MOST_IN_SLOT_TYPE, rng));
    }
}

/// Writes the information of a data burst.
pub(crate) fn write_information(bits: &mut Bits<264>, information: &Bits<196>)
    ensures written { information_field bits.new ≡ information.now }
    ensures sync { sync_field bits.new ≡ sync_field bits.old }
    ensures slot_type { slot_type_field bits.new ≡ slot_type_field bits.old }
{
    put_halves(bits, 0, 166, 98, information);
}

/// Writes the EMB that a burst has, with wrong bits, where it reads.
pub(crate) fn write_emb(bits: &mut Bits<264>, rng: &mut Pcg32)
    ensures emb { (emb : Emb) → HasEmb emb bits.old → HasEmb emb bits.new }
    ensures embedded { embedded_field bits.new ≡ embedded_field bits.old }
    ensures vocoder { vocoder_field bits.new ≡ vocoder_field bits.old }
{
    if let Some(word) = Residue16::decode(&halves::<16>(bits, 108, 148, 8)) {
        put_halves(bits, 108, 148, 8, &turned(&word, MOST_IN_EMB, rng));
    }
}

/// Writes the embedded field of a voice burst.
pub(crate) fn write_embedded(bits: &mut Bits<264>, embedded: u32)
    ensures written { number_of (embedded_field bits.new) ≡ embedded }
    ensures emb { emb_field bits.new ≡ emb_field bits.old }
    ensures vocoder { vocoder_field bits.new ≡ vocoder_field bits.old }
{
    bits.put(116, &embedded_bits(embedded));
}

/// The bits of an embedded field.
fn embedded_bits(embedded: u32) -> Bits<32>
    ensures says { number_of result ≡ embedded }
{
    Bits::<32>::zero().with_field(0, 32, u64::from(embedded))
}
