//! A burst, damaged within the limits.
ghost use Rattle.std.specs.Prelude.{◌≡◌, ◌≢◌, Bool, true, false, Some, IfSome};
ghost use Rattle.dmr_bits.specs.Bits.{bits_of_octets};
ghost use Rattle.dmr_burst.specs.Sync.{HasSync};
ghost use Rattle.dmr_burst.specs.declared.sync.Side.TheVariants as side;
ghost use Rattle.dmr_hearing.specs.DataTypes.{payload_of};
ghost use Rattle.dmr_hearing.specs.Damage.{IsDamagedData, HasNoMobileSync};
ghost use Rattle.dmr_hearing.specs.Hearing.{IsHeardData};
ghost use Rattle.dmr_hearing.specs.declared.data_types.Payload.TheVariants as holds;
ghost use Rattle.dmr_damage.specs.Bursts.{IsDamagedBy, IsDamagedForeignVoice, IsDamagedUnheardData, IsDamagedUnrepeated};
ghost use Rattle.dmr_damage.specs.Bursts.{IsDamagedVoice, IsDamagedVoiceSync, IsMarked};

use crate::layout::{
    write_data_sync, write_emb, write_embedded, write_information, write_slot_type,
    write_voice_sync,
};
use crate::mark::BurstMark;
use crate::product::turned_product;
use dmr_bits::Bits;
use dmr_burst::{Side, data_type, read_emb, read_sync};
use dmr_hearing::DataBurst;
use rand_pcg::Pcg32;

/// A burst with wrong bits, by what it counts as. `field` is what its embedded field is written as, where it is damaged.
pub(crate) fn damaged_burst(
    colour: u8,
    mark: &BurstMark,
    field: Option<u32>,
    burst: &[u8; 33],
    rng: &mut Pcg32,
) -> [u8; 33]
    requires marked { IsMarked colour mark.now (bits_of_octets burst.now) }
    ensures damaged { IsDamagedBy colour mark.now field (bits_of_octets burst.now) (bits_of_octets result) }
{
    damaged_bits(colour, mark, field, burst, rng).octets()
}

/// The same, as bits.
fn damaged_bits(
    colour: u8,
    mark: &BurstMark,
    field: Option<u32>,
    burst: &[u8; 33],
    rng: &mut Pcg32,
) -> Bits<264>
    requires marked { IsMarked colour mark.now (bits_of_octets burst.now) }
    ensures damaged { IsDamagedBy colour mark.now field (bits_of_octets burst.now) result }
{
    let bits = Bits::<264>::from_octets(burst);
    match mark {
        BurstMark::Data(data_burst) => damaged_data(colour, &bits, data_burst, rng),
        BurstMark::PlaceA => damaged_a(&bits, rng),
        BurstMark::PlaceBToF => damaged_b_to_f(&bits, field, rng),
        BurstMark::Unrepeated => damaged_unrepeated(colour, burst, rng),
        BurstMark::Other => bits,
    }
}

/// Whether the information of a data type stands in a product code.
fn is_in_product(kind: u8) -> bool
    ensures product { result ≡ true → payload_of kind ≢ holds.Raw }
    ensures raw { result ≡ false → payload_of kind ≡ holds.Raw }
{
    kind != data_type::RATE_THREE_QUARTERS_DATA && kind != data_type::RATE_ONE_DATA
}

/// A data burst that was heard so.
fn damaged_data(colour: u8, bits: &Bits<264>, data_burst: &DataBurst, rng: &mut Pcg32) -> Bits<264>
    requires heard { IsHeardData colour data_burst.now bits.now }
    ensures damaged { IsDamagedData colour data_burst.now.kind data_burst.now.information result }
{
    let mut damaged = *bits;
    write_data_sync(&mut damaged, rng);
    write_slot_type(&mut damaged, rng);
    if is_in_product(data_burst.kind) {
        write_information(&mut damaged, &turned_product(&data_burst.information, rng));
    }
    damaged
}

/// Place A of a call.
fn damaged_a(bits: &Bits<264>, rng: &mut Pcg32) -> Bits<264>
    ensures damaged { IsDamagedVoiceSync bits.now result }
{
    let mut damaged = *bits;
    write_voice_sync(&mut damaged, rng);
    damaged
}

/// A place from B to F of a call.
fn damaged_b_to_f(bits: &Bits<264>, field: Option<u32>, rng: &mut Pcg32) -> Bits<264>
    ensures damaged { IsDamagedVoice field bits.now result }
{
    let mut damaged = *bits;
    write_emb(&mut damaged, rng);
    if let Some(embedded) = field {
        write_embedded(&mut damaged, embedded);
    }
    damaged
}

/// The sync of a mobile station: whether it is voice.
fn mobile_sync(burst: &[u8; 33]) -> Option<bool>
    ensures within { IfSome result (λ voice. HasSync (record { side = side.Ms; voice = voice }) (bits_of_octets burst.now)) }
    ensures only { (voice : Bool) → HasSync (record { side = side.Ms; voice = voice }) (bits_of_octets burst.now)
        → result ≡ Some voice }
{
    let sync = read_sync(burst)?;
    match sync.side {
        Side::Bs => None,
        Side::Ms => Some(sync.voice),
    }
}

/// A burst for which nothing is repeated.
fn damaged_unrepeated(colour: u8, burst: &[u8; 33], rng: &mut Pcg32) -> Bits<264>
    ensures damaged { IsDamagedUnrepeated colour (bits_of_octets burst.now) result }
{
    let bits = Bits::<264>::from_octets(burst);
    match mobile_sync(burst) {
        Some(true) => damaged_a(&bits, rng),
        Some(false) => damaged_unheard_data(&bits, rng),
        None => match read_emb(burst) {
            Some(emb) if emb.colour != colour => damaged_foreign_voice(&bits, rng),
            _ => bits,
        },
    }
}

/// A burst with the sync of data for which nothing is repeated.
fn damaged_unheard_data(bits: &Bits<264>, rng: &mut Pcg32) -> Bits<264>
    ensures damaged { IsDamagedUnheardData bits.now result }
{
    let mut damaged = *bits;
    write_data_sync(&mut damaged, rng);
    write_slot_type(&mut damaged, rng);
    damaged
}

/// A voice burst of another colour code, with no sync of a mobile station. It stays as it was where it would get one.
fn damaged_foreign_voice(bits: &Bits<264>, rng: &mut Pcg32) -> Bits<264>
    requires centre { HasNoMobileSync bits.now }
    ensures damaged { IsDamagedForeignVoice bits.now result }
{
    let mut damaged = *bits;
    write_emb(&mut damaged, rng);
    let octets = damaged.octets();
    match mobile_sync(&octets) {
        Some(_) => *bits,
        None => damaged,
    }
}
