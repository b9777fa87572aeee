//! What a slot of the uplink is heard as.
ghost use Rattle.std.specs.Prelude.{◌≡◌, ℕ, List, Bool, Option, Some, IfSome, option_copied};
ghost use Rattle.dmr_bits.specs.Bits.{bits_of_octets};
ghost use Rattle.dmr_burst.specs.Layout.{information_field};
ghost use Rattle.dmr_burst.specs.SlotType.{HasSlotType};
ghost use Rattle.dmr_burst.specs.Sync.{HasSync};
ghost use Rattle.dmr_burst.specs.declared.sync.Side.TheVariants as side;
ghost use Rattle.dmr_hearing.specs.DataTypes as data_types;
ghost use Rattle.dmr_hearing.specs.Fit.{IsFitHeard};
ghost use Rattle.dmr_hearing.specs.Hearing.{Reads, IsHeardData, Hears};
ghost use Rattle.dmr_hearing.specs.Slots as spec;
ghost use Rattle.dmr_hearing.specs.declared.heard.DataBurst.{DataBurst};
ghost use Rattle.dmr_link.specs.declared.full_lc.FullLc.{FullLc};

use crate::heard::{DataBurst, Heard};
use crate::information::read_data_burst;
use dmr_bits::Bits;
use dmr_burst::{
    Side, read_emb, read_embedded, read_info, read_slot_type, read_sync, read_vocoder,
};

/// What a slot of the uplink is heard as by a repeater of a colour code below 16: silence as nothing, and a burst by its
/// fields, what is wrong within the reach of a code or a sync word undone. Only the sync words of mobile stations count
/// (this project's own). A data burst of another colour code is no data burst; an EMB is heard of any colour code.
/// What was sent is heard where the damage is within the limits: `laws::recorded_is_heard`.
pub fn hear(slot: Option<&[u8; 33]>, colour: u8) -> Heard
    // Each part is heard exactly where the burst has it.
    ensures heard { Hears colour (option_copied slot.entry) result }
    // What is read fits its fields.
    ensures fit { IsFitHeard result }
{
    let mut heard = silence();
    hear_into(slot, colour, &mut heard);
    heard
}

/// Hears a slot as `hear` does, in a place that is there, since what is heard is large.
#[inline(always)]
pub fn hear_into(slot: Option<&[u8; 33]>, colour: u8, heard: &mut Heard)
    ensures heard { Hears colour (option_copied slot.entry) heard.new }
    ensures fit { IsFitHeard heard.new }
{
    match slot {
        Some(burst) => hear_burst(burst, colour, heard),
        None => *heard = silence(),
    }
}

/// What nothing is heard as, whatever the colour code.
pub fn silence() -> Heard
    ensures value { result ≡ spec.silence }
{
    Heard {
        data_burst: None,
        voice: false,
        emb: None,
        embedded: 0,
        vocoder: Bits::<216>::zero(),
    }
}

/// Hears a burst.
fn hear_burst(burst: &[u8; 33], colour: u8, heard: &mut Heard)
    ensures heard { Hears colour (Some burst.now) heard.new }
{
    let sync = read_mobile_sync(burst);
    hear_data_burst(burst, sync, colour, &mut heard.data_burst);
    heard.voice = sync.unwrap_or(false);
    heard.emb = read_emb(burst);
    heard.embedded = read_embedded(burst);
    heard.vocoder = read_vocoder(burst);
}

/// The data burst of a burst, of which this is the sync, with the data sync of a mobile station.
fn hear_data_burst(burst: &[u8; 33], sync: Option<bool>, colour: u8, place: &mut Option<DataBurst>)
    requires within { IfSome sync (λ voice. HasSync (record { side = side.Ms; voice = voice }) (bits_of_octets burst.now)) }
    requires only { (voice : Bool) → HasSync (record { side = side.Ms; voice = voice }) (bits_of_octets burst.now)
        → sync ≡ Some voice }
    ensures within { IfSome place.new (λ data_burst. IsHeardData colour data_burst (bits_of_octets burst.now)) }
    ensures only { (data_burst : DataBurst) → IsHeardData colour data_burst (bits_of_octets burst.now)
        → place.new ≡ Some data_burst }
{
    match sync {
        Some(true) => *place = None,
        Some(false) => own_data_burst(burst, colour, place),
        None => *place = None,
    }
}

/// What a burst with the sync of data is heard as, where its slot type says the colour code.
fn own_data_burst(burst: &[u8; 33], colour: u8, place: &mut Option<DataBurst>)
    ensures within { IfSome place.new (λ data_burst.
        HasSlotType (record { colour = colour; kind = data_burst.kind }) (bits_of_octets burst.now)
        × Reads (data_types.payload_of data_burst.kind) (information_field (bits_of_octets burst.now)) data_burst.information
        data_burst.link_control) }
    ensures only { (kind : ℕ) (information : List Bool) (lc : Option FullLc)
        → HasSlotType (record { colour = colour; kind = kind }) (bits_of_octets burst.now)
        → Reads (data_types.payload_of kind) (information_field (bits_of_octets burst.now)) information lc
        → place.new ≡ Some (record { kind = kind; information = information; link_control = lc }) }
{
    let Some(slot_type) = read_slot_type(burst) else {
        *place = None;
        return;
    };
    if slot_type.colour != colour {
        *place = None;
        return;
    }
    read_data_burst(slot_type.kind, &read_info(burst), place);
}

/// The sync of a mobile station: whether it is voice.
fn read_mobile_sync(burst: &[u8; 33]) -> Option<bool>
    ensures within { IfSome result (λ voice. HasSync (record { side = side.Ms; voice = voice }) (bits_of_octets burst.now)) }
    ensures only { (voice : Bool) → HasSync (record { side = side.Ms; voice = voice }) (bits_of_octets burst.now)
        → result ≡ Some voice }
{
    let sync = read_sync(burst)?;
    match sync.side {
        Side::Bs => None,
        Side::Ms => Some(sync.voice),
    }
}
