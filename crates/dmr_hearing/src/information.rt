//! What the information of a data burst is read as.
ghost use Rattle.std.specs.Prelude.{◌≡◌, None};
ghost use Rattle.dmr_hearing.specs.DataTypes as spec;
ghost use Rattle.dmr_hearing.specs.Reading.{IsReading};
ghost use Rattle.dmr_hearing.specs.declared.data_types.Payload.TheVariants as holds;

use crate::data_types::{Payload, payload_of};
use crate::heard::DataBurst;
use dmr_bits::Bits;
use dmr_bptc::{bptc_encode, bptc_restore};
use dmr_checks::{Mask, opens};
use dmr_link::{LcUse, lc_info, lc_read};

/// Gives the data burst that received information of a data type is read as, in a place that is there, since it is large.
pub(crate) fn read_data_burst(kind: u8, received: &Bits<196>, place: &mut Option<DataBurst>)
    ensures reading { IsReading (spec.payload_of kind) kind received.now place.new }
{
    match payload_of(kind) {
        Payload::Word => read_word(kind, received, place),
        Payload::Sealed(mask) => read_sealed(kind, mask, received, place),
        Payload::LinkControl(lc_use) => read_link_control(kind, lc_use, received, place),
        Payload::Raw => *place = Some(word_data_burst(kind, received)),
        Payload::Nothing => *place = None,
    }
}

/// Any 96 bits in a product word.
fn read_word(kind: u8, received: &Bits<196>, place: &mut Option<DataBurst>)
    ensures reading { IsReading holds.Word kind received.now place.new }
{
    let Some(restored) = bptc_restore(received) else {
        *place = None;
        return;
    };
    *place = Some(word_data_burst(kind, &restored.written));
}

/// 96 bits in a product word, where they are sealed under the mask.
fn read_sealed(kind: u8, mask: Mask, received: &Bits<196>, place: &mut Option<DataBurst>)
    ensures reading { IsReading (holds.Sealed mask) kind received.now place.new }
{
    let Some(restored) = bptc_restore(received) else {
        *place = None;
        return;
    };
    if !opens(&restored.information.octets(), mask) {
        *place = None;
        return;
    }
    *place = Some(word_data_burst(kind, &restored.written));
}

/// A link control, sealed anew.
fn read_link_control(kind: u8, lc_use: LcUse, received: &Bits<196>, place: &mut Option<DataBurst>)
    ensures reading { IsReading (holds.LinkControl lc_use) kind received.now place.new }
{
    match lc_read(received, lc_use) {
        Ok(lc) => {
            *place = Some(DataBurst {
                kind,
                information: bptc_encode(&lc_info(&lc, lc_use)),
                link_control: Some(lc),
            });
        }
        Err(_) => *place = None,
    }
}

/// A data burst of 196 bits that hold no link control: any as they are received, or the written form of a message.
#[inline(always)]
fn word_data_burst(kind: u8, information: &Bits<196>) -> DataBurst
    ensures kind { result.kind ≡ kind }
    ensures information { result.information ≡ information.now }
    ensures link_control { result.link_control ≡ None }
{
    DataBurst {
        kind,
        information: *information,
        link_control: None,
    }
}
