//! The slot type of a data burst.
ghost use Rattle.std.specs.Prelude.{◌≡◌, ◌<◌, Some, IfSome};
ghost use Rattle.dmr_bits.specs.Bits.{bits_of_octets};
ghost use Rattle.dmr_codes.specs.Seven.{IsGolay20};
ghost use Rattle.dmr_burst.specs.SlotType.{HasSlotType, slot_type_of};
ghost use Rattle.dmr_burst.specs.declared.slot_type.SlotType.{SlotType};

use crate::layout::two_pieces;
use dmr_bits::{Bits, Writer};
use dmr_codes::{BlockCode, Golay20};

/// The slot type of a data burst: the colour code and the data type, each below 16.
/// ETSI TS 102 361-1, clause 9.1.3.
#[derive(Clone, Copy, Debug, PartialEq, Eq, Drop)]
pub struct SlotType {
    pub colour: u8,
    pub kind: u8,
}

/// The word of a slot type.
pub(crate) fn slot_type_word(colour: u8, kind: u8) -> Bits<20>
    requires colour { colour < 16 }
    requires kind { kind < 16 }
    ensures word { IsGolay20 result }
    ensures says { slot_type_of result ≡ record { colour = colour; kind = kind } }
{
    let mut information = Writer::<8>::new();
    information.push(4, u64::from(colour));
    information.push(4, u64::from(kind));
    Golay20::encode(&information.finish())
}

/// The slot type of a data burst, with at most three wrong bits undone. ETSI TS 102 361-1, clause 9.1.3.
pub fn read_slot_type(burst: &[u8; 33]) -> Option<SlotType>
    ensures within { IfSome result (λ slot_type. HasSlotType slot_type (bits_of_octets burst.now)) }
    ensures only { (slot_type : SlotType)
        → HasSlotType slot_type (bits_of_octets burst.now) → result ≡ Some slot_type }
{
    let word = Golay20::decode(&two_pieces(burst, 98, 108, 156, 166))?;
    Some(SlotType {
        colour: word.field(0, 4) as u8,
        kind: word.field(4, 4) as u8,
    })
}
