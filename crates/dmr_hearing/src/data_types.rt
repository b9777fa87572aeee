//! What the information of each data type holds. ETSI TS 102 361-1, clause 9.3.6.
ghost use Rattle.std.specs.Prelude.{◌≡◌};
ghost use Rattle.dmr_hearing.specs.DataTypes as spec;

use dmr_burst::data_type;
use dmr_checks::Mask;
use dmr_link::LcUse;

/// What the 196 bits of information of a data burst hold.
#[derive(Clone, Copy, Debug, PartialEq, Eq, Drop)]
pub enum Payload {
    /// 96 bits of any kind, in a product word.
    Word,
    /// 96 bits that are sealed under a mask, in a product word.
    Sealed(Mask),
    /// A link control that is sealed for its use, in a product word.
    LinkControl(LcUse),
    /// 196 bits of any kind.
    Raw,
    /// Nothing that a repeater takes from a mobile station.
    Nothing,
}

/// What the information of a data type holds.
pub(crate) fn payload_of(kind: u8) -> Payload
    ensures value { result ≡ spec.payload_of kind }
{
    match kind {
        data_type::VOICE_LC_HEADER => Payload::LinkControl(LcUse::Header),
        data_type::TERMINATOR_WITH_LC => Payload::LinkControl(LcUse::Terminator),
        data_type::CSBK => Payload::Sealed(Mask::Csbk),
        data_type::DATA_HEADER => Payload::Sealed(Mask::Header),
        data_type::PI_HEADER
        | data_type::MBC_HEADER
        | data_type::MBC_CONTINUATION
        | data_type::RATE_HALF_DATA
        | data_type::UNIFIED_SINGLE_BLOCK_DATA => Payload::Word,
        data_type::RATE_THREE_QUARTERS_DATA | data_type::RATE_ONE_DATA => Payload::Raw,
        _ => Payload::Nothing,
    }
}
