//! Data bursts by themselves.
use dmr_bits::Bits;
use dmr_link::FullLc;

/// A data burst by itself, with what it carries. ETSI TS 102 361-1, clause 9.3.6, has the data types.
#[derive(Clone, Copy, PartialEq, Eq)]
pub enum LoneBurst {
    /// A terminator with this link control.
    Terminator(FullLc),
    /// A PI header of these twelve octets, the check among them.
    PiHeader([u8; 12]),
    /// The header of a multi-block CSBK, of these twelve octets.
    MbcHeader([u8; 12]),
    /// A further block of a multi-block CSBK, of these twelve octets.
    MbcBlock([u8; 12]),
    /// Unified single block data of these twelve octets.
    UnifiedBlock([u8; 12]),
    /// A block at rate 1/2, of these twelve octets.
    RateHalf([u8; 12]),
    /// A block at rate 3/4, with these bits of information as they are sent.
    RateThreeQuarters(Bits<196>),
    /// A block at rate 1, with these bits of information as they are sent.
    RateOne(Bits<196>),
}
