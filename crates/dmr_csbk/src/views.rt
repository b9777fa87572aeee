//! What the bodies of some blocks mean.
ghost use Rattle.std.specs.Prelude.{◌≡◌, ◌==◌, ◌↔◌, IsSome, IfSome, slice_index_or, false};
ghost use Rattle.dmr_bits.specs.Bits.{number_of, part, bits_of_octets};
ghost use Rattle.dmr_csbk.specs.Meaning.{down_act_in, meaning_of, preamble_in};
ghost use Rattle.dmr_csbk.specs.declared.meaning.ControlMeaning.TheVariants as meaning;

use crate::block::Csbk;
use dmr_bits::Bits;

/// The opcode of BS_Dwn_Act, by which a radio asks a base station to transmit (ETSI TS 102 361-2, clause 7.1.2).
pub(crate) const DOWN_ACT: u8 = 56;

/// The opcode of the preamble, which announces blocks that follow (ETSI TS 102 361-2, clause 7.1.2).
pub const PREAMBLE: u8 = 61;

/// The body of BS_Dwn_Act, behind its sixteen reserved bits. ETSI TS 102 361-2, clause 7.1.2.
#[derive(Clone, Copy, Debug, PartialEq, Eq)]
pub struct BsDownAct {
    /// The base station that is asked, an address of 24 bits.
    pub bs: u32,
    /// The radio that asks, an address of 24 bits.
    pub source: u32,
}

/// The body of a preamble. ETSI TS 102 361-2, clause 7.1.2.
#[derive(Clone, Copy, Debug, PartialEq, Eq)]
pub struct Preamble {
    /// The blocks that follow are of a packet; else they are CSBKs.
    pub packet: bool,
    /// The target is a talk group; else it is a radio.
    pub group: bool,
    /// How many bursts follow.
    pub left: u8,
    /// For whom they are, an address of 24 bits.
    pub target: u32,
    /// From whom they are, an address of 24 bits.
    pub source: u32,
}

impl BsDownAct {
    /// The fields of a body that is of BS_Dwn_Act.
    pub(crate) fn of_body(body: &[u8; 8]) -> BsDownAct
        ensures value { result ≡ down_act_in body.now }
    {
        let body = Bits::<64>::from_octets(body);
        BsDownAct {
            bs: body.field(16, 24) as u32,
            source: body.field(40, 24) as u32,
        }
    }
}

impl Preamble {
    /// The fields of a body that is a preamble's.
    pub(crate) fn of_body(body: &[u8; 8]) -> Preamble
        ensures value { result ≡ preamble_in body.now }
    {
        let body = Bits::<64>::from_octets(body);
        Preamble {
            packet: body.get(0),
            group: body.get(1),
            left: body.field(8, 8) as u8,
            target: body.field(16, 24) as u32,
            source: body.field(40, 24) as u32,
        }
    }
}

impl Csbk {
    /// Whether the opcode is one of the standard's feature set; a maker's gives the same number another meaning. ETSI TS 102
    /// 361-1, clause 7.2.
    pub fn is_standard(&self) -> bool
        ensures value { result ≡ (self.now.fid == 0) }
    {
        self.fid == 0
    }

    /// The body as BS_Dwn_Act, where the opcode says so. It tests the opcode alone.
    pub fn down_act(&self) -> Option<BsDownAct>
        ensures opcode { IsSome result ↔ (self.now.code ≡ 56) }
        ensures bs { IfSome result (λ act. act.bs ≡ number_of (part (bits_of_octets self.now.body) 16 40)) }
        ensures source { IfSome result (λ act. act.source ≡ number_of (part (bits_of_octets self.now.body) 40 64)) }
        ensures meaning { self.now.fid ≡ 0 → IfSome result (λ act. meaning_of self.now ≡ meaning.BsDownAct act) }
    {
        if self.code != DOWN_ACT {
            return None;
        }
        Some(BsDownAct::of_body(&self.body))
    }

    /// The body as a preamble, where the opcode says so. It tests the opcode alone.
    pub fn preamble(&self) -> Option<Preamble>
        ensures opcode { IsSome result ↔ (self.now.code ≡ 61) }
        ensures packet { IfSome result (λ preamble. preamble.packet ≡ slice_index_or (bits_of_octets self.now.body) 0 false) }
        ensures group { IfSome result (λ preamble. preamble.group ≡ slice_index_or (bits_of_octets self.now.body) 1 false) }
        ensures left { IfSome result (λ preamble. preamble.left ≡ number_of (part (bits_of_octets self.now.body) 8 16)) }
        ensures target { IfSome result (λ preamble. preamble.target ≡ number_of (part (bits_of_octets self.now.body) 16 40)) }
        ensures source { IfSome result (λ preamble. preamble.source ≡ number_of (part (bits_of_octets self.now.body) 40 64)) }
        ensures meaning { self.now.fid ≡ 0 → IfSome result (λ preamble. meaning_of self.now ≡ meaning.Preamble preamble) }
    {
        if self.code != PREAMBLE {
            return None;
        }
        Some(Preamble::of_body(&self.body))
    }
}
