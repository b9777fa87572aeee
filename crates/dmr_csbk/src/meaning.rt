//! What a block means.
ghost use Rattle.std.specs.Prelude.{◌≡◌};
ghost use Rattle.dmr_csbk.specs.Meaning.{meaning_of};

use crate::block::Csbk;
use crate::views::{BsDownAct, DOWN_ACT, PREAMBLE, Preamble};

/// What a control signalling block means, by its feature set and its opcode: the blocks of the standard that are known here, each
/// with its fields. ETSI TS 102 361-2, clause 7.1.2.
#[derive(Clone, Copy, Debug, PartialEq, Eq)]
pub enum ControlMeaning {
    /// BS_Dwn_Act: a radio asks a base station to transmit.
    BsDownAct(BsDownAct),
    /// A preamble: blocks follow.
    Preamble(Preamble),
    /// None of these: another opcode, or one of a maker's feature set.
    Other,
}

impl Csbk {
    /// What the block means. A maker's feature set gives the standard's opcodes other meanings, so no block of one is known here.
    /// ETSI TS 102 361-1, clause 7.2.
    pub fn meaning(&self) -> ControlMeaning
        ensures value { result ≡ meaning_of self.now }
    {
        if !self.is_standard() {
            return ControlMeaning::Other;
        }
        match self.code {
            DOWN_ACT => ControlMeaning::BsDownAct(BsDownAct::of_body(&self.body)),
            PREAMBLE => ControlMeaning::Preamble(Preamble::of_body(&self.body)),
            _ => ControlMeaning::Other,
        }
    }
}
