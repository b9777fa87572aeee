//! The embedded signalling of a voice burst.
ghost use Rattle.std.specs.Prelude.{◌≡◌, ◌<◌, Some, IfSome};
ghost use Rattle.dmr_bits.specs.Bits.{bits_of_octets};
ghost use Rattle.dmr_codes.specs.Seven.{IsResidue16};
ghost use Rattle.dmr_burst.specs.Emb.{HasEmb, emb_of};
ghost use Rattle.dmr_burst.specs.declared.emb.Emb.{Emb};

use crate::layout::two_pieces;
use dmr_bits::{Bits, Writer};
use dmr_codes::{BlockCode, Residue16};

/// The embedded signalling of a voice burst. ETSI TS 102 361-1, clause 9.1.2.
#[derive(Clone, Copy, Debug, PartialEq, Eq, Drop)]
pub struct Emb {
    /// The colour code, below 16.
    pub colour: u8,
    /// The pre-emption and power control indicator (PI). A PI header has another one, the privacy indicator.
    pub pi: bool,
    /// The link control start and stop, below 4.
    pub lcss: u8,
}

/// The word of an EMB.
pub(crate) fn emb_word(emb: Emb) -> Bits<16>
    requires colour { emb.colour < 16 }
    requires lcss { emb.lcss < 4 }
    ensures word { IsResidue16 result }
    ensures says { emb_of result ≡ emb }
{
    let mut information = Writer::<7>::new();
    information.push(4, u64::from(emb.colour));
    information.push_bit(emb.pi);
    information.push(2, u64::from(emb.lcss));
    Residue16::encode(&information.finish())
}

/// The embedded signalling of a voice burst, with at most two wrong bits undone. ETSI TS 102 361-1, clause 9.1.2.
pub fn read_emb(burst: &[u8; 33]) -> Option<Emb>
    ensures within { IfSome result (λ emb. HasEmb emb (bits_of_octets burst.now)) }
    ensures only { (emb : Emb) → HasEmb emb (bits_of_octets burst.now) → result ≡ Some emb }
{
    let word = Residue16::decode(&two_pieces(burst, 108, 116, 148, 156))?;
    Some(Emb {
        colour: word.field(0, 4) as u8,
        pi: word.get(4),
        lcss: word.field(5, 2) as u8,
    })
}
