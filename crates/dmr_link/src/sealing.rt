//! The parity that seals a link control, under the mask of its use.
ghost use Rattle.std.specs.Prelude.{◌≡◌, ◌<◌, ◌++◌, All};
ghost use Rattle.dmr_link.specs.Sealed.{parity_mask, masked, IsLc};

use crate::full_lc::FullLc;
use dmr_bits::Bits;
use dmr_rs::rs_parity;

/// What a full link control is sent as. Each use has a mask of its own for the parity (ETSI TS 102 361-1, annex B.3.12).
#[derive(Clone, Copy, Debug, PartialEq, Eq, Drop)]
pub enum LcUse {
    /// A voice LC header, a data burst of type 1.
    Header,
    /// A terminator with LC, a data burst of type 2.
    Terminator,
}

impl LcUse {
    /// What is added to each octet of the parity.
    fn mask(self) -> u8
        ensures value { result ≡ parity_mask self }
    {
        match self {
            LcUse::Header => 0x96,
            LcUse::Terminator => 0x99,
        }
    }

    /// Adds the mask to the last three of twelve octets, the parity; a second time takes it off.
    pub(crate) fn masked(self, octets: &[u8; 12]) -> [u8; 12]
        ensures value { result ≡ masked self octets.now }
    {
        let mut masked = *octets;
        for place in 9..12 {
            masked[place] ^= self.mask();
        }
        masked
    }
}

/// The 96 bits of a link control, which a data burst of type 1 or 2 carries: its nine octets, and three of parity
/// under the mask of its use. ETSI TS 102 361-1, annexes B.3.6 and B.3.12.
pub fn lc_info(lc: &FullLc, lc_use: LcUse) -> Bits<96>
    requires fits { lc.now.flco < 64 }
    ensures lc { IsLc lc_use lc.now result }
{
    let octets = lc.octets();
    let word = joined(&octets, &rs_parity(&octets));
    Bits::<96>::from_octets(&lc_use.masked(&word))
}

/// Nine octets and their parity.
fn joined(octets: &[u8; 9], parity: &[u8; 3]) -> [u8; 12]
    ensures value { result ≡ octets.now ++ parity.now }
    ensures octets { All (λ octet. octet < 256) result }
{
    let mut word = [0; 12];
    word[..9].copy_from_slice(octets);
    word[9..].copy_from_slice(parity);
    word
}
