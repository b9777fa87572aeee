//! The link control that a burst holds.
ghost use Rattle.std.specs.Prelude.{◌≡◌, ◌<◌, List, Bool, Ok, IfOk, IfErr, IsOkAnd, All, take};
ghost use Rattle.dmr_bits.specs.Bits.{bits_of_octets};
ghost use Rattle.dmr_bptc.specs.Decoding.{IsDamaged};
ghost use Rattle.dmr_bptc.specs.ProductWord.{IsProductWord, information};
ghost use Rattle.dmr_link.specs.FullLc.{full_lc_bits, FitsFullLc};
ghost use Rattle.dmr_link.specs.Sealed.{IsSealedLc, IsLc, IsWithinOctet, IsReadLc, ShowsLcFault};
ghost use Rattle.dmr_link.specs.declared.full_lc.FullLc.{FullLc};

use crate::fault::LcFault;
use crate::full_lc::FullLc;
use crate::sealing::LcUse;
use dmr_bits::Bits;
use dmr_bptc::bptc_decode;
use dmr_rs::rs_correct;

/// The link control that the information of a data burst of type 1 or 2 holds. One wrong octet of its twelve is
/// corrected, which is this project's own choice.
pub fn lc_read(bits: &Bits<196>, lc_use: LcUse) -> Result<FullLc, LcFault>
    ensures lc { IfOk result (λ lc. IsReadLc lc_use bits.now lc) }
    ensures only { (lc : FullLc) → IsReadLc lc_use bits.now lc → result ≡ Ok lc }
    ensures fault { IfErr result (λ e. ShowsLcFault lc_use e bits.now) }
    // Damage within the product code's reach is undone,
    ensures undone { (word : List Bool) → IsProductWord word → IsDamaged word bits.now → IsSealedLc lc_use (information word)
        → IsOkAnd result (λ lc. IsLc lc_use lc (information word)) }
    // and so is an octet that was wrong before it.
    ensures octet_undone { (word sealed : List Bool) → IsProductWord word → IsDamaged word bits.now
        → IsWithinOctet sealed (information word) → IsSealedLc lc_use sealed → IsOkAnd result (λ lc. IsLc lc_use lc sealed) }
{
    let Some(message) = bptc_decode(bits) else {
        return Err(LcFault::Bptc);
    };
    let Some(word) = rs_correct(&lc_use.masked(&message.octets())) else {
        return Err(LcFault::Parity);
    };
    Ok(fields_of(&word))
}

/// The fields that the first nine of twelve octets spell.
fn fields_of(word: &[u8; 12]) -> FullLc
    ensures fields { full_lc_bits result ≡ bits_of_octets (take 9 word.now) }
    ensures fit { FitsFullLc result }
    ensures octets { All (λ octet. octet < 256) word.now }
{
    let mut octets = [0; 9];
    octets.copy_from_slice(&word[..9]);
    FullLc::from_octets(&octets)
}
