//! What a call's bursts carry: embedded, short and full link control.
ghost use Rattle.std.specs.Prelude.{◌≡◌, ◌≢◌, ◌%◌, ◌^◌, ◌<◌, ◌≤◌, Bool, List, map, take, true, false};
ghost use Rattle.dmr_bits.specs.Bits.{bits_of, bits_of_octets};
ghost use Rattle.dmr_bptc.specs.Decoding.{IsDamaged};
ghost use Rattle.dmr_bptc.specs.ProductWord.{IsProductWord, information};
ghost use Rattle.dmr_embedded.specs.EmbeddedWord.{IsEmbedded, IsEmbeddedWord, bits_of_fields, lc_octets};
ghost use Rattle.dmr_embedded.specs.Extracting.{AreRowsDamaged, IsExtracted};
ghost use Rattle.dmr_embedded.specs.ShortLc.{IsShortLc};
ghost use Rattle.dmr_link.specs.Sealed.{IsLc, IsReadLc, IsSealedLc, IsWithinOctet, ShowsLcFault};
ghost use Rattle.dmr_link.specs.declared.full_lc.FullLc.{FullLc};
ghost use Rattle.dmr_codecs.specs.Told.{extracted_told, fragments_told, lc_fault_told, lc_use_told, link_control_given};
ghost use Rattle.dmr_codecs.specs.Told.{link_control_told};

use crate::numbers::to_number;
use crate::product_code::first_bits;
use crate::values::BurstLinkControl;
use dmr_embedded::{EmbedFault, embed, extract, short_lc};
use dmr_link::{FullLc, LcFault, LcUse, lc_info, lc_read};

/// The four 32-bit fields that carry a link control of nine octets, for four voice bursts in turn.
/// ETSI TS 102 361-1, annex B.2.1.
#[unsafe(no_mangle)]
pub extern "C" fn dmr_embed(octets: &[u8; 9], fields: &mut [u32; 4])
    ensures embedded { IsEmbedded octets.now fields.new }
{
    *fields = embed(octets);
}

/// The link control of nine octets that four fields carry. It answers 0, or else 1 for an unreadable row, 2 for odd columns and 3
/// for a wrong checksum, and then nothing is written. ETSI TS 102 361-1, annex B.2.1; what is refused is this project's own.
#[unsafe(no_mangle)]
pub extern "C" fn dmr_extract(fields: &[u32; 4], octets: &mut [u8; 9]) -> u8
    ensures extracted { IsExtracted fields.now (extracted_told result octets.new) }
    ensures status { result ≤ 3 }
    ensures unwritten { (result ≡ 0 → ⊥) → octets.new ≡ octets.old }
{
    match extract(fields) {
        Ok(found) => {
            *octets = found;
            0
        }
        Err(EmbedFault::Row) => 1,
        Err(EmbedFault::Columns) => 2,
        Err(EmbedFault::Checksum) => 3,
    }
}

/// The four fragments of 17 bits that carry a Short LC, of the 4 lowest bits of its opcode and the 24 lowest of its body.
/// ETSI TS 102 361-1, annex B.2.3.
#[unsafe(no_mangle)]
pub extern "C" fn dmr_short_lc(slco: u8, body: u32, fragments: &mut [u32; 4])
    ensures carried { IsShortLc (slco % 16) (body % 2 ^ 24) (fragments_told fragments.new) }
{
    let four = short_lc(slco % 16, body % (1 << 24));
    let four = &four[..];
    *fragments = [
        to_number(&four[0]),
        to_number(&four[1]),
        to_number(&four[2]),
        to_number(&four[3]),
    ];
}

/// What a number says that a full link control is sent as.
fn lc_use_of(lc_use: u8) -> LcUse
    ensures told { result ≡ lc_use_told lc_use }
{
    match lc_use {
        0 => LcUse::Header,
        _ => LcUse::Terminator,
    }
}

/// The fields of a full link control as they cross.
fn fields_of(lc: &FullLc) -> BurstLinkControl
    ensures told { link_control_told result ≡ lc.now }
{
    BurstLinkControl {
        protect: lc.protect,
        reserved: lc.reserved,
        flco: lc.flco,
        fid: lc.fid,
        body: lc.body,
    }
}

/// The twelve octets of a full link control under the parity of its use, which the product code carries: 0 a voice LC header, and
/// any other a terminator with LC. Of the opcode only the 6 lowest bits are read. ETSI TS 102 361-1, annexes B.3.6 and B.3.12.
#[unsafe(no_mangle)]
pub extern "C" fn dmr_lc_write(lc: &BurstLinkControl, lc_use: u8, message: &mut [u8; 12])
    ensures lc { IsLc (lc_use_told lc_use) (link_control_given lc.now) (bits_of_octets message.new) }
{
    let given = FullLc {
        protect: lc.protect,
        reserved: lc.reserved,
        flco: lc.flco % 64,
        fid: lc.fid,
        body: lc.body,
    };
    *message = lc_info(&given, lc_use_of(lc_use)).octets();
}

/// The full link control that 196 received bits hold, one wrong octet corrected behind the product code. It answers 0, or else 1
/// for no product word and 2 for a wrong parity, and then nothing is written. ETSI TS 102 361-1, annexes B.1.1, B.3.6 and B.3.12;
/// that an octet is corrected is this project's own.
#[unsafe(no_mangle)]
pub extern "C" fn dmr_lc_read(received: &[u8; 25], lc_use: u8, lc: &mut BurstLinkControl) -> u8
    ensures lc { result ≡ 0 → IsReadLc (lc_use_told lc_use) (take 196 (bits_of_octets received.now)) (link_control_told lc.new) }
    ensures only { (one : FullLc) → IsReadLc (lc_use_told lc_use) (take 196 (bits_of_octets received.now)) one
        → (result ≡ 0) × (link_control_told lc.new ≡ one) }
    ensures fault { result ≢ 0 → ShowsLcFault (lc_use_told lc_use) (lc_fault_told result)
        (take 196 (bits_of_octets received.now)) }
    // Damage within the product code's reach is undone,
    ensures undone { (word : List Bool) → IsProductWord word → IsDamaged word (take 196 (bits_of_octets received.now))
        → IsSealedLc (lc_use_told lc_use) (information word)
        → (result ≡ 0) × IsLc (lc_use_told lc_use) (link_control_told lc.new) (information word) }
    // and so is an octet that was wrong before it.
    ensures octet_undone { (word sealed : List Bool) → IsProductWord word
        → IsDamaged word (take 196 (bits_of_octets received.now)) → IsWithinOctet sealed (information word)
        → IsSealedLc (lc_use_told lc_use) sealed
        → (result ≡ 0) × IsLc (lc_use_told lc_use) (link_control_told lc.new) sealed }
    ensures status { result ≤ 2 }
    ensures unwritten { result ≢ 0 → lc.new ≡ lc.old }
{
    match lc_read(&first_bits(received), lc_use_of(lc_use)) {
        Ok(found) => {
            *lc = fields_of(&found);
            0
        }
        Err(LcFault::Bptc) => 1,
        Err(LcFault::Parity) => 2,
    }
}
