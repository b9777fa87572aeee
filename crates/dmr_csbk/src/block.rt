//! The fields of a block, written and read.
ghost use Rattle.std.specs.Prelude.{◌≡◌, ◌<◌, List, Bool, IfOk, IfErr, IsOkAnd, take};
ghost use Rattle.dmr_bptc.specs.Decoding.{IsDamaged};
ghost use Rattle.dmr_bptc.specs.ProductWord.{IsProductWord, information};
ghost use Rattle.dmr_csbk.specs.Block.{csbk_bits, FitsCsbk, IsSealedCsbk, IsCsbk, IsReadCsbk, ShowsCsbkFault};

use crate::fault::CsbkFault;
use dmr_bits::{Bits, Reader, Writer, read_fields, write_fields};
use dmr_bptc::bptc_decode;
use dmr_checks::{Mask, opens, seal};

/// A control signalling block (ETSI TS 102 361-1, clause 7.2).
#[derive(Clone, Copy, Debug, PartialEq, Eq)]
pub struct Csbk {
    /// LB: this is the last block of a message.
    pub last: bool,
    /// PF: the contents are protected.
    pub protect: bool,
    /// CSBKO, the opcode, in six bits.
    pub code: u8,
    /// FID, the feature set to which the opcode belongs; 0 is the standard's.
    pub fid: u8,
    /// The 64 bits whose meaning the opcode gives.
    pub body: [u8; 8],
}

// The one list of fields, for the writer and the reader.
macro_rules! csbk_fields {
    ($each:ident, $($with:tt)*) => {
        $each!($($with)*; last: flag, protect: flag, code: number(u8, 6), fid: number(u8, 8), body: octets(8))
    };
}

/// The eighty bits of the fields.
fn field_list(csbk: &Csbk) -> Bits<80>
    requires fits { csbk.now.code < 64 }
    ensures value { result ≡ csbk_bits csbk.now }
    ensures fit { FitsCsbk csbk.now }
{
    let mut writer = Writer::<80>::new();
    csbk_fields!(write_fields, writer, csbk);
    writer.finish()
}

/// The 96 bits of a block, which a data burst of type 3 carries: its fields, sealed under the CSBK's mask.
/// ETSI TS 102 361-1, clause 7.2.
pub fn csbk_info(csbk: &Csbk) -> Bits<96>
    requires fits { csbk.now.code < 64 }
    ensures block { IsCsbk csbk.now result }
{
    let fields: [u8; 10] = field_list(csbk).octets();
    let mut writer = Writer::<96>::new();
    writer.push_octets(&seal(&fields, Mask::Csbk));
    writer.finish()
}

/// The fields at the front of 96 bits.
fn fields_of(message: &Bits<96>) -> Csbk
    ensures fields { take 80 message.now ≡ csbk_bits result }
    ensures fits { FitsCsbk result }
{
    let mut reader = Reader::<96>::new(message);
    csbk_fields!(read_fields, reader, Csbk)
}

/// The block that the information of a data burst of type 3 holds. ETSI TS 102 361-1, clause 7.2.
pub fn csbk_read(bits: &Bits<196>) -> Result<Csbk, CsbkFault>
    // A block is what the product code's bits say, and they are sealed.
    ensures block { IfOk result (IsReadCsbk bits.now) }
    ensures fault { IfErr result (λ e. ShowsCsbkFault e bits.now) }
    // Damage within the product code's reach is undone.
    ensures undone { (word : List Bool) → IsProductWord word → IsDamaged word bits.now → IsSealedCsbk (information word)
        → IsOkAnd result (λ csbk. IsCsbk csbk (information word)) }
{
    let Some(message) = bptc_decode(bits) else {
        return Err(CsbkFault::Bptc);
    };
    if !opens(&message.octets(), Mask::Csbk) {
        return Err(CsbkFault::Crc);
    }
    Ok(fields_of(&message))
}
