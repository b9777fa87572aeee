//! The cyclic redundancy checks.
ghost use Rattle.std.specs.Prelude.{◌≡◌, ℕ, ◌%◌, ◌^◌, ◌<◌, ◌++◌, ◌↔◌, IsTrue, All, List, not, map, length, take, true, false};
ghost use Rattle.dmr_bits.specs.Bits.{bits_of, bits_of_octets};
ghost use Rattle.dmr_checks.specs.Generators.{ccitt_generator, crc9_generator, crc8_generator, crc32_generator, Completes};
ghost use Rattle.dmr_checks.specs.Pairs.{swap_pairs};
ghost use Rattle.dmr_checks.specs.Sealed.{IsSealed};
ghost use Rattle.dmr_codecs.specs.Told.{mask_told};

use crate::numbers::to_bits;
use dmr_checks::{Mask, ccitt, crc8, crc9, crc32, opens, seal};

/// The CRC-CCITT of octets: behind them, its bits inverted make a multiple of x^16 + x^12 + x^5 + 1.
/// ETSI TS 102 361-1, annex B.3.8.
#[unsafe(no_mangle)]
pub extern "C" fn dmr_ccitt(octets: &[u8]) -> u16
    ensures seals { Completes ccitt_generator (bits_of_octets octets.now) (map not (bits_of 16 result)) }
{
    ccitt(octets)
}

/// The CRC-9 of a block's octets and the 7 lowest bits of its serial number: behind them, its bits inverted make a multiple of
/// x^9 + x^6 + x^4 + x^3 + 1. ETSI TS 102 361-1, annex B.3.10; the order and the inversion are this project's own.
#[unsafe(no_mangle)]
pub extern "C" fn dmr_crc9(octets: &[u8], serial: u8) -> u16
    ensures fits { result < 2 ^ 9 }
    ensures seals { Completes crc9_generator (bits_of_octets octets.now ++ bits_of 7 (serial % 128)) (map not (bits_of 9 result)) }
{
    crc9(octets, serial % 128)
}

/// The CRC-8 of the 28 lowest bits of a number: behind them, its bits make a multiple of x^8 + x^2 + x + 1.
/// ETSI TS 102 361-1, annex B.3.7.
#[unsafe(no_mangle)]
pub extern "C" fn dmr_crc8(bits: u32) -> u8
    ensures seals { Completes crc8_generator (bits_of 28 bits) (bits_of 8 result) }
{
    crc8(&to_bits(bits))
}

/// The CRC-32 of octets that are taken in pairs, the second octet of each pair first: behind them, its bits make a multiple of the
/// generator. False where one octet has no other, and then nothing is written. ETSI TS 102 361-1, annex B.3.9; the order is this
/// project's own.
#[unsafe(no_mangle)]
pub extern "C" fn dmr_crc32(octets: &[u8], check: &mut u32) -> bool
    ensures pairs { IsTrue result ↔ (length octets.now % 2 ≡ 0) }
    ensures seals { result ≡ true → Completes crc32_generator (bits_of_octets (swap_pairs octets.now)) (bits_of 32 check.new) }
    ensures unwritten { result ≡ false → check.new ≡ check.old }
{
    if octets.len() % 2 == 0 {
        *check = crc32(octets);
        true
    } else {
        false
    }
}

/// What a number says that a block is used for.
fn mask_of(block_use: u8) -> Mask
    ensures told { result ≡ mask_told block_use }
{
    match block_use {
        0 => Mask::Pi,
        1 => Mask::Csbk,
        _ => Mask::Header,
    }
}

/// The twelve octets that begin with these ten and are sealed for a use: 0 a PI header, 1 a control signalling block, 2 a data
/// header. ETSI TS 102 361-1, annexes B.3.8 and B.3.12.
#[unsafe(no_mangle)]
pub extern "C" fn dmr_seal(octets: &[u8; 10], block_use: u8, block: &mut [u8; 12])
    ensures octets { take 10 block.new ≡ octets.now }
    ensures sealed { IsSealed (mask_told block_use) block.new }
{
    *block = seal(octets, mask_of(block_use));
}

/// Whether twelve octets are sealed for a use: 0 a PI header, 1 a control signalling block, 2 a data header.
/// ETSI TS 102 361-1, annexes B.3.8 and B.3.12.
#[unsafe(no_mangle)]
pub extern "C" fn dmr_opens(block: &[u8; 12], block_use: u8) -> bool
    ensures sealed { IsTrue result ↔ IsSealed (mask_told block_use) block.now }
{
    opens(block, mask_of(block_use))
}
