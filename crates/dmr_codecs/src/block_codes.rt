//! The seven block codes.
ghost use Rattle.std.specs.Prelude.{◌≡◌, ◌-◌, ◌^◌, ◌<◌, ◌≤◌, Bool, List, true, false, take, IfSome, IfNone, IsSomeAnd};
ghost use Rattle.dmr_bits.specs.Bits.{bits_of, distance};
ghost use Rattle.dmr_codes.specs.Code.{IsWord};
ghost use Rattle.dmr_codes.specs.Seven.{IsGolay20, IsResidue16, IsHamming7, IsHamming13, IsHamming15, IsHamming16, IsHamming17};

use crate::numbers::{to_bits, to_number};
use dmr_codes::{
    BlockCode, Golay20, Hamming7, Hamming13, Hamming15, Hamming16, Hamming17, Residue16,
};

/// The word of a code that begins with the information, which stands in the `K` lowest bits of a number.
fn encode<const N: usize, const K: usize, C: BlockCode<N, K>>(information: u32) -> u32
    requires narrow { N ≤ 32 }
    requires information { K ≤ 32 }
    ensures word { IsWord C.COLUMNS (N - K) (bits_of N result) }
    ensures information { take K (bits_of N result) ≡ bits_of K information }
    ensures fits { result < 2 ^ N }
{
    to_number(&C::encode(&to_bits(information)))
}

/// The word of a code within its reach of what was received, which stands in the `N` lowest bits of a number. Where there is none,
/// nothing is written.
fn decode<const N: usize, const K: usize, C: BlockCode<N, K>>(received: u32, word: &mut u32) -> bool
    requires narrow { N ≤ 32 }
    ensures within { result ≡ true → IsWord C.COLUMNS (N - K) (bits_of N word.new)
        × (distance (bits_of N word.new) (bits_of N received) ≤ C.REACH) }
    ensures only { (w : List Bool) → IsWord C.COLUMNS (N - K) w → distance w (bits_of N received) ≤ C.REACH
        → (result ≡ true) × (bits_of N word.new ≡ w) }
    ensures fits { result ≡ true → word.new < 2 ^ N }
    ensures unwritten { result ≡ false → word.new ≡ word.old }
{
    match C::decode(&to_bits(received)) {
        Some(bits) => {
            *word = to_number(&bits);
            true
        }
        None => false,
    }
}

/// The word of the Golay code (20,8) that begins with the 8 lowest bits of `information`.
/// ETSI TS 102 361-1, annex B.3.1.
#[unsafe(no_mangle)]
pub extern "C" fn dmr_golay20_encode(information: u32) -> u32
    ensures word { IsGolay20 (bits_of 20 result) }
    ensures information { take 8 (bits_of 20 result) ≡ bits_of 8 information }
    ensures fits { result < 2 ^ 20 }
{
    encode::<20, 8, Golay20>(information)
}

/// The word of the Golay code (20,8) within 3 bits of the 20 lowest of `received`; false where there is none.
/// ETSI TS 102 361-1, annex B.3.1.
#[unsafe(no_mangle)]
pub extern "C" fn dmr_golay20_decode(received: u32, word: &mut u32) -> bool
    ensures within { result ≡ true → IsGolay20 (bits_of 20 word.new)
        × (distance (bits_of 20 word.new) (bits_of 20 received) ≤ 3) }
    ensures only { (w : List Bool) → IsGolay20 w → distance w (bits_of 20 received) ≤ 3
        → (result ≡ true) × (bits_of 20 word.new ≡ w) }
    ensures fits { result ≡ true → word.new < 2 ^ 20 }
    ensures unwritten { result ≡ false → word.new ≡ word.old }
{
    decode::<20, 8, Golay20>(received, word)
}

/// The word of the quadratic residue code (16,7) that begins with the 7 lowest bits of `information`.
/// ETSI TS 102 361-1, annex B.3.2.
#[unsafe(no_mangle)]
pub extern "C" fn dmr_residue16_encode(information: u32) -> u32
    ensures word { IsResidue16 (bits_of 16 result) }
    ensures information { take 7 (bits_of 16 result) ≡ bits_of 7 information }
    ensures fits { result < 2 ^ 16 }
{
    encode::<16, 7, Residue16>(information)
}

/// The word of the quadratic residue code (16,7) within 2 bits of the 16 lowest of `received`; false where there is none.
/// ETSI TS 102 361-1, annex B.3.2.
#[unsafe(no_mangle)]
pub extern "C" fn dmr_residue16_decode(received: u32, word: &mut u32) -> bool
    ensures within { result ≡ true → IsResidue16 (bits_of 16 word.new)
        × (distance (bits_of 16 word.new) (bits_of 16 received) ≤ 2) }
    ensures only { (w : List Bool) → IsResidue16 w → distance w (bits_of 16 received) ≤ 2
        → (result ≡ true) × (bits_of 16 word.new ≡ w) }
    ensures fits { result ≡ true → word.new < 2 ^ 16 }
    ensures unwritten { result ≡ false → word.new ≡ word.old }
{
    decode::<16, 7, Residue16>(received, word)
}

/// The word of the Hamming code (7,4) that begins with the 4 lowest bits of `information`.
/// ETSI TS 102 361-1, annex B.3.5.
#[unsafe(no_mangle)]
pub extern "C" fn dmr_hamming7_encode(information: u32) -> u32
    ensures word { IsHamming7 (bits_of 7 result) }
    ensures information { take 4 (bits_of 7 result) ≡ bits_of 4 information }
    ensures fits { result < 2 ^ 7 }
{
    encode::<7, 4, Hamming7>(information)
}

/// The word of the Hamming code (7,4) within 1 bit of the 7 lowest of `received`; false where there is none.
/// ETSI TS 102 361-1, annex B.3.5.
#[unsafe(no_mangle)]
pub extern "C" fn dmr_hamming7_decode(received: u32, word: &mut u32) -> bool
    ensures within { result ≡ true → IsHamming7 (bits_of 7 word.new)
        × (distance (bits_of 7 word.new) (bits_of 7 received) ≤ 1) }
    ensures only { (w : List Bool) → IsHamming7 w → distance w (bits_of 7 received) ≤ 1
        → (result ≡ true) × (bits_of 7 word.new ≡ w) }
    ensures fits { result ≡ true → word.new < 2 ^ 7 }
    ensures unwritten { result ≡ false → word.new ≡ word.old }
{
    decode::<7, 4, Hamming7>(received, word)
}

/// The word of the Hamming code (13,9) that begins with the 9 lowest bits of `information`.
/// ETSI TS 102 361-1, annex B.3.4.
#[unsafe(no_mangle)]
pub extern "C" fn dmr_hamming13_encode(information: u32) -> u32
    ensures word { IsHamming13 (bits_of 13 result) }
    ensures information { take 9 (bits_of 13 result) ≡ bits_of 9 information }
    ensures fits { result < 2 ^ 13 }
{
    encode::<13, 9, Hamming13>(information)
}

/// The word of the Hamming code (13,9) within 1 bit of the 13 lowest of `received`; false where there is none.
/// ETSI TS 102 361-1, annex B.3.4.
#[unsafe(no_mangle)]
pub extern "C" fn dmr_hamming13_decode(received: u32, word: &mut u32) -> bool
    ensures within { result ≡ true → IsHamming13 (bits_of 13 word.new)
        × (distance (bits_of 13 word.new) (bits_of 13 received) ≤ 1) }
    ensures only { (w : List Bool) → IsHamming13 w → distance w (bits_of 13 received) ≤ 1
        → (result ≡ true) × (bits_of 13 word.new ≡ w) }
    ensures fits { result ≡ true → word.new < 2 ^ 13 }
    ensures unwritten { result ≡ false → word.new ≡ word.old }
{
    decode::<13, 9, Hamming13>(received, word)
}

/// The word of the Hamming code (15,11) that begins with the 11 lowest bits of `information`.
/// ETSI TS 102 361-1, annex B.3.4.
#[unsafe(no_mangle)]
pub extern "C" fn dmr_hamming15_encode(information: u32) -> u32
    ensures word { IsHamming15 (bits_of 15 result) }
    ensures information { take 11 (bits_of 15 result) ≡ bits_of 11 information }
    ensures fits { result < 2 ^ 15 }
{
    encode::<15, 11, Hamming15>(information)
}

/// The word of the Hamming code (15,11) within 1 bit of the 15 lowest of `received`; false where there is none.
/// ETSI TS 102 361-1, annex B.3.4.
#[unsafe(no_mangle)]
pub extern "C" fn dmr_hamming15_decode(received: u32, word: &mut u32) -> bool
    ensures within { result ≡ true → IsHamming15 (bits_of 15 word.new)
        × (distance (bits_of 15 word.new) (bits_of 15 received) ≤ 1) }
    ensures only { (w : List Bool) → IsHamming15 w → distance w (bits_of 15 received) ≤ 1
        → (result ≡ true) × (bits_of 15 word.new ≡ w) }
    ensures fits { result ≡ true → word.new < 2 ^ 15 }
    ensures unwritten { result ≡ false → word.new ≡ word.old }
{
    decode::<15, 11, Hamming15>(received, word)
}

/// The word of the Hamming code (16,11) that begins with the 11 lowest bits of `information`.
/// ETSI TS 102 361-1, annex B.3.4.
#[unsafe(no_mangle)]
pub extern "C" fn dmr_hamming16_encode(information: u32) -> u32
    ensures word { IsHamming16 (bits_of 16 result) }
    ensures information { take 11 (bits_of 16 result) ≡ bits_of 11 information }
    ensures fits { result < 2 ^ 16 }
{
    encode::<16, 11, Hamming16>(information)
}

/// The word of the Hamming code (16,11) within 1 bit of the 16 lowest of `received`; false where there is none.
/// ETSI TS 102 361-1, annex B.3.4.
#[unsafe(no_mangle)]
pub extern "C" fn dmr_hamming16_decode(received: u32, word: &mut u32) -> bool
    ensures within { result ≡ true → IsHamming16 (bits_of 16 word.new)
        × (distance (bits_of 16 word.new) (bits_of 16 received) ≤ 1) }
    ensures only { (w : List Bool) → IsHamming16 w → distance w (bits_of 16 received) ≤ 1
        → (result ≡ true) × (bits_of 16 word.new ≡ w) }
    ensures fits { result ≡ true → word.new < 2 ^ 16 }
    ensures unwritten { result ≡ false → word.new ≡ word.old }
{
    decode::<16, 11, Hamming16>(received, word)
}

/// The word of the Hamming code (17,12) that begins with the 12 lowest bits of `information`.
/// ETSI TS 102 361-1, annex B.3.3.
#[unsafe(no_mangle)]
pub extern "C" fn dmr_hamming17_encode(information: u32) -> u32
    ensures word { IsHamming17 (bits_of 17 result) }
    ensures information { take 12 (bits_of 17 result) ≡ bits_of 12 information }
    ensures fits { result < 2 ^ 17 }
{
    encode::<17, 12, Hamming17>(information)
}

/// The word of the Hamming code (17,12) within 1 bit of the 17 lowest of `received`; false where there is none.
/// ETSI TS 102 361-1, annex B.3.3.
#[unsafe(no_mangle)]
pub extern "C" fn dmr_hamming17_decode(received: u32, word: &mut u32) -> bool
    ensures within { result ≡ true → IsHamming17 (bits_of 17 word.new)
        × (distance (bits_of 17 word.new) (bits_of 17 received) ≤ 1) }
    ensures only { (w : List Bool) → IsHamming17 w → distance w (bits_of 17 received) ≤ 1
        → (result ≡ true) × (bits_of 17 word.new ≡ w) }
    ensures fits { result ≡ true → word.new < 2 ^ 17 }
    ensures unwritten { result ≡ false → word.new ≡ word.old }
{
    decode::<17, 12, Hamming17>(received, word)
}
