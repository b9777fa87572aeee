//! The block product turbo code (196,96). Its 196 bits cross in 25 octets, of which the last four bits are no part of them.
ghost use Rattle.std.specs.Prelude.{◌≡◌, Bool, List, true, false, drop, take, replicate, Some, None, if◌then◌else◌};
ghost use Rattle.dmr_bits.specs.Bits.{bits_of_octets};
ghost use Rattle.dmr_bptc.specs.Decoding.{IsDamaged, IsDecoded};
ghost use Rattle.dmr_bptc.specs.ProductWord.{IsProductWord, IsWritten};
ghost use Rattle.dmr_bptc.specs.ProductWord as spec;
ghost use Rattle.dmr_burst.specs.Layout.{information_field};

use dmr_bits::Bits;
use dmr_bptc::{bptc_decode, bptc_encode};
use dmr_burst::read_info;

/// The octets that 196 bits fill, with zeros behind them.
pub(crate) fn in_octets(bits: &Bits<196>) -> [u8; 25]
    ensures value { take 196 (bits_of_octets result) ≡ bits.now }
    ensures behind { drop 196 (bits_of_octets result) ≡ replicate 4 false }
{
    let mut all = Bits::<200>::zero();
    all.put(0, bits);
    all.octets()
}

/// The first 196 bits of octets.
pub(crate) fn first_bits(octets: &[u8; 25]) -> Bits<196>
    ensures value { result ≡ take 196 (bits_of_octets octets.now) }
{
    Bits::<200>::from_octets(octets).part(0, 196)
}

/// The written form of twelve octets of information. ETSI TS 102 361-1, annex B.1.1.
#[unsafe(no_mangle)]
pub extern "C" fn dmr_bptc_encode(information: &[u8; 12], written: &mut [u8; 25])
    ensures written { IsWritten (bits_of_octets information.now) (take 196 (bits_of_octets written.new)) }
    ensures behind { drop 196 (bits_of_octets written.new) ≡ replicate 4 false }
{
    *written = in_octets(&bptc_encode(&Bits::from_octets(information)));
}

/// The twelve octets of information that 196 received bits are corrected to; false where they are too damaged, and then nothing is
/// written. ETSI TS 102 361-1, annex B.1.1; the order of corrections is this project's own.
#[unsafe(no_mangle)]
pub extern "C" fn dmr_bptc_decode(received: &[u8; 25], information: &mut [u8; 12]) -> bool
    ensures decoded { IsDecoded (take 196 (bits_of_octets received.now))
        (if result then Some (bits_of_octets information.new) else None) }
    ensures undone { (word : List Bool) → IsProductWord word → IsDamaged word (take 196 (bits_of_octets received.now))
        → (result ≡ true) × (bits_of_octets information.new ≡ spec.information word) }
    ensures unwritten { result ≡ false → information.new ≡ information.old }
{
    match bptc_decode(&first_bits(received)) {
        Some(message) => {
            *information = message.octets();
            true
        }
        None => false,
    }
}

/// The 196 bits of information of a data burst, as received. ETSI TS 102 361-1, clause 6.2.
#[unsafe(no_mangle)]
pub extern "C" fn dmr_read_info(burst: &[u8; 33], received: &mut [u8; 25])
    ensures value { take 196 (bits_of_octets received.new) ≡ information_field (bits_of_octets burst.now) }
    ensures behind { drop 196 (bits_of_octets received.new) ≡ replicate 4 false }
{
    *received = in_octets(&read_info(burst));
}
