//! Data bursts that stand by themselves.
ghost use Rattle.std.specs.Prelude.{◌≡◌, ◌<◌, List, Bool};
ghost use Rattle.dmr_burst.specs.declared.burst.Burst.TheVariants as burst;
ghost use Rattle.dmr_bptc.specs.ProductWord.{IsWritten};
ghost use Rattle.dmr_bits.specs.Bits.{bits_of_octets};
ghost use Rattle.dmr_making.specs.Controls.{IsLoneInformation, kind_of_lone};
ghost use Rattle.dmr_making.specs.Fit.{IsFitLone};
ghost use Rattle.dmr_making.specs.Made.{IsMobileBurst};

use crate::bursts::{data_burst, lc_burst, word_burst};
use dmr_bits::Bits;
use dmr_burst::data_type;
use dmr_link::LcUse;
use dmr_script::LoneBurst;

/// A data burst whose information is twelve octets under the product code.
fn octets_burst(colour: u8, kind: u8, octets: &[u8; 12]) -> [u8; 33]
    requires colour { colour < 16 }
    requires kind { kind < 16 }
    ensures burst { (information : List Bool) → IsWritten (bits_of_octets octets.now) information
        → IsMobileBurst (burst.Data colour kind information) result }
{
    word_burst(colour, kind, &Bits::<96>::from_octets(octets))
}

/// A data burst that stands by itself.
pub(crate) fn lone_burst(colour: u8, lone: &LoneBurst) -> [u8; 33]
    requires colour { colour < 16 }
    requires fit { IsFitLone lone.now }
    ensures burst { (information : List Bool) → IsLoneInformation lone.now information
        → IsMobileBurst (burst.Data colour (kind_of_lone lone.now) information) result }
{
    match lone {
        LoneBurst::Terminator(lc) => lc_burst(colour, LcUse::Terminator, lc),
        LoneBurst::PiHeader(octets) => octets_burst(colour, data_type::PI_HEADER, octets),
        LoneBurst::MbcHeader(octets) => octets_burst(colour, data_type::MBC_HEADER, octets),
        LoneBurst::MbcBlock(octets) => octets_burst(colour, data_type::MBC_CONTINUATION, octets),
        LoneBurst::UnifiedBlock(octets) => {
            octets_burst(colour, data_type::UNIFIED_SINGLE_BLOCK_DATA, octets)
        }
        LoneBurst::RateHalf(octets) => octets_burst(colour, data_type::RATE_HALF_DATA, octets),
        LoneBurst::RateThreeQuarters(bits) => {
            data_burst(colour, data_type::RATE_THREE_QUARTERS_DATA, *bits)
        }
        LoneBurst::RateOne(bits) => data_burst(colour, data_type::RATE_ONE_DATA, *bits),
    }
}
