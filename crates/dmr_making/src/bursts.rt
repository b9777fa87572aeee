//! The bursts of a mobile station, each by what it holds.
ghost use Rattle.std.specs.Prelude.{◌≡◌, ◌<◌, ◌≤◌, ◌+◌, ◌++◌, ℕ, List, Bool, length};
ghost use Rattle.dmr_bits.specs.Bits.{bits_of};
ghost use Rattle.dmr_burst.specs.declared.burst.Burst.TheVariants as burst;
ghost use Rattle.dmr_bptc.specs.ProductWord.{IsWritten};
ghost use Rattle.dmr_csbk.specs.Block.{IsCsbk};
ghost use Rattle.dmr_data.specs.Block.{FitsBlock, IsWrittenBlock};
ghost use Rattle.dmr_data.specs.Header.{IsFitHeader};
ghost use Rattle.dmr_making.specs.Information.{kind_at_rate};
ghost use Rattle.dmr_making.specs.Information.{IsLcInformation, IsPiInformation, IsCsbkInformation, IsHeaderInformation};
ghost use Rattle.dmr_making.specs.Information.{kind_of_use};
ghost use Rattle.dmr_making.specs.Made.{IsMobileBurst, thrice, vocoder_of_frame};

use dmr_bits::{Bits, Writer};
use dmr_bptc::bptc_encode;
use dmr_burst::{Burst, Emb, Side, data_type, encode_burst};
use dmr_checks::{Mask, seal};
use dmr_csbk::{Csbk, csbk_info};
use dmr_data::{Block, Header, Rate, block_info, header_info};
use dmr_link::{FullLc, LcUse, lc_info};

/// A data burst of this type with this information.
pub(crate) fn data_burst(colour: u8, kind: u8, info: Bits<196>) -> [u8; 33]
    requires colour { colour < 16 }
    requires kind { kind < 16 }
    ensures burst { IsMobileBurst (burst.Data colour kind info) result }
{
    encode_burst(&Burst::Data { colour, kind, info }, Side::Ms)
}

/// A data burst whose information is 96 bits under the product code.
pub(crate) fn word_burst(colour: u8, kind: u8, message: &Bits<96>) -> [u8; 33]
    requires colour { colour < 16 }
    requires kind { kind < 16 }
    ensures burst { (information : List Bool) → IsWritten message.now information
        → IsMobileBurst (burst.Data colour kind information) result }
{
    data_burst(colour, kind, bptc_encode(message))
}

/// The data type of a burst that has a link control for this use.
fn kind_of_use(lc_use: LcUse) -> u8
    ensures value { result ≡ kind_of_use lc_use }
{
    match lc_use {
        LcUse::Header => data_type::VOICE_LC_HEADER,
        LcUse::Terminator => data_type::TERMINATOR_WITH_LC,
    }
}

/// A voice LC header or a terminator with LC.
pub(crate) fn lc_burst(colour: u8, lc_use: LcUse, lc: &FullLc) -> [u8; 33]
    requires colour { colour < 16 }
    requires fit { lc.now.flco < 64 }
    ensures burst { (information : List Bool) → IsLcInformation lc_use lc.now information
        → IsMobileBurst (burst.Data colour (kind_of_use lc_use) information) result }
{
    word_burst(colour, kind_of_use(lc_use), &lc_info(lc, lc_use))
}

/// A PI header with these ten octets, which say how the call is enciphered.
pub(crate) fn pi_header_burst(colour: u8, key: &[u8; 10]) -> [u8; 33]
    requires colour { colour < 16 }
    ensures burst { (information : List Bool) → IsPiInformation key.now information
        → IsMobileBurst (burst.Data colour 0 information) result }
{
    let sealed = Bits::<96>::from_octets(&seal(key, Mask::Pi));
    word_burst(colour, data_type::PI_HEADER, &sealed)
}

/// A control signalling block.
pub(crate) fn csbk_burst(colour: u8, csbk: &Csbk) -> [u8; 33]
    requires colour { colour < 16 }
    requires fit { csbk.now.code < 64 }
    ensures burst { (information : List Bool) → IsCsbkInformation csbk.now information
        → IsMobileBurst (burst.Data colour 3 information) result }
{
    word_burst(colour, data_type::CSBK, &csbk_info(csbk))
}

/// A data header.
pub(crate) fn header_burst(colour: u8, header: &Header) -> [u8; 33]
    requires colour { colour < 16 }
    requires fit { IsFitHeader header.now }
    ensures burst { (information : List Bool) → IsHeaderInformation header.now information
        → IsMobileBurst (burst.Data colour 6 information) result }
{
    word_burst(colour, data_type::DATA_HEADER, &header_info(header))
}

/// The data type of blocks at a rate.
fn kind_at_rate(rate: Rate) -> u8
    ensures value { result ≡ kind_at_rate rate }
    ensures fits { result < 16 }
{
    match rate {
        Rate::Half => data_type::RATE_HALF_DATA,
        Rate::Full => data_type::RATE_ONE_DATA,
    }
}

/// A block of a packet.
pub(crate) fn block_burst(colour: u8, rate: Rate, block: &Block) -> [u8; 33]
    requires colour { colour < 16 }
    requires fit { FitsBlock rate block.now.serial block.now.octets }
    ensures burst { (information : List Bool) → IsWrittenBlock rate block.now information
        → IsMobileBurst (burst.Data colour (kind_at_rate rate) information) result }
{
    data_burst(colour, kind_at_rate(rate), block_info(block, rate))
}

/// Writes the same 24 bits three times.
fn push_thrice(writer: &mut Writer<216>, number: u64)
    requires room { length writer.old + 72 ≤ 216 }
    ensures written { writer.new ≡ writer.old ++ thrice (bits_of 24 number) }
    ensures length { length writer.new ≡ length writer.old + 72 }
{
    writer.push(24, number);
    writer.push(24, number);
    writer.push(24, number);
}

/// The vocoder bits of a frame.
fn vocoder_of_frame(frame: u32) -> Bits<216>
    requires frame { frame < 1048576 }
    ensures value { result ≡ vocoder_of_frame frame }
{
    let number = 0x80_0000 + u64::from(frame);
    let mut writer = Writer::<216>::new();
    push_thrice(&mut writer, number);
    push_thrice(&mut writer, number);
    push_thrice(&mut writer, number);
    writer.finish()
}

/// A voice burst with a voice sync, the first of a superframe.
pub(crate) fn sync_burst(frame: u32) -> [u8; 33]
    requires frame { frame < 1048576 }
    ensures burst { IsMobileBurst (burst.VoiceSync (vocoder_of_frame frame)) result }
{
    let vocoder = vocoder_of_frame(frame);
    encode_burst(&Burst::VoiceSync { vocoder }, Side::Ms)
}

/// A voice burst with embedded signalling, and this embedded field.
pub(crate) fn voice_burst(emb: Emb, embedded: u32, frame: u32) -> [u8; 33]
    requires colour { emb.colour < 16 }
    requires lcss { emb.lcss < 4 }
    requires frame { frame < 1048576 }
    ensures burst { IsMobileBurst (burst.Voice emb embedded (vocoder_of_frame frame)) result }
{
    let vocoder = vocoder_of_frame(frame);
    let voice = Burst::Voice {
        emb,
        embedded,
        vocoder,
    };
    encode_burst(&voice, Side::Ms)
}
