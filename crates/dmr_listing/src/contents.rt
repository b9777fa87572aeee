//! What the information of a data burst holds.
ghost use Rattle.std.specs.Prelude.{◌≡◌, Some, true};
ghost use Rattle.dmr_bits.specs.Bits.{bits_of_octets};
ghost use Rattle.dmr_bptc.specs.Decoding.{IsDecoded};
ghost use Rattle.dmr_burst.specs.Layout.{information_field};
ghost use Rattle.dmr_listing.specs.Contents.{HoldsContents, HoldsControlBlock, HoldsDataHeader, HoldsLinkControl};
ghost use Rattle.dmr_listing.specs.ContentsTexts.{contents_text};
ghost use Rattle.dmr_reading.specs.Reading.{IsInformation, is_coded};

use crate::control_block::ControlBlock;
use crate::data_header::DataHeader;
use crate::digits::Digits;
use crate::link_control::LinkControl;
use dmr_bits::Bits;
use dmr_burst::{data_type, read_info};
use dmr_csbk::{Csbk, CsbkFault, csbk_read};
use dmr_data::{Header, HeaderFault, header_read};
use dmr_link::{FullLc, LcFault, LcUse, lc_read};
use dmr_reading::Information;
use std::fmt;

/// What the information of a data burst holds, as far as its type tells.
#[derive(Clone, Copy, Drop)]
pub enum Contents {
    /// A link control, of a voice LC header or a terminator.
    LinkControl(FullLc),
    /// A control signalling block.
    ControlBlock(Csbk),
    /// A data header.
    DataHeader(Header),
    /// A data header of a format that isn't read: the twelve octets, of which the first says the format.
    OtherFormat([u8; 12]),
    /// Twelve octets that no check seals, where a check is to.
    Unsealed([u8; 12]),
    /// The twelve octets of any other type.
    Octets([u8; 12]),
    /// Nothing: the channel is idle.
    Idle,
    /// In another code than the product code, or in none.
    AsReceived,
    /// It is too damaged.
    Unreadable,
}

/// The link control of a burst, or its octets where none is sealed.
fn link_control_of(received: &Bits<196>, message: &Bits<96>, lc_use: LcUse) -> Contents
    requires decoded { IsDecoded received.now (Some message.now) }
    ensures holds { HoldsLinkControl lc_use received.now result }
{
    match lc_read(received, lc_use) {
        Ok(lc) => Contents::LinkControl(lc),
        Err(LcFault::Parity) => Contents::Unsealed(message.octets()),
        Err(LcFault::Bptc) => Contents::Unreadable,
    }
}

/// The control block of a burst, or its octets where none is sealed.
fn control_block_of(received: &Bits<196>, message: &Bits<96>) -> Contents
    requires decoded { IsDecoded received.now (Some message.now) }
    ensures holds { HoldsControlBlock received.now result }
{
    match csbk_read(received) {
        Ok(block) => Contents::ControlBlock(block),
        Err(CsbkFault::Crc) => Contents::Unsealed(message.octets()),
        Err(CsbkFault::Bptc) => Contents::Unreadable,
    }
}

/// The data header of a burst, or its octets where none is sealed or its format isn't read.
fn data_header_of(received: &Bits<196>, message: &Bits<96>) -> Contents
    requires decoded { IsDecoded received.now (Some message.now) }
    ensures holds { HoldsDataHeader received.now result }
{
    match header_read(received) {
        Ok(header) => Contents::DataHeader(header),
        Err(HeaderFault::Format) => Contents::OtherFormat(message.octets()),
        Err(HeaderFault::Crc) => Contents::Unsealed(message.octets()),
        Err(HeaderFault::Bptc) => Contents::Unreadable,
    }
}

/// What information in the product code holds, by the type of its burst.
fn coded_contents(kind: u8, received: &Bits<196>, message: &Bits<96>) -> Contents
    requires coded { is_coded kind ≡ true }
    requires decoded { IsDecoded received.now (Some message.now) }
    ensures holds { HoldsContents kind received.now result }
{
    match kind {
        data_type::VOICE_LC_HEADER => link_control_of(received, message, LcUse::Header),
        data_type::TERMINATOR_WITH_LC => link_control_of(received, message, LcUse::Terminator),
        data_type::CSBK => control_block_of(received, message),
        data_type::DATA_HEADER => data_header_of(received, message),
        data_type::IDLE => Contents::Idle,
        _ => Contents::Octets(message.octets()),
    }
}

/// What the information of a data burst of this type holds, where it is read as this.
pub(crate) fn contents_of(kind: u8, burst: &[u8; 33], information: Information) -> Contents
    requires read { IsInformation kind (bits_of_octets burst.now) information }
    ensures holds { HoldsContents kind (information_field (bits_of_octets burst.now)) result }
{
    let received = read_info(burst);
    match information {
        Information::Coded(Some(message)) => coded_contents(kind, &received, &message),
        Information::Coded(None) => Contents::Unreadable,
        Information::AsReceived => Contents::AsReceived,
    }
}

impl fmt::Display for Contents {
    ghost output = { λ contents. contents_text contents };

    fn fmt<W: fmt::Write>(&self, f: &mut fmt::Formatter<W>) -> fmt::Result {
        match self {
            Contents::LinkControl(lc) => write!(f, "{}", LinkControl(*lc)),
            Contents::ControlBlock(block) => write!(f, "{}", ControlBlock(*block)),
            Contents::DataHeader(header) => write!(f, "{}", DataHeader(*header)),
            Contents::OtherFormat(octets) => write!(f, "format {}", octets[0] % 16),
            Contents::Unsealed(octets) => write!(f, "wrong check {}", Digits(octets)),
            Contents::Octets(octets) => write!(f, "{}", Digits(octets)),
            Contents::Idle => Ok(()),
            Contents::AsReceived => write!(f, "as received"),
            Contents::Unreadable => write!(f, "information unreadable"),
        }
    }
}
