//! What a slot repeats in a frame.
ghost use Rattle.std.specs.Prelude.{◌≡◌};
ghost use Rattle.dmr_log.specs.Repeated as spec;

use dmr_burst::data_type;
use dmr_csbk::{ControlMeaning, Csbk};
use dmr_data::Header;
use dmr_link::FullLc;
use dmr_listing::{Contents, Way};

/// What a slot repeats in a frame, as far as it tells transmissions apart.
#[derive(Clone, Copy, Drop)]
pub enum Repeated {
    /// Nothing.
    Nothing,
    /// What stands in front of the voice of a call: a voice LC header, a PI header, or the header again in a gap. It has the link
    /// control of the call, where that is known.
    CallHeader(Option<FullLc>),
    /// A place of a call, with the link control that is known of it.
    Place {
        link_control: Option<FullLc>,
        /// Nothing was heard in it, and the repeater has filled it.
        is_filled: bool,
    },
    /// A terminator of a call.
    Terminator(Option<FullLc>),
    /// A data header.
    DataHeader(PacketHead),
    /// A block of a packet, of this data type.
    Block(u8),
    /// Any other data burst.
    Control(ControlKind),
}

/// A data header.
#[derive(Clone, Copy, Drop)]
pub enum PacketHead {
    /// Of a format that is read.
    Known(Header),
    /// The twelve octets of one of another format.
    Other([u8; 12]),
}

/// What control blocks in a row have in common.
#[derive(Clone, Copy, Debug, PartialEq, Eq, Drop)]
pub enum ControlKind {
    /// Preambles from one sender to one destination.
    Preamble {
        source: u32,
        to_group: bool,
        destination: u32,
    },
    /// Requests of one radio to one base station, to transmit.
    Activation {
        source: u32,
        base_station: u32,
    },
    /// Other control signalling blocks, by opcode and feature set.
    Csbk {
        opcode: u8,
        feature_set: u8,
    },
    /// Other data bursts, by their data type.
    DataType(u8),
}

impl PacketHead {
    /// How many blocks it counts. One of a format that isn't read counts none.
    pub fn blocks(&self) -> u8
        ensures value { result ≡ spec.counted_blocks self.now }
    {
        match self {
            PacketHead::Known(Header::Response(header)) => header.blocks,
            PacketHead::Known(Header::Unconfirmed(header)) => header.blocks,
            PacketHead::Known(Header::Confirmed(header)) => header.blocks,
            PacketHead::Known(Header::ShortData(header)) => header.blocks,
            PacketHead::Known(Header::Status(_)) | PacketHead::Other(_) => 0,
        }
    }

    /// Who sends it to whom. All formats have the addresses in the same octets. ETSI TS 102 361-1, clause 8.2.1.
    pub fn way(&self) -> Way
        ensures value { result ≡ spec.way_of self.now }
    {
        match self {
            PacketHead::Known(header) => Way::of_header(header),
            PacketHead::Other(octets) => Way {
                source: address(octets[5], octets[6], octets[7]),
                to_group: octets[0] >= 128,
                destination: address(octets[2], octets[3], octets[4]),
            },
        }
    }
}

/// The address of 24 bits that three octets spell.
fn address(high: u8, middle: u8, low: u8) -> u32
    ensures value { result ≡ spec.octet_address high middle low }
{
    65536 * u32::from(high) + 256 * u32::from(middle) + u32::from(low)
}

impl ControlKind {
    /// That of a control signalling block.
    fn of_block(block: &Csbk) -> ControlKind
        ensures value { result ≡ spec.kind_of_block block.now }
    {
        match block.meaning() {
            ControlMeaning::Preamble(preamble) => ControlKind::Preamble {
                source: preamble.source,
                to_group: preamble.group,
                destination: preamble.target,
            },
            ControlMeaning::BsDownAct(request) => ControlKind::Activation {
                source: request.source,
                base_station: request.bs,
            },
            ControlMeaning::Other => ControlKind::Csbk {
                opcode: block.code,
                feature_set: block.fid,
            },
        }
    }

    /// That of the preambles that announce a data header.
    pub(crate) fn announcing(head: &PacketHead) -> ControlKind
        ensures value { result ≡ spec.announcing head.now }
    {
        let way = head.way();
        ControlKind::Preamble {
            source: way.source,
            to_group: way.to_group,
            destination: way.destination,
        }
    }
}

/// A control signalling block that is repeated.
fn block_told(contents: Option<Contents>) -> Repeated
    ensures value { result ≡ spec.block_told contents }
{
    match contents {
        Some(Contents::ControlBlock(block)) => Repeated::Control(ControlKind::of_block(&block)),
        _ => Repeated::Control(ControlKind::DataType(data_type::CSBK)),
    }
}

/// A data header that is repeated.
fn header_told(contents: Option<Contents>) -> Repeated
    ensures value { result ≡ spec.header_told contents }
{
    match contents {
        Some(Contents::DataHeader(header)) => Repeated::DataHeader(PacketHead::Known(header)),
        Some(Contents::OtherFormat(octets)) => Repeated::DataHeader(PacketHead::Other(octets)),
        _ => Repeated::Control(ControlKind::DataType(data_type::DATA_HEADER)),
    }
}

/// A PI header that is repeated. That of a call has the call's link control.
fn pi_header_told(link_control: Option<FullLc>) -> Repeated
    ensures value { result ≡ spec.pi_header_told link_control }
{
    match link_control {
        Some(lc) => Repeated::CallHeader(Some(lc)),
        None => Repeated::Control(ControlKind::DataType(data_type::PI_HEADER)),
    }
}

/// A data burst of this type that is repeated. It has the link control of its call, where it is of one, and these contents. The
/// types are those of ETSI TS 102 361-1, clause 9.3.6.
pub fn data_told(kind: u8, link_control: Option<FullLc>, contents: Option<Contents>) -> Repeated
    ensures value { result ≡ spec.data_told kind link_control contents }
{
    match kind {
        data_type::PI_HEADER => pi_header_told(link_control),
        data_type::VOICE_LC_HEADER => Repeated::CallHeader(link_control),
        data_type::TERMINATOR_WITH_LC => Repeated::Terminator(link_control),
        data_type::CSBK => block_told(contents),
        data_type::DATA_HEADER => header_told(contents),
        data_type::RATE_HALF_DATA
        | data_type::RATE_THREE_QUARTERS_DATA
        | data_type::RATE_ONE_DATA => Repeated::Block(kind),
        _ => Repeated::Control(ControlKind::DataType(kind)),
    }
}
