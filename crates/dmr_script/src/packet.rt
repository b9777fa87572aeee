//! Packets, short data, status and answers as a script says them.
use crate::shape::PacketShape;
use dmr_data::{Rate, Status};

/// A full try of a packet.
#[derive(Drop, PartialEq, Eq)]
pub struct PacketTry {
    /// Whether it is confirmed.
    pub confirmed: bool,
    /// The LLID that sends it, an address of 24 bits.
    pub source: u32,
    /// Whether the destination is a talk group.
    pub group: bool,
    /// The LLID or the talk group that it is for, an address of 24 bits.
    pub destination: u32,
    /// The service access point, in four bits.
    pub sap: u8,
    /// N(S), in three bits. It says nothing of an unconfirmed packet.
    pub number: u8,
    /// The rate of its blocks.
    pub rate: Rate,
    /// Whether an answer is wanted: of a confirmed packet alone.
    pub wanted: bool,
    /// What it carries.
    pub body: Body,
    /// Which of its bursts are sent. It has as many blocks as the packet has, at most 127.
    pub shape: PacketShape,
}

/// What a packet carries.
#[derive(Drop, PartialEq, Eq)]
pub enum Body {
    /// A UDP datagram from 12.S to 12.T, or to 225.T where the destination is a talk group. Under SAP 3 it goes in its compressed
    /// form, and else as it is.
    Udp(UdpMessage),
    /// These octets.
    Octets(Vec<u8>),
}

/// What a UDP datagram says behind its addresses.
#[derive(Drop, PartialEq, Eq)]
pub struct UdpMessage {
    /// The port that sends it.
    pub source_port: u16,
    /// The port that it is for.
    pub destination_port: u16,
    /// The identification of its IPv4 header: 0 where the script gives none.
    pub identification: u16,
    /// Its data, at most 1,372 octets.
    pub data: Vec<u8>,
}

/// The last confirmed packet of the slot, tried again.
#[derive(Drop, PartialEq, Eq)]
pub enum Again {
    /// All of it. Without a shape it is its header and all of its blocks. A shape isn't held against the packet yet, since other
    /// lines say how many blocks that has.
    Full(Option<PacketShape>),
    /// Some of its blocks.
    Partial(PartialTry),
}

/// A try of some blocks of a packet.
#[derive(Drop, PartialEq, Eq)]
pub struct PartialTry {
    /// The serial numbers of the blocks, in their order, below 127. There are from 1 to 127. They aren't held against the packet
    /// yet.
    pub serials: Vec<u8>,
    /// Which of its bursts are sent. It has as many blocks as there are serial numbers.
    pub shape: PacketShape,
}

/// Short data: a header of format 13 with S 0 and F 1, which wants no answer, and its blocks.
#[derive(Drop, PartialEq, Eq)]
pub struct ShortDataTry {
    /// The LLID that sends it, an address of 24 bits.
    pub source: u32,
    /// Whether the destination is a talk group.
    pub group: bool,
    /// The LLID or the talk group that it is for, an address of 24 bits.
    pub destination: u32,
    /// The format of the data, in six bits.
    pub format: u8,
    /// The octets, which unconfirmed blocks at rate 1/2 carry with their check.
    pub octets: Vec<u8>,
    /// Which of its bursts are sent. It has as many blocks as the octets and their check need, at most 63.
    pub shape: PacketShape,
}

/// A status.
#[derive(Drop, PartialEq, Eq)]
pub struct StatusSent {
    /// Its header, which wants no answer.
    pub header: Status,
    /// Which bursts are sent. It has no blocks.
    pub shape: PacketShape,
}

/// An answer to a confirmed packet.
#[derive(Drop, PartialEq, Eq)]
pub struct Answer {
    /// The LLID that answers, an address of 24 bits.
    pub source: u32,
    /// The LLID of the packet's sender, an address of 24 bits.
    pub destination: u32,
    /// N(S) of the packet that is answered, in three bits.
    pub number: u8,
    /// The service access point of that packet, in four bits.
    pub sap: u8,
    /// What it answers.
    pub kind: AnswerKind,
    /// Which bursts are sent. It has the blocks of flags: none, one where the packet has up to 64 blocks, two where it has more.
    pub shape: PacketShape,
}

/// What an answer says.
#[derive(Drop, PartialEq, Eq)]
pub enum AnswerKind {
    /// The packet came.
    Acknowledged,
    /// The check of the packet is wrong.
    Failed,
    /// Some blocks are wanted once more.
    SelectiveRepeat(Wanted),
}

/// The blocks that are wanted once more.
#[derive(Drop, PartialEq, Eq)]
pub struct Wanted {
    /// The serial numbers of those that are wanted, each below the number of blocks. There is at least one.
    pub serials: Vec<u8>,
    /// How many blocks the packet has, from 1 to 127.
    pub blocks: u8,
}
