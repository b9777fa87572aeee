//! Records of the outgoing list as a script says them.
use crate::packet::UdpMessage;
use dmr_data::Rate;

/// A datagram for the outgoing list, in the slot that is named.
#[derive(Drop, PartialEq, Eq)]
pub struct Send {
    /// The downlink frame in which it is offered.
    pub frame: u32,
    /// Whether it is sent as a confirmed packet.
    pub confirmed: bool,
    /// The rate at which it is sent.
    pub rate: Rate,
    /// What is sent.
    pub datagram: Datagram,
}

/// What a record of the outgoing list holds.
#[derive(Drop, PartialEq, Eq)]
pub enum Datagram {
    /// A UDP datagram over IPv4.
    Udp(AddressedMessage),
    /// These octets, at most 65,535.
    Octets(Vec<u8>),
}

/// A UDP datagram over IPv4 between any addresses.
#[derive(Drop, PartialEq, Eq)]
pub struct AddressedMessage {
    /// The address that sends it.
    pub source: [u8; 4],
    /// The address that it is for.
    pub destination: [u8; 4],
    /// What it says.
    pub message: UdpMessage,
}
