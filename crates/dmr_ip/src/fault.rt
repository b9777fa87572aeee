//! What is wrong with octets that are no datagram, or no spelling of one.
use thiserror::Error;

/// The first fault of octets that are no UDP datagram over IPv4, in the order of the tests. The numbers are this project's own.
#[derive(Debug, Drop, Clone, Copy, PartialEq, Eq, Error)]
pub enum IpFault {
    /// Under 20 octets, over 1,400, or not as many as the total length field says.
    #[error("bad length")]
    Length = 1,
    /// The version is not 4.
    #[error("bad version")]
    Version = 2,
    /// The header is not of five words.
    #[error("header with options")]
    Options = 3,
    /// The words of the header don't add up to FFFF.
    #[error("bad header checksum")]
    HeaderSum = 4,
    /// More fragments follow, or some came before.
    #[error("fragment")]
    Fragment = 8,
    /// The protocol is not UDP.
    #[error("not UDP")]
    Protocol = 5,
    /// Under 8 octets behind the IPv4 header, or not as many as the UDP length field says.
    #[error("bad UDP length")]
    UdpLength = 6,
    /// There is a UDP checksum, and the words that it covers don't add up to FFFF.
    #[error("bad UDP checksum")]
    UdpSum = 7,
}

/// The first fault of octets that spell no datagram, in the order of the tests. The numbers are this project's own.
#[derive(Debug, Drop, Clone, Copy, PartialEq, Eq, Error)]
pub enum ExpandFault {
    /// Under five octets, or a port that is to be spelled out is missing.
    #[error("too short")]
    Short = 1,
    /// An opcode bit is 1.
    #[error("unknown opcode")]
    Opcode = 2,
    /// The address identifiers are not those of the packet's header.
    #[error("unknown address identifier")]
    Address = 3,
    /// A port identifier above 2.
    #[error("unknown port identifier")]
    Port = 4,
    /// The datagram would have over 1,400 octets.
    #[error("too long")]
    Long = 5,
}
