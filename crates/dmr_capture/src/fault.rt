//! Why a capture could not be read.

use thiserror::Error;

/// The first fault that a capture shows, or that its device failed. It tells the octet at which the record or the block begins.
#[derive(Clone, Copy, Debug, Drop, PartialEq, Eq, Error)]
pub enum CaptureFault {
    /// The file begins as no capture does, or is a pcap of another version than 2.4.
    #[error("no capture")]
    NoCapture,
    /// The file ends inside its first four octets, or inside the head of a pcap.
    #[error("cut head at octet 0")]
    CutHead,
    /// A pcap ends inside a record.
    #[error("cut packet at octet {octet}")]
    CutPacket { octet: u64 },
    /// A pcapng ends inside a block.
    #[error("cut block at octet {octet}")]
    CutBlock { octet: u64 },
    /// A block of a pcapng has no length that it can have, says another one at its end, has no order of octets, holds less of its
    /// packet than it says, or names no interface.
    #[error("bad block at octet {octet}")]
    BadBlock { octet: u64 },
    /// A section of a pcapng has more than 256 interfaces.
    #[error("too many interfaces at octet {octet}")]
    ManyInterfaces { octet: u64 },
    /// The packets of a pcap, or a packet of a pcapng, have a link type that isn't read.
    #[error("link type {link}")]
    LinkType { link: u32 },
    /// A packet or the options of an interface have more than 262,144 octets, or more octets stand in front than any capture has.
    /// Who makes a list of a capture tells so too of a packet that the list has no room for.
    #[error("too long at octet {octet}")]
    TooLong { octet: u64 },
    /// The source failed.
    #[error("read failed at octet {octet}")]
    Read { octet: u64 },
}
