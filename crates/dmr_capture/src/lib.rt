//! Packets of a capture, read and written, and the datagrams that they carry.
//!
//! A capture is a file of packets that a program as tcpdump or Wireshark heard on a network. `Capture` reads one, packet by packet:
//! pcap or pcapng, by its first four octets, in either order of octets. A `Packet` has the time at which it came, and the `Link`
//! that says what stands in front of its datagram. `ipv4_in` finds the IPv4 packet in it, and `udp_in` what UDP carries in that.
//! `write_capture_head` and `write_packet` write a capture: pcap of IPv4 packets, with times in microseconds. All of it goes packet
//! by packet, so that its memory doesn't grow.
//!
//! Contracts say what the octets of a capture are by its pieces, which are the records of pcap and the blocks of pcapng. A reader
//! remembers a `CaptureState`. `specs/Records.antt` and `specs/Blocks.antt` say what one piece is and which octets show which
//! fault, and `specs/Reading.antt` what pieces in a row are. What carries a datagram stands in `specs/Links.antt` and
//! `specs/Udp.antt`, and what is written in `specs/Written.antt`. `laws` says that the packets of a written capture are read back.
//!
//! The formats are those of the draft standards draft-ietf-opsawg-pcap and draft-ietf-opsawg-pcapng.
#![tactic(auto)]

mod block;
mod capture;
mod fault;
mod interface;
pub mod laws;
mod link;
mod order;
mod packet;
mod pcap;
mod transfer;
mod udp;
mod written;

pub use capture::{Capture, Format};
pub use fault::CaptureFault;
pub use interface::Interface;
pub use link::{Link, ipv4_in};
pub use order::Order;
pub use packet::{PACKET_LIMIT, Packet};
pub use pcap::Fraction;
pub use udp::{Udp, udp_in};
pub use written::{write_capture_head, write_packet};
