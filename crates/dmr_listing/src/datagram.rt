//! What a line says of octets that may be a datagram.
ghost use Rattle.std.specs.Prelude.{◌≡◌, Some, drop, take};
ghost use Rattle.dmr_ip.specs.Datagram.{number_at};
ghost use Rattle.dmr_listing.specs.DatagramTexts.{end_text, octets_text};

use crate::counted::Counted;
use crate::digits::Digits;
use byteorder::{BigEndian, ByteOrder};
use dmr_ip::Datagram;
use std::fmt;

/// Octets, printed as the two ends of the datagram that they are, or as digits where they are none by the rules of the gateway.
#[derive(Drop)]
pub(crate) struct DatagramText<'a>(pub(crate) &'a [u8]);

/// An end of a datagram: an address of IPv4 and a port.
#[derive(Clone, Copy, Drop)]
struct End {
    address: [u8; 4],
    port: u16,
}

/// Where a datagram goes from and where to. RFC 791 and RFC 768.
fn ends_of(datagram: &Datagram) -> (End, End)
    ensures source { result.0.address ≡ take 4 (drop 12 datagram.now) }
    ensures source_port { result.0.port ≡ number_at datagram.now 20 }
    ensures destination { result.1.address ≡ take 4 (drop 16 datagram.now) }
    ensures destination_port { result.1.port ≡ number_at datagram.now 22 }
{
    let octets = datagram.octets();
    let source = End {
        address: [octets[12], octets[13], octets[14], octets[15]],
        port: BigEndian::read_u16(&octets[20..22]),
    };
    let destination = End {
        address: [octets[16], octets[17], octets[18], octets[19]],
        port: BigEndian::read_u16(&octets[22..24]),
    };
    (source, destination)
}

impl fmt::Display for End {
    ghost output = { λ end. Some (end_text end.address end.port) };

    fn fmt<W: fmt::Write>(&self, f: &mut fmt::Formatter<W>) -> fmt::Result {
        let End {
            address: [a, b, c, d],
            port,
        } = *self;
        write!(f, "{a}.{b}.{c}.{d}:{port}")
    }
}

impl fmt::Display for DatagramText<'_> {
    ghost output = { λ text. Some (octets_text text.0.now) };

    fn fmt<W: fmt::Write>(&self, f: &mut fmt::Formatter<W>) -> fmt::Result {
        match Datagram::parse(self.0) {
            Ok(datagram) => {
                let (source, destination) = ends_of(&datagram);
                let data = Counted(self.0.len() - 28, "octet");
                write!(f, "UDP {source} -> {destination}, {data} of data")
            }
            Err(_) => write!(f, "{}", Digits(self.0)),
        }
    }
}
