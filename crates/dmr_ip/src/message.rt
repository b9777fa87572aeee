//! What a compressed form carries of a datagram.
ghost use Rattle.std.specs.Prelude.{◌≡◌, ◌+◌, ◌^◌, ◌<◌, ◌≤◌, ◌++◌, length};
ghost use Rattle.std.specs.Str.{bytes_eq};
ghost use Rattle.dmr_ip.specs.Contents.{FitsDatagram, datagram_between, datagram_of, shown_contents};
ghost use Rattle.dmr_ip.specs.Datagram.{IsDatagram};
ghost use Rattle.dmr_ip.specs.Spelling.{behind_identifiers, behind_ports, ports_length, read_contents, written_form};

use crate::datagram::Datagram;
use crate::fields::{
    DESTINATION_PORT, HEADERS, IDENTIFICATION, IP_HEADER, SOURCE_PORT, UDP_HEADER, number_at,
};
use crate::headers::{address, ip_header, radio_address, udp_header};
use crate::identifiers::{
    DESTINATION, FORM_LIMIT, IDENTIFIERS, OPCODE, SOURCE, address_identifiers, identifier_of,
    port_from, port_length, push_port,
};
use arrayvec::ArrayVec;
use dmr_octets::DATAGRAM_LIMIT;
use std::marker::Model;

/// What differs between two datagrams that have a compressed form and go from one radio to another.
#[derive(Drop)]
pub struct Message<'a> {
    identification: u16,
    source_port: u16,
    destination_port: u16,
    payload: &'a [u8],
}

// Clauses see the contents. They fit into a datagram.
impl<'a> Model for Message<'a> {
    ghost use Rattle.std.specs.Prelude.{◌+◌, ◌≤◌, length};
    ghost use Rattle.dmr_ip.specs.Contents.{AreOctets, Contents};

    ghost Value = { Contents };

    ghost view = { λ m. record {
      identification = m.identification;
      source_port = m.source_port;
      destination_port = m.destination_port;
      payload = m.payload.now;
    } };

    ghost invariant = { λ m. AreOctets m.payload.now × (28 + length m.payload.now ≤ 1400) };
}

impl<'a> Message<'a> {
    fn new(
        identification: u16,
        source_port: u16,
        destination_port: u16,
        payload: &'a [u8],
    ) -> Message<'a>
        requires room { 28 + length payload.now ≤ 1400 }
        ensures value { result ≡ record {
          identification = identification;
          source_port = source_port;
          destination_port = destination_port;
          payload = payload.now;
        } }
    {
        Message {
            identification,
            source_port,
            destination_port,
            payload,
        }
    }

    /// What octets that are a datagram have in the places of the contents.
    pub(crate) fn shown_by(octets: &'a [u8]) -> Message<'a>
        requires datagram { IsDatagram octets.now }
        ensures value { result ≡ shown_contents octets.now }
    {
        Message::new(
            number_at(octets, IDENTIFICATION),
            number_at(octets, SOURCE_PORT),
            number_at(octets, DESTINATION_PORT),
            &octets[HEADERS..],
        )
    }

    /// What a compressed form without a fault says.
    pub(crate) fn said_by(form: &'a [u8]) -> Message<'a>
        requires identifiers { 5 ≤ length form.now }
        requires ports { ports_length form.now ≤ length (behind_identifiers form.now) }
        requires room { 28 + length (behind_ports form.now) ≤ 1400 }
        ensures value { result ≡ read_contents form.now }
    {
        let source = form[SOURCE] % OPCODE;
        let destination = form[DESTINATION] % OPCODE;
        let behind_identifiers = &form[IDENTIFIERS..];
        let behind_source_port = &behind_identifiers[port_length(source)..];
        let behind_ports = &behind_source_port[port_length(destination)..];
        Message::new(
            number_at(form, 0),
            port_from(source, behind_identifiers),
            port_from(destination, behind_source_port),
            behind_ports,
        )
    }

    /// The compressed form that is written, in a packet to a group or to a radio.
    pub(crate) fn form(&self, group: bool) -> ArrayVec<u8, FORM_LIMIT>
        ensures value { result.items ≡ written_form group self.now }
    {
        let identification = self.identification.to_be_bytes();
        let addresses = address_identifiers(group);
        let source = identifier_of(self.source_port);
        let destination = identifier_of(self.destination_port);
        let identifiers = [
            identification[0],
            identification[1],
            addresses,
            source,
            destination,
        ];
        let mut form = ArrayVec::new();
        form.try_extend_from_slice(&identifiers).unwrap();
        push_port(&mut form, source, self.source_port);
        push_port(&mut form, destination, self.destination_port);
        form.try_extend_from_slice(self.payload).unwrap();
        form
    }

    /// Whether octets that show these contents are the datagram from one LLID to another, or to a
    /// group. Only the headers can differ.
    pub(crate) fn is_in(&self, octets: &[u8], source: u32, destination: u32, group: bool) -> bool
        requires source_fits { source < 2 ^ 24 }
        requires destination_fits { destination < 2 ^ 24 }
        requires headers { 28 ≤ length octets.now }
        requires shown { self.now ≡ shown_contents octets.now }
        ensures value { result ≡ bytes_eq octets.now (datagram_of source destination group self.now) }
    {
        let source = radio_address(source);
        let destination = address(group, destination);
        let (ip, udp) = self.headers_between(source, destination);
        octets[..IP_HEADER] == ip[..] && octets[IP_HEADER..HEADERS] == udp[..]
    }

    /// The datagram from one LLID to another, or to a group.
    pub(crate) fn datagram(&self, source: u32, destination: u32, group: bool) -> Datagram
        requires source_fits { source < 2 ^ 24 }
        requires destination_fits { destination < 2 ^ 24 }
        ensures value { result ≡ datagram_of source destination group self.now }
    {
        let source = radio_address(source);
        let destination = address(group, destination);
        Datagram::of_octets(self.octets_between(source, destination))
    }

    // The octets of the datagram from one address to another.
    fn octets_between(&self, source: u32, destination: u32) -> ArrayVec<u8, DATAGRAM_LIMIT>
        ensures value { result.items ≡ datagram_between source destination self.now }
        ensures fits { FitsDatagram self.now }
    {
        let (ip, udp) = self.headers_between(source, destination);
        joined(&ip, &udp, self.payload)
    }

    // Both headers of the datagram from one address to another.
    #[tactic(auto, unfolding(crate::specs::Contents::datagram_between))]
    fn headers_between(&self, source: u32, destination: u32) -> ([u8; IP_HEADER], [u8; UDP_HEADER])
        ensures value { result.0 ++ result.1 ++ self.now.payload
            ≡ datagram_between source destination self.now }
        ensures fits { FitsDatagram self.now }
        ensures ip { length result.0 ≡ IP_HEADER }
        ensures udp { length result.1 ≡ UDP_HEADER }
    {
        let payload = self.payload;
        let total = (HEADERS + payload.len()) as u16;
        let ip = ip_header(total, self.identification, source, destination);
        let udp = udp_header(
            source,
            destination,
            self.source_port,
            self.destination_port,
            payload,
        );
        (ip, udp)
    }
}

fn joined(
    ip: &[u8; IP_HEADER],
    udp: &[u8; UDP_HEADER],
    payload: &[u8],
) -> ArrayVec<u8, DATAGRAM_LIMIT>
    requires room { 28 + length payload.now ≤ 1400 }
    ensures value { result.items ≡ ip.now ++ udp.now ++ payload.now }
{
    let mut octets = ArrayVec::new();
    octets.try_extend_from_slice(ip).unwrap();
    octets.try_extend_from_slice(udp).unwrap();
    octets.try_extend_from_slice(payload).unwrap();
    octets
}
