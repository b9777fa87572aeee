//! UDP datagrams over IPv4, RFC 791 and RFC 768.
ghost use Rattle.std.specs.Prelude.{◌≡◌, ◌↔◌, ◌≤◌, IsOk, length};
ghost use Rattle.dmr_ip.specs.Datagram.{IsDatagram, datagram_fault, has_header_sum, has_length};
ghost use Rattle.dmr_ip.specs.Datagram.{has_udp_length, has_udp_sum, is_whole, parse};

use crate::checksum::add_words;
use crate::fault::IpFault;
use crate::fields::{
    FRAGMENT, HEADERS, IP_HEADER, PROTOCOL, SOURCE_ADDRESS, TOTAL_LENGTH, UDP, UDP_CHECKSUM,
    UDP_LENGTH, VERSION, number_at,
};
use arrayvec::ArrayVec;
use dmr_octets::DATAGRAM_LIMIT;
use std::marker::Model;

/// A UDP datagram over IPv4 of at most 1,400 octets, without options, and not a fragment. RFC 791 and RFC 768.
#[derive(Debug, Drop)]
pub struct Datagram {
    octets: ArrayVec<u8, DATAGRAM_LIMIT>,
}

// Clauses see the list of the octets.
impl Model for Datagram {
    ghost use Rattle.std.specs.Prelude.{List, ℕ};
    ghost use Rattle.dmr_ip.specs.Datagram.{IsDatagram};

    ghost Value = { List ℕ };

    ghost view = { λ d. d.octets.items };

    ghost invariant = { λ d. IsDatagram d.octets.items };
}

impl Datagram {
    /// The datagram that the octets are, or their first fault.
    ///
    /// The tests go in this order: the length (20 to 1,400 octets, as many as the total length
    /// field says), the version, options, the header checksum, fragments, the protocol, the UDP
    /// length, the UDP checksum. A UDP checksum of 0 is accepted as none.
    pub fn parse(octets: &[u8]) -> Result<Datagram, IpFault>
        // The octets as they are, or the first fault in the order of the tests.
        ensures value { result ≡ parse octets.now }
        // Each datagram is accepted, and nothing else.
        ensures datagram { IsOk result ↔ IsDatagram octets.now }
    {
        match datagram_fault(octets) {
            Some(fault) => Err(fault),
            None => Ok(Datagram {
                octets: ArrayVec::try_from(octets).unwrap(),
            }),
        }
    }

    /// The datagram that built octets are.
    pub(crate) fn of_octets(octets: ArrayVec<u8, DATAGRAM_LIMIT>) -> Datagram
        requires datagram { IsDatagram octets.items }
        ensures value { result ≡ octets.items }
    {
        Datagram { octets }
    }

    /// Its octets, the IPv4 header first.
    pub fn octets(&self) -> &[u8]
        ensures value { result.now ≡ self.now }
        ensures datagram { IsDatagram self.now }
    {
        self.octets.as_slice()
    }
}

/// The first fault of octets as a datagram.
#[tactic(auto, unfolding(crate::specs::Datagram::datagram_fault))]
pub(crate) fn datagram_fault(octets: &[u8]) -> Option<IpFault>
    ensures value { result ≡ datagram_fault octets.now }
{
    if !has_length(octets) {
        return Some(IpFault::Length);
    }
    if octets[VERSION] / 16 != 4 {
        return Some(IpFault::Version);
    }
    if octets[VERSION] % 16 != 5 {
        return Some(IpFault::Options);
    }
    if !has_header_sum(octets) {
        return Some(IpFault::HeaderSum);
    }
    if !is_whole(octets) {
        return Some(IpFault::Fragment);
    }
    if octets[PROTOCOL] != UDP {
        return Some(IpFault::Protocol);
    }
    if !has_udp_length(octets) {
        return Some(IpFault::UdpLength);
    }
    if !has_udp_sum(octets) {
        return Some(IpFault::UdpSum);
    }
    None
}

fn has_length(octets: &[u8]) -> bool
    ensures value { result ≡ has_length octets.now }
{
    (IP_HEADER..=DATAGRAM_LIMIT).contains(&octets.len())
        && usize::from(number_at(octets, TOTAL_LENGTH)) == octets.len()
}

fn has_header_sum(octets: &[u8]) -> bool
    requires header { 20 ≤ length octets.now }
    ensures value { result ≡ has_header_sum octets.now }
{
    add_words(0, &octets[..IP_HEADER]) == 0xffff
}

// No more fragments follow, and the offset is 0.
fn is_whole(octets: &[u8]) -> bool
    requires header { 20 ≤ length octets.now }
    ensures value { result ≡ is_whole octets.now }
{
    let fragment = number_at(octets, FRAGMENT);
    fragment / 0x2000 % 2 == 0 && fragment % 0x2000 == 0
}

fn has_udp_length(octets: &[u8]) -> bool
    requires header { 20 ≤ length octets.now }
    ensures value { result ≡ has_udp_length octets.now }
{
    octets.len() >= HEADERS
        && usize::from(number_at(octets, UDP_LENGTH)) == octets.len() - IP_HEADER
}

// The UDP checksum is right, or there is none.
fn has_udp_sum(octets: &[u8]) -> bool
    requires headers { 28 ≤ length octets.now }
    ensures value { result ≡ has_udp_sum octets.now }
{
    if number_at(octets, UDP_CHECKSUM) == 0 {
        return true;
    }
    let addresses = add_words(0, &octets[SOURCE_ADDRESS..IP_HEADER]);
    let length = [octets[UDP_LENGTH], octets[UDP_LENGTH + 1]];
    let pseudo_header = add_words(addresses, &[0, octets[PROTOCOL], length[0], length[1]]);
    add_words(pseudo_header, &octets[IP_HEADER..]) == 0xffff
}
