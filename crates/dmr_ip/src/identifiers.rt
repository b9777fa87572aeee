//! Identifiers of addresses and ports in the compressed form.
ghost use Rattle.std.specs.Prelude.{◌≡◌, ◌+◌, ◌≤◌, ◌++◌, length};
ghost use Rattle.dmr_ip.specs.Spelling.{address_identifiers, form_fault, identifier_of, port_from, port_length, port_octets};

use crate::fault::ExpandFault;
use crate::fields::{HEADERS, number_at};
use arrayvec::ArrayVec;
use dmr_octets::DATAGRAM_LIMIT;

/// How many octets a compressed form has at most: the identifiers, both ports, and the payload.
pub const FORM_LIMIT: usize = IDENTIFIERS + 4 + DATAGRAM_LIMIT - HEADERS;

/// How many octets the identification and the identifiers have.
pub const IDENTIFIERS: usize = 5;

/// Where the address identifiers stand, four bits each.
const ADDRESSES: usize = 2;

/// Where the source port's identifier stands, below an opcode bit.
pub const SOURCE: usize = 3;

/// Where the destination port's identifier stands, below an opcode bit.
pub const DESTINATION: usize = 4;

/// What an opcode bit is worth.
pub const OPCODE: u8 = 0x80;

/// The highest identifier that names a port.
const LAST_PORT: u8 = 2;

/// The port with identifier 1.
const FIRST_PORT: u16 = 5016;

/// The port with identifier 2.
const SECOND_PORT: u16 = 5017;

/// The first fault of octets as a compressed form.
#[tactic(auto, unfolding(crate::specs::Spelling::form_fault))]
pub(crate) fn form_fault(octets: &[u8], group: bool) -> Option<ExpandFault>
    ensures value { result ≡ form_fault octets.now group }
{
    if octets.len() < IDENTIFIERS {
        return Some(ExpandFault::Short);
    }
    if octets[SOURCE] / OPCODE != 0 || octets[DESTINATION] / OPCODE != 0 {
        return Some(ExpandFault::Opcode);
    }
    if octets[ADDRESSES] != address_identifiers(group) {
        return Some(ExpandFault::Address);
    }
    let source = octets[SOURCE] % OPCODE;
    let destination = octets[DESTINATION] % OPCODE;
    if source > LAST_PORT || destination > LAST_PORT {
        return Some(ExpandFault::Port);
    }
    let ports = port_length(source) + port_length(destination);
    let behind_identifiers = octets.len() - IDENTIFIERS;
    if behind_identifiers < ports {
        return Some(ExpandFault::Short);
    }
    if HEADERS + (behind_identifiers - ports) > DATAGRAM_LIMIT {
        return Some(ExpandFault::Long);
    }
    None
}

/// The identifiers of the source and the destination address, four bits each.
pub(crate) fn address_identifiers(group: bool) -> u8
    ensures value { result ≡ address_identifiers group }
{
    if group { 2 } else { 0 }
}

/// The identifier by which a port is written.
pub(crate) fn identifier_of(port: u16) -> u8
    ensures value { result ≡ identifier_of port }
{
    match port {
        FIRST_PORT => 1,
        SECOND_PORT => 2,
        _ => 0,
    }
}

/// How many octets a port has behind the identifiers.
pub(crate) fn port_length(identifier: u8) -> usize
    ensures value { result ≡ port_length identifier }
{
    if identifier == 0 { 2 } else { 0 }
}

/// The port that an identifier names, or that the octets begin with.
pub(crate) fn port_from(identifier: u8, octets: &[u8]) -> u16
    requires room { port_length identifier ≤ length octets.now }
    ensures value { result ≡ port_from identifier octets.now }
{
    match identifier {
        0 => number_at(octets, 0),
        1 => FIRST_PORT,
        _ => SECOND_PORT,
    }
}

/// Spells a port out where its identifier is 0.
pub(crate) fn push_port(form: &mut ArrayVec<u8, FORM_LIMIT>, identifier: u8, port: u16)
    requires room { length form.old.items + 2 ≤ FORM_LIMIT }
    ensures value { form.new.items ≡ form.old.items ++ port_octets identifier port }
    ensures length { length form.new.items ≤ length form.old.items + 2 }
{
    if identifier == 0 {
        form.try_extend_from_slice(&port.to_be_bytes()).unwrap();
    }
}
