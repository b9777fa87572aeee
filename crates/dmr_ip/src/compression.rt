//! Header compression of UDP over IPv4.
ghost use Rattle.std.specs.Prelude.{◌≡◌, ◌↔◌, ℕ, ◌^◌, ◌<◌, List, Ok, IfSome, IfNone, option_and_then};
ghost use Rattle.std.specs.Option.{option_map};
ghost use Rattle.std.specs.Result.{result_ok};
ghost use Rattle.dmr_ip.specs.Datagram.{IsDatagram, parse};
ghost use Rattle.dmr_ip.specs.Spelling.{SpellsDatagram, Writes, compress, expand};

use crate::datagram::{Datagram, datagram_fault};
use crate::fault::ExpandFault;
use crate::identifiers::{FORM_LIMIT, form_fault};
use crate::message::Message;
use arrayvec::ArrayVec;

/// The compressed form of a datagram, in a packet from one LLID to another, or to a group.
///
/// There is one where the datagram has service 0, flags 0, time to live 64, the addresses of these
/// LLIDs, and both checksums as they are computed. ETSI TS 102 361-3, with this project's own
/// identifiers.
pub fn compress(
    datagram: &Datagram,
    source: u32,
    destination: u32,
    group: bool,
) -> Option<ArrayVec<u8, FORM_LIMIT>>
    requires source_fits { source < 2 ^ 24 }
    requires destination_fits { destination < 2 ^ 24 }
    ensures value { option_map (λ form. form.items) result
        ≡ compress datagram.now source destination group }
    // A form spells the datagram, with ports by their identifiers where they have one.
    ensures written { IfSome result (λ form. Writes form.items source destination group datagram.now) }
    // Where there is none, no octets spell the datagram.
    ensures none { IfNone result ((octets : List ℕ)
        → ¬ SpellsDatagram octets source destination group datagram.now) }
{
    form_of(datagram.octets(), source, destination, group)
}

/// The compressed form of the datagram that these octets are, as `compress` gives it; none where
/// they are no datagram.
///
/// No datagram is made of them, since one is large. ETSI TS 102 361-3, with this project's own
/// identifiers.
pub fn compress_octets(
    octets: &[u8],
    source: u32,
    destination: u32,
    group: bool,
) -> Option<ArrayVec<u8, FORM_LIMIT>>
    requires source_fits { source < 2 ^ 24 }
    requires destination_fits { destination < 2 ^ 24 }
    ensures value { option_map (λ form. form.items) result
        ≡ option_and_then (λ datagram. compress datagram source destination group) (result_ok (parse octets.now)) }
    // A form is the one that is written for the datagram.
    ensures written { IfSome result (λ form. Writes form.items source destination group octets.now) }
{
    match datagram_fault(octets) {
        Some(_) => None,
        None => form_of(octets, source, destination, group),
    }
}

// The compressed form of octets that are a datagram.
fn form_of(
    octets: &[u8],
    source: u32,
    destination: u32,
    group: bool,
) -> Option<ArrayVec<u8, FORM_LIMIT>>
    requires source_fits { source < 2 ^ 24 }
    requires destination_fits { destination < 2 ^ 24 }
    requires datagram { IsDatagram octets.now }
    ensures value { option_map (λ form. form.items) result ≡ compress octets.now source destination group }
    ensures written { IfSome result (λ form. Writes form.items source destination group octets.now) }
    ensures none { IfNone result ((form : List ℕ)
        → ¬ SpellsDatagram form source destination group octets.now) }
{
    let message = Message::shown_by(octets);
    if message.is_in(octets, source, destination, group) {
        Some(message.form(group))
    } else {
        None
    }
}

/// The datagram that octets spell, in a packet from one LLID to another, or to a group.
///
/// The tests go in this order: five octets, the opcode bits, the address identifiers, the port
/// identifiers, the ports that are spelled out, the length of the datagram. A port that has an
/// identifier may be spelled out too. ETSI TS 102 361-3, with this project's own identifiers.
pub fn expand(
    octets: &[u8],
    source: u32,
    destination: u32,
    group: bool,
) -> Result<Datagram, ExpandFault>
    requires source_fits { source < 2 ^ 24 }
    requires destination_fits { destination < 2 ^ 24 }
    // The datagram with the contents that are read, or the first fault in the order of the tests.
    ensures value { result ≡ expand octets.now source destination group }
    // Each spelling of a datagram is accepted, and nothing else.
    ensures spelled { (datagram : List ℕ)
        → (result ≡ Ok datagram) ↔ SpellsDatagram octets.now source destination group datagram }
{
    match form_fault(octets, group) {
        Some(fault) => Err(fault),
        None => Ok(Message::said_by(octets).datagram(source, destination, group)),
    }
}
