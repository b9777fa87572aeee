//! What stands in front of the datagram of a packet.
ghost use Rattle.std.specs.Prelude.{◌≡◌, ◌≢◌, ◌^◌, ◌<◌, ◌≤◌, Some, None, IfSome, IfNone, length, true};
ghost use Rattle.dmr_capture.specs.Links.{begins_with_tag, behind_link, behind_tags, behind_type, ipv4_carried, ipv4_of};
ghost use Rattle.dmr_capture.specs.Links.{link_number};

use byteorder::{BigEndian, ByteOrder};

/// What stands in front of the datagram of a packet, by its link type.
#[derive(Clone, Copy, Debug, Drop, PartialEq, Eq)]
pub enum Link {
    /// Ethernet, 1: two addresses, tags, and the type.
    Ethernet,
    /// Nothing, 101: the packet is IPv4 or IPv6.
    Raw,
    /// The head of Linux for any device, 113: 16 octets.
    LinuxCooked,
    /// Nothing, 228: the packet is IPv4.
    Ipv4,
    /// The second head of Linux for any device, 276: 20 octets.
    LinuxCooked2,
}

impl Link {
    /// The link of this number, where it is one that is read.
    pub(crate) fn of_number(number: u32) -> Option<Link>
        ensures link { IfSome result (λ link. number ≡ link_number link) }
        ensures none { IfNone result ((link : Link) → number ≢ link_number link) }
    {
        match number {
            1 => Some(Link::Ethernet),
            101 => Some(Link::Raw),
            113 => Some(Link::LinuxCooked),
            228 => Some(Link::Ipv4),
            276 => Some(Link::LinuxCooked2),
            _ => None,
        }
    }
}

/// Whether a tag of Ethernet stands in front, whole.
fn is_tagged(octets: &[u8]) -> bool
    ensures tag { result ≡ begins_with_tag octets.now }
    ensures four { result ≡ true → 4 ≤ length octets.now }
{
    match octets {
        [0x81, 0x00, _, _, ..] | [0x88, 0xa8, _, _, ..] => true,
        _ => false,
    }
}

/// What stands behind the type of an Ethernet packet, where that is IPv4.
fn behind_type(octets: &[u8]) -> Option<&[u8]>
    ensures some { IfSome result (λ packet. behind_type octets.now ≡ Some packet.now) }
    ensures none { IfNone result (behind_type octets.now ≡ None) }
{
    match octets {
        [0x08, 0x00, packet @ ..] => Some(packet),
        _ => None,
    }
}

/// What stands behind the tags and the type of an Ethernet packet, where that is IPv4.
fn behind_tags(octets: &[u8]) -> Option<&[u8]>
    ensures some { IfSome result (λ packet. behind_tags octets.now ≡ Some packet.now) }
    ensures none { IfNone result (behind_tags octets.now ≡ None) }
{
    let mut rest = octets;
    while is_tagged(rest) {
        rest = &rest[4..];
    }
    behind_type(rest)
}

/// What stands in a packet behind the head of its link, where that says or may say IPv4.
fn behind_link(link: Link, octets: &[u8]) -> Option<&[u8]>
    ensures some { IfSome result (λ packet. behind_link link octets.now ≡ Some packet.now) }
    ensures none { IfNone result (behind_link link octets.now ≡ None) }
{
    match link {
        Link::Ethernet if octets.len() >= 12 => behind_tags(&octets[12..]),
        Link::Raw | Link::Ipv4 => Some(octets),
        Link::LinuxCooked if octets.len() >= 16 && octets[14] == 0x08 && octets[15] == 0x00 => {
            Some(&octets[16..])
        }
        Link::LinuxCooked2 if octets.len() >= 20 && octets[0] == 0x08 && octets[1] == 0x00 => {
            Some(&octets[20..])
        }
        _ => None,
    }
}

/// The IPv4 packet at the front of these octets, by its total length.
fn ipv4(octets: &[u8]) -> Option<&[u8]>
    ensures some { IfSome result (λ packet. ipv4_of octets.now ≡ Some packet.now) }
    ensures head { IfSome result (λ packet. 20 ≤ length packet.now) }
    ensures short { IfSome result (λ packet. length packet.now < 2 ^ 16) }
    ensures none { IfNone result (ipv4_of octets.now ≡ None) }
{
    if octets.len() < 20 || octets[0] / 16 != 4 {
        return None;
    }
    let total = usize::from(BigEndian::read_u16(&octets[2..]));
    if total < 20 || octets.len() < total {
        return None;
    }
    Some(&octets[..total])
}

/// The IPv4 packet that a packet of this link carries, without what stands in front of it and what fills up the packet behind it.
///
/// There is none where the packet is of another protocol, has fewer octets than its total length, or says less than 20 of these.
/// IPv4 is RFC 791.
pub fn ipv4_in(link: Link, octets: &[u8]) -> Option<&[u8]>
    ensures some { IfSome result (λ packet. ipv4_carried link octets.now ≡ Some packet.now) }
    ensures head { IfSome result (λ packet. 20 ≤ length packet.now) }
    ensures short { IfSome result (λ packet. length packet.now < 2 ^ 16) }
    ensures none { IfNone result (ipv4_carried link octets.now ≡ None) }
{
    ipv4(behind_link(link, octets)?)
}
