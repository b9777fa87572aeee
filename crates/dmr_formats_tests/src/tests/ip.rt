//! Datagrams from outside, their forms, and the faults of both.
ghost use Rattle.std.specs.Prelude.{◌<◌, ◌^◌};

use dmr_ip::{Datagram, ExpandFault, IpFault, compress, compress_octets, expand};
use dmr_test_values::{EMPTY_DATAGRAM, OTHER_TIME_TO_LIVE};

// The datagrams were computed apart from this crate, by the formulas of RFC 791, RFC 768 and
// RFC 1071.

/// Five octets of text, from 192.0.2.1 to 198.51.100.7.
const ODD_LENGTH: [u8; 33] = [
    0x45, 0x00, 0x00, 0x21, 0x00, 0x01, 0x00, 0x00, 0x40, 0x11, 0x8e, 0x8f, 0xc0, 0x00, 0x02, 0x01,
    0xc6, 0x33, 0x64, 0x07, 0xc0, 0x00, 0x00, 0x35, 0x00, 0x0d, 0x0d, 0x97, 0x72, 0x61, 0x64, 0x69,
    0x6f,
];

/// A type of service, the flag against fragments, time to live 1.
const WITH_SERVICE: [u8; 32] = [
    0x45, 0xb8, 0x00, 0x20, 0xbe, 0xef, 0x40, 0x00, 0x01, 0x11, 0x9f, 0x18, 0x0a, 0x01, 0x02, 0x03,
    0x0a, 0x04, 0x05, 0x06, 0x13, 0x88, 0x17, 0x70, 0x00, 0x0c, 0xb5, 0xca, 0x01, 0x02, 0x03, 0x04,
];

/// No UDP checksum.
const WITHOUT_CHECKSUM: [u8; 31] = [
    0x45, 0x00, 0x00, 0x1f, 0xff, 0xff, 0x00, 0x00, 0x40, 0x11, 0x22, 0x9b, 0xac, 0x10, 0x00, 0x09,
    0xac, 0x10, 0x00, 0x0a, 0x00, 0x01, 0xff, 0xff, 0x00, 0x0b, 0x00, 0x00, 0x61, 0x62, 0x63,
];

/// A computed UDP checksum of 0, sent as FFFF, from LLID 7 to group 9.
const CHECKSUM_OF_ONES: [u8; 30] = [
    0x45, 0x00, 0x00, 0x1e, 0x0f, 0x0f, 0x00, 0x00, 0x40, 0x11, 0x7e, 0xb0, 0x0c, 0x00, 0x00, 0x07,
    0xe1, 0x00, 0x00, 0x09, 0x13, 0x99, 0x13, 0x98, 0x00, 0x0a, 0xff, 0xff, 0xeb, 0x98,
];

/// A header whose checksum is 0, from LLID 7 to LLID 9.
const HEADER_SUM_OF_ZEROS: [u8; 30] = [
    0x45, 0x00, 0x00, 0x1e, 0x62, 0xc0, 0x00, 0x00, 0x40, 0x11, 0x00, 0x00, 0x0c, 0x00, 0x00, 0x07,
    0x0c, 0x00, 0x00, 0x09, 0x0f, 0xa0, 0x0f, 0xa1, 0x00, 0x0a, 0x60, 0x20, 0x68, 0x69,
];

/// Five octets of text, from LLID 123456 to group ABCDEF, ports 5017 and 5016.
const TO_A_GROUP: [u8; 33] = [
    0x45, 0x00, 0x00, 0x21, 0xa5, 0x5a, 0x00, 0x00, 0x40, 0x11, 0xe5, 0x6e, 0x0c, 0x12, 0x34, 0x56,
    0xe1, 0xab, 0xcd, 0xef, 0x13, 0x99, 0x13, 0x98, 0x00, 0x0d, 0xc4, 0xcd, 0x48, 0x65, 0x6c, 0x6c,
    0x6f,
];

/// More fragments follow, and it is TCP.
const FIRST_FRAGMENT: [u8; 29] = [
    0x45, 0x00, 0x00, 0x1d, 0x00, 0x01, 0x20, 0x00, 0x40, 0x06, 0x42, 0xd8, 0x0c, 0x00, 0x00, 0x01,
    0x0c, 0x00, 0x00, 0x02, 0x0f, 0xa0, 0x0f, 0xa1, 0x00, 0x09, 0x00, 0x00, 0x78,
];

/// A fragment offset of 1.
const LATER_FRAGMENT: [u8; 29] = [
    0x45, 0x00, 0x00, 0x1d, 0x00, 0x01, 0x00, 0x01, 0x40, 0x11, 0x62, 0xcc, 0x0c, 0x00, 0x00, 0x01,
    0x0c, 0x00, 0x00, 0x02, 0x0f, 0xa0, 0x0f, 0xa1, 0x00, 0x09, 0x00, 0x00, 0x78,
];

/// TCP, and no UDP length.
const TCP: [u8; 29] = [
    0x45, 0x00, 0x00, 0x1d, 0x00, 0x01, 0x00, 0x00, 0x40, 0x06, 0x62, 0xd8, 0x0c, 0x00, 0x00, 0x01,
    0x0c, 0x00, 0x00, 0x02, 0x0f, 0xa0, 0x0f, 0xa1, 0x00, 0x0a, 0x00, 0x00, 0x78,
];

/// A UDP length of one octet too many.
const LONG_UDP: [u8; 29] = [
    0x45, 0x00, 0x00, 0x1d, 0x00, 0x01, 0x00, 0x00, 0x40, 0x11, 0x62, 0xcd, 0x0c, 0x00, 0x00, 0x01,
    0x0c, 0x00, 0x00, 0x02, 0x0f, 0xa0, 0x0f, 0xa1, 0x00, 0x0a, 0x00, 0x00, 0x78,
];

/// Half a UDP header.
const CUT_UDP: [u8; 24] = [
    0x45, 0x00, 0x00, 0x18, 0x00, 0x01, 0x00, 0x00, 0x40, 0x11, 0x62, 0xd2, 0x0c, 0x00, 0x00, 0x01,
    0x0c, 0x00, 0x00, 0x02, 0x00, 0x00, 0x00, 0x04,
];

/// Whether this is the compressed form of a datagram that was parsed, or whether it has none.
fn has_form_parsed(
    parsed: &Datagram,
    source: u32,
    destination: u32,
    group: bool,
    form: Option<&[u8]>,
) -> bool
    requires source { source < 2 ^ 24 }
    requires destination { destination < 2 ^ 24 }
{
    match compress(parsed, source, destination, group) {
        Some(found) => form == Some(found.as_slice()),
        None => form.is_none(),
    }
}

/// The same of the octets of a datagram.
fn has_form_unparsed(
    datagram: &[u8],
    source: u32,
    destination: u32,
    group: bool,
    form: Option<&[u8]>,
) -> bool
    requires source { source < 2 ^ 24 }
    requires destination { destination < 2 ^ 24 }
{
    match compress_octets(datagram, source, destination, group) {
        Some(found) => form == Some(found.as_slice()),
        None => form.is_none(),
    }
}

/// Whether this is the compressed form of a datagram, or whether it has none.
fn has_form(
    datagram: &[u8],
    source: u32,
    destination: u32,
    group: bool,
    form: Option<&[u8]>,
) -> bool
    requires source { source < 2 ^ 24 }
    requires destination { destination < 2 ^ 24 }
{
    match Datagram::parse(datagram) {
        Ok(parsed) => has_form_parsed(&parsed, source, destination, group, form)
            && has_form_unparsed(datagram, source, destination, group, form),
        Err(_) => false,
    }
}

/// Whether this is the datagram of a compressed form.
fn expands_to(form: &[u8], source: u32, destination: u32, group: bool, datagram: &[u8]) -> bool
    requires source { source < 2 ^ 24 }
    requires destination { destination < 2 ^ 24 }
{
    match expand(form, source, destination, group) {
        Ok(found) => found.octets() == datagram,
        Err(_) => false,
    }
}

/// Compressed forms that have no datagram, and why.
const REFUSED: [(&[u8], ExpandFault); 7] = [
    (&[], ExpandFault::Short),
    (&[0x12, 0x34, 0x00, 0x01], ExpandFault::Short),
    (&[0x12, 0x34, 0x00, 0x01, 0x00], ExpandFault::Short),
    (&[0x12, 0x34, 0x00, 0x01, 0x00, 0x13], ExpandFault::Short),
    (
        &[0x12, 0x34, 0x00, 0x81, 0x00, 0x13, 0x9a],
        ExpandFault::Opcode,
    ),
    (
        &[0x12, 0x34, 0x10, 0x01, 0x00, 0x13, 0x9a],
        ExpandFault::Address,
    ),
    (
        &[0x12, 0x34, 0x00, 0x03, 0x00, 0x13, 0x9a],
        ExpandFault::Port,
    ),
];

#[test]
fn expand_refusals(rt: HostRuntime) {
    for (octets, expected) in REFUSED {
        assert!(rt; fault(octets) == Some(expected), "{octets:?}");
    }
}

/// A form of as many octets as a datagram may have, and one more.
#[test]
fn long_form(rt: HostRuntime) {
    let mut octets = [0; 1378];
    octets[..5].copy_from_slice(&[0x12, 0x34, 0x00, 0x01, 0x01]);
    assert!(rt; fault(&octets) == Some(ExpandFault::Long));
    assert!(rt; fault(&octets[..1377]).is_none());
}

fn fault(octets: &[u8]) -> Option<ExpandFault> {
    expand(octets, 1, 2, false).err()
}

#[test]
fn other_time_to_live(rt: HostRuntime) {
    assert!(rt; has_form(&OTHER_TIME_TO_LIVE, 1, 2, false, None));
}

/// Why a datagram is refused with another octet at a place.
fn refusal(place: usize, octet: u8) -> Option<IpFault> {
    let mut octets = EMPTY_DATAGRAM;
    if place < 28 {
        octets[place] = octet;
    }
    Datagram::parse(&octets).err()
}

#[test]
fn parse_refusals(rt: HostRuntime) {
    assert!(rt; Datagram::parse(&EMPTY_DATAGRAM[..27]).err() == Some(IpFault::Length));
    for (place, octet, expected) in [
        (0, 0x55, IpFault::Version),
        (0, 0x46, IpFault::Options),
        (8, 0x3f, IpFault::HeaderSum),
        (27, 0xa8, IpFault::UdpSum),
    ] {
        assert!(rt; refusal(place, octet) == Some(expected), "octet {place}");
    }
}

/// Datagrams with one fault, and which.
const FAULTY: [(&[u8], IpFault); 5] = [
    (&FIRST_FRAGMENT, IpFault::Fragment),
    (&LATER_FRAGMENT, IpFault::Fragment),
    (&TCP, IpFault::Protocol),
    (&LONG_UDP, IpFault::UdpLength),
    (&CUT_UDP, IpFault::UdpLength),
];

#[test]
fn refusals_in_order(rt: HostRuntime) {
    for (octets, expected) in FAULTY {
        assert!(rt;
            Datagram::parse(octets).err() == Some(expected),
            "{expected}"
        );
    }
}

#[test]
fn either_header_sum(rt: HostRuntime) {
    let form = [
        0x62, 0xc0, 0x00, 0x00, 0x00, 0x0f, 0xa0, 0x0f, 0xa1, 0x68, 0x69,
    ];
    assert!(rt; has_form(&HEADER_SUM_OF_ZEROS, 7, 9, false, Some(&form)));
    let mut octets = HEADER_SUM_OF_ZEROS;
    octets[10] = 0xff;
    octets[11] = 0xff;
    assert!(rt; has_form(&octets, 7, 9, false, None));
}

/// Ports that have an identifier by it, and spelled out.
const BY_IDENTIFIER: [u8; 10] = [0xa5, 0x5a, 0x02, 0x02, 0x01, 0x48, 0x65, 0x6c, 0x6c, 0x6f];

const SPELLED_OUT: [u8; 14] = [
    0xa5, 0x5a, 0x02, 0x00, 0x00, 0x13, 0x99, 0x13, 0x98, 0x48, 0x65, 0x6c, 0x6c, 0x6f,
];

#[test]
fn ports_by_identifier(rt: HostRuntime) {
    assert!(rt;
        has_form(
            &TO_A_GROUP,
            0x12_3456,
            0xab_cdef,
            true,
            Some(&BY_IDENTIFIER)
        )
    );
    assert!(rt; expands_to(&BY_IDENTIFIER, 0x12_3456, 0xab_cdef, true, &TO_A_GROUP));
    assert!(rt; expands_to(&SPELLED_OUT, 0x12_3456, 0xab_cdef, true, &TO_A_GROUP));
}

#[test]
fn datagrams(rt: HostRuntime) {
    let datagrams: [&[u8]; 7] = [
        &EMPTY_DATAGRAM,
        &OTHER_TIME_TO_LIVE,
        &ODD_LENGTH,
        &WITH_SERVICE,
        &WITHOUT_CHECKSUM,
        &CHECKSUM_OF_ONES,
        &HEADER_SUM_OF_ZEROS,
    ];
    for octets in datagrams {
        assert!(rt; Datagram::parse(octets).is_ok(), "{octets:?}");
    }
}
