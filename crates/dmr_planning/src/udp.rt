//! UDP datagrams over IPv4 between any addresses. RFC 791 and RFC 768.
ghost use Rattle.std.specs.Prelude.{◌≡◌, ◌+◌, ◌≤◌, ◌++◌, fold, length};
ghost use Rattle.dmr_ip.specs.Checksum as sums;
ghost use Rattle.dmr_ip.specs.Contents as spec;
ghost use Rattle.dmr_planning.specs.Sending.{udp_datagram};
ghost use Rattle.dmr_script.specs.Fits.{FitsMessage};

use arrayvec::ArrayVec;
use byteorder::{BigEndian, ByteOrder};
use dmr_script::AddressedMessage;

/// The sum of two words in one's complement, with the carry out of the highest bit added at the lowest. RFC 1071.
#[tactic(auto, unfolding(dmr_ip::specs::Checksum::plus))]
fn plus(a: u16, b: u16) -> u16
    ensures value { result ≡ sums.plus a b }
{
    let sum = u32::from(a) + u32::from(b);
    (sum % 0x1_0000 + sum / 0x1_0000) as u16
}

/// A sum to which the words of octets are added. An odd octet at the end is the high one of its word.
fn add_words(start: u16, octets: &[u8]) -> u16
    ensures value { result ≡ fold sums.plus start (sums.words octets.now) }
{
    let mut sum = start;
    let mut rest = octets;
    while let [high, low, more @ ..] = rest {
        sum = plus(sum, u16::from_be_bytes([*high, *low]));
        rest = more;
    }
    match rest {
        [high] => plus(sum, u16::from_be_bytes([*high, 0])),
        _ => sum,
    }
}

/// The IPv4 header of a datagram of `total` octets, with this checksum.
fn ip_header(sum: u16, total: u16, identification: u16, source: u32, destination: u32) -> [u8; 20]
    ensures value { result ≡ spec.ip_header sum total identification source destination }
{
    let mut header = [0; 20];
    // Version 4, five words.
    header[0] = 0x45;
    BigEndian::write_u16(&mut header[2..], total);
    BigEndian::write_u16(&mut header[4..], identification);
    // Time to live, and UDP.
    header[8] = 64;
    header[9] = 17;
    BigEndian::write_u16(&mut header[10..], sum);
    BigEndian::write_u32(&mut header[12..], source);
    BigEndian::write_u32(&mut header[16..], destination);
    header
}

/// The UDP header in front of a payload, of `total` octets with it, with this checksum.
fn udp_header(sum: u16, total: u16, source_port: u16, destination_port: u16) -> [u8; 8]
    ensures value { result ≡ spec.udp_header sum total source_port destination_port }
{
    let mut header = [0; 8];
    BigEndian::write_u16(&mut header, source_port);
    BigEndian::write_u16(&mut header[2..], destination_port);
    BigEndian::write_u16(&mut header[4..], total);
    BigEndian::write_u16(&mut header[6..], sum);
    header
}

/// What the UDP checksum covers in front of the UDP header.
fn pseudo_header(total: u16, source: u32, destination: u32) -> [u8; 12]
    ensures value { result ≡ spec.pseudo_header total source destination }
{
    let mut header = [0; 12];
    BigEndian::write_u32(&mut header, source);
    BigEndian::write_u32(&mut header[4..], destination);
    header[9] = 17;
    BigEndian::write_u16(&mut header[10..], total);
    header
}

/// The IPv4 header of a datagram of `total` octets, with its checksum.
fn sealed_ip_header(total: u16, identification: u16, source: u32, destination: u32) -> [u8; 20]
    ensures value { let sum = spec.ip_checksum total identification source destination in
        result ≡ spec.ip_header sum total identification source destination }
{
    let blank = ip_header(0, total, identification, source, destination);
    let sum = 0xffff - add_words(0, &blank);
    ip_header(sum, total, identification, source, destination)
}

/// A computed UDP checksum of 0 is sent as FFFF, since 0 says that there is none.
fn sent_checksum(sum: u16) -> u16
    ensures value { result ≡ spec.sent_checksum sum }
{
    if sum == 0 { 0xffff } else { sum }
}

/// The UDP checksum in front of a payload, as it is sent.
fn udp_checksum(
    total: u16,
    source: u32,
    destination: u32,
    source_port: u16,
    destination_port: u16,
    payload: &[u8],
) -> u16
    ensures value { result ≡ spec.udp_checksum total source destination source_port destination_port payload.now }
{
    let blank = udp_header(0, total, source_port, destination_port);
    let pseudo_header = add_words(0, &pseudo_header(total, source, destination));
    let header = add_words(pseudo_header, &blank);
    sent_checksum(0xffff - add_words(header, payload))
}

/// The UDP header in front of a payload, with its checksum.
fn sealed_udp_header(
    source: u32,
    destination: u32,
    source_port: u16,
    destination_port: u16,
    payload: &[u8],
) -> [u8; 8]
    requires room { 28 + length payload.now ≤ 1400 }
    ensures value { let total = 8 + length payload.now in
        let sum = spec.udp_checksum total source destination source_port destination_port payload.now in
        result ≡ spec.udp_header sum total source_port destination_port }
{
    let total = (8 + payload.len()) as u16;
    let sum = udp_checksum(
        total,
        source,
        destination,
        source_port,
        destination_port,
        payload,
    );
    udp_header(sum, total, source_port, destination_port)
}

/// Both headers, and the payload behind them.
fn joined(ip: &[u8; 20], udp: &[u8; 8], payload: &[u8]) -> ArrayVec<u8, 1400>
    requires room { 28 + length payload.now ≤ 1400 }
    ensures value { result.items ≡ ip.now ++ udp.now ++ payload.now }
{
    let mut octets = ArrayVec::new();
    octets.try_extend_from_slice(ip).unwrap();
    octets.try_extend_from_slice(udp).unwrap();
    octets.try_extend_from_slice(payload).unwrap();
    octets
}

/// The datagram that a script says, of at most 1,400 octets.
#[tactic(auto, unfolding(dmr_ip::specs::Contents::datagram_between))]
pub(crate) fn udp_datagram(addressed: &AddressedMessage) -> ArrayVec<u8, 1400>
    requires fit { FitsMessage addressed.now.message }
    ensures value { result.items ≡ udp_datagram addressed.now }
    ensures short { length result.items ≤ 1400 }
{
    let message = &addressed.message;
    let payload: &[u8] = &message.data;
    let source = u32::from_be_bytes(addressed.source);
    let destination = u32::from_be_bytes(addressed.destination);
    let total = (28 + payload.len()) as u16;
    let ip = sealed_ip_header(total, message.identification, source, destination);
    let udp = sealed_udp_header(
        source,
        destination,
        message.source_port,
        message.destination_port,
        payload,
    );
    joined(&ip, &udp, payload)
}
