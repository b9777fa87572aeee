//! The headers of the datagrams that have a compressed form.
ghost use Rattle.std.specs.Prelude.{◌≡◌, ◌+◌, ◌^◌, ◌<◌, ◌≤◌, length};
ghost use Rattle.dmr_ip.specs.Contents.{address, ip_checksum, ip_header, pseudo_header};
ghost use Rattle.dmr_ip.specs.Contents.{radio_address, sent_checksum, udp_checksum, udp_header};

use crate::checksum::add_words;
use crate::fields::{
    DESTINATION_ADDRESS, DESTINATION_PORT, HEADER_CHECKSUM, IDENTIFICATION, IP_HEADER, PROTOCOL,
    SOURCE_ADDRESS, SOURCE_PORT, TIME_TO_LIVE, TOTAL_LENGTH, UDP, UDP_CHECKSUM, UDP_HEADER,
    UDP_LENGTH, VERSION,
};
use byteorder::{BigEndian, ByteOrder};

/// The network of radios, 12.0.0.0.
const RADIOS: u32 = 12;

/// The network of groups, 225.0.0.0.
const GROUPS: u32 = 225;

/// The address of a radio.
pub(crate) fn radio_address(llid: u32) -> u32
    requires llid { llid < 2 ^ 24 }
    ensures value { result ≡ radio_address llid }
{
    RADIOS * 0x100_0000 + llid
}

/// The address of a radio or a group.
pub(crate) fn address(group: bool, llid: u32) -> u32
    requires llid { llid < 2 ^ 24 }
    ensures value { result ≡ address group llid }
{
    if group {
        GROUPS * 0x100_0000 + llid
    } else {
        radio_address(llid)
    }
}

/// The IPv4 header of a datagram of `total` octets, with its checksum.
pub(crate) fn ip_header(
    total: u16,
    identification: u16,
    source: u32,
    destination: u32,
) -> [u8; IP_HEADER]
    ensures value { let sum = ip_checksum total identification source destination in
        result ≡ ip_header sum total identification source destination }
{
    let blank = ip_header_with(0, total, identification, source, destination);
    let sum = 0xffff - add_words(0, &blank);
    ip_header_with(sum, total, identification, source, destination)
}

fn ip_header_with(
    sum: u16,
    total: u16,
    identification: u16,
    source: u32,
    destination: u32,
) -> [u8; IP_HEADER]
    ensures value { result ≡ ip_header sum total identification source destination }
{
    let mut header = [0; IP_HEADER];
    // Version 4, five words.
    header[VERSION] = 0x45;
    BigEndian::write_u16(&mut header[TOTAL_LENGTH..], total);
    BigEndian::write_u16(&mut header[IDENTIFICATION..], identification);
    header[TIME_TO_LIVE] = 64;
    header[PROTOCOL] = UDP;
    BigEndian::write_u16(&mut header[HEADER_CHECKSUM..], sum);
    BigEndian::write_u32(&mut header[SOURCE_ADDRESS..], source);
    BigEndian::write_u32(&mut header[DESTINATION_ADDRESS..], destination);
    header
}

/// The UDP header before a payload, with its checksum.
pub(crate) fn udp_header(
    source: u32,
    destination: u32,
    source_port: u16,
    destination_port: u16,
    payload: &[u8],
) -> [u8; UDP_HEADER]
    requires room { 28 + length payload.now ≤ 1400 }
    ensures value { let total = 8 + length payload.now in
        let sum = udp_checksum total source destination source_port destination_port payload.now in
        result ≡ udp_header sum total source_port destination_port }
{
    let total = (8 + payload.len()) as u16;
    let sum = udp_checksum(
        total,
        source,
        destination,
        source_port,
        destination_port,
        payload,
    );
    udp_header_with(sum, total, source_port, destination_port)
}

fn udp_checksum(
    total: u16,
    source: u32,
    destination: u32,
    source_port: u16,
    destination_port: u16,
    payload: &[u8],
) -> u16
    ensures value { result
        ≡ udp_checksum total source destination source_port destination_port payload.now }
{
    let blank = udp_header_with(0, total, source_port, destination_port);
    let pseudo_header = add_words(0, &pseudo_header(total, source, destination));
    let header = add_words(pseudo_header, &blank);
    sent_checksum(0xffff - add_words(header, payload))
}

// A computed checksum of 0 is sent as FFFF, since 0 says that there is none.
fn sent_checksum(sum: u16) -> u16
    ensures value { result ≡ sent_checksum sum }
{
    if sum == 0 { 0xffff } else { sum }
}

fn udp_header_with(
    sum: u16,
    total: u16,
    source_port: u16,
    destination_port: u16,
) -> [u8; UDP_HEADER]
    ensures value { result ≡ udp_header sum total source_port destination_port }
{
    let mut header = [0; UDP_HEADER];
    BigEndian::write_u16(&mut header[SOURCE_PORT - IP_HEADER..], source_port);
    BigEndian::write_u16(
        &mut header[DESTINATION_PORT - IP_HEADER..],
        destination_port,
    );
    BigEndian::write_u16(&mut header[UDP_LENGTH - IP_HEADER..], total);
    BigEndian::write_u16(&mut header[UDP_CHECKSUM - IP_HEADER..], sum);
    header
}

// What the UDP checksum covers before the UDP header.
fn pseudo_header(total: u16, source: u32, destination: u32) -> [u8; 12]
    ensures value { result ≡ pseudo_header total source destination }
{
    let mut header = [0; 12];
    BigEndian::write_u32(&mut header, source);
    BigEndian::write_u32(&mut header[4..], destination);
    header[9] = UDP;
    BigEndian::write_u16(&mut header[10..], total);
    header
}
