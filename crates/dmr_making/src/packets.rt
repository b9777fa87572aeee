//! The tries that a script says.
ghost use Rattle.std.specs.Prelude.{◌≡◌, ◌<◌, ◌≤◌, ◌^◌, ◌+◌, All, length};
ghost use Rattle.dmr_ip.specs.Contents.{FitsDatagram};
ghost use Rattle.dmr_script.specs.Fits.{FitsPacket, FitsPartial, FitsShortData, FitsAnswer};
ghost use Rattle.dmr_making.specs.Packets as spec;

use crate::tries::SentTry;
use dmr_data::{
    Blocks, Confirmed, Header, Octets, PACKET_LIMIT, Packet, Rate, Response, ShortData,
    Unconfirmed, split_packet,
};
use dmr_ip::{Datagram, compress, expand};
use dmr_script::{
    Answer, AnswerKind, Body, PacketTry, PartialTry, ShortDataTry, StatusSent, UdpMessage, Wanted,
};

/// The service access point of compressed UDP datagrams. ETSI TS 102 361-1, clause 9.3.18.
const COMPRESSED: u8 = 3;

/// How many octets a compressed form has in front of its data, with both ports spelled out.
const FORM_HEAD: usize = 9;

/// The compressed form of a UDP datagram with these data that spells both ports. ETSI TS 102 361-3.
fn plain_form(group: bool, message: &UdpMessage, payload: &[u8]) -> Octets<1400>
    requires payload { payload.now ≡ message.now.data.items }
    requires room { 28 + length message.now.data.items ≤ 1400 }
    ensures value { result ≡ spec.plain_form group message.now }
    ensures fits { FitsDatagram (spec.contents_of message.now) }
{
    let id = message.identification.to_be_bytes();
    let source = message.source_port.to_be_bytes();
    let destination = message.destination_port.to_be_bytes();
    let addresses = if group { 2 } else { 0 };
    let head = [
        id[0],
        id[1],
        addresses,
        0,
        0,
        source[0],
        source[1],
        destination[0],
        destination[1],
    ];
    let mut form = Octets::from_slice(&head);
    form.extend_from_slice(payload);
    form
}

/// The UDP datagram with these contents, from one LLID to another or to a group.
fn datagram_of(p: &PacketTry, message: &UdpMessage) -> Datagram
    requires source { p.now.source < 2 ^ 24 }
    requires destination { p.now.destination < 2 ^ 24 }
    requires room { 28 + length message.now.data.items ≤ 1400 }
    ensures value { result ≡ spec.datagram_in p.now message.now }
    ensures fits { FitsDatagram (spec.contents_of message.now) }
{
    let form = plain_form(p.group, message, &message.data);
    expand(form.as_slice(), p.source, p.destination, p.group).unwrap()
}

/// What a packet carries: octets, or a UDP datagram as it is or in its compressed form.
fn packet_octets(p: &PacketTry) -> Octets<PACKET_LIMIT>
    requires fit { FitsPacket p.now }
    ensures value { result ≡ spec.packet_octets p.now }
{
    match &p.body {
        Body::Octets(octets) => Octets::from_slice(octets),
        Body::Udp(message) => {
            let datagram = datagram_of(p, message);
            if p.sap == COMPRESSED {
                let form = compress(&datagram, p.source, p.destination, p.group).unwrap();
                Octets::from_slice(form.as_slice())
            } else {
                Octets::from_slice(datagram.octets())
            }
        }
    }
}

/// The packet that a try sends.
fn packet_of(p: &PacketTry) -> Packet
    requires fit { FitsPacket p.now }
    ensures packet { spec.IsPacketIn p.now result }
{
    split_packet(packet_octets(p).as_slice(), p.rate, p.confirmed)
}

/// The header of a try of so many blocks, which is all of the packet or some blocks of it.
fn packet_header(p: &PacketTry, pad: u8, full: bool, blocks: u8) -> Header
    ensures value { result ≡ spec.packet_header p.now pad full blocks }
{
    if p.confirmed {
        Header::Confirmed(Confirmed {
            group: p.group,
            wanted: p.wanted,
            pad,
            sap: p.sap,
            destination: p.destination,
            source: p.source,
            full,
            blocks,
            resynchronize: false,
            number: p.number,
            fragment: 8,
        })
    } else {
        Header::Unconfirmed(Unconfirmed {
            group: p.group,
            wanted: false,
            pad,
            sap: p.sap,
            destination: p.destination,
            source: p.source,
            full,
            blocks,
            fragment: 0,
        })
    }
}

/// A full try of a packet.
pub(crate) fn full_try(p: &PacketTry) -> SentTry
    requires fit { FitsPacket p.now }
    ensures is { spec.IsFullTry p.now result }
{
    let packet = packet_of(p);
    let blocks = packet.blocks.as_slice().len() as u8;
    SentTry {
        source: p.source,
        group: p.group,
        destination: p.destination,
        header: packet_header(p, packet.pad, true, blocks),
        rate: p.rate,
        blocks: packet.blocks,
    }
}

/// The blocks of these numbers.
fn picked(blocks: &[dmr_data::Block], serials: &[u8]) -> Blocks
    requires most { length serials.now ≤ 127 }
    requires inside { All (λ serial. serial < length blocks.now) serials.now }
    ensures picked { spec.ArePicked blocks.now serials.now result }
{
    let mut some = Blocks::new();
    for serial in serials {
        some.push(blocks[usize::from(*serial)].copy());
    }
    some
}

/// A further try of some blocks of a packet.
pub(crate) fn partial_try(p: &PacketTry, partial: &PartialTry) -> SentTry
    requires fit { FitsPacket p.now }
    requires partial { FitsPartial partial.now }
    requires inside { All (λ serial. serial < length p.now.shape.blocks.items) partial.now.serials.items }
    ensures is { spec.IsPartialTry p.now partial.now result }
{
    let packet = packet_of(p);
    let blocks = partial.serials.len() as u8;
    SentTry {
        source: p.source,
        group: p.group,
        destination: p.destination,
        header: packet_header(p, packet.pad, false, blocks),
        rate: p.rate,
        blocks: picked(packet.blocks.as_slice(), &partial.serials),
    }
}

/// Short data and its blocks.
pub(crate) fn short_data_try(short: &ShortDataTry) -> SentTry
    requires fit { FitsShortData short.now }
    ensures is { spec.IsShortDataTry short.now result }
{
    let packet = split_packet(&short.octets, Rate::Half, false);
    let blocks = packet.blocks.as_slice().len() as u8;
    SentTry {
        source: short.source,
        group: short.group,
        destination: short.destination,
        header: Header::ShortData(ShortData {
            group: short.group,
            wanted: false,
            blocks,
            destination: short.destination,
            source: short.source,
            data_format: short.format,
            resynchronize: false,
            full: true,
            bit_padding: 8 * packet.pad,
        }),
        rate: Rate::Half,
        blocks: packet.blocks,
    }
}

/// A status, which has no blocks.
pub(crate) fn status_try(status: &StatusSent) -> SentTry
    ensures is { result ≡ spec.status_try status.now }
{
    SentTry {
        source: status.header.source,
        group: status.header.group,
        destination: status.header.destination,
        header: Header::Status(status.header),
        rate: Rate::Half,
        blocks: Blocks::new(),
    }
}

/// Whether a block is among those that are wanted once more.
fn is_among(serials: &[u8], serial: u8) -> bool
    ensures value { result ≡ spec.is_among serials.now serial }
{
    serials.iter().any(|one| *one == serial)
}

/// The flags of the blocks of a packet but those that are wanted once more, the first block in the lowest bit.
fn flags_of(serials: &[u8], blocks: u8) -> u128
    requires most { blocks ≤ 127 }
    ensures value { result ≡ spec.flags_from serials.now 0 blocks }
{
    let mut flags = 0;
    let mut serial = blocks;
    while serial > 0 {
        serial -= 1;
        let flag = if is_among(serials, serial) { 0 } else { 1 };
        flags = 2 * flags + flag;
    }
    flags
}

/// The packet of the flags of an answer: eight octets, or sixteen and four zeros where the packet has more than 64 blocks.
fn flag_packet(wanted: &Wanted) -> Packet
    requires most { wanted.now.blocks ≤ 127 }
    ensures packet { spec.IsPacketOfFlags wanted.now result }
{
    let flags = flags_of(&wanted.serials, wanted.blocks).to_le_bytes();
    if wanted.blocks > 64 {
        let mut octets = Octets::<20>::from_slice(&flags);
        octets.extend_from_slice(&[0; 4]);
        split_packet(octets.as_slice(), Rate::Half, false)
    } else {
        split_packet(&flags[..8], Rate::Half, false)
    }
}

/// The header of an answer with this class and type, and so many blocks of flags.
fn header_of_answer(answer: &Answer, class: u8, kind: u8, blocks: u8) -> Header
    ensures value { result ≡ spec.header_of_answer answer.now class kind blocks }
{
    Header::Response(Response {
        sap: answer.sap,
        destination: answer.destination,
        source: answer.source,
        blocks,
        class,
        kind,
        status: answer.number,
    })
}

/// An answer with this header, and blocks of flags.
fn try_of_answer(answer: &Answer, header: Header, blocks: Blocks) -> SentTry
    ensures value { result ≡ spec.try_of_answer answer.now header blocks }
{
    SentTry {
        source: answer.source,
        group: false,
        destination: answer.destination,
        header,
        rate: Rate::Half,
        blocks,
    }
}

/// An answer to a confirmed packet, with its flags where it has any.
pub(crate) fn answer_try(answer: &Answer) -> SentTry
    requires fit { FitsAnswer answer.now }
    ensures is { spec.IsAnswerOf answer.now answer.now.kind result }
{
    match &answer.kind {
        AnswerKind::Acknowledged => {
            try_of_answer(answer, header_of_answer(answer, 0, 1, 0), Blocks::new())
        }
        AnswerKind::Failed => try_of_answer(
            answer,
            header_of_answer(answer, 1, 1, 0),
            Blocks::new(),
        ),
        AnswerKind::SelectiveRepeat(wanted) => {
            let packet = flag_packet(wanted);
            let blocks = packet.blocks.as_slice().len() as u8;
            try_of_answer(
                answer,
                header_of_answer(answer, 2, 0, blocks),
                packet.blocks,
            )
        }
    }
}
