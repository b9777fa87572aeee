//! Packets, short data, status and answers of a line.
ghost use Rattle.std.specs.Prelude.{◌≡◌, ◌+◌, ◌*◌, ◌<◌, ◌≤◌, ◌^◌, length, IfOk, IfSome, IfNone, OnOk};
ghost use Rattle.std.specs.Prelude.{All, false};
ghost use Rattle.dmr_data.specs.Block.{payload};
ghost use Rattle.dmr_script.specs.Fits.{FitsBody, FitsKind, FitsMessage, FitsStatusHeader, FitsTransmission, FitsWanted};
ghost use Rattle.dmr_script.specs.Fits.{HoldsBody, body_octets, answer_flag_blocks};
ghost use Rattle.dmr_script.specs.Fits.{compressed_port_octets};

use crate::expected::Expected;
use crate::fault::Refusal;
use crate::halt::Halt;
use crate::keyword::Keyword;
use crate::numbers::{access_point, address, all_octets, data, number, octet, word_number};
use crate::packet::{
    Again, Answer, AnswerKind, Body, PacketTry, PartialTry, ShortDataTry, StatusSent, UdpMessage,
    Wanted,
};
use crate::packet_shapes::{MOST_BLOCKS, any_shape, known_shape};
use crate::statement::Transmission;
use crate::token::{Cursor, Token};
use dmr_data::{Rate, Status};
use std::alloc::Global;

/// The service access point of IP packets. ETSI TS 102 361-1, clause 9.3.18.
const IP_PACKET: u8 = 4;

/// The service access point of compressed UDP headers. ETSI TS 102 361-1, clause 9.3.18.
const COMPRESSED_UDP: u8 = 3;

/// How many octets the check of a packet has.
const CHECK: usize = 4;

/// How many octets the headers of a UDP datagram over IPv4 have.
const HEADERS: usize = 28;

/// How many octets stand in front of the ports in a compressed form.
const IDENTIFIERS: usize = 5;

/// How many octets a port has that is spelled out.
const PORT: usize = 2;

/// How many octets a block of short data has, or another unconfirmed one at rate 1/2.
const HALF_RATE: usize = 12;

/// How many octets a block has at rate 1.
const FULL_RATE: usize = 24;

/// How many octets serial and check take of a confirmed block.
const SERIAL_AND_CHECK: usize = 2;

/// How many blocks short data has at most.
const SHORT_DATA_BLOCKS: usize = 63;

/// Of how many blocks one block of flags tells.
const FLAGS: u8 = 64;

/// From whom something goes to whom.
#[derive(Clone, Copy)]
struct FromTo {
    source: u32,
    group: bool,
    destination: u32,
}

/// `S -> [group] T`
fn way_of(cursor: &mut Cursor) -> Result<FromTo, Refusal>
    ensures source { IfOk result (λ way. way.source < 2 ^ 24) }
    ensures destination { IfOk result (λ way. way.destination < 2 ^ 24) }
{
    let source = address(cursor)?;
    cursor.expect(Keyword::Arrow)?;
    let group = cursor.takes(Keyword::Group);
    let destination = address(cursor)?;
    Ok(FromTo {
        source,
        group,
        destination,
    })
}

/// N(S) behind its word, where that stands next behind a comma, and else 0.
fn packet_number(cursor: &mut Cursor) -> Result<u8, Refusal>
    ensures fits { IfOk result (λ n. n < 8) }
{
    if cursor.takes_further(Keyword::Number) {
        return octet(cursor, 7);
    }
    Ok(0)
}

/// The rate of a packet: rate 1 where that stands next behind a comma, and else rate 1/2.
fn packet_rate(cursor: &mut Cursor) -> Result<Rate, Refusal> {
    if !cursor.takes_further(Keyword::Rate) {
        return Ok(Rate::Half);
    }
    cursor.expect(Keyword::One)?;
    Ok(Rate::Full)
}

/// What a UDP datagram says behind its ports: `[, id N] [, HEX or TEXT]`.
pub(crate) fn message(
    alloc: Global,
    cursor: &mut Cursor,
    source_port: u16,
    destination_port: u16,
) -> Result<UdpMessage, Halt>
    ensures fits { IfOk result FitsMessage }
{
    let identification = if cursor.takes_further(Keyword::Id) {
        word_number(cursor)?
    } else {
        0
    };
    let data = if cursor.takes(Keyword::Comma) {
        data(alloc, cursor)?
    } else {
        Vec::new(alloc)
    };
    Ok(UdpMessage {
        source_port,
        destination_port,
        identification,
        data,
    })
}

/// What a packet carries.
fn body(alloc: Global, cursor: &mut Cursor) -> Result<Body, Halt>
    ensures fits { IfOk result FitsBody }
{
    match cursor.next() {
        Token::Word(b"UDP") => {
            let source_port = word_number(cursor)?;
            cursor.expect(Keyword::Arrow)?;
            let destination_port = word_number(cursor)?;
            Ok(Body::Udp(message(alloc, cursor, source_port, destination_port)?))
        }
        Token::Word(b"octets") => Ok(Body::Octets(all_octets(alloc, cursor)?)),
        token => Err(Halt::Refused(token.instead_of(Expected::Body))),
    }
}

/// How many octets a port has in a compressed form.
fn port_length(port: u16) -> usize
    ensures value { result ≡ compressed_port_octets port }
{
    match port {
        5016 | 5017 => 0,
        _ => PORT,
    }
}

/// How many octets the body of a packet has.
fn body_length(body: &Body, sap: u8) -> usize
    requires fits { FitsBody body.now }
    ensures value { result ≡ body_octets sap body.now }
{
    match body {
        Body::Octets(octets) => octets.len(),
        Body::Udp(message) if sap == COMPRESSED_UDP => {
            IDENTIFIERS
                + port_length(message.source_port)
                + port_length(message.destination_port)
                + message.data.len()
        }
        Body::Udp(message) => HEADERS + message.data.len(),
    }
}

/// How many octets of a packet a block has.
fn block_octets(rate: Rate, confirmed: bool) -> usize
    ensures value { result ≡ payload rate confirmed }
    ensures some { 10 ≤ result }
    ensures most { result ≤ 24 }
{
    let burst = match rate {
        Rate::Half => HALF_RATE,
        Rate::Full => FULL_RATE,
    };
    if confirmed {
        burst - SERIAL_AND_CHECK
    } else {
        burst
    }
}

/// How many blocks of so many octets hold a body and its check, where they are at most so many.
fn block_count(body: usize, block: usize, most: usize) -> Option<usize>
    requires some { 0 < block }
    requires narrow { block ≤ 24 }
    requires few { most ≤ 127 }
    ensures holds { IfSome result (λ count. HoldsBody count body block) }
    ensures most { IfSome result (λ count. count ≤ most) }
    ensures none { IfNone result (most * block < body + 4) }
{
    if body > most * block || body + CHECK > most * block {
        return None;
    }
    Some((body + CHECK + block - 1) / block)
}

/// A full try of a packet behind its first word.
pub(crate) fn packet_try(
    alloc: Global,
    cursor: &mut Cursor,
    confirmed: bool,
) -> Result<Transmission, Halt>
    ensures fits { IfOk result FitsTransmission }
{
    let way = way_of(cursor)?;
    let sap = access_point(cursor, IP_PACKET)?;
    let number = packet_number(cursor)?;
    let rate = packet_rate(cursor)?;
    let unanswered = cursor.takes_further(Keyword::Unanswered);
    cursor.expect(Keyword::Comma)?;
    let body = body(alloc, cursor)?;
    let block = block_octets(rate, confirmed);
    let Some(blocks) = block_count(body_length(&body, sap), block, MOST_BLOCKS) else {
        return Err(Halt::Refused(Refusal::LongPacket));
    };
    let shape = known_shape(alloc, cursor, blocks)?;
    Ok(Transmission::Packet(PacketTry {
        confirmed,
        source: way.source,
        group: way.group,
        destination: way.destination,
        sap,
        number,
        rate,
        wanted: confirmed && !unanswered,
        body,
        shape,
    }))
}

/// `full`: a try of all of the last packet.
pub(crate) fn full_try(alloc: Global, cursor: &mut Cursor) -> Result<Transmission, Halt>
    ensures fits { IfOk result FitsTransmission }
{
    let shape = any_shape(alloc, cursor)?;
    Ok(Transmission::Again(Again::Full(shape)))
}

/// Adds the serial number of a block.
fn add_serial(serials: &mut Vec<u8>, cursor: &mut Cursor) -> Result<(), Halt>
    requires most { length serials.old.items ≤ 127 }
    requires serials { All (λ serial. serial < 127) serials.old.items }
    ensures most { OnOk result (length serials.new.items ≤ 127) }
    ensures serials { OnOk result (All (λ serial. serial < 127) serials.new.items) }
    ensures shorter { OnOk result (length cursor.new.rest.now < length cursor.old.rest.now) }
{
    let serial = number(cursor, 0, 126)? as u8;
    if serials.len() == MOST_BLOCKS {
        return Err(Halt::Refused(Refusal::LongPacket));
    }
    serials.push(serial)?;
    Ok(())
}

/// `partial N N ..`: a try of these blocks of the last packet.
pub(crate) fn partial_try(alloc: Global, cursor: &mut Cursor) -> Result<Transmission, Halt>
    ensures fits { IfOk result FitsTransmission }
{
    let mut serials = Vec::new(alloc);
    add_serial(&mut serials, cursor)?;
    while !cursor.is_at_shape() {
        add_serial(&mut serials, cursor)?;
    }
    let shape = known_shape(alloc, cursor, serials.len())?;
    let part = PartialTry { serials, shape };
    Ok(Transmission::Again(Again::Partial(part)))
}

/// Short data behind its first word: `data S -> [group] T, format N, octets HEX`.
pub(crate) fn short_data_try(alloc: Global, cursor: &mut Cursor) -> Result<Transmission, Halt>
    ensures fits { IfOk result FitsTransmission }
{
    cursor.expect(Keyword::Data)?;
    let way = way_of(cursor)?;
    cursor.expect_further(Keyword::Format)?;
    let format = octet(cursor, 63)?;
    cursor.expect_further(Keyword::Octets)?;
    let octets = all_octets(alloc, cursor)?;
    let Some(blocks) = block_count(octets.len(), HALF_RATE, SHORT_DATA_BLOCKS) else {
        return Err(Halt::Refused(Refusal::LongShortData));
    };
    let shape = known_shape(alloc, cursor, blocks)?;
    Ok(Transmission::ShortData(ShortDataTry {
        source: way.source,
        group: way.group,
        destination: way.destination,
        format,
        octets,
        shape,
    }))
}

/// The header of a status behind its first word: `S -> [group] T, port N -> N, status N`.
fn status_header(cursor: &mut Cursor) -> Result<Status, Refusal>
    ensures fits { IfOk result FitsStatusHeader }
{
    let way = way_of(cursor)?;
    cursor.expect_further(Keyword::Port)?;
    let source_port = octet(cursor, 7)?;
    cursor.expect(Keyword::Arrow)?;
    let destination_port = octet(cursor, 7)?;
    cursor.expect_further(Keyword::Status)?;
    let status = number(cursor, 0, 1023)? as u16;
    Ok(Status {
        group: way.group,
        wanted: false,
        destination: way.destination,
        source: way.source,
        source_port,
        destination_port,
        status,
    })
}

/// A status behind its first word.
pub(crate) fn status_sent(alloc: Global, cursor: &mut Cursor) -> Result<Transmission, Halt>
    ensures fits { IfOk result FitsTransmission }
{
    let header = status_header(cursor)?;
    let shape = known_shape(alloc, cursor, 0)?;
    Ok(Transmission::Status(StatusSent { header, shape }))
}

/// The front of an answer: `S -> T, N(S) N`.
#[derive(Clone, Copy)]
struct AnswerFront {
    source: u32,
    destination: u32,
    number: u8,
}

/// Who answers which packet.
fn front_of(cursor: &mut Cursor) -> Result<AnswerFront, Refusal>
    ensures source { IfOk result (λ front. front.source < 2 ^ 24) }
    ensures destination { IfOk result (λ front. front.destination < 2 ^ 24) }
    ensures number { IfOk result (λ front. front.number < 8) }
{
    let source = address(cursor)?;
    cursor.expect(Keyword::Arrow)?;
    let destination = address(cursor)?;
    cursor.expect_further(Keyword::Number)?;
    let number = octet(cursor, 7)?;
    Ok(AnswerFront {
        source,
        destination,
        number,
    })
}

/// An answer without flags behind its first word.
pub(crate) fn plain_answer(
    alloc: Global,
    cursor: &mut Cursor,
    kind: AnswerKind,
) -> Result<Transmission, Halt>
    requires kind { FitsKind kind }
    requires none { answer_flag_blocks kind ≡ 0 }
    ensures fits { IfOk result FitsTransmission }
{
    let front = front_of(cursor)?;
    let sap = access_point(cursor, IP_PACKET)?;
    let shape = known_shape(alloc, cursor, 0)?;
    Ok(Transmission::Answer(Answer {
        source: front.source,
        destination: front.destination,
        number: front.number,
        sap,
        kind,
        shape,
    }))
}

/// The blocks that are wanted behind their word: `N N .. of N`.
fn wanted_blocks(alloc: Global, cursor: &mut Cursor) -> Result<Wanted, Halt>
    ensures fits { IfOk result FitsWanted }
{
    let mut serials = Vec::new(alloc);
    add_serial(&mut serials, cursor)?;
    while !cursor.takes(Keyword::Of) {
        add_serial(&mut serials, cursor)?;
    }
    let blocks = number(cursor, 1, 127)? as u8;
    if serials.iter().any(|serial| *serial >= blocks) {
        return Err(Halt::Refused(Refusal::BlockPastPacket));
    }
    Ok(Wanted { serials, blocks })
}

/// Selective repeat behind its first word.
pub(crate) fn selective_repeat(alloc: Global, cursor: &mut Cursor) -> Result<Transmission, Halt>
    ensures fits { IfOk result FitsTransmission }
{
    cursor.expect(Keyword::Repeat)?;
    let front = front_of(cursor)?;
    cursor.expect_further(Keyword::Wanted)?;
    let wanted = wanted_blocks(alloc, cursor)?;
    let sap = access_point(cursor, IP_PACKET)?;
    let flags = if wanted.blocks > FLAGS { 2 } else { 1 };
    let shape = known_shape(alloc, cursor, flags)?;
    Ok(Transmission::Answer(Answer {
        source: front.source,
        destination: front.destination,
        number: front.number,
        sap,
        kind: AnswerKind::SelectiveRepeat(wanted),
        shape,
    }))
}
