//! Headers, blocks and packets from outside.
ghost use Rattle.std.specs.Prelude.{◌≤◌, length};
ghost use Rattle.dmr_data.specs.Header.{IsFitHeader};

use dmr_bits::Bits;
use dmr_bptc::{bptc_decode, bptc_encode};
use dmr_checks::{Mask, seal};
use dmr_data::{
    Block, BlockFault, Blocks, Confirmed, Header, HeaderFault, JoinFault, Octets, Packet, Rate,
    Response, ShortData, Status, Unconfirmed, block_info, block_read, header_info, header_read,
    join_packet, split_packet,
};
use dmr_test_values::DATAGRAM_BLOCK;

/// What is sent of ten octets, sealed as a data header.
fn sent(octets: &[u8; 10]) -> Bits<196> {
    bptc_encode(&Bits::<96>::from_octets(&seal(octets, Mask::Header)))
}

/// From 2 to 1, a response wanted, 64 blocks.
const FROM_2_TO_1: Confirmed = Confirmed {
    group: false,
    wanted: true,
    pad: 0,
    sap: 4,
    destination: 1,
    source: 2,
    full: true,
    blocks: 64,
    resynchronize: false,
    number: 0,
    fragment: 8,
};

/// Its octets.
const FROM_2_TO_1_OCTETS: [u8; 10] = [0x43, 0x40, 0, 0, 1, 0, 0, 2, 0xC0, 0x08];

/// A compressed datagram from 1 to 2 in one block.
const ONE_BLOCK: Unconfirmed = Unconfirmed {
    group: false,
    wanted: false,
    pad: 1,
    sap: 3,
    destination: 2,
    source: 1,
    full: true,
    blocks: 1,
    fragment: 0,
};

/// Its octets.
const ONE_BLOCK_OCTETS: [u8; 10] = [0x02, 0x31, 0, 0, 2, 0, 0, 1, 0x81, 0];

/// To 1 from 3, ports 1 and 2.
const FIVE: Status = Status {
    group: false,
    wanted: false,
    destination: 1,
    source: 3,
    source_port: 1,
    destination_port: 2,
    status: 5,
};

/// Its octets.
const FIVE_OCTETS: [u8; 10] = [0x0E, 0xA0, 0, 0, 1, 0, 0, 3, 0x28, 0x05];

/// The answer to a packet from 2 to 1 that asks for some blocks again, with a block of flags.
const SELECTIVE: Response = Response {
    sap: 4,
    destination: 2,
    source: 1,
    blocks: 1,
    class: 2,
    kind: 0,
    status: 0,
};

/// Its octets.
const SELECTIVE_OCTETS: [u8; 10] = [0x01, 0x40, 0, 0, 2, 0, 0, 1, 0x01, 0x80];

/// The answer that acknowledges it.
const ACK: Response = Response {
    sap: 4,
    destination: 2,
    source: 1,
    blocks: 0,
    class: 0,
    kind: 1,
    status: 0,
};

/// Its octets.
const ACK_OCTETS: [u8; 10] = [0x01, 0x40, 0, 0, 2, 0, 0, 1, 0, 0x08];

const SHORT_DATA: ShortData = ShortData {
    group: true,
    wanted: false,
    blocks: 33,
    destination: 0x01_02_03,
    source: 0x04_05_06,
    data_format: 0x2A,
    resynchronize: false,
    full: true,
    bit_padding: 7,
};

/// Its octets.
const SHORT_DATA_OCTETS: [u8; 10] = [0xAD, 0xA1, 1, 2, 3, 4, 5, 6, 0xA9, 7];

/// Ten octets that are sealed as a header, and what they are read as.
const READ: [([u8; 10], Result<Header, HeaderFault>); 14] = [
    (FROM_2_TO_1_OCTETS, Ok(Header::Confirmed(FROM_2_TO_1))),
    (ONE_BLOCK_OCTETS, Ok(Header::Unconfirmed(ONE_BLOCK))),
    (FIVE_OCTETS, Ok(Header::Status(FIVE))),
    (SELECTIVE_OCTETS, Ok(Header::Response(SELECTIVE))),
    (ACK_OCTETS, Ok(Header::Response(ACK))),
    (SHORT_DATA_OCTETS, Ok(Header::ShortData(SHORT_DATA))),
    // As many blocks as there may be.
    (
        [0x43, 0x40, 0, 0, 1, 0, 0, 2, 0xFF, 0x08],
        Ok(Header::Confirmed(Confirmed {
            blocks: 127,
            ..FROM_2_TO_1
        })),
    ),
    // Two blocks of flags, for a packet of more than 64 blocks.
    (
        [0x01, 0x40, 0, 0, 2, 0, 0, 1, 0x02, 0x80],
        Ok(Header::Response(Response {
            blocks: 2,
            ..SELECTIVE
        })),
    ),
    // The third bit of a confirmed header is ignored, and the first four of an answer.
    (
        [0x63, 0x40, 0, 0, 1, 0, 0, 2, 0xC0, 0x08],
        Ok(Header::Confirmed(FROM_2_TO_1)),
    ),
    (
        [0x81, 0x40, 0, 0, 2, 0, 0, 1, 0, 0x08],
        Ok(Header::Response(ACK)),
    ),
    // Of no format, a status with appended blocks, and a status and short data of other service access points.
    ([0; 10], Err(HeaderFault::Format)),
    (
        [0x0E, 0xA1, 0, 0, 1, 0, 0, 3, 0x28, 0x05],
        Err(HeaderFault::Format),
    ),
    (
        [0x0E, 0xB0, 0, 0, 1, 0, 0, 3, 0x28, 0x05],
        Err(HeaderFault::Format),
    ),
    (
        [0xAD, 0xB1, 1, 2, 3, 4, 5, 6, 0xA9, 7],
        Err(HeaderFault::Format),
    ),
];

/// A header is written as these octets, sealed.
fn is_written(header: &Header, octets: &[u8; 10]) -> bool
    requires fit { IsFitHeader header.now }
{
    let written: [u8; 12] = header_info(header).octets();
    written == seal(octets, Mask::Header)
}

#[test]
fn written_headers(rt: HostRuntime) {
    let confirmed = Header::Confirmed(FROM_2_TO_1);
    assert!(rt; is_written(&confirmed, &FROM_2_TO_1_OCTETS));
    let unconfirmed = Header::Unconfirmed(ONE_BLOCK);
    assert!(rt; is_written(&unconfirmed, &ONE_BLOCK_OCTETS));
    assert!(rt; is_written(&Header::Status(FIVE), &FIVE_OCTETS));
}

#[test]
fn written_answers_and_short_data(rt: HostRuntime) {
    assert!(rt; is_written(&Header::Response(SELECTIVE), &SELECTIVE_OCTETS));
    assert!(rt; is_written(&Header::Response(ACK), &ACK_OCTETS));
    assert!(rt; is_written(&Header::ShortData(SHORT_DATA), &SHORT_DATA_OCTETS));
}

#[test]
fn headers_that_are_read(rt: HostRuntime) {
    for (octets, wanted) in READ {
        assert!(rt; header_read(&sent(&octets)) == wanted, "{octets:?}");
    }
}

#[test]
fn header_faults(rt: HostRuntime) {
    let octets = [0x01, 0x40, 0, 0, 2, 0, 0, 1, 0, 0x08];
    let csbk = bptc_encode(&Bits::<96>::from_octets(&seal(&octets, Mask::Csbk)));
    assert!(rt; header_read(&csbk) == Err(HeaderFault::Crc));
    let mut word = sent(&octets);
    // Two bits of the first column and two of the second, no two in one row but the first.
    for at in [181, 152, 166, 108] {
        let bit = word.get(at);
        word.set(at, !bit);
    }
    assert!(rt; header_read(&word) == Err(HeaderFault::Bptc));
}

// It begins with the 7 bits of its serial and the masked check.
#[test]
fn second_block_of_zeros(rt: HostRuntime) {
    let second = Block {
        serial: Some(1),
        octets: Octets::from_slice(&[0; 10]),
    };
    let bits = block_info(&second, Rate::Half);
    let message = Bits::<96>::zero().with_field(0, 16, 0x0356);
    assert!(rt; bptc_decode(&bits) == Some(message));
    assert!(rt; block_read(&bits, Rate::Half, Some(1)) == Err(BlockFault::Serial));
    assert!(rt; block_read(&bits, Rate::Half, Some(2)) == Ok(second));
}

#[test]
fn unconfirmed_block(rt: HostRuntime) {
    let half = Block {
        serial: None,
        octets: Octets::from_slice(&[0x12, 0x34, 0, 1, 0, 0x13, 0x9A, 0, 1, 2, 3, 4]),
    };
    let bits = block_info(&half, Rate::Half);
    assert!(rt; block_read(&bits, Rate::Half, Some(1)) == Err(BlockFault::Crc9));
    assert!(rt; block_read(&bits, Rate::Half, None) == Ok(half));
}

// The four bits between the halves are ignored.
#[test]
fn full_unconfirmed_block(rt: HostRuntime) {
    let full = Block {
        serial: None,
        octets: Octets::from_slice(&[0xFF; 24]),
    };
    let bits = block_info(&full, Rate::Full);
    assert!(rt; bits.field(92, 12) == 0xF0F);
    assert!(rt; block_read(&bits.with_field(96, 4, 9), Rate::Full, None) == Ok(full));
}

#[test]
fn no_word_of_a_block(rt: HostRuntime) {
    let mut bits = bptc_encode(&Bits::<96>::zero());
    for at in [181, 152, 166, 108] {
        let bit = bits.get(at);
        bits.set(at, !bit);
    }
    assert!(rt; block_read(&bits, Rate::Half, None) == Err(BlockFault::Bptc));
}

#[test]
fn join_refusals(rt: HostRuntime) {
    assert!(rt; join_packet(&[], 0) == Err(JoinFault::Short));
    assert!(rt; join_packet(&DATAGRAM_BLOCK, 9) == Err(JoinFault::Pad));
    let mut wrong = DATAGRAM_BLOCK;
    wrong[11] = 0x67;
    assert!(rt; join_packet(&wrong, 1) == Err(JoinFault::Crc32));
}

/// A packet of one block without a serial.
fn one_block(octets: &[u8; 12]) -> Blocks {
    let mut blocks = Blocks::new();
    blocks.push(Block {
        serial: None,
        octets: Octets::from_slice(octets),
    });
    blocks
}

/// Whether an unconfirmed packet of this body at rate 1/2 is this one block with so many pad octets, from which it is joined again.
fn is_one_block(body: &[u8], pad: u8, octets: &[u8; 12]) -> bool
    requires fits { length body.now ≤ 8 }
{
    let packet = split_packet(body, Rate::Half, false);
    packet.pad == pad
        && packet.blocks == one_block(octets)
        && join_packet(octets, pad) == Ok(Octets::from_slice(body))
}

// The flags that ask a packet of 64 blocks again for its first and its last.
#[test]
fn packet_of_flags(rt: HostRuntime) {
    let flags = [
        0xFE, 0xFF, 0xFF, 0xFF, 0xFF, 0xFF, 0xFF, 0x7F, 0xAB, 0xD6, 0xDB, 0x63,
    ];
    assert!(rt; is_one_block(&flags[..8], 0, &flags));
}

/// The octets of all blocks of a packet.
fn octets_of(packet: &Packet) -> Octets<3072> {
    let mut octets = Octets::<3072>::new();
    for block in packet.blocks.as_slice() {
        if octets.as_slice().len() < 3048 {
            octets.extend_from_slice(block.octets.as_slice());
        }
    }
    octets
}

/// Whether the blocks of a packet are joined to this body again.
fn is_joined(packet: &Packet, body: &[u8]) -> bool
    requires fits { length body.now ≤ 3044 }
{
    let octets = octets_of(packet);
    let octets = octets.as_slice();
    octets.len() % 2 == 0
        && octets.len() <= 3048
        && join_packet(octets, packet.pad) == Ok(Octets::from_slice(body))
}

/// Whether the serials of a packet's blocks count up from 0.
fn has_serials(packet: &Packet) -> bool {
    let mut serial: u8 = 0;
    for block in packet.blocks.as_slice() {
        if block.serial != Some(serial) {
            return false;
        }
        serial = serial.wrapping_add(1);
    }
    true
}

/// Whether a packet has so many blocks, and so many pad octets.
fn has_room(packet: &Packet, blocks: usize, pad: u8) -> bool {
    packet.blocks.as_slice().len() == blocks && packet.pad == pad
}

// A body of 22 octets fills two blocks of 10 but for four, and with the check takes three.
#[test]
fn confirmed_packets(rt: HostRuntime) {
    let body = [0x5A; 22];
    for (rate, blocks, pad) in [(Rate::Half, 3, 4), (Rate::Full, 2, 18)] {
        let packet = split_packet(&body, rate, true);
        assert!(rt; has_room(&packet, blocks, pad) && has_serials(&packet));
        assert!(rt; is_joined(&packet, &body));
    }
}

// As much as 127 blocks hold, and the octets of all of them.
#[test]
fn longest_packets(rt: HostRuntime) {
    let confirmed = split_packet(&[0x5A; 1266], Rate::Half, true);
    assert!(rt; has_room(&confirmed, 127, 0));
    let body = [0x5A; 3044];
    let packet = split_packet(&body, Rate::Full, false);
    assert!(rt; has_room(&packet, 127, 0) && is_joined(&packet, &body));
}
