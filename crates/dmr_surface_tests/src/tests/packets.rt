//! Headers, blocks, packets and datagrams, a receiver and a sender, and the gateway.
ghost use Rattle.std.specs.Prelude.{Some, IsTrue, option_copied};
ghost use Rattle.dmr_arq.specs.Fit.{FitsPlace, IsOfferedPacket};
ghost use Rattle.dmr_data.specs.Header.{IsFitHeader};

use arrayvec::ArrayVec;
use dmr_arq::{
    Answer, Busy, GateBurst, Joined, Outcome, Receiver, ReceiverOut, Route, Sender, Verdict,
};
use dmr_bits::Bits;
use dmr_bptc::{bptc_decode, bptc_encode};
use dmr_burst::{Burst, data_type};
use dmr_checks::{Mask, seal};
use dmr_data::{
    Block, Blocks, Confirmed, Header, Octets, Packet, Rate, Response, ShortData, Status,
    Unconfirmed, block_info, block_read, header_info, header_read, join_packet, split_packet,
};
use dmr_gateway::{Config, Gateway, Received};
use dmr_ip::{Datagram, FORM_LIMIT, compress, expand};
use dmr_record::{Outgoing, ReceivedKind};
use dmr_test_values::{DATAGRAM_BLOCK, EMPTY_DATAGRAM};
use std::alloc::Global;
use std::process::Abort;

#[test]
fn acknowledgement(rt: HostRuntime) {
    let header = Header::Response(Response {
        sap: 4,
        destination: 2,
        source: 1,
        blocks: 0,
        class: 0,
        kind: 1,
        status: 0,
    });
    let message = header_info(&header);
    let octets: [u8; 12] = message.octets();
    let wanted = seal(&[0x01, 0x40, 0, 0, 2, 0, 0, 1, 0, 0x08], Mask::Header);
    assert!(rt; octets == wanted);
    assert!(rt; header_read(&bptc_encode(&message)) == Ok(header));
}

/// A header is written as these octets, sealed, and read from them.
fn is_header_of(header: &Header, octets: &[u8; 10]) -> bool
    requires fit { IsFitHeader header.now }
{
    let message = header_info(header);
    let written: [u8; 12] = message.octets();
    written == seal(octets, Mask::Header) && header_read(&bptc_encode(&message)) == Ok(*header)
}

// One block with a pad octet, from 1 to 2, for the compressed datagrams of SAP 3.
#[test]
fn header_without_confirmation(rt: HostRuntime) {
    let header = Header::Unconfirmed(Unconfirmed {
        group: false,
        wanted: false,
        pad: 1,
        sap: 3,
        destination: 2,
        source: 1,
        full: true,
        blocks: 1,
        fragment: 0,
    });
    assert!(rt; is_header_of(&header, &[0x02, 0x31, 0, 0, 2, 0, 0, 1, 0x81, 0]));
}

// Two blocks of format 10, from 3 to 1, of which the last octet is padding. Then a status.
#[test]
fn headers_of_short_data(rt: HostRuntime) {
    let short = Header::ShortData(ShortData {
        group: false,
        wanted: false,
        blocks: 2,
        destination: 1,
        source: 3,
        data_format: 10,
        resynchronize: false,
        full: true,
        bit_padding: 8,
    });
    assert!(rt; is_header_of(&short, &[0x0D, 0xA2, 0, 0, 1, 0, 0, 3, 0x29, 8]));
    let status = Header::Status(Status {
        group: false,
        wanted: false,
        destination: 1,
        source: 3,
        source_port: 1,
        destination_port: 2,
        status: 5,
    });
    assert!(rt; is_header_of(&status, &[0x0E, 0xA0, 0, 0, 1, 0, 0, 3, 0x28, 0x05]));
}

// Each begins with the 7 bits of its serial and the masked check.
#[test]
fn blocks_of_zeros(rt: HostRuntime) {
    let first = Block {
        serial: Some(0),
        octets: Octets::from_slice(&[0; 10]),
    };
    let bits = block_info(&first, Rate::Half);
    let message = Bits::<96>::zero().with_field(0, 16, 0x010F);
    assert!(rt; bptc_decode(&bits) == Some(message));
    assert!(rt; block_read(&bits, Rate::Half, Some(1)) == Ok(first));
    let full = Block {
        serial: Some(0),
        octets: Octets::from_slice(&[0; 22]),
    };
    let bits = block_info(&full, Rate::Full);
    assert!(rt; bits == Bits::<196>::zero().with_field(0, 16, 0x00F0));
    assert!(rt; block_read(&bits, Rate::Full, Some(64)) == Ok(full));
}

/// The compressed form of the datagram without data.
const FORM: [u8; 7] = [0x12, 0x34, 0x00, 0x01, 0x00, 0x13, 0x9A];

#[test]
fn packet_of_a_block(rt: HostRuntime) {
    let packet = split_packet(&FORM, Rate::Half, false);
    assert!(rt; packet.rate == Rate::Half && !packet.confirmed && packet.pad == 1);
    let mut blocks = Blocks::new();
    blocks.push(Block {
        serial: None,
        octets: Octets::from_slice(&DATAGRAM_BLOCK),
    });
    assert!(rt; packet.blocks == blocks);
    let is_joined = match join_packet(&DATAGRAM_BLOCK, 1) {
        Ok(body) => {
            let body: ArrayVec<u8, 3044> = body.into_array_vec();
            body.as_slice() == FORM.as_slice()
        }
        Err(_) => false,
    };
    assert!(rt; is_joined);
}

#[test]
fn compressed_datagram(rt: HostRuntime) {
    assert!(rt; FORM_LIMIT == 1381);
    let datagram = Datagram::parse(&EMPTY_DATAGRAM).expect(&rt, "it is a datagram");
    assert!(rt; datagram.octets() == EMPTY_DATAGRAM.as_slice());
    let form: ArrayVec<u8, 1381> = compress(&datagram, 1, 2, false).expect(&rt, "it has a form");
    assert!(rt; form.as_slice() == FORM.as_slice());
    let again = expand(&FORM, 1, 2, false).expect(&rt, "it is a form");
    assert!(rt; again.octets() == EMPTY_DATAGRAM.as_slice());
}

/// The header of a packet of one octet from 2 to 1, and from 1 to 2.
const FROM_2_TO_1: Confirmed = Confirmed {
    group: false,
    wanted: true,
    pad: 5,
    sap: 4,
    destination: 1,
    source: 2,
    full: true,
    blocks: 1,
    resynchronize: false,
    number: 0,
    fragment: 8,
};

const FROM_1_TO_2: Confirmed = Confirmed {
    destination: 2,
    source: 1,
    ..FROM_2_TO_1
};

/// A confirmed packet of one octet.
fn packet_of(octet: u8) -> Packet
    ensures offered { IsOfferedPacket result }
{
    split_packet(&[octet], Rate::Half, true)
}

/// Whether a block has a serial exactly in a try of so many blocks, below their number.
fn fits(total: Option<u8>, block: Option<&Block>) -> bool
    ensures fits { IsTrue result → FitsPlace (Some total) (option_copied block.entry) }
{
    match block {
        None => true,
        Some(block) => match (total, block.serial) {
            (None, None) => true,
            (Some(total), Some(serial)) => serial < total,
            (None, Some(_)) | (Some(_), None) => false,
        },
    }
}

/// What a receiver gives in a place, where a try is open in which the block fits.
fn placed(receiver: &mut Receiver, block: Option<&Block>) -> Option<ReceiverOut> {
    match receiver.open() {
        Some(total) if fits(total, block) => Some(receiver.place(block)),
        _ => None,
    }
}

#[test]
fn packet_received(rt: HostRuntime) {
    let packet = packet_of(7);
    let mut receiver = Receiver::new(1);
    receiver.header(&Header::Confirmed(FROM_2_TO_1));
    assert!(rt; receiver.open() == Some(Some(1)));
    let received = ReceiverOut {
        delivered: Some(Joined {
            header: Header::Confirmed(FROM_2_TO_1),
            body: Octets::from_slice(&[7]),
        }),
        answer: Some(Answer {
            from: 1,
            to: 2,
            sap: 4,
            number: 0,
            verdict: Verdict::Ack,
            flags: 0,
        }),
    };
    assert!(rt; placed(&mut receiver, packet.blocks.get(0)) == Some(received));
    assert!(rt; receiver.open().is_none());
}

/// What the receiver gives at the end of a try that doesn't complete the packet.
fn asked_again(verdict: Verdict, flags: u128) -> ReceiverOut {
    ReceiverOut {
        delivered: None,
        answer: Some(Answer {
            from: 1,
            to: 2,
            sap: 4,
            number: 0,
            verdict,
            flags,
        }),
    }
}

// All of its octets are there, but its check doesn't seal them.
#[test]
fn packet_that_fails_its_check(rt: HostRuntime) {
    let block = Block {
        serial: Some(0),
        octets: Octets::from_slice(&[7, 0, 0, 0, 0, 0, 0, 0, 0, 0]),
    };
    let mut receiver = Receiver::new(1);
    receiver.header(&Header::Confirmed(FROM_2_TO_1));
    let failed = asked_again(Verdict::Failed, 0);
    assert!(rt; placed(&mut receiver, Some(&block)) == Some(failed));
}

// Of two blocks the second one is lost, so that the flag of the first one alone is set.
#[test]
fn packet_with_a_lost_block(rt: HostRuntime) {
    let packet = split_packet(&[7; 11], Rate::Half, true);
    let mut receiver = Receiver::new(1);
    receiver.header(&Header::Confirmed(Confirmed {
        blocks: 2,
        ..FROM_2_TO_1
    }));
    assert!(rt; placed(&mut receiver, packet.blocks.get(0)).is_some());
    let lost = asked_again(Verdict::Selective, 1);
    assert!(rt; placed(&mut receiver, None) == Some(lost));
}

/// To radio 2, as an IP datagram.
const ROUTE: Route = Route {
    destination: 2,
    group: false,
    sap: 4,
};

/// This is the sender's next burst.
fn expect_burst(rt: &impl Abort, sender: &mut Sender, burst: GateBurst) {
    let sent = sender.next_burst();
    assert!(rt; sent == Some(burst));
}

// The try is cut behind its first preamble, and begins again.
#[test]
fn packet_sent(rt: HostRuntime) {
    let mut sender = Sender::new(1);
    let offered = sender.offer(packet_of(7), ROUTE);
    assert!(rt; offered == Ok(()));
    let refused = sender.offer(packet_of(8), ROUTE);
    assert!(rt; refused == Err(Busy(packet_of(8), ROUTE)));
    let route = ROUTE;
    expect_burst(&rt, &mut sender, GateBurst::Preamble { left: 3, route });
    sender.cut();
    expect_burst(&rt, &mut sender, GateBurst::Preamble { left: 3, route });
    expect_burst(&rt, &mut sender, GateBurst::Preamble { left: 2, route });
    let header = Header::Confirmed(FROM_1_TO_2);
    expect_burst(&rt, &mut sender, GateBurst::Header(header));
    let is_block = match sender.next_burst() {
        Some(GateBurst::Block { block, rate }) => block.serial == Some(0) && rate == Rate::Half,
        _ => false,
    };
    assert!(rt; is_block);
    sender.tick();
    sender.answer(&Answer {
        from: 2,
        to: 1,
        sap: 4,
        number: 0,
        verdict: Verdict::Ack,
        flags: 0,
    });
    assert!(rt; sender.outcome() == Some(Outcome::Delivered));
}

// Each of its four tries is cut behind the first preamble.
#[test]
fn packet_given_up(rt: HostRuntime) {
    let mut sender = Sender::new(1);
    assert!(rt; sender.offer(packet_of(7), ROUTE) == Ok(()));
    let route = ROUTE;
    for _ in 0..4u8 {
        assert!(rt; sender.outcome().is_none());
        expect_burst(&rt, &mut sender, GateBurst::Preamble { left: 3, route });
        sender.cut();
    }
    assert!(rt; sender.outcome() == Some(Outcome::GivenUp));
    assert!(rt; sender.next_burst().is_none());
}

/// A data burst of colour code 1 that holds these octets.
fn data(kind: u8, octets: &[u8; 12]) -> Burst {
    Burst::Data {
        colour: 1,
        kind,
        info: bptc_encode(&Bits::<96>::from_octets(octets)),
    }
}

/// A gateway of LLID 1, with nine places in each queue.
fn gateway(rt: &impl Abort, alloc: Global) -> Gateway {
    let config = Config::new(1, 1, 3, 5, 9).expect(rt, "the settings are in range");
    Gateway::new(alloc, config).expect(rt, "there is room")
}

// Two preambles, a header and a block.
#[test]
fn datagram_sent(rt: HostRuntime) {
    let mut gateway = gateway(&rt, rt.alloc());
    let mut octets = Octets::new();
    octets.keep(&EMPTY_DATAGRAM);
    let outgoing = Outgoing {
        frame: 0,
        slot: 1,
        confirmed: false,
        full: false,
        length: 28,
        octets,
    };
    assert!(rt; gateway.offer(&outgoing).is_ok());
    gateway.heard(1, None);
    let preamble = seal(&[0xBD, 0, 0x80, 3, 0, 0, 2, 0, 0, 1], Mask::Csbk);
    assert!(rt; gateway.next(1, true) == Some(data(data_type::CSBK, &preamble)));
    for _ in 0..2u8 {
        gateway.heard(1, None);
        assert!(rt; gateway.next(1, true).is_some());
    }
    assert!(rt; gateway.take_outcome().is_none());
    gateway.heard(1, None);
    let block = data(data_type::RATE_HALF_DATA, &DATAGRAM_BLOCK);
    assert!(rt; gateway.next(1, true) == Some(block));
    assert!(rt; gateway.take_outcome() == Some(Outcome::Sent));
}

// A status of radio 3, of ports 1 and 2, and 5.
#[test]
fn status_received(rt: HostRuntime) {
    let mut gateway = gateway(&rt, rt.alloc());
    let status = seal(&[0x0E, 0xA0, 0, 0, 1, 0, 0, 3, 0x28, 0x05], Mask::Header);
    let repeated = data(data_type::DATA_HEADER, &status);
    gateway.heard(1, Some(&repeated));
    assert!(rt; gateway.next(1, false).is_none());
    let received = Received {
        slot: 1,
        kind: ReceivedKind::Status,
        source: 3,
        octets: Octets::from_slice(&[1, 2, 0, 5]),
    };
    assert!(rt; gateway.take_received() == Some(received));
    assert!(rt; gateway.take_received().is_none());
}
