//! Bursts that tests send to a gateway, and what they read of its own. The gateway's LLID is 1.
ghost use Rattle.std.specs.Prelude.{◌<◌, ◌^◌};
ghost use Rattle.dmr_data.specs.Header.{IsFitHeader};
ghost use Rattle.dmr_gateway.specs.GatewayRules.{IsSlot};

use dmr_bits::Bits;
use dmr_bptc::{bptc_decode, bptc_encode};
use dmr_burst::{Burst, data_type};
use dmr_csbk::{Csbk, csbk_info};
use dmr_data::{
    Block, Confirmed, Header, Octets, Packet, Rate, Response, Status, block_info, block_read,
    header_info, header_read,
};
use dmr_gateway::{Config, Gateway, Received};
use dmr_record::Outgoing;
use std::alloc::Global;
use std::process::Abort;

/// A gateway with nine places in each queue.
pub fn gateway(rt: &impl Abort, alloc: Global) -> Gateway {
    let config = Config::new(1, 1, 3, 5, 9).expect(rt, "the settings are in range");
    Gateway::new(alloc, config).expect(rt, "there is room")
}

/// A record of the outgoing file for a slot, at rate 1/2.
pub fn outgoing_in(slot: u8, confirmed: bool, octets: &[u8]) -> Outgoing
    requires slot { IsSlot slot }
    ensures slot { IsSlot result.slot }
{
    let mut kept = Octets::new();
    kept.keep(octets);
    Outgoing {
        frame: 0,
        slot,
        confirmed,
        full: false,
        length: octets.len().min(65_535) as u16,
        octets: kept,
    }
}

/// The same for slot 1.
pub fn outgoing(confirmed: bool, octets: &[u8]) -> Outgoing
    ensures slot { IsSlot result.slot }
{
    outgoing_in(1, confirmed, octets)
}

/// A data burst of 96 bits.
pub fn word(kind: u8, message: &Bits<96>) -> Burst {
    Burst::Data {
        colour: 1,
        kind,
        info: bptc_encode(message),
    }
}

/// A control signalling block, which says nothing to a gateway.
pub fn control() -> Burst {
    word(
        data_type::CSBK,
        &csbk_info(&Csbk {
            last: false,
            protect: false,
            code: 0,
            fid: 0,
            body: [0; 8],
        }),
    )
}

/// A data header.
pub fn headed(header: &Header) -> Burst
    requires fit { IsFitHeader header.now }
{
    word(data_type::DATA_HEADER, &header_info(header))
}

/// What a burst of the gateway is: a preamble, a header, a block, or an answer.
pub fn letter(burst: &Option<Burst>) -> u8 {
    match burst {
        None => b'.',
        Some(Burst::Data { kind, info, .. }) => match *kind {
            data_type::CSBK => b'P',
            data_type::DATA_HEADER => match header_read(info) {
                Ok(Header::Response(_)) => b'A',
                Ok(_) => b'H',
                Err(_) => b'?',
            },
            data_type::RATE_HALF_DATA => b'B',
            _ => b'?',
        },
        Some(_) => b'?',
    }
}

/// A frame of slot 1 in which the line repeats this, or nothing.
pub fn frame(gateway: &mut Gateway, repeated: Option<Burst>) -> Option<Burst> {
    gateway.heard(1, repeated.as_ref());
    gateway.next(1, repeated.is_none())
}

/// The first ten octets of what a burst carries.
pub fn octets_of(burst: &Option<Burst>) -> [u8; 10] {
    let mut first = [0; 10];
    if let Some(Burst::Data { info, .. }) = burst
        && let Some(message) = bptc_decode(info)
    {
        let octets: [u8; 12] = message.octets();
        first.copy_from_slice(&octets[..10]);
    }
    first
}

/// The header of an answer from a radio to another, with so many blocks of flags.
pub fn answered_by(source: u32, destination: u32, class: u8, kind: u8, blocks: u8) -> Burst
    requires source { source < 2 ^ 24 }
    requires destination { destination < 2 ^ 24 }
    requires class { class < 4 }
    requires kind { kind < 8 }
    requires blocks { blocks < 128 }
{
    headed(&Header::Response(Response {
        sap: 3,
        destination,
        source,
        blocks,
        class,
        kind,
        status: 0,
    }))
}

/// The same from radio 2 to packet 0 of radio 1.
pub fn answered(class: u8, kind: u8, blocks: u8) -> Burst
    requires class { class < 4 }
    requires kind { kind < 8 }
    requires blocks { blocks < 128 }
{
    answered_by(2, 1, class, kind, blocks)
}

/// A status for radio 1.
pub fn status(source: u32, value: u16) -> Burst
    requires source { source < 2 ^ 24 }
    requires value { value < 1024 }
{
    headed(&Header::Status(Status {
        group: false,
        wanted: false,
        destination: 1,
        source,
        source_port: 1,
        destination_port: 2,
        status: value,
    }))
}

/// The header of a try of packet 0 of a radio, with so many blocks.
pub fn confirmed_by(source: u32, full: bool, blocks: u8) -> Burst
    requires source { source < 2 ^ 24 }
    requires blocks { blocks < 128 }
{
    headed(&Header::Confirmed(Confirmed {
        group: false,
        wanted: true,
        pad: 0,
        sap: 4,
        destination: 1,
        source,
        full,
        blocks,
        resynchronize: false,
        number: 0,
        fragment: 8,
    }))
}

/// The same of radio 2.
pub fn confirmed(full: bool, blocks: u8) -> Burst
    requires blocks { blocks < 128 }
{
    confirmed_by(2, full, blocks)
}

/// The burst of a block at rate 1/2.
fn block_burst(block: &Block) -> Option<Burst> {
    let count = block.octets.as_slice().len();
    let fits = match block.serial {
        Some(serial) => serial < 128 && count == 10,
        None => count == 12,
    };
    if fits {
        Some(Burst::Data {
            colour: 1,
            kind: data_type::RATE_HALF_DATA,
            info: block_info(block, Rate::Half),
        })
    } else {
        None
    }
}

/// A block of a packet, or nothing.
pub fn block(packet: &Packet, serial: usize) -> Option<Burst> {
    match packet.blocks.get(serial) {
        Some(block) => block_burst(block),
        None => None,
    }
}

/// The octets of a block of flags.
pub fn flag_octets(burst: &Option<Burst>) -> Octets<24> {
    match burst {
        Some(Burst::Data { info, .. }) => match block_read(info, Rate::Half, None) {
            Ok(block) => block.octets,
            Err(_) => Octets::new(),
        },
        _ => Octets::new(),
    }
}

/// The octets of the block of flags that goes out in the next frame, if one does.
pub fn next_flags(gateway: &mut Gateway) -> Octets<24> {
    let burst = frame(gateway, None);
    flag_octets(&burst)
}

/// Hears the blocks of a try, without those that are lost, and gives what is sent in the last place.
pub fn hear_try(
    gateway: &mut Gateway,
    packet: &Packet,
    serials: &[usize],
    lost: &[usize],
) -> Option<Burst> {
    let mut sent = None;
    for serial in serials {
        let repeated = if lost.contains(serial) {
            None
        } else {
            block(packet, *serial)
        };
        sent = frame(gateway, repeated);
    }
    sent
}

/// The first ten octets of the answer of radio 1 to packet 0 of radio 2, with these two octets at its end.
pub fn answer(blocks: u8, verdict: u8) -> [u8; 10] {
    [0x01, 0x40, 0, 0, 2, 0, 0, 1, blocks, verdict]
}

/// A datagram for slot 1 is taken.
pub fn offer(rt: &impl Abort, gateway: &mut Gateway, confirmed: bool, octets: &[u8]) {
    assert!(rt; gateway.offer(&outgoing(confirmed, octets)).is_ok());
}

/// A frame in which the line repeats this, or nothing, and the gateway sends what has this letter.
pub fn expect_letter(
    rt: &impl Abort,
    gateway: &mut Gateway,
    repeated: Option<Burst>,
    wanted: u8,
    number: usize,
) {
    let burst = frame(gateway, repeated);
    assert_eq!(rt; letter(&burst), wanted, "frame {number}");
}

/// A frame in which the line repeats nothing, and the gateway sends a burst.
pub fn expect_burst(rt: &impl Abort, gateway: &mut Gateway) {
    let burst = frame(gateway, None);
    assert!(rt; burst.is_some());
}

/// A frame in which the line repeats nothing, and the gateway sends a burst that begins with these octets.
pub fn expect_octets(rt: &impl Abort, gateway: &mut Gateway, wanted: &[u8; 10]) {
    let burst = frame(gateway, None);
    assert!(rt; octets_of(&burst) == *wanted);
}

/// A frame in which the line repeats nothing, and the gateway sends flags that begin so.
pub fn expect_flags(rt: &impl Abort, gateway: &mut Gateway, wanted: &[u8]) {
    let flags = next_flags(gateway);
    assert!(rt; flags.as_slice().starts_with(wanted));
}

/// A frame in which the line repeats nothing, and the gateway sends these flags, or none.
pub fn expect_all_flags(rt: &impl Abort, gateway: &mut Gateway, wanted: &[u8]) {
    let flags = next_flags(gateway);
    assert!(rt; flags.as_slice() == wanted);
}

/// A frame in which the line repeats this, or nothing, and the gateway sends nothing.
pub fn expect_silence(rt: &impl Abort, gateway: &mut Gateway, repeated: Option<Burst>) {
    let burst = frame(gateway, repeated);
    assert!(rt; burst.is_none());
}

/// This was received, or nothing.
pub fn expect_received(rt: &impl Abort, gateway: &mut Gateway, wanted: Option<Received>) {
    let received = gateway.take_received();
    assert!(rt; received == wanted);
}
