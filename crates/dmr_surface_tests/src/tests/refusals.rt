//! What each call answers that refuses something, by the name of the fault and its number.
use crate::tests::files::{OUTGOING, answer_of, expect_end};
use dmr_bits::Bits;
use dmr_bptc::bptc_encode;
use dmr_burst::read_info;
use dmr_checks::{Mask, seal};
use dmr_csbk::{CsbkFault, csbk_read};
use dmr_data::{
    Block, BlockFault, HeaderFault, JoinFault, Octets, Rate, block_info, block_read, header_read,
    join_packet,
};
use dmr_embedded::{EmbedFault, extract};
use dmr_gateway::{Config, ConfigFault, Gateway, GatewayFault};
use dmr_ip::{Datagram, ExpandFault, IpFault, expand};
use dmr_link::{LcFault, LcUse, lc_read};
use dmr_program::RunEnd;
use dmr_record::{FromRead, Outgoing, RecordFault, ToWrite, UPLINK_MAGIC, read_head};
use dmr_repeater::{RunFault, Stream};
use dmr_test_values::{CALL_HEADER, DATAGRAM_BLOCK, EMPTY_DATAGRAM};

// Two wrong bits in a row of the embedded word, a header read as a terminator, and twelve zeros, which no check seals.
#[test]
fn units(rt: HostRuntime) {
    let fields = [0x8080_0000, 0x0009_0000, 0x0300_060A, 0x030F_060C];
    assert!(rt; extract(&fields) == Err(EmbedFault::Row));
    assert!(rt; EmbedFault::Row as u8 == 1);
    assert!(rt; lc_read(&read_info(&CALL_HEADER), LcUse::Terminator) == Err(LcFault::Parity));
    assert!(rt; LcFault::Parity as u8 == 2);
    let zeros = bptc_encode(&Bits::<96>::zero());
    assert!(rt; csbk_read(&zeros) == Err(CsbkFault::Crc));
    assert!(rt; CsbkFault::Crc as u8 == 2);
}

// A header of format 0, the second block of a packet of one, and the block of a packet with a pad that it hasn't room for.
#[test]
fn packets(rt: HostRuntime) {
    let header = seal(&[0; 10], Mask::Header);
    let word = bptc_encode(&Bits::<96>::from_octets(&header));
    assert!(rt; header_read(&word) == Err(HeaderFault::Format));
    assert!(rt; HeaderFault::Format as u8 == 3);
    let second = Block {
        serial: Some(1),
        octets: Octets::from_slice(&[0; 10]),
    };
    let read = block_read(&block_info(&second, Rate::Half), Rate::Half, Some(1));
    assert!(rt; read == Err(BlockFault::Serial));
    assert!(rt; BlockFault::Serial as u8 == 3);
    assert!(rt; join_packet(&DATAGRAM_BLOCK, 9) == Err(JoinFault::Pad));
    assert!(rt; JoinFault::Pad as u8 == 2);
}

#[test]
fn datagrams(rt: HostRuntime) {
    let cut = Datagram::parse(&EMPTY_DATAGRAM[..27]);
    assert!(rt; cut.err() == Some(IpFault::Length));
    let numbers = [IpFault::Length as u8, IpFault::Fragment as u8];
    assert!(rt; numbers == [1, 8]);
    let form = [0x12, 0x34, 0x00, 0x81, 0x00, 0x13, 0x9A];
    let unknown = expand(&form, 1, 2, false);
    assert!(rt; unknown.err() == Some(ExpandFault::Opcode));
    assert!(rt; ExpandFault::Opcode as u8 == 2);
}

// The numbers of all faults of the surface, whichever call answers them.
#[test]
fn numbers_of_units_and_packets(rt: HostRuntime) {
    let embedded = [
        EmbedFault::Row as u8,
        EmbedFault::Columns as u8,
        EmbedFault::Checksum as u8,
    ];
    assert!(rt; embedded == [1, 2, 3]);
    assert!(rt; [LcFault::Bptc as u8, LcFault::Parity as u8] == [1, 2]);
    assert!(rt; [CsbkFault::Bptc as u8, CsbkFault::Crc as u8] == [1, 2]);
    let headers = [
        HeaderFault::Bptc as u8,
        HeaderFault::Crc as u8,
        HeaderFault::Format as u8,
    ];
    assert!(rt; headers == [1, 2, 3]);
    let blocks = [
        BlockFault::Bptc as u8,
        BlockFault::Crc9 as u8,
        BlockFault::Serial as u8,
    ];
    assert!(rt; blocks == [1, 2, 3]);
    let joined = [
        JoinFault::Short as u8,
        JoinFault::Pad as u8,
        JoinFault::Crc32 as u8,
    ];
    assert!(rt; joined == [1, 2, 3]);
}

#[test]
fn numbers_of_datagrams_and_settings(rt: HostRuntime) {
    let datagrams = [
        IpFault::Length as u8,
        IpFault::Version as u8,
        IpFault::Options as u8,
        IpFault::HeaderSum as u8,
        IpFault::Protocol as u8,
        IpFault::UdpLength as u8,
        IpFault::UdpSum as u8,
        IpFault::Fragment as u8,
    ];
    assert!(rt; datagrams == [1, 2, 3, 4, 5, 6, 7, 8]);
    let expanded = [
        ExpandFault::Short as u8,
        ExpandFault::Opcode as u8,
        ExpandFault::Address as u8,
        ExpandFault::Port as u8,
        ExpandFault::Long as u8,
    ];
    assert!(rt; expanded == [1, 2, 3, 4, 5]);
    let settings = [
        ConfigFault::Colour as u8,
        ConfigFault::Llid as u8,
        ConfigFault::Hang as u8,
        ConfigFault::Queue as u8,
    ];
    assert!(rt; settings == [1, 2, 3, 4]);
}

#[test]
fn numbers_of_offers_and_records(rt: HostRuntime) {
    let offers = [
        GatewayFault::NoRoute as u8,
        GatewayFault::GroupConfirmed as u8,
        GatewayFault::TooLong as u8,
        GatewayFault::QueueFull as u8,
        GatewayFault::Memory as u8,
    ];
    assert!(rt; offers == [1, 2, 3, 4, 5]);
    let records = [
        RecordFault::Magic as u8,
        RecordFault::Version as u8,
        RecordFault::CutRecord as u8,
        RecordFault::BadTag as u8,
        RecordFault::HalfFrame as u8,
        RecordFault::FrameOrder as u8,
        RecordFault::TooLong as u8,
        RecordFault::Read as u8,
        RecordFault::Write as u8,
    ];
    assert!(rt; records == [1, 2, 3, 4, 5, 6, 7, 8, 9]);
}

// Settings of colour code 16, and a datagram to 10.0.0.2.
#[test]
fn gateway(rt: HostRuntime) {
    assert!(rt; Config::new(16, 1, 3, 5, 9) == Err(ConfigFault::Colour));
    assert!(rt; ConfigFault::Colour as u8 == 1);
    let config = Config::new(1, 1, 3, 5, 9).expect(&rt, "the settings are in range");
    let mut gateway = Gateway::new(rt.alloc(), config).expect(&rt, "there is room");
    let mut datagram = EMPTY_DATAGRAM;
    datagram[16] = 10;
    let mut octets = Octets::new();
    octets.keep(&datagram);
    let outgoing = Outgoing {
        frame: 0,
        slot: 1,
        confirmed: false,
        full: false,
        length: 28,
        octets,
    };
    assert!(rt; gateway.offer(&outgoing) == Err(GatewayFault::NoRoute));
    assert!(rt; GatewayFault::NoRoute as u8 == 1);
}

// The head of an outgoing file in the place of an uplink's.
#[test]
fn files(rt: HostRuntime) {
    let mut source = FromRead::new(&OUTGOING[..]);
    assert!(rt; read_head(&mut source, UPLINK_MAGIC) == Err(RecordFault::Magic));
    assert!(rt; RecordFault::Magic as u8 == 1);
}

/// What a run over such an uplink answers.
const FAULT: RunFault = RunFault::File(Stream::Uplink, RecordFault::Magic);

#[test]
fn runs(rt: HostRuntime) {
    let config = Config::new(1, 1, 3, 5, 9).expect(&rt, "the settings are in range");
    let mut uplink = FromRead::new(&OUTGOING[..]);
    let mut outgoing = FromRead::new(&OUTGOING[..]);
    let mut downlink = ToWrite::new(Vec::new(rt.alloc()));
    let mut received = ToWrite::new(Vec::new(rt.alloc()));
    let answer = answer_of(
        rt.alloc(),
        config,
        &mut uplink,
        &mut outgoing,
        &mut downlink,
        &mut received,
    );
    assert!(rt; answer == Err(FAULT));
}

#[test]
fn ends_of_runs(rt: HostRuntime) {
    let line = b"error: uplink: bad magic\n";
    expect_end(&rt, rt.alloc(), &RunEnd::Fault(FAULT), 1, b"", line);
}
