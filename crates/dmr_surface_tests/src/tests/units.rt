//! Bursts, link control and control signalling blocks.
use dmr_bits::Bits;
use dmr_bptc::bptc_encode;
use dmr_burst::{
    Burst, Emb, Side, SlotType, Sync, cach, encode_burst, read_emb, read_embedded, read_info,
    read_slot_type, read_sync, read_vocoder,
};
use dmr_csbk::{BsDownAct, Csbk, Preamble, csbk_info, csbk_read};
use dmr_link::{CallKind, FullLc, LcUse, ServiceOptions, VoiceLc, lc_info, lc_read};
use dmr_test_values::{CALL_HEADER, IDLE_BURST, ONE_CSBK, PRINTED_VOICE_BURST};

#[test]
fn idle_burst(rt: HostRuntime) {
    let sync = Sync {
        side: Side::Bs,
        voice: false,
    };
    assert!(rt; read_sync(&IDLE_BURST) == Some(sync));
    assert!(rt; read_slot_type(&IDLE_BURST) == Some(SlotType { colour: 1, kind: 9 }));
    let burst = Burst::Data {
        colour: 1,
        kind: 9,
        info: read_info(&IDLE_BURST),
    };
    assert!(rt; encode_burst(&burst, Side::Bs) == IDLE_BURST);
}

#[test]
fn printed_voice_burst(rt: HostRuntime) {
    let emb = Emb {
        colour: 1,
        pi: false,
        lcss: 1,
    };
    assert!(rt; read_sync(&PRINTED_VOICE_BURST).is_none());
    assert!(rt; read_emb(&PRINTED_VOICE_BURST) == Some(emb));
    assert_eq!(rt; read_embedded(&PRINTED_VOICE_BURST), 0);
    assert!(rt; read_vocoder(&PRINTED_VOICE_BURST) == Bits::<216>::zero());
    let burst = Burst::Voice {
        emb,
        embedded: 0,
        vocoder: Bits::<216>::zero(),
    };
    assert!(rt; encode_burst(&burst, Side::Ms) == PRINTED_VOICE_BURST);
}

#[test]
fn burst_with_a_voice_sync(rt: HostRuntime) {
    let vocoder = Bits::<216>::zero().with_field(0, 8, 0xA5);
    let octets = encode_burst(&Burst::VoiceSync { vocoder }, Side::Ms);
    let sync = Sync {
        side: Side::Ms,
        voice: true,
    };
    // The centre of a voice burst of a mobile station is 7F7D5DD57DFD.
    assert!(rt; octets[13] & 0x0F == 0x7 && octets[14..19] == [0xF7, 0xD5, 0xDD, 0x57, 0xDF]);
    assert!(rt; octets[19] & 0xF0 == 0xD0);
    assert!(rt; read_sync(&octets) == Some(sync));
    assert!(rt; read_vocoder(&octets) == vocoder);
}

#[test]
fn cach_of_null_message(rt: HostRuntime) {
    let fragment = Bits::<17>::zero();
    assert!(rt; cach(true, false, 1, &fragment) == [0x80, 0x0A, 0x20]);
    assert!(rt; cach(false, false, 1, &fragment) == [0x00, 0x08, 0x22]);
    assert!(rt; cach(false, true, 3, &fragment) == [0x08, 0x88, 0x20]);
}

/// A call to talk group 1 from radio 2, no option set.
const GROUP_CALL: FullLc = FullLc {
    protect: false,
    reserved: false,
    flco: 0,
    fid: 0,
    body: [0, 0, 0, 1, 0, 0, 2],
};

#[test]
fn parity_of_a_group_call(rt: HostRuntime) {
    let octets: [u8; 9] = GROUP_CALL.octets();
    assert!(rt; octets == [0, 0, 0, 0, 0, 1, 0, 0, 2]);
    let header: [u8; 12] = lc_info(&GROUP_CALL, LcUse::Header).octets();
    assert!(rt; header == [0, 0, 0, 0, 0, 1, 0, 0, 2, 0x82, 0x65, 0x6D]);
    let terminator: [u8; 12] = lc_info(&GROUP_CALL, LcUse::Terminator).octets();
    assert!(rt; terminator == [0, 0, 0, 0, 0, 1, 0, 0, 2, 0x8D, 0x6A, 0x62]);
    assert!(rt; lc_read(&read_info(&CALL_HEADER), LcUse::Header) == Ok(GROUP_CALL));
}

#[test]
fn fields_and_calls(rt: HostRuntime) {
    let octets = [0xC8, 0x10, 1, 2, 3, 4, 5, 6, 7];
    let read = FullLc::from_octets(&octets);
    let gps = FullLc {
        protect: true,
        reserved: true,
        flco: 8,
        fid: 0x10,
        body: [1, 2, 3, 4, 5, 6, 7],
    };
    assert!(rt; read == gps);
    assert!(rt; gps.octets() == octets);
    assert!(rt; gps.voice() == None);
    let mut lc = GROUP_CALL;
    lc.body = [0x82, 0x01, 0x02, 0x03, 0x0A, 0x0B, 0x0C];
    let mut call = VoiceLc {
        kind: CallKind::Group,
        options: ServiceOptions(0x82),
        target: 0x01_02_03,
        source: 0x0A_0B_0C,
    };
    assert!(rt; lc.voice() == Some(call));
    assert!(rt; call.options.contains(ServiceOptions::EMERGENCY));
    assert!(rt; !call.options.contains(ServiceOptions::PRIVACY));
    lc.flco = 3;
    call.kind = CallKind::UnitToUnit;
    assert!(rt; lc.voice() == Some(call));
}

/// The block of ten zero octets.
const ZERO: Csbk = Csbk {
    last: false,
    protect: false,
    code: 0,
    fid: 0,
    body: [0; 8],
};

#[test]
fn one_csbk(rt: HostRuntime) {
    let octets: [u8; 12] = csbk_info(&ZERO).octets();
    assert!(rt; octets == [0, 0, 0, 0, 0, 0, 0, 0, 0, 0, 0x5A, 0x5A]);
    assert!(rt; bptc_encode(&csbk_info(&ZERO)) == read_info(&ONE_CSBK));
    assert!(rt; csbk_read(&read_info(&ONE_CSBK)) == Ok(ZERO));
}

// The preamble that a gateway sends two bursts before a header and one block, from 1 to 2, and an activation of base station 7.
#[test]
fn views_of_blocks(rt: HostRuntime) {
    let message = Bits::<80>::from_octets(&[0xBD, 0, 0x80, 0x03, 0, 0, 2, 0, 0, 1]);
    let octets: [u8; 10] = message.octets();
    let preamble = Csbk {
        last: true,
        protect: false,
        code: 61,
        fid: 0,
        body: [0x80, 0x03, 0, 0, 2, 0, 0, 1],
    };
    let sent: [u8; 12] = csbk_info(&preamble).octets();
    assert!(rt; sent[..10] == octets[..]);
    let meaning = Preamble {
        packet: true,
        group: false,
        left: 3,
        target: 2,
        source: 1,
    };
    assert!(rt; preamble.is_standard());
    assert!(rt; preamble.preamble() == Some(meaning));
    assert!(rt; preamble.down_act() == None);
    let activation = Csbk {
        code: 56,
        body: [0xFF, 0xFF, 0, 0, 7, 0x01, 0x02, 0x03],
        ..ZERO
    };
    let meaning = BsDownAct {
        bs: 7,
        source: 0x01_02_03,
    };
    assert!(rt; activation.down_act() == Some(meaning));
    assert!(rt; activation.preamble() == None);
}
