//! Bursts from outside, heard by a repeater of colour code 1.
use dmr_bits::Bits;
use dmr_burst::{Emb, data_type, lcss};
use dmr_hearing::{DataBurst, Heard, hear, read_fields};
use dmr_link::FullLc;
use dmr_test_values::{
    CALL_FIELDS, CALL_HEADER, CALL_TERMINATOR, ONE_CSBK, PRINTED_VOICE_BURST, REPEATED_CSBK,
};

/// A call to talk group 1 from radio 2, no option set.
const GROUP_CALL: FullLc = FullLc {
    protect: false,
    reserved: false,
    flco: 0,
    fid: 0,
    body: [0, 0, 0, 1, 0, 0, 2],
};

/// A data header of ten zero octets, sealed as one.
const DATA_HEADER: [u8; 33] = [
    0x00, 0x62, 0x00, 0x08, 0x01, 0x10, 0x03, 0x18, 0x02, 0x10, 0x00, 0xA0, 0x05, 0x8D, 0x5D, 0x7F,
    0x77, 0xFD, 0x75, 0x73, 0x38, 0x08, 0x01, 0x20, 0x02, 0x30, 0x00, 0xA0, 0x01, 0x80, 0x19, 0x00,
    0x11,
];

/// The same octets under the check of a CSBK.
const UNSEALED_DATA_HEADER: [u8; 33] = [
    0x00, 0x62, 0x00, 0x82, 0x01, 0x90, 0x01, 0x00, 0x04, 0x20, 0x04, 0xE0, 0x05, 0x8D, 0x5D, 0x7F,
    0x77, 0xFD, 0x75, 0x73, 0x38, 0x18, 0x00, 0x28, 0x02, 0x50, 0x02, 0x80, 0x00, 0xC0, 0x12, 0x00,
    0x22,
];

/// The idle burst, as a mobile station would send it.
const IDLE_BURST: [u8; 33] = [
    0x53, 0xC2, 0x5E, 0xAB, 0xA8, 0x67, 0x1D, 0xC7, 0x38, 0x3B, 0xD9, 0x36, 0x06, 0x5D, 0x5D, 0x7F,
    0x77, 0xFD, 0x75, 0x79, 0x2B, 0xF6, 0xE4, 0x65, 0x17, 0x1B, 0x48, 0xCA, 0x6D, 0x4F, 0xC6, 0x10,
    0xB4,
];

/// The burst with bits turned.
fn turned(burst: &[u8; 33], places: &[usize]) -> [u8; 33] {
    let mut bits = Bits::<264>::from_octets(burst);
    for place in places {
        if *place < 264 {
            bits.set(*place, !bits.get(*place));
        }
    }
    bits.octets()
}

/// What the burst is heard as by a repeater of colour code 1, with bits turned.
fn hear_turned(burst: &[u8; 33], places: &[usize]) -> Heard {
    let turned = turned(burst, places);
    hear(Some(&turned), 1)
}

/// The burst with three wrong bits in its sync and three in its slot type, and all bits of the first row of its information
/// and R(3) turned.
fn damaged(burst: &[u8; 33]) -> [u8; 33] {
    let mut bits = Bits::<264>::from_octets(burst);
    for place in [98, 99, 100, 108, 109, 110] {
        bits.set(place, !bits.get(place));
    }
    for index in 0..16usize {
        let place = 181 * index % 196;
        let at = if place < 98 { place } else { place + 68 };
        bits.set(at, !bits.get(at));
    }
    bits.octets()
}

/// What the burst holds around its slot type.
fn information(burst: &[u8; 33]) -> Bits<196> {
    let bits = Bits::<264>::from_octets(burst);
    let mut field = Bits::<196>::zero();
    field.put_part(0, &bits, 0, 98);
    field.put_part(98, &bits, 166, 264);
    field
}

#[test]
fn voice_lc_header(rt: HostRuntime) {
    let data_burst = Some(DataBurst {
        kind: data_type::VOICE_LC_HEADER,
        information: information(&CALL_HEADER),
        link_control: Some(GROUP_CALL),
    });
    let heard = hear(Some(&CALL_HEADER), 1);
    assert!(rt; heard.data_burst == data_burst);
    assert!(rt; !heard.voice);
    let heard = hear(Some(&damaged(&CALL_HEADER)), 1);
    assert!(rt; heard.data_burst == data_burst);
    assert!(rt; !heard.voice);
}

#[test]
fn terminator_with_lc(rt: HostRuntime) {
    let data_burst = Some(DataBurst {
        kind: data_type::TERMINATOR_WITH_LC,
        information: information(&CALL_TERMINATOR),
        link_control: Some(GROUP_CALL),
    });
    assert!(rt; hear(Some(&CALL_TERMINATOR), 1).data_burst == data_burst);
    assert!(rt; hear(Some(&damaged(&CALL_TERMINATOR)), 1).data_burst == data_burst);
}

#[test]
fn one_csbk(rt: HostRuntime) {
    let data_burst = Some(DataBurst {
        kind: data_type::CSBK,
        information: information(&ONE_CSBK),
        link_control: None,
    });
    assert!(rt; hear(Some(&ONE_CSBK), 1).data_burst == data_burst);
    assert!(rt; hear(Some(&damaged(&ONE_CSBK)), 1).data_burst == data_burst);
}

#[test]
fn data_header_by_its_check(rt: HostRuntime) {
    let data_burst = Some(DataBurst {
        kind: data_type::DATA_HEADER,
        information: information(&DATA_HEADER),
        link_control: None,
    });
    assert!(rt; hear(Some(&DATA_HEADER), 1).data_burst == data_burst);
    assert!(rt; hear(Some(&UNSEALED_DATA_HEADER), 1).data_burst == None);
}

#[test]
fn bursts_that_are_no_data(rt: HostRuntime) {
    // Of another colour code, idle, and from a base station.
    assert!(rt; hear(Some(&CALL_HEADER), 2).data_burst == None);
    assert!(rt; hear(Some(&ONE_CSBK), 2).data_burst == None);
    assert!(rt; hear(Some(&IDLE_BURST), 1).data_burst == None);
    assert!(rt; hear(Some(&REPEATED_CSBK), 1).data_burst == None);
    // A fourth wrong bit in the sync, and one in the slot type.
    assert!(rt; hear_turned(&ONE_CSBK, &[108, 109, 110, 111]).data_burst == None);
    assert!(rt; hear_turned(&ONE_CSBK, &[98, 99, 100, 101]).data_burst == None);
}

#[test]
fn silence(rt: HostRuntime) {
    let nothing = Heard {
        data_burst: None,
        voice: false,
        emb: None,
        embedded: 0,
        vocoder: Bits::<216>::zero(),
    };
    assert!(rt; hear(None, 1) == nothing);
    assert!(rt; dmr_hearing::silence() == nothing);
}

#[test]
fn printed_voice_burst(rt: HostRuntime) {
    let frame = Heard {
        data_burst: None,
        voice: false,
        emb: Some(Emb {
            colour: 1,
            pi: false,
            lcss: lcss::FIRST_FRAGMENT,
        }),
        embedded: 0,
        vocoder: Bits::<216>::zero(),
    };
    assert!(rt; hear(Some(&PRINTED_VOICE_BURST), 1) == frame);
    assert!(rt; hear(Some(&PRINTED_VOICE_BURST), 2) == frame);
    assert!(rt; hear_turned(&PRINTED_VOICE_BURST, &[108, 155]) == frame);
    assert!(rt; hear_turned(&PRINTED_VOICE_BURST, &[108, 109, 155]).emb == None);
}

#[test]
fn parts_of_a_voice_burst(rt: HostRuntime) {
    let heard = hear(Some(&PRINTED_VOICE_BURST), 1);
    assert!(rt; heard.is_own(1));
    assert!(rt; !heard.is_own(2));
    assert!(rt; heard.has_lcss(1, 1));
    assert!(rt; !heard.pi());
    assert!(rt; !heard.is_absent(1));
    assert!(rt; heard.is_absent(2));
}

#[test]
fn voice_sync(rt: HostRuntime) {
    let burst: [u8; 33] = Bits::<264>::zero()
        .with_field(108, 48, 0x7F7D_5DD5_7DFD)
        .octets();
    let heard = hear(Some(&burst), 1);
    assert!(rt; heard.voice);
    assert!(rt; heard.data_burst == None);
    assert!(rt; heard.embedded == 0x7D5D_D57D);
    assert!(rt; hear_turned(&burst, &[108, 120, 155]).voice);
    assert!(rt; !hear_turned(&burst, &[108, 120, 130, 155]).voice);
}

#[test]
fn embedded_link_control(rt: HostRuntime) {
    let [b, c, d, e] = CALL_FIELDS;
    assert!(rt; read_fields(&CALL_FIELDS) == Some(GROUP_CALL));
    // One wrong bit in a row of the table, and two.
    assert!(rt; read_fields(&[b ^ 0x8000_0000, c, d, e]) == Some(GROUP_CALL));
    assert!(rt; read_fields(&[b ^ 0x8080_0000, c, d, e]) == None);
}
