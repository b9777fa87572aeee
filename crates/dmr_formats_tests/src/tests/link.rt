//! Damage to the link control of a group call, and the options of calls.
use dmr_bits::Bits;
use dmr_bptc::bptc_encode;
use dmr_link::{FullLc, LcFault, LcUse, ServiceOptions, lc_info, lc_read};

/// A call to talk group 1 from radio 2, no option set.
const GROUP_CALL: FullLc = FullLc {
    protect: false,
    reserved: false,
    flco: 0,
    fid: 0,
    body: [0, 0, 0, 1, 0, 0, 2],
};

#[test]
fn damaged_link_control(rt: HostRuntime) {
    let octets: [u8; 12] = lc_info(&GROUP_CALL, LcUse::Header).octets();
    for place in 0..12 {
        let mut damaged = octets;
        damaged[place] ^= 0x5B;
        let word = bptc_encode(&Bits::<96>::from_octets(&damaged));
        assert!(rt; lc_read(&word, LcUse::Header) == Ok(GROUP_CALL));
    }
    let header = bptc_encode(&Bits::<96>::from_octets(&octets));
    assert!(rt; lc_read(&header, LcUse::Terminator) == Err(LcFault::Parity));
}

#[test]
fn no_product_word(rt: HostRuntime) {
    let mut word = bptc_encode(&lc_info(&GROUP_CALL, LcUse::Terminator));
    assert!(rt; lc_read(&word, LcUse::Terminator) == Ok(GROUP_CALL));
    // Two bits of the first column and two of the second, no two in one row but the first.
    for at in [181, 152, 166, 108] {
        let bit = word.get(at);
        word.set(at, !bit);
    }
    assert!(rt; lc_read(&word, LcUse::Terminator) == Err(LcFault::Bptc));
}

#[test]
fn service_options(rt: HostRuntime) {
    // Emergency and broadcast, both reserved bits, priority 2.
    let options = ServiceOptions(0xBA);
    assert!(rt; options.contains(ServiceOptions::EMERGENCY));
    assert!(rt; !options.contains(ServiceOptions::PRIVACY));
    assert!(rt; options.contains(ServiceOptions::BROADCAST));
    assert!(rt; !options.contains(ServiceOptions::OVCM));
    assert!(rt; !options.contains(ServiceOptions::BROADCAST | ServiceOptions::OVCM));
    assert!(rt; options.priority() == 2);
}

#[test]
fn each_service_option(rt: HostRuntime) {
    let options = [
        ServiceOptions::EMERGENCY,
        ServiceOptions::PRIVACY,
        ServiceOptions::BROADCAST,
        ServiceOptions::OVCM,
    ];
    for (place, octet) in [0x80, 0x40, 0x08, 0x04].iter().enumerate() {
        for (other, option) in options.iter().enumerate() {
            assert!(rt; ServiceOptions(*octet).contains(*option) == (place == other));
        }
    }
}
