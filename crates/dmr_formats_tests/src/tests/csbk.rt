//! A block with each field, and both faults.
use dmr_bptc::bptc_encode;
use dmr_csbk::{Csbk, CsbkFault, csbk_info, csbk_read};

/// The block of ten zero octets.
const ZERO: Csbk = Csbk {
    last: false,
    protect: false,
    code: 0,
    fid: 0,
    body: [0; 8],
};

#[test]
fn read_as_written(rt: HostRuntime) {
    let csbk = Csbk {
        last: true,
        protect: true,
        code: 0x2A,
        fid: 0x10,
        body: [1, 2, 3, 4, 5, 6, 7, 0xFF],
    };
    let message = csbk_info(&csbk);
    assert!(rt; message.field(0, 16) == 0xEA10);
    assert!(rt; message.field(16, 64) == 0x0102_0304_0506_07FF);
    assert!(rt; csbk_read(&bptc_encode(&message)) == Ok(csbk));
}

#[test]
fn both_faults(rt: HostRuntime) {
    let mut message = csbk_info(&ZERO);
    message.set(20, true);
    assert!(rt; csbk_read(&bptc_encode(&message)) == Err(CsbkFault::Crc));
    let mut word = bptc_encode(&csbk_info(&ZERO));
    // Two bits of the first column and two of the second, no two in one row but the first.
    for at in [181, 152, 166, 108] {
        let bit = word.get(at);
        word.set(at, !bit);
    }
    assert!(rt; csbk_read(&word) == Err(CsbkFault::Bptc));
}
