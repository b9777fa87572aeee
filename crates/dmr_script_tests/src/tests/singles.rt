//! Control signalling blocks, and data bursts by themselves.
use super::sends;
use dmr_bits::Bits;
use dmr_csbk::Csbk;
use dmr_link::FullLc;
use dmr_script::{LoneBurst, Transmission};
use std::test::Fail;

/// A block of the standard's feature set.
fn csbk(last: bool, code: u8, body: [u8; 8]) -> Csbk {
    Csbk {
        last,
        protect: false,
        code,
        fid: 0,
        body,
    }
}

#[test]
fn control_blocks(rt: HostRuntime) -> Result<(), Fail> {
    let alloc = rt.alloc();
    let rows = [
        ("opcode 0, fid 0, 0000000000000000", csbk(false, 0, [0; 8])),
        (
            "opcode 63, fid 0, 0102030405060708, last",
            csbk(true, 63, [1, 2, 3, 4, 5, 6, 7, 8]),
        ),
        (
            "preamble, data to follow 7, 2 -> 1",
            csbk(true, 61, [0x80, 7, 0, 0, 1, 0, 0, 2]),
        ),
        (
            "preamble, CSBKs to follow 255, 2 -> group 66051",
            csbk(true, 61, [0x40, 255, 1, 2, 3, 0, 0, 2]),
        ),
        (
            "preamble, data to follow 0, 2 -> group 1",
            csbk(true, 61, [0xc0, 0, 0, 0, 1, 0, 0, 2]),
        ),
        (
            "BS activation by 2 of 66051",
            csbk(true, 56, [0, 0, 1, 2, 3, 0, 0, 2]),
        ),
        (
            "opcode 5, fid 16, 0102030405060708",
            Csbk {
                last: false,
                protect: false,
                code: 5,
                fid: 16,
                body: [1, 2, 3, 4, 5, 6, 7, 8],
            },
        ),
    ];
    for (line, block) in rows {
        sends(&rt, alloc, line, Transmission::Control(block))?;
    }
    Ok(())
}

/// Twelve octets.
const TWELVE: [u8; 12] = [1, 2, 3, 4, 5, 6, 7, 8, 9, 10, 11, 12];

#[test]
fn data_bursts(rt: HostRuntime) -> Result<(), Fail> {
    let alloc = rt.alloc();
    let terminator = FullLc {
        protect: false,
        reserved: false,
        flco: 0,
        fid: 0,
        body: [0, 0, 0, 1, 0, 0, 2],
    };
    // Of 49 digits the first is the highest four of 196 bits.
    let mut bits = Bits::<196>::zero();
    bits.set(3, true);
    bits.set(192, true);
    let rows = [
        (
            "terminator group call 2 -> 1",
            LoneBurst::Terminator(terminator),
        ),
        (
            "PI header 0102030405060708090A0B0C",
            LoneBurst::PiHeader(TWELVE),
        ),
        (
            "MBC header 0102030405060708090A0B0C",
            LoneBurst::MbcHeader(TWELVE),
        ),
        (
            "MBC block 0102030405060708090A0B0C",
            LoneBurst::MbcBlock(TWELVE),
        ),
        (
            "unified block 0102030405060708090A0B0C",
            LoneBurst::UnifiedBlock(TWELVE),
        ),
        (
            "rate 1/2 0102030405060708090a0b0c",
            LoneBurst::RateHalf(TWELVE),
        ),
        (
            "rate 3/4 1000000000000000000000000000000000000000000000008",
            LoneBurst::RateThreeQuarters(bits),
        ),
        (
            "rate 1 1000000000000000000000000000000000000000000000008",
            LoneBurst::RateOne(bits),
        ),
    ];
    for (line, burst) in rows {
        sends(&rt, alloc, line, Transmission::Burst(burst))?;
    }
    Ok(())
}
