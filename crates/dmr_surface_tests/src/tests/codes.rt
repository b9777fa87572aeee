//! Bits, block codes, checks, and link control as it is embedded.
use dmr_bits::Bits;
use dmr_bptc::{bptc_decode, bptc_encode};
use dmr_burst::read_info;
use dmr_checks::{Mask, ccitt, crc8, crc9, crc32, opens, seal};
use dmr_codes::{
    BlockCode, Golay20, Hamming7, Hamming13, Hamming15, Hamming16, Hamming17, Residue16,
};
use dmr_embedded::{embed, extract, short_lc};
use dmr_rs::{Octet, rs_correct, rs_parity};
use dmr_test_values::{CALL_FIELDS, GROUP_CALL, IDLE_BLOCK, IDLE_BURST};
use std::ops::{Add, Mul};

#[test]
fn bits(rt: HostRuntime) {
    // The twelve bits 1010 0000 0011.
    let bits = Bits::<12>::zero().with_field(0, 12, 0xA03);
    assert!(rt; bits.get(0));
    assert!(rt; !bits.get(1));
    assert!(rt; bits.field(0, 4) == 10);
    assert!(rt; bits.field(8, 4) == 3);
    assert!(rt; bits.len() == 12);
    let mut other = bits;
    other.set(11, false);
    assert!(rt; bits.distance(&other) == 1);
    assert!(rt; bits.xor(&other) == Bits::<12>::zero().with_field(11, 1, 1));
    let whole = Bits::<16>::from_octets(&[0x80, 0x01]);
    assert!(rt; whole.field(0, 16) == 0x8001);
    let octets: [u8; 2] = whole.octets();
    assert!(rt; octets == [0x80, 0x01]);
}

/// How many wrong bits a code undoes, and in how many places its words differ at least.
fn limits<const N: usize, const K: usize, C: BlockCode<N, K>>() -> (usize, usize) {
    (C::REACH, C::DISTANCE)
}

// The word whose information is 1 is the generator, behind it the even bit where a code has one. Then its last bit is turned.
#[test]
fn generators_of_parities(rt: HostRuntime) {
    let golay = Golay20::encode(&Bits::<8>::zero().with_field(0, 8, 1));
    assert!(rt; golay.field(0, 20) == 0x018EB);
    assert!(rt; Golay20::is_word(&golay));
    assert!(rt; Golay20::decode(&golay.with_field(19, 1, 0)) == Some(golay));
    assert!(rt; limits::<20, 8, Golay20>() == (3, 8));
    let residue = Residue16::encode(&Bits::<7>::zero().with_field(0, 7, 1));
    assert!(rt; residue.field(0, 16) == 0x0273);
    assert!(rt; Residue16::is_word(&residue));
    assert!(rt; Residue16::decode(&residue.with_field(15, 1, 0)) == Some(residue));
    assert!(rt; limits::<16, 7, Residue16>() == (2, 6));
}

#[test]
fn generators_of_product_words(rt: HostRuntime) {
    let row = Hamming15::encode(&Bits::<11>::zero().with_field(0, 11, 1));
    assert!(rt; row.field(0, 15) == 0x0013);
    assert!(rt; Hamming15::is_word(&row));
    assert!(rt; Hamming15::decode(&row.with_field(14, 1, 0)) == Some(row));
    assert!(rt; limits::<15, 11, Hamming15>() == (1, 3));
    let column = Hamming13::encode(&Bits::<9>::zero().with_field(0, 9, 1));
    assert!(rt; column.field(0, 13) == 0x0013);
    assert!(rt; Hamming13::is_word(&column));
    assert!(rt; Hamming13::decode(&column.with_field(12, 1, 0)) == Some(column));
    assert!(rt; limits::<13, 9, Hamming13>() == (1, 3));
}

#[test]
fn generators_of_signalling(rt: HostRuntime) {
    let embedded = Hamming16::encode(&Bits::<11>::zero().with_field(0, 11, 1));
    assert!(rt; embedded.field(0, 16) == 0x0027);
    assert!(rt; Hamming16::is_word(&embedded));
    assert!(rt; Hamming16::decode(&embedded.with_field(15, 1, 0)) == Some(embedded));
    assert!(rt; limits::<16, 11, Hamming16>() == (1, 4));
    let short = Hamming17::encode(&Bits::<12>::zero().with_field(0, 12, 1));
    assert!(rt; short.field(0, 17) == 0x00025);
    assert!(rt; Hamming17::is_word(&short));
    assert!(rt; Hamming17::decode(&short.with_field(16, 1, 0)) == Some(short));
    assert!(rt; limits::<17, 12, Hamming17>() == (1, 3));
    let access = Hamming7::encode(&Bits::<4>::zero().with_field(0, 4, 1));
    assert!(rt; access.field(0, 7) == 0x0B);
    assert!(rt; Hamming7::is_word(&access));
    assert!(rt; Hamming7::decode(&access.with_field(6, 1, 0)) == Some(access));
    assert!(rt; limits::<7, 4, Hamming7>() == (1, 3));
}

/// The link control of a group call to target 1 from source 2, and its parity.
const CALL: [u8; 12] = [0, 0, 0, 0, 0, 1, 0, 0, 2, 0x14, 0xF3, 0xFB];

#[test]
fn parity_of_a_group_call(rt: HostRuntime) {
    assert!(rt; rs_parity(&GROUP_CALL) == [0x14, 0xF3, 0xFB]);
    assert!(rt; rs_correct(&CALL) == Some(CALL));
    let mut damaged = CALL;
    damaged[4] = 0x77;
    assert!(rt; rs_correct(&damaged) == Some(CALL));
    damaged[11] = 0;
    assert!(rt; rs_correct(&damaged).is_none());
    // x^8 is x^4 + x^3 + x^2 + 1.
    let high = Octet::from(0x80);
    assert!(rt; high * Octet::from(2) == Octet::from(0x1D));
    assert!(rt; high + Octet::from(0x81) == Octet::from(1));
    assert_eq!(rt; u8::from(high), 0x80);
}

// By their names, which are those of the operators. What 2 times is 1 is 0x8E.
#[test]
fn octets_of_the_field(rt: HostRuntime) {
    let (left, right) = (Octet::from(0x53), Octet::from(0xCA));
    assert!(rt; left.add(right) == Octet::from(0x99));
    assert!(rt; Octet::from(0x8E).mul(Octet::from(2)) == Octet::from(1));
}

#[test]
fn idle_word(rt: HostRuntime) {
    let idle = Bits::<96>::from_octets(&IDLE_BLOCK);
    let word = read_info(&IDLE_BURST);
    assert!(rt; bptc_encode(&idle) == word);
    assert!(rt; bptc_decode(&word) == Some(idle));
}

#[test]
fn embedded_group_call(rt: HostRuntime) {
    assert!(rt; embed(&GROUP_CALL) == CALL_FIELDS);
    assert!(rt; extract(&CALL_FIELDS) == Ok(GROUP_CALL));
}

// The message that tells of the call in slot 1, and the null message.
#[test]
fn short_link_control(rt: HostRuntime) {
    let [first, second, third, fourth] = short_lc(1, 0x80_0700);
    assert!(rt; first.field(0, 17) == 0x00013);
    assert!(rt; second.field(0, 17) == 0x05998);
    assert!(rt; third.field(0, 17) == 0x01985);
    assert!(rt; fourth.field(0, 17) == 0x055A0);
    let zero = Bits::<17>::zero();
    assert!(rt; short_lc(0, 0) == [zero, zero, zero, zero]);
}

#[test]
fn check_values(rt: HostRuntime) {
    let csbk = seal(&[0; 10], Mask::Csbk);
    assert!(rt; csbk == [0, 0, 0, 0, 0, 0, 0, 0, 0, 0, 0x5A, 0x5A]);
    let header = seal(&[0; 10], Mask::Header);
    assert!(rt; header == [0, 0, 0, 0, 0, 0, 0, 0, 0, 0, 0x33, 0x33]);
    assert!(rt; opens(&csbk, Mask::Csbk));
    assert!(rt; !opens(&csbk, Mask::Header));
    assert!(rt; !opens(&csbk, Mask::Pi));
    assert!(rt; ccitt(&[1]) == 0xEFDE);
    assert!(rt; crc32(&[1, 0]) == 0x04C1_1DB7);
    assert!(rt; crc32(&[0, 1]) == 0xD219_C1DC);
}

/// What is added to the CRC-9 of a confirmed block at rate 1/2, and at rate 1.
const HALF: u16 = 0x0F0;

const FULL: u16 = 0x10F;

// A confirmed block of zeros begins with the 7 bits of its serial and the masked check: 010F, 00F0 and 0356.
#[test]
fn checks_of_block_and_activity(rt: HostRuntime) {
    assert!(rt; HALF ^ crc9(&[0; 10], 0) == 0x010F);
    assert!(rt; FULL ^ crc9(&[0; 22], 0) == 0x00F0);
    assert!(rt; 1 << 9 | HALF ^ crc9(&[0; 10], 1) == 0x0356);
    let message = Bits::<28>::zero()
        .with_field(0, 4, 1)
        .with_field(4, 24, 0x80_0700);
    assert!(rt; crc8(&message) == 0x76);
}
