//! That a repeater repeats the same of a recording that is damaged within the limits.
use crate::recordings::{CALL, CALL_DOWNLINK, OTHER_COLOUR, OTHER_COLOUR_DOWNLINK};
use crate::tests::{WITHIN, damage, expect_octets};
use dmr_gateway::Config;
use dmr_record::{FromRead, ToWrite};
use dmr_repeater::run;
use std::process::Abort;
use std::test::Fail;

/// How many seeds are tried.
const SEEDS: u64 = 10;

/// The head of an outgoing list, which has no records.
const OUTGOING: [u8; 8] = *b"DMRO\x01\0\0\0";

/// A recording, damaged by this seed, which is another one.
fn damaged(rt: &(impl Abort + AllocGlobal), recording: &str, seed: u64) -> Result<Vec<u8>, Fail> {
    let octets = hex::decode(rt.alloc(), recording.as_bytes())?;
    let mut source = FromRead::new(octets.as_slice());
    let mut sink = ToWrite::new(Vec::new(rt.alloc()));
    let end = damage(rt, WITHIN, seed, &mut source, &mut sink);
    assert!(rt; end.is_ok());
    let damaged = sink.into_inner();
    assert!(rt; damaged.as_slice() != octets.as_slice());
    Ok(damaged)
}

/// What a repeater sends of an uplink.
fn sent(rt: &(impl Abort + AllocGlobal), uplink: &[u8]) -> Vec<u8> {
    let alloc = rt.alloc();
    let config = Config::new(1, 1, 3, 5, 9).expect(rt, "the settings are in range");
    let mut uplink = FromRead::new(uplink);
    let mut outgoing = FromRead::new(&OUTGOING[..]);
    let mut sent = ToWrite::new(Vec::new(alloc));
    let mut received = ToWrite::new(Vec::new(alloc));
    let answer = run(
        alloc,
        config,
        &mut uplink,
        &mut outgoing,
        &mut sent,
        &mut received,
    );
    assert!(rt; answer.is_ok());
    sent.into_inner()
}

/// A recording, damaged by this seed, goes out as it is to.
fn expect_same(
    rt: &(impl Abort + AllocGlobal),
    recording: &str,
    seed: u64,
    downlink: &str,
) -> Result<(), Fail> {
    let uplink = damaged(rt, recording, seed)?;
    let found = sent(rt, uplink.as_slice());
    expect_octets(rt, found.as_slice(), downlink)
}

/// Two samples with ten seeds each.
#[test]
fn repeated_the_same(rt: HostRuntime) -> Result<(), Fail> {
    for seed in 0..SEEDS {
        expect_same(&rt, CALL, seed, CALL_DOWNLINK)?;
        expect_same(&rt, OTHER_COLOUR, seed, OTHER_COLOUR_DOWNLINK)?;
    }
    Ok(())
}
