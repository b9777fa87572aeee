//! What a recording is written as, what is printed, and how it ends.
ghost use Rattle.std.specs.Prelude.{◌≡◌, false};

use crate::recordings::{CALL, CALL_AT_100, CALL_WITHIN, CSBK, CSBK_AT_500, CSBK_WITHIN};
use dmr_damage::{Damage, DamageEnd, DamageSettings, Damaged, damage_recording};
use dmr_record::{FromRead, Sink, Source, ToWrite};
use dmr_test_devices::{FailsAt, OneByOne};
use rand_core::Rng;
use rand_pcg::Pcg32;
use std::alloc::Global;
use std::fmt::Debug;
use std::process::Abort;
use std::test::Fail;

/// Within the limits of a repeater of colour code 1.
pub(crate) const WITHIN: Damage = Damage::WithinLimits { colour: 1 };

/// The damage of a recording, with no more than its `requires`.
pub(crate) fn damage<S: Source, K: Sink>(
    rt: &impl Abort,
    damage: Damage,
    seed: u64,
    source: &mut S,
    sink: &mut K,
) -> Result<Damaged, DamageEnd>
    requires source { S.has_failed source.old ≡ false }
    requires sink { K.has_failed sink.old ≡ false }
{
    let settings = DamageSettings::new(damage, seed).expect(rt, "the settings are in range");
    damage_recording(&settings, source, sink)
}

/// How damaging ended, as it is told.
fn told(rt: &impl Abort, alloc: Global, end: &Result<Damaged, DamageEnd>) -> String {
    let room = "there is memory";
    match end {
        Ok(damaged) => format!(in alloc; "{damaged}").expect(rt, room),
        Err(DamageEnd::File(fault)) => format!(in alloc; "{fault}").expect(rt, room),
        Err(DamageEnd::NotUplink) => format!(in alloc; "not an uplink").expect(rt, room),
        Err(DamageEnd::Output) => format!(in alloc; "write failed").expect(rt, room),
    }
}

/// That both are the same, of what is told where they aren't.
fn are_same<T: PartialEq + Debug>(rt: &impl Abort, what: &str, got: &T, expected: &T) {
    assert_eq!(rt; got, expected, "{what}");
}

/// These octets are those of the digits.
pub(crate) fn expect_octets(
    rt: &(impl Abort + AllocGlobal),
    octets: &[u8],
    digits: &str,
) -> Result<(), Fail> {
    let wanted = hex::decode(rt.alloc(), digits.as_bytes())?;
    assert!(rt; octets == wanted.as_slice());
    Ok(())
}

/// This is told of how damaging ended.
fn expect_told(rt: &impl Abort, alloc: Global, end: &Result<Damaged, DamageEnd>, line: &str) {
    let text = told(rt, alloc, end);
    are_same(rt, "told", &text.as_str(), &line);
}

/// A recording, in digits, is written so, and this is told.
fn expect(
    rt: &(impl Abort + AllocGlobal),
    how: Damage,
    seed: u64,
    recording: &str,
    written: &str,
    line: &str,
) -> Result<(), Fail> {
    let alloc = rt.alloc();
    let octets = hex::decode(alloc, recording.as_bytes())?;
    let mut source = FromRead::new(octets.as_slice());
    let mut sink = ToWrite::new(Vec::new(alloc));
    let end = damage(rt, how, seed, &mut source, &mut sink);
    expect_told(rt, alloc, &end, line);
    let found = sink.into_inner();
    expect_octets(rt, found.as_slice(), written)
}

/// The words of the reference program of PCG32, which its author published: of state 42 and stream 54.
#[test]
fn reference_words(rt: HostRuntime) {
    let mut rng = Pcg32::new(42, 54);
    for word in [
        0xa15c_02b7u32,
        0x7b47_f409,
        0xba1d_3330,
        0x83d2_f293,
        0xbfa4_784b,
        0xcbed_606e,
    ] {
        are_same(&rt, "word", &rng.next_u32(), &word);
    }
}

/// Within the limits: the sync, the slot type and the product code of a data burst.
#[test]
fn data_burst(rt: HostRuntime) -> Result<(), Fail> {
    expect(
        &rt,
        WITHIN,
        7,
        CSBK,
        CSBK_WITHIN,
        "frames 1 bursts 1 changed 1 silenced 0 bits 18",
    )
}

/// A call: its header, the sync of A, the EMB of B to F, and the fields of B to E.
#[test]
fn call(rt: HostRuntime) -> Result<(), Fail> {
    expect(
        &rt,
        WITHIN,
        0,
        CALL,
        CALL_WITHIN,
        "frames 20 bursts 7 changed 7 silenced 0 bits 33",
    )
}

/// At a rate: each bit of each burst, and bursts that are left out.
#[test]
fn at_a_rate(rt: HostRuntime) -> Result<(), Fail> {
    let errors = Damage::AtRate {
        errors: 500,
        loss: 0,
    };
    let both = Damage::AtRate {
        errors: 100,
        loss: 3000,
    };
    expect(
        &rt,
        errors,
        7,
        CSBK,
        CSBK_AT_500,
        "frames 1 bursts 1 changed 1 silenced 0 bits 12",
    )?;
    expect(
        &rt,
        both,
        3,
        CALL,
        CALL_AT_100,
        "frames 20 bursts 7 changed 5 silenced 2 bits 12",
    )
}

/// Nothing is damaged, or all is left out.
#[test]
fn nothing_and_all(rt: HostRuntime) -> Result<(), Fail> {
    let nothing = Damage::AtRate { errors: 0, loss: 0 };
    let all = Damage::AtRate {
        errors: 0,
        loss: 10_000,
    };
    expect(
        &rt,
        nothing,
        5,
        CALL,
        CALL,
        "frames 20 bursts 7 changed 0 silenced 0 bits 0",
    )?;
    expect(
        &rt,
        all,
        5,
        CSBK,
        "444D5255010000000000",
        "frames 1 bursts 1 changed 0 silenced 1 bits 0",
    )?;
    expect(
        &rt,
        WITHIN,
        5,
        "444D525501000000",
        "444D525501000000",
        "frames 0 bursts 0 changed 0 silenced 0 bits 0",
    )
}

/// What is out of its range.
#[test]
fn settings(rt: HostRuntime) -> Result<(), Fail> {
    let alloc = rt.alloc();
    for (damage, fault) in [
        (
            Damage::WithinLimits { colour: 16 },
            "the colour code is over 15",
        ),
        (
            Damage::AtRate {
                errors: 10_001,
                loss: 10_001,
            },
            "the errors are over 10000",
        ),
        (
            Damage::AtRate {
                errors: 10_000,
                loss: 10_001,
            },
            "the loss is over 10000",
        ),
    ] {
        let told = match DamageSettings::new(damage, 0) {
            Ok(_) => format!(in alloc; "in range")?,
            Err(refused) => format!(in alloc; "{refused}")?,
        };
        are_same(&rt, "told", &told.as_str(), &fault);
    }
    Ok(())
}

/// Files at fault: what stands before the fault is written, in whole frames.
#[test]
fn faults(rt: HostRuntime) -> Result<(), Fail> {
    let nothing = Damage::AtRate { errors: 0, loss: 0 };
    for (recording, written, line) in [
        ("444D52", "", "cut record at octet 0"),
        ("444D524401000000", "", "not an uplink"),
        ("444D525601000000", "", "bad magic at octet 0"),
        ("444D525502000000", "", "bad version at octet 0"),
        (
            "444D525501000000000000",
            "444D5255010000000000",
            "half frame at octet 11, frame 1, slot 2",
        ),
        (
            "444D52550100000000000002",
            "444D5255010000000000",
            "bad tag at octet 11, frame 1, slot 2",
        ),
        (
            "444D52550100000000000001AA",
            "444D5255010000000000",
            "cut record at octet 11, frame 1, slot 2",
        ),
        (
            "444D525501000000000003",
            "444D5255010000000000",
            "bad tag at octet 10, frame 1, slot 1",
        ),
    ] {
        expect(&rt, nothing, 0, recording, written, line)?;
        expect(&rt, WITHIN, 0, recording, written, line)?;
    }
    Ok(())
}

/// A source that gives one octet a call is read as any other.
#[test]
fn one_by_one(rt: HostRuntime) -> Result<(), Fail> {
    let alloc = rt.alloc();
    let octets = hex::decode(alloc, CALL.as_bytes())?;
    let mut source = OneByOne::new(octets.as_slice());
    let mut sink = ToWrite::new(Vec::new(alloc));
    let end = damage(&rt, WITHIN, 0, &mut source, &mut sink);
    assert!(rt; end.is_ok());
    let found = sink.into_inner();
    expect_octets(&rt, found.as_slice(), CALL_WITHIN)
}

/// A source that fails at its first read, or behind some: the frames before that are written.
#[test]
fn failing_reads(rt: HostRuntime) -> Result<(), Fail> {
    let alloc = rt.alloc();
    let octets = hex::decode(alloc, CSBK.as_bytes())?;
    for (calls, line) in [
        (0, "read failed at octet 0"),
        (7, "read failed at octet 0"),
        (8, "read failed at octet 8, frame 0, slot 1"),
        (20, "read failed at octet 8, frame 0, slot 1"),
        (42, "read failed at octet 42, frame 0, slot 2"),
        (43, "read failed at octet 43, frame 1, slot 1"),
    ] {
        let mut source = FailsAt::new(OneByOne::new(octets.as_slice()), calls);
        let mut sink = ToWrite::new(Vec::new(alloc));
        let end = damage(&rt, WITHIN, 0, &mut source, &mut sink);
        expect_told(&rt, alloc, &end, line);
    }
    Ok(())
}

/// A sink that fails at the head, or at a slot: a front of the file is written.
#[test]
fn failing_writes(rt: HostRuntime) -> Result<(), Fail> {
    let alloc = rt.alloc();
    let octets = hex::decode(alloc, CSBK.as_bytes())?;
    let wanted = hex::decode(alloc, CSBK_WITHIN.as_bytes())?;
    for (calls, length) in [(0, 0), (1, 4), (2, 8), (3, 42)] {
        let mut source = FromRead::new(octets.as_slice());
        let mut sink = FailsAt::new(ToWrite::new(Vec::new(alloc)), calls);
        let end = damage(&rt, WITHIN, 7, &mut source, &mut sink);
        expect_told(&rt, alloc, &end, "write failed");
        let found = sink.into_inner().into_inner();
        assert!(rt; wanted.get(..length) == Some(found.as_slice()));
    }
    Ok(())
}
