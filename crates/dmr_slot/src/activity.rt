//! What the channel announces of the calls in its slots.
ghost use Rattle.std.specs.Prelude.{◌<◌, ◌^◌, ◌++◌, Some, option_copied};
ghost use Rattle.dmr_bits.specs.Bits.{bits_of};
ghost use Rattle.dmr_checks.specs.Generators.{crc8_generator, Completes};
ghost use Rattle.dmr_slot.specs.Activity.{IsActivity, IsMessage};

use dmr_bits::Bits;
use dmr_checks::crc8;
use dmr_link::{FullLc, GROUP_CALL, UNIT_TO_UNIT_CALL};

/// The opcode of the null message.
const NULL_MESSAGE: u8 = 0;

/// The opcode of the activity update. ETSI TS 102 361-2, clause 7.1.3.2; the layout is this project's own.
const ACTIVITY_UPDATE: u8 = 1;

/// The activity of a slot of which nothing is said. This project's own, as those below.
const NO_ACTIVITY: u8 = 0;

/// The activity of a slot with a call to a talk group.
const GROUP_CALL_ACTIVITY: u8 = 8;

/// The activity of a slot with a call to a radio.
const UNIT_TO_UNIT_CALL_ACTIVITY: u8 = 9;

/// What is said of a slot with no call, or with one whose link control isn't known.
const NOTHING: Activity = Activity {
    code: NO_ACTIVITY,
    hash: 0,
};

/// What is said of a slot.
#[derive(Clone, Copy)]
struct Activity {
    /// Of what kind its call is, in four bits.
    code: u8,
    /// For whom it is, in eight bits; 0 where nothing is said.
    hash: u8,
}

/// The CRC-8 of four zero bits and an address of 24.
fn hash_of(target: u32) -> u8
    requires address { target < 2 ^ 24 }
    ensures completes { Completes crc8_generator (bits_of 4 0 ++ bits_of 24 target) (bits_of 8 result) }
{
    crc8(
        &Bits::<28>::zero()
            .with_field(0, 4, 0)
            .with_field(4, 24, u64::from(target)),
    )
}

/// What is said of a slot with a call, where its link control is known.
fn activity_of(link_control: Option<&FullLc>) -> Activity
    ensures slot { IsActivity (option_copied link_control.entry) result.code result.hash }
    ensures narrow { result.code < 2 ^ 4 }
{
    match link_control {
        Some(lc) => call_activity(lc),
        None => NOTHING,
    }
}

/// What is said of a call.
fn call_activity(link_control: &FullLc) -> Activity
    ensures slot { IsActivity (Some link_control.now) result.code result.hash }
    ensures narrow { result.code < 2 ^ 4 }
{
    let body = Bits::<56>::from_octets(&link_control.body);
    let target = body.field(8, 24) as u32;
    match link_control.flco {
        GROUP_CALL => Activity {
            code: GROUP_CALL_ACTIVITY,
            hash: hash_of(target),
        },
        UNIT_TO_UNIT_CALL => Activity {
            code: UNIT_TO_UNIT_CALL_ACTIVITY,
            hash: hash_of(target),
        },
        _ => NOTHING,
    }
}

/// The message for the known link controls of the calls in both slots.
pub(crate) fn message_of(slot1: Option<&FullLc>, slot2: Option<&FullLc>) -> (u8, u32)
    ensures message { IsMessage (option_copied slot1.entry) (option_copied slot2.entry) result.0 result.1 }
    ensures opcode { result.0 < 2 ^ 4 }
    ensures body { result.1 < 2 ^ 24 }
{
    let first = activity_of(slot1);
    let second = activity_of(slot2);
    let opcode = if first.code == NO_ACTIVITY && second.code == NO_ACTIVITY {
        NULL_MESSAGE
    } else {
        ACTIVITY_UPDATE
    };
    let body = u32::from(first.code) * 0x10_0000
        + u32::from(second.code) * 0x1_0000
        + u32::from(first.hash) * 0x100
        + u32::from(second.hash);
    (opcode, body)
}
