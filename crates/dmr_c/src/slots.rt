//! Slots as a host passes them.
ghost use Rattle.std.specs.Prelude.{◌≡◌, Some, None};
ghost use Rattle.dmr_c.specs.Slots.{AreZeroWhereSilent, IsZeroWhereSilent, burst_passed, downlink_given, record_given_in};
ghost use Rattle.dmr_c.specs.Slots.{uplink_passed};

use crate::values::{DownlinkSlot, UplinkSlot};
use dmr_station::{DownlinkFrame, UplinkFrame};

/// What is heard in a slot.
fn heard_in(slot: &UplinkSlot) -> Option<[u8; 33]>
    ensures value { result ≡ burst_passed slot.now }
{
    if slot.heard { Some(slot.burst) } else { None }
}

/// What is heard in both slots.
pub(crate) fn heard_in_both(slots: &[UplinkSlot; 2]) -> UplinkFrame
    ensures value { result ≡ uplink_passed slots.now }
{
    [heard_in(&slots[0]), heard_in(&slots[1])]
}

/// A slot that sends a CACH and a burst.
fn slot_with(cach: [u8; 3], burst: [u8; 33]) -> DownlinkSlot
    ensures value { record_given_in result ≡ Some (cach, burst) }
    ensures zeros { IsZeroWhereSilent result }
{
    DownlinkSlot {
        sent: true,
        cach,
        burst,
    }
}

/// A slot that sends nothing.
fn silent_slot() -> DownlinkSlot
    ensures value { record_given_in result ≡ None }
    ensures zeros { IsZeroWhereSilent result }
{
    let cach = [0; 3];
    let burst = [0; 33];
    DownlinkSlot {
        sent: false,
        cach,
        burst,
    }
}

/// A slot that sends this.
fn slot_of(sending: Option<([u8; 3], [u8; 33])>) -> DownlinkSlot
    ensures value { record_given_in result ≡ sending }
    ensures zeros { IsZeroWhereSilent result }
{
    match sending {
        Some(sent) => slot_with(sent.0, sent.1),
        None => silent_slot(),
    }
}

/// Both slots of a frame that sends this.
pub(crate) fn put_frame(slots: &mut [DownlinkSlot; 2], records: &DownlinkFrame)
    ensures value { downlink_given slots.new ≡ records.now }
    ensures zeros { AreZeroWhereSilent slots.new }
{
    *slots = [slot_of(records[0]), slot_of(records[1])];
}
