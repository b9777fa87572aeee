//! The gateway with which a log listens.
ghost use Rattle.std.specs.Prelude.{◌≡◌};
ghost use Rattle.dmr_log.specs.Ears as spec;

use dmr_burst::Burst;
use dmr_gateway::{Gateway, Received};

/// What a gateway has received in a frame, slot 1's first, and of a slot its status first: at most a status and a packet in each.
/// What there isn't stands at the end.
pub type FrameReceived = [Option<Received>; 4];

/// Nothing was received.
pub(crate) const NOTHING_RECEIVED: FrameReceived = [None, None, None, None];

/// Takes all records that a gateway has received.
#[tactic(auto, using(crate::proofs::Taken::all_taken))]
fn take_all(gateway: &mut Gateway) -> FrameReceived
    ensures received { result ≡ spec.taken_of gateway.old }
    ensures gateway { gateway.new ≡ spec.gateway_emptied gateway.old }
{
    let first = gateway.take_received();
    let second = gateway.take_received();
    let third = gateway.take_received();
    let fourth = gateway.take_received();
    [first, second, third, fourth]
}

/// A gateway hears what both slots repeat in a frame.
fn hear_frame(gateway: &mut Gateway, slot_1: &Option<Burst>, slot_2: &Option<Burst>)
    ensures heard { spec.HearsFrame slot_1.now slot_2.now gateway.old gateway.new }
{
    gateway.heard(1, slot_1.as_ref());
    gateway.heard(2, slot_2.as_ref());
}

/// Takes what a log's gateway received in the frame before, where it has one, and lets it hear what both slots repeat in the next.
pub(crate) fn listen(
    gateway: &mut Option<Gateway>,
    slot_1: &Option<Burst>,
    slot_2: &Option<Burst>,
) -> FrameReceived
    ensures listens { spec.ListensOn gateway.old slot_1.now slot_2.now result gateway.new }
{
    match gateway {
        None => NOTHING_RECEIVED,
        Some(gateway) => {
            let received = take_all(gateway);
            hear_frame(gateway, slot_1, slot_2);
            received
        }
    }
}

/// Takes what a log's gateway received in its last frame, where it has one.
pub(crate) fn take_last(gateway: &mut Option<Gateway>) -> FrameReceived
    ensures received { result ≡ spec.received_last gateway.old }
{
    match gateway {
        None => NOTHING_RECEIVED,
        Some(gateway) => take_all(gateway),
    }
}
