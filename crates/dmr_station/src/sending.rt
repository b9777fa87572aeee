//! The octets of what a slot of the downlink sends.
ghost use Rattle.std.specs.Prelude.{◌≡◌, ◌≤◌, ◌<◌, ◌^◌, ◌+◌, None, IfSome, All, map, option_copied};
ghost use Rattle.dmr_burst.specs.Burst.{IsBurst};
ghost use Rattle.dmr_station.specs.Announced.{IsFitMessage};
ghost use Rattle.dmr_station.specs.DownlinkRules.{repeated_count};
ghost use Rattle.dmr_station.specs.DownlinkRules as spec;
ghost use Rattle.dmr_station.specs.Sent.{AreSentAs, IsSentAs};
ghost use Rattle.dmr_station.specs.StationRules.{marked, marked_slots};
ghost use Rattle.dmr_station.specs.declared.announcing.Message.{Message};

use crate::announcing::Message;
use crate::fragments::Fragments;
use dmr_burst::{Burst, Side, clear, encode_burst};
use dmr_slot::SlotOut;

/// The octets of a slot that sends this burst, which is the record at this place of the downlink, counted from 0. Its CACH tells
/// whether its line repeats a burst, and carries a fragment of the message. They go to a place that is there.
fn encode_slot(
    place: u32,
    message: Message,
    out: &SlotOut,
    burst: Option<&Burst>,
    fragments: &mut Fragments,
    encoded: &mut Option<([u8; 3], [u8; 33])>,
)
    requires message { IsFitMessage message }
    requires fits { IfSome (option_copied burst) IsBurst }
    ensures sent { IsSentAs place (marked message out.now (option_copied burst.entry)) encoded.new }
{
    match burst {
        Some(burst) => {
            fragments.take(message);
            let cach = fragments.cach(out.repeated.is_some(), place);
            *encoded = Some((cach, encode_burst(burst, Side::Bs)));
        }
        None => clear(encoded),
    }
}

/// The octets of both slots of a frame that send these bursts, the first of which is the record at this place. The fragments are
/// those of the message that went out last.
pub(crate) fn encode_frame(
    place: u32,
    message: Message,
    outs: &[SlotOut; 2],
    bursts: &[Option<&Burst>; 2],
    fragments: &mut Fragments,
    records: &mut [Option<([u8; 3], [u8; 33])>; 2],
)
    requires message { IsFitMessage message }
    requires fit { All (λ burst. IfSome burst IsBurst) (map option_copied bursts.now) }
    requires room { place + 1 < 2 ^ 32 }
    ensures sent { AreSentAs place (marked_slots message outs.now (map option_copied bursts.now)) records.new }
{
    encode_slot(
        place,
        message,
        &outs[0],
        bursts[0],
        fragments,
        &mut records[0],
    );
    encode_slot(
        place + 1,
        message,
        &outs[1],
        bursts[1],
        fragments,
        &mut records[1],
    );
}

/// Whether a slot sends a repeated burst.
fn is_repeated(out: &SlotOut, burst: Option<&Burst>) -> bool
    ensures value { (message : Message) → result ≡ spec.is_repeated (marked message out.now (option_copied burst.entry)) }
{
    out.repeated.is_some() && burst.is_some()
}

/// How many slots of a frame repeat a burst.
pub(crate) fn count_repeated(outs: &[SlotOut; 2], bursts: &[Option<&Burst>; 2]) -> u32
    ensures value { (message : Message) → result ≡ repeated_count (marked_slots message outs.now (map option_copied bursts.now)) }
    ensures bound { result ≤ 2 }
{
    u32::from(is_repeated(&outs[0], bursts[0])) + u32::from(is_repeated(&outs[1], bursts[1]))
}
