//! How many slots a transmission has.
ghost use Rattle.std.specs.Prelude.{◌≡◌, ◌<◌, ◌≤◌, sum, IfSome, IfNone, option_copied};
ghost use Rattle.dmr_making.specs.Calls as calls;
ghost use Rattle.dmr_planning.specs.Counting as spec;

use dmr_record::FRAME_LIMIT;
use dmr_script::{Again, Call, CallStart, Headers, PacketShape, PacketTry, Transmission};

/// The sum of some numbers, where it is no more than a recording has frames.
fn sum_of(parts: &[usize]) -> Option<u32>
    ensures value { IfSome result (λ n. n ≡ sum parts.now) }
    ensures few { IfSome result (λ n. n ≤ 1048576) }
    ensures many { IfNone result (1048576 < sum parts.now) }
{
    let mut left = FRAME_LIMIT;
    for part in parts {
        if *part > left as usize {
            return None;
        }
        left -= *part as u32;
    }
    Some(FRAME_LIMIT - left)
}

/// How many silences stand between headers and voice: none where there is no voice.
fn silences_behind(call: &Call, headers: &Headers) -> usize
    ensures value { result ≡ calls.silences_behind call.now.shape.places.items headers.now }
{
    if call.shape.places.is_empty() {
        0
    } else {
        usize::from(headers.silences)
    }
}

/// How many slots stand in front of the first A of a call.
fn before_voice(call: &Call) -> Option<u32>
    ensures value { IfSome result (λ n. n ≡ spec.before_voice call.now) }
    ensures few { IfSome result (λ n. n ≤ 1048576) }
    ensures many { IfNone result (1048576 < spec.before_voice call.now) }
{
    match &call.shape.start {
        CallStart::Headers(headers) => {
            sum_of(&[1, headers.more.len(), silences_behind(call, headers)])
        }
        CallStart::Late(tail) => sum_of(&[tail.len()]),
    }
}

/// How many slots a call has.
fn call_count(call: &Call) -> Option<u32>
    ensures value { IfSome result (λ n. n ≡ spec.call_count call.now) }
    ensures few { IfSome result (λ n. n ≤ 1048576) }
    ensures many { IfNone result (1048576 < spec.call_count call.now) }
{
    let front = before_voice(call)?;
    sum_of(&[
        front as usize,
        call.shape.places.len(),
        call.shape.terminators as usize,
    ])
}

/// How many slots a packet of this shape has.
fn shape_count(shape: &PacketShape) -> Option<u32>
    ensures value { IfSome result (λ n. n ≡ spec.shape_count shape.now) }
    ensures few { IfSome result (λ n. n ≤ 1048576) }
    ensures many { IfNone result (1048576 < spec.shape_count shape.now) }
{
    sum_of(&[usize::from(shape.preambles), 1, shape.blocks.len()])
}

/// How many slots a further try of a packet has.
fn again_count(packet: &PacketTry, again: &Again) -> Option<u32>
    ensures value { IfSome result (λ n. n ≡ spec.again_count packet.now again.now) }
    ensures few { IfSome result (λ n. n ≤ 1048576) }
    ensures many { IfNone result (1048576 < spec.again_count packet.now again.now) }
{
    match again {
        Again::Full(None) => sum_of(&[1, packet.shape.blocks.len()]),
        Again::Full(Some(shape)) => shape_count(shape),
        Again::Partial(partial) => shape_count(&partial.shape),
    }
}

/// How many slots a transmission has, where that is no more than a recording has. `last` is the packet that it may try again.
pub(crate) fn slot_count(transmission: &Transmission, last: Option<&PacketTry>) -> Option<u32>
    ensures value { IfSome result (λ n. n ≡ spec.slot_count transmission.now (option_copied last.entry)) }
    ensures few { IfSome result (λ n. n ≤ 1048576) }
    ensures many { IfNone result (1048576 < spec.slot_count transmission.now (option_copied last.entry)) }
{
    match transmission {
        Transmission::Call(call) => call_count(call),
        Transmission::Packet(packet) => shape_count(&packet.shape),
        Transmission::Again(again) => match last {
            None => Some(0),
            Some(packet) => again_count(packet, again),
        },
        Transmission::ShortData(short) => shape_count(&short.shape),
        Transmission::Status(status) => shape_count(&status.shape),
        Transmission::Answer(answer) => shape_count(&answer.shape),
        Transmission::Control(_) | Transmission::Burst(_) => Some(1),
    }
}
