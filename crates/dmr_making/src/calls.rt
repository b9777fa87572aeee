//! The bursts of a call, slot by slot.
ghost use Rattle.std.specs.Prelude.{◌≡◌, ◌<◌, ◌≤◌, ◌+◌, ◌%◌, ℕ, List, Bool, Option, Some, IfSome, length, slice_index_or};
ghost use Rattle.std.specs.Prelude.{slice_get};
ghost use Rattle.dmr_hearing.specs.Fit.{IsFitLc};
ghost use Rattle.dmr_making.specs.Calls as spec;
ghost use Rattle.dmr_making.specs.Calls.{AreFieldsOf, AreFormsOf, CallForms};
ghost use Rattle.dmr_making.specs.Fit.{IsFitCall};
ghost use Rattle.dmr_burst.specs.declared.burst.Burst.TheVariants as burst;
ghost use Rattle.dmr_making.specs.Made.{IsMade, IsMobileBurst, vocoder_of_frame};
ghost use Rattle.dmr_making.specs.Standing.{HoldsAt};
ghost use Rattle.dmr_making.specs.Places.{place_number, full_slots, lcss_with, IsFitVoice};

use crate::bursts::{lc_burst, pi_header_burst, sync_burst, voice_burst};
use dmr_burst::{Emb, lcss};
use dmr_embedded::embed;
use dmr_link::{FullLc, LcUse};
use dmr_script::{Call, CallStart, Carried, HeaderKind, Headers, Place};

/// What all voice bursts of a frame have in common.
#[derive(Clone, Copy)]
struct Voice {
    /// The colour code.
    colour: u8,
    /// PI of their EMB.
    pi: bool,
    /// The number of the frame.
    frame: u32,
}

/// What the superframe with this number carries, counted from 0.
fn carried_by(call: &Call, number: usize) -> Option<FullLc>
    requires fit { IsFitCall call.now }
    ensures value { result ≡ spec.carried_by call.now.link_control call.now.carried.items number }
    ensures fit { IsFitLc result }
{
    if call.carried.is_empty() {
        return Some(call.link_control);
    }
    match call.carried[number % call.carried.len()] {
        Carried::Own => Some(call.link_control),
        Carried::Nothing => None,
        Carried::LinkControl(lc) => Some(lc),
    }
}

/// The four embedded fields of what a superframe carries.
fn fields_of(carried: Option<FullLc>) -> [u32; 4]
    requires fit { IsFitLc carried }
    ensures fields { AreFieldsOf carried result }
{
    match carried {
        None => [0; 4],
        Some(lc) => embed(&lc.octets()),
    }
}

/// The place of a superframe with this number, counted from 0.
fn place_of(number: usize) -> Place
    requires inside { number < 6 }
    ensures number { place_number result ≡ number }
{
    match number {
        0 => Place::A,
        1 => Place::B,
        2 => Place::C,
        3 => Place::D,
        4 => Place::E,
        _ => Place::F,
    }
}

/// The LCSS of a place that has this fragment of what its superframe carries, or none.
fn lcss_with(carried: Option<FullLc>, fragment: u8) -> u8
    requires fit { fragment < 4 }
    ensures fit { result < 4 }
    ensures value { result ≡ lcss_with carried fragment }
{
    match carried {
        None => lcss::SINGLE_FRAGMENT,
        Some(_) => fragment,
    }
}

/// The burst of a place that has this fragment and this field of what its superframe carries.
fn fragment_burst(voice: Voice, carried: Option<FullLc>, fragment: u8, place: usize) -> [u8; 33]
    requires voice { IsFitVoice voice }
    requires fragment { fragment < 4 }
    requires place { place < 4 }
    requires fit { IsFitLc carried }
    ensures burst { (fields : List ℕ) → AreFieldsOf carried fields → IsMobileBurst (burst.Voice
        (record { colour = voice.colour; pi = voice.pi; lcss = lcss_with carried fragment })
        (slice_index_or fields place 0) (vocoder_of_frame voice.frame)) result }
{
    let emb = Emb {
        colour: voice.colour,
        pi: voice.pi,
        lcss: lcss_with(carried, fragment),
    };
    voice_burst(emb, fields_of(carried)[place], voice.frame)
}

/// The burst of a place that is there.
fn place_burst(voice: Voice, carried: Option<FullLc>, place: Place) -> [u8; 33]
    requires voice { IsFitVoice voice }
    requires fit { IsFitLc carried }
    ensures burst { (fields : List ℕ) → AreFieldsOf carried fields
        → HoldsAt (λ slot. IsMade voice.colour voice.frame slot (Some result))
        (full_slots voice.colour voice.pi carried fields) (place_number place) }
{
    match place {
        Place::A => sync_burst(voice.frame),
        Place::B => fragment_burst(voice, carried, lcss::FIRST_FRAGMENT, 0),
        Place::C => fragment_burst(voice, carried, lcss::CONTINUATION_FRAGMENT, 1),
        Place::D => fragment_burst(voice, carried, lcss::CONTINUATION_FRAGMENT, 2),
        Place::E => fragment_burst(voice, carried, lcss::LAST_FRAGMENT, 3),
        Place::F => last_burst(voice),
    }
}

/// The burst of F, the last place, which carries nothing.
fn last_burst(voice: Voice) -> [u8; 33]
    requires voice { IsFitVoice voice }
    ensures burst { IsMobileBurst (burst.Voice (record { colour = voice.colour; pi = voice.pi; lcss = 0 }) 0
        (vocoder_of_frame voice.frame)) result }
{
    let emb = Emb {
        colour: voice.colour,
        pi: voice.pi,
        lcss: lcss::SINGLE_FRAGMENT,
    };
    voice_burst(emb, 0, voice.frame)
}

/// Whether a place is there. There is none past the last.
fn presence(places: &[bool], place: usize) -> Option<bool>
    ensures value { result ≡ slice_get places.now place }
{
    places.get(place).copied()
}

/// The header in a place behind the first. There is none past the last.
fn header_at(headers: &[HeaderKind], place: usize) -> Option<HeaderKind>
    ensures value { result ≡ slice_get headers.now place }
{
    headers.get(place).copied()
}

/// What goes out in a place of the voice from the first A on, counted from 0, and behind it.
fn voice_slot(colour: u8, call: &Call, place: usize, frame: u32) -> Option<[u8; 33]>
    requires colour { colour < 16 }
    requires frame { frame < 1048576 }
    requires fit { IsFitCall call.now }
    ensures slot { (forms : CallForms) → AreFormsOf call.now forms
        → HoldsAt (λ slot. IsMade colour frame slot result) (spec.voice_slots colour call.now forms) place }
{
    match presence(&call.shape.places, place) {
        None => Some(lc_burst(colour, LcUse::Terminator, &call.link_control)),
        Some(false) => None,
        Some(true) => {
            let voice = Voice {
                colour,
                pi: call.pi,
                frame,
            };
            let carried = carried_by(call, place / 6);
            Some(place_burst(voice, carried, place_of(place % 6)))
        }
    }
}

/// What goes out in front of the first A of a call that comes in late.
fn tail_slot(colour: u8, call: &Call, tail: &[bool], place: usize, frame: u32) -> Option<[u8; 33]>
    requires colour { colour < 16 }
    requires frame { frame < 1048576 }
    requires fit { IsFitCall call.now }
    requires five { length tail.now ≤ 5 }
    requires inside { place < length tail.now }
    ensures slot { (forms : CallForms) → AreFormsOf call.now forms
        → HoldsAt (λ slot. IsMade colour frame slot result) (spec.tail_slots colour call.now forms tail.now) place }
{
    if !tail[place] {
        return None;
    }
    let voice = Voice {
        colour,
        pi: call.pi,
        frame,
    };
    let letter = place_of(6 - tail.len() + place);
    Some(place_burst(voice, Some(call.link_control), letter))
}

/// A header of a call, the first or one behind it.
fn call_header(colour: u8, call: &Call, kind: HeaderKind) -> [u8; 33]
    requires colour { colour < 16 }
    requires fit { IsFitCall call.now }
    ensures slot { (frame : ℕ) (forms : CallForms) → AreFormsOf call.now forms
        → IsMade colour frame (spec.header_slot call.now forms kind) (Some result) }
{
    match kind {
        HeaderKind::Voice => lc_burst(colour, LcUse::Header, &call.link_control),
        HeaderKind::Privacy => pi_header_burst(colour, &call.key),
    }
}

/// What goes out in a slot of a call that begins with headers.
fn headed_slot(
    colour: u8,
    call: &Call,
    headers: &Headers,
    place: usize,
    frame: u32,
) -> Option<[u8; 33]>
    requires colour { colour < 16 }
    requires frame { frame < 1048576 }
    requires fit { IsFitCall call.now }
    ensures slot { (forms : CallForms) → AreFormsOf call.now forms
        → HoldsAt (λ slot. IsMade colour frame slot result) (spec.headed_slots colour call.now forms headers.now) place }
{
    if place == 0 {
        return Some(call_header(colour, call, HeaderKind::Voice));
    }
    if let Some(kind) = header_at(&headers.more, place - 1) {
        return Some(call_header(colour, call, kind));
    }
    let behind = place - 1 - headers.more.len();
    let silences = silences_behind(call, headers);
    if behind < silences {
        return None;
    }
    voice_slot(colour, call, behind - silences, frame)
}

/// How many silences stand between headers and voice: none where there is no voice.
fn silences_behind(call: &Call, headers: &Headers) -> usize
    ensures value { result ≡ spec.silences_behind call.now.shape.places.items headers.now }
{
    if call.shape.places.is_empty() {
        0
    } else {
        usize::from(headers.silences)
    }
}

/// What goes out in a slot of a call that comes in late, behind these places in front of its first A.
fn late_slot(colour: u8, call: &Call, tail: &[bool], place: usize, frame: u32) -> Option<[u8; 33]>
    requires colour { colour < 16 }
    requires frame { frame < 1048576 }
    requires fit { IsFitCall call.now }
    requires five { length tail.now ≤ 5 }
    ensures slot { (forms : CallForms) → AreFormsOf call.now forms
        → HoldsAt (λ slot. IsMade colour frame slot result) (spec.late_slots colour call.now forms tail.now) place }
{
    if place < tail.len() {
        tail_slot(colour, call, tail, place, frame)
    } else {
        voice_slot(colour, call, place - tail.len(), frame)
    }
}

/// What goes out in a slot of a call, counted from 0.
pub(crate) fn call_slot(colour: u8, call: &Call, place: usize, frame: u32) -> Option<[u8; 33]>
    requires colour { colour < 16 }
    requires frame { frame < 1048576 }
    requires fit { IsFitCall call.now }
    ensures slot { (forms : CallForms) → AreFormsOf call.now forms
        → HoldsAt (λ slot. IsMade colour frame slot result) (spec.call_slots colour call.now forms) place }
{
    match &call.shape.start {
        CallStart::Headers(headers) => headed_slot(colour, call, headers, place, frame),
        CallStart::Late(tail) => late_slot(colour, call, tail, place, frame),
    }
}
