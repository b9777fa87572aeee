//! What the columns of a log hold.
ghost use Rattle.std.specs.Prelude.{◌≡◌};
ghost use Rattle.dmr_log_forms.specs.Columns as spec;

use crate::kind::EntryKind;
use dmr_link::{CallKind, FullLc};
use dmr_listing::Way;
use dmr_log::{Call, CallStage, Checks, ControlKind, Ended, EndedBy, Packet, Span, Subject};
use dmr_record::ReceivedKind;
use dmr_recording::Place;

/// How long a frame takes, in milliseconds. ETSI TS 102 361-1, clause 4.2.2.
const FRAME_MILLISECONDS: u64 = 60;

/// How a call ended.
#[derive(Clone, Copy, Debug, PartialEq, Eq, Drop)]
pub enum CallEnd {
    /// With a terminator.
    Terminator,
    /// Nothing is repeated behind it.
    Lost,
    /// Another burst is repeated behind it.
    Cut,
    /// The recording ends in it.
    End,
}

/// What the columns of a line hold. What there isn't of a transmission, or of a received record, is `None`.
#[derive(Clone, Copy, Drop)]
pub struct EntryColumns {
    /// Where it begins.
    pub place: Place,
    /// How long it takes, in milliseconds.
    pub milliseconds: u64,
    /// What it is.
    pub kind: EntryKind,
    /// Who sends it to whom.
    pub way: Option<Way>,
    /// The octet of service options of a call.
    pub options: Option<u8>,
    /// Whether the header of a call didn't come in.
    pub is_late: Option<bool>,
    /// In how many frames a burst is repeated.
    pub bursts: Option<u32>,
    /// How many places a call has.
    pub places: Option<u32>,
    /// How many of them were filled.
    pub filled: Option<u32>,
    /// How many blocks of a packet came.
    pub blocks: Option<u8>,
    /// How many others its header counts, which didn't come.
    pub missing: Option<u8>,
    /// How many bits are wrong.
    pub checks: Option<Checks>,
    /// How a call ended.
    pub end: Option<CallEnd>,
}

/// Who calls whom, by the link control of a call.
fn way_of_call(link_control: &FullLc) -> Option<Way>
    ensures value { result ≡ spec.way_of_call link_control.now }
{
    let call = link_control.voice()?;
    Some(Way {
        source: call.source,
        to_group: matches!(call.kind, CallKind::Group),
        destination: call.target,
    })
}

/// The service options, by the link control of a call.
fn options_of_call(link_control: &FullLc) -> Option<u8>
    ensures value { result ≡ spec.options_of_call link_control.now }
{
    let call = link_control.voice()?;
    Some(call.options.0)
}

/// Who sends control blocks to whom.
fn way_of_controls(kind: &ControlKind) -> Option<Way>
    ensures value { result ≡ spec.way_of_controls kind.now }
{
    match *kind {
        ControlKind::Preamble {
            source,
            to_group,
            destination,
        } => Some(Way {
            source,
            to_group,
            destination,
        }),
        ControlKind::Activation {
            source,
            base_station,
        } => Some(Way {
            source,
            to_group: false,
            destination: base_station,
        }),
        ControlKind::Csbk { .. } | ControlKind::DataType(_) => None,
    }
}

impl CallEnd {
    /// How a call ended that has come so far, by what ended it.
    fn of_call(stage: &CallStage, by: EndedBy) -> CallEnd
        ensures value { result ≡ spec.call_end stage.now by }
    {
        match (stage, by) {
            (CallStage::Terminated(_), _) => CallEnd::Terminator,
            (_, EndedBy::Nothing) => CallEnd::Lost,
            (_, EndedBy::Burst) => CallEnd::Cut,
            (_, EndedBy::Recording) => CallEnd::End,
        }
    }
}

impl EntryColumns {
    /// What a line has at least: where it begins, how long it takes, what it is, and who sends it to whom.
    fn of_kind(place: Place, frames: u32, kind: EntryKind, way: Option<Way>) -> EntryColumns
        ensures value { result ≡ spec.of_kind place frames kind way }
    {
        EntryColumns {
            place,
            milliseconds: FRAME_MILLISECONDS * u64::from(frames),
            kind,
            way,
            options: None,
            is_late: None,
            bursts: None,
            places: None,
            filled: None,
            blocks: None,
            missing: None,
            checks: None,
            end: None,
        }
    }

    /// What every transmission has, of these frames of a slot.
    fn of_span(slot: u8, span: &Span, kind: EntryKind, way: Option<Way>) -> EntryColumns
        ensures value { result ≡ spec.of_span slot span.now kind way }
    {
        let frame = span.first;
        EntryColumns {
            bursts: Some(span.bursts),
            checks: Some(span.checks),
            ..EntryColumns::of_kind(Place { frame, slot }, span.frames, kind, way)
        }
    }

    /// Those of a call.
    fn of_call(slot: u8, span: &Span, kind: EntryKind, call: &Call, by: EndedBy) -> EntryColumns
        ensures value { result ≡ spec.of_call slot span.now kind call.now by }
    {
        let way = match &call.link_control {
            Some(link_control) => way_of_call(link_control),
            None => None,
        };
        let options = match &call.link_control {
            Some(link_control) => options_of_call(link_control),
            None => None,
        };
        EntryColumns {
            options,
            is_late: Some(call.is_late),
            places: Some(call.places),
            filled: Some(call.filled),
            end: Some(CallEnd::of_call(&call.stage, by)),
            ..EntryColumns::of_span(slot, span, kind, way)
        }
    }

    /// Those of a packet.
    fn of_packet(slot: u8, span: &Span, kind: EntryKind, packet: &Packet) -> EntryColumns
        ensures value { result ≡ spec.of_packet slot span.now kind packet.now }
    {
        EntryColumns {
            blocks: Some(packet.there),
            missing: Some(packet.head.blocks().saturating_sub(packet.there)),
            ..EntryColumns::of_span(slot, span, kind, Some(packet.head.way()))
        }
    }

    /// Those of a transmission that has ended, in this slot.
    pub(crate) fn of_ended(slot: u8, ended: &Ended) -> EntryColumns
        ensures value { result ≡ spec.columns_of slot ended.now }
    {
        let span = &ended.transmission.span;
        let subject = &ended.transmission.subject;
        let kind = EntryKind::of_subject(subject);
        match subject {
            Subject::Call(call) => EntryColumns::of_call(slot, span, kind, call, ended.by),
            Subject::Packet(packet) => EntryColumns::of_packet(slot, span, kind, packet),
            Subject::Controls(controls) => {
                EntryColumns::of_span(slot, span, kind, way_of_controls(controls))
            }
        }
    }

    /// Those of a record that a gateway received in a place, at this address.
    pub(crate) fn of_received(
        place: Place,
        kind: ReceivedKind,
        source: u32,
        address: u32,
    ) -> EntryColumns
        ensures value { result ≡ spec.of_received place kind source address }
    {
        let way = Way {
            source,
            to_group: false,
            destination: address,
        };
        EntryColumns::of_kind(place, 1, EntryKind::Received(kind), Some(way))
    }
}
