//! Bursts of a downlink that are repeated.
ghost use Rattle.std.specs.Prelude.{◌≡◌, ◌+◌, ◌-◌, ◌^◌, ◌<◌};
ghost use Rattle.dmr_dmrd_export.specs.Repeats as spec;

use dmr_link::FullLc;
use dmr_listing::{AccessType, BurstLine, Contents, RecordingView, VoicePlace};
use dmr_log::{ControlKind, Repeated, data_told};
use dmr_reading::Reading;
use dmr_recording::RecordedBurst;

/// A burst of a downlink that is repeated.
#[derive(Clone, Copy, Drop)]
pub(crate) struct RepeatedBurst {
    /// What a listing shows of it.
    pub(crate) line: BurstLine,
    /// Its octets.
    pub(crate) octets: [u8; 33],
}

/// What a burst is, as a packet tells it.
#[derive(Clone, Copy)]
pub(crate) enum SentKind {
    /// A voice burst, by its place in a superframe, where that is known.
    Voice(Option<VoicePlace>),
    /// A data burst, by its data type.
    Data(u8),
}

/// The data type that stands for one that can't be read. It is reserved: ETSI TS 102 361-1, clause 9.3.6.
const UNREAD_TYPE: u8 = 15;

/// Whether a CACH says that the burst behind it is repeated.
fn is_marked(access_type: Option<AccessType>) -> bool
    ensures value { result ≡ spec.is_marked access_type }
{
    matches!(access_type, Some(AccessType::Busy))
}

/// The burst that is repeated in the next slot of a downlink, if one is.
pub(crate) fn next_repeated(
    view: &mut RecordingView,
    slot: &Option<RecordedBurst>,
) -> Option<RepeatedBurst>
    requires room { view.old.slots < 2 ^ 32 - 1 }
    ensures next { spec.IsRepeatedNext view.old slot.now result view.new }
    ensures slots { view.new.slots ≡ view.old.slots + 1 }
{
    match slot {
        None => {
            view.pass();
            None
        }
        Some(recorded) => {
            let line = view.line(recorded);
            if is_marked(line.access_type) {
                let octets = recorded.burst;
                Some(RepeatedBurst { line, octets })
            } else {
                None
            }
        }
    }
}

/// The link control that a data burst holds, or else that of the headers in front of it.
fn own_or_headers(contents: Option<Contents>, headers: Option<FullLc>) -> Option<FullLc>
    ensures value { result ≡ spec.own_or_headers contents headers }
{
    match contents {
        Some(Contents::LinkControl(link_control)) => Some(link_control),
        _ => headers,
    }
}

impl RepeatedBurst {
    /// What it is to a log. `headers` is the link control of the call of which headers alone came so far.
    pub(crate) fn told(&self, headers: Option<FullLc>) -> Repeated
        ensures value { result ≡ spec.told_by_line headers self.now.line }
    {
        let contents = self.line.contents;
        match self.line.reading {
            Reading::Data(_, slot_type, _) => {
                data_told(slot_type.kind, own_or_headers(contents, headers), contents)
            }
            Reading::Untyped(_) => Repeated::Control(ControlKind::DataType(UNREAD_TYPE)),
            Reading::VoiceSync(_) | Reading::Voice(_) | Reading::Unreadable => Repeated::Place {
                link_control: None,
                is_filled: false,
            },
        }
    }

    /// What its packet tells that it is.
    pub(crate) fn kind(&self) -> SentKind
        ensures value { result ≡ spec.kind_of_line self.now.line }
    {
        match self.line.reading {
            Reading::Data(_, slot_type, _) => SentKind::Data(slot_type.kind),
            Reading::Untyped(_) => SentKind::Data(UNREAD_TYPE),
            Reading::VoiceSync(_) | Reading::Voice(_) | Reading::Unreadable => {
                SentKind::Voice(self.line.voice_place)
            }
        }
    }
}

/// The link control that a listing shows where this burst is repeated.
pub(crate) fn carried_with(burst: &Option<RepeatedBurst>) -> Option<FullLc>
    ensures value { result ≡ spec.carried_with burst.now }
{
    match burst {
        Some(burst) => burst.line.link_control,
        None => None,
    }
}
