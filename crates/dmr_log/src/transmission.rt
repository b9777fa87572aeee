//! Transmissions: which frames are one, and what is told of it.
ghost use Rattle.std.specs.Prelude.{◌≡◌, ◌↔◌, IsTrue};
ghost use Rattle.std.specs.Option.{option_or};
ghost use Rattle.dmr_log.specs.Transmissions as spec;

use crate::checks::Checks;
use crate::repeated::{ControlKind, PacketHead, Repeated};
use dmr_link::FullLc;

/// The frames of a transmission.
#[derive(Clone, Copy, Drop)]
pub struct Span {
    /// The first of them.
    pub first: u32,
    /// How many there are, from the first to the last.
    pub frames: u32,
    /// In how many of them a burst is repeated.
    pub bursts: u32,
    /// How many bits of the bursts that came in are wrong.
    pub checks: Checks,
}

/// How far a call has come.
#[derive(Clone, Copy, Drop)]
pub enum CallStage {
    /// Headers came, and no place.
    Headers,
    /// Places came, and no terminator.
    Places,
    /// A terminator with this link control came.
    Terminated(Option<FullLc>),
}

/// A voice call.
#[derive(Clone, Copy, Drop)]
pub struct Call {
    /// How far it has come.
    pub stage: CallStage,
    /// The first link control that is known of it.
    pub link_control: Option<FullLc>,
    /// It begins with a place: its header didn't come in.
    pub is_late: bool,
    /// How many places it has, those that were filled among them.
    pub places: u32,
    /// How many of its places were filled.
    pub filled: u32,
}

/// A packet, or one try of it.
#[derive(Clone, Copy, Drop)]
pub struct Packet {
    /// Its header.
    pub head: PacketHead,
    /// How many frames of blocks may come still.
    pub left: u8,
    /// How many blocks came.
    pub there: u8,
}

/// What a transmission is.
#[derive(Clone, Copy, Drop)]
pub enum Subject {
    Call(Call),
    Packet(Packet),
    /// Control blocks in a row that have this in common.
    Controls(ControlKind),
}

/// A transmission.
#[derive(Clone, Copy, Drop)]
pub struct Transmission {
    pub span: Span,
    pub subject: Subject,
}

/// What ended a transmission.
#[derive(Clone, Copy, Debug, PartialEq, Eq, Drop)]
pub enum EndedBy {
    /// Nothing is repeated behind it.
    Nothing,
    /// Another burst is repeated behind it.
    Burst,
    /// The recording ends in it.
    Recording,
}

/// A transmission that has ended.
#[derive(Clone, Copy, Drop)]
pub struct Ended {
    pub transmission: Transmission,
    pub by: EndedBy,
}

/// One more, as far as 32 bits go.
pub(crate) fn more(count: u32, is_one: bool) -> u32
    ensures value { result ≡ spec.plus_one is_one count }
{
    count.saturating_add(u32::from(is_one))
}

impl Repeated {
    /// Whether a burst is repeated.
    pub(crate) fn is_burst(&self) -> bool
        ensures value { result ≡ spec.is_burst self.now }
    {
        !matches!(self, Repeated::Nothing)
    }
}

impl CallStage {
    /// Whether no place came yet.
    fn is_before_voice(&self) -> bool
        ensures value { result ≡ spec.is_before_voice self.now }
    {
        matches!(self, CallStage::Headers)
    }

    /// Whether a terminator came.
    fn is_terminated(&self) -> bool
        ensures value { result ≡ spec.is_terminated self.now }
    {
        matches!(self, CallStage::Terminated(_))
    }
}

impl Subject {
    /// What a transmission is that begins with this, if one does.
    fn begun(repeated: &Repeated) -> Option<Subject>
        ensures value { result ≡ spec.begun_subject repeated.now }
    {
        match *repeated {
            Repeated::Nothing => None,
            Repeated::CallHeader(link_control) => Some(Subject::Call(Call {
                stage: CallStage::Headers,
                link_control,
                is_late: false,
                places: 0,
                filled: 0,
            })),
            Repeated::Place {
                link_control,
                is_filled,
            } => Some(Subject::Call(Call {
                stage: CallStage::Places,
                link_control,
                is_late: true,
                places: 1,
                filled: more(0, is_filled),
            })),
            Repeated::Terminator(link_control) => Some(Subject::Call(Call {
                stage: CallStage::Terminated(link_control),
                link_control,
                is_late: false,
                places: 0,
                filled: 0,
            })),
            Repeated::DataHeader(head) => Some(Subject::packet(head)),
            Repeated::Block(kind) => Some(Subject::Controls(ControlKind::DataType(kind))),
            Repeated::Control(kind) => Some(Subject::Controls(kind)),
        }
    }

    /// A packet of which the header came.
    fn packet(head: PacketHead) -> Subject
        ensures value { result ≡ spec.packet_of head }
    {
        Subject::Packet(Packet {
            head,
            left: head.blocks(),
            there: 0,
        })
    }

    /// Whether the next frame has what the transmission has in common: the link control of its terminators, what its control blocks
    /// have in common, or the way that its preambles announce.
    fn has_in_common(&self, repeated: &Repeated) -> bool
        ensures value { IsTrue result ↔ spec.HasInCommon self.now repeated.now }
    {
        match (self, repeated) {
            (Subject::Call(call), Repeated::Terminator(link_control)) => {
                matches!(call.stage, CallStage::Terminated(first) if first == *link_control)
            }
            (Subject::Controls(kind), Repeated::Control(next)) => kind == next,
            (Subject::Controls(kind), Repeated::Block(next)) => *kind
                == ControlKind::DataType(*next),
            (Subject::Controls(kind), Repeated::DataHeader(head)) => {
                *kind == ControlKind::announcing(head)
            }
            _ => false,
        }
    }

    /// Whether the next frame is of the transmission, where `same` says whether it has what that has in common.
    fn has(&self, repeated: &Repeated, same: bool) -> bool
        ensures value { result ≡ spec.belongs same self.now repeated.now }
    {
        match (self, repeated) {
            (Subject::Call(call), Repeated::CallHeader(_)) => call.stage.is_before_voice(),
            (Subject::Call(call), Repeated::Place { .. }) => !call.stage.is_terminated(),
            (Subject::Call(call), Repeated::Terminator(_)) => !call.stage.is_terminated() || same,
            (Subject::Packet(packet), Repeated::Nothing | Repeated::Block(_)) => packet.left > 0,
            (
                Subject::Controls(_),
                Repeated::Control(_) | Repeated::Block(_) | Repeated::DataHeader(_),
            ) => same,
            _ => false,
        }
    }

    /// What the transmission is with the next frame, which is of it.
    fn with(self, repeated: &Repeated) -> Subject
        ensures value { result ≡ spec.with self repeated.now }
    {
        match self {
            Subject::Call(call) => Subject::Call(call.with(repeated)),
            Subject::Packet(packet) => Subject::Packet(Packet {
                left: packet.left.saturating_sub(1),
                there: packet.there.saturating_add(u8::from(repeated.is_burst())),
                ..packet
            }),
            Subject::Controls(kind) => match repeated {
                Repeated::DataHeader(head) => Subject::packet(*head),
                _ => Subject::Controls(kind),
            },
        }
    }
}

impl Call {
    /// The first link control that is known of it, where the next frame has this one.
    fn first_known(&self, next: Option<FullLc>) -> Option<FullLc>
        ensures value { result ≡ option_or self.now.link_control next }
    {
        self.link_control.or(next)
    }

    /// The call with the next frame, which is of it.
    fn with(self, repeated: &Repeated) -> Call
        ensures value { result ≡ spec.call_with self repeated.now }
    {
        match *repeated {
            Repeated::CallHeader(link_control) => Call {
                link_control: self.first_known(link_control),
                ..self
            },
            Repeated::Place {
                link_control,
                is_filled,
            } => Call {
                stage: CallStage::Places,
                link_control: self.first_known(link_control),
                places: more(self.places, true),
                filled: more(self.filled, is_filled),
                ..self
            },
            Repeated::Terminator(link_control) => Call {
                stage: CallStage::Terminated(link_control),
                link_control: self.first_known(link_control),
                ..self
            },
            _ => self,
        }
    }
}

impl Span {
    /// One frame, which repeats a burst.
    fn of_frame(first: u32, checks: Checks) -> Span
        ensures value { result ≡ spec.one_frame first checks }
    {
        Span {
            first,
            frames: 1,
            bursts: 1,
            checks,
        }
    }

    /// These frames and the next one.
    fn with(self, repeated: &Repeated, checks: Checks) -> Span
        ensures value { result ≡ spec.span_with self repeated.now checks }
    {
        Span {
            first: self.first,
            frames: more(self.frames, true),
            bursts: more(self.bursts, repeated.is_burst()),
            checks: self.checks.and(checks),
        }
    }
}

/// The transmission that begins in a frame, if one does.
fn begun_in(frame: u32, repeated: &Repeated, checks: Checks) -> Option<Transmission>
    ensures value { result ≡ spec.begun_in frame repeated.now checks }
{
    match Subject::begun(repeated) {
        Some(subject) => Some(Transmission {
            span: Span::of_frame(frame, checks),
            subject,
        }),
        None => None,
    }
}

/// What ends a transmission behind which this comes.
fn ended_by(repeated: &Repeated) -> EndedBy
    ensures value { result ≡ spec.ended_by repeated.now }
{
    if repeated.is_burst() {
        EndedBy::Burst
    } else {
        EndedBy::Nothing
    }
}

/// Goes on from the transmission that is open, if one is, to that behind a frame which repeats this. It answers the transmission
/// that ended in front of the frame, if one did. The rule is this project's own.
pub fn go_on(
    current: &mut Option<Transmission>,
    frame: u32,
    repeated: &Repeated,
    checks: Checks,
) -> Option<Ended>
    ensures step { spec.IsStep current.old frame repeated.now checks result current.new }
{
    let Some(transmission) = *current else {
        *current = begun_in(frame, repeated, checks);
        return None;
    };
    let Transmission { span, subject } = transmission;
    let same = subject.has_in_common(repeated);
    if subject.has(repeated, same) {
        *current = Some(Transmission {
            span: span.with(repeated, checks),
            subject: subject.with(repeated),
        });
        return None;
    }
    *current = begun_in(frame, repeated, checks);
    Some(Ended {
        transmission,
        by: ended_by(repeated),
    })
}
