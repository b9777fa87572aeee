//! What a picture shows of a slot of a frame.
use dmr_log::{Came, Repeated, SlotTold, Subject};

/// What a picture shows of a slot of a frame.
#[derive(Clone, Copy, Debug, PartialEq, Eq, Drop)]
pub(crate) enum FrameKind {
    /// What stands in front of the voice of a call, or a terminator behind it.
    Header,
    /// A place of a call, as it came in.
    Voice,
    /// A place of a call, which the repeater has filled.
    Filled,
    /// A preamble, the header or a block of a packet.
    Packet,
    /// A block of a packet which didn't come.
    LostBlock,
    /// A control block.
    Control,
    /// A burst that isn't repeated.
    NotRepeated,
    /// A burst that can't be read.
    Unreadable,
}

/// What is shown of a frame in which nothing is repeated, by what came.
fn of_silence(came: Came) -> Option<FrameKind> {
    match came {
        Came::Silence => None,
        Came::Burst => Some(FrameKind::NotRepeated),
        Came::Unreadable => Some(FrameKind::Unreadable),
    }
}

impl FrameKind {
    /// What is shown of a slot of which this is told, if anything. A frame of a transmission is shown as that, whatever came in it.
    pub(crate) fn of_told(told: &SlotTold) -> Option<FrameKind> {
        let is_of_packet = match &told.current {
            Some(transmission) => matches!(transmission.subject, Subject::Packet(_)),
            None => false,
        };
        match told.repeated {
            Repeated::Nothing if is_of_packet => Some(FrameKind::LostBlock),
            Repeated::Nothing => of_silence(told.came),
            Repeated::CallHeader(_) | Repeated::Terminator(_) => Some(FrameKind::Header),
            Repeated::Place {
                is_filled: true,
                ..
            } => Some(FrameKind::Filled),
            Repeated::Place { .. } => Some(FrameKind::Voice),
            _ if is_of_packet => Some(FrameKind::Packet),
            _ => Some(FrameKind::Control),
        }
    }

    /// The colour of its bars.
    pub(crate) fn colour(self) -> &'static str {
        match self {
            FrameKind::Header => "#173f6b",
            FrameKind::Voice => "#2f6fb2",
            FrameKind::Filled => "#b9d3ee",
            FrameKind::Packet => "#2e8b57",
            FrameKind::LostBlock => "#bfe3cd",
            FrameKind::Control => "#c77700",
            FrameKind::NotRepeated => "#c9c9c9",
            FrameKind::Unreadable => "#b3261e",
        }
    }

    /// What the legend calls it.
    pub(crate) fn name(self) -> &'static str {
        match self {
            FrameKind::Header => "header, terminator",
            FrameKind::Voice => "voice",
            FrameKind::Filled => "filled",
            FrameKind::Packet => "packet",
            FrameKind::LostBlock => "lost block",
            FrameKind::Control => "control",
            FrameKind::NotRepeated => "not repeated",
            FrameKind::Unreadable => "unreadable",
        }
    }
}
