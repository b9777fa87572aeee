//! Where a slot stands behind its transmissions, and which silences it needs.
ghost use Rattle.std.specs.Prelude.{◌≡◌, ◌≤◌, IfOk, IfErr};
ghost use Rattle.dmr_making.specs.Senders as senders;
ghost use Rattle.dmr_planning.specs.Pauses as spec;

use dmr_record::FRAME_LIMIT;
use dmr_script::{CallShape, CallStart, Refusal, Sender, Transmission, Transmit};

/// What stands in front in a slot, by the silences that it needs behind it.
#[derive(Clone, Copy, Debug, Drop, PartialEq, Eq)]
pub enum Before {
    /// Nothing yet.
    Nothing,
    /// A call that ends in silence.
    SilencedCall,
    /// Headers alone that end in silence.
    SilencedHeaders,
    /// Data bursts in a row, with this colour code.
    Row(u8),
    /// Any other transmission.
    Other,
}

/// Where a slot stands.
#[derive(Clone, Copy, Debug, Drop, PartialEq, Eq)]
pub struct SlotState {
    /// The frame behind the last transmission.
    pub end: u32,
    /// How many silences are named behind it, and `None` where none are.
    pub silences: Option<u32>,
    /// What the last transmission is.
    pub before: Before,
    /// The line of the last transmission.
    pub line: u64,
    /// Which statement says the last confirmed packet, counted from 0.
    pub packet: Option<usize>,
}

/// The colour code that is sent with.
fn colour_of(own: u8, sender: Sender) -> u8
    ensures value { result ≡ senders.colour_of own sender }
{
    match sender {
        Sender::Own => own,
        Sender::Foreign(colour) => colour,
    }
}

/// What an own call of this shape is to what stands behind it.
fn before_behind_call(shape: &CallShape) -> Before
    ensures value { result ≡ spec.before_behind_call shape.now }
{
    if shape.terminators > 0 {
        return Before::Other;
    }
    match &shape.start {
        CallStart::Headers(_) if shape.places.is_empty() => Before::SilencedHeaders,
        _ => Before::SilencedCall,
    }
}

/// What a transmission is to what stands behind it.
pub(crate) fn before_behind(own: u8, transmit: &Transmit) -> Before
    ensures value { result ≡ spec.before_behind own transmit.now }
{
    match (&transmit.transmission, transmit.sender) {
        (Transmission::Control(_) | Transmission::Burst(_), sender) => {
            Before::Row(colour_of(own, sender))
        }
        (Transmission::Call(call), Sender::Own) => before_behind_call(&call.shape),
        _ => Before::Other,
    }
}

/// Whether a transmission begins with a data burst of the own colour code.
fn begins_with_data(transmit: &Transmit) -> bool
    ensures value { result ≡ spec.begins_with_data transmit.now }
{
    match (transmit.sender, &transmit.transmission) {
        (Sender::Foreign(_), _) => false,
        (Sender::Own, Transmission::Call(call)) => match &call.shape.start {
            CallStart::Headers(_) => true,
            CallStart::Late(_) => false,
        },
        (Sender::Own, _) => true,
    }
}

/// Whether a transmission goes on with a row of this colour code.
fn is_row(colour: u8, next: Before) -> bool
    ensures value { result ≡ spec.is_row colour next }
{
    match next {
        Before::Row(next) => colour == next,
        _ => false,
    }
}

/// The fewest silences in front of a transmission behind a row, by the silences that are named between them.
fn needed_in_row(colour: u8, silences: Option<u32>, next: Before) -> u32
    ensures value { result ≡ spec.needed_in_row colour silences next }
    ensures few { result ≤ 6 }
{
    match silences {
        None => if is_row(colour, next) { 0 } else { 1 },
        Some(_) => 1,
    }
}

impl SlotState {
    /// A slot with nothing in it.
    pub(crate) fn empty() -> SlotState
        ensures value { result ≡ spec.empty_slot }
    {
        SlotState {
            end: 0,
            silences: None,
            before: Before::Nothing,
            line: 0,
            packet: None,
        }
    }

    /// The frame at which the slot stands.
    pub(crate) fn stands(self) -> u32
        requires within { spec.stands self ≤ 1048576 }
        ensures value { result ≡ spec.stands self }
    {
        self.end + self.silences.unwrap_or(0)
    }

    /// So many silences more.
    pub(crate) fn silenced(self, count: u32) -> Result<SlotState, Refusal>
        requires within { spec.stands self ≤ 1048576 }
        ensures value { result ≡ spec.silenced self count }
        ensures within { IfOk result (λ s. spec.stands s ≤ 1048576) }
    {
        if count > FRAME_LIMIT - self.stands() {
            return Err(Refusal::TooLong);
        }
        Ok(SlotState {
            silences: Some(self.silences.unwrap_or(0) + count),
            ..self
        })
    }

    /// Silences up to a frame.
    pub(crate) fn silenced_to(self, frame: u32) -> Result<SlotState, Refusal>
        requires within { spec.stands self ≤ 1048576 }
        ensures value { result ≡ spec.silenced_to self frame }
        ensures within { IfOk result (λ s. spec.stands s ≤ 1048576) }
    {
        let at = self.stands();
        if frame < at {
            return Err(Refusal::FramePassed { frame, at });
        }
        self.silenced(frame - at)
    }

    /// The fewest silences that may stand in front of a transmission.
    pub(crate) fn needed(self, own: u8, transmit: &Transmit) -> u32
        ensures value { result ≡ spec.needed self own transmit.now }
        ensures few { result ≤ 6 }
    {
        match self.before {
            Before::Nothing => 0,
            Before::SilencedCall => 6,
            Before::SilencedHeaders => if begins_with_data(transmit) { 1 } else { 6 },
            Before::Row(colour) => needed_in_row(
                colour,
                self.silences,
                before_behind(own, transmit),
            ),
            Before::Other => 1,
        }
    }

    /// The slot with enough silences in front of a transmission: those that are named, or else the fewest.
    pub(crate) fn paused(self, needed: u32) -> Result<SlotState, Refusal>
        requires within { spec.stands self ≤ 1048576 }
        ensures value { result ≡ spec.paused self needed }
        ensures within { IfOk result (λ s. spec.stands s ≤ 1048576) }
    {
        match self.silences {
            None => self.silenced(needed),
            Some(found) if found < needed => Err(Refusal::FewSilences {
                found,
                needed,
                behind: self.line,
            }),
            Some(_) => Ok(self),
        }
    }
}
