//! The transmissions of a slot, one behind another.
ghost use Rattle.std.specs.Prelude.{◌≡◌, ◌+◌, ◌≤◌, Ok, Err, All, IfOk, IfErr, OnOk, None};
ghost use Rattle.dmr_planning.specs.Halts.{IfHaltRefused};
ghost use Rattle.dmr_planning.specs.Pauses as pauses;
ghost use Rattle.dmr_planning.specs.Pauses.{stands};
ghost use Rattle.dmr_planning.specs.Slots as spec;
ghost use Rattle.dmr_planning.specs.Slots.{IsSilenced, IsSilencedTo, IsPlacedNext, IsTransmitted, IsUntransmitted};
ghost use Rattle.dmr_planning.specs.Slots.{numbered_of, so_far};
ghost use Rattle.dmr_script.specs.Fits.{FitsNumbered, FitsTransmit};

use crate::counting::slot_count;
use crate::halt::Halt;
use crate::slot_state::{SlotState, before_behind};
use crate::tries::hold_try;
use dmr_making::{PlacedTransmission, packet_in};
use dmr_record::FRAME_LIMIT;
use dmr_script::{NumberedStatement, Refusal, Transmission, Transmit};
use std::alloc::Global;

/// What is planned of a slot.
#[derive(Drop)]
pub(crate) struct SlotPlan {
    /// Its transmissions, in their order.
    pub(crate) placed: Vec<PlacedTransmission>,
    /// Where it stands behind them.
    pub(crate) state: SlotState,
}

/// A statement of a script that is a transmission.
#[derive(Clone, Copy)]
pub(crate) struct Numbered<'a> {
    /// Its number among the statements, counted from 0.
    pub(crate) statement: usize,
    /// The number of its line.
    pub(crate) line: u64,
    /// What it says.
    pub(crate) transmit: &'a Transmit,
}

/// Whether a transmission is a confirmed packet, which may be tried again.
fn is_confirmed(transmission: &Transmission) -> bool
    ensures value { result ≡ spec.is_confirmed transmission.now }
{
    match transmission {
        Transmission::Packet(packet) => packet.confirmed,
        _ => false,
    }
}

/// A transmission of so many slots behind what stands in a slot, with enough silences in front of it.
fn placed_behind(
    state: SlotState,
    own: u8,
    numbered: Numbered<'_>,
    count: u32,
) -> Result<PlacedTransmission, Refusal>
    requires within { stands state ≤ 1048576 }
    ensures value { result ≡ spec.placed_behind state own (numbered_of numbered.entry) count }
    ensures within { IfOk result (λ one. one.start + one.length ≤ 1048576) }
{
    let paused = state.paused(state.needed(own, numbered.transmit))?;
    let start = paused.stands();
    if count > FRAME_LIMIT - start {
        return Err(Refusal::TooLong);
    }
    Ok(PlacedTransmission {
        statement: numbered.statement,
        packet: state.packet,
        start,
        length: count,
    })
}

/// Where a slot stands behind a transmission.
fn state_behind(
    state: SlotState,
    own: u8,
    numbered: Numbered<'_>,
    placed: PlacedTransmission,
) -> SlotState
    requires within { placed.start + placed.length ≤ 1048576 }
    ensures value { result ≡ spec.slot_state_behind state own (numbered_of numbered.entry) placed }
    ensures within { stands result ≤ 1048576 }
{
    let packet = if is_confirmed(&numbered.transmit.transmission) {
        Some(numbered.statement)
    } else {
        state.packet
    };
    SlotState {
        end: placed.start + placed.length,
        silences: None,
        before: before_behind(own, numbered.transmit),
        line: numbered.line,
        packet,
    }
}

impl SlotPlan {
    /// A slot with nothing in it.
    pub(crate) fn new(alloc: Global) -> SlotPlan
        ensures value { so_far result ≡ spec.nothing_placed pauses.empty_slot }
    {
        SlotPlan {
            placed: Vec::new(alloc),
            state: SlotState::empty(),
        }
    }

    /// So many silences more.
    pub(crate) fn silence(&mut self, count: u32) -> Result<(), Halt>
        requires within { stands self.old.state ≤ 1048576 }
        ensures within { OnOk result (stands self.new.state ≤ 1048576) }
        ensures planned { OnOk result (IsSilenced count (so_far self.old) (so_far self.new)) }
        ensures fault { IfErr result (λ e. IfHaltRefused e (λ r. pauses.silenced self.old.state count ≡ Err r)) }
    {
        self.state = self.state.silenced(count)?;
        Ok(())
    }

    /// Silences up to a frame.
    pub(crate) fn silence_to(&mut self, frame: u32) -> Result<(), Halt>
        requires within { stands self.old.state ≤ 1048576 }
        ensures within { OnOk result (stands self.new.state ≤ 1048576) }
        ensures planned { OnOk result (IsSilencedTo frame (so_far self.old) (so_far self.new)) }
        ensures fault { IfErr result (λ e. IfHaltRefused e (λ r. pauses.silenced_to self.old.state frame ≡ Err r)) }
    {
        self.state = self.state.silenced_to(frame)?;
        Ok(())
    }

    /// Where a transmission is placed in the slot, or why it can't be.
    fn placed_next(
        &self,
        statements: &[NumberedStatement],
        own: u8,
        numbered: Numbered<'_>,
    ) -> Result<PlacedTransmission, Refusal>
        requires statements { All FitsNumbered statements.now }
        requires fit { FitsTransmit numbered.transmit.now }
        requires within { stands self.now.state ≤ 1048576 }
        ensures within { IfOk result (λ one. one.start + one.length ≤ 1048576) }
        ensures placed { IfOk result (IsPlacedNext statements.now own (numbered_of numbered.entry) self.now.state) }
        ensures fault { IfErr result (IsUntransmitted statements.now own (numbered_of numbered.entry) self.now.state) }
    {
        let transmit = numbered.transmit;
        let last = packet_in(statements, self.state.packet);
        hold_try(&transmit.transmission, last)?;
        let Some(count) = slot_count(&transmit.transmission, last) else {
            return Err(Refusal::TooLong);
        };
        placed_behind(self.state, own, numbered, count)
    }

    /// A transmission more: where the slot stands, or behind the fewest silences that may be there where none are named.
    pub(crate) fn transmit(
        &mut self,
        statements: &[NumberedStatement],
        own: u8,
        numbered: Numbered<'_>,
    ) -> Result<(), Halt>
        requires statements { All FitsNumbered statements.now }
        requires fit { FitsTransmit numbered.transmit.now }
        requires within { stands self.old.state ≤ 1048576 }
        ensures within { OnOk result (stands self.new.state ≤ 1048576) }
        ensures planned { OnOk result
            (IsTransmitted statements.now own (numbered_of numbered.entry) (so_far self.old) (so_far self.new)) }
        ensures fault { IfErr result (λ e. IfHaltRefused e
            (λ r. IsUntransmitted statements.now own (numbered_of numbered.entry) self.old.state r)) }
    {
        let placed = self.placed_next(statements, own, numbered)?;
        self.placed.push(placed)?;
        self.state = state_behind(self.state, own, numbered, placed);
        Ok(())
    }
}
