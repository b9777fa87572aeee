//! The plan of a script, statement by statement.
ghost use Rattle.std.specs.Prelude.{◌≡◌, ◌<◌, ◌≤◌, ◌⊎◌, ◌++◌, ◌∷◌, [], All, Some, None, Ok, Err, IfOk, IfErr, OnOk, true, false};
ghost use Rattle.std.specs.Prelude.{length};
ghost use Rattle.std.specs.List.Sorted.{IsSortedByKey};
ghost use Rattle.std.specs.Ordering.{nat_cmp};
ghost use Rattle.dmr_planning.specs.Halts.{IfHaltRefused};
ghost use Rattle.dmr_planning.specs.Pauses as pauses;
ghost use Rattle.dmr_planning.specs.Planning as spec;
ghost use Rattle.dmr_planning.specs.Planning.{ArePlanned, ChangesSlot, IsLineUnplanned, IsUnplanned, AreSlotsWithin, Plans};
ghost use Rattle.dmr_planning.specs.Planning.{planned_by};
ghost use Rattle.dmr_planning.specs.Plans.{IsPlan, IsPlanOf};
ghost use Rattle.dmr_planning.specs.Refused.{IsPlanRefused};
ghost use Rattle.dmr_planning.specs.Sending.{AreInListOrder, said_number};
ghost use Rattle.dmr_planning.specs.Slots.{IsSilenced, IsSilencedTo, IsTransmitted, IsUntransmitted, numbered_of};
ghost use Rattle.dmr_script.specs.Fits.{FitsNumbered, FitsStatement, FitsTransmit};

use crate::fault::PlanFault;
use crate::halt::Halt;
use crate::plan::Plan;
use crate::sends::{PlannedSend, is_full, number_of_slot};
use crate::slot_plan::{Numbered, SlotPlan};
use dmr_record::FRAME_LIMIT;
use dmr_script::{
    NumberedStatement, Refusal, RefusedLine, Script, Send, Slot, Statement, Transmit,
};
use std::alloc::{AllocError, Global};

/// The number of frames that a script tells.
#[derive(Clone, Copy, Debug, Drop, PartialEq, Eq)]
struct ToldFrames {
    /// The number of the line that tells it.
    line: u64,
    /// How many.
    count: u32,
}

/// What is planned of the statements so far.
#[derive(Drop)]
struct Planner {
    /// The slot that was named last.
    slot: Slot,
    /// Slot 1.
    first: SlotPlan,
    /// Slot 2.
    second: SlotPlan,
    /// The number of frames, where it was told.
    told: Option<ToldFrames>,
    /// The records of the outgoing list, by their lines.
    sends: Vec<PlannedSend>,
}

/// The own colour code behind a statement.
fn colour_behind(own: u8, statement: &Statement) -> u8
    requires own { own < 16 }
    requires fit { FitsStatement statement.now }
    ensures value { result ≡ spec.colour_behind own statement.now }
    ensures fit { result < 16 }
{
    match statement {
        Statement::Colour(colour) => *colour,
        _ => own,
    }
}

/// The own colour code of a script: 1 where none is named.
fn own_colour(statements: &[NumberedStatement]) -> u8
    requires fit { All FitsNumbered statements.now }
    ensures value { result ≡ spec.own_colour statements.now }
    ensures fit { result < 16 }
{
    let mut own = 1;
    for numbered in statements {
        own = colour_behind(own, &numbered.statement);
    }
    own
}

/// How many frames a recording has in which so many are sent: as many as a script tells, which may not be too few.
fn frames_of(told: Option<ToldFrames>, sent: u32) -> Result<u32, RefusedLine>
    ensures value { result ≡ spec.told_frames told sent }
{
    match told {
        None => Ok(sent),
        Some(told) if told.count < sent => Err(RefusedLine {
            line: told.line,
            refusal: Refusal::FewFrames {
                frames: told.count,
                sent,
            },
        }),
        Some(told) => Ok(told.count),
    }
}

impl Planner {
    /// In front of the first statement.
    fn new(alloc: Global) -> Planner
        ensures value { planned_by result ≡ spec.nothing_planned }
    {
        Planner {
            slot: Slot::One,
            first: SlotPlan::new(alloc),
            second: SlotPlan::new(alloc),
            told: None,
            sends: Vec::new(alloc),
        }
    }

    /// So many silences more in the slot.
    fn silence(&mut self, count: u32) -> Result<(), Halt>
        requires within { AreSlotsWithin (planned_by self.old) }
        ensures within { OnOk result (AreSlotsWithin (planned_by self.new)) }
        ensures planned { OnOk result (ChangesSlot (IsSilenced count) (planned_by self.old) (planned_by self.new)) }
        ensures fault { IfErr result (λ e. IfHaltRefused e
            (λ r. pauses.silenced (spec.planned_slot self.old.slot (planned_by self.old)).state count ≡ Err r)) }
    {
        match self.slot {
            Slot::One => self.first.silence(count),
            Slot::Two => self.second.silence(count),
        }
    }

    /// Silences up to a frame in the slot.
    fn silence_to(&mut self, frame: u32) -> Result<(), Halt>
        requires within { AreSlotsWithin (planned_by self.old) }
        ensures within { OnOk result (AreSlotsWithin (planned_by self.new)) }
        ensures planned { OnOk result (ChangesSlot (IsSilencedTo frame) (planned_by self.old) (planned_by self.new)) }
        ensures fault { IfErr result (λ e. IfHaltRefused e
            (λ r. pauses.silenced_to (spec.planned_slot self.old.slot (planned_by self.old)).state frame ≡ Err r)) }
    {
        match self.slot {
            Slot::One => self.first.silence_to(frame),
            Slot::Two => self.second.silence_to(frame),
        }
    }

    /// A transmission more in the slot.
    fn transmit(
        &mut self,
        statements: &[NumberedStatement],
        own: u8,
        numbered: Numbered<'_>,
    ) -> Result<(), Halt>
        requires statements { All FitsNumbered statements.now }
        requires fit { FitsTransmit numbered.transmit.now }
        requires within { AreSlotsWithin (planned_by self.old) }
        ensures within { OnOk result (AreSlotsWithin (planned_by self.new)) }
        ensures planned { OnOk result (ChangesSlot (IsTransmitted statements.now own (numbered_of numbered.entry))
            (planned_by self.old) (planned_by self.new)) }
        ensures fault { IfErr result (λ e. IfHaltRefused e (λ r. IsUntransmitted statements.now own (numbered_of numbered.entry)
            (spec.planned_slot self.old.slot (planned_by self.old)).state r)) }
    {
        match self.slot {
            Slot::One => self.first.transmit(statements, own, numbered),
            Slot::Two => self.second.transmit(statements, own, numbered),
        }
    }

    /// The number of frames, told in this line.
    fn frames(&mut self, line: u64, count: u32) -> Result<(), Halt>
        ensures few { OnOk result (count ≤ 1048576) }
        ensures planned { OnOk result (planned_by self.new
            ≡ record (planned_by self.old) { told = Some (record { line = line; count = count }) }) }
        ensures fault { IfErr result (λ e. IfHaltRefused e (λ r. (1048576 < count) × (r ≡ Refusal.TooLong))) }
    {
        if count > FRAME_LIMIT {
            return Err(Halt::Refused(Refusal::TooLong));
        }
        self.told = Some(ToldFrames { line, count });
        Ok(())
    }

    /// A record more of the outgoing list, where one is made.
    fn send(&mut self, statement: usize, send: &Send, is_outgoing_taken: bool) -> Result<(), Halt>
        ensures taken { OnOk result (is_outgoing_taken ≡ true) }
        ensures few { OnOk result (length self.old.sends.items < 1048576) }
        ensures planned { OnOk result (planned_by self.new ≡ record (planned_by self.old) {
          sends = self.old.sends.items
              ++ record { statement = statement; slot = spec.number_of_slot self.old.slot; frame = send.now.frame } ∷ [];
        }) }
        ensures fault { IfErr result (λ e. IfHaltRefused e (λ r. ((is_outgoing_taken ≡ false) × (r ≡ Refusal.NoList))
            ⊎ ((is_outgoing_taken ≡ true) × (1048576 ≤ length self.old.sends.items) × (r ≡ Refusal.LongList)))) }
    {
        if !is_outgoing_taken {
            return Err(Halt::Refused(Refusal::NoList));
        }
        if is_full(&self.sends) {
            return Err(Halt::Refused(Refusal::LongList));
        }
        self.sends.push(PlannedSend {
            statement,
            slot: number_of_slot(self.slot),
            frame: send.frame,
        })?;
        Ok(())
    }

    /// The statement with this number, counted from 0.
    fn take(
        &mut self,
        statements: &[NumberedStatement],
        own: u8,
        at: usize,
        numbered: &NumberedStatement,
        is_outgoing_taken: bool,
    ) -> Result<(), Halt>
        requires statements { All FitsNumbered statements.now }
        requires fit { FitsStatement numbered.now.statement }
        requires within { AreSlotsWithin (planned_by self.old) }
        ensures within { OnOk result (AreSlotsWithin (planned_by self.new)) }
        ensures planned { OnOk result (Plans statements.now own is_outgoing_taken at numbered.now.line numbered.now.statement
            (planned_by self.old) (planned_by self.new)) }
        ensures fault { IfErr result (λ e. IfHaltRefused e (IsUnplanned statements.now own is_outgoing_taken at numbered.now.line
            numbered.now.statement (planned_by self.old))) }
    {
        match &numbered.statement {
            Statement::Colour(_) => Ok(()),
            Statement::Slot(slot) => {
                self.slot = *slot;
                Ok(())
            }
            Statement::Silence(count) => self.silence(*count),
            Statement::At(frame) => self.silence_to(*frame),
            Statement::Frames(count) => self.frames(numbered.line, *count),
            Statement::Transmit(transmit) => {
                let numbered = Numbered {
                    statement: at,
                    line: numbered.line,
                    transmit,
                };
                self.transmit(statements, own, numbered)
            }
            Statement::Send(send) => self.send(at, send, is_outgoing_taken),
        }
    }

    /// All statements, or the first line that is refused.
    fn take_all(
        &mut self,
        statements: &[NumberedStatement],
        own: u8,
        is_outgoing_taken: bool,
    ) -> Result<(), PlanFault>
        requires statements { All FitsNumbered statements.now }
        requires fresh { planned_by self.old ≡ spec.nothing_planned }
        ensures within { OnOk result (AreSlotsWithin (planned_by self.new)) }
        ensures planned { OnOk result
            (ArePlanned statements.now own is_outgoing_taken (length statements.now) (planned_by self.new)) }
        ensures few { OnOk result (length statements.now < 18446744073709551616) }
        ensures fault { IfErr result (λ e. spec.IfRefusedLine e (IsLineUnplanned statements.now own is_outgoing_taken)) }
    {
        for at in 0..statements.len() {
            let numbered = &statements[at];
            match self.take(statements, own, at, numbered, is_outgoing_taken) {
                Ok(()) => {}
                Err(Halt::Refused(refusal)) => {
                    let line = numbered.line;
                    return Err(PlanFault::Refused(RefusedLine { line, refusal }));
                }
                Err(Halt::Memory) => return Err(PlanFault::Memory),
            }
        }
        Ok(())
    }

    /// Puts the records of the outgoing list, which stand by their lines, in its order: by their frames, then slot 1 first, then by
    /// their lines.
    fn sort_sends(&mut self) -> Result<(), AllocError>
        requires small { All (λ s. s.statement < 18446744073709551616) self.old.sends.items }
        requires by_line { IsSortedByKey said_number nat_cmp self.old.sends.items }
        ensures planned { OnOk result
            (planned_by self.new ≡ record (planned_by self.old) { sends = self.new.sends.items }) }
        ensures order { OnOk result (AreInListOrder self.old.sends.items self.new.sends.items) }
    {
        self.sends.sort_by_key(|send| send.slot)?;
        self.sends.sort_by_key(|send| send.frame)?;
        Ok(())
    }

    /// How many frames both slots need.
    fn sent(&self) -> u32
        requires within { AreSlotsWithin (planned_by self.now) }
        ensures value { result ≡ spec.sent_frames (planned_by self.now) }
    {
        self.first.state.stands().max(self.second.state.stands())
    }
}

/// The plan of a script that was read, or the first line that shows that there is none: a line that can't be planned, then the line
/// that was refused when the script was read, and behind all others a number of frames that is too small. Where no outgoing list is
/// made, a script may have no record of one.
///
/// A slot sends its transmissions one behind another. Between two of them stand the silences that the script names, or else as many
/// as have to be there: six behind a call that ends in silence, one behind anything else, and none within a row of control blocks;
/// behind headers alone that end in silence six, or one where a data burst follows. A recording is as long as the longer slot, or
/// as the script tells. This project's own.
pub fn plan_script(
    alloc: Global,
    script: &Script,
    is_outgoing_taken: bool,
) -> Result<Plan<'_>, PlanFault>
    requires fit { All FitsNumbered script.now.statements.items }
    // The plan is the one that the statements say, and it fits.
    ensures planned { IfOk result (IsPlanOf script.now is_outgoing_taken) }
    ensures fit { IfOk result IsPlan }
    // Where a line is refused, it shows why, and all in front of it is planned.
    ensures refused { IfErr result (λ e. spec.IfRefusedLine e (IsPlanRefused script.now is_outgoing_taken)) }
{
    let statements: &[NumberedStatement] = &script.statements;
    let own = own_colour(statements);
    let mut planner = Planner::new(alloc);
    planner.take_all(statements, own, is_outgoing_taken)?;
    if let Some(refused) = script.refused {
        return Err(PlanFault::Refused(refused));
    }
    let frames = match frames_of(planner.told, planner.sent()) {
        Ok(frames) => frames,
        Err(refused) => return Err(PlanFault::Refused(refused)),
    };
    planner.sort_sends()?;
    let Planner {
        first,
        second,
        sends,
        ..
    } = planner;
    Ok(Plan {
        statements,
        own,
        first: first.placed,
        second: second.placed,
        frames,
        sends,
    })
}
