//! A slot of a recording, frame by frame.
ghost use Rattle.std.specs.Prelude.{◌≡◌, ◌<◌, slice_get, option_copied, IfSome};
ghost use Rattle.dmr_making.specs.Playing as spec;
ghost use Rattle.dmr_making.specs.Playing.{IsFitPlaced, IsMadeIn, IsPlacedLine, SlotFrames};
ghost use Rattle.dmr_making.specs.Standing.{HoldsAt};

use crate::sending::SlotTransmission;
use dmr_script::{NumberedStatement, PacketTry, Statement, Transmission, Transmit};

/// A transmission of a script that is placed in a slot.
#[derive(Clone, Copy)]
pub struct PlacedTransmission {
    /// Which statement of the script says it, counted from 0.
    pub statement: usize,
    /// Which statement says the last confirmed packet in front of it, counted from 0.
    pub packet: Option<usize>,
    /// Its first frame, counted from 0.
    pub start: u32,
    /// How many slots it has.
    pub length: u32,
}

/// A slot, as far as it was sent.
#[derive(Drop)]
pub(crate) struct Player<'a> {
    /// The statements of the script.
    pub(crate) statements: &'a [NumberedStatement],
    /// The transmissions of the slot, in their order.
    pub(crate) placed: &'a [PlacedTransmission],
    /// The own colour code.
    pub(crate) own: u8,
    /// How many of them have ended.
    pub(crate) at: usize,
    /// The frame behind the last that ended.
    pub(crate) from: u32,
}

/// The transmission that the statement with this number is.
pub(crate) fn transmit_in(statements: &[NumberedStatement], at: usize) -> Option<&Transmit>
    ensures value { option_copied result ≡ spec.transmit_in statements.now at }
{
    let numbered = statements.get(at)?;
    match &numbered.statement {
        Statement::Transmit(transmit) => Some(transmit),
        _ => None,
    }
}

/// The packet that the statement of a script with this number says, where it says one. Statements are counted from 0.
pub fn packet_in(statements: &[NumberedStatement], at: Option<usize>) -> Option<&PacketTry>
    ensures value { option_copied result ≡ spec.packet_in statements.now at }
{
    let transmit = transmit_in(statements, at?)?;
    match &transmit.transmission {
        Transmission::Packet(packet) => Some(packet),
        _ => None,
    }
}

/// What goes out in a slot of a placed transmission, counted from 0.
fn placed_slot(
    statements: &[NumberedStatement],
    placed: PlacedTransmission,
    own: u8,
    place: usize,
    frame: u32,
) -> Option<[u8; 33]>
    requires own { own < 16 }
    requires frame { frame < 1048576 }
    requires fit { IsFitPlaced statements.now placed }
    ensures slot { (line : SlotFrames) → IsPlacedLine own statements.now placed line → HoldsAt (IsMadeIn frame result) line place }
{
    let transmit = transmit_in(statements, placed.statement)?;
    let last = packet_in(statements, placed.packet);
    SlotTransmission { transmit, last }.slot(own, place, frame)
}

/// The placed transmission with this number.
fn placed_at(placed: &[PlacedTransmission], at: usize) -> Option<PlacedTransmission>
    ensures value { result ≡ slice_get placed.now at }
    ensures room { IfSome result (λ one. at < 18446744073709551615) }
{
    placed.get(at).copied()
}

impl<'a> Player<'a> {
    ghost use Rattle.std.specs.Prelude.{◌≡◌, ◌<◌, ◌+◌, All};
    ghost use Rattle.dmr_making.specs.Playing.{IsFitPlaced, IsInFront, IsLineOfSlot, IsLineStep, IsOrdered, IsReady, SlotFrames};
    ghost use Rattle.dmr_making.specs.Playing.{still_placed};

    /// A player of these transmissions, in front of the first frame.
    pub(crate) fn new(
        statements: &'a [NumberedStatement],
        own: u8,
        placed: &'a [PlacedTransmission],
    ) -> Player<'a>
        requires own { own < 16 }
        requires fit { All (IsFitPlaced statements.now) placed.now }
        requires ordered { IsOrdered 0 placed.now }
        ensures own { result.own ≡ own }
        ensures statements { result.statements.now ≡ statements.entry.now }
        ensures left { still_placed result ≡ placed.entry.now }
        ensures from { result.from ≡ 0 }
        ensures ready { IsReady result 0 }
    {
        Player {
            statements,
            placed,
            own,
            at: 0,
            from: 0,
        }
    }

    /// What goes out in this frame, which is the next one.
    pub(crate) fn slot(&mut self, frame: u32) -> Option<[u8; 33]>
        requires own { self.old.own < 16 }
        requires frame { frame < 1048576 }
        requires fit { All (IsFitPlaced self.old.statements.now) self.old.placed.now }
        requires front { IsInFront self.old frame }
        requires ordered { IsOrdered self.old.from (still_placed self.old) }
        ensures own { self.new.own ≡ self.old.own }
        ensures statements { self.new.statements.now ≡ self.old.statements.now }
        ensures placed { self.new.placed.now ≡ self.old.placed.now }
        ensures front { IsInFront self.new (frame + 1) }
        ensures ordered { IsOrdered self.new.from (still_placed self.new) }
        ensures step { (line : SlotFrames)
            → IsLineOfSlot self.old.own self.old.statements.now self.old.from (still_placed self.old) line
            → IsLineStep self.old self.new frame result line }
    {
        let Some(placed) = placed_at(self.placed, self.at) else {
            return None;
        };
        if frame < placed.start {
            return None;
        }
        let place = frame - placed.start;
        let made = placed_slot(self.statements, placed, self.own, place as usize, frame);
        if place + 1 >= placed.length {
            self.at += 1;
            self.from = frame + 1;
        }
        made
    }
}
