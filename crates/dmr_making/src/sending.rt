//! What a statement sends, slot by slot.
ghost use Rattle.std.specs.Prelude.{◌≡◌, ◌<◌, ◌≤◌, ℕ, true, length, replicate, option_copied};
ghost use Rattle.dmr_making.specs.Made.{IsMade};
ghost use Rattle.dmr_making.specs.Fit.{IsFitCall, IsFitLone};
ghost use Rattle.dmr_making.specs.Packets.{status_try};
ghost use Rattle.dmr_making.specs.Sends.{Transmitted, SendsTry, SendsAgain, SendsSaid, SendsCall, SendsPacket, SendsShortData};
ghost use Rattle.dmr_making.specs.Sends.{SendsAnswer};
ghost use Rattle.dmr_making.specs.Sends.{SendsControl, SendsLone};
ghost use Rattle.dmr_making.specs.Senders as spec;
ghost use Rattle.dmr_making.specs.Senders.{IsFitAgain, IsSendable};
ghost use Rattle.dmr_making.specs.Standing.{HoldsAt};
ghost use Rattle.dmr_making.specs.Tries.{IsFitTry};
ghost use Rattle.dmr_script.specs.Fits.{FitsPacket, FitsShortData, FitsStatus, FitsAnswer};
ghost use Rattle.dmr_script.specs.declared.packet.Again.TheVariants as again;

use crate::bursts::csbk_burst;
use crate::calls::call_slot;
use crate::controls::lone_burst;
use crate::packets::{answer_try, full_try, partial_try, short_data_try, status_try};
use crate::tries::{SentTry, try_slot};
use dmr_csbk::Csbk;
use dmr_script::{
    Again, Answer, Call, LoneBurst, PacketShape, PacketTry, PartialTry, Sender, ShortDataTry,
    StatusSent, Transmission, Transmit,
};

/// Every block of a packet, which has at most 127.
const ALL_BLOCKS: [bool; 127] = [true; 127];

/// A transmission of a script in its slot.
#[derive(Clone, Copy)]
pub struct SlotTransmission<'a> {
    /// What is sent, and with which colour code.
    pub transmit: &'a Transmit,
    /// The last confirmed packet in front of it in its slot, which a further try sends again.
    pub last: Option<&'a PacketTry>,
}

/// The colour code that is sent with.
fn colour_of(own: u8, sender: Sender) -> u8
    ensures value { result ≡ spec.colour_of own sender }
{
    match sender {
        Sender::Own => own,
        Sender::Foreign(colour) => colour,
    }
}

/// What goes out in a slot of a try of this shape.
fn shaped_slot(colour: u8, t: &SentTry, shape: &PacketShape, place: usize) -> Option<[u8; 33]>
    requires colour { colour < 16 }
    requires fit { IsFitTry t.now shape.now.preambles shape.now.blocks.items }
    ensures slot { (frame : ℕ) (sent : Transmitted) → SendsTry t.now shape.now.preambles shape.now.blocks.items sent
        → HoldsAt (λ slot. IsMade colour frame slot result) sent.slots place }
{
    try_slot(colour, t, shape.preambles, &shape.blocks, place)
}

/// What goes out in a slot of a try with so many blocks, of which all are sent.
fn unshaped_slot(
    colour: u8,
    t: &SentTry,
    all: &[bool],
    count: usize,
    place: usize,
) -> Option<[u8; 33]>
    requires colour { colour < 16 }
    requires all { all.now ≡ replicate 127 true }
    requires count { count ≤ 127 }
    requires fit { IsFitTry t.now 0 (replicate count true) }
    ensures slot { (frame : ℕ) (sent : Transmitted) → SendsTry t.now 0 (replicate count true) sent
        → HoldsAt (λ slot. IsMade colour frame slot result) sent.slots place }
{
    try_slot(colour, t, 0, &all[..count], place)
}

/// How many blocks a packet has.
fn block_count(packet: &PacketTry) -> usize
    ensures value { result ≡ length packet.now.shape.blocks.items }
{
    let blocks: &[bool] = &packet.shape.blocks;
    blocks.len()
}

/// What goes out in a slot of a further try of a packet, of this shape or with all of its blocks.
fn full_slot(
    colour: u8,
    packet: &PacketTry,
    shape: &Option<PacketShape>,
    place: usize,
) -> Option<[u8; 33]>
    requires colour { colour < 16 }
    requires packet { FitsPacket packet.now }
    requires fit { IsFitAgain packet.now (again.Full shape.now) }
    ensures slot { (frame : ℕ) (sent : Transmitted) → SendsAgain packet.now (again.Full shape.now) sent
        → HoldsAt (λ slot. IsMade colour frame slot result) sent.slots place }
{
    match shape {
        None => {
            let count = block_count(packet);
            unshaped_slot(colour, &full_try(packet), &ALL_BLOCKS, count, place)
        }
        Some(shape) => shaped_slot(colour, &full_try(packet), shape, place),
    }
}

/// What goes out in a slot of a further try of some blocks of a packet.
fn partial_slot(
    colour: u8,
    packet: &PacketTry,
    partial: &PartialTry,
    place: usize,
) -> Option<[u8; 33]>
    requires colour { colour < 16 }
    requires packet { FitsPacket packet.now }
    requires fit { IsFitAgain packet.now (again.Partial partial.now) }
    ensures slot { (frame : ℕ) (sent : Transmitted) → SendsAgain packet.now (again.Partial partial.now) sent
        → HoldsAt (λ slot. IsMade colour frame slot result) sent.slots place }
{
    shaped_slot(colour, &partial_try(packet, partial), &partial.shape, place)
}

/// What goes out in a slot of a further try of a packet.
fn again_slot(colour: u8, packet: &PacketTry, again: &Again, place: usize) -> Option<[u8; 33]>
    requires colour { colour < 16 }
    requires packet { FitsPacket packet.now }
    requires fit { IsFitAgain packet.now again.now }
    ensures slot { (frame : ℕ) (sent : Transmitted) → SendsAgain packet.now again.now sent
        → HoldsAt (λ slot. IsMade colour frame slot result) sent.slots place }
{
    match again {
        Again::Full(shape) => full_slot(colour, packet, shape, place),
        Again::Partial(partial) => partial_slot(colour, packet, partial, place),
    }
}

/// What goes out in a slot of a call.
fn voice_slot(colour: u8, call: &Call, place: usize, frame: u32) -> Option<[u8; 33]>
    requires colour { colour < 16 }
    requires frame { frame < 1048576 }
    requires fit { IsFitCall call.now }
    ensures slot { (sent : Transmitted) → SendsCall colour call.now sent
        → HoldsAt (λ slot. IsMade colour frame slot result) sent.slots place }
{
    call_slot(colour, call, place, frame)
}

/// What goes out in a slot of a full try of a packet.
fn packet_slot(colour: u8, packet: &PacketTry, place: usize) -> Option<[u8; 33]>
    requires colour { colour < 16 }
    requires fit { FitsPacket packet.now }
    ensures slot { (frame : ℕ) (sent : Transmitted) → SendsPacket packet.now sent
        → HoldsAt (λ slot. IsMade colour frame slot result) sent.slots place }
{
    shaped_slot(colour, &full_try(packet), &packet.shape, place)
}

/// What goes out in a slot of short data.
fn short_data_slot(colour: u8, short: &ShortDataTry, place: usize) -> Option<[u8; 33]>
    requires colour { colour < 16 }
    requires fit { FitsShortData short.now }
    ensures slot { (frame : ℕ) (sent : Transmitted) → SendsShortData short.now sent
        → HoldsAt (λ slot. IsMade colour frame slot result) sent.slots place }
{
    shaped_slot(colour, &short_data_try(short), &short.shape, place)
}

/// What goes out in a slot of a status.
fn status_slot(colour: u8, status: &StatusSent, place: usize) -> Option<[u8; 33]>
    requires colour { colour < 16 }
    requires fit { FitsStatus status.now }
    ensures slot { (frame : ℕ) (sent : Transmitted)
        → SendsTry (status_try status.now) status.now.shape.preambles status.now.shape.blocks.items sent
        → HoldsAt (λ slot. IsMade colour frame slot result) sent.slots place }
{
    shaped_slot(colour, &status_try(status), &status.shape, place)
}

/// What goes out in a slot of an answer.
fn answer_slot(colour: u8, answer: &Answer, place: usize) -> Option<[u8; 33]>
    requires colour { colour < 16 }
    requires fit { FitsAnswer answer.now }
    ensures slot { (frame : ℕ) (sent : Transmitted) → SendsAnswer answer.now sent
        → HoldsAt (λ slot. IsMade colour frame slot result) sent.slots place }
{
    shaped_slot(colour, &answer_try(answer), &answer.shape, place)
}

/// What goes out for a control signalling block, in its one slot.
fn control_slot(colour: u8, csbk: &Csbk) -> Option<[u8; 33]>
    requires colour { colour < 16 }
    requires fit { csbk.now.code < 64 }
    ensures slot { (frame place : ℕ) (sent : Transmitted) → SendsControl csbk.now sent
        → HoldsAt (λ slot. IsMade colour frame slot result) sent.slots place }
{
    Some(csbk_burst(colour, csbk))
}

/// What goes out for a data burst that stands by itself, in its one slot.
fn lone_slot(colour: u8, lone: &LoneBurst) -> Option<[u8; 33]>
    requires colour { colour < 16 }
    requires fit { IsFitLone lone.now }
    ensures slot { (frame place : ℕ) (sent : Transmitted) → SendsLone lone.now sent
        → HoldsAt (λ slot. IsMade colour frame slot result) sent.slots place }
{
    Some(lone_burst(colour, lone))
}

/// What goes out in a slot of a transmission, where this is the last confirmed packet in front of it.
fn said_slot(
    colour: u8,
    said: &Transmission,
    last: Option<&PacketTry>,
    place: usize,
    frame: u32,
) -> Option<[u8; 33]>
    requires colour { colour < 16 }
    requires frame { frame < 1048576 }
    requires fit { IsSendable (option_copied last) said.now }
    ensures slot { (sent : Transmitted) → SendsSaid colour (option_copied last.entry) said.now sent
        → HoldsAt (λ slot. IsMade colour frame slot result) sent.slots place }
{
    match said {
        Transmission::Call(call) => voice_slot(colour, call, place, frame),
        Transmission::Packet(packet) => packet_slot(colour, packet, place),
        Transmission::Again(again) => match last {
            None => None,
            Some(packet) => again_slot(colour, packet, again, place),
        },
        Transmission::ShortData(short) => short_data_slot(colour, short, place),
        Transmission::Status(status) => status_slot(colour, status, place),
        Transmission::Answer(answer) => answer_slot(colour, answer, place),
        Transmission::Control(csbk) => control_slot(colour, csbk),
        Transmission::Burst(lone) => lone_slot(colour, lone),
    }
}

impl<'a> SlotTransmission<'a> {
    ghost use Rattle.std.specs.Prelude.{◌<◌, option_copied};
    ghost use Rattle.dmr_making.specs.Made.{IsMade};
    ghost use Rattle.dmr_making.specs.Senders as spec;
    ghost use Rattle.dmr_making.specs.Senders.{IsSenderColour, IsSendable};
    ghost use Rattle.dmr_making.specs.Sends.{Transmitted, SendsSaid};
    ghost use Rattle.dmr_making.specs.Standing.{HoldsAt};

    /// What goes out in one of its slots, counted from 0, in this frame of a recording of this colour code: the 33 octets of a
    /// burst of a mobile station, or nothing. Past its last slot it says nothing.
    pub fn slot(self, own: u8, place: usize, frame: u32) -> Option<[u8; 33]>
        requires own { own < 16 }
        requires frame { frame < 1048576 }
        requires sender { IsSenderColour self.transmit.now.sender }
        requires fit { IsSendable (option_copied self.last) self.transmit.now.transmission }
        ensures slot { (sent : Transmitted)
            → SendsSaid (spec.colour_of own self.entry.transmit.now.sender) (option_copied self.entry.last)
            self.entry.transmit.now.transmission sent
            → HoldsAt (λ slot. IsMade (spec.colour_of own self.entry.transmit.now.sender) frame slot result) sent.slots place }
    {
        let colour = colour_of(own, self.transmit.sender);
        said_slot(colour, &self.transmit.transmission, self.last, place, frame)
    }
}
