//! Statements: what a line of a script says.
use crate::call::Call;
use crate::control::LoneBurst;
use crate::packet::{Again, Answer, PacketTry, ShortDataTry, StatusSent};
use crate::send::Send;
use dmr_csbk::Csbk;

/// What a line of a script says. This project's own.
#[derive(Drop, PartialEq, Eq)]
pub enum Statement {
    /// `colour N`: the own colour code, from 0 to 15.
    Colour(u8),
    /// `slot N`: what follows stands in this slot.
    Slot(Slot),
    /// `silence N`: so many silent slots.
    Silence(u32),
    /// `at FRAME`: silence up to this frame.
    At(u32),
    /// `frames N`: the recording has so many.
    Frames(u32),
    /// A transmission, of the own colour code or of another.
    Transmit(Transmit),
    /// `send ..`: a record of the outgoing list.
    Send(Send),
}

/// A statement, and the line that says it.
#[derive(Drop, PartialEq, Eq)]
pub struct NumberedStatement {
    /// The number of the line, from 1.
    pub line: u64,
    /// What it says.
    pub statement: Statement,
}

/// A slot of a frame.
#[derive(Clone, Copy, Drop, PartialEq, Eq)]
pub enum Slot {
    /// Slot 1.
    One,
    /// Slot 2.
    Two,
}

/// Which colour code a transmission has.
#[derive(Clone, Copy, Drop, PartialEq, Eq)]
pub enum Sender {
    /// The own one.
    Own,
    /// Another one, from 0 to 15.
    Foreign(u8),
}

/// A transmission, and the colour code that it is sent with.
#[derive(Drop, PartialEq, Eq)]
pub struct Transmit {
    /// Whose it is.
    pub sender: Sender,
    /// What is sent.
    pub transmission: Transmission,
}

/// What is sent.
#[derive(Drop, PartialEq, Eq)]
pub enum Transmission {
    /// A call, from its headers to its terminators, or a part of one.
    Call(Call),
    /// A full try of a packet.
    Packet(PacketTry),
    /// A further try of the last confirmed packet of the slot.
    Again(Again),
    /// Short data: a header of format 13, and its blocks.
    ShortData(ShortDataTry),
    /// A status: a header of format 14.
    Status(StatusSent),
    /// An answer: a header of format 1, and its flags.
    Answer(Answer),
    /// A control signalling block.
    Control(Csbk),
    /// A data burst by itself.
    Burst(LoneBurst),
}
