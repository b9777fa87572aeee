//! What the CACHs announce of the calls in both slots.
ghost use Rattle.std.specs.Prelude.{◌≡◌, IfSome};
ghost use Rattle.dmr_station.specs.Announced.{IsAnnounced, IsFitMessage, IsMessageFor, nothing_given};
ghost use Rattle.dmr_station.specs.declared.announcing.Message.{Message};

use dmr_slot::{Channel, SlotOut};

/// A Short LC, which four records carry in turn.
#[derive(Clone, Copy, PartialEq, Eq)]
pub struct Message {
    /// SLCO, the opcode, in four bits.
    pub slco: u8,
    /// The 24 bits whose meaning the opcode gives.
    pub body: u32,
}

/// What is announced where no call is known.
const NULL_MESSAGE: Message = Message { slco: 0, body: 0 };

/// The message that is announced. Two frames have the four records of one message, and the first of them decides it.
#[derive(Clone, Copy)]
pub struct Announcer {
    /// The message whose second half is to come.
    pub kept: Option<Message>,
}

/// The message for what the lines of both slots give in a frame.
fn message_for(outs: &[SlotOut; 2]) -> Message
    ensures message { IsMessageFor outs.now result }
    ensures fit { IsFitMessage result }
{
    let (slco, body) = Channel::message(outs[0].lc.as_ref(), outs[1].lc.as_ref());
    Message { slco, body }
}

impl Announcer {
    /// Nothing was announced.
    pub(crate) fn new() -> Self
        ensures kept { result.kept ≡ None }
    {
        Announcer { kept: None }
    }

    /// Goes on by a frame in which the lines of both slots give nothing.
    #[inline(always)]
    pub(crate) fn pass_silence(&mut self)
        requires kept { IfSome self.old.kept IsFitMessage }
        ensures announced { (message : Message) × IsAnnounced self.old.kept nothing_given message self.new.kept }
        ensures kept { IfSome self.new.kept IsFitMessage }
    {
        match self.kept {
            Some(_) => self.kept = None,
            None => self.kept = Some(NULL_MESSAGE),
        }
    }

    /// The message of the next frame, in which the lines of both slots give this.
    pub(crate) fn next(&mut self, outs: &[SlotOut; 2]) -> Message
        requires kept { IfSome self.old.kept IsFitMessage }
        ensures announced { IsAnnounced self.old.kept outs.now result self.new.kept }
        ensures fit { IsFitMessage result }
        ensures kept { IfSome self.new.kept IsFitMessage }
    {
        match self.kept {
            Some(message) => {
                self.kept = None;
                message
            }
            None => {
                let message = message_for(outs);
                self.kept = Some(message);
                message
            }
        }
    }
}
