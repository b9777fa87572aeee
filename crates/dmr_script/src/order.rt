//! Which statements may follow one another.
ghost use Rattle.std.specs.Prelude.{◌≡◌, Some, None, OnOk, IfErr};
ghost use Rattle.dmr_script.specs.Order.{said_nothing, refused_behind, refused_transmit, said_with};

use crate::fault::Refusal;
use crate::statement::{Sender, Statement};

/// The colour code of a script that names none.
const USUAL_COLOUR: u8 = 1;

/// What the statements so far said that decides what a further one may say.
#[derive(Clone, Copy)]
pub(crate) struct Said {
    /// The own colour code.
    pub(crate) colour: u8,
    /// Whether a slot was named.
    pub(crate) slot: bool,
    /// Whether the number of frames was told.
    pub(crate) frames: bool,
}

impl Said {
    /// In front of the first statement.
    pub(crate) fn nothing() -> Said
        ensures value { result ≡ said_nothing }
    {
        Said {
            colour: USUAL_COLOUR,
            slot: false,
            frames: false,
        }
    }

    /// What a transmission with this colour code is refused for.
    fn transmit(self, sender: Sender) -> Result<(), Refusal>
        ensures may { OnOk result (refused_transmit self sender ≡ None) }
        ensures fault { IfErr result (λ e. refused_transmit self sender ≡ Some e) }
    {
        if !self.slot {
            return Err(Refusal::NoSlot);
        }
        match sender {
            Sender::Foreign(colour) if colour == self.colour => Err(Refusal::OwnColour(colour)),
            _ => Ok(()),
        }
    }

    /// Adds a statement, or tells why it may not stand here.
    pub(crate) fn add(&mut self, statement: &Statement) -> Result<(), Refusal>
        ensures may { OnOk result (refused_behind self.old statement.now ≡ None) }
        ensures value { OnOk result (self.new ≡ said_with self.old statement.now) }
        ensures fault { IfErr result (λ e. refused_behind self.old statement.now ≡ Some e) }
    {
        match statement {
            Statement::Colour(_) if self.slot => return Err(Refusal::ColourBehindSlot),
            Statement::Colour(colour) => self.colour = *colour,
            Statement::Slot(_) => self.slot = true,
            Statement::Frames(_) if self.frames => return Err(Refusal::FramesTwice),
            Statement::Frames(_) => self.frames = true,
            Statement::Transmit(transmit) => return self.transmit(transmit.sender),
            Statement::Silence(_) | Statement::At(_) | Statement::Send(_) if !self.slot => {
                return Err(Refusal::NoSlot);
            }
            Statement::Silence(_) | Statement::At(_) | Statement::Send(_) => {}
        }
        Ok(())
    }
}
