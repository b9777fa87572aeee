//! What an object has of wrong bits.
use dmr_listing::Wrong;
use dmr_reading::{Information, Reading};
use std::fmt;

/// How many bits are wrong of each part that was read; null stands for information that wasn't, and for a burst that wasn't.
#[derive(Drop)]
pub(crate) struct WrongObject<'a> {
    pub(crate) reading: Reading,
    pub(crate) wrong: &'a Wrong,
}

/// How many bits of the information are wrong.
#[derive(Drop)]
struct WrongInformation(Information, usize);

impl fmt::Display for WrongInformation {
    fn fmt<W: fmt::Write>(&self, f: &mut fmt::Formatter<W>) -> fmt::Result {
        match self.0 {
            Information::Coded(Some(_)) => write!(f, "{}", self.1),
            Information::Coded(None) | Information::AsReceived => write!(f, "null"),
        }
    }
}

impl fmt::Display for WrongObject<'_> {
    fn fmt<W: fmt::Write>(&self, f: &mut fmt::Formatter<W>) -> fmt::Result {
        let wrong = self.wrong;
        match self.reading {
            Reading::Data(_, _, information) => {
                let information = WrongInformation(information, wrong.information);
                write!(
                    f,
                    "{{\"sync\":{},\"slot_type\":{},",
                    wrong.sync, wrong.slot_type
                )?;
                write!(f, "\"information\":{information}}}")
            }
            Reading::Untyped(_) | Reading::VoiceSync(_) => write!(f, "{{\"sync\":{}}}", wrong.sync),
            Reading::Voice(_) => write!(f, "{{\"emb\":{}}}", wrong.emb),
            Reading::Unreadable => write!(f, "null"),
        }
    }
}
