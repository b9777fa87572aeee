//! What the octets of an input say, in pieces of any length.
ghost use Rattle.std.specs.Prelude.{◌≡◌, []};
ghost use Rattle.dmr_watch.specs.Ears.{CountsIfWhole, Listens, HearsOctet, burst_with, is_in_burst, is_new};

use crate::heard::Heard;
use crate::reached::Reached;
use dmr_record::{FileFormat, Octets};

/// Where the octets of an input have got to, and what was heard of it where it is an uplink.
#[derive(Drop)]
pub struct Ear {
    pub format: FileFormat,
    /// The colour code of the repeater.
    pub colour: u8,
    pub reached: Reached,
    /// The octets of the burst that is coming in.
    pub burst: Octets<33>,
    pub heard: Heard,
}

impl Ear {
    /// An ear for a file of this format and a repeater of this colour code.
    pub fn new(format: FileFormat, colour: u8) -> Ear
        ensures format { result.format ≡ format }
        ensures colour { result.colour ≡ colour }
        ensures new { is_new result }
    {
        Ear {
            format,
            colour,
            reached: Reached::nothing(),
            burst: Octets::new(),
            heard: Heard::nothing(),
        }
    }

    /// Whether the next octet is one of a burst of an uplink.
    fn is_in_burst(&self) -> bool
        ensures value { result ≡ is_in_burst self.now }
    {
        matches!(self.format, FileFormat::Uplink)
            && self.reached.left > 0
            && self.reached.records > 0
    }

    /// Takes an octet of a burst, or lets go of the last burst.
    fn keep_burst(&mut self, octet: u8)
        ensures burst { self.new.burst ≡ burst_with self.old octet }
        ensures others { self.new ≡ record self.old { burst = self.new.burst } }
    {
        if self.is_in_burst() {
            self.burst.keep(&[octet]);
        } else {
            self.burst.clear();
        }
    }

    /// Counts the burst that came in, where it is whole.
    fn count_burst(&mut self)
        ensures counted { CountsIfWhole self.old.colour self.old.burst self.old.heard self.new.heard }
        ensures others { self.new ≡ record self.old { heard = self.new.heard } }
    {
        if let Some(burst) = self.burst.as_slice().first_chunk::<33>() {
            self.heard = self.heard.with(self.colour, burst);
        }
    }

    /// Hears one octet more.
    fn hear_octet(&mut self, octet: u8)
        ensures heard { HearsOctet self.old octet self.new }
    {
        self.keep_burst(octet);
        self.count_burst();
        self.reached = self.reached.with(self.format, octet);
    }

    /// Hears more octets.
    pub fn hear(&mut self, octets: &[u8])
        ensures heard { Listens self.old octets.now self.new }
    {
        for octet in octets {
            self.hear_octet(*octet);
        }
    }
}
