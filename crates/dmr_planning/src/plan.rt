//! A plan, and what is written by it.
ghost use Rattle.std.specs.Prelude.{◌≡◌, true, false, IfOk, IfErr, OnOk, OnErr, Some};
ghost use Rattle.dmr_planning.specs.CountTexts.{made_text};

use crate::sends::{PlannedSend, write_sends};
use dmr_making::{PlacedTransmission, write_recording};
use dmr_record::{RecordFault, Sink};
use dmr_script::NumberedStatement;
use std::fmt;

/// What a recording and its outgoing list have.
#[derive(Clone, Copy, Debug, PartialEq, Eq)]
pub struct Made {
    /// How many frames.
    pub frames: u32,
    /// How many bursts in slot 1.
    pub first: u32,
    /// How many bursts in slot 2.
    pub second: u32,
    /// How many transmissions in both slots.
    pub transmissions: u64,
    /// How many records of the outgoing list.
    pub datagrams: u64,
}

impl fmt::Display for Made {
    ghost output = { λ made. Some (made_text made) };

    /// `frames 40 slot-1 20 slot-2 1 transmissions 3 datagrams 0`
    fn fmt<W: fmt::Write>(&self, f: &mut fmt::Formatter<W>) -> fmt::Result {
        let Made {
            frames,
            first,
            second,
            transmissions,
            datagrams,
        } = *self;
        write!(
            f,
            "frames {frames} slot-1 {first} slot-2 {second} transmissions {transmissions} datagrams {datagrams}"
        )
    }
}

/// What is made of a script: a recording, and an outgoing list.
#[derive(Drop)]
pub struct Plan<'a> {
    /// The statements of the script.
    pub statements: &'a [NumberedStatement],
    /// The own colour code.
    pub own: u8,
    /// The transmissions of slot 1, in their order.
    pub first: Vec<PlacedTransmission>,
    /// The transmissions of slot 2, in their order.
    pub second: Vec<PlacedTransmission>,
    /// How many frames the recording has.
    pub frames: u32,
    /// The records of the outgoing list, in its order.
    pub sends: Vec<PlannedSend>,
}

impl<'a> Plan<'a> {
    ghost use Rattle.std.specs.Io.KnownBytes.{Appends};
    ghost use Rattle.dmr_making.specs.Playing.{TearsRecording};
    ghost use Rattle.dmr_planning.specs.Plans.{IsPlan, WritesPlan};
    ghost use Rattle.dmr_planning.specs.Sending.{planned_sendings};
    ghost use Rattle.dmr_record.specs.Devices.{Tears};
    ghost use Rattle.dmr_record.specs.Outgoing.{outgoing_file};

    /// Writes the recording as an uplink file, and answers what was made. At an `Err` the sink failed. The format is this
    /// project's own.
    pub fn write_uplink<K: Sink>(&self, sink: &mut K) -> Result<Made, RecordFault>
        requires well { K.has_failed sink.old ≡ false }
        requires plan { IsPlan self.now }
        // The frames have what goes out for what both slots send, and all of it is counted.
        ensures made { IfOk result (λ made. WritesPlan self.now made (K.held sink.old) (K.held sink.new)) }
        ensures well { OnOk result (K.has_failed sink.new ≡ false) }
        ensures fault { IfErr result (λ e. e ≡ RecordFault.Write) }
        ensures failed { OnErr result (K.has_failed sink.new ≡ true) }
        // At an `Err` a front of such a file was written.
        ensures torn { OnErr result (TearsRecording self.now.own self.now.statements.now self.now.first.items
            self.now.second.items (K.held sink.old) (K.held sink.new)) }
    {
        let bursts = write_recording(
            self.statements,
            self.own,
            &self.first,
            &self.second,
            self.frames,
            sink,
        )?;
        Ok(Made {
            frames: self.frames,
            first: bursts.first,
            second: bursts.second,
            transmissions: self.first.len() as u64 + self.second.len() as u64,
            datagrams: self.sends.len() as u64,
        })
    }

    /// Writes the outgoing list. At an `Err` the sink failed. The format is this project's own.
    pub fn write_outgoing<K: Sink>(&self, sink: &mut K) -> Result<(), RecordFault>
        requires well { K.has_failed sink.old ≡ false }
        requires plan { IsPlan self.now }
        ensures list { OnOk result (Appends (K.held sink.old) (K.held sink.new)
            (outgoing_file (planned_sendings self.now.statements.now self.now.sends.items))) }
        ensures well { OnOk result (K.has_failed sink.new ≡ false) }
        ensures fault { IfErr result (λ e. e ≡ RecordFault.Write) }
        ensures failed { OnErr result (K.has_failed sink.new ≡ true) }
        ensures torn { OnErr result (Tears (K.held sink.old) (K.held sink.new)
            (outgoing_file (planned_sendings self.now.statements.now self.now.sends.items))) }
    {
        write_sends(self.statements, &self.sends, sink)
    }
}
