//! The log of both slots.
ghost use Rattle.std.specs.Prelude.{◌≡◌, ◌<◌, ◌-◌, ◌^◌, IfOk};
ghost use Rattle.dmr_log.specs.LogRules as spec;

use crate::ear::{FrameReceived, NOTHING_RECEIVED, listen, take_last};
use crate::slot_log::{SlotLog, SlotTold};
use crate::transmission::{Ended, Subject, more};
use dmr_burst::Burst;
use dmr_gateway::{Gateway, Received};
use std::alloc::{AllocError, Global};
use std::marker::Model;

/// What a log tells of a frame.
#[derive(Drop)]
pub struct FrameTold {
    /// The frame. It is the number of frames at the end of the recording, where no frame follows.
    pub frame: u32,
    /// What is told of slot 1.
    pub slot_1: SlotTold,
    /// What is told of slot 2.
    pub slot_2: SlotTold,
    /// What the gateway received in the frame before.
    pub received: FrameReceived,
}

/// What a log counts.
#[derive(Clone, Copy, Debug, Default, PartialEq, Eq, Drop)]
pub struct LogCounts {
    /// Voice calls.
    pub calls: u32,
    /// Packets, and tries of packets.
    pub packets: u32,
    /// Rows of control blocks.
    pub controls: u32,
    /// Bursts that are repeated.
    pub repeated: u32,
    /// Records that the gateway received.
    pub received: u32,
}

impl LogCounts {
    /// With a transmission more, if there is one.
    fn with_ended(self, ended: &Option<Ended>) -> LogCounts
        ensures value { result ≡ spec.with_ended ended.now self }
    {
        match ended {
            None => self,
            Some(ended) => match ended.transmission.subject {
                Subject::Call(_) => LogCounts {
                    calls: more(self.calls, true),
                    ..self
                },
                Subject::Packet(_) => LogCounts {
                    packets: more(self.packets, true),
                    ..self
                },
                Subject::Controls(_) => LogCounts {
                    controls: more(self.controls, true),
                    ..self
                },
            },
        }
    }

    /// With the transmissions that ended in both slots.
    fn with_ends(self, slot_1: &SlotTold, slot_2: &SlotTold) -> LogCounts
        ensures value { result ≡ spec.with_ends slot_1.now slot_2.now self }
    {
        self.with_ended(&slot_1.ended).with_ended(&slot_2.ended)
    }

    /// With what both slots repeat in a frame.
    fn with_repeated(self, slot_1: &Option<Burst>, slot_2: &Option<Burst>) -> LogCounts
        ensures value { result ≡ spec.with_repeated slot_1.now slot_2.now self }
    {
        let first = more(self.repeated, slot_1.is_some());
        LogCounts {
            repeated: more(first, slot_2.is_some()),
            ..self
        }
    }

    /// With a record more, if there is one.
    fn with_one(self, received: &Option<Received>) -> LogCounts
        ensures value { result ≡ spec.with_one received.now self }
    {
        LogCounts {
            received: more(self.received, received.is_some()),
            ..self
        }
    }

    /// With the records of a frame.
    fn with_received(self, received: &FrameReceived) -> LogCounts
        ensures value { result ≡ spec.with_records received.now self }
    {
        let [first, second, third, fourth] = received;
        self.with_one(first)
            .with_one(second)
            .with_one(third)
            .with_one(fourth)
    }
}

/// What a log keeps between two frames.
#[derive(Drop)]
pub struct LogState {
    /// Slot 1.
    first: SlotLog,
    /// Slot 2.
    second: SlotLog,
    /// The gateway with which it listens.
    gateway: Option<Gateway>,
    /// What was told last.
    told: FrameTold,
    /// How many frames were taken.
    taken: u32,
    /// What was counted.
    counts: LogCounts,
}

impl LogState {
    /// Takes a frame.
    fn pass(&mut self, slot_1: &Option<[u8; 33]>, slot_2: &Option<[u8; 33]>)
        requires room { self.old.taken < 2 ^ 32 - 1 }
        ensures logged { spec.IsFrameLogged self.old slot_1.now slot_2.now self.new }
    {
        let frame = self.taken.saturating_sub(5);
        let first = self.first.pass(slot_1, frame);
        let second = self.second.pass(slot_2, frame);
        let received = listen(&mut self.gateway, &first.1, &second.1);
        self.taken += 1;
        self.counts = self
            .counts
            .with_ends(&first.0, &second.0)
            .with_repeated(&first.1, &second.1)
            .with_received(&received);
        self.told = FrameTold {
            frame,
            slot_1: first.0,
            slot_2: second.0,
            received,
        };
    }

    /// Ends.
    fn end(&mut self)
        ensures logged { spec.IsEndLogged self.old self.new }
    {
        let slot_1 = self.first.end();
        let slot_2 = self.second.end();
        let received = take_last(&mut self.gateway);
        self.counts = self
            .counts
            .with_ends(&slot_1, &slot_2)
            .with_received(&received);
        self.told = FrameTold {
            frame: self.taken.saturating_sub(5),
            slot_1,
            slot_2,
            received,
        };
    }
}

/// What is repeated of a recording, as long as its frames come.
#[derive(Drop)]
pub struct Log {
    state: LogState,
}

// Clauses see what it keeps.
impl Model for Log {
    ghost use Rattle.dmr_log.specs.declared.log.LogState.{LogState};

    ghost Value = { LogState };

    ghost view = { λ log. log.state };
}

impl Log {
    ghost use Rattle.dmr_log.specs.LogRules.{IsFrameLogged, IsEndLogged, new_log};

    /// A log of which no frame came, for a repeater with this colour code, below 16, and with this gateway, if there is one. Memory
    /// is taken here alone, for each slot, and an error is that it was refused.
    pub fn new(alloc: Global, colour: u8, gateway: Option<Gateway>) -> Result<Log, AllocError>
        requires colour { colour < 16 }
        ensures value { IfOk result (λ log. log ≡ new_log colour gateway) }
    {
        Ok(Log {
            state: LogState {
                first: SlotLog::new(alloc, colour)?,
                second: SlotLog::new(alloc, colour)?,
                gateway,
                told: FrameTold {
                    frame: 0,
                    slot_1: SlotTold::nothing(),
                    slot_2: SlotTold::nothing(),
                    received: NOTHING_RECEIVED,
                },
                taken: 0,
                counts: LogCounts::default(),
            },
        })
    }

    /// Takes a frame of the uplink, and decides on the frame five frames before it.
    pub(crate) fn pass(&mut self, slot_1: &Option<[u8; 33]>, slot_2: &Option<[u8; 33]>)
        requires room { self.old.taken < 2 ^ 32 - 1 }
        ensures logged { IsFrameLogged self.old slot_1.now slot_2.now self.new }
    {
        self.state.pass(slot_1, slot_2);
    }

    /// The recording ends, and with it what is open.
    pub(crate) fn end(&mut self)
        ensures logged { IsEndLogged self.old self.new }
    {
        self.state.end();
    }

    /// What is told of the frame that was decided last.
    pub(crate) fn told(&self) -> &FrameTold
        ensures value { result.now ≡ self.now.told }
    {
        &self.state.told
    }

    /// How many frames it has taken.
    pub(crate) fn taken(&self) -> u32
        ensures value { result ≡ self.now.taken }
    {
        self.state.taken
    }

    /// What it has counted.
    pub(crate) fn counts(&self) -> LogCounts
        ensures value { result ≡ self.now.counts }
    {
        self.state.counts
    }
}
