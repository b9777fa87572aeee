//! The base station, frame after frame.
ghost use Rattle.std.specs.Prelude.{◌≡◌, ◌+◌, ◌*◌, ◌^◌, ◌<◌, ◌≤◌, [], ◌∷◌, None, IsTrue, IfOk, IfSome, option_to_list, replicate};
ghost use Rattle.std.specs.Prelude.{if◌then◌else◌};
ghost use Rattle.std.specs.List.{flat_map};
ghost use Rattle.dmr_station.specs.StationRules.{outcome_count};

use crate::decider::{Decider, Room};
use crate::fragments::Fragments;
use dmr_burst::clear;
use dmr_gateway::{Config, Outcome, Received};
use dmr_record::Outgoing;
use std::alloc::{AllocError, Global};
use std::marker::Model;

/// A frame of the uplink: a burst in each slot, or nothing.
pub type UplinkFrame = [Option<[u8; 33]>; 2];

/// A frame of the downlink: a CACH and a burst in each slot, or nothing.
pub type DownlinkFrame = [Option<([u8; 3], [u8; 33])>; 2];

/// A frame in which nothing is received.
pub const SILENCE: UplinkFrame = [None, None];

/// A frame in which nothing goes out.
pub const NOTHING: DownlinkFrame = [None, None];

/// What a station has done so far, in numbers.
#[derive(Clone, Copy, Debug, PartialEq, Eq)]
pub struct Counts {
    /// Frames of the downlink, two slots each.
    pub frames: u32,
    /// Slots that repeated a burst.
    pub repeated: u32,
    /// Datagrams that were offered.
    pub offered: u32,
    /// Datagrams that the gateway refused.
    pub refused: u32,
    /// What the gateway received: datagrams, short data and statuses.
    pub received: u32,
    /// Confirmed packets that were delivered.
    pub delivered: u32,
    /// Unconfirmed packets that were sent.
    pub sent: u32,
    /// Packets that were given up: they had no try left.
    pub given_up: u32,
}

/// A base station between two frames.
#[derive(Drop)]
pub struct Station {
    decider: Decider,
    room: Room,
    fragments: Fragments,
    counts: Counts,
    /// Whether silence was found to change nothing, and nothing was offered or taken since.
    is_at_rest: bool,
}

// Clauses see what the station remembers, and what it has done.
impl Model for Station {
    ghost use Rattle.std.specs.Prelude.{IsTrue};
    ghost use Rattle.dmr_station.specs.StationRules.{RestsInSilence};
    ghost use Rattle.dmr_station.specs.Station.{State, IsWithinFrames, state_of};

    ghost Value = { State };

    ghost view = { λ s. state_of s.decider s.counts };

    ghost invariant = { λ s. IsWithinFrames (state_of s.decider s.counts) × (IsTrue s.is_at_rest → RestsInSilence s.decider) };
}

impl Station {
    ghost use Rattle.dmr_gateway.specs.Received.{IsFitReceived};
    ghost use Rattle.std.specs.Prelude.{◌↔◌, IsTrue, option_copied};
    ghost use Rattle.dmr_gateway.specs.GatewayRules.{IsSlot, HasNothingReceived, next_received};
    ghost use Rattle.dmr_station.specs.DownlinkRules.{silent_frame};
    ghost use Rattle.dmr_station.specs.StationRules.{RestsInSilence, settings_of};
    ghost use Rattle.dmr_station.specs.Station.{fresh, IsOffered, AreExchanged, IsExchanged, taken_once, counts_of_gateway};

    /// A station that has heard and sent nothing. It takes memory here alone, for each slot's line, and for each slot of
    /// the gateway, and an error is that it was refused.
    pub fn new(alloc: Global, config: &Config) -> Result<Station, AllocError>
        ensures fresh { IfOk result (λ station. station ≡ fresh (settings_of config.now)) }
    {
        Ok(Station {
            decider: Decider::new(alloc, config)?,
            room: Room::new(),
            fragments: Fragments::new(),
            counts: Counts {
                frames: 0,
                repeated: 0,
                offered: 0,
                refused: 0,
                received: 0,
                delivered: 0,
                sent: 0,
                given_up: 0,
            },
            is_at_rest: false,
        })
    }

    /// Offers a datagram to the gateway, before the frame in which it is due. There are at most 2^32 - 1 of them.
    pub fn offer(&mut self, outgoing: &Outgoing)
        requires slot { IsSlot outgoing.now.slot }
        requires offers { self.old.offered + 1 < 2 ^ 32 }
        ensures offered { IsOffered self.old outgoing.now self.new }
    {
        self.is_at_rest = false;
        self.counts.offered += 1;
        match self.decider.offer(outgoing) {
            Ok(()) => {}
            Err(_) => self.counts.refused += 1,
        }
    }

    /// Takes a frame of the uplink, and gives the records of the frame of the downlink that is decided then. What is received in
    /// uplink frame f-1 is taken for downlink frame f, and repeated six frames after its own. There are at most 2^29 frames.
    pub fn exchange(&mut self, frame: &UplinkFrame) -> DownlinkFrame
        requires frames { self.old.frames < 2 ^ 29 }
        ensures exchanged { IsExchanged self.old frame.now result self.new }
    {
        let mut records = NOTHING;
        self.exchange_into(frame, &mut records);
        records
    }

    /// Takes a frame of the uplink as `exchange` does, and gives the records in a place that is there, since they are large.
    #[inline(always)]
    pub fn exchange_into(&mut self, frame: &UplinkFrame, records: &mut DownlinkFrame)
        requires frames { self.old.frames < 2 ^ 29 }
        ensures exchanged { IsExchanged self.old frame.now records.new self.new }
    {
        // Most frames are silent, and where all around them is, nothing changes.
        if self.rests_in(frame) {
            self.pass_silent_frame();
            clear(&mut records[0]);
            clear(&mut records[1]);
        } else {
            self.decide(frame, records);
        }
    }

    /// Whether a frame is silent, and silence was found to change nothing. Then `pass_silence` takes it, and each silent frame
    /// behind it.
    #[inline(always)]
    pub fn rests_in(&self, frame: &UplinkFrame) -> bool
        ensures silent { IsTrue result → frame.now ≡ silent_frame }
        ensures rests { IsTrue result → RestsInSilence self.now.memory }
    {
        self.is_at_rest && is_silent(frame)
    }

    /// Takes so many silent frames where silence changes nothing. It is as if `exchange` took each of them: nothing goes out, and
    /// nothing is received.
    pub fn pass_silence(&mut self, frames: u32)
        requires rests { RestsInSilence self.old.memory }
        requires frames { self.old.frames + frames ≤ 2 ^ 29 }
        ensures exchanged { AreExchanged self.old (replicate frames []) (replicate frames silent_frame)
            (replicate frames (None ∷ None ∷ [])) (replicate frames []) self.new }
        ensures rests { RestsInSilence self.new.memory }
    {
        for _frame in 0..frames {
            self.pass_silent_frame();
        }
    }

    /// Takes a silent frame where silence changes nothing.
    #[inline(always)]
    fn pass_silent_frame(&mut self)
        requires rests { RestsInSilence self.old.memory }
        requires frames { self.old.frames < 2 ^ 29 }
        ensures exchanged { IsExchanged self.old silent_frame (None ∷ None ∷ []) self.new }
        ensures rests { RestsInSilence self.new.memory }
    {
        self.decider.pass_silence();
        self.counts.frames += 1;
    }

    /// Takes a frame of the uplink, whatever came before it.
    #[inline(never)]
    fn decide(&mut self, frame: &UplinkFrame, records: &mut DownlinkFrame)
        requires frames { self.old.frames < 2 ^ 29 }
        ensures exchanged { IsExchanged self.old frame.now records.new self.new }
    {
        let place = 2 * self.counts.frames;
        let repeated = self
            .decider
            .pass(frame, place, &mut self.room, &mut self.fragments, records);
        let outcomes = self.decider.take_outcomes();
        let came_to = count_outcomes(&outcomes);
        self.counts.frames += 1;
        self.counts.repeated += repeated;
        self.counts.delivered += came_to.delivered;
        self.counts.sent += came_to.sent;
        self.counts.given_up += came_to.given_up;
        self.is_at_rest = is_silent(frame) && self.decider.is_at_rest();
    }

    /// Whether the gateway received nothing that isn't taken yet.
    pub fn has_nothing_received(&self) -> bool
        ensures value { IsTrue result ↔ HasNothingReceived self.now.memory.gate }
    {
        self.decider.has_nothing_received()
    }

    /// What the gateway received in the frame, one after the other, slot 1's first and of a slot its status first. What isn't
    /// taken goes with the next frame.
    pub fn take_received(&mut self) -> Option<Received>
        ensures received { result ≡ next_received self.old.memory.gate }
        ensures taken { self.new ≡ taken_once self.old }
        ensures fit { IfSome result IsFitReceived }
    {
        self.is_at_rest = false;
        let received = self.decider.take_received();
        self.counts.received += u32::from(received.is_some());
        received
    }

    /// What the gateway received, as `take_received` takes it, where it stands, since it is large.
    pub fn received(&self) -> Option<&Received>
        ensures received { option_copied result ≡ next_received self.now.memory.gate }
        ensures fit { IfSome (option_copied result) IsFitReceived }
    {
        self.decider.received()
    }

    /// What the gateway received goes, and counts, slot 1's first and of a slot its status first.
    pub fn pass_received(&mut self)
        ensures taken { self.new ≡ taken_once self.old }
    {
        self.is_at_rest = false;
        self.counts.received += u32::from(self.decider.received().is_some());
        self.decider.pass_received();
    }

    /// What the station has done so far.
    pub fn counts(&self) -> Counts
        ensures frames { result.frames ≡ self.now.frames }
        ensures repeated { result.repeated ≡ self.now.repeated }
        ensures offered { result.offered ≡ self.now.offered }
        ensures gateway { counts_of_gateway result ≡ self.now.counts }
    {
        self.counts
    }
}

/// Whether a frame of the uplink has no burst.
#[inline(always)]
fn is_silent(frame: &UplinkFrame) -> bool
    ensures silent { IsTrue result → frame.now ≡ None ∷ None ∷ [] }
{
    frame[0].is_none() && frame[1].is_none()
}

/// Whether a packet came to this.
fn is_outcome(outcome: Outcome, told: Option<Outcome>) -> bool
    ensures value { (if result then 1 else 0) ≡ outcome_count outcome (option_to_list told) }
{
    match (outcome, told) {
        (Outcome::Delivered, Some(Outcome::Delivered))
        | (Outcome::Sent, Some(Outcome::Sent))
        | (Outcome::GivenUp, Some(Outcome::GivenUp)) => true,
        _ => false,
    }
}

/// How many packets of a frame came to this.
fn count_outcome(outcome: Outcome, told: &[Option<Outcome>; 2]) -> u32
    ensures value { result ≡ outcome_count outcome (flat_map option_to_list told.now) }
    ensures bound { result ≤ 2 }
{
    u32::from(is_outcome(outcome, told[0])) + u32::from(is_outcome(outcome, told[1]))
}

/// What packets came to in a frame.
#[derive(Clone, Copy)]
struct OutcomeCounts {
    delivered: u32,
    sent: u32,
    given_up: u32,
}

/// Counts what packets came to in a frame, one in each slot at most.
fn count_outcomes(told: &[Option<Outcome>; 2]) -> OutcomeCounts
    ensures delivered { result.delivered ≡ outcome_count Outcome.Delivered (flat_map option_to_list told.now) }
    ensures sent { result.sent ≡ outcome_count Outcome.Sent (flat_map option_to_list told.now) }
    ensures given_up { result.given_up ≡ outcome_count Outcome.GivenUp (flat_map option_to_list told.now) }
    ensures few { (result.delivered ≤ 2) × (result.sent ≤ 2) × (result.given_up ≤ 2) }
{
    // In most frames no packet is done.
    if told[0].is_none() && told[1].is_none() {
        return OutcomeCounts {
            delivered: 0,
            sent: 0,
            given_up: 0,
        };
    }
    OutcomeCounts {
        delivered: count_outcome(Outcome::Delivered, told),
        sent: count_outcome(Outcome::Sent, told),
        given_up: count_outcome(Outcome::GivenUp, told),
    }
}
