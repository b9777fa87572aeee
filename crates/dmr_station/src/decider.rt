//! What decides what goes out: the lines of both slots, the channel that they share, and the gateway.
ghost use Rattle.std.specs.Prelude.{◌≡◌, ◌+◌, ◌^◌, ◌<◌, ◌≤◌, List, Option, IfOk, IfSome};
ghost use Rattle.dmr_burst.specs.Burst.{IsBurst};
ghost use Rattle.dmr_gateway.specs.GatewayRules.{IsSlot};
ghost use Rattle.dmr_slot.specs.Bursts.{IsFitSlotOut};
ghost use Rattle.dmr_slot.specs.LineRules.{IsPush};
ghost use Rattle.dmr_station.specs.DownlinkRules.{repeated_count};
ghost use Rattle.dmr_station.specs.Sent.{DownlinkBurst};
ghost use Rattle.dmr_station.specs.Sent.{AreSentAs};
ghost use Rattle.dmr_station.specs.StationRules.{IsSlotAsked};

use crate::announcing::Announcer;
use crate::fragments::Fragments;
use crate::sending::{count_repeated, encode_frame};
use dmr_burst::Burst;
use dmr_gateway::{Config, Gateway, GatewayFault, Outcome, Received};
use dmr_record::Outgoing;
use dmr_slot::{Channel, FREE, SlotLine, SlotOut};
use std::alloc::{AllocError, Global};
use std::marker::Model;

/// Room for what the lines of both slots give in a frame, and for the bursts of the gateway. Bursts are large, and most often a
/// place is to hold nothing and does already.
#[derive(Drop)]
pub struct Room {
    outs: [SlotOut; 2],
    gate: [Option<Burst>; 2],
}

impl Room {
    /// With nothing in it.
    pub(crate) fn new() -> Self {
        Room {
            outs: [FREE, FREE],
            gate: [None, None],
        }
    }
}

/// Decides what goes out in both slots, frame by frame, and what is received: the lines of both slots, the channel that they share,
/// the gateway, and who makes the message of the CACHs.
#[derive(Drop)]
pub struct Decider {
    first: SlotLine,
    second: SlotLine,
    channel: Channel,
    gateway: Gateway,
    announcer: Announcer,
}

// Clauses see what the lines, the channel and the gateway remember, and the message that is kept.
impl Model for Decider {
    ghost use Rattle.std.specs.Prelude.{IfSome};
    ghost use Rattle.dmr_station.specs.Announced.{IsFitMessage};
    ghost use Rattle.dmr_station.specs.StationRules.{StationMemory};

    ghost Value = { StationMemory };

    ghost view = { λ d. record {
      first = d.first;
      second = d.second;
      channel = d.channel;
      gate = d.gateway;
      kept = d.announcer.kept;
    } };

    ghost invariant = { λ d. IfSome d.announcer.kept IsFitMessage };
}

impl Decider {
    ghost use Rattle.dmr_gateway.specs.GatewayRules.{IsOffer, IsSlot};
    ghost use Rattle.dmr_gateway.specs.Packets.{fault_of};
    ghost use Rattle.std.specs.Prelude.{◌↔◌, IsTrue, option_copied, option_to_list};
    ghost use Rattle.std.specs.List.{flat_map};
    ghost use Rattle.dmr_gateway.specs.GatewayRules.{HasNothingReceived, next_received, after_received};
    ghost use Rattle.dmr_gateway.specs.Received.{IsFitReceived};
    ghost use Rattle.std.specs.Prelude.{[], ◌∷◌, None};
    ghost use Rattle.dmr_station.specs.StationRules.{settings_of, start, IsAsked, RestsInSilence};
    ghost use Rattle.dmr_station.specs.StationRules.{outcomes_to_tell, outcomes_told};

    /// Lines and a gateway that have heard nothing. They take memory here alone, for each slot, and then for the
    /// gateway.
    pub(crate) fn new(alloc: Global, config: &Config) -> Result<Decider, AllocError>
        ensures start { IfOk result (λ decider. decider ≡ start (settings_of config.now)) }
    {
        let first = SlotLine::new(alloc, config.colour, config.call_hang)?;
        let second = SlotLine::new(alloc, config.colour, config.call_hang)?;
        let Ok(gateway) = Gateway::new(alloc, *config) else {
            return Err(AllocError);
        };
        Ok(Decider {
            first,
            second,
            channel: Channel::new(config.colour, config.channel_hang),
            gateway,
            announcer: Announcer::new(),
        })
    }

    /// Offers a datagram to the gateway.
    pub(crate) fn offer(&mut self, outgoing: &Outgoing) -> Result<(), GatewayFault>
        requires slot { IsSlot outgoing.now.slot }
        ensures offer { IsOffer (fault_of outgoing.now) outgoing.now result self.old.gate self.new.gate }
        ensures others { self.new ≡ record self.old { gate = self.new.gate } }
    {
        self.gateway.offer(outgoing)
    }

    /// Takes a frame of the uplink, and gives the records of the frame of the downlink that is decided then. It answers how many of
    /// them repeat a burst. The first of these records is the one at this place. The fragments are those of the message that went
    /// out last.
    pub(crate) fn pass(
        &mut self,
        frame: &[Option<[u8; 33]>; 2],
        place: u32,
        room: &mut Room,
        fragments: &mut Fragments,
        records: &mut [Option<([u8; 3], [u8; 33])>; 2],
    ) -> u32
        requires room { place + 1 < 2 ^ 32 }
        ensures sent { (sending : List (Option DownlinkBurst)) × IsAsked self.old frame.now sending self.new
            × AreSentAs place sending records.new × (result ≡ repeated_count sending) }
        ensures bound { result ≤ 2 }
    {
        let Room { outs, gate } = room;
        push(&mut self.first, &frame[0], &mut outs[0]);
        push(&mut self.second, &frame[1], &mut outs[1]);
        next_burst(&mut self.gateway, 1, &outs[0], &mut gate[0]);
        next_burst(&mut self.gateway, 2, &outs[1], &mut gate[1]);
        let bursts = self.channel.bursts(outs, gate);
        let message = self.announcer.next(outs);
        encode_frame(place, message, outs, &bursts, fragments, records);
        let repeated = count_repeated(outs, &bursts);
        self.channel.go_on(outs, gate);
        repeated
    }

    /// Whether a silent frame changes nothing but the message that is kept, and nothing goes out in it.
    pub(crate) fn is_at_rest(&self) -> bool
        ensures rests { IsTrue result → RestsInSilence self.now }
    {
        self.first.is_at_rest()
            && self.second.is_at_rest()
            && self.channel.is_off_air()
            && self.gateway.is_at_rest()
    }

    /// Passes a silent frame in which nothing else changes.
    #[inline(always)]
    pub(crate) fn pass_silence(&mut self)
        requires rests { RestsInSilence self.old }
        ensures asked { IsAsked self.old (None ∷ None ∷ []) (None ∷ None ∷ []) self.new }
        ensures rests { RestsInSilence self.new }
        ensures gate { self.new.gate ≡ self.old.gate }
    {
        self.announcer.pass_silence();
    }

    /// Whether the gateway received nothing that isn't taken yet.
    pub(crate) fn has_nothing_received(&self) -> bool
        ensures value { IsTrue result ↔ HasNothingReceived self.now.gate }
    {
        self.gateway.has_nothing_received()
    }

    /// What the gateway received, one after the other, slot 1's first and of a slot its status first.
    pub(crate) fn take_received(&mut self) -> Option<Received>
        ensures received { result ≡ next_received self.old.gate }
        ensures taken { self.new ≡ record self.old { gate = after_received self.old.gate } }
        ensures fit { IfSome result IsFitReceived }
    {
        self.gateway.take_received()
    }

    /// What the gateway received, as `take_received` takes it, where it stands.
    pub(crate) fn received(&self) -> Option<&Received>
        ensures received { option_copied result ≡ next_received self.now.gate }
        ensures fit { IfSome (option_copied result) IsFitReceived }
    {
        self.gateway.received()
    }

    /// What the gateway received goes, slot 1's first and of a slot its status first.
    pub(crate) fn pass_received(&mut self)
        ensures taken { self.new ≡ record self.old { gate = after_received self.old.gate } }
    {
        self.gateway.pass_received();
    }

    /// What became of the gateway's packets, one in each slot at most, slot 1's first.
    pub(crate) fn take_outcomes(&mut self) -> [Option<Outcome>; 2]
        ensures outcomes { flat_map option_to_list result ≡ outcomes_to_tell self.old.gate }
        ensures told { self.new ≡ record self.old { gate = outcomes_told self.old.gate } }
    {
        let first = self.gateway.take_outcome();
        let second = self.gateway.take_outcome();
        [first, second]
    }
}

/// What the line of a slot gives for what the slot was recorded as.
#[inline(always)]
fn push(line: &mut SlotLine, slot: &Option<[u8; 33]>, out: &mut SlotOut)
    ensures pushed { IsPush line.old slot.now out.new line.new }
    ensures fit { IsFitSlotOut out.new }
{
    line.push_into(slot.as_ref(), out);
}

/// What the gateway has for a slot, 1 or 2, once it has heard what the line repeats.
#[inline(always)]
fn next_burst(gateway: &mut Gateway, slot: u8, out: &SlotOut, burst: &mut Option<Burst>)
    requires slot { IsSlot slot }
    ensures asked { IsSlotAsked slot out.now gateway.old burst.new gateway.new }
    ensures fit { IfSome burst.new IsBurst }
{
    gateway.heard(slot, out.repeated.as_ref());
    gateway.next_into(slot, out.repeated.is_none() && out.hang.is_none(), burst);
}
