//! What is held of the packets of a capture.
ghost use Rattle.std.specs.Prelude.{◌≡◌, ◌+◌, ◌≤◌, ◌<◌, ◌^◌, ℕ, Some, IfErr, OnOk};
ghost use Rattle.dmr_capture.specs.State.{captured_packet};
ghost use Rattle.dmr_dmrd.specs.Holding as spec;
ghost use Rattle.dmr_dmrd.specs.Placing.{frame_asked};
ghost use Rattle.dmr_dmrd.specs.Refusals.{IfPastLimit};

use crate::held::{Refused, SlotHeld};
use crate::packet::{HotspotPacket, Slot};
use crate::placing::Start;
use crate::sync::mobile_burst;
use crate::taking::{Ports, taken_packet};
use dmr_capture::Packet;
use std::alloc::Global;

/// Which packets of a capture are taken, and how their bursts are recorded.
#[derive(Clone, Copy, Debug, Drop, PartialEq, Eq)]
pub struct ImportSettings {
    /// Which way the packets go.
    pub ports: Ports,
    /// Their repeater, or none for that of the first packet.
    pub repeater: Option<u32>,
    /// Whether the sync of a base station is exchanged for that of a mobile station.
    pub as_uplink: bool,
}

/// What is held of the packets of a capture.
#[derive(Drop)]
pub(crate) struct Hold {
    /// The repeater whose packets are taken, where it is known.
    pub(crate) repeater: Option<u32>,
    /// Where the recording begins.
    pub(crate) start: Option<Start>,
    /// Slot 1.
    pub(crate) one: SlotHeld,
    /// Slot 2.
    pub(crate) two: SlotHeld,
    /// How many packets weren't taken.
    pub(crate) other: u64,
}

/// The burst that is held of a packet.
fn held_burst(as_uplink: bool, burst: &[u8; 33]) -> [u8; 33]
    ensures value { result ≡ spec.held_burst as_uplink burst.now }
{
    if as_uplink {
        mobile_burst(burst)
    } else {
        *burst
    }
}

impl Hold {
    /// In front of a capture.
    pub(crate) fn none(alloc: Global, settings: &ImportSettings) -> Hold
        ensures value { result ≡ spec.no_hold settings.now }
    {
        Hold {
            repeater: settings.repeater,
            start: None,
            one: SlotHeld::none(alloc),
            two: SlotHeld::none(alloc),
            other: 0,
        }
    }

    /// Takes a packet of a hotspot that came at this time. At an `Err` a slot may hold anything.
    fn take_packet(
        &mut self,
        settings: &ImportSettings,
        packet: &HotspotPacket,
        time: u128,
    ) -> Result<(), Refused>
        requires held { spec.AreSlotsHeld self.old }
        requires few { spec.late_or_other self.old < 2 ^ 63 }
        ensures taken { OnOk result (self.new ≡ spec.hold_with_taken settings.now self.old time (Some packet.now)) }
        ensures held { OnOk result (spec.AreSlotsHeld self.new) }
        ensures few { OnOk result (spec.late_or_other self.new ≤ spec.late_or_other self.old + 1) }
        ensures past { IfErr result (λ e. IfPastLimit e ((frame : ℕ) × (1048576 ≤ frame)
            × (frame_asked (spec.asked_of self.old packet.now time) ≡ Some frame))) }
    {
        let burst = held_burst(settings.as_uplink, &packet.burst);
        let start = self.start.unwrap_or(Start {
            time,
            slot: packet.slot,
        });
        match packet.slot {
            Slot::One => self.one.take(start, packet, time, burst)?,
            Slot::Two => self.two.take(start, packet, time, burst)?,
        }
        self.repeater = Some(packet.repeater);
        self.start = Some(start);
        Ok(())
    }

    /// Takes a packet of a capture. At an `Err` a slot may hold anything.
    pub(crate) fn take(
        &mut self,
        settings: &ImportSettings,
        packet: Packet,
        octets: &[u8],
    ) -> Result<(), Refused>
        requires held { spec.AreSlotsHeld self.old }
        requires few { spec.late_or_other self.old < 2 ^ 63 }
        ensures taken { OnOk result (self.new ≡ spec.hold_with settings.now self.old (captured_packet packet octets.now)) }
        ensures held { OnOk result (spec.AreSlotsHeld self.new) }
        ensures few { OnOk result (spec.late_or_other self.new ≤ spec.late_or_other self.old + 1) }
        ensures past { IfErr result (λ e. IfPastLimit e
            (spec.IsPastRecording settings.now self.old (captured_packet packet octets.now))) }
    {
        match taken_packet(settings.ports, self.repeater, packet.link, octets) {
            Some(taken) => self.take_packet(settings, &taken, packet.time),
            None => {
                self.other += 1;
                Ok(())
            }
        }
    }
}
