//! What a host calls.
ghost use Rattle.std.specs.Prelude.{⊤, ◌≡◌, length, None, Some, IfSome, option_map};
ghost use Rattle.dmr_settings.specs.Config.{setting_fault};
ghost use Rattle.dmr_gateway.specs.GatewayRules.{next_received};
ghost use Rattle.dmr_station.specs.Station.{IsExchanged, IsOffered, fresh, taken_once};
ghost use Rattle.dmr_c.specs.Calls.{AreCounts, Becomes, IsTold, offer_of, settings_passed};
ghost use Rattle.dmr_c.specs.Calls.{counts_status, exchange_status, offer_status, take_status};
ghost use Rattle.dmr_c.specs.Slots.{AreZeroWhereSilent, uplink_passed, downlink_given};
ghost use Rattle.dmr_c.specs.Status as status;

use crate::handle::StationHandle;
use crate::slots::{heard_in_both, put_frame};
use crate::values::{DownlinkSlot, StationCounts, StationReceipt, StationSettings, UplinkSlot};
use dmr_gateway::Config;
use dmr_record::{Octets, Outgoing, ReceivedKind};
use dmr_station::Station;
use std::alloc::Global;
use std::mem;

const DONE: u8 = 0;

const NO_STATION: u8 = 1;

const AT_LIMIT: u8 = 2;

const NO_MEMORY: u8 = 3;

const BAD_SETTING: u8 = 4;

const BAD_SLOT: u8 = 5;

const NO_ROOM: u8 = 6;

const NONE_RECEIVED: u8 = 7;

/// How many octets a host has room for: as many as a packet brings at most.
const RECEIPT_LIMIT: usize = 3044;

/// Takes the station out of a handle.
fn taken(alloc: Global, handle: &mut StationHandle) -> Option<Box<Station>>
    ensures held { option_map (λ station. station.value) result ≡ handle.old.held }
    ensures none { handle.new.held ≡ None }
{
    mem::replace(handle, StationHandle::none()).into_box(alloc)
}

/// Puts a station into a handle, and frees the one that is there, if there is one.
fn put_back(alloc: Global, handle: &mut StationHandle, station: Box<Station>)
    ensures held { handle.new.held ≡ Some station.value }
{
    let _old = mem::replace(handle, StationHandle::of(station)).into_box(alloc);
}

/// Makes a station of these settings in a handle. One that was there before is freed.
#[unsafe(no_mangle)]
pub extern "C" fn dmr_station_open(
    alloc: Global,
    handle: &mut StationHandle,
    settings: &StationSettings,
) -> u8
    ensures done { result ≡ status.done → handle.new.held ≡ Some (fresh (settings_passed settings.now)) }
    ensures refused { (result ≡ status.done → ⊥) → handle.new.held ≡ handle.old.held }
    ensures setting { result ≡ status.bad_setting → IfSome (setting_fault settings.now.colour settings.now.llid
        settings.now.call_hang settings.now.channel_hang settings.now.queue) (λ _. ⊤) }
    ensures fit { (result ≡ status.bad_setting → ⊥) → setting_fault settings.now.colour settings.now.llid
        settings.now.call_hang settings.now.channel_hang settings.now.queue ≡ None }
    ensures others { (result ≡ status.bad_setting → ⊥) → (result ≡ status.done → ⊥) → result ≡ status.no_memory }
{
    let Ok(config) = Config::new(
        settings.colour,
        settings.llid,
        settings.call_hang,
        settings.channel_hang,
        settings.queue,
    ) else {
        return BAD_SETTING;
    };
    let Ok(station) = Station::new(alloc, &config) else {
        return NO_MEMORY;
    };
    let Ok(station) = Box::new(alloc, station) else {
        return NO_MEMORY;
    };
    put_back(alloc, handle, station);
    DONE
}

/// Frees the station of a handle, if it has one.
#[unsafe(no_mangle)]
pub extern "C" fn dmr_station_close(alloc: Global, handle: &mut StationHandle)
    ensures none { handle.new.held ≡ None }
{
    let _old = taken(alloc, handle);
}

/// Offers a datagram to a station.
fn offer_to(station: &mut Station, slot: u8, confirmed: bool, full: bool, octets: &[u8]) -> u8
    ensures status { result ≡ offer_status slot (length octets.now) (Some station.old) }
    ensures done { result ≡ status.done
        → IsOffered station.old (offer_of slot confirmed full octets.now station.old) station.new }
    ensures refused { (result ≡ status.done → ⊥) → station.new ≡ station.old }
{
    if slot != 1 && slot != 2 {
        return BAD_SLOT;
    }
    let counts = station.counts();
    if counts.offered == u32::MAX {
        return AT_LIMIT;
    }
    let Ok(length) = u16::try_from(octets.len()) else {
        return NO_ROOM;
    };
    let mut kept = Octets::new();
    kept.keep(octets);
    let outgoing = Outgoing {
        frame: counts.frames,
        slot,
        confirmed,
        full,
        length,
        octets: kept,
    };
    station.offer(&outgoing);
    DONE
}

/// Offers a datagram to the station of a handle, before the frame in which it is due.
#[unsafe(no_mangle)]
pub extern "C" fn dmr_station_offer(
    alloc: Global,
    handle: &mut StationHandle,
    slot: u8,
    confirmed: bool,
    full: bool,
    octets: &[u8],
) -> u8
    ensures status { result ≡ offer_status slot (length octets.now) handle.old.held }
    ensures done { result ≡ status.done → Becomes handle.old.held handle.new.held
        (λ before after. IsOffered before (offer_of slot confirmed full octets.now before) after) }
    ensures refused { (result ≡ status.done → ⊥) → handle.new.held ≡ handle.old.held }
{
    match taken(alloc, handle) {
        Some(mut station) => {
            let status = offer_to(&mut station, slot, confirmed, full, octets);
            put_back(alloc, handle, station);
            status
        }
        None => NO_STATION,
    }
}

/// Exchanges a frame with a station.
fn exchange_with(
    station: &mut Station,
    uplink: &[UplinkSlot; 2],
    downlink: &mut [DownlinkSlot; 2],
) -> u8
    ensures status { result ≡ exchange_status (Some station.old) }
    ensures done { result ≡ status.done
        → IsExchanged station.old (uplink_passed uplink.now) (downlink_given downlink.new) station.new }
    ensures zeros { result ≡ status.done → AreZeroWhereSilent downlink.new }
    ensures refused { (result ≡ status.done → ⊥) → station.new ≡ station.old }
    ensures unwritten { (result ≡ status.done → ⊥) → downlink.new ≡ downlink.old }
{
    if station.counts().frames >= 1 << 29 {
        return AT_LIMIT;
    }
    let records = station.exchange(&heard_in_both(uplink));
    put_frame(downlink, &records);
    DONE
}

/// Exchanges a frame of the uplink for the frame of the downlink that is decided then.
#[unsafe(no_mangle)]
pub extern "C" fn dmr_station_exchange(
    alloc: Global,
    handle: &mut StationHandle,
    uplink: &[UplinkSlot; 2],
    downlink: &mut [DownlinkSlot; 2],
) -> u8
    ensures status { result ≡ exchange_status handle.old.held }
    ensures done { result ≡ status.done → Becomes handle.old.held handle.new.held
        (λ before after. IsExchanged before (uplink_passed uplink.now) (downlink_given downlink.new) after) }
    ensures zeros { result ≡ status.done → AreZeroWhereSilent downlink.new }
    ensures refused { (result ≡ status.done → ⊥) → handle.new.held ≡ handle.old.held }
    ensures unwritten { (result ≡ status.done → ⊥) → downlink.new ≡ downlink.old }
{
    match taken(alloc, handle) {
        Some(mut station) => {
            let status = exchange_with(&mut station, uplink, downlink);
            put_back(alloc, handle, station);
            status
        }
        None => NO_STATION,
    }
}

/// Takes what a station received next.
#[tactic(auto, using(crate::proofs::Waiting::nothing_next, crate::proofs::Waiting::nothing_taken))]
fn take_from(
    station: &mut Station,
    receipt: &mut StationReceipt,
    octets: &mut [u8; RECEIPT_LIMIT],
) -> u8
    ensures status { result ≡ take_status (Some station.old) }
    ensures taken { station.new ≡ taken_once station.old }
    ensures told { IfSome (next_received station.old.memory.gate) (IsTold receipt.new octets.new) }
    ensures unwritten { (result ≡ status.done → ⊥) → (receipt.new ≡ receipt.old) × (octets.new ≡ octets.old) }
{
    // In most frames nothing is received, and what is received is large.
    if station.has_nothing_received() {
        return NONE_RECEIVED;
    }
    let Some(received) = station.take_received() else {
        return NONE_RECEIVED;
    };
    let from = received.octets.as_slice();
    octets[..from.len()].copy_from_slice(from);
    *receipt = StationReceipt {
        source: received.source,
        length: from.len() as u16,
        slot: received.slot,
        kind: match received.kind {
            ReceivedKind::Datagram => 0,
            ReceivedKind::ShortData => 1,
            ReceivedKind::Status => 2,
        },
    };
    DONE
}

/// Takes what the station of a handle received next, with room for the longest there may be.
#[unsafe(no_mangle)]
pub extern "C" fn dmr_station_take_received(
    alloc: Global,
    handle: &mut StationHandle,
    receipt: &mut StationReceipt,
    octets: &mut [u8; RECEIPT_LIMIT],
) -> u8
    ensures status { result ≡ take_status handle.old.held }
    ensures taken { handle.new.held ≡ option_map taken_once handle.old.held }
    ensures told { IfSome handle.old.held
        (λ before. IfSome (next_received before.memory.gate) (IsTold receipt.new octets.new)) }
    ensures unwritten { (result ≡ status.done → ⊥) → (receipt.new ≡ receipt.old) × (octets.new ≡ octets.old) }
{
    match taken(alloc, handle) {
        Some(mut station) => {
            let status = take_from(&mut station, receipt, octets);
            put_back(alloc, handle, station);
            status
        }
        None => NO_STATION,
    }
}

/// What the station of a handle has done so far.
#[unsafe(no_mangle)]
pub extern "C" fn dmr_station_counts(
    alloc: Global,
    handle: &mut StationHandle,
    counts: &mut StationCounts,
) -> u8
    ensures status { result ≡ counts_status handle.old.held }
    ensures same { handle.new.held ≡ handle.old.held }
    ensures told { IfSome handle.old.held (AreCounts counts.new) }
    ensures unwritten { (result ≡ status.done → ⊥) → counts.new ≡ counts.old }
{
    match taken(alloc, handle) {
        Some(station) => {
            let so_far = station.counts();
            *counts = StationCounts {
                frames: so_far.frames,
                repeated: so_far.repeated,
                offered: so_far.offered,
                refused: so_far.refused,
                received: so_far.received,
                delivered: so_far.delivered,
                sent: so_far.sent,
                given_up: so_far.given_up,
            };
            put_back(alloc, handle, station);
            DONE
        }
        None => NO_STATION,
    }
}
