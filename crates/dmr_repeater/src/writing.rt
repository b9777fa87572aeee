//! The frames of the downlink, handed over and written, and what is received in them.
ghost use Rattle.std.specs.Prelude.{◌≡◌, ◌+◌, ◌^◌, ◌<◌, false, true, map, IfErr, OnOk, OnErr};
ghost use Rattle.std.specs.Io.KnownBytes.{Appends};
ghost use Rattle.dmr_record.specs.Received.{receipts_octets};
ghost use Rattle.dmr_station.specs.StationRules.{received_of};
ghost use Rattle.dmr_station.specs.GatewayMeaning.{receipt_in};
ghost use Rattle.dmr_station.specs.Station.{all_received_taken};
ghost use Rattle.dmr_repeater.specs.Causes.{AreBlamed, ByCause};
ghost use Rattle.dmr_repeater.specs.Files.{FrontOf};
ghost use Rattle.dmr_repeater.specs.Frames.{SendsOne, TearsOne};

use crate::fault::{RunFault, Stream};
use dmr_record::{RecordFault, Sink, write_received, write_slots};
use dmr_station::{DownlinkFrame, Station, UplinkFrame};

/// Writes what the gateway received in a frame, record by record.
fn write_all_received<R: Sink>(
    station: &mut Station,
    received: &mut R,
    number: u32,
) -> Result<(), RecordFault>
    requires well { R.has_failed received.old ≡ false }
    ensures receipts { OnOk result (Appends (R.held received.old) (R.held received.new)
        (receipts_octets (map (receipt_in number) (received_of station.old.memory.gate)))) }
    ensures taken { OnOk result (station.new ≡ all_received_taken station.old) }
    ensures well { OnOk result (R.has_failed received.new ≡ false) }
    ensures fault { IfErr result (λ e. e ≡ RecordFault.Write) }
    ensures failed { OnErr result (R.has_failed received.new ≡ true) }
    ensures torn { OnErr result (FrontOf (R.held received.old) (R.held received.new)
        (receipts_octets (map (receipt_in number) (received_of station.old.memory.gate)))) }
{
    // In most frames nothing is received, and what is received is large.
    if station.has_nothing_received() {
        return Ok(());
    }
    write_each_received(station, received, number)
}

/// Writes record by record what the gateway received in a frame.
#[inline(never)]
fn write_each_received<R: Sink>(
    station: &mut Station,
    received: &mut R,
    number: u32,
) -> Result<(), RecordFault>
    requires well { R.has_failed received.old ≡ false }
    ensures receipts { OnOk result (Appends (R.held received.old) (R.held received.new)
        (receipts_octets (map (receipt_in number) (received_of station.old.memory.gate)))) }
    ensures taken { OnOk result (station.new ≡ all_received_taken station.old) }
    ensures well { OnOk result (R.has_failed received.new ≡ false) }
    ensures fault { IfErr result (λ e. e ≡ RecordFault.Write) }
    ensures failed { OnErr result (R.has_failed received.new ≡ true) }
    ensures torn { OnErr result (FrontOf (R.held received.old) (R.held received.new)
        (receipts_octets (map (receipt_in number) (received_of station.old.memory.gate)))) }
{
    loop {
        let Some(one) = station.received() else {
            return Ok(());
        };
        if let Err(fault) = write_received(
            received,
            number,
            one.slot,
            one.kind,
            one.source,
            one.octets.as_slice(),
        ) {
            return Err(fault);
        }
        station.pass_received();
        // Most often that was all.
        if station.has_nothing_received() {
            return Ok(());
        }
    }
}

/// Hands a frame of the uplink to the station, and writes the frame of the downlink that it gives and then what was received in it.
/// The records of that frame have a place, since they are large.
#[inline(always)]
pub(crate) fn send<D: Sink, R: Sink>(
    station: &mut Station,
    downlink: &mut D,
    received: &mut R,
    frame: &UplinkFrame,
    records: &mut DownlinkFrame,
) -> Result<(), RunFault>
    requires downlink { D.has_failed downlink.old ≡ false }
    requires received { R.has_failed received.old ≡ false }
    requires frames { station.old.frames < 2 ^ 29 }
    ensures sent { OnOk result (SendsOne station.old frame.now station.new (D.held downlink.old) (D.held downlink.new)
        (R.held received.old) (R.held received.new)) }
    ensures frames { OnOk result (station.new.frames ≡ station.old.frames + 1) }
    ensures offered { OnOk result (station.new.offered ≡ station.old.offered) }
    // What was received is written behind the frame, and not where that fails.
    ensures leaves { IfErr result (λ e. ByCause ⊥ (λ _. ⊥) (λ _. ⊥) (λ output. TearsOne output station.old frame.now
        (D.held downlink.old) (D.held downlink.new) (R.held received.old) (R.held received.new)) e) }
    ensures blamed { AreBlamed result false false (D.has_failed downlink.new) (R.has_failed received.new) }
{
    let number = station.counts().frames;
    station.exchange_into(frame, records);
    if let Err(fault) = write_slots(downlink, records) {
        return Err(RunFault::File(Stream::Downlink, fault));
    }
    if let Err(fault) = write_all_received(station, received, number) {
        return Err(RunFault::File(Stream::Received, fault));
    }
    Ok(())
}
