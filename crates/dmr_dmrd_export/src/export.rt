//! A capture of a downlink.
ghost use Rattle.std.specs.Prelude.{◌≡◌, ◌+◌, ◌≤◌, true, false, length, Some, None, IfOk, IfErr, OnOk, is_some};
ghost use Rattle.std.specs.Prelude.{if◌then◌else◌};
ghost use Rattle.std.specs.Io.KnownBytes.{IsAtEnd};
ghost use Rattle.dmr_record.specs.Faults.{is_of_end, is_device_fault};
ghost use Rattle.dmr_recording.specs.Places.{place_by_number};
ghost use Rattle.dmr_recording.specs.Endings.{IfFile, IfNotWritten};
ghost use Rattle.dmr_dmrd_export.specs.Deciding.{nothing_exported};
ghost use Rattle.dmr_dmrd_export.specs.BurstExports.{AreAllTaken, AreTakenAndTorn, AreTakenUpToFault};
ghost use Rattle.dmr_dmrd_export.specs.BurstExports.{IsBurstCaptureTorn, IsBurstExportFault, IsDownlinkExported};

use crate::burst::next_repeated;
use crate::counts::ExportedBursts;
use crate::settings::ExportSettings;
use crate::state::ExportState;
use dmr_capture::write_capture_head;
use dmr_listing::RecordingView;
use dmr_record::{DOWNLINK_MAGIC, NextSlot, RecordFault, Sink, Source, read_head};
use dmr_recording::{
    FaultLine, HEAD_OCTETS, Place, RecordedBurst, Recording, Stop, read_recording, record_octets,
};

/// A fault of the record of a slot, which begins at this octet, behind so many slots.
fn fault_at(fault: RecordFault, octet: u64, slots: u32) -> Stop
    ensures stop { result ≡ Stop.File (record { fault = fault; octet = octet; place = Some (place_by_number slots) }) }
{
    Stop::File(FaultLine {
        fault,
        octet,
        place: Some(Place::of_slot(slots)),
    })
}

/// How many bursts a slot has.
fn bursts_in(slot: &Option<RecordedBurst>) -> u32
    ensures value { result ≡ (if is_some slot.now then 1 else 0) }
    ensures few { result ≤ 1 }
{
    u32::from(slot.is_some())
}

/// Takes the slots of a downlink behind its head, and writes the packets on which is decided.
fn take_slots<S: Source, K: Sink>(
    settings: &ExportSettings,
    source: &mut S,
    state: &mut ExportState,
    sink: &mut K,
) -> Result<ExportedBursts, Stop>
    requires source { S.has_failed source.old ≡ false }
    requires sink { K.has_failed sink.old ≡ false }
    requires begin { state.old ≡ nothing_exported }
    ensures all { IfOk result (λ counted. AreAllTaken settings.now counted state.old state.new
        (S.left source.old) (S.left source.new) (K.held sink.old) (K.held sink.new)) }
    ensures end { OnOk result (IsAtEnd (S.left source.new)) }
    ensures few { IfOk result (λ counted. counted.written ≤ 2097164) }
    ensures fault { IfErr result (λ e. IfFile e (λ fault. AreTakenUpToFault settings.now fault state.old state.new
        (S.left source.old) (S.left source.new) (K.held sink.old) (K.held sink.new))) }
    ensures cut { IfErr result (λ e. IfFile e (λ fault. is_of_end fault.fault ≡ true → IsAtEnd (S.left source.new))) }
    ensures torn { IfErr result (λ e. IfNotWritten e (AreTakenAndTorn settings.now state.old
        (S.left source.old) (S.left source.new) (K.held sink.old) (K.held sink.new))) }
    ensures room { state.new.streams.slots + length state.new.waiting ≤ 2097164 }
    ensures names { state.new.streams.names ≤ state.new.streams.slots }
    ensures source { IfErr result (λ e. IfFile e (λ fault. S.has_failed source.new ≡ is_device_fault fault.fault)) }
    ensures sink { IfErr result (λ e. IfNotWritten e (K.has_failed sink.new ≡ true)) }
    ensures others { IfErr result (λ e. IfFile e (λ fault. K.has_failed sink.new ≡ false)) }
    ensures well { OnOk result (K.has_failed sink.new ≡ false) }
{
    let mut view = RecordingView::new();
    let mut records: u32 = 0;
    let mut written: u32 = 0;
    let mut octet = HEAD_OCTETS;
    loop {
        let slots = view.slots();
        let slot = match read_recording(source, Recording::Downlink, slots) {
            Ok(NextSlot::Slot(slot)) => slot,
            Ok(NextSlot::End) => return Ok(ExportedBursts { records, written }),
            Err(fault) => return Err(fault_at(fault, octet, slots)),
        };
        let burst = next_repeated(&mut view, &slot);
        match state.take(settings, burst, sink) {
            Ok(count) => written += count,
            Err(_) => return Err(Stop::Output),
        }
        records += bursts_in(&slot);
        octet += record_octets(Recording::Downlink, &slot);
    }
}

/// Writes the repeated bursts of a downlink as a capture of packets of a hotspot, as far as the downlink can be read, and answers
/// how many. The source stands before the head. A packet is written as soon as the slot four frames behind its own was read.
///
/// A burst is repeated where its CACH announces the channel as busy. A stream is what a log calls a transmission, and has the next
/// number from 1 on as its name. Packets have the number of their frame in it, from 0, so that a lost block leaves a number out.
/// Addresses are those of the transmission, of a late call those that the four frames behind its first one carry, and else 0. A
/// packet goes out 60 milliseconds behind the begin for each frame, and 30 more in slot 2. Before a fault all is written that can
/// be read, as of a downlink that ends there.
///
/// The downlink is this project's own. The capture is a pcap of link type 228, from 192.0.2.1 to 192.0.2.2, both ports 62031, by
/// the protocol of Homebrew repeaters.
pub fn export_dmrd<S: Source, K: Sink>(
    settings: &ExportSettings,
    source: &mut S,
    sink: &mut K,
) -> Result<ExportedBursts, Stop>
    requires source { S.has_failed source.old ≡ false }
    requires sink { K.has_failed sink.old ≡ false }
    // The whole downlink was read, and the capture of its repeated bursts written.
    ensures whole { IfOk result (λ counted. IsDownlinkExported settings.now counted
        (S.left source.old) (S.left source.new) (K.held sink.old) (K.held sink.new)) }
    // Or it is at fault, and the capture of what stands before that was written.
    ensures fault { IfErr result (λ e. IfFile e (λ fault. IsBurstExportFault settings.now fault
        (S.left source.old) (S.left source.new) (K.held sink.old) (K.held sink.new))) }
    ensures cut { IfErr result (λ e. IfFile e (λ fault. is_of_end fault.fault ≡ true → IsAtEnd (S.left source.new))) }
    // Or a front of the capture of what was read was.
    ensures torn { IfErr result (λ e. IfNotWritten e (IsBurstCaptureTorn settings.now
        (S.left source.old) (S.left source.new) (K.held sink.old) (K.held sink.new))) }
    // `Read` is told exactly where the source failed, and `Output` where the sink did.
    ensures source { IfErr result (λ e. IfFile e (λ fault. S.has_failed source.new ≡ is_device_fault fault.fault)) }
    ensures sink { IfErr result (λ e. IfNotWritten e (K.has_failed sink.new ≡ true)) }
    ensures others { IfErr result (λ e. IfFile e (λ fault. K.has_failed sink.new ≡ false)) }
    ensures well { OnOk result (K.has_failed sink.new ≡ false) }
{
    if let Err(fault) = read_head(source, DOWNLINK_MAGIC) {
        return Err(Stop::File(FaultLine {
            fault,
            octet: 0,
            place: None,
        }));
    }
    if let Err(_) = write_capture_head(sink) {
        return Err(Stop::Output);
    }
    let mut state = ExportState::new();
    match take_slots(settings, source, &mut state, sink) {
        Ok(counted) => match state.finish(settings, sink) {
            Ok(count) => Ok(ExportedBursts {
                written: counted.written + count,
                ..counted
            }),
            Err(_) => Err(Stop::Output),
        },
        Err(Stop::File(fault)) => match state.finish(settings, sink) {
            Ok(_) => Err(Stop::File(fault)),
            Err(_) => Err(Stop::Output),
        },
        Err(Stop::Output) => Err(Stop::Output),
    }
}
