//! A recording of a capture.
ghost use Rattle.std.specs.Prelude.{◌≡◌, ◌≤◌, ◌<◌, ◌^◌, true, false, length, IfOk, IfErr, OnOk};
ghost use Rattle.std.specs.Io.KnownBytes.{IsAtEnd};
ghost use Rattle.dmr_capture.specs.Reading.{is_of_capture_end, is_capture_read};
ghost use Rattle.dmr_dmrd.specs.Ends.{IfHotspotFault, IfUnrecorded, IfUnheld};
ghost use Rattle.dmr_dmrd.specs.Holding.{AreSlotsHeld, late_or_other, no_hold};
ghost use Rattle.dmr_dmrd.specs.Imports.{IsAllHeld, IsCaptureRecorded, IsCountOf, IsFaultOfCapture, IsRecordingTorn};
ghost use Rattle.dmr_dmrd.specs.Refusals.{IfStoppedAtFault};

use crate::counts::{ImportEnd, ImportedBursts};
use crate::held::Refused;
use crate::hold::{Hold, ImportSettings};
use crate::recording::write_recording;
use dmr_capture::{Capture, CaptureFault, PACKET_LIMIT};
use dmr_record::{Sink, Source};
use std::alloc::Global;

/// Why something that goes through a capture stopped before its end.
#[derive(Clone, Copy, Drop, PartialEq, Eq)]
pub(crate) enum Halt {
    /// The capture is at fault, or a packet asks for a frame past the limit of a recording.
    Capture(CaptureFault),
    /// There was no memory for a burst.
    Memory,
}

/// Takes the packets of a capture, one after the other. `room` takes the octets of a packet, and may hold anything.
fn take_packets<S: Source>(
    settings: &ImportSettings,
    source: &mut S,
    room: &mut [u8],
    hold: &mut Hold,
) -> Result<(), Halt>
    requires source { S.has_failed source.old ≡ false }
    requires room { 262144 ≤ length room.old }
    requires begin { hold.old ≡ no_hold settings.now }
    ensures all { OnOk result (IsAllHeld settings.now hold.new (S.left source.old) (S.left source.new)) }
    ensures held { OnOk result (AreSlotsHeld hold.new) }
    ensures few { OnOk result (late_or_other hold.new < 2 ^ 63) }
    ensures fault { IfErr result (λ e. IfStoppedAtFault e (λ fault. IsFaultOfCapture settings.now fault
        (S.left source.old) (S.left source.new))) }
    ensures cut { IfErr result (λ e. IfStoppedAtFault e (λ fault. is_of_capture_end fault ≡ true → IsAtEnd (S.left source.new))) }
    ensures source { IfErr result (λ e. IfStoppedAtFault e (λ fault. S.has_failed source.new ≡ is_capture_read fault)) }
{
    let mut capture = match Capture::begin(source) {
        Ok(capture) => capture,
        Err(fault) => return Err(Halt::Capture(fault)),
    };
    loop {
        let packet = match capture.next_packet(source, room) {
            Ok(Some(packet)) => packet,
            Ok(None) => return Ok(()),
            Err(fault) => return Err(Halt::Capture(fault)),
        };
        let octets = &room[..packet.length as usize];
        match hold.take(settings, packet, octets) {
            Ok(()) => {}
            Err(Refused::Past) => {
                let octet = packet.octet;
                return Err(Halt::Capture(CaptureFault::TooLong { octet }));
            }
            Err(Refused::Memory) => return Err(Halt::Memory),
        }
    }
}

/// What is counted of what is held.
fn counts_of(hold: &Hold) -> ImportedBursts
    requires held { AreSlotsHeld hold.now }
    requires few { late_or_other hold.now < 2 ^ 63 }
    ensures counts { IsCountOf hold.now result }
{
    let one = hold.one.places();
    let two = hold.two.places();
    ImportedBursts {
        frames: hold.one.line().len().max(hold.two.line().len()) as u32,
        slot_1: one.bursts,
        slot_2: two.bursts,
        lost: one.lost + two.lost,
        late: one.late + two.late,
        other: hold.other,
    }
}

/// Makes a recording of a capture, as a repeater's uplink is recorded, of the packets between a hotspot and its network.
///
/// A packet is taken where IPv4 and UDP carry it whole, it goes the way of `settings`, and its payload has 53 or 55 octets and
/// begins with `DMRD`. All are of one repeater: that of `settings`, or that of the first. Each slot is placed alone, by streams,
/// numbers and times of its packets. Whatever isn't taken is counted, and so are packets that are late. A packet that asks for a
/// frame past the limit of a recording is `TooLong`. Nothing is written before the whole capture was read.
///
/// The capture is a pcap or a pcapng, and its packets are those of the protocol of Homebrew repeaters. The rule of the frames and
/// the recording are this project's own.
pub fn import_dmrd<S: Source, K: Sink>(
    alloc: Global,
    settings: &ImportSettings,
    source: &mut S,
    sink: &mut K,
) -> Result<ImportedBursts, ImportEnd>
    requires source { S.has_failed source.old ≡ false }
    requires sink { K.has_failed sink.old ≡ false }
    // The whole capture was read, and the recording of its packets written.
    ensures whole { IfOk result (λ counted. IsCaptureRecorded settings.now counted
        (S.left source.old) (S.left source.new) (K.held sink.old) (K.held sink.new)) }
    // Or it is at fault, which the octets behind the packets that are held show.
    ensures fault { IfErr result (λ e. IfHotspotFault e (λ fault. IsFaultOfCapture settings.now fault
        (S.left source.old) (S.left source.new))) }
    ensures cut { IfErr result (λ e. IfHotspotFault e (λ fault. is_of_capture_end fault ≡ true → IsAtEnd (S.left source.new))) }
    // Then nothing is written, and nothing where there is no memory.
    ensures unwritten { IfErr result (λ e. IfHotspotFault e (λ fault. sink.new ≡ sink.old)) }
    ensures memory { IfErr result (λ e. IfUnheld e (sink.new ≡ sink.old)) }
    // Or a front of the recording was.
    ensures torn { IfErr result (λ e. IfUnrecorded e (IsRecordingTorn settings.now
        (S.left source.old) (S.left source.new) (K.held sink.old) (K.held sink.new))) }
    // `Read` is told exactly where the source failed, and `Output` where the sink did.
    ensures source { IfErr result (λ e. IfHotspotFault e (λ fault. S.has_failed source.new ≡ is_capture_read fault)) }
    ensures sink { IfErr result (λ e. IfUnrecorded e (K.has_failed sink.new ≡ true)) }
    ensures well { OnOk result (K.has_failed sink.new ≡ false) }
{
    let Ok(mut room) = vec![in alloc; 0u8; PACKET_LIMIT] else {
        return Err(ImportEnd::Memory);
    };
    let mut hold = Hold::none(alloc, settings);
    match take_packets(settings, source, room.as_mut_slice(), &mut hold) {
        Ok(()) => {}
        Err(Halt::Capture(fault)) => return Err(ImportEnd::Capture(fault)),
        Err(Halt::Memory) => return Err(ImportEnd::Memory),
    }
    match write_recording(sink, hold.one.line(), hold.two.line()) {
        Ok(()) => Ok(counts_of(&hold)),
        Err(_) => Err(ImportEnd::Output),
    }
}
