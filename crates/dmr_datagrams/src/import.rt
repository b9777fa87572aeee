//! An outgoing list of a capture.
ghost use Rattle.std.specs.Prelude.{◌≡◌, ◌≤◌, true, false, length, IfOk, IfErr, OnOk};
ghost use Rattle.std.specs.Io.KnownBytes.{IsAtEnd};
ghost use Rattle.dmr_record.specs.Received.{IsSlot};
ghost use Rattle.dmr_capture.specs.Reading.{is_of_capture_end, is_capture_read};
ghost use Rattle.dmr_datagrams.specs.Ends.{IfCaptureAtFault, IfListUnwritten, IfImportMemory, IsNothingCarried};
ghost use Rattle.dmr_datagrams.specs.Halts.{IfCapture, IfListNotGiven};
ghost use Rattle.dmr_datagrams.specs.Imports.{IsCaptureImported, IsImportFault, IsListTorn};

use crate::ends::{ImportEnd, ImportedDatagrams};
use crate::progress::{ImportSettings, ListedSoFar, Untaken};
use dmr_capture::{Capture, CaptureFault, PACKET_LIMIT};
use dmr_record::{OUTGOING_MAGIC, Sink, Source, write_head};
use std::alloc::Global;

/// Why something that goes through a capture stopped before its end.
#[derive(Clone, Copy, Drop, PartialEq, Eq)]
pub(crate) enum Halt {
    /// The capture is at fault, or a packet asks for a record past the limit of the list.
    Capture(CaptureFault),
    /// What was made of a packet could not be given.
    Output,
}

/// Writes the outgoing list of a capture. `room` takes the octets of a packet, and may hold anything.
fn import_list<S: Source, K: Sink>(
    settings: ImportSettings,
    source: &mut S,
    room: &mut [u8],
    sink: &mut K,
) -> Result<ImportedDatagrams, Halt>
    requires slot { IsSlot settings.slot }
    requires source { S.has_failed source.old ≡ false }
    requires sink { K.has_failed sink.old ≡ false }
    requires room { 262144 ≤ length room.old }
    ensures whole { IfOk result (λ counted. IsCaptureImported settings counted
        (S.left source.old) (S.left source.new) (K.held sink.old) (K.held sink.new)) }
    ensures fault { IfErr result (λ e. IfCapture e (λ fault. IsImportFault settings fault
        (S.left source.old) (S.left source.new) (K.held sink.old) (K.held sink.new))) }
    ensures cut { IfErr result (λ e. IfCapture e (λ fault. is_of_capture_end fault ≡ true → IsAtEnd (S.left source.new))) }
    ensures torn { IfErr result (λ e. IfListNotGiven e (IsListTorn settings
        (S.left source.old) (S.left source.new) (K.held sink.old) (K.held sink.new))) }
    ensures source { IfErr result (λ e. IfCapture e (λ fault. S.has_failed source.new ≡ is_capture_read fault)) }
    ensures sink { IfErr result (λ e. IfListNotGiven e (K.has_failed sink.new ≡ true)) }
    ensures others { IfErr result (λ e. IfCapture e (λ fault. K.has_failed sink.new ≡ false)) }
    ensures well { OnOk result (K.has_failed sink.new ≡ false) }
{
    let mut capture = match Capture::begin(source) {
        Ok(capture) => capture,
        Err(fault) => return Err(Halt::Capture(fault)),
    };
    if write_head(sink, OUTGOING_MAGIC).is_err() {
        return Err(Halt::Output);
    }
    let mut packets: u64 = 0;
    let mut progress = ListedSoFar::new();
    loop {
        let packet = match capture.next_packet(source, room) {
            Ok(Some(packet)) => packet,
            Ok(None) => {
                let records = progress.records;
                let other = packets - u64::from(records);
                return Ok(ImportedDatagrams { records, other });
            }
            Err(fault) => return Err(Halt::Capture(fault)),
        };
        let octets = &room[..packet.length as usize];
        match progress.take(settings, packet, octets, sink) {
            Ok(further) => progress = further,
            Err(Untaken::Past) => {
                let octet = packet.octet;
                return Err(Halt::Capture(CaptureFault::TooLong { octet }));
            }
            Err(Untaken::Torn) => return Err(Halt::Output),
        }
        packets += 1;
    }
}

/// Writes an outgoing list of the datagrams of a capture that are for radios, as far as the capture can be read, and answers how
/// many there are. The source stands in front of the capture. Each record is written as soon as its packet was read.
///
/// A record is written for each IPv4 packet whose destination begins with 12 or 225. Nothing else of it is judged. Its frame is the
/// first one, and one more for each 60 milliseconds that its packet came behind the first that was taken, but none before the last.
/// A packet that asks for a record past the limit of the list, or for a frame of more than 32 bits, is `TooLong`. The capture is a
/// pcap or a pcapng, and the list this project's own.
pub fn import_datagrams<S: Source, K: Sink>(
    alloc: Global,
    settings: ImportSettings,
    source: &mut S,
    sink: &mut K,
) -> Result<ImportedDatagrams, ImportEnd>
    requires slot { IsSlot settings.slot }
    requires source { S.has_failed source.old ≡ false }
    requires sink { K.has_failed sink.old ≡ false }
    // The whole capture was read, and the list of its datagrams written.
    ensures whole { IfOk result (λ counted. IsCaptureImported settings counted
        (S.left source.old) (S.left source.new) (K.held sink.old) (K.held sink.new)) }
    // Or it is at fault, and the list of what stands before that was written.
    ensures fault { IfErr result (λ e. IfCaptureAtFault e (λ fault. IsImportFault settings fault
        (S.left source.old) (S.left source.new) (K.held sink.old) (K.held sink.new))) }
    ensures cut { IfErr result (λ e. IfCaptureAtFault e (λ fault. is_of_capture_end fault ≡ true → IsAtEnd (S.left source.new))) }
    // Or a front of the list of what was read was.
    ensures torn { IfErr result (λ e. IfListUnwritten e (IsListTorn settings
        (S.left source.old) (S.left source.new) (K.held sink.old) (K.held sink.new))) }
    ensures memory { IfErr result (λ e. IfImportMemory e (IsNothingCarried source.old source.new sink.old sink.new)) }
    // `Read` is told exactly where the source failed, and `Output` where the sink did.
    ensures source { IfErr result (λ e. IfCaptureAtFault e (λ fault. S.has_failed source.new ≡ is_capture_read fault)) }
    ensures sink { IfErr result (λ e. IfListUnwritten e (K.has_failed sink.new ≡ true)) }
    ensures others { IfErr result (λ e. IfCaptureAtFault e (λ fault. K.has_failed sink.new ≡ false)) }
    ensures well { OnOk result (K.has_failed sink.new ≡ false) }
{
    let Ok(mut room) = vec![in alloc; 0u8; PACKET_LIMIT] else {
        return Err(ImportEnd::Memory);
    };
    match import_list(settings, source, room.as_mut_slice(), sink) {
        Ok(counted) => Ok(counted),
        Err(Halt::Capture(fault)) => Err(ImportEnd::Capture(fault)),
        Err(Halt::Output) => Err(ImportEnd::Output),
    }
}
