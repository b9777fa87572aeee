//! A capture of a received list.
ghost use Rattle.std.specs.Prelude.{◌≡◌, ◌≤◌, true, false, length, IfOk, IfErr, OnOk};
ghost use Rattle.std.specs.Io.KnownBytes.{IsAtEnd};
ghost use Rattle.dmr_record.specs.Faults.{is_of_end, is_device_fault};
ghost use Rattle.dmr_recording.specs.Endings.{IfFile, IfNotWritten};
ghost use Rattle.dmr_datagrams.specs.Ends.{IfListAtFault, IfCaptureUnwritten, IfExportMemory, IsNothingCarried};
ghost use Rattle.dmr_datagrams.specs.Exports.{IsCaptureTorn, IsListExported, IsDatagramExportFault};

use crate::ends::{ExportEnd, ExportedDatagrams};
use crate::wanted::{ExportSettings, Unwritten, export_record};
use dmr_capture::write_capture_head;
use dmr_record::{
    OCTET_LIMIT, RECEIVED_MAGIC, RecordFault, Sink, Source, read_head, read_received,
};
use dmr_recording::{FaultLine, HEAD_OCTETS, Stop};
use std::alloc::Global;

/// How many octets stand in a record before what was received.
const FIELD_OCTETS: u64 = 12;

/// A fault of the record that begins at this octet.
fn fault_at(fault: RecordFault, octet: u64) -> Stop
    ensures stop { result ≡ Stop.File (record { fault = fault; octet = octet; place = None }) }
{
    Stop::File(FaultLine {
        fault,
        octet,
        place: None,
    })
}

/// Writes the capture of a received list. `room` takes the octets of a record, and may hold anything.
fn export_list<S: Source, K: Sink>(
    settings: ExportSettings,
    source: &mut S,
    room: &mut [u8],
    sink: &mut K,
) -> Result<ExportedDatagrams, Stop>
    requires source { S.has_failed source.old ≡ false }
    requires sink { K.has_failed sink.old ≡ false }
    requires room { 65535 ≤ length room.old }
    ensures whole { IfOk result (λ counted. IsListExported settings counted
        (S.left source.old) (S.left source.new) (K.held sink.old) (K.held sink.new)) }
    ensures fault { IfErr result (λ e. IfFile e (λ fault. IsDatagramExportFault settings fault
        (S.left source.old) (S.left source.new) (K.held sink.old) (K.held sink.new))) }
    ensures cut { IfErr result (λ e. IfFile e (λ fault. is_of_end fault.fault ≡ true → IsAtEnd (S.left source.new))) }
    ensures torn { IfErr result (λ e. IfNotWritten e (IsCaptureTorn settings
        (S.left source.old) (S.left source.new) (K.held sink.old) (K.held sink.new))) }
    ensures source { IfErr result (λ e. IfFile e (λ fault. S.has_failed source.new ≡ is_device_fault fault.fault)) }
    ensures sink { IfErr result (λ e. IfNotWritten e (K.has_failed sink.new ≡ true)) }
    ensures others { IfErr result (λ e. IfFile e (λ fault. K.has_failed sink.new ≡ false)) }
    ensures well { OnOk result (K.has_failed sink.new ≡ false) }
{
    if let Err(fault) = read_head(source, RECEIVED_MAGIC) {
        return Err(fault_at(fault, 0));
    }
    if write_capture_head(sink).is_err() {
        return Err(Stop::Output);
    }
    let mut records = 0;
    let mut written = 0;
    let mut last = None;
    let mut octet = HEAD_OCTETS;
    loop {
        let received = match read_received(source, records, last, room) {
            Ok(Some(received)) => received,
            Ok(None) => return Ok(ExportedDatagrams { records, written }),
            Err(fault) => return Err(fault_at(fault, octet)),
        };
        let octets = &room[..usize::from(received.length)];
        match export_record(settings, received, octets, sink) {
            Ok(count) => written += count,
            Err(Unwritten::Late) => return Err(fault_at(RecordFault::TooLong, octet)),
            Err(Unwritten::Torn) => return Err(Stop::Output),
        }
        records += 1;
        last = Some(received);
        octet += FIELD_OCTETS + u64::from(received.length);
    }
}

/// Writes the datagrams of a received list as a capture of IPv4 packets, as far as the list can be read, and answers how many. The
/// source stands before the head. Each packet is written as soon as its record was read.
///
/// A record came 60 milliseconds behind the begin for each frame, and 30 more in slot 2. One that came later than a capture can
/// say, in 32 bits of seconds, is `TooLong`. The list is this project's own, and the capture a pcap of link type 228.
pub fn export_datagrams<S: Source, K: Sink>(
    alloc: Global,
    settings: ExportSettings,
    source: &mut S,
    sink: &mut K,
) -> Result<ExportedDatagrams, ExportEnd>
    requires source { S.has_failed source.old ≡ false }
    requires sink { K.has_failed sink.old ≡ false }
    // The whole list was read, and the capture of its datagrams written.
    ensures whole { IfOk result (λ counted. IsListExported settings counted
        (S.left source.old) (S.left source.new) (K.held sink.old) (K.held sink.new)) }
    // Or it is at fault, and the capture of what stands before that was written.
    ensures fault { IfErr result (λ e. IfListAtFault e (λ fault. IsDatagramExportFault settings fault
        (S.left source.old) (S.left source.new) (K.held sink.old) (K.held sink.new))) }
    ensures cut { IfErr result (λ e. IfListAtFault e (λ fault. is_of_end fault.fault ≡ true → IsAtEnd (S.left source.new))) }
    // Or a front of the capture of what was read was.
    ensures torn { IfErr result (λ e. IfCaptureUnwritten e (IsCaptureTorn settings
        (S.left source.old) (S.left source.new) (K.held sink.old) (K.held sink.new))) }
    ensures memory { IfErr result (λ e. IfExportMemory e (IsNothingCarried source.old source.new sink.old sink.new)) }
    // `Read` is told exactly where the source failed, and `Output` where the sink did.
    ensures source { IfErr result (λ e. IfListAtFault e (λ fault. S.has_failed source.new ≡ is_device_fault fault.fault)) }
    ensures sink { IfErr result (λ e. IfCaptureUnwritten e (K.has_failed sink.new ≡ true)) }
    ensures others { IfErr result (λ e. IfListAtFault e (λ fault. K.has_failed sink.new ≡ false)) }
    ensures well { OnOk result (K.has_failed sink.new ≡ false) }
{
    let Ok(mut room) = vec![in alloc; 0u8; OCTET_LIMIT] else {
        return Err(ExportEnd::Memory);
    };
    match export_list(settings, source, room.as_mut_slice(), sink) {
        Ok(counted) => Ok(counted),
        Err(Stop::File(fault)) => Err(ExportEnd::File(fault)),
        Err(Stop::Output) => Err(ExportEnd::Output),
    }
}
