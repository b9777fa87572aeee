//! The lines of the records of an outgoing list.
ghost use Rattle.std.specs.Prelude.{◌≡◌, ◌≤◌, List, false, true, length, IfOk, IfErr, OnOk};
ghost use Rattle.std.specs.Io.KnownBytes.{IsAtEnd};
ghost use Rattle.dmr_record.specs.Faults.{is_of_end, is_device_fault};
ghost use Rattle.dmr_record.specs.Outgoing.{Sending};
ghost use Rattle.dmr_recording.specs.Endings.{IfFile, IfNotWritten};
ghost use Rattle.dmr_text.specs.Behind.{AreLinesTorn, AreLinesWritten, AreLinesWrittenUpToFault};
ghost use Rattle.dmr_text.specs.Files.File.{Sendings};

use crate::line::Line;
use crate::lines::make_outgoing;
use dmr_record::{Sink, Source, put, read_whole_outgoing};
use dmr_recording::{FaultLine, HEAD_OCTETS, Stop};

/// How many octets stand in a record before its datagram.
const FIELD_OCTETS: u64 = 9;

/// Writes the line of each record of an outgoing list, as far as that can be read, and answers how many there are. The source
/// stands behind the head. `room` takes the octets of a record and `line` is room for a line; both may hold anything. A fault tells
/// the octet at which its record begins.
pub(crate) fn export_sendings<S: Source, K: Sink>(
    source: &mut S,
    room: &mut [u8],
    line: &mut Line,
    sink: &mut K,
) -> Result<u32, Stop>
    requires source { S.has_failed source.old ≡ false }
    requires sink { K.has_failed sink.old ≡ false }
    requires room { 65535 ≤ length room.old }
    // All records were read to the end, and their lines written.
    ensures all { IfOk result (λ count. (sendings : List Sending) × AreLinesWritten (Sendings sendings)
        (S.left source.old) (S.left source.new) (K.held sink.old) (K.held sink.new) × (count ≡ length sendings)) }
    ensures end { OnOk result (IsAtEnd (S.left source.new)) }
    // Or those before the one that shows the fault.
    ensures fault { IfErr result (λ e. IfFile e (λ fault. (sendings : List Sending)
        × AreLinesWrittenUpToFault (Sendings sendings) fault
        (S.left source.old) (S.left source.new) (K.held sink.old) (K.held sink.new))) }
    ensures cut { IfErr result (λ e. IfFile e (λ fault. is_of_end fault.fault ≡ true → IsAtEnd (S.left source.new))) }
    // Or a front of the lines of those that were read.
    ensures output { IfErr result (λ e. IfNotWritten e ((sendings : List Sending) × AreLinesTorn (Sendings sendings)
        (S.left source.old) (S.left source.new) (K.held sink.old) (K.held sink.new))) }
    // `Read` is told exactly where the source failed, and `Output` where the sink did.
    ensures source { IfErr result (λ e. IfFile e (λ fault. S.has_failed source.new ≡ is_device_fault fault.fault)) }
    ensures sink { IfErr result (λ e. IfNotWritten e (K.has_failed sink.new ≡ true)) }
    ensures others { IfErr result (λ e. IfFile e (λ fault. K.has_failed sink.new ≡ false)) }
    ensures well { OnOk result (K.has_failed sink.new ≡ false) }
{
    let mut count = 0;
    let mut last = 0;
    let mut octet = HEAD_OCTETS;
    loop {
        let record = match read_whole_outgoing(source, count, last, room) {
            Ok(Some(record)) => record,
            Ok(None) => return Ok(count),
            Err(fault) => {
                return Err(Stop::File(FaultLine {
                    fault,
                    octet,
                    place: None,
                }));
            }
        };
        make_outgoing(line, record, &room[..record.length as usize]);
        if put(sink, line.as_slice()).is_err() {
            return Err(Stop::Output);
        }
        count += 1;
        last = record.frame;
        octet += FIELD_OCTETS + u64::from(record.length);
    }
}
