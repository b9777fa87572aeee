//! A listing of a whole outgoing list.
ghost use Rattle.std.specs.Prelude.{◌≡◌, [], List, false, true, length, IfOk, IfErr, OnOk};
ghost use Rattle.std.specs.Io.KnownBytes.{IsAtEnd};
ghost use Rattle.dmr_record.specs.Faults.{is_of_end, is_device_fault};
ghost use Rattle.dmr_record.specs.Outgoing.{Sending};
ghost use Rattle.dmr_recording.specs.Endings.{IfFile, IfNotWritten};
ghost use Rattle.dmr_listing.specs.OutgoingListings.{AreSendingsListed, AreSendingsListedUpToFault, AreSendingsListedUpToLine};

use crate::taker::Taker;
use dmr_record::{Outgoing, Source, read_outgoing};
use dmr_recording::{FaultLine, HEAD_OCTETS, Stop};

/// How many octets stand in a record before its datagram.
const FIELD_OCTETS: u64 = 9;

/// Gives the line of each record of an outgoing list, in their order, as far as the list can be read, and answers how many there
/// are. The source stands behind the head. A fault tells the octet at which its record begins.
pub fn list_outgoing<S: Source, L: Taker<Outgoing>>(
    source: &mut S,
    lines: &mut L,
) -> Result<u32, Stop>
    requires source { S.has_failed source.old ≡ false }
    requires lines { L.has_failed lines.old ≡ false }
    // All records were read to the end, and their lines given.
    ensures all { IfOk result (λ count. (sendings : List Sending)
        × AreSendingsListed L.Takes sendings [] (S.left source.old) (S.left source.new) lines.old lines.new
        × (count ≡ length sendings)) }
    ensures end { OnOk result (IsAtEnd (S.left source.new)) }
    // Or the records before the one that shows the fault.
    ensures fault { IfErr result (λ e. IfFile e (λ fault. AreSendingsListedUpToFault L.Takes fault
        (S.left source.old) (S.left source.new) lines.old lines.new)) }
    ensures cut { IfErr result (λ e. IfFile e (λ fault. is_of_end fault.fault ≡ true → IsAtEnd (S.left source.new))) }
    // Or the records before the one that was refused.
    ensures output { IfErr result (λ e. IfNotWritten e (AreSendingsListedUpToLine L.Takes L.Refuses
        (S.left source.old) (S.left source.new) lines.old lines.new)) }
    // `Read` is told exactly where the source failed, and `Output` where the lines did.
    ensures source { IfErr result (λ e. IfFile e (λ fault. S.has_failed source.new ≡ is_device_fault fault.fault)) }
    ensures lines { IfErr result (λ e. IfNotWritten e (L.has_failed lines.new ≡ true)) }
    ensures others { IfErr result (λ e. IfFile e (λ fault. L.has_failed lines.new ≡ false)) }
    ensures well { OnOk result ((S.has_failed source.new ≡ false) × (L.has_failed lines.new ≡ false)) }
    ensures kept { L.kept lines.new ≡ L.kept lines.old }
{
    let mut count = 0;
    let mut last = 0;
    let mut octet = HEAD_OCTETS;
    loop {
        let record = match read_outgoing(source, count, last) {
            Ok(Some(record)) => record,
            Ok(None) => return Ok(count),
            Err(fault) => {
                return Err(Stop::File(FaultLine {
                    fault,
                    octet,
                    place: None,
                }));
            }
        };
        if lines.put(&record).is_err() {
            return Err(Stop::Output);
        }
        count += 1;
        last = record.frame;
        octet += FIELD_OCTETS + u64::from(record.length);
    }
}
