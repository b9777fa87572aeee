//! A listing of a whole received list.
ghost use Rattle.std.specs.Prelude.{◌≡◌, ◌≤◌, [], List, false, true, length, take, IfOk, IfErr, OnOk};
ghost use Rattle.std.specs.Io.KnownBytes.{IsAtEnd};
ghost use Rattle.dmr_record.specs.Faults.{is_of_end, is_device_fault};
ghost use Rattle.dmr_record.specs.Received.{Receipt, receipt_of};
ghost use Rattle.dmr_recording.specs.Endings.{IfFile, IfNotWritten};
ghost use Rattle.dmr_listing.specs.ReceivedListings.{AreReceiptsListed, AreReceiptsListedUpToFault, AreReceiptsListedUpToLine};

use crate::record_line::ReceivedLine;
use crate::taker::Taker;
use dmr_record::{Received, Source, read_received};
use dmr_recording::{FaultLine, HEAD_OCTETS, Stop};
use std::marker::Model;

/// A record of a received list in the room into which it was read.
#[derive(Drop)]
pub struct ReceivedRecord<'r> {
    received: Received,
    /// Its octets stand in front.
    room: &'r mut [u8],
}

impl<'r> Model for ReceivedRecord<'r> {
    ghost Value = { Receipt };

    ghost view = { λ r. receipt_of r.received (take r.received.length r.room.now) };

    ghost invariant = { λ r. r.received.length ≤ length r.room.now };
}

impl ReceivedRecord<'_> {
    /// Its line.
    pub fn line(&self) -> ReceivedLine<'_>
        ensures value { receipt_of result.record result.octets.now ≡ self.now }
        ensures length { length result.octets.now ≡ result.record.length }
    {
        ReceivedLine {
            record: self.received,
            octets: &self.room[..self.received.length as usize],
        }
    }
}

/// How many octets stand in a record before those that came.
const FIELD_OCTETS: u64 = 12;

/// Gives the line of each record of a received list, in their order, as far as the list can be read, and answers how many there
/// are. The source stands behind the head. `room` takes the octets of a record, and may hold anything. A fault tells the octet at
/// which its record begins.
pub fn list_received<'r, S: Source, L: Taker<ReceivedRecord<'r>>>(
    source: &mut S,
    mut room: &'r mut [u8],
    lines: &mut L,
) -> Result<u32, Stop>
    requires source { S.has_failed source.old ≡ false }
    requires lines { L.has_failed lines.old ≡ false }
    requires room { 65535 ≤ length room.old }
    // All records were read to the end, and their lines given.
    ensures all { IfOk result (λ count. (receipts : List Receipt)
        × AreReceiptsListed L.Takes receipts [] (S.left source.old) (S.left source.new) lines.old lines.new
        × (count ≡ length receipts)) }
    ensures end { OnOk result (IsAtEnd (S.left source.new)) }
    // Or the records before the one that shows the fault.
    ensures fault { IfErr result (λ e. IfFile e (λ fault. AreReceiptsListedUpToFault L.Takes fault
        (S.left source.old) (S.left source.new) lines.old lines.new)) }
    ensures cut { IfErr result (λ e. IfFile e (λ fault. is_of_end fault.fault ≡ true → IsAtEnd (S.left source.new))) }
    // Or the records before the one that was refused.
    ensures output { IfErr result (λ e. IfNotWritten e (AreReceiptsListedUpToLine L.Takes L.Refuses
        (S.left source.old) (S.left source.new) lines.old lines.new)) }
    // `Read` is told exactly where the source failed, and `Output` where the lines did.
    ensures source { IfErr result (λ e. IfFile e (λ fault. S.has_failed source.new ≡ is_device_fault fault.fault)) }
    ensures lines { IfErr result (λ e. IfNotWritten e (L.has_failed lines.new ≡ true)) }
    ensures others { IfErr result (λ e. IfFile e (λ fault. L.has_failed lines.new ≡ false)) }
    ensures well { OnOk result ((S.has_failed source.new ≡ false) × (L.has_failed lines.new ≡ false)) }
    ensures kept { L.kept lines.new ≡ L.kept lines.old }
{
    let mut count = 0;
    let mut last = None;
    let mut octet = HEAD_OCTETS;
    loop {
        let received = match read_received(source, count, last, room) {
            Ok(Some(received)) => received,
            Ok(None) => return Ok(count),
            Err(fault) => {
                return Err(Stop::File(FaultLine {
                    fault,
                    octet,
                    place: None,
                }));
            }
        };
        let record = ReceivedRecord { received, room };
        if lines.put(&record).is_err() {
            return Err(Stop::Output);
        }
        // The next one is read into the same room.
        ReceivedRecord { room, .. } = record;
        count += 1;
        last = Some(received);
        octet += FIELD_OCTETS + u64::from(received.length);
    }
}
