//! Records of two lists, compared one by one.
ghost use Rattle.std.specs.Prelude.{◌≡◌, ◌≤◌, ◌-◌, ◌^◌, ◌<◌, false, length, OnOk};
ghost use Rattle.dmr_compare.specs.ListReading.{length_of, record_found, record_in};
ghost use Rattle.dmr_compare.specs.ListRecords.{PutsRecords, is_same_record};
ghost use Rattle.dmr_compare.specs.Taking.{HasRoom, PutsFound, counted_found, counted_place};
ghost use Rattle.dmr_record.specs.Devices.{failed_after};

use crate::counts::PlaceCounts;
use crate::list_difference::RecordDifference;
use crate::list_record::RecordHead;
use crate::settings::CompareSettings;
use dmr_record::{DeviceFault, Sink};

/// Counts two records with one number, and prints their lines where they differ. Their octets stand at the front of the rooms.
fn take_both<K: Sink>(
    settings: &CompareSettings,
    first: RecordHead,
    first_room: &[u8],
    second: RecordHead,
    second_room: &[u8],
    text: &mut String,
    counts: &mut PlaceCounts,
    sink: &mut K,
) -> Result<(), DeviceFault>
    requires sink { K.has_failed sink.old ≡ false }
    requires first { 65535 ≤ length first_room.now }
    requires second { 65535 ≤ length second_room.now }
    requires room { HasRoom counts.old }
    ensures counted { counts.new ≡ counted_place
        (is_same_record (record_in first first_room.now) (record_in second second_room.now)) counts.old }
    ensures lines { OnOk result (PutsRecords settings.now (record_in first first_room.now, record_in second second_room.now)
        (K.held sink.old) (K.held sink.new)) }
    ensures failed { K.has_failed sink.new ≡ failed_after (K.has_failed sink.old) result }
{
    let first_octets = &first_room[..first.length()];
    let second_octets = &second_room[..second.length()];
    match RecordDifference::between(first, first_octets, second, second_octets) {
        None => {
            counts.same += 1;
            Ok(())
        }
        Some(difference) => {
            counts.different += 1;
            if settings.is_quiet {
                return Ok(());
            }
            difference.print(first, first_octets, second, second_octets, text, sink)
        }
    }
}

/// Counts what was found next in two lists, and prints its lines where both have a record and it differs. The octets of records
/// stand at the front of the rooms. `text` is room for a line, and may hold anything.
pub(crate) fn take_records<K: Sink>(
    settings: &CompareSettings,
    first: Option<RecordHead>,
    first_room: &[u8],
    second: Option<RecordHead>,
    second_room: &[u8],
    text: &mut String,
    counts: &mut PlaceCounts,
    sink: &mut K,
) -> Result<(), DeviceFault>
    requires sink { K.has_failed sink.old ≡ false }
    requires first { 65535 ≤ length first_room.now }
    requires second { 65535 ≤ length second_room.now }
    requires room { HasRoom counts.old }
    ensures counted { counts.new ≡ counted_found is_same_record
        (record_found first first_room.now) (record_found second second_room.now) counts.old }
    ensures lines { OnOk result (PutsFound (PutsRecords settings.now)
        (record_found first first_room.now) (record_found second second_room.now) (K.held sink.old) (K.held sink.new)) }
    ensures failed { K.has_failed sink.new ≡ failed_after (K.has_failed sink.old) result }
{
    match (first, second) {
        (Some(first), Some(second)) => take_both(
            settings,
            first,
            first_room,
            second,
            second_room,
            text,
            counts,
            sink,
        ),
        (Some(_), None) => {
            counts.only_in_first += 1;
            Ok(())
        }
        (None, Some(_)) => {
            counts.only_in_second += 1;
            Ok(())
        }
        (None, None) => Ok(()),
    }
}
