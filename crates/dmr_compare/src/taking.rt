//! Places of two recordings, compared one by one.
ghost use Rattle.std.specs.Prelude.{◌≡◌, ◌-◌, ◌^◌, ◌<◌, false, OnOk};
ghost use Rattle.dmr_compare.specs.Kept.{is_same};
ghost use Rattle.dmr_compare.specs.Printed.{PutsPlace};
ghost use Rattle.dmr_compare.specs.Taking.{HasRoom, PutsFound, counted_found, counted_place};
ghost use Rattle.dmr_record.specs.Devices.{failed_after};
ghost use Rattle.dmr_record.specs.NextSlot.{slot_if_any};

use crate::counts::PlaceCounts;
use crate::difference::Difference;
use crate::settings::CompareSettings;
use dmr_listing::ListedBurst;
use dmr_record::{DeviceFault, NextSlot, Sink};
use dmr_recording::Place;

/// Counts a place that both recordings have, and prints its lines where it differs.
fn take_both<K: Sink>(
    settings: &CompareSettings,
    place: Place,
    first: &Option<ListedBurst>,
    second: &Option<ListedBurst>,
    counts: &mut PlaceCounts,
    sink: &mut K,
) -> Result<(), DeviceFault>
    requires sink { K.has_failed sink.old ≡ false }
    requires room { HasRoom counts.old }
    ensures counted { counts.new ≡ counted_place (is_same settings.now.ignored first.now second.now) counts.old }
    ensures lines { OnOk result (PutsPlace settings.now (first.now, second.now) (K.held sink.old) (K.held sink.new)) }
    ensures failed { K.has_failed sink.new ≡ failed_after (K.has_failed sink.old) result }
{
    match Difference::between(settings.ignored, first, second) {
        None => {
            counts.same += 1;
            Ok(())
        }
        Some(difference) => {
            counts.different += 1;
            if settings.is_quiet {
                return Ok(());
            }
            difference.print(place, first, second, sink)
        }
    }
}

/// Counts what was found next in two recordings, and prints its lines where both have something and it differs.
pub(crate) fn take_found<K: Sink>(
    settings: &CompareSettings,
    place: Place,
    first: &NextSlot<ListedBurst>,
    second: &NextSlot<ListedBurst>,
    counts: &mut PlaceCounts,
    sink: &mut K,
) -> Result<(), DeviceFault>
    requires sink { K.has_failed sink.old ≡ false }
    requires room { HasRoom counts.old }
    ensures counted { counts.new ≡ counted_found (is_same settings.now.ignored)
        (slot_if_any first.now) (slot_if_any second.now) counts.old }
    ensures lines { OnOk result (PutsFound (PutsPlace settings.now)
        (slot_if_any first.now) (slot_if_any second.now) (K.held sink.old) (K.held sink.new)) }
    ensures failed { K.has_failed sink.new ≡ failed_after (K.has_failed sink.old) result }
{
    match (first, second) {
        (NextSlot::Slot(first), NextSlot::Slot(second)) => take_both(
            settings, place, first, second, counts, sink,
        ),
        (NextSlot::Slot(_), NextSlot::End) => {
            counts.only_in_first += 1;
            Ok(())
        }
        (NextSlot::End, NextSlot::Slot(_)) => {
            counts.only_in_second += 1;
            Ok(())
        }
        (NextSlot::End, NextSlot::End) => Ok(()),
    }
}
