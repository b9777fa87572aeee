//! Two recordings, compared slot by slot behind their heads.
ghost use Rattle.std.specs.Prelude.{◌≡◌, List, false, IfOk, IfErr};
ghost use Rattle.std.specs.Io.KnownBytes.{IsAtEnd};
ghost use Rattle.dmr_compare.specs.Comparing.{AreRestsCompared, AreRestsComparedUpTo, DevicesFail};
ghost use Rattle.dmr_compare.specs.Slots.{ListedSlot};

use crate::counts::PlaceCounts;
use crate::reader::SlotReader;
use crate::settings::{CompareSettings, slots_in_front_of_first, slots_in_front_of_second};
use crate::taking::take_found;
use crate::trouble::Trouble;
use dmr_record::{NextSlot, Sink, Source};
use dmr_recording::Recording;

/// Compares two recordings behind their heads, as far as both can be read, and prints the two lines of each difference.
pub(crate) fn compare_recordings<S: Source, T: Source, K: Sink>(
    settings: &CompareSettings,
    recording: Recording,
    first: &mut S,
    second: &mut T,
    sink: &mut K,
) -> Result<PlaceCounts, Trouble>
    requires first { S.has_failed first.old ≡ false }
    requires second { T.has_failed second.old ≡ false }
    requires sink { K.has_failed sink.old ≡ false }
    ensures whole { IfOk result (λ counts. (firsts : List ListedSlot) × (seconds : List ListedSlot)
        × AreRestsCompared settings.now recording firsts seconds counts
        (S.left first.old) (S.left first.new) (T.left second.old) (T.left second.new) (K.held sink.old) (K.held sink.new)) }
    ensures part { IfErr result (λ trouble. AreRestsComparedUpTo settings.now recording trouble
        (S.left first.old) (S.left first.new) (T.left second.old) (T.left second.new) (K.held sink.old) (K.held sink.new)) }
    ensures failed { DevicesFail result (S.has_failed first.new) (T.has_failed second.new) (K.has_failed sink.new) }
{
    let mut one = SlotReader::new(recording);
    let mut other = SlotReader::new(recording);
    if let Err(fault) = one.pass(first, slots_in_front_of_first(settings.shift)) {
        return Err(Trouble::First(fault));
    }
    if let Err(fault) = other.pass(second, slots_in_front_of_second(settings.shift)) {
        return Err(Trouble::Second(fault));
    }
    let mut counts = PlaceCounts::default();
    loop {
        let place = one.place();
        let of_first = match one.next(first) {
            Ok(found) => found,
            Err(fault) => return Err(Trouble::First(fault)),
        };
        let of_second = match other.next(second) {
            Ok(found) => found,
            Err(fault) => return Err(Trouble::Second(fault)),
        };
        if let (NextSlot::End, NextSlot::End) = (&of_first, &of_second) {
            return Ok(counts);
        }
        if take_found(settings, place, &of_first, &of_second, &mut counts, sink).is_err() {
            return Err(Trouble::Output);
        }
    }
}
