//! The strips of a whole recording.
ghost use Rattle.std.specs.Prelude.{◌≡◌, ◌*◌, ◌<◌, [], List, false, true, length};
ghost use Rattle.std.specs.Prelude.{IfOk, IfErr, OnOk, OnErr};
ghost use Rattle.std.specs.Io.KnownBytes.{IsAtEnd};
ghost use Rattle.dmr_record.specs.Devices.{failed_after};
ghost use Rattle.dmr_record.specs.Faults.{is_of_end, is_device_fault};
ghost use Rattle.dmr_recording.specs.Endings.{IfFile, IfNotWritten};
ghost use Rattle.dmr_listing.specs.ListingRules.{GivenInTurn, ListingTurn};
ghost use Rattle.dmr_recording.specs.Recordings.{RecordedSlot};
ghost use Rattle.dmr_listing.specs.Strips.{IsGivenWhereFull, IsStripped, IsStrippedUpToFault, IsStrippedUpToStrip};
ghost use Rattle.dmr_listing.specs.Strips.{pushed_in, unless_empty};

use crate::frames::Frames;
use crate::mark::Mark;
use crate::recording_view::RecordingView;
use crate::strip::Strip;
use crate::summary::RecordingSummary;
use crate::taker::Taker;
use dmr_record::{DeviceFault, NextSlot, Source};
use dmr_recording::{
    FaultLine, HEAD_OCTETS, Place, Recording, Stop, read_recording, record_octets,
};

/// Adds the mark of a slot to a strip, where its frame is asked for. A strip that is full then is given, and begun anew.
fn add<L: Taker<Strip>>(
    strip: &mut Strip,
    frames: Frames,
    place: Place,
    mark: Mark,
    lines: &mut L,
) -> Result<(), DeviceFault>
    requires room { length strip.old.marks < 100 }
    requires well { L.has_failed lines.old ≡ false }
    ensures given { OnOk result (IsGivenWhereFull L.Takes (pushed_in frames place mark strip.old) strip.new
        lines.old lines.new) }
    ensures room { OnOk result (length strip.new.marks < 100) }
    ensures none { OnErr result ((length (pushed_in frames place mark strip.old).marks ≡ 100)
        × (strip.new ≡ pushed_in frames place mark strip.old)
        × L.Refuses lines.old (pushed_in frames place mark strip.old) lines.new) }
    ensures failure { L.has_failed lines.new ≡ failed_after (L.has_failed lines.old) result }
    ensures kept { L.kept lines.new ≡ L.kept lines.old }
{
    if frames.has(place.frame) {
        strip.push(place, mark);
    }
    if !strip.is_full() {
        return Ok(());
    }
    lines.put(strip)?;
    *strip = Strip::new();
    Ok(())
}

/// Gives the strip of the last marks, unless there are none.
fn put_rest<L: Taker<Strip>>(strip: &Strip, lines: &mut L) -> Result<(), DeviceFault>
    requires well { L.has_failed lines.old ≡ false }
    ensures given { OnOk result (GivenInTurn L.Takes lines.old (unless_empty strip.now) lines.new) }
    ensures none { OnErr result ((0 < length strip.now.marks) × L.Refuses lines.old strip.now lines.new) }
    ensures failure { L.has_failed lines.new ≡ failed_after (L.has_failed lines.old) result }
    ensures kept { L.kept lines.new ≡ L.kept lines.old }
{
    if strip.is_empty() {
        return Ok(());
    }
    lines.put(strip)
}

/// Gives the strips of a recording, in their order, as far as the recording can be read: what stands in both slots of each of these
/// frames. The source stands behind the head. A fault tells the slot that shows it, and the octet at which its record begins.
pub fn strip_recording<S: Source, L: Taker<Strip>>(
    source: &mut S,
    recording: Recording,
    frames: Frames,
    lines: &mut L,
) -> Result<RecordingSummary, Stop>
    requires source { S.has_failed source.old ≡ false }
    requires lines { L.has_failed lines.old ≡ false }
    // All slots were read to the end, and their strips given.
    ensures all { IfOk result (λ summary. (slots : List RecordedSlot) × (end : ListingTurn)
        × IsStripped L.Takes recording frames slots [] end (S.left source.old) (S.left source.new) lines.old lines.new
        × (2 * summary.frames ≡ length slots) × (summary.bursts ≡ end.bursts)) }
    ensures end { OnOk result (IsAtEnd (S.left source.new)) }
    // Or the slots before the one that shows the fault.
    ensures fault { IfErr result (λ e. IfFile e (λ fault. IsStrippedUpToFault L.Takes recording frames fault
        (S.left source.old) (S.left source.new) lines.old lines.new)) }
    ensures cut { IfErr result (λ e. IfFile e (λ fault. is_of_end fault.fault ≡ true → IsAtEnd (S.left source.new))) }
    // Or the strips before the one that was refused.
    ensures output { IfErr result (λ e. IfNotWritten e (IsStrippedUpToStrip L.Takes L.Refuses recording frames
        (S.left source.old) (S.left source.new) lines.old lines.new)) }
    // `Read` is told exactly where the source failed, and `Output` where the lines did.
    ensures source { IfErr result (λ e. IfFile e (λ fault. S.has_failed source.new ≡ is_device_fault fault.fault)) }
    ensures lines { IfErr result (λ e. IfNotWritten e (L.has_failed lines.new ≡ true)) }
    ensures others { IfErr result (λ e. IfFile e (λ fault. L.has_failed lines.new ≡ false)) }
    ensures well { OnOk result ((S.has_failed source.new ≡ false) × (L.has_failed lines.new ≡ false)) }
    ensures kept { L.kept lines.new ≡ L.kept lines.old }
{
    let mut view = RecordingView::new();
    let mut strip = Strip::new();
    let mut octet = HEAD_OCTETS;
    loop {
        let slot = match read_recording(source, recording, view.slots()) {
            Ok(NextSlot::Slot(slot)) => slot,
            Ok(NextSlot::End) => {
                if put_rest(&strip, lines).is_err() {
                    return Err(Stop::Output);
                }
                let frames = view.slots() / 2;
                let bursts = view.bursts();
                return Ok(RecordingSummary { frames, bursts });
            }
            Err(fault) => {
                if put_rest(&strip, lines).is_err() {
                    return Err(Stop::Output);
                }
                let place = Some(Place::of_slot(view.slots()));
                return Err(Stop::File(FaultLine {
                    fault,
                    octet,
                    place,
                }));
            }
        };
        octet += record_octets(recording, &slot);
        let place = Place::of_slot(view.slots());
        let mark = view.mark(&slot);
        if add(&mut strip, frames, place, mark, lines).is_err() {
            return Err(Stop::Output);
        }
    }
}
