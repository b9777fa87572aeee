//! A listing of a whole recording.
ghost use Rattle.std.specs.Prelude.{◌≡◌, ◌*◌, [], List, false, true, length, IfOk, IfErr, OnOk};
ghost use Rattle.std.specs.Io.KnownBytes.{IsAtEnd};
ghost use Rattle.dmr_record.specs.Faults.{is_of_end, is_device_fault};
ghost use Rattle.dmr_recording.specs.Endings.{IfFile, IfNotWritten};
ghost use Rattle.dmr_listing.specs.ListingRules.{IsListed, IsListedUpToFault, IsListedUpToLine, ListingTurn};
ghost use Rattle.dmr_recording.specs.Recordings.{RecordedSlot};

use crate::listed_burst::ListedBurst;
use crate::recording_view::RecordingView;
use crate::summary::RecordingSummary;
use crate::taker::Taker;
use dmr_record::{NextSlot, Source};
use dmr_recording::{
    FaultLine, HEAD_OCTETS, Place, Recording, Stop, read_recording, record_octets,
};

/// Gives the line of each burst of a recording, in their order, as far as the recording can be read. The source stands behind the
/// head. A fault tells the slot that shows it, and the octet at which its record begins.
pub fn list_recording<S: Source, L: Taker<ListedBurst>>(
    source: &mut S,
    recording: Recording,
    lines: &mut L,
) -> Result<RecordingSummary, Stop>
    requires source { S.has_failed source.old ≡ false }
    requires lines { L.has_failed lines.old ≡ false }
    // All slots were read to the end, and their lines given.
    ensures all { IfOk result (λ summary. (slots : List RecordedSlot) × (end : ListingTurn)
        × IsListed L.Takes recording slots [] end (S.left source.old) (S.left source.new) lines.old lines.new
        × (2 * summary.frames ≡ length slots) × (summary.bursts ≡ end.bursts)) }
    ensures end { OnOk result (IsAtEnd (S.left source.new)) }
    // Or the slots before the one that shows the fault.
    ensures fault { IfErr result (λ e. IfFile e (λ fault. IsListedUpToFault L.Takes recording fault
        (S.left source.old) (S.left source.new) lines.old lines.new)) }
    ensures cut { IfErr result (λ e. IfFile e (λ fault. is_of_end fault.fault ≡ true → IsAtEnd (S.left source.new))) }
    // Or the slots before the one whose line was refused.
    ensures output { IfErr result (λ e. IfNotWritten e (IsListedUpToLine L.Takes L.Refuses recording
        (S.left source.old) (S.left source.new) lines.old lines.new)) }
    // `Read` is told exactly where the source failed, and `Output` where the lines did.
    ensures source { IfErr result (λ e. IfFile e (λ fault. S.has_failed source.new ≡ is_device_fault fault.fault)) }
    ensures lines { IfErr result (λ e. IfNotWritten e (L.has_failed lines.new ≡ true)) }
    ensures others { IfErr result (λ e. IfFile e (λ fault. L.has_failed lines.new ≡ false)) }
    ensures well { OnOk result ((S.has_failed source.new ≡ false) × (L.has_failed lines.new ≡ false)) }
    ensures kept { L.kept lines.new ≡ L.kept lines.old }
{
    let mut view = RecordingView::new();
    let mut octet = HEAD_OCTETS;
    loop {
        let slot = match read_recording(source, recording, view.slots()) {
            Ok(NextSlot::Slot(slot)) => slot,
            Ok(NextSlot::End) => {
                let frames = view.slots() / 2;
                let bursts = view.bursts();
                return Ok(RecordingSummary { frames, bursts });
            }
            Err(fault) => {
                let place = Some(Place::of_slot(view.slots()));
                return Err(Stop::File(FaultLine {
                    fault,
                    octet,
                    place,
                }));
            }
        };
        octet += record_octets(recording, &slot);
        match slot {
            None => view.pass(),
            Some(burst) => {
                let line = view.line(&burst);
                if lines.put(&ListedBurst { burst, line }).is_err() {
                    return Err(Stop::Output);
                }
            }
        }
    }
}
