//! The lines of the bursts of a recording.
ghost use Rattle.std.specs.Prelude.{◌≡◌, ◌*◌, List, false, true, length, IfOk, IfErr, OnOk};
ghost use Rattle.std.specs.Io.KnownBytes.{IsAtEnd};
ghost use Rattle.dmr_record.specs.Faults.{is_of_end, is_device_fault};
ghost use Rattle.dmr_recording.specs.Endings.{IfFile, IfNotWritten};
ghost use Rattle.dmr_recording.specs.Recordings.{RecordedSlot};
ghost use Rattle.dmr_text.specs.Behind.{AreLinesTorn, AreLinesWritten, AreLinesWrittenUpToFault};
ghost use Rattle.dmr_text.specs.Files.File.{Slots};

use crate::line::Line;
use crate::lines::make_burst;
use dmr_record::{NextSlot, Sink, Source, put};
use dmr_recording::{
    FaultLine, HEAD_OCTETS, Place, Recording, Stop, read_recording, record_octets,
};

/// Writes the line of each burst of a recording, as far as that can be read, and answers how many frames it has. The source stands
/// behind the head. `line` is room for a line, and may hold anything. A fault tells the slot that shows it, and the octet at which
/// its record begins.
pub(crate) fn export_slots<S: Source, K: Sink>(
    source: &mut S,
    recording: Recording,
    line: &mut Line,
    sink: &mut K,
) -> Result<u32, Stop>
    requires source { S.has_failed source.old ≡ false }
    requires sink { K.has_failed sink.old ≡ false }
    // All slots were read to the end, and the lines of their bursts written.
    ensures all { IfOk result (λ frames. (slots : List RecordedSlot) × AreLinesWritten (Slots recording slots)
        (S.left source.old) (S.left source.new) (K.held sink.old) (K.held sink.new) × (2 * frames ≡ length slots)) }
    ensures end { OnOk result (IsAtEnd (S.left source.new)) }
    // Or those before the one that shows the fault.
    ensures fault { IfErr result (λ e. IfFile e (λ fault. (slots : List RecordedSlot)
        × AreLinesWrittenUpToFault (Slots recording slots) fault
        (S.left source.old) (S.left source.new) (K.held sink.old) (K.held sink.new))) }
    ensures cut { IfErr result (λ e. IfFile e (λ fault. is_of_end fault.fault ≡ true → IsAtEnd (S.left source.new))) }
    // Or a front of the lines of those that were read.
    ensures output { IfErr result (λ e. IfNotWritten e ((slots : List RecordedSlot) × AreLinesTorn (Slots recording slots)
        (S.left source.old) (S.left source.new) (K.held sink.old) (K.held sink.new))) }
    // `Read` is told exactly where the source failed, and `Output` where the sink did.
    ensures source { IfErr result (λ e. IfFile e (λ fault. S.has_failed source.new ≡ is_device_fault fault.fault)) }
    ensures sink { IfErr result (λ e. IfNotWritten e (K.has_failed sink.new ≡ true)) }
    ensures others { IfErr result (λ e. IfFile e (λ fault. K.has_failed sink.new ≡ false)) }
    ensures well { OnOk result (K.has_failed sink.new ≡ false) }
{
    let mut count = 0;
    let mut octet = HEAD_OCTETS;
    loop {
        let place = Place::of_slot(count);
        let slot = match read_recording(source, recording, count) {
            Ok(NextSlot::Slot(slot)) => slot,
            Ok(NextSlot::End) => return Ok(count / 2),
            Err(fault) => {
                let place = Some(place);
                return Err(Stop::File(FaultLine {
                    fault,
                    octet,
                    place,
                }));
            }
        };
        octet += record_octets(recording, &slot);
        count += 1;
        match slot {
            None => {}
            Some(burst) => {
                make_burst(line, place, &burst);
                if put(sink, line.as_slice()).is_err() {
                    return Err(Stop::Output);
                }
            }
        }
    }
}
