//! The frames of a recording, read.
ghost use Rattle.std.specs.Prelude.{◌≡◌, ◌+◌, ◌*◌, ◌<◌, ◌≤◌, List, ℕ, [], false, true, length, IfOk, IfErr, IfSome, IfNone, OnOk};
ghost use Rattle.std.specs.Io.KnownBytes.{Consumes, IsAtEnd};
ghost use Rattle.dmr_record.specs.Faults.{is_of_end, is_device_fault};
ghost use Rattle.dmr_record.specs.Head.{frame_limit};
ghost use Rattle.dmr_record.specs.Uplink.{IsFrame, IsSilenceOrBurst, frame_octets, slot_octets};
ghost use Rattle.dmr_damage.specs.Recordings.{IsFrameFault};

use crate::frames::Frame;
use dmr_record::{NextSlot, Source, read_uplink_slot};
use dmr_recording::{FaultLine, Place};

/// How many octets the record of a slot has.
fn slot_length(slot: &Option<[u8; 33]>) -> u64
    requires slot { IsSilenceOrBurst slot.now }
    ensures octets { result ≡ length (slot_octets slot.now) }
    ensures few { result ≤ 34 }
{
    match slot {
        None => 1,
        Some(_) => 34,
    }
}

/// Reads slot 1 and slot 2 of the next frame of an uplink file behind its head, or answers that it is at its end. So many frames
/// were read before it, and it begins at this octet of the file.
pub(crate) fn read_pair<S: Source>(
    source: &mut S,
    frames: u32,
    octet: u64,
) -> Result<Option<Frame>, FaultLine>
    requires well { S.has_failed source.old ≡ false }
    requires frames { frames ≤ frame_limit }
    requires octet { octet ≤ 8 + 68 * frames }
    // A frame is what the octets taken spell.
    ensures frame { IfOk result (λ found. IfSome found (λ frame. (frames < frame_limit) × IsFrame frame
        × Consumes (S.left source.old) (S.left source.new) (frame_octets frame))) }
    // There is none only at the end.
    ensures end { IfOk result (λ found. IfNone found (Consumes (S.left source.old) (S.left source.new) []
        × IsAtEnd (S.left source.new))) }
    ensures well { OnOk result (S.has_failed source.new ≡ false) }
    // A fault is shown by the octets taken, all of this frame.
    ensures fault { IfErr result (λ fault. (taken : List ℕ) × Consumes (S.left source.old) (S.left source.new) taken
        × IsFrameFault frames octet fault taken) }
    ensures cut { IfErr result (λ fault. is_of_end fault.fault ≡ true → IsAtEnd (S.left source.new)) }
    // `Read` is told exactly where the device failed.
    ensures device { IfErr result (λ fault. S.has_failed source.new ≡ is_device_fault fault.fault) }
{
    let first = match read_uplink_slot(source, 2 * frames) {
        Ok(NextSlot::Slot(slot)) => slot,
        Ok(NextSlot::End) => return Ok(None),
        Err(fault) => {
            let place = Some(Place::of_slot(2 * frames));
            return Err(FaultLine {
                fault,
                octet,
                place,
            });
        }
    };
    match read_uplink_slot(source, 2 * frames + 1) {
        Ok(NextSlot::Slot(second)) => Ok(Some([first, second])),
        // Behind slot 1 no recording is at its end.
        Ok(NextSlot::End) => Ok(None),
        Err(fault) => {
            let place = Some(Place::of_slot(2 * frames + 1));
            let octet = octet + slot_length(&first);
            Err(FaultLine {
                fault,
                octet,
                place,
            })
        }
    }
}

/// How many octets the records of a frame have.
pub(crate) fn frame_length(frame: &Frame) -> u64
    requires frame { IsFrame frame.now }
    ensures octets { result ≡ length (frame_octets frame.now) }
    ensures few { result ≤ 68 }
{
    slot_length(&frame[0]) + slot_length(&frame[1])
}
