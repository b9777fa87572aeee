//! The two recordings, slot by slot.
ghost use Rattle.std.specs.Prelude.{◌≡◌, ◌%◌, ◌<◌, ◌≤◌, [], List, ℕ, false, true, length, IfOk, IfErr, OnOk};
ghost use Rattle.std.specs.Io.KnownBytes.{Consumes, IsAtEnd};
ghost use Rattle.dmr_record.specs.Downlink.{sent_octets};
ghost use Rattle.dmr_record.specs.Faults.{is_of_end, is_device_fault};
ghost use Rattle.dmr_record.specs.NextSlot.{IfNoSlot, IfSlot};
ghost use Rattle.dmr_record.specs.Uplink.{slot_octets};
ghost use Rattle.dmr_recording.specs.Recordings.{IsSlotOf, ShowsSlotFaultOf, slot_limit_of, spelling};

use dmr_record::{NextSlot, RecordFault, Source, read_slot, read_uplink_slot};

/// Which of the two recordings a file is.
#[derive(Clone, Copy, Drop)]
pub enum Recording {
    /// The bursts that a base station received.
    Uplink,
    /// The bursts that it sends.
    Downlink,
}

/// A burst of a recording.
#[derive(Clone, Copy, Drop)]
pub struct RecordedBurst {
    /// The CACH before it, on the downlink.
    pub cach: Option<[u8; 3]>,
    /// Its 33 octets.
    pub burst: [u8; 33],
}

/// How many octets the record of a silent slot has, and that of a burst without its CACH, and how many a CACH has.
const SILENCE_OCTETS: u64 = 1;

const BURST_OCTETS: u64 = 34;

const CACH_OCTETS: u64 = 3;

/// How many octets the record of a slot has.
pub fn record_octets(recording: Recording, slot: &Option<RecordedBurst>) -> u64
    requires slot { IsSlotOf recording slot.now }
    ensures octets { result ≡ length (spelling recording slot.now) }
    ensures few { result ≤ 37 }
{
    match (recording, slot) {
        (_, None) => SILENCE_OCTETS,
        (Recording::Uplink, Some(_)) => BURST_OCTETS,
        (Recording::Downlink, Some(_)) => BURST_OCTETS + CACH_OCTETS,
    }
}

/// A slot of the uplink file.
fn of_uplink(slot: Option<[u8; 33]>) -> Option<RecordedBurst>
    ensures slot { IsSlotOf Recording.Uplink result }
    ensures octets { spelling Recording.Uplink result ≡ slot_octets slot }
{
    match slot {
        Some(burst) => Some(RecordedBurst { cach: None, burst }),
        None => None,
    }
}

/// A slot of the downlink file.
fn of_downlink(slot: Option<([u8; 3], [u8; 33])>) -> Option<RecordedBurst>
    ensures slot { IsSlotOf Recording.Downlink result }
    ensures octets { spelling Recording.Downlink result ≡ sent_octets slot }
{
    match slot {
        Some(sent) => {
            let cach = sent.0;
            let burst = sent.1;
            let cach = Some(cach);
            Some(RecordedBurst { cach, burst })
        }
        None => None,
    }
}

/// Reads the next slot of a recording behind its head: silence or a burst. It answers `End` at the end of the source, where that
/// is behind slot 2 of a frame or the head. `before` is the number of slots that were read before it. It is
/// `dmr_record::read_uplink_slot` of an uplink, and `dmr_record::read_slot` of a downlink.
pub fn read_recording<S: Source>(
    source: &mut S,
    recording: Recording,
    before: u32,
) -> Result<NextSlot<RecordedBurst>, RecordFault>
    requires well { S.has_failed source.old ≡ false }
    // A slot is what the octets taken spell.
    ensures slot { IfOk result (λ found. IfSlot found (λ slot. (before < slot_limit_of recording) × IsSlotOf recording slot
        × Consumes (S.left source.old) (S.left source.new) (spelling recording slot))) }
    // There is none only at the end, behind whole frames.
    ensures end { IfOk result (λ found. IfNoSlot found ((before % 2 ≡ 0)
        × Consumes (S.left source.old) (S.left source.new) [] × IsAtEnd (S.left source.new))) }
    ensures well { OnOk result (S.has_failed source.new ≡ false) }
    // A fault is shown by the octets taken, all of this slot.
    ensures fault { IfErr result (λ e. (taken : List ℕ) × Consumes (S.left source.old) (S.left source.new) taken
        × ShowsSlotFaultOf recording before e taken) }
    ensures cut { IfErr result (λ e. is_of_end e ≡ true → IsAtEnd (S.left source.new)) }
    // `Read` is told exactly where the device failed.
    ensures device { IfErr result (λ e. S.has_failed source.new ≡ is_device_fault e) }
{
    match recording {
        Recording::Uplink => match read_uplink_slot(source, before) {
            Ok(NextSlot::Slot(slot)) => Ok(NextSlot::Slot(of_uplink(slot))),
            Ok(NextSlot::End) => Ok(NextSlot::End),
            Err(fault) => Err(fault),
        },
        Recording::Downlink => match read_slot(source, before) {
            Ok(NextSlot::Slot(slot)) => Ok(NextSlot::Slot(of_downlink(slot))),
            Ok(NextSlot::End) => Ok(NextSlot::End),
            Err(fault) => Err(fault),
        },
    }
}
