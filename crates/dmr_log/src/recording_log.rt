//! The log of a whole recording.
ghost use Rattle.std.specs.Prelude.{◌≡◌, ◌≤◌, ◌<◌, ◌+◌, ◌*◌, ℕ, false, true, length};
ghost use Rattle.std.specs.Prelude.{◌⊎◌, [], IfOk, IfErr, OnOk, OnErr, ◌%◌, ◌^◌};
ghost use Rattle.std.specs.Io.KnownBytes.{Consumes, IsAtEnd};
ghost use Rattle.dmr_log.specs.LogRules as spec;
ghost use Rattle.dmr_log.specs.RecordingLogs.{AreFramesTaken, IsFaultOfSlot, IsLoggedUpToFault, IsRefusedIn};
ghost use Rattle.dmr_log.specs.RecordingLogs.{IsRefusedInRest, IsRestTold, RecordedFrames, silent_frames};
ghost use Rattle.dmr_log.specs.declared.log.LogState as declared;
ghost use Rattle.dmr_record.specs.Devices.{failed_after};
ghost use Rattle.dmr_record.specs.Faults.{is_device_fault};
ghost use Rattle.dmr_record.specs.NextSlot.{IfNoSlot, IfSlot};
ghost use Rattle.dmr_recording.specs.Endings.{IfFile, IfNotWritten};
ghost use Rattle.dmr_recording.specs.Recordings.{IsSlotOf, slot_limit_of, spelling};

use crate::log::{FrameTold, Log, LogCounts};
use dmr_listing::Taker;
use dmr_record::{DeviceFault, NextSlot, Source};
use dmr_recording::{
    FaultLine, HEAD_OCTETS, Place, RecordedBurst, Recording, Stop, read_recording, record_octets,
};

/// What a log ends with.
#[derive(Clone, Copy, Debug, PartialEq, Eq, Drop)]
pub struct LogSummary {
    /// How many frames the recording has.
    pub frames: u32,
    /// What was counted in them.
    pub counts: LogCounts,
}

/// Where a recording is read: how many slots came, and at which octet the next record begins.
#[derive(Clone, Copy, Drop)]
pub(crate) struct ReadAt {
    pub(crate) slots: u32,
    pub(crate) octet: u64,
}

/// Reads the next slot of an uplink. It answers `End` at the end of the source, behind whole frames, and a fault with the slot
/// that shows it.
fn next_slot<S: Source>(
    source: &mut S,
    at: &mut ReadAt,
) -> Result<NextSlot<RecordedBurst>, FaultLine>
    requires well { S.has_failed source.old ≡ false }
    requires few { at.old.slots ≤ slot_limit_of Recording.Uplink }
    requires room { at.old.octet ≤ 8 + 37 * at.old.slots }
    ensures slot { IfOk result (λ found. IfSlot found (λ slot. (at.old.slots < slot_limit_of Recording.Uplink)
        × IsSlotOf Recording.Uplink slot × Consumes (S.left source.old) (S.left source.new) (spelling Recording.Uplink slot)
        × (at.new.slots ≡ at.old.slots + 1)
        × (at.new.octet ≡ at.old.octet + length (spelling Recording.Uplink slot)))) }
    ensures room { IfOk result (λ found. IfSlot found (λ slot. at.new.octet ≤ 8 + 37 * at.new.slots)) }
    ensures end { IfOk result (λ found. IfNoSlot found ((at.old.slots % 2 ≡ 0)
        × Consumes (S.left source.old) (S.left source.new) [] × IsAtEnd (S.left source.new))) }
    ensures well { OnOk result (S.has_failed source.new ≡ false) }
    ensures fault { IfErr result (λ fault. IsFaultOfSlot at.old fault (S.left source.old) (S.left source.new)) }
    ensures device { IfErr result (λ fault. S.has_failed source.new ≡ is_device_fault fault.fault) }
{
    let ReadAt { slots, octet } = *at;
    match read_recording(source, Recording::Uplink, slots) {
        Ok(NextSlot::Slot(slot)) => {
            *at = ReadAt {
                slots: slots + 1,
                octet: octet + record_octets(Recording::Uplink, &slot),
            };
            Ok(NextSlot::Slot(slot))
        }
        Ok(NextSlot::End) => Ok(NextSlot::End),
        Err(fault) => Err(FaultLine {
            fault,
            octet,
            place: Some(Place::of_slot(slots)),
        }),
    }
}

/// The burst of a slot.
fn burst_of(slot: &Option<RecordedBurst>) -> Option<[u8; 33]>
    ensures value { result ≡ spec.recorded_burst slot.now }
{
    match slot {
        Some(recorded) => Some(recorded.burst),
        None => None,
    }
}

/// Takes the frames of a recording, and tells of each, as far as the recording can be read.
fn take_frames<S: Source, L: Taker<FrameTold>>(
    source: &mut S,
    log: &mut Log,
    lines: &mut L,
) -> Result<(), Stop>
    requires source { S.has_failed source.old ≡ false }
    requires lines { L.has_failed lines.old ≡ false }
    requires begin { log.old.taken ≡ 0 }
    ensures all { OnOk result ((frames : RecordedFrames) × AreFramesTaken L.Takes log.old frames [] [] log.new
        (S.left source.old) (S.left source.new) lines.old lines.new × (log.new.taken ≡ length frames)) }
    ensures end { OnOk result (IsAtEnd (S.left source.new)) }
    ensures fault { IfErr result (λ e. IfFile e (λ fault. IsLoggedUpToFault L.Takes fault log.old log.new
        (S.left source.old) (S.left source.new) lines.old lines.new)) }
    ensures few { log.new.taken ≤ 2 ^ 20 }
    ensures source { IfErr result (λ e. IfFile e (λ fault. S.has_failed source.new ≡ is_device_fault fault.fault)) }
    ensures well { OnOk result (S.has_failed source.new ≡ false) }
    ensures lines { OnOk result (L.has_failed lines.new ≡ false) }
    ensures others { IfErr result (λ e. IfFile e (λ fault. L.has_failed lines.new ≡ false)) }
    ensures refused { IfErr result (λ e. IfNotWritten e (L.has_failed lines.new ≡ true)) }
    ensures output { IfErr result (λ e. IfNotWritten e ((frames : RecordedFrames)
        × IsRefusedIn L.Takes L.Refuses log.old frames lines.old lines.new)) }
    ensures kept { L.kept lines.new ≡ L.kept lines.old }
{
    let mut at = ReadAt {
        slots: 0,
        octet: HEAD_OCTETS,
    };
    loop {
        let slot_1 = match next_slot(source, &mut at) {
            Ok(NextSlot::Slot(slot)) => slot,
            Ok(NextSlot::End) => return Ok(()),
            Err(fault) => return Err(Stop::File(fault)),
        };
        let slot_2 = match next_slot(source, &mut at) {
            Ok(NextSlot::Slot(slot)) => slot,
            // There is a fault where a recording ends behind slot 1.
            Ok(NextSlot::End) => return Ok(()),
            Err(fault) => return Err(Stop::File(fault)),
        };
        log.pass(&burst_of(&slot_1), &burst_of(&slot_2));
        if lines.put(log.told()).is_err() {
            return Err(Stop::Output);
        }
    }
}

/// Tells of the last five frames, and of what is open at the end of a recording.
fn tell_rest<L: Taker<FrameTold>>(log: &mut Log, lines: &mut L) -> Result<(), DeviceFault>
    requires lines { L.has_failed lines.old ≡ false }
    requires few { log.old.taken ≤ 2 ^ 20 }
    ensures told { OnOk result (IsRestTold L.Takes log.old log.new lines.old lines.new) }
    ensures output { OnErr result ((count : ℕ) × (count ≤ 5)
        × IsRefusedIn L.Takes L.Refuses log.old (silent_frames count) lines.old lines.new) }
    ensures failure { L.has_failed lines.new ≡ failed_after (L.has_failed lines.old) result }
    ensures kept { L.kept lines.new ≡ L.kept lines.old }
{
    for _past in 0..5u8 {
        log.pass(&None, &None);
        lines.put(log.told())?;
    }
    log.end();
    lines.put(log.told())
}

/// Tells of each frame of an uplink recording what ends in front of it, in order, as far as the recording can be read. The source
/// stands behind the head, and the log is new. A fault tells the slot that shows it, and the octet at which its record begins. Then
/// all is told of the whole frames before it, as at the end of a recording that has no more.
pub fn log_recording<S: Source, L: Taker<FrameTold>>(
    source: &mut S,
    log: &mut Log,
    lines: &mut L,
) -> Result<LogSummary, Stop>
    requires source { S.has_failed source.old ≡ false }
    requires lines { L.has_failed lines.old ≡ false }
    requires begin { log.old.taken ≡ 0 }
    // All frames were read to the end, and told of.
    ensures all { IfOk result (λ summary. (frames : RecordedFrames) × (read : declared.LogState) × (between : L)
        × AreFramesTaken L.Takes log.old frames [] [] read (S.left source.old) (S.left source.new) lines.old between
        × IsRestTold L.Takes read log.new between lines.new
        × (summary.frames ≡ length frames) × (summary.counts ≡ log.new.counts)) }
    ensures end { OnOk result (IsAtEnd (S.left source.new)) }
    // Or those before the slot that shows the fault.
    ensures fault { IfErr result (λ e. IfFile e (λ fault. (read : declared.LogState) × (between : L)
        × IsLoggedUpToFault L.Takes fault log.old read (S.left source.old) (S.left source.new) lines.old between
        × IsRestTold L.Takes read log.new between lines.new)) }
    // Or what was told in front of what was refused.
    ensures output { IfErr result (λ e. IfNotWritten e (
        ((frames : RecordedFrames) × IsRefusedIn L.Takes L.Refuses log.old frames lines.old lines.new)
        ⊎ IsRefusedInRest L.Takes L.Refuses log.old lines.old lines.new)) }
    // `Read` is told exactly where the source failed, and `Output` where the lines did.
    ensures source { IfErr result (λ e. IfFile e (λ fault. S.has_failed source.new ≡ is_device_fault fault.fault)) }
    ensures lines { IfErr result (λ e. IfNotWritten e (L.has_failed lines.new ≡ true)) }
    ensures others { IfErr result (λ e. IfFile e (λ fault. L.has_failed lines.new ≡ false)) }
    ensures well { OnOk result ((S.has_failed source.new ≡ false) × (L.has_failed lines.new ≡ false)) }
    ensures kept { L.kept lines.new ≡ L.kept lines.old }
{
    let read = take_frames(source, log, lines);
    let frames = log.taken();
    match read {
        Ok(()) => match tell_rest(log, lines) {
            Ok(()) => Ok(LogSummary {
                frames,
                counts: log.counts(),
            }),
            Err(_) => Err(Stop::Output),
        },
        Err(Stop::File(fault)) => match tell_rest(log, lines) {
            Ok(()) => Err(Stop::File(fault)),
            Err(_) => Err(Stop::Output),
        },
        Err(Stop::Output) => Err(Stop::Output),
    }
}
