//! A recording, damaged from its head to its end.
ghost use Rattle.std.specs.Prelude.{◌≡◌, ◌+◌, ◌*◌, ◌<◌, ◌≤◌, ◌++◌, ◌∷◌, [], ℕ, List, Option, false, true, length, replicate};
ghost use Rattle.std.specs.Prelude.{IfOk, IfErr, OnOk, OnErr};
ghost use Rattle.std.specs.Io.KnownBytes.{Appends, Consumes, IsAtEnd};
ghost use Rattle.std.specs.List.{AllByRecursion};
ghost use Rattle.dmr_record.specs.Devices.{Tears};
ghost use Rattle.dmr_record.specs.Faults.{is_of_end, is_device_fault};
ghost use Rattle.dmr_record.specs.Uplink.{IsFrame, UplinkSlots, frame_octets, frames_octets, uplink_file};
ghost use Rattle.dmr_damage.specs.Counts.{IsFew, none_damaged_yet};
ghost use Rattle.dmr_damage.specs.Frames.{rest_of};
ghost use Rattle.dmr_damage.specs.Passing.{ArePassed, IfPassFault, IsBehindHead, IsFaultInFrames, IsFrontTorn, IsPassedTorn};
ghost use Rattle.dmr_damage.specs.Passing.{IsReached, IsTornBehind, IsWholeBehind, silence_in_both};
ghost use Rattle.dmr_damage.specs.Recordings.{IfOther, IfRecording, IfRecordingUnwritten, IsDamagedWhole, IsFaultOfRecording};
ghost use Rattle.dmr_damage.specs.Recordings.{IsOfOtherFormat, IsTorn};
ghost use Rattle.dmr_damage.specs.declared.settings.Damage as declared;

use crate::counts::Damaged;
use crate::frames::{Damager, Frame, SILENCE};
use crate::reading::{frame_length, read_pair};
use crate::settings::DamageSettings;
use dmr_record::{
    FileFormat, RecordFault, Sink, Source, UPLINK_MAGIC, read_any_head, write_head,
    write_uplink_slot,
};
use dmr_recording::{FaultLine, HEAD_OCTETS};

/// Why a recording wasn't damaged to its end.
#[derive(Clone, Copy, Drop, PartialEq, Eq)]
pub enum DamageEnd {
    /// The recording is at fault. The whole frames before that were written.
    File(FaultLine),
    /// The file is of another format. Nothing was written.
    NotUplink,
    /// The output could not be written.
    Output,
}

/// Writes both slots of a frame.
fn write_frame<K: Sink>(sink: &mut K, frame: &Frame) -> Result<(), RecordFault>
    requires well { K.has_failed sink.old ≡ false }
    ensures frame { OnOk result (Appends (K.held sink.old) (K.held sink.new) (frame_octets frame.now)) }
    ensures well { OnOk result (K.has_failed sink.new ≡ false) }
    ensures failed { OnErr result (K.has_failed sink.new ≡ true) }
    ensures torn { OnErr result (Tears (K.held sink.old) (K.held sink.new) (frame_octets frame.now)) }
{
    if let Err(fault) = write_uplink_slot(sink, frame[0]) {
        return Err(fault);
    }
    write_uplink_slot(sink, frame[1])
}

/// Takes a frame, and writes and counts the one that is decided then, where one is.
fn pass<K: Sink>(
    damager: &mut Damager,
    counts: &mut Damaged,
    frame: &Frame,
    sink: &mut K,
) -> Result<(), RecordFault>
    requires well { K.has_failed sink.old ≡ false }
    requires few { IsFew (2 * counts.old.frames) counts.old }
    requires frames { counts.old.frames < 2000000 }
    requires frame { IsFrame frame.now }
    ensures passed { OnOk result ((damage : declared.Damage) (frames outs : List UplinkSlots) (held : Option (List ℕ))
        → ArePassed damage damager.old counts.old frames outs held (K.held sink.old)
        → (more : List UplinkSlots)
        × ArePassed damage damager.new counts.new (frames ++ frame.now ∷ []) more held (K.held sink.new)) }
    ensures torn { OnErr result ((damage : declared.Damage) (frames outs : List UplinkSlots) (held : Option (List ℕ))
        → ArePassed damage damager.old counts.old frames outs held (K.held sink.old)
        → IsPassedTorn damage damager.new (frames ++ frame.now ∷ []) held (K.held sink.new)) }
    ensures few { OnOk result (IsFew (2 * counts.new.frames) counts.new) }
    ensures frames { OnOk result (counts.new.frames ≤ counts.old.frames + 1) }
    ensures rest { rest_of damager.new ≡ rest_of damager.old }
    ensures well { OnOk result (K.has_failed sink.new ≡ false) }
    ensures failed { OnErr result (K.has_failed sink.new ≡ true) }
{
    match damager.take(frame) {
        None => Ok(()),
        Some(pair) => {
            if let Err(fault) = write_frame(sink, &pair.is) {
                return Err(fault);
            }
            counts.count_frame(&pair.was, &pair.is);
            Ok(())
        }
    }
}

/// How reading a recording ended.
#[derive(Clone, Copy, Drop)]
enum PassEnd {
    /// At its end.
    End,
    /// At a fault.
    Fault(FaultLine),
}

/// Passes the frames of a recording behind its head, as far as they can be read.
fn pass_all<S: Source, K: Sink>(
    source: &mut S,
    damager: &mut Damager,
    counts: &mut Damaged,
    sink: &mut K,
) -> Result<PassEnd, RecordFault>
    requires source { S.has_failed source.old ≡ false }
    requires sink { K.has_failed sink.old ≡ false }
    requires counts { counts.old ≡ none_damaged_yet }
    ensures all { IfOk result (λ reached. (damage : declared.Damage) (held : Option (List ℕ))
        → ArePassed damage damager.old counts.old [] [] held (K.held sink.old)
        → (frames outs : List UplinkSlots) × AllByRecursion IsFrame frames
        × ArePassed damage damager.new counts.new frames outs held (K.held sink.new)
        × IsReached reached frames (S.left source.old) (S.left source.new)) }
    ensures cut { IfOk result (λ reached. IfPassFault reached (λ fault. is_of_end fault.fault ≡ true
        → IsAtEnd (S.left source.new))) }
    ensures source { IfOk result (λ reached. IfPassFault reached (λ fault. S.has_failed source.new ≡ is_device_fault fault.fault)) }
    ensures torn { OnErr result ((damage : declared.Damage) (held : Option (List ℕ))
        → ArePassed damage damager.old counts.old [] [] held (K.held sink.old)
        → IsFrontTorn damage damager.new held (K.held sink.new) (S.left source.old) (S.left source.new)) }
    ensures few { OnOk result (IsFew (2 * counts.new.frames) counts.new) }
    ensures frames { OnOk result (counts.new.frames ≤ 1048576) }
    ensures rest { rest_of damager.new ≡ rest_of damager.old }
    ensures well { OnOk result (K.has_failed sink.new ≡ false) }
    ensures failed { OnErr result (K.has_failed sink.new ≡ true) }
{
    let mut frames = 0;
    let mut octet = HEAD_OCTETS;
    loop {
        let frame = match read_pair(source, frames, octet) {
            Ok(Some(frame)) => frame,
            Ok(None) => return Ok(PassEnd::End),
            Err(fault) => return Ok(PassEnd::Fault(fault)),
        };
        if let Err(fault) = pass(damager, counts, &frame, sink) {
            return Err(fault);
        }
        frames += 1;
        octet += frame_length(&frame);
    }
}

/// Passes silence until all frames are decided.
fn pass_rest<K: Sink>(
    damager: &mut Damager,
    counts: &mut Damaged,
    sink: &mut K,
) -> Result<(), RecordFault>
    requires well { K.has_failed sink.old ≡ false }
    requires few { IsFew (2 * counts.old.frames) counts.old }
    requires frames { counts.old.frames ≤ 1048576 }
    ensures passed { OnOk result ((damage : declared.Damage) (frames outs : List UplinkSlots) (held : Option (List ℕ))
        → ArePassed damage damager.old counts.old frames outs held (K.held sink.old)
        → (more : List UplinkSlots) × ArePassed damage damager.new counts.new
        (frames ++ replicate (rest_of damager.new) silence_in_both) more held (K.held sink.new)) }
    ensures torn { OnErr result ((damage : declared.Damage) (frames outs : List UplinkSlots) (held : Option (List ℕ))
        → ArePassed damage damager.old counts.old frames outs held (K.held sink.old)
        → (silent : ℕ) × (silent ≤ rest_of damager.new)
        × IsPassedTorn damage damager.new (frames ++ replicate silent silence_in_both) held (K.held sink.new)) }
    ensures well { OnOk result (K.has_failed sink.new ≡ false) }
    ensures failed { OnErr result (K.has_failed sink.new ≡ true) }
{
    for _past in 0..damager.rest() {
        if let Err(fault) = pass(damager, counts, &SILENCE, sink) {
            return Err(fault);
        }
    }
    Ok(())
}

/// Damages a recording behind its head.
fn damage_frames<S: Source, K: Sink>(
    settings: &DamageSettings,
    source: &mut S,
    sink: &mut K,
) -> Result<Damaged, DamageEnd>
    requires source { S.has_failed source.old ≡ false }
    requires sink { K.has_failed sink.old ≡ false }
    ensures whole { IfOk result (λ counts. (held : Option (List ℕ)) → IsBehindHead held (K.held sink.old)
        → IsWholeBehind settings.now counts (S.left source.old) (S.left source.new) held (K.held sink.new)) }
    ensures fault { IfErr result (λ e. IfRecording e (λ fault. (held : Option (List ℕ)) → IsBehindHead held (K.held sink.old)
        → IsFaultInFrames settings.now fault (S.left source.old) (S.left source.new) held (K.held sink.new))) }
    ensures cut { IfErr result (λ e. IfRecording e (λ fault. is_of_end fault.fault ≡ true → IsAtEnd (S.left source.new))) }
    ensures torn { IfErr result (λ e. IfRecordingUnwritten e ((held : Option (List ℕ)) → IsBehindHead held (K.held sink.old)
        → IsTornBehind settings.now (S.left source.old) (S.left source.new) held (K.held sink.new))) }
    ensures other { IfErr result (λ e. IfOther e ⊥) }
    ensures source { IfErr result (λ e. IfRecording e (λ fault. S.has_failed source.new ≡ is_device_fault fault.fault)) }
    ensures sink { IfErr result (λ e. IfRecordingUnwritten e (K.has_failed sink.new ≡ true)) }
    ensures others { IfErr result (λ e. IfRecording e (λ fault. K.has_failed sink.new ≡ false)) }
    ensures well { OnOk result (K.has_failed sink.new ≡ false) }
{
    let mut damager = Damager::new(settings);
    let mut counts = Damaged::none();
    let reached = match pass_all(source, &mut damager, &mut counts, sink) {
        Ok(reached) => reached,
        Err(_) => return Err(DamageEnd::Output),
    };
    if let Err(_) = pass_rest(&mut damager, &mut counts, sink) {
        return Err(DamageEnd::Output);
    }
    match reached {
        PassEnd::End => Ok(counts),
        PassEnd::Fault(fault) => Err(DamageEnd::File(fault)),
    }
}

/// Writes a recording of the uplink with wrong bits, as far as it can be read, and answers what was done. The source stands before
/// the head. At a rate each frame is written as soon as it was read, and within the limits as soon as the five behind it were.
/// Past its end, and past a fault, a recording is silent. The draws are this project's own.
pub fn damage_recording<S: Source, K: Sink>(
    settings: &DamageSettings,
    source: &mut S,
    sink: &mut K,
) -> Result<Damaged, DamageEnd>
    requires source { S.has_failed source.old ≡ false }
    requires sink { K.has_failed sink.old ≡ false }
    // A recording was read to its end, and as many frames were written, each slot damaged as it may be. The counts are of the two.
    ensures whole { IfOk result (λ counts. IsDamagedWhole settings.now counts
        (S.left source.old) (S.left source.new) (K.held sink.old) (K.held sink.new)) }
    // Or it is at fault, and the whole frames before that were written.
    ensures fault { IfErr result (λ e. IfRecording e (λ fault. IsFaultOfRecording settings.now fault
        (S.left source.old) (S.left source.new) (K.held sink.old) (K.held sink.new))) }
    ensures cut { IfErr result (λ e. IfRecording e (λ fault. is_of_end fault.fault ≡ true → IsAtEnd (S.left source.new))) }
    // Or it is a file of another format, and nothing was written.
    ensures other { IfErr result (λ e. IfOther e (IsOfOtherFormat
        (S.left source.old) (S.left source.new) (K.held sink.old) (K.held sink.new))) }
    // Or a front of what the frames that were read are written as was.
    ensures torn { IfErr result (λ e. IfRecordingUnwritten e (IsTorn settings.now
        (S.left source.old) (S.left source.new) (K.held sink.old) (K.held sink.new))) }
    // `Read` is told exactly where the source failed, and `Output` where the sink did.
    ensures source { IfErr result (λ e. IfRecording e (λ fault. S.has_failed source.new ≡ is_device_fault fault.fault)) }
    ensures sink { IfErr result (λ e. IfRecordingUnwritten e (K.has_failed sink.new ≡ true)) }
    ensures others { IfErr result (λ e. IfRecording e (λ fault. K.has_failed sink.new ≡ false)) }
    ensures well { OnOk result (K.has_failed sink.new ≡ false) }
{
    match read_any_head(source) {
        Ok(FileFormat::Uplink) => {}
        Ok(_) => return Err(DamageEnd::NotUplink),
        Err(fault) => {
            return Err(DamageEnd::File(FaultLine {
                fault,
                octet: 0,
                place: None,
            }));
        }
    }
    if let Err(_) = write_head(sink, UPLINK_MAGIC) {
        return Err(DamageEnd::Output);
    }
    damage_frames(settings, source, sink)
}
