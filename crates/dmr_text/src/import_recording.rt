//! A recording of which each line of a text says a burst.
ghost use Rattle.std.specs.Prelude.{◌≡◌, ◌≢◌, ℕ, ◌+◌, ◌*◌, ◌<◌, ◌≤◌, ◌⊎◌, List, [], ◌∷◌, ◌++◌, Some, None, true, false, length};
ghost use Rattle.std.specs.Prelude.{codes};
ghost use Rattle.std.specs.Prelude.{IfSome, IfNone, IfOk, IfErr, OnOk, OnErr};
ghost use Rattle.std.specs.List.{flat_map};
ghost use Rattle.std.proofs.Math.ListN.{replicate};
ghost use Rattle.std.specs.Io.KnownBytes.{Appends, IsAtEnd};
ghost use Rattle.dmr_record.specs.Devices.{Tears};
ghost use Rattle.dmr_recording.specs.Recordings.{IsBurstOf, IsSlotOf, RecordedSlot, slot_limit_of, spelling};
ghost use Rattle.dmr_words.specs.Words.{line_words};
ghost use Rattle.dmr_text.specs.Files.File.{Slots};
ghost use Rattle.dmr_text.specs.Halts.{IfNotGiven, IfText};
ghost use Rattle.dmr_text.specs.Says.{SaysBurst};
ghost use Rattle.dmr_text.specs.SlotLines.{IsSlotLine};
ghost use Rattle.dmr_text.specs.Telling.{IsStopped, IsTakenWhole, IsTornIn};
ghost use Rattle.dmr_text.specs.TextFaults.{BeginsWith, IsOfRecord, ShowsSlotLineFault, is_read};

use crate::digit_pairs::octets_of_digits;
use crate::fault::{Halt, LineFault, TextFault};
use crate::said::{LineKind, count_said, last_word, line_kind, place_said};
use crate::telling::tell_line;
use dmr_record::{
    FRAME_LIMIT, RecordFault, SLOT_LIMIT, Sink, Source, write_slot, write_uplink_slot,
};
use dmr_recording::{Place, RecordedBurst, Recording};
use dmr_words::{Lines, Words};

/// What a line of a recording says.
#[derive(Clone, Copy, Drop)]
pub(crate) enum SlotLine {
    /// A burst in the slot of this number, from 0 on.
    Burst { number: u32, burst: RecordedBurst },
    /// How many frames there are.
    Last { frames: u32 },
}

/// How many slots a recording has at most.
fn slot_limit(recording: Recording) -> u32
    ensures limit { result ≡ slot_limit_of recording }
{
    match recording {
        Recording::Uplink => 2 * FRAME_LIMIT,
        Recording::Downlink => SLOT_LIMIT,
    }
}

/// The burst of an uplink that words say.
fn uplink_burst_said(words: &mut Words) -> Option<RecordedBurst>
    ensures burst { IfSome result (λ burst. SaysBurst Recording.Uplink words.old burst × IsBurstOf Recording.Uplink burst) }
    ensures none { IfNone result ((burst : RecordedBurst) → ¬ SaysBurst Recording.Uplink words.old burst) }
{
    let word = last_word(words)?;
    let burst = octets_of_digits(word)?;
    Some(RecordedBurst { cach: None, burst })
}

/// The burst of a downlink that words say.
fn downlink_burst_said(words: &mut Words) -> Option<RecordedBurst>
    ensures burst { IfSome result (λ burst. SaysBurst Recording.Downlink words.old burst × IsBurstOf Recording.Downlink burst) }
    ensures none { IfNone result ((burst : RecordedBurst) → ¬ SaysBurst Recording.Downlink words.old burst) }
{
    let first = words.next()?;
    let second = last_word(words)?;
    let cach = octets_of_digits(first)?;
    let burst = octets_of_digits(second)?;
    Some(RecordedBurst {
        cach: Some(cach),
        burst,
    })
}

/// The burst of a recording that words say.
fn burst_said(recording: Recording, words: &mut Words) -> Option<RecordedBurst>
    ensures burst { IfSome result (λ burst. SaysBurst recording words.old burst × IsBurstOf recording burst) }
    ensures none { IfNone result ((burst : RecordedBurst) → ¬ SaysBurst recording words.old burst) }
{
    match recording {
        Recording::Uplink => uplink_burst_said(words),
        Recording::Downlink => downlink_burst_said(words),
    }
}

/// What a line says that isn't the last, behind so many slots.
fn burst_line_said(recording: Recording, line: &[u8], count: u32) -> Result<SlotLine, TextFault>
    requires record { IsOfRecord (line_words line.now) }
    requires few { count ≤ slot_limit_of recording }
    ensures said { IfOk result (IsSlotLine recording count (line_words line.now)) }
    ensures fault { IfErr result (λ e. ShowsSlotLineFault recording count e (line_words line.now)) }
    ensures read { IfErr result (λ e. is_read e ≡ false) }
{
    let mut words = Words::new(line);
    let Some(place) = place_said(&mut words) else {
        return Err(TextFault::WrongNumber);
    };
    let limit = slot_limit(recording);
    if place.frame >= limit / 2 {
        return Err(TextFault::TooLong);
    }
    let number = 2 * place.frame + u32::from(place.slot) - 1;
    if number < count {
        return Err(TextFault::PlacesDontGrow);
    }
    match burst_said(recording, &mut words) {
        Some(burst) => Ok(SlotLine::Burst { number, burst }),
        None => Err(TextFault::WrongBurst),
    }
}

/// What the last line says, behind so many slots.
fn frames_said(recording: Recording, line: &[u8], count: u32) -> Result<SlotLine, TextFault>
    requires frames { BeginsWith (codes "frames") (line_words line.now) }
    requires few { count ≤ slot_limit_of recording }
    ensures said { IfOk result (IsSlotLine recording count (line_words line.now)) }
    ensures fault { IfErr result (λ e. ShowsSlotLineFault recording count e (line_words line.now)) }
    ensures read { IfErr result (λ e. is_read e ≡ false) }
{
    let Some(frames) = count_said(line) else {
        return Err(TextFault::WrongNumber);
    };
    let slots = 2 * u64::from(frames);
    if slots < u64::from(count) {
        return Err(TextFault::WrongNumber);
    }
    if slots > u64::from(slot_limit(recording)) {
        return Err(TextFault::TooLong);
    }
    Ok(SlotLine::Last { frames })
}

/// What a line says behind so many slots.
fn slot_line_said(recording: Recording, line: &[u8], count: u32) -> Result<SlotLine, TextFault>
    requires few { count ≤ slot_limit_of recording }
    ensures said { IfOk result (IsSlotLine recording count (line_words line.now)) }
    ensures fault { IfErr result (λ e. ShowsSlotLineFault recording count e (line_words line.now)) }
    ensures read { IfErr result (λ e. is_read e ≡ false) }
{
    match line_kind(line) {
        LineKind::Frames => frames_said(recording, line, count),
        LineKind::Records => Err(TextFault::NoLastLine),
        LineKind::Record => burst_line_said(recording, line, count),
    }
}

/// Writes so many silent slots of a recording.
fn write_silence<K: Sink>(sink: &mut K, recording: Recording, count: u32) -> Result<(), RecordFault>
    requires well { K.has_failed sink.old ≡ false }
    ensures slots { OnOk result
        (Appends (K.held sink.old) (K.held sink.new) (flat_map (spelling recording) (replicate count None))) }
    ensures well { OnOk result (K.has_failed sink.new ≡ false) }
    ensures fault { IfErr result (λ e. e ≡ RecordFault.Write) }
    ensures failed { OnErr result (K.has_failed sink.new ≡ true) }
    ensures torn { OnErr result (Tears (K.held sink.old) (K.held sink.new) (flat_map (spelling recording) (replicate count None))) }
{
    for _past in 0..count {
        if write_uplink_slot(sink, None).is_err() {
            return Err(RecordFault::Write);
        }
    }
    Ok(())
}

/// Writes a burst of a recording.
fn write_burst<K: Sink>(
    sink: &mut K,
    recording: Recording,
    burst: RecordedBurst,
) -> Result<(), RecordFault>
    requires well { K.has_failed sink.old ≡ false }
    requires burst { IsBurstOf recording burst }
    ensures slot { OnOk result (Appends (K.held sink.old) (K.held sink.new) (spelling recording (Some burst))) }
    ensures well { OnOk result (K.has_failed sink.new ≡ false) }
    ensures fault { IfErr result (λ e. e ≡ RecordFault.Write) }
    ensures failed { OnErr result (K.has_failed sink.new ≡ true) }
    ensures torn { OnErr result (Tears (K.held sink.old) (K.held sink.new) (spelling recording (Some burst))) }
{
    let octets = burst.burst;
    match burst.cach {
        None => write_uplink_slot(sink, Some(octets)),
        Some(cach) => write_slot(sink, Some((cach, octets))),
    }
}

/// Writes so many silent slots and a burst behind them.
fn write_named<K: Sink>(
    sink: &mut K,
    recording: Recording,
    silent: u32,
    burst: RecordedBurst,
) -> Result<(), RecordFault>
    requires well { K.has_failed sink.old ≡ false }
    requires burst { IsBurstOf recording burst }
    ensures slots { OnOk result (Appends (K.held sink.old) (K.held sink.new)
        (flat_map (spelling recording) (replicate silent None ++ Some burst ∷ []))) }
    ensures well { OnOk result (K.has_failed sink.new ≡ false) }
    ensures fault { IfErr result (λ e. e ≡ RecordFault.Write) }
    ensures failed { OnErr result (K.has_failed sink.new ≡ true) }
    ensures torn { OnErr result (Tears (K.held sink.old) (K.held sink.new)
        (flat_map (spelling recording) (replicate silent None ++ Some burst ∷ []))) }
{
    write_silence(sink, recording, silent)?;
    write_burst(sink, recording, burst)
}

/// Writes the slots of a recording that the lines of a text say, to the line that says how many frames it has, and answers that.
/// The first line was read. Each burst is written as soon as its line was read, behind the silent slots in front of it.
pub(crate) fn import_slots<S: Source, K: Sink>(
    source: &mut S,
    lines: &mut Lines,
    recording: Recording,
    sink: &mut K,
) -> Result<u32, Halt>
    requires source { S.has_failed source.old ≡ false }
    requires over { lines.old.is_over ≡ true → IsAtEnd (S.left source.old) }
    requires sink { K.has_failed sink.old ≡ false }
    // All lines to the last were read, and the slots that they say written.
    ensures all { IfOk result (λ frames. (slots : List RecordedSlot) × (2 * frames ≡ length slots)
        × IsTakenWhole (Slots recording slots) lines.old lines.new
        (S.left source.old) (S.left source.new) (K.held sink.old) (K.held sink.new)) }
    ensures over { OnOk result (lines.new.is_over ≡ true → IsAtEnd (S.left source.new)) }
    ensures source { OnOk result (S.has_failed source.new ≡ false) }
    ensures sink { OnOk result (K.has_failed sink.new ≡ false) }
    // Or those before a fault.
    ensures fault { IfErr result (λ e. IfText e (λ fault. (slots : List RecordedSlot)
        × IsStopped TextFault.NoLastLine (Slots recording slots) fault lines.old
        (S.left source.old) (S.left source.new) (K.held sink.old) (K.held sink.new))) }
    ensures read { IfErr result (λ e. IfText e (λ fault. S.has_failed source.new ≡ is_read fault.fault)) }
    ensures others { IfErr result (λ e. IfText e (λ fault. K.has_failed sink.new ≡ false)) }
    // Or a front of those that were said.
    ensures torn { IfErr result
        (λ e. IfNotGiven e ((slots : List RecordedSlot) × IsTornIn (Slots recording slots) lines.old lines.new
        (S.left source.old) (S.left source.new) (K.held sink.old) (K.held sink.new))) }
    ensures failed { IfErr result (λ e. IfNotGiven e (K.has_failed sink.new ≡ true)) }
{
    let mut count = 0;
    loop {
        if let Err(fault) = tell_line(lines, source, TextFault::NoLastLine) {
            return Err(Halt::Text(fault));
        }
        match slot_line_said(recording, lines.line(), count) {
            Ok(SlotLine::Burst { number, burst }) => {
                if write_named(sink, recording, number - count, burst).is_err() {
                    return Err(Halt::Output);
                }
                count = number + 1;
            }
            Ok(SlotLine::Last { frames }) => {
                if write_silence(sink, recording, 2 * frames - count).is_err() {
                    return Err(Halt::Output);
                }
                return Ok(frames);
            }
            Err(fault) => {
                let line = lines.number();
                return Err(Halt::Text(LineFault { line, fault }));
            }
        }
    }
}
