//! An outgoing list of which each line of a text says a record.
ghost use Rattle.std.specs.Prelude.{◌≡◌, ◌≢◌, ℕ, ◌^◌, ◌<◌, ◌≤◌, List, [], ◌∷◌, ◌++◌, Bool, true, false, length, take, codes};
ghost use Rattle.std.specs.Prelude.{IfSome, IfNone, IfOk, IfErr, OnOk, OnErr};
ghost use Rattle.std.specs.Io.KnownBytes.{IsAtEnd};
ghost use Rattle.dmr_record.specs.Head.{record_limit};
ghost use Rattle.dmr_record.specs.Outgoing.{Sending};
ghost use Rattle.dmr_words.specs.Words.{line_words};
ghost use Rattle.dmr_text.specs.Files.File.{Sendings};
ghost use Rattle.dmr_text.specs.Halts.{IfNotGiven, IfText};
ghost use Rattle.dmr_text.specs.SendingLines.{IsSendingLine};
ghost use Rattle.dmr_text.specs.Spelling.{confirmed_word, rate_word};
ghost use Rattle.dmr_text.specs.Telling.{IsStopped, IsTakenWhole, IsTornIn};
ghost use Rattle.dmr_text.specs.TextFaults.{BeginsWith, IsOfRecord, ShowsSendingLineFault, is_read};

use crate::fault::{Halt, LineFault, TextFault};
use crate::octets::octets_said;
use crate::said::{LineKind, is_count_said, line_kind, place_said};
use crate::telling::tell_line;
use dmr_record::{OutgoingRecord, RECORD_LIMIT, Sink, Source, write_outgoing};
use dmr_words::{Lines, Words};

/// What a line of an outgoing list says.
#[derive(Clone, Copy, Drop)]
pub(crate) enum SendingLine {
    /// A record, whose octets stand in front of the room.
    Sending(OutgoingRecord),
    /// That it is the last.
    Last,
}

/// Whether a datagram is to be sent as a confirmed packet, as a word.
fn confirmed_said(word: &[u8]) -> Option<bool>
    ensures word { IfSome result (λ confirmed. word.now ≡ confirmed_word confirmed) }
    ensures none { IfNone result ((confirmed : Bool) → word.now ≢ confirmed_word confirmed) }
{
    if word == b"confirmed".as_slice() {
        return Some(true);
    }
    if word == b"unconfirmed".as_slice() {
        return Some(false);
    }
    None
}

/// Whether at rate 1, as a word.
fn full_said(word: &[u8]) -> Option<bool>
    ensures word { IfSome result (λ full. word.now ≡ rate_word full) }
    ensures none { IfNone result ((full : Bool) → word.now ≢ rate_word full) }
{
    if word == b"full".as_slice() {
        return Some(true);
    }
    if word == b"half".as_slice() {
        return Some(false);
    }
    None
}

/// How a datagram is to be sent.
#[derive(Clone, Copy, Drop)]
struct Mode {
    confirmed: bool,
    full: bool,
}

/// How a datagram is to be sent, by the two words that words begin with. The words behind them are left.
fn mode_said(words: &mut Words) -> Option<Mode>
    ensures mode { IfSome result (λ mode. words.old ≡ confirmed_word mode.confirmed ∷ rate_word mode.full ∷ words.new) }
    ensures none { IfNone result ((confirmed full : Bool) (behind : List (List ℕ))
        → words.old ≢ confirmed_word confirmed ∷ rate_word full ∷ behind) }
{
    let confirmed = confirmed_said(words.next()?)?;
    let full = full_said(words.next()?)?;
    Some(Mode { confirmed, full })
}

/// What a line says that isn't the last, behind so many records, the last of which has this frame. Its octets go to the room.
fn record_said(
    line: &[u8],
    count: u32,
    last: u32,
    room: &mut [u8],
) -> Result<SendingLine, TextFault>
    requires record { IsOfRecord (line_words line.now) }
    requires room { length room.old ≡ 65535 }
    ensures said { IfOk result (IsSendingLine count last room.new (line_words line.now)) }
    ensures fault { IfErr result (λ e. ShowsSendingLineFault count last e (line_words line.now)) }
    ensures read { IfErr result (λ e. is_read e ≡ false) }
{
    let mut words = Words::new(line);
    let Some(place) = place_said(&mut words) else {
        return Err(TextFault::WrongNumber);
    };
    if count >= RECORD_LIMIT {
        return Err(TextFault::TooLong);
    }
    if place.frame < last {
        return Err(TextFault::PlacesDontGrow);
    }
    let Some(mode) = mode_said(&mut words) else {
        return Err(TextFault::WrongMode);
    };
    match octets_said(&mut words, room) {
        Some(length) => Ok(SendingLine::Sending(OutgoingRecord {
            frame: place.frame,
            slot: place.slot,
            confirmed: mode.confirmed,
            full: mode.full,
            length,
        })),
        None => Err(TextFault::WrongOctets),
    }
}

/// What a line says behind so many records, the last of which has this frame.
fn sending_line_said(
    line: &[u8],
    count: u32,
    last: u32,
    room: &mut [u8],
) -> Result<SendingLine, TextFault>
    requires room { length room.old ≡ 65535 }
    ensures said { IfOk result (IsSendingLine count last room.new (line_words line.now)) }
    ensures fault { IfErr result (λ e. ShowsSendingLineFault count last e (line_words line.now)) }
    ensures read { IfErr result (λ e. is_read e ≡ false) }
{
    match line_kind(line) {
        LineKind::Frames => Err(TextFault::NoLastLine),
        LineKind::Records if is_count_said(line, count) => Ok(SendingLine::Last),
        LineKind::Records => Err(TextFault::WrongNumber),
        LineKind::Record => record_said(line, count, last, room),
    }
}

/// Writes the records of an outgoing list that the lines of a text say, to the line that says how many there are, and answers that.
/// The first line was read. Each record is written as soon as its line was read.
pub(crate) fn import_sendings<S: Source, K: Sink>(
    source: &mut S,
    lines: &mut Lines,
    room: &mut [u8],
    sink: &mut K,
) -> Result<u32, Halt>
    requires source { S.has_failed source.old ≡ false }
    requires over { lines.old.is_over ≡ true → IsAtEnd (S.left source.old) }
    requires sink { K.has_failed sink.old ≡ false }
    requires room { length room.old ≡ 65535 }
    // All lines to the last were read, and the records that they say written.
    ensures all { IfOk result (λ records. (sendings : List Sending) × (records ≡ length sendings)
        × IsTakenWhole (Sendings sendings) lines.old lines.new
        (S.left source.old) (S.left source.new) (K.held sink.old) (K.held sink.new)) }
    ensures over { OnOk result (lines.new.is_over ≡ true → IsAtEnd (S.left source.new)) }
    ensures source { OnOk result (S.has_failed source.new ≡ false) }
    ensures sink { OnOk result (K.has_failed sink.new ≡ false) }
    // Or those before a fault.
    ensures fault { IfErr result (λ e. IfText e (λ fault. (sendings : List Sending)
        × IsStopped TextFault.NoLastLine (Sendings sendings) fault lines.old
        (S.left source.old) (S.left source.new) (K.held sink.old) (K.held sink.new))) }
    ensures read { IfErr result (λ e. IfText e (λ fault. S.has_failed source.new ≡ is_read fault.fault)) }
    ensures others { IfErr result (λ e. IfText e (λ fault. K.has_failed sink.new ≡ false)) }
    // Or a front of those that were said.
    ensures torn { IfErr result (λ e. IfNotGiven e ((sendings : List Sending) × IsTornIn (Sendings sendings) lines.old lines.new
        (S.left source.old) (S.left source.new) (K.held sink.old) (K.held sink.new))) }
    ensures failed { IfErr result (λ e. IfNotGiven e (K.has_failed sink.new ≡ true)) }
{
    let mut count = 0;
    let mut last = 0;
    loop {
        if let Err(fault) = tell_line(lines, source, TextFault::NoLastLine) {
            return Err(Halt::Text(fault));
        }
        match sending_line_said(lines.line(), count, last, room) {
            Ok(SendingLine::Sending(sending)) => {
                let octets = &room[..usize::from(sending.length)];
                let OutgoingRecord {
                    frame,
                    slot,
                    confirmed,
                    full,
                    length: _,
                } = sending;
                if write_outgoing(sink, frame, slot, confirmed, full, octets).is_err() {
                    return Err(Halt::Output);
                }
                count += 1;
                last = frame;
            }
            Ok(SendingLine::Last) => return Ok(count),
            Err(fault) => {
                let line = lines.number();
                return Err(Halt::Text(LineFault { line, fault }));
            }
        }
    }
}
