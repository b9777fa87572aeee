//! A received list of which each line of a text says a record.
ghost use Rattle.std.specs.Prelude.{◌≡◌, ◌≢◌, ℕ, ◌^◌, ◌<◌, ◌≤◌, ◌↔◌, List, [], ◌∷◌, ◌++◌, Bool, true, false, length, take, codes};
ghost use Rattle.std.specs.Prelude.{decimal};
ghost use Rattle.std.specs.Prelude.{IsTrue, IfSome, IfNone, IfOk, IfErr, OnOk, OnErr};
ghost use Rattle.std.specs.Io.KnownBytes.{IsAtEnd};
ghost use Rattle.dmr_record.specs.Received.{Follows, Receipt, last_read};
ghost use Rattle.dmr_words.specs.Words.{line_words};
ghost use Rattle.dmr_text.specs.Files.File.{Receipts};
ghost use Rattle.dmr_text.specs.Halts.{IfNotGiven, IfText};
ghost use Rattle.dmr_text.specs.ReceiptLines.{IsKindOf, IsReceiptLine};
ghost use Rattle.dmr_text.specs.Spelling.{kind_word};
ghost use Rattle.dmr_text.specs.Telling.{IsStopped, IsTakenWhole, IsTornIn};
ghost use Rattle.dmr_text.specs.TextFaults.{BeginsWith, HasNoSource, HasSource, IsNoKind, IsOfRecord, ShowsReceiptLineFault};
ghost use Rattle.dmr_text.specs.TextFaults.{is_read, order_fields};

use crate::fault::{Halt, LineFault, TextFault};
use crate::octets::octets_said;
use crate::said::{LineKind, is_count_said, line_kind, place_said};
use crate::telling::tell_line;
use dmr_record::{RECEIVED_LIMIT, Received, ReceivedKind, Sink, Source, write_received};
use dmr_recording::Place;
use dmr_words::{Lines, Words, decimal};

/// What a line of a received list says.
#[derive(Clone, Copy, Drop)]
pub(crate) enum ReceiptLine {
    /// A record, whose octets stand in front of the room.
    Receipt(Received),
    /// That it is the last.
    Last,
}

/// What the words of a record say in front of its octets.
#[derive(Clone, Copy, Drop)]
struct Heading {
    place: Place,
    /// Where its word is one.
    kind: Option<ReceivedKind>,
    source: u32,
}

/// The kind that a word is.
fn kind_said(word: &[u8]) -> Option<ReceivedKind>
    ensures kind { IsKindOf result word.now }
{
    if word == b"datagram".as_slice() {
        return Some(ReceivedKind::Datagram);
    }
    if word == b"short-data".as_slice() {
        return Some(ReceivedKind::ShortData);
    }
    if word == b"status".as_slice() {
        return Some(ReceivedKind::Status);
    }
    None
}

/// The source that a word is: an address of 24 bits.
#[tactic(auto, using(crate::proofs::Numbers::no_source))]
fn source_said(word: &[u8]) -> Option<u32>
    ensures source { IfSome result (λ source. (source < 2 ^ 24) × (word.now ≡ decimal source)) }
    ensures none { IfNone result ((source : ℕ) → source < 2 ^ 24 → word.now ≢ decimal source) }
{
    let source = decimal(word)?;
    if source >= 1 << 24 {
        return None;
    }
    Some(source)
}

/// What words say in front of the octets of a record. The words behind are left.
fn heading_said(words: &mut Words) -> Option<Heading>
    ensures heading { IfSome result (λ h. (kind : List ℕ) × HasSource words.old h.place.frame h.place.slot kind h.source words.new
        × IsKindOf h.kind kind) }
    ensures none { IfNone result (HasNoSource words.old) }
{
    let place = place_said(words)?;
    let kind = kind_said(words.next()?);
    let source = source_said(words.next()?)?;
    Some(Heading {
        place,
        kind,
        source,
    })
}

/// Whether a record of this kind may stand in a place behind the last.
fn follows(last: Option<Received>, place: Place, kind: ReceivedKind) -> bool
    ensures value { IsTrue result ↔ Follows (last_read last) (order_fields place.frame place.slot kind) }
{
    let Some(last) = last else {
        return true;
    };
    if place.frame != last.frame {
        return place.frame > last.frame;
    }
    if place.slot != last.slot {
        return place.slot > last.slot;
    }
    matches!(last.kind, ReceivedKind::Status) && !matches!(kind, ReceivedKind::Status)
}

/// Whether a record may stand in a place behind the last: one of this kind, and one of any where there is none.
fn may_follow(last: Option<Received>, place: Place, kind: Option<ReceivedKind>) -> bool
    ensures one { IfSome kind (λ k. IsTrue result ↔ Follows (last_read last) (order_fields place.frame place.slot k)) }
    ensures any { IfNone kind
        (result ≡ true → (k : ReceivedKind) × Follows (last_read last) (order_fields place.frame place.slot k)) }
    ensures none { IfNone kind
        (result ≡ false → (k : ReceivedKind) → ¬ Follows (last_read last) (order_fields place.frame place.slot k)) }
{
    match kind {
        Some(kind) => follows(last, place, kind),
        None => follows(last, place, ReceivedKind::Datagram),
    }
}

/// What a line says that isn't the last, behind so many records and the last of them. Its octets go to the room.
fn record_said(
    line: &[u8],
    count: u32,
    last: Option<Received>,
    room: &mut [u8],
) -> Result<ReceiptLine, TextFault>
    requires record { IsOfRecord (line_words line.now) }
    requires room { length room.old ≡ 65535 }
    ensures said { IfOk result (IsReceiptLine count (last_read last) room.new (line_words line.now)) }
    ensures fault { IfErr result (λ e. ShowsReceiptLineFault count (last_read last) e (line_words line.now)) }
    ensures read { IfErr result (λ e. is_read e ≡ false) }
{
    let mut words = Words::new(line);
    let Some(heading) = heading_said(&mut words) else {
        return Err(TextFault::WrongNumber);
    };
    let Heading {
        place,
        kind,
        source,
    } = heading;
    if count >= RECEIVED_LIMIT {
        return Err(TextFault::TooLong);
    }
    if !may_follow(last, place, kind) {
        return Err(TextFault::PlacesDontGrow);
    }
    let Some(kind) = kind else {
        return Err(TextFault::WrongKind);
    };
    match octets_said(&mut words, room) {
        Some(length) => Ok(ReceiptLine::Receipt(Received {
            frame: place.frame,
            slot: place.slot,
            kind,
            source,
            length,
        })),
        None => Err(TextFault::WrongOctets),
    }
}

/// What a line says behind so many records and the last of them.
fn receipt_line_said(
    line: &[u8],
    count: u32,
    last: Option<Received>,
    room: &mut [u8],
) -> Result<ReceiptLine, TextFault>
    requires room { length room.old ≡ 65535 }
    ensures said { IfOk result (IsReceiptLine count (last_read last) room.new (line_words line.now)) }
    ensures fault { IfErr result (λ e. ShowsReceiptLineFault count (last_read last) e (line_words line.now)) }
    ensures read { IfErr result (λ e. is_read e ≡ false) }
{
    match line_kind(line) {
        LineKind::Frames => Err(TextFault::NoLastLine),
        LineKind::Records if is_count_said(line, count) => Ok(ReceiptLine::Last),
        LineKind::Records => Err(TextFault::WrongNumber),
        LineKind::Record => record_said(line, count, last, room),
    }
}

/// Writes the records of a received list that the lines of a text say, to the line that says how many there are, and answers that.
/// The first line was read. Each record is written as soon as its line was read.
pub(crate) fn import_receipts<S: Source, K: Sink>(
    source: &mut S,
    lines: &mut Lines,
    room: &mut [u8],
    sink: &mut K,
) -> Result<u32, Halt>
    requires source { S.has_failed source.old ≡ false }
    requires over { lines.old.is_over ≡ true → IsAtEnd (S.left source.old) }
    requires sink { K.has_failed sink.old ≡ false }
    requires room { length room.old ≡ 65535 }
    // All lines to the last were read, and the records that they say written.
    ensures all { IfOk result (λ records. (receipts : List Receipt) × (records ≡ length receipts)
        × IsTakenWhole (Receipts receipts) lines.old lines.new
        (S.left source.old) (S.left source.new) (K.held sink.old) (K.held sink.new)) }
    ensures over { OnOk result (lines.new.is_over ≡ true → IsAtEnd (S.left source.new)) }
    ensures source { OnOk result (S.has_failed source.new ≡ false) }
    ensures sink { OnOk result (K.has_failed sink.new ≡ false) }
    // Or those before a fault.
    ensures fault { IfErr result (λ e. IfText e (λ fault. (receipts : List Receipt)
        × IsStopped TextFault.NoLastLine (Receipts receipts) fault lines.old
        (S.left source.old) (S.left source.new) (K.held sink.old) (K.held sink.new))) }
    ensures read { IfErr result (λ e. IfText e (λ fault. S.has_failed source.new ≡ is_read fault.fault)) }
    ensures others { IfErr result (λ e. IfText e (λ fault. K.has_failed sink.new ≡ false)) }
    // Or a front of those that were said.
    ensures torn { IfErr result (λ e. IfNotGiven e ((receipts : List Receipt) × IsTornIn (Receipts receipts) lines.old lines.new
        (S.left source.old) (S.left source.new) (K.held sink.old) (K.held sink.new))) }
    ensures failed { IfErr result (λ e. IfNotGiven e (K.has_failed sink.new ≡ true)) }
{
    let mut count = 0;
    let mut last = None;
    loop {
        if let Err(fault) = tell_line(lines, source, TextFault::NoLastLine) {
            return Err(Halt::Text(fault));
        }
        match receipt_line_said(lines.line(), count, last, room) {
            Ok(ReceiptLine::Receipt(receipt)) => {
                let octets = &room[..usize::from(receipt.length)];
                let Received {
                    frame,
                    slot,
                    kind,
                    source,
                    length: _,
                } = receipt;
                if write_received(sink, frame, slot, kind, source, octets).is_err() {
                    return Err(Halt::Output);
                }
                count += 1;
                last = Some(receipt);
            }
            Ok(ReceiptLine::Last) => return Ok(count),
            Err(fault) => {
                let line = lines.number();
                return Err(Halt::Text(LineFault { line, fault }));
            }
        }
    }
}
