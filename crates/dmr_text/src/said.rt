//! What words of a line say.
ghost use Rattle.std.specs.Prelude.{◌≡◌, ◌≢◌, ℕ, ◌^◌, ◌<◌, List, [], ◌∷◌, IfSome, IfNone, IfOk, IfErr, OnErr, IsTrue, ◌↔◌};
ghost use Rattle.std.specs.Prelude.{decimal, codes};
ghost use Rattle.dmr_record.specs.Received.{IsSlot};
ghost use Rattle.dmr_words.specs.Words.{line_words};
ghost use Rattle.dmr_text.specs.TextFaults.{BeginsWith, HasPlace};
ghost use Rattle.dmr_text.specs.Spelling.{records_words};
ghost use Rattle.dmr_text.specs.Lines.{IsLineOfKind};

use dmr_recording::Place;
use dmr_words::{Words, decimal};

/// What a line is, by its first word.
#[derive(Clone, Copy, Drop, PartialEq, Eq)]
pub(crate) enum LineKind {
    /// The last line of a recording.
    Frames,
    /// The last line of a list.
    Records,
    /// A record.
    Record,
}

/// What a line is, by its first word.
fn kind_by_word(line: &[u8]) -> LineKind
    ensures kind { IsLineOfKind result (line_words line.now) }
{
    let mut words = Words::new(line);
    match words.next() {
        Some(word) if word == b"frames".as_slice() => LineKind::Frames,
        Some(word) if word == b"records".as_slice() => LineKind::Records,
        _ => LineKind::Record,
    }
}

/// What a line is. Most lines are records, which a digit at the front tells at once.
pub(crate) fn line_kind(line: &[u8]) -> LineKind
    ensures kind { IsLineOfKind result (line_words line.now) }
{
    match line.first() {
        Some(first) if first.is_ascii_digit() => LineKind::Record,
        _ => kind_by_word(line),
    }
}

/// The one word that is left, where it is the last.
pub(crate) fn last_word<'a>(words: &mut Words<'a>) -> Option<&'a [u8]>
    ensures word { IfSome result (λ word. words.old ≡ word.now ∷ []) }
    ensures none { IfNone result ((word : List ℕ) → words.old ≢ word ∷ []) }
{
    let word = words.next()?;
    match words.next() {
        None => Some(word),
        Some(_) => None,
    }
}

/// The slot of a frame that a word is.
#[tactic(auto, using(crate::proofs::Numbers::slot_digit))]
fn slot_said(word: &[u8]) -> Option<u8>
    ensures slot { IfSome result (λ slot. IsSlot slot × (word.now ≡ decimal slot)) }
    ensures none { IfNone result ((slot : ℕ) → IsSlot slot → word.now ≢ decimal slot) }
{
    match word {
        word if word == b"1".as_slice() => Some(1),
        word if word == b"2".as_slice() => Some(2),
        _ => None,
    }
}

/// The place that words begin with. The words behind it are left.
pub(crate) fn place_said(words: &mut Words) -> Option<Place>
    ensures place { IfSome result (λ place. HasPlace words.old place.frame place.slot words.new) }
    ensures none { IfNone result ((frame slot : ℕ) → (rest : List (List ℕ)) → ¬ HasPlace words.old frame slot rest) }
{
    let frame = decimal(words.next()?)?;
    let slot = slot_said(words.next()?)?;
    Some(Place { frame, slot })
}

/// The number behind the first word of a last line, where it is the last word.
pub(crate) fn count_said(line: &[u8]) -> Option<u32>
    ensures count { IfSome result (λ count. (first : List ℕ) × (line_words line.now ≡ first ∷ decimal count ∷ [])) }
    ensures none { IfNone result
        ((first : List ℕ) (count : ℕ) → count < 2 ^ 32 → line_words line.now ≢ first ∷ decimal count ∷ []) }
{
    let mut words = Words::new(line);
    words.next()?;
    decimal(last_word(&mut words)?)
}

/// Whether the number behind the first word of a last line is this one, and the last word.
pub(crate) fn is_count_said(line: &[u8], count: u32) -> bool
    requires records { BeginsWith (codes "records") (line_words line.now) }
    ensures count { IsTrue result ↔ (line_words line.now ≡ records_words count) }
{
    match count_said(line) {
        Some(said) => said == count,
        None => false,
    }
}
