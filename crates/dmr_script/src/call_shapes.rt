//! The shape of a call from its letters.
ghost use Rattle.std.specs.Prelude.{◌≡◌, ◌+◌, ◌%◌, ◌<◌, ◌≤◌, ◌∷◌, length, drop, map, replicate, slice_get, nat_lt, true, false};
ghost use Rattle.std.specs.Prelude.{Some, IfOk, IfSome, OnOk};
ghost use Rattle.dmr_script.specs.Foreign.{BeginsWithBurst, IsForeignCall, has_embs};
ghost use Rattle.dmr_script.specs.Shapes.{IsCallShape, call_letters, header_letter, is_unbroken, letter_at, place_before};
ghost use Rattle.dmr_script.specs.Shapes.{place_letters, there_within};
ghost use Rattle.dmr_script.specs.declared.letters.Letter.TheVariants as letter;
ghost use Rattle.dmr_script.specs.declared.shape.Place.TheVariants as place;

use crate::fault::Refusal;
use crate::halt::Halt;
use crate::letters::{Letter, run_of};
use crate::shape::{CallShape, CallStart, HeaderKind, Headers, Place};
use std::alloc::Global;

/// How many slots may stand between the headers and the first A, or in front of that in a late call.
const BEFORE_VOICE: usize = 5;

/// How many places a superframe has.
const PLACES: usize = 6;

/// Whether a letter is a header.
fn is_header(letter: Letter) -> bool {
    letter == Letter::Header || letter == Letter::PiHeader
}

/// How many headers stand in front.
fn headers_in_front(letters: &[Letter]) -> usize
    ensures within { result ≤ length letters.now }
{
    letters
        .iter()
        .position(|letter| !is_header(*letter))
        .unwrap_or(letters.len())
}

/// How many letters stand in front of the first terminator, or in all where there is none.
fn voice_length(letters: &[Letter]) -> usize
    ensures within { result ≤ length letters.now }
{
    letters
        .iter()
        .position(|letter| *letter == Letter::Terminator)
        .unwrap_or(letters.len())
}

/// Where the first A stands.
fn first_a(letters: &[Letter]) -> Option<usize>
    ensures within { IfSome result (λ n. n < length letters.now) }
    ensures there { IfSome result (λ n. slice_get letters.now n ≡ Some (letter.Place place.A)) }
{
    letters
        .iter()
        .position(|letter| *letter == Letter::Place(Place::A))
}

/// What the headers behind the first are.
fn header_kinds(alloc: Global, letters: &[Letter]) -> Result<Vec<HeaderKind>, Halt>
    ensures letters { IfOk result (λ kinds. map header_letter kinds.items ≡ letters.now) }
{
    let mut kinds = Vec::new(alloc);
    let mut rest = letters;
    while let [letter, behind @ ..] = rest {
        match *letter {
            Letter::Header => kinds.push(HeaderKind::Voice)?,
            Letter::PiHeader => kinds.push(HeaderKind::Privacy)?,
            _ => return Err(Halt::Refused(Refusal::CallShape)),
        }
        rest = behind;
    }
    Ok(kinds)
}

/// Whether a place is there, by its letter, which has this number in the voice.
fn is_there(letter: Letter, wanted: Place, number: u32) -> Result<bool, Refusal>
    ensures letter { IfOk result (λ there. letter_at wanted there ≡ letter) }
{
    match letter {
        Letter::Absent => Ok(false),
        Letter::Place(found) if found == wanted => Ok(true),
        Letter::Place(found) => Err(Refusal::VoiceLetter {
            number,
            wanted,
            found,
        }),
        _ => Err(Refusal::CallShape),
    }
}

/// Which places are there, from one on; so many letters of the voice stand in front of them.
fn places_of(
    alloc: Global,
    letters: &[Letter],
    first: Place,
    before: usize,
) -> Result<Vec<bool>, Halt>
    requires few { before + length letters.now ≤ 1048576 }
    ensures letters { IfOk result (λ places. place_letters first places.items ≡ letters.now) }
    ensures count { IfOk result (λ places. length places.items ≡ length letters.now) }
{
    let mut places = Vec::new(alloc);
    let mut wanted = first;
    let mut rest = letters;
    while let Some((letter, behind)) = rest.split_first() {
        let number = (before + places.len() + 1) as u32;
        let there = is_there(*letter, wanted, number)?;
        places.push(there)?;
        wanted = wanted.next();
        rest = behind;
    }
    Ok(places)
}

/// How many terminators these letters are.
fn terminators_of(letters: &[Letter]) -> Result<u32, Refusal>
    requires few { length letters.now ≤ 1048576 }
    ensures letters { IfOk result (λ n. replicate n letter.Terminator ≡ letters.now) }
{
    let run = run_of(letters, Letter::Terminator);
    if !run.behind.is_empty() {
        return Err(Refusal::CallShape);
    }
    Ok(run.count as u32)
}

/// Whether one of the first so many places is there. Behind the last one a terminator counts as a place that is there.
fn is_there_within(places: &[bool], count: usize, is_ended: bool) -> bool
    ensures value { result ≡ there_within count is_ended places.now }
{
    let mut left = count;
    let mut rest = places;
    while left > 0 {
        let Some((is_there, behind)) = rest.split_first() else {
            return is_ended;
        };
        if *is_there {
            return true;
        }
        rest = behind;
        left -= 1;
    }
    false
}

/// Why an absent place with these behind it is refused, of which none of the next five is there.
fn absence(behind: &[bool]) -> Refusal {
    if behind.len() < PLACES - 1 {
        Refusal::LastPlaceAbsent
    } else {
        Refusal::LongAbsence
    }
}

/// That no six places in a row are absent, and that the last one is there. A terminator behind them counts as one.
fn hold_together(places: &[bool], is_ended: bool) -> Result<(), Refusal>
    ensures unbroken { OnOk result (is_unbroken is_ended places.now ≡ true) }
{
    let mut rest = places;
    while let Some((is_there, behind)) = rest.split_first() {
        if !*is_there && !is_there_within(behind, PLACES - 1, is_ended) {
            return Err(absence(behind));
        }
        rest = behind;
    }
    Ok(())
}

/// That places of a call end well: terminators stand behind whole superframes.
fn end_well(places: &[bool], terminators: u32) -> Result<(), Refusal>
    ensures unbroken { OnOk result (is_unbroken (nat_lt 0 terminators) places.now ≡ true) }
    ensures whole { OnOk result (0 < terminators → length places.now % 6 ≡ 0) }
{
    hold_together(places, terminators > 0)?;
    if terminators > 0 && places.len() % PLACES != 0 {
        return Err(Refusal::MisplacedTerminator);
    }
    Ok(())
}

/// The shape of a call behind its first header.
fn headed(alloc: Global, letters: &[Letter]) -> Result<CallShape, Halt>
    requires few { length letters.now ≤ 1048576 }
    ensures letters { IfOk result (λ shape. call_letters shape ≡ letter.Header ∷ letters.now) }
    ensures shape { IfOk result IsCallShape }
{
    let (headers, behind) = letters.split_at(headers_in_front(letters));
    let silences = run_of(behind, Letter::Absent);
    let (voice, ends) = silences.behind.split_at(voice_length(silences.behind));
    let terminators = terminators_of(ends)?;
    if voice.is_empty() && silences.count > 0 {
        return Err(Halt::Refused(Refusal::CallShape));
    }
    if silences.count > BEFORE_VOICE {
        return Err(Halt::Refused(Refusal::LongGap));
    }
    let places = places_of(alloc, voice, Place::A, 0)?;
    end_well(places.as_slice(), terminators)?;
    let start = CallStart::Headers(Headers {
        more: header_kinds(alloc, headers)?,
        silences: silences.count as u8,
    });
    Ok(CallShape {
        start,
        places,
        terminators,
    })
}

/// The place of which so many stand in front of an A.
fn place_before(count: usize) -> Place
    ensures value { result ≡ place_before count }
{
    match count {
        1 => Place::F,
        2 => Place::E,
        3 => Place::D,
        4 => Place::C,
        5 => Place::B,
        _ => Place::A,
    }
}

/// Whether one of the five places behind the first is there.
fn has_companion(places: &[bool]) -> bool
    ensures value { result ≡ there_within 5 false (drop 1 places.now) }
{
    match places.split_first() {
        Some((_, behind)) => is_there_within(behind, PLACES - 1, false),
        None => false,
    }
}

/// The shape of a call whose headers went by unheard.
fn late(alloc: Global, letters: &[Letter]) -> Result<CallShape, Halt>
    requires few { length letters.now ≤ 1048576 }
    ensures letters { IfOk result (λ shape. call_letters shape ≡ letters.now) }
    ensures shape { IfOk result IsCallShape }
{
    let Some(before) = first_a(letters) else {
        return Err(Halt::Refused(Refusal::CallShape));
    };
    if before > BEFORE_VOICE {
        return Err(Halt::Refused(Refusal::LongTail));
    }
    let (tail, voice) = letters.split_at(before);
    let tail = places_of(alloc, tail, place_before(before), 0)?;
    let (voice, ends) = voice.split_at(voice_length(voice));
    let terminators = terminators_of(ends)?;
    let places = places_of(alloc, voice, Place::A, before)?;
    if !has_companion(places.as_slice()) {
        return Err(Halt::Refused(Refusal::LoneA));
    }
    end_well(places.as_slice(), terminators)?;
    Ok(CallShape {
        start: CallStart::Late(tail),
        places,
        terminators,
    })
}

/// The shape of a call.
pub(crate) fn call_shape(alloc: Global, letters: &[Letter]) -> Result<CallShape, Halt>
    requires few { length letters.now ≤ 1048576 }
    ensures letters { IfOk result (λ shape. call_letters shape ≡ letters.now) }
    ensures shape { IfOk result IsCallShape }
{
    match letters {
        [] => Err(Halt::Refused(Refusal::NoCallShape)),
        [Letter::Header, behind @ ..] => headed(alloc, behind),
        _ => late(alloc, letters),
    }
}

/// That behind each A of another colour code one of the five places that follow is there.
fn hold_embs(places: &[bool]) -> Result<(), Refusal>
    ensures embs { OnOk result (has_embs place.A places.now ≡ true) }
{
    let mut place = Place::A;
    let mut rest = places;
    while let Some((is_there, behind)) = rest.split_first() {
        if place == Place::A && *is_there && !is_there_within(behind, PLACES - 1, false) {
            return Err(Refusal::ForeignSync);
        }
        place = place.next();
        rest = behind;
    }
    Ok(())
}

/// That a call begins with a burst.
fn begin_with_burst(start: &CallStart) -> Result<(), Refusal>
    ensures begins { OnOk result (BeginsWithBurst start.now) }
{
    match start {
        CallStart::Late(tail) if tail.as_slice().first() == Some(&false) => {
            Err(Refusal::ForeignEnds)
        }
        _ => Ok(()),
    }
}

/// That a call may have another colour code.
pub(crate) fn may_be_foreign(shape: &CallShape) -> Result<(), Refusal>
    ensures foreign { OnOk result (IsForeignCall shape.now) }
{
    begin_with_burst(&shape.start)?;
    hold_embs(shape.places.as_slice())
}
