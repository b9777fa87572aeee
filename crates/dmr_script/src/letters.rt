//! The letters of a shape.
ghost use Rattle.std.specs.Prelude.{◌≡◌, ◌≢◌, List, ◌∷◌, replicate, ◌+◌, ◌*◌, ◌<◌, ◌≤◌, ◌++◌, [], length, OnOk, IfOk, IfSome};
ghost use Rattle.dmr_script.specs.Letters.{IsGroup, SaysLetters, octet_of, letters_text};
ghost use Rattle.dmr_script.specs.declared.letters.Letter.{Letter};

use crate::cited::Cited;
use crate::expected::Expected;
use crate::fault::Refusal;
use crate::halt::Halt;
use crate::shape::Place;
use crate::token::{Cursor, Token};
use dmr_words::decimal;
use std::alloc::Global;

/// How many letters a shape has at most: as many as a recording has frames.
const LETTER_LIMIT: usize = 1_048_576;

/// A letter of a shape. Those of a strip mean the same.
#[derive(Clone, Copy, Drop, PartialEq, Eq)]
pub(crate) enum Letter {
    /// `H`, a voice LC header.
    Header,
    /// `P`, a PI header.
    PiHeader,
    /// `A` to `F`, a place of a superframe. `D` is a data header too.
    Place(Place),
    /// `.`, a silence.
    Absent,
    /// `T`, a terminator.
    Terminator,
    /// `c`, a CSBK.
    Csbk,
    /// `b`, a block.
    Block,
}

/// The letters of one kind that stand in front of others.
#[derive(Clone, Copy)]
pub(crate) struct Run<'a> {
    /// How many they are.
    pub(crate) count: usize,
    /// The others.
    pub(crate) behind: &'a [Letter],
}

/// The letters in front that are this one.
pub(crate) fn run_of(letters: &[Letter], letter: Letter) -> Run<'_>
    ensures run { letters.now ≡ replicate result.count letter ++ result.behind.now }
    ensures others { (more : List Letter) → result.behind.now ≢ letter ∷ more }
    ensures count { result.count + length result.behind.now ≡ length letters.now }
{
    let mut count = 0;
    let mut behind = letters;
    while let [first, rest @ ..] = behind {
        if *first != letter {
            return Run { count, behind };
        }
        count += 1;
        behind = rest;
    }
    Run { count, behind }
}

/// What an octet is as a letter.
fn letter_of(octet: u8) -> Option<Letter>
    ensures octet { IfSome result (λ letter. octet_of letter ≡ octet) }
{
    let letter = match octet {
        b'H' => Letter::Header,
        b'P' => Letter::PiHeader,
        b'A' => Letter::Place(Place::A),
        b'B' => Letter::Place(Place::B),
        b'C' => Letter::Place(Place::C),
        b'D' => Letter::Place(Place::D),
        b'E' => Letter::Place(Place::E),
        b'F' => Letter::Place(Place::F),
        b'.' => Letter::Absent,
        b'T' => Letter::Terminator,
        b'c' => Letter::Csbk,
        b'b' => Letter::Block,
        _ => return None,
    };
    Some(letter)
}

/// A word of a shape: some letters, so many times.
#[derive(Clone, Copy)]
struct Group<'a> {
    times: u32,
    letters: &'a [u8],
}

/// What a word of a shape says, where it says anything.
fn group_of(word: &[u8]) -> Option<Group<'_>>
    ensures says { IfSome result (λ group. IsGroup word.now group.times group.letters.now) }
{
    let Some(star) = word.iter().position(|octet| *octet == b'*') else {
        return Some(Group {
            times: 1,
            letters: word,
        });
    };
    let times = decimal(&word[..star])?;
    let letters = &word[star + 1..];
    if times == 0 || letters.is_empty() {
        return None;
    }
    Some(Group { times, letters })
}

/// Adds some letters once.
fn add_once(letters: &mut Vec<Letter>, group: &[u8], word: &[u8]) -> Result<(), Halt>
    requires room { length letters.old.items + length group.now ≤ 1048576 }
    ensures text { OnOk result (letters_text letters.new.items ≡ letters_text letters.old.items ++ group.now) }
    ensures count { OnOk result (length letters.new.items ≡ length letters.old.items + length group.now) }
{
    for octet in group {
        match letter_of(*octet) {
            Some(letter) => letters.push(letter)?,
            None => return Err(Halt::Refused(Refusal::NoShape(Cited::of(word)))),
        }
    }
    Ok(())
}

/// Adds the letters of a word.
fn add_word(letters: &mut Vec<Letter>, word: &[u8]) -> Result<(), Halt>
    requires room { length letters.old.items ≤ 1048576 }
    ensures says { OnOk result (SaysLetters word.now letters.old.items letters.new.items) }
    ensures room { OnOk result (length letters.new.items ≤ 1048576) }
{
    let Some(group) = group_of(word) else {
        return Err(Halt::Refused(Refusal::NoShape(Cited::of(word))));
    };
    for _past in 0..group.times {
        if group.letters.len() > LETTER_LIMIT - letters.len() {
            return Err(Halt::Refused(Refusal::TooLong));
        }
        add_once(letters, group.letters, word)?;
    }
    Ok(())
}

/// The letters of a shape, to the end of the line.
pub(crate) fn letters(alloc: Global, cursor: &mut Cursor) -> Result<Vec<Letter>, Halt>
    ensures room { IfOk result (λ letters. length letters.items ≤ 1048576) }
{
    let mut letters = Vec::new(alloc);
    loop {
        match cursor.next() {
            Token::Word(word) => add_word(&mut letters, word)?,
            Token::Text(text) => return Err(Halt::Refused(Refusal::NoShape(Cited::of(text)))),
            Token::Unreadable(text) => {
                return Err(Halt::Refused(Refusal::Unreadable(Cited::of(text))));
            }
            Token::End => return Ok(letters),
        }
    }
}

/// The letters behind a colon, to the end of the line, where there is one.
pub(crate) fn shape_letters(alloc: Global, cursor: &mut Cursor) -> Result<Option<Vec<Letter>>, Halt>
    ensures room { IfOk result (λ shape. IfSome shape (λ letters. length letters.items ≤ 1048576)) }
{
    match cursor.next() {
        Token::End => Ok(None),
        Token::Word(b":") => Ok(Some(letters(alloc, cursor)?)),
        Token::Word(b",") => Err(Halt::Refused(cursor.unknown(Expected::Shape))),
        token => Err(Halt::Refused(token.instead_of(Expected::Shape))),
    }
}
