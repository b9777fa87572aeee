//! What the superframes of a call carry.
ghost use Rattle.std.specs.Prelude.{◌≡◌, ◌+◌, ◌<◌, ◌≤◌, length};
ghost use Rattle.std.specs.Prelude.{All, OnOk, IfOk};
ghost use Rattle.dmr_script.specs.Aliases.{alias_parts};
ghost use Rattle.dmr_script.specs.Fits.{FitsCarried};

use crate::call::Carried;
use crate::expected::Expected;
use crate::halt::Halt;
use crate::keyword::Keyword;
use crate::link_controls::{TALKER_ALIAS, begun_link_control, standard};
use crate::token::{Cursor, Token};
use std::alloc::Global;

/// How many letters an alias has at most: six in its header, and seven in each of three blocks.
const ALIAS_LETTERS: usize = 27;

/// How many letters of an alias its header has.
const HEADER_LETTERS: usize = 6;

/// How many letters of an alias a block has.
const BLOCK_LETTERS: usize = 7;

/// The front of letters in seven octets behind so many others, and zeros.
fn letters_behind<const BEFORE: usize>(front: [u8; BEFORE], letters: &[u8]) -> [u8; 7]
    requires room { BEFORE + length letters.now ≤ 7 }
{
    let mut body = [0; 7];
    body[..BEFORE].copy_from_slice(&front);
    body[BEFORE..BEFORE + letters.len()].copy_from_slice(letters);
    body
}

/// Adds the link controls of an alias: a header that says how many letters there are, in eight bits each, and its blocks. ETSI TS
/// 102 361-2, clause 7.1.1.4.
fn add_alias(carried: &mut Vec<Carried>, alias: &[u8]) -> Result<(), Halt>
    requires most { length alias.now ≤ 27 }
    requires fit { All FitsCarried carried.old.items }
    ensures fit { OnOk result (All FitsCarried carried.new.items) }
    ensures parts { OnOk result (length carried.new.items ≡ length carried.old.items + alias_parts (length alias.now)) }
{
    let (front, mut rest) = alias.split_at(alias.len().min(HEADER_LETTERS));
    let count = 0x80 + 2 * alias.len() as u8;
    let header = standard(TALKER_ALIAS, letters_behind([count], front));
    carried.push(Carried::LinkControl(header))?;
    for block in 1..4u8 {
        if rest.is_empty() {
            return Ok(());
        }
        let (letters, behind) = rest.split_at(rest.len().min(BLOCK_LETTERS));
        let block = standard(TALKER_ALIAS + block, letters_behind([], letters));
        carried.push(Carried::LinkControl(block))?;
        rest = behind;
    }
    Ok(())
}

/// Adds what an alias behind its word stands for.
fn alias(carried: &mut Vec<Carried>, cursor: &mut Cursor) -> Result<(), Halt>
    requires fit { All FitsCarried carried.old.items }
    ensures fit { OnOk result (All FitsCarried carried.new.items) }
    ensures kept { length cursor.new.rest.now ≤ length cursor.old.rest.now }
{
    match cursor.next() {
        Token::Text(letters) if letters.len() <= ALIAS_LETTERS => add_alias(carried, letters),
        token => Err(Halt::Refused(token.instead_of(Expected::Alias))),
    }
}

/// Adds what one item says.
fn item(carried: &mut Vec<Carried>, cursor: &mut Cursor) -> Result<(), Halt>
    requires fit { All FitsCarried carried.old.items }
    ensures fit { OnOk result (All FitsCarried carried.new.items) }
    ensures kept { length cursor.new.rest.now ≤ length cursor.old.rest.now }
{
    let word = cursor.word(Expected::Carried)?;
    match word {
        b"own" => carried.push(Carried::Own)?,
        b"none" => carried.push(Carried::Nothing)?,
        b"alias" => alias(carried, cursor)?,
        _ => match begun_link_control(word, cursor)? {
            Some(lc) => carried.push(Carried::LinkControl(lc))?,
            None => return Err(Halt::Refused(Token::Word(word).instead_of(Expected::Carried))),
        },
    }
    Ok(())
}

/// What superframes carry in turn, where that stands next: `, carrying ITEM / ITEM ..`.
pub(crate) fn carrying(alloc: Global, cursor: &mut Cursor) -> Result<Vec<Carried>, Halt>
    ensures fit { IfOk result (λ carried. All FitsCarried carried.items) }
{
    let mut carried = Vec::new(alloc);
    if !cursor.takes_further(Keyword::Carrying) {
        return Ok(carried);
    }
    item(&mut carried, cursor)?;
    while cursor.takes(Keyword::Slash) {
        item(&mut carried, cursor)?;
    }
    Ok(carried)
}
