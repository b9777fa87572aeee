//! Control signalling blocks, and data bursts by themselves, of a line.
ghost use Rattle.std.specs.Prelude.{◌≡◌, ◌<◌, ◌≤◌, ◌^◌, length, IfOk, IfSome};
ghost use Rattle.dmr_csbk.specs.Block.{FitsCsbk};
ghost use Rattle.dmr_script.specs.Fits.{FitsBurst};

use crate::control::LoneBurst;
use crate::expected::Expected;
use crate::fault::Refusal;
use crate::keyword::Keyword;
use crate::link_controls::link_control;
use crate::numbers::{address, information, octet, octets};
use crate::token::{Cursor, Token};
use dmr_csbk::{Csbk, PREAMBLE};

/// The opcode by which a radio asks a base station to transmit. ETSI TS 102 361-2, clause 7.1.2.
const BS_ACTIVATION: u8 = 56;

/// The preamble's bit that says that the blocks of a packet follow, and not CSBKs.
const DATA_FOLLOWS: u8 = 0x80;

/// The preamble's bit that says that the target is a talk group.
const TO_GROUP: u8 = 0x40;

/// The last block of a message, of the standard's feature set, with two octets and two addresses as its body.
fn of_addresses(code: u8, front: [u8; 2], first: u32, second: u32) -> Csbk
    requires code { code < 64 }
    requires first { first < 2 ^ 24 }
    requires second { second < 2 ^ 24 }
    ensures fits { FitsCsbk result }
{
    let [front_high, front_low] = front;
    let [_, first_high, first_middle, first_low] = first.to_be_bytes();
    let [_, second_high, second_middle, second_low] = second.to_be_bytes();
    Csbk {
        last: true,
        protect: false,
        code,
        fid: 0,
        body: [
            front_high,
            front_low,
            first_high,
            first_middle,
            first_low,
            second_high,
            second_middle,
            second_low,
        ],
    }
}

/// What follows a preamble, behind a comma.
fn kind_of_rest(cursor: &mut Cursor) -> Result<u8, Refusal> {
    cursor.expect(Keyword::Comma)?;
    if cursor.takes(Keyword::Csbks) {
        return Ok(0);
    }
    cursor.expect(Keyword::Data)?;
    Ok(DATA_FOLLOWS)
}

/// A preamble behind its first word: `, data to follow N, S -> [group] T`.
fn preamble(cursor: &mut Cursor) -> Result<Csbk, Refusal>
    ensures fits { IfOk result FitsCsbk }
{
    let kind = kind_of_rest(cursor)?;
    cursor.expect(Keyword::To)?;
    cursor.expect(Keyword::Follow)?;
    let left = octet(cursor, 255)?;
    cursor.expect(Keyword::Comma)?;
    let source = address(cursor)?;
    cursor.expect(Keyword::Arrow)?;
    let group = if cursor.takes(Keyword::Group) {
        TO_GROUP
    } else {
        0
    };
    let target = address(cursor)?;
    Ok(of_addresses(PREAMBLE, [kind | group, left], target, source))
}

/// BS activation behind its first word: `activation by S of B`.
fn activation(cursor: &mut Cursor) -> Result<Csbk, Refusal>
    ensures fits { IfOk result FitsCsbk }
{
    cursor.expect(Keyword::Activation)?;
    cursor.expect(Keyword::By)?;
    let source = address(cursor)?;
    cursor.expect(Keyword::Of)?;
    let bs = address(cursor)?;
    Ok(of_addresses(BS_ACTIVATION, [0; 2], bs, source))
}

/// A block by its fields behind its first word: `N, fid N, HEX16 [, last]`.
fn of_opcode(cursor: &mut Cursor) -> Result<Csbk, Refusal>
    ensures fits { IfOk result FitsCsbk }
{
    let code = octet(cursor, 63)?;
    cursor.expect_further(Keyword::Fid)?;
    let fid = octet(cursor, 255)?;
    cursor.expect(Keyword::Comma)?;
    let body = octets(cursor, 16)?;
    Ok(Csbk {
        last: cursor.takes_further(Keyword::Last),
        protect: false,
        code,
        fid,
        body,
    })
}

/// That a control block ends its line.
fn end_control(cursor: &mut Cursor) -> Result<(), Refusal> {
    let mut ahead = *cursor;
    if let Token::Word(b":") = ahead.next() {
        return Err(Refusal::ControlShape);
    }
    cursor.expect_end()
}

/// The control signalling block that begins with this word, to the end of the line, where one does.
pub(crate) fn begun_control(word: &[u8], cursor: &mut Cursor) -> Result<Option<Csbk>, Refusal>
    ensures fits { IfOk result (λ csbk. IfSome csbk FitsCsbk) }
{
    let csbk = match word {
        b"preamble" => preamble(cursor)?,
        b"BS" => activation(cursor)?,
        b"opcode" => of_opcode(cursor)?,
        _ => return Ok(None),
    };
    end_control(cursor)?;
    Ok(Some(csbk))
}

/// A part of a multi-block CSBK behind its first word: `header HEX24`, `block HEX24`.
fn multi_block(cursor: &mut Cursor) -> Result<LoneBurst, Refusal>
    ensures fits { IfOk result FitsBurst }
{
    if cursor.takes(Keyword::Header) {
        return Ok(LoneBurst::MbcHeader(octets(cursor, 24)?));
    }
    cursor.expect(Keyword::Block)?;
    Ok(LoneBurst::MbcBlock(octets(cursor, 24)?))
}

/// A PI header behind its first word: `header HEX24`.
fn pi_header(cursor: &mut Cursor) -> Result<LoneBurst, Refusal>
    ensures fits { IfOk result FitsBurst }
{
    cursor.expect(Keyword::Header)?;
    Ok(LoneBurst::PiHeader(octets(cursor, 24)?))
}

/// Unified single block data behind its first word: `block HEX24`.
fn unified_block(cursor: &mut Cursor) -> Result<LoneBurst, Refusal>
    ensures fits { IfOk result FitsBurst }
{
    cursor.expect(Keyword::Block)?;
    Ok(LoneBurst::UnifiedBlock(octets(cursor, 24)?))
}

/// A block of a packet behind its first word: `1/2 HEX24`, or `3/4` and `1` with 49 digits.
fn block_at_rate(cursor: &mut Cursor) -> Result<LoneBurst, Refusal>
    ensures fits { IfOk result FitsBurst }
{
    match cursor.next() {
        Token::Word(b"1/2") => Ok(LoneBurst::RateHalf(octets(cursor, 24)?)),
        Token::Word(b"3/4") => Ok(LoneBurst::RateThreeQuarters(information(cursor)?)),
        Token::Word(b"1") => Ok(LoneBurst::RateOne(information(cursor)?)),
        token => Err(token.instead_of(Expected::Rate)),
    }
}

/// The data burst by itself that begins with this word, to the end of the line, where one does.
pub(crate) fn begun_burst(word: &[u8], cursor: &mut Cursor) -> Result<Option<LoneBurst>, Refusal>
    ensures fits { IfOk result (λ burst. IfSome burst FitsBurst) }
{
    let burst = match word {
        b"terminator" => LoneBurst::Terminator(link_control(cursor)?),
        b"PI" => pi_header(cursor)?,
        b"MBC" => multi_block(cursor)?,
        b"unified" => unified_block(cursor)?,
        b"rate" => block_at_rate(cursor)?,
        _ => return Ok(None),
    };
    cursor.expect_end()?;
    Ok(Some(burst))
}
