//! Numbers and octets of a line.
ghost use Rattle.std.specs.Prelude.{◌≡◌, ◌*◌, ◌<◌, ◌≤◌, ◌^◌, length, IfOk, OnOk};
ghost use Rattle.dmr_script.specs.Fits.{AreEightBits};

use crate::expected::Expected;
use crate::fault::Refusal;
use crate::halt::Halt;
use crate::keyword::Keyword;
use crate::token::{Cursor, Token};
use dmr_bits::Bits;
use dmr_words::decimal;
use hex::{FromHexError, decode, decode_to_slice};
use std::alloc::{AllocError, Global};

/// The greatest address of 24 bits.
const LAST_ADDRESS: u32 = 0xff_ffff;

/// How many octets of data a datagram has at most behind its headers.
pub(crate) const DATA_LIMIT: usize = 1372;

/// A number in this range.
pub(crate) fn number(cursor: &mut Cursor, least: u32, greatest: u32) -> Result<u32, Refusal>
    ensures least { IfOk result (λ n. least ≤ n) }
    ensures greatest { IfOk result (λ n. n ≤ greatest) }
    ensures shorter { OnOk result (length cursor.new.rest.now < length cursor.old.rest.now) }
    ensures kept { length cursor.new.rest.now ≤ length cursor.old.rest.now }
{
    let wanted = Expected::Number { least, greatest };
    let word = cursor.word(wanted)?;
    match decimal(word) {
        Some(number) if least <= number && number <= greatest => Ok(number),
        _ => Err(Token::Word(word).instead_of(wanted)),
    }
}

/// An address of 24 bits.
pub(crate) fn address(cursor: &mut Cursor) -> Result<u32, Refusal>
    ensures fits { IfOk result (λ n. n < 2 ^ 24) }
    ensures kept { length cursor.new.rest.now ≤ length cursor.old.rest.now }
{
    let word = cursor.word(Expected::Address)?;
    match decimal(word) {
        Some(number) if number <= LAST_ADDRESS => Ok(number),
        _ => Err(Token::Word(word).instead_of(Expected::Address)),
    }
}

/// A number of a field of at most eight bits.
pub(crate) fn octet(cursor: &mut Cursor, greatest: u8) -> Result<u8, Refusal>
    ensures greatest { IfOk result (λ n. n ≤ greatest) }
    ensures kept { length cursor.new.rest.now ≤ length cursor.old.rest.now }
{
    Ok(number(cursor, 0, u32::from(greatest))? as u8)
}

/// A number of 16 bits.
pub(crate) fn word_number(cursor: &mut Cursor) -> Result<u16, Refusal> {
    Ok(number(cursor, 0, 0xffff)? as u16)
}

/// A service access point behind its word, where that stands next behind a comma, and else this one.
pub(crate) fn access_point(cursor: &mut Cursor, otherwise: u8) -> Result<u8, Refusal>
    requires fits { otherwise < 16 }
    ensures fits { IfOk result (λ n. n < 16) }
{
    if cursor.takes_further(Keyword::Sap) {
        return octet(cursor, 15);
    }
    Ok(otherwise)
}

/// So many octets, as two hexadecimal digits each.
pub(crate) fn octets<const N: usize>(cursor: &mut Cursor, digits: u32) -> Result<[u8; N], Refusal>
    requires two { digits ≡ 2 * N }
    ensures small { IfOk result (λ octets. AreEightBits octets) }
    ensures kept { length cursor.new.rest.now ≤ length cursor.old.rest.now }
{
    let word = cursor.word(Expected::Digits(digits))?;
    let mut octets = [0; N];
    match decode_to_slice(word, &mut octets) {
        Ok(()) => Ok(octets),
        Err(_) => Err(Token::Word(word).instead_of(Expected::Digits(digits))),
    }
}

/// 196 bits, as 49 hexadecimal digits.
pub(crate) fn information(cursor: &mut Cursor) -> Result<Bits<196>, Refusal>
    ensures bits { IfOk result (λ bits. length bits ≡ 196) }
{
    let wanted = Expected::Digits(49);
    let word = cursor.word(wanted)?;
    let mut digits = [b'0'; 50];
    let mut octets = [0; 25];
    if word.len() != 49 {
        return Err(Token::Word(word).instead_of(wanted));
    }
    digits[1..].copy_from_slice(word);
    match decode_to_slice(digits.as_slice(), &mut octets) {
        Ok(()) => Ok(Bits::<200>::from_octets(&octets).part(4, 200)),
        Err(_) => Err(Token::Word(word).instead_of(wanted)),
    }
}

/// The octets that a word says: two hexadecimal digits each, or a hyphen for none.
fn octets_of(alloc: Global, word: &[u8], wanted: Expected) -> Result<Vec<u8>, Halt>
    ensures few { IfOk result (λ octets. length octets.items ≤ length word.now) }
    ensures small { IfOk result (λ octets. AreEightBits octets.items) }
{
    if word == b"-".as_slice() {
        return Ok(Vec::new(alloc));
    }
    match decode(alloc, word) {
        Ok(octets) => Ok(octets),
        Err(FromHexError::OutOfMemory) => Err(Halt::Memory),
        Err(_) => Err(Halt::Refused(Token::Word(word).instead_of(wanted))),
    }
}

/// Octets, however many.
pub(crate) fn all_octets(alloc: Global, cursor: &mut Cursor) -> Result<Vec<u8>, Halt>
    ensures few { IfOk result (λ octets. length octets.items ≤ length cursor.old.rest.now) }
    ensures small { IfOk result (λ octets. AreEightBits octets.items) }
{
    let word = cursor.word(Expected::Octets)?;
    octets_of(alloc, word, Expected::Octets)
}

/// The octets of a text.
fn octets_of_text(alloc: Global, text: &[u8]) -> Result<Vec<u8>, AllocError>
    ensures small { IfOk result (λ octets. AreEightBits octets.items) }
{
    let octets = text.to_vec(alloc)?;
    Ok(octets)
}

/// The data of a datagram, as octets or as a text.
pub(crate) fn data(alloc: Global, cursor: &mut Cursor) -> Result<Vec<u8>, Halt>
    ensures most { IfOk result (λ octets. length octets.items ≤ 1372) }
    ensures small { IfOk result (λ octets. AreEightBits octets.items) }
{
    let token = cursor.next();
    let data = match token {
        Token::Word(word) => octets_of(alloc, word, Expected::Data)?,
        Token::Text(text) => octets_of_text(alloc, text)?,
        token => return Err(Halt::Refused(token.instead_of(Expected::Data))),
    };
    if data.len() > DATA_LIMIT {
        return Err(Halt::Refused(token.instead_of(Expected::ShortData)));
    }
    Ok(data)
}
