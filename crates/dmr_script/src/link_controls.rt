//! Link controls of a line.
ghost use Rattle.std.specs.Prelude.{◌≡◌, ◌<◌, ◌≤◌, ◌^◌, length, IfOk, IfSome};
ghost use Rattle.dmr_link.specs.FullLc.{FitsFullLc};

use crate::expected::Expected;
use crate::fault::Refusal;
use crate::keyword::Keyword;
use crate::numbers::{address, number, octet, octets};
use crate::token::{Cursor, Token};
use dmr_link::{CallKind, FullLc, GROUP_CALL, ServiceOptions, UNIT_TO_UNIT_CALL, VoiceLc};

/// The opcode of a talker alias header; those of its three blocks follow. ETSI TS 102 361-2, clause 7.1.1.4.
pub(crate) const TALKER_ALIAS: u8 = 4;

/// The opcode of GPS info. ETSI TS 102 361-2, clause 7.1.1.3.
const GPS_INFO: u8 = 8;

/// The link control of the standard's feature set with this opcode and body.
pub(crate) fn standard(flco: u8, body: [u8; 7]) -> FullLc
    requires fits { flco < 64 }
    ensures fits { FitsFullLc result }
{
    FullLc {
        protect: false,
        reserved: false,
        flco,
        fid: 0,
        body,
    }
}

/// The link control of a voice call.
fn of_call(voice: VoiceLc) -> FullLc
    requires target { voice.target < 2 ^ 24 }
    requires source { voice.source < 2 ^ 24 }
    ensures fits { FitsFullLc result }
{
    let flco = match voice.kind {
        CallKind::Group => GROUP_CALL,
        CallKind::UnitToUnit => UNIT_TO_UNIT_CALL,
    };
    let [_, target_high, target_middle, target_low] = voice.target.to_be_bytes();
    let [_, source_high, source_middle, source_low] = voice.source.to_be_bytes();
    standard(
        flco,
        [
            voice.options.0,
            target_high,
            target_middle,
            target_low,
            source_high,
            source_middle,
            source_low,
        ],
    )
}

/// The bits of an option behind a comma, where it stands next.
fn option_bits(cursor: &mut Cursor, keyword: Keyword, option: ServiceOptions) -> u8
    ensures kept { length cursor.new.rest.now ≤ length cursor.old.rest.now }
{
    if cursor.takes_further(keyword) {
        option.0
    } else {
        0
    }
}

/// The priority of a call, where it stands next.
fn priority(cursor: &mut Cursor) -> Result<u8, Refusal>
    ensures kept { length cursor.new.rest.now ≤ length cursor.old.rest.now }
{
    if cursor.takes_further(Keyword::Priority) {
        return octet(cursor, 3);
    }
    Ok(0)
}

/// The service options of a call, as far as they stand next.
fn options(cursor: &mut Cursor) -> Result<ServiceOptions, Refusal>
    ensures kept { length cursor.new.rest.now ≤ length cursor.old.rest.now }
{
    let emergency = option_bits(cursor, Keyword::Emergency, ServiceOptions::EMERGENCY);
    let privacy = option_bits(cursor, Keyword::Privacy, ServiceOptions::PRIVACY);
    let broadcast = option_bits(cursor, Keyword::Broadcast, ServiceOptions::BROADCAST);
    let open = option_bits(cursor, Keyword::Ovcm, ServiceOptions::OVCM);
    Ok(ServiceOptions(emergency | privacy | broadcast | open | priority(cursor)?))
}

/// A call behind its first word: `call S -> T`, and its options.
fn call(cursor: &mut Cursor, kind: CallKind) -> Result<FullLc, Refusal>
    ensures fits { IfOk result FitsFullLc }
    ensures kept { length cursor.new.rest.now ≤ length cursor.old.rest.now }
{
    cursor.expect(Keyword::Call)?;
    let source = address(cursor)?;
    cursor.expect(Keyword::Arrow)?;
    let target = address(cursor)?;
    let options = options(cursor)?;
    Ok(of_call(VoiceLc {
        kind,
        options,
        target,
        source,
    }))
}

/// A part of a talker alias behind its first word: `alias header HEX14`, `alias block N HEX14`.
fn talker_alias(cursor: &mut Cursor) -> Result<FullLc, Refusal>
    ensures fits { IfOk result FitsFullLc }
    ensures kept { length cursor.new.rest.now ≤ length cursor.old.rest.now }
{
    cursor.expect(Keyword::Alias)?;
    if cursor.takes(Keyword::Header) {
        return Ok(standard(TALKER_ALIAS, octets(cursor, 14)?));
    }
    cursor.expect(Keyword::Block)?;
    let block = number(cursor, 1, 3)? as u8;
    Ok(standard(TALKER_ALIAS + block, octets(cursor, 14)?))
}

/// GPS info behind its first word: `info HEX14`.
fn gps_info(cursor: &mut Cursor) -> Result<FullLc, Refusal>
    ensures fits { IfOk result FitsFullLc }
    ensures kept { length cursor.new.rest.now ≤ length cursor.old.rest.now }
{
    cursor.expect(Keyword::Info)?;
    Ok(standard(GPS_INFO, octets(cursor, 14)?))
}

/// The feature set of a link control between commas, where it stands next.
fn feature_set(cursor: &mut Cursor) -> Result<u8, Refusal>
    ensures kept { length cursor.new.rest.now ≤ length cursor.old.rest.now }
{
    if !cursor.takes_further(Keyword::Fid) {
        return Ok(0);
    }
    let fid = octet(cursor, 255)?;
    cursor.expect(Keyword::Comma)?;
    Ok(fid)
}

/// A link control by its fields behind its first word: `opcode N HEX14`, `opcode N, fid N, HEX14`.
fn of_opcode(cursor: &mut Cursor) -> Result<FullLc, Refusal>
    ensures fits { IfOk result FitsFullLc }
    ensures kept { length cursor.new.rest.now ≤ length cursor.old.rest.now }
{
    cursor.expect(Keyword::Opcode)?;
    let flco = octet(cursor, 63)?;
    let fid = feature_set(cursor)?;
    let body = octets(cursor, 14)?;
    Ok(FullLc {
        protect: false,
        reserved: false,
        flco,
        fid,
        body,
    })
}

/// The link control that begins with this word, where one does.
pub(crate) fn begun_link_control(
    word: &[u8],
    cursor: &mut Cursor,
) -> Result<Option<FullLc>, Refusal>
    ensures fits { IfOk result (λ lc. IfSome lc FitsFullLc) }
    ensures kept { length cursor.new.rest.now ≤ length cursor.old.rest.now }
{
    let lc = match word {
        b"group" => call(cursor, CallKind::Group)?,
        b"unit" => call(cursor, CallKind::UnitToUnit)?,
        b"talker" => talker_alias(cursor)?,
        b"GPS" => gps_info(cursor)?,
        b"LC" => of_opcode(cursor)?,
        _ => return Ok(None),
    };
    Ok(Some(lc))
}

/// A link control.
pub(crate) fn link_control(cursor: &mut Cursor) -> Result<FullLc, Refusal>
    ensures fits { IfOk result FitsFullLc }
    ensures kept { length cursor.new.rest.now ≤ length cursor.old.rest.now }
{
    let word = cursor.word(Expected::LinkControl)?;
    match begun_link_control(word, cursor)? {
        Some(lc) => Ok(lc),
        None => Err(Token::Word(word).instead_of(Expected::LinkControl)),
    }
}
