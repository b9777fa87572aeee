//! Transmissions of a line.
ghost use Rattle.std.specs.Prelude.{◌≡◌, ◌<◌, ◌≤◌, ◌^◌, length, IfOk};
ghost use Rattle.std.specs.Prelude.{All, IfSome, OnOk};
ghost use Rattle.dmr_link.specs.FullLc.{FitsFullLc};
ghost use Rattle.dmr_script.specs.Foreign.{MayBeForeign};
ghost use Rattle.dmr_script.specs.Shapes.{IsCallShape};
ghost use Rattle.dmr_script.specs.Fits.{AreEightBits, FitsCall, FitsCarried, FitsTransmission, FitsTransmit};

use crate::call::{Call, Carried};
use crate::call_shapes::{self, call_shape};
use crate::carrying::carrying;
use crate::cited::Cited;
use crate::controls::{begun_burst, begun_control};
use crate::expected::Expected;
use crate::fault::Refusal;
use crate::halt::Halt;
use crate::keyword::Keyword;
use crate::letters::shape_letters;
use crate::link_controls::begun_link_control;
use crate::numbers::{octet, octets};
use crate::packet::{Again, AnswerKind};
use crate::packet_shapes;
use crate::packets::{
    full_try, packet_try, partial_try, plain_answer, selective_repeat, short_data_try, status_sent,
};
use crate::shape::CallShape;
use crate::statement::{Sender, Transmission, Transmit};
use crate::token::{Cursor, Token};
use dmr_link::FullLc;
use std::alloc::Global;

/// The contents of PI headers behind their word, where that stands next behind a comma, and else zeros.
fn key(cursor: &mut Cursor) -> Result<[u8; 10], Refusal>
    ensures small { IfOk result (λ key. AreEightBits key) }
{
    if cursor.takes_further(Keyword::Key) {
        return octets(cursor, 20);
    }
    Ok([0; 10])
}

/// A call of this link control, with these contents of its PI headers.
fn call_with(
    link_control: FullLc,
    pi: bool,
    key: [u8; 10],
    carried: Vec<Carried>,
    shape: CallShape,
) -> Call
    requires link_control { FitsFullLc link_control }
    requires key { AreEightBits key }
    requires carried { All FitsCarried carried.items }
    requires shape { IsCallShape shape }
    ensures fits { FitsCall result }
{
    Call {
        link_control,
        pi,
        key,
        carried,
        shape,
    }
}

/// A call behind its link control, to the end of the line.
fn call(alloc: Global, cursor: &mut Cursor, link_control: FullLc) -> Result<Call, Halt>
    requires fits { FitsFullLc link_control }
    ensures fits { IfOk result FitsCall }
{
    let pi = cursor.takes_further(Keyword::Pi);
    let key = key(cursor)?;
    let carried = carrying(alloc, cursor)?;
    let Some(letters) = shape_letters(alloc, cursor)? else {
        return Err(Halt::Refused(Refusal::NoCallShape));
    };
    let shape = call_shape(alloc, letters.as_slice())?;
    Ok(call_with(link_control, pi, key, carried, shape))
}

/// What the header of a packet or an answer begins, by the first word, to the end of the line, where it does.
fn begun_packet(
    alloc: Global,
    word: &[u8],
    cursor: &mut Cursor,
) -> Result<Option<Transmission>, Halt>
    ensures fits { IfOk result (λ transmission. IfSome transmission FitsTransmission) }
{
    let transmission = match word {
        b"unconfirmed" => packet_try(alloc, cursor, false),
        b"confirmed" => packet_try(alloc, cursor, true),
        b"full" => full_try(alloc, cursor),
        b"partial" => partial_try(alloc, cursor),
        b"short" => short_data_try(alloc, cursor),
        b"status" => status_sent(alloc, cursor),
        b"ACK" => plain_answer(alloc, cursor, AnswerKind::Acknowledged),
        b"failed" => plain_answer(alloc, cursor, AnswerKind::Failed),
        b"selective" => selective_repeat(alloc, cursor),
        _ => return Ok(None),
    };
    Ok(Some(transmission?))
}

/// The transmission that begins with this word, to the end of the line.
fn begun_transmission(alloc: Global, word: &[u8], cursor: &mut Cursor) -> Result<Transmission, Halt>
    ensures fits { IfOk result FitsTransmission }
{
    if let Some(link_control) = begun_link_control(word, cursor)? {
        return Ok(Transmission::Call(call(alloc, cursor, link_control)?));
    }
    if let Some(csbk) = begun_control(word, cursor)? {
        return Ok(Transmission::Control(csbk));
    }
    if let Some(burst) = begun_burst(word, cursor)? {
        return Ok(Transmission::Burst(burst));
    }
    match begun_packet(alloc, word, cursor)? {
        Some(transmission) => Ok(transmission),
        None => Err(Halt::Refused(Refusal::UnknownWord(Cited::of(word)))),
    }
}

/// That a transmission may have another colour code.
fn may_be_foreign(transmission: &Transmission) -> Result<(), Refusal>
    ensures foreign { OnOk result (MayBeForeign transmission.now) }
{
    match transmission {
        Transmission::Call(call) => call_shapes::may_be_foreign(&call.shape),
        Transmission::Packet(packet) => packet_shapes::may_be_foreign(&packet.shape),
        Transmission::Again(Again::Full(None)) => Ok(()),
        Transmission::Again(Again::Full(Some(shape))) => packet_shapes::may_be_foreign(shape),
        Transmission::Again(Again::Partial(part)) => packet_shapes::may_be_foreign(&part.shape),
        Transmission::ShortData(short) => packet_shapes::may_be_foreign(&short.shape),
        Transmission::Status(status) => packet_shapes::may_be_foreign(&status.shape),
        Transmission::Answer(answer) => packet_shapes::may_be_foreign(&answer.shape),
        Transmission::Control(_) | Transmission::Burst(_) => Ok(()),
    }
}

/// A transmission of the own colour code that begins with this word.
pub(crate) fn own(alloc: Global, word: &[u8], cursor: &mut Cursor) -> Result<Transmit, Halt>
    ensures fits { IfOk result FitsTransmit }
{
    Ok(Transmit {
        sender: Sender::Own,
        transmission: begun_transmission(alloc, word, cursor)?,
    })
}

/// A transmission of another colour code behind its first word: `N TRANSMISSION`.
pub(crate) fn foreign(alloc: Global, cursor: &mut Cursor) -> Result<Transmit, Halt>
    ensures fits { IfOk result FitsTransmit }
{
    let colour = octet(cursor, 15)?;
    let word = cursor.word(Expected::Transmission)?;
    let transmission = begun_transmission(alloc, word, cursor)?;
    may_be_foreign(&transmission)?;
    Ok(Transmit {
        sender: Sender::Foreign(colour),
        transmission,
    })
}
