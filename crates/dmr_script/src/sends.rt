//! Records of the outgoing list of a line.
ghost use Rattle.std.specs.Prelude.{◌≡◌, ◌<◌, ◌≤◌, ◌^◌, length, IfOk};
ghost use Rattle.dmr_script.specs.Fits.{FitsSending};

use crate::expected::Expected;
use crate::fault::Refusal;
use crate::halt::Halt;
use crate::keyword::Keyword;
use crate::numbers::{all_octets, number};
use crate::packets::message;
use crate::send::{AddressedMessage, Datagram, Send};
use crate::token::{Cursor, Token};
use dmr_data::Rate;
use std::alloc::Global;
use std::net::SocketAddrV4;

/// An IPv4 address and a port, as `12.0.0.1:5016`.
fn endpoint(cursor: &mut Cursor) -> Result<SocketAddrV4, Refusal> {
    let word = cursor.word(Expected::Endpoint)?;
    let refusal = Token::Word(word).instead_of(Expected::Endpoint);
    match str::from_utf8(word) {
        Ok(text) => text.parse().map_err(|_| refusal),
        Err(_) => Err(refusal),
    }
}

/// What a record holds.
fn datagram(alloc: Global, cursor: &mut Cursor) -> Result<Datagram, Halt>
    requires line { length cursor.old.rest.now < 65536 }
    ensures fits { IfOk result FitsSending }
{
    match cursor.next() {
        Token::Word(b"UDP") => {
            let source = endpoint(cursor)?;
            cursor.expect(Keyword::Arrow)?;
            let destination = endpoint(cursor)?;
            let message = message(alloc, cursor, source.port(), destination.port())?;
            Ok(Datagram::Udp(AddressedMessage {
                source: source.ip().octets(),
                destination: destination.ip().octets(),
                message,
            }))
        }
        Token::Word(b"octets") => Ok(Datagram::Octets(all_octets(alloc, cursor)?)),
        token => Err(Halt::Refused(token.instead_of(Expected::Body))),
    }
}

/// Whether a datagram is sent as a confirmed packet: the word stands next, with a comma behind it.
fn is_confirmed(cursor: &mut Cursor) -> Result<bool, Refusal>
    ensures kept { length cursor.new.rest.now ≤ length cursor.old.rest.now }
{
    let confirmed = cursor.takes(Keyword::Confirmed);
    if confirmed {
        cursor.expect(Keyword::Comma)?;
    }
    Ok(confirmed)
}

/// The rate at which a datagram is sent: rate 1 where that stands next, with a comma behind it, and else rate 1/2.
fn rate(cursor: &mut Cursor) -> Result<Rate, Refusal>
    ensures kept { length cursor.new.rest.now ≤ length cursor.old.rest.now }
{
    if !cursor.takes(Keyword::Rate) {
        return Ok(Rate::Half);
    }
    cursor.expect(Keyword::One)?;
    cursor.expect(Keyword::Comma)?;
    Ok(Rate::Full)
}

/// A record behind its first word: `at FRAME, [confirmed,] [rate 1,] DATAGRAM`.
pub(crate) fn send(alloc: Global, cursor: &mut Cursor) -> Result<Send, Halt>
    requires line { length cursor.old.rest.now < 65536 }
    ensures frame { IfOk result (λ send. send.frame < 2 ^ 32) }
    ensures fits { IfOk result (λ send. FitsSending send.datagram) }
{
    cursor.expect(Keyword::At)?;
    let frame = number(cursor, 0, u32::MAX)?;
    cursor.expect(Keyword::Comma)?;
    let confirmed = is_confirmed(cursor)?;
    let rate = rate(cursor)?;
    let datagram = datagram(alloc, cursor)?;
    cursor.expect_end()?;
    Ok(Send {
        frame,
        confirmed,
        rate,
        datagram,
    })
}
