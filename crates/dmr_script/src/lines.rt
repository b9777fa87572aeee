//! The statement of a line.
ghost use Rattle.std.specs.Prelude.{◌≡◌, ◌<◌, ◌≤◌, ◌^◌, length, IfOk};
ghost use Rattle.std.specs.Prelude.{◌⊎◌, IfErr, IfNone, IfSome, true, false};
ghost use Rattle.dmr_script.specs.Fits.{FitsStatement};
ghost use Rattle.dmr_script.specs.Quiet.{is_quiet};

use crate::expected::Expected;
use crate::fault::Refusal;
use crate::halt::Halt;
use crate::numbers::{number, octet};
use crate::sends::send;
use crate::statement::{Slot, Statement};
use crate::token::{Cursor, Token};
use crate::transmissions::{foreign, own};
use std::alloc::Global;

/// How many octets a line has at most. This project's own.
const LINE_LIMIT: usize = 65_536;

/// A number that ends its line.
fn last_number(cursor: &mut Cursor) -> Result<u32, Refusal>
    ensures fits { IfOk result (λ n. n < 2 ^ 32) }
{
    let number = number(cursor, 0, u32::MAX)?;
    cursor.expect_end()?;
    Ok(number)
}

/// A colour code that ends its line.
fn colour(cursor: &mut Cursor) -> Result<u8, Refusal>
    ensures fits { IfOk result (λ colour. colour < 16) }
{
    let colour = octet(cursor, 15)?;
    cursor.expect_end()?;
    Ok(colour)
}

/// A slot that ends its line.
fn slot(cursor: &mut Cursor) -> Result<Slot, Refusal> {
    let number = number(cursor, 1, 2)?;
    cursor.expect_end()?;
    Ok(if number == 1 { Slot::One } else { Slot::Two })
}

/// The statement that begins with this word, to the end of the line.
fn begun(alloc: Global, word: &[u8], cursor: &mut Cursor) -> Result<Statement, Halt>
    requires line { length cursor.old.rest.now < 65536 }
    ensures fits { IfOk result FitsStatement }
{
    let statement = match word {
        b"colour" => Statement::Colour(colour(cursor)?),
        b"slot" => Statement::Slot(slot(cursor)?),
        b"silence" => Statement::Silence(last_number(cursor)?),
        b"at" => Statement::At(last_number(cursor)?),
        b"frames" => Statement::Frames(last_number(cursor)?),
        b"send" => Statement::Send(send(alloc, cursor)?),
        b"foreign" => Statement::Transmit(foreign(alloc, cursor)?),
        word => Statement::Transmit(own(alloc, word, cursor)?),
    };
    Ok(statement)
}

/// What a line says, where it says anything.
pub(crate) fn statement(alloc: Global, line: &[u8]) -> Result<Option<Statement>, Halt>
    ensures fits { IfOk result (λ statement. IfSome statement FitsStatement) }
    ensures quiet { IfOk result (λ statement. IfNone statement (is_quiet line.now ≡ true)) }
    ensures words { IfOk result (λ statement. IfSome statement (λ _. is_quiet line.now ≡ false)) }
    ensures refused { IfErr result (λ e. (is_quiet line.now ≡ false) ⊎ (65536 < length line.now)) }
{
    if line.len() > LINE_LIMIT {
        return Err(Halt::Refused(Refusal::LongLine));
    }
    let mut cursor = Cursor::new(line);
    match cursor.next() {
        Token::Word(word) => Ok(Some(begun(alloc, word, &mut cursor)?)),
        Token::End => Ok(None),
        token => Err(Halt::Refused(token.instead_of(Expected::Statement))),
    }
}
