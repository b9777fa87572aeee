//! The statements of a script.
ghost use Rattle.std.specs.Prelude.{◌≡◌, ◌⊎◌, ◌<◌, All, None, true, false, length, IfOk, IfErr, IfSome, IfNone, OnOk, OnErr};
ghost use Rattle.dmr_words.specs.Lines.{line_limit};
ghost use Rattle.dmr_script.specs.Fits.{FitsNumbered, FitsStatement};
ghost use Rattle.dmr_script.specs.Order.{MayStandBehind, said_nothing, refused_behind, said_with};
ghost use Rattle.dmr_script.specs.Quiet.{is_quiet};
ghost use Rattle.dmr_script.specs.Reading.{IsScriptRead};
ghost use Rattle.dmr_words.specs.declared.fault.LineFault.TheVariants as line;

use crate::fault::{Refusal, RefusedLine};
use crate::halt::Halt;
use crate::lines::statement;
use crate::order::Said;
use crate::script::Script;
use crate::statement::{NumberedStatement, Statement};
use dmr_record::Source;
use dmr_words::{LineFault, Lines};
use std::alloc::{AllocError, Global};

/// Why a line that can't be told is refused.
fn of_line(fault: LineFault) -> Refusal
    ensures long { fault ≡ line.TooLong → result ≡ Refusal.LongLine }
    ensures many { fault ≡ line.TooMany → result ≡ Refusal.TooManyLines }
    ensures read { fault ≡ line.Read → result ≡ Refusal.Read }
{
    match fault {
        LineFault::TooLong => Refusal::LongLine,
        LineFault::TooMany => Refusal::TooManyLines,
        LineFault::Read => Refusal::Read,
    }
}

/// What a line says behind others, where it says anything.
fn further(alloc: Global, said: &mut Said, line: &[u8]) -> Result<Option<Statement>, Halt>
    ensures fits { IfOk result (λ statement. IfSome statement FitsStatement) }
    ensures may { IfOk result (λ statement. IfSome statement (λ s. refused_behind said.old s ≡ None)) }
    ensures value { IfOk result (λ statement. IfSome statement (λ s. said.new ≡ said_with said.old s)) }
    ensures same { IfOk result (λ statement. IfNone statement (said.new ≡ said.old)) }
    ensures quiet { IfOk result (λ statement. IfNone statement (is_quiet line.now ≡ true)) }
    ensures words { IfOk result (λ statement. IfSome statement (λ _. is_quiet line.now ≡ false)) }
    ensures refused { IfErr result (λ e. (is_quiet line.now ≡ false) ⊎ (65536 < length line.now)) }
{
    let Some(statement) = statement(alloc, line)? else {
        return Ok(None);
    };
    said.add(&statement)?;
    Ok(Some(statement))
}

/// Reads the statements of a script, to its end or to the first line that is refused. No line behind that one is read. An `Err`
/// comes where there is no memory for the statements.
pub fn read_script<S: Source>(alloc: Global, source: &mut S) -> Result<Script, AllocError>
    requires well { S.has_failed source.old ≡ false }
    // The numbers of each statement fit their fields,
    ensures fit { IfOk result (λ script. All FitsNumbered script.statements.items) }
    // each may stand behind those in front of it,
    ensures follow { IfOk result (λ script. MayStandBehind said_nothing script.statements.items) }
    // and they are of the lines up to the first that is refused, or of all lines. No line was told behind these.
    ensures read { IfOk result (λ script. IsScriptRead script.refused script.statements.items (S.has_failed source.new)
        (S.left source.old) (S.left source.new)) }
    ensures well { OnErr result (S.has_failed source.new ≡ false) }
{
    let mut said = Said::nothing();
    let mut lines = Lines::new();
    let mut statements = Vec::new(alloc);
    loop {
        let is_told = match lines.next_line(source) {
            Ok(is_told) => is_told,
            Err(fault) => {
                let refused = Some(RefusedLine {
                    line: lines.next_number(),
                    refusal: of_line(fault),
                });
                return Ok(Script {
                    statements,
                    refused,
                });
            }
        };
        if !is_told {
            return Ok(Script {
                statements,
                refused: None,
            });
        }
        let line = lines.number();
        match further(alloc, &mut said, lines.line()) {
            Ok(Some(statement)) => statements.push(NumberedStatement { line, statement })?,
            Ok(None) => {}
            Err(Halt::Refused(refusal)) => {
                let refused = Some(RefusedLine { line, refusal });
                return Ok(Script {
                    statements,
                    refused,
                });
            }
            Err(Halt::Memory) => return Err(AllocError),
        }
    }
}
