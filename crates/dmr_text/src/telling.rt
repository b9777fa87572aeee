//! The next line of a text that counts.
ghost use Rattle.std.specs.Prelude.{◌≡◌, ◌≢◌, ◌∷◌, [], true, false, IfErr, OnOk, OnErr};
ghost use Rattle.std.specs.Io.KnownBytes.{IsAtEnd};
ghost use Rattle.dmr_words.specs.Lines.{TellsLines, told_now, worded_behind};
ghost use Rattle.dmr_text.specs.Telling.{EndsBehind, GoesOn, IsEndTold};
ghost use Rattle.dmr_text.specs.TextFaults.{is_read};
ghost use Rattle.dmr_words.specs.declared.fault.LineFault.TheVariants as line;

use crate::fault::{LineFault, TextFault};
use dmr_record::Source;
use dmr_words::Lines;

/// The fault of a text whose next line could not be told.
fn of_line(fault: dmr_words::LineFault) -> TextFault
    ensures long { fault ≢ line.Read → result ≡ TextFault.TooLong }
    ensures read { fault ≡ line.Read → result ≡ TextFault.Read }
{
    match fault {
        dmr_words::LineFault::TooLong | dmr_words::LineFault::TooMany => TextFault::TooLong,
        dmr_words::LineFault::Read => TextFault::Read,
    }
}

/// Reads on to the next line that counts. A text that ends in place of it shows the fault `at_end`.
pub(crate) fn tell_line<S: Source>(
    lines: &mut Lines,
    source: &mut S,
    at_end: TextFault,
) -> Result<(), LineFault>
    requires well { S.has_failed source.old ≡ false }
    requires over { lines.old.is_over ≡ true → IsAtEnd (S.left source.old) }
    requires end { at_end ≢ TextFault.Read }
    ensures told { OnOk result (TellsLines worded_behind lines.old lines.new (S.left source.old) (S.left source.new)
        (told_now true lines.new)) }
    ensures over { lines.new.is_over ≡ true → IsAtEnd (S.left source.new) }
    ensures well { OnOk result (S.has_failed source.new ≡ false) }
    ensures broken { IfErr result (λ e. EndsBehind at_end e lines.old (S.left source.old) (S.left source.new)) }
    ensures failed { IfErr result (λ e. S.has_failed source.new ≡ is_read e.fault) }
{
    match lines.next_worded(source) {
        Ok(true) => Ok(()),
        Ok(false) => Err(LineFault {
            line: lines.next_number(),
            fault: at_end,
        }),
        Err(fault) => Err(LineFault {
            line: lines.next_number(),
            fault: of_line(fault),
        }),
    }
}

/// Reads on to the end of the text. A line that counts must not come any more.
pub(crate) fn tell_end<S: Source>(lines: &mut Lines, source: &mut S) -> Result<(), LineFault>
    requires well { S.has_failed source.old ≡ false }
    requires over { lines.old.is_over ≡ true → IsAtEnd (S.left source.old) }
    ensures told { OnOk result (IsEndTold lines.old lines.new (S.left source.old) (S.left source.new)) }
    ensures end { OnOk result (IsAtEnd (S.left source.new)) }
    ensures well { OnOk result (S.has_failed source.new ≡ false) }
    ensures fault { IfErr result (λ e. GoesOn e lines.old (S.left source.old) (S.left source.new)) }
    ensures failed { IfErr result (λ e. S.has_failed source.new ≡ is_read e.fault) }
{
    match lines.next_worded(source) {
        Ok(false) => Ok(()),
        Ok(true) => Err(LineFault {
            line: lines.number(),
            fault: TextFault::LineBehindLast,
        }),
        Err(fault) => Err(LineFault {
            line: lines.next_number(),
            fault: of_line(fault),
        }),
    }
}
