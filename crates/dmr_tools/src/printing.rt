//! What is printed where files are written: how much it was, or why it wasn't.
ghost use Rattle.std.specs.Io.KnownBytes.{Appends};
ghost use Rattle.std.specs.Prelude.{◌≡◌, ◌≤◌, ◌⊎◌, false, true, IfSome};
ghost use Rattle.dmr_lines.specs.Line.{PutsError, PutsLine, first_line, line_octets};
ghost use Rattle.dmr_lines.specs.Status.{failure, success};
ghost use Rattle.dmr_planning.specs.CountTexts.{made_text};

use arrayvec::ArrayString;
use dmr_lines::{FAILURE, SUCCESS, line_of, print_error, print_line};
use dmr_planning::Made;
use dmr_record::Sink;
use dmr_show::print_want_of_memory;
use std::alloc::Global;
use std::fmt::{self, Write};

/// Tells why a file wasn't written.
pub(crate) fn print_fault<F: fmt::Display, E: Sink>(alloc: Global, fault: &F, err: &mut E)
    requires err { E.has_failed err.old ≡ false }
    ensures error { E.has_failed err.new ≡ false → PutsError (E.held err.old) (E.held err.new) }
{
    match format!(in alloc; "{fault}") {
        Ok(text) => {
            let _failure = print_error(err, line_of(text.as_str()), FAILURE);
        }
        Err(_) => print_want_of_memory(err),
    }
}

/// Prints the line of a text, and answers the exit status: to the first sink, or to the second where standard output is what was
/// written.
fn print_beside<K: Sink, E: Sink>(text: &str, is_beside: bool, out: &mut K, err: &mut E) -> u8
    requires out { K.has_failed out.old ≡ false }
    requires err { E.has_failed err.old ≡ false }
    ensures text { is_beside ≡ false → K.has_failed out.new ≡ false
        → Appends (K.held out.old) (K.held out.new) (line_octets (first_line text.now)) }
    ensures line { is_beside ≡ false → K.has_failed out.new ≡ false → PutsLine (K.held out.old) (K.held out.new) }
    ensures line_alone { is_beside ≡ false → err.new ≡ err.old }
    ensures beside_text { is_beside ≡ true → E.has_failed err.new ≡ false
        → Appends (E.held err.old) (E.held err.new) (line_octets (first_line text.now)) }
    ensures beside_line { is_beside ≡ true → E.has_failed err.new ≡ false → PutsLine (E.held err.old) (E.held err.new) }
    ensures beside { is_beside ≡ true → out.new ≡ out.old }
    ensures status { K.has_failed out.new ≡ false → E.has_failed err.new ≡ false → result ≡ success }
    ensures out_failed { K.has_failed out.new ≡ true → result ≡ failure }
    ensures err_failed { E.has_failed err.new ≡ true → result ≡ failure }
{
    let line = line_of(text);
    if is_beside {
        print_line(err, line, SUCCESS)
    } else {
        print_line(out, line, SUCCESS)
    }
}

/// Prints how much was written, and answers the exit status: to the first sink, or to the second where standard output is what was
/// written.
pub(crate) fn print_counts<C: fmt::Display, K: Sink, E: Sink>(
    counts: &C,
    is_beside: bool,
    out: &mut K,
    err: &mut E,
) -> u8
    requires out { K.has_failed out.old ≡ false }
    requires err { E.has_failed err.old ≡ false }
    ensures line { is_beside ≡ false → K.has_failed out.new ≡ false → PutsLine (K.held out.old) (K.held out.new) }
    ensures line_alone { is_beside ≡ false → err.new ≡ err.old }
    ensures beside_line { is_beside ≡ true → E.has_failed err.new ≡ false → PutsLine (E.held err.old) (E.held err.new) }
    ensures beside { is_beside ≡ true → out.new ≡ out.old }
    ensures status { K.has_failed out.new ≡ false → E.has_failed err.new ≡ false → result ≡ success }
    ensures out_failed { K.has_failed out.new ≡ true → result ≡ failure }
    ensures err_failed { E.has_failed err.new ≡ true → result ≡ failure }
{
    let mut text = ArrayString::<128>::new();
    // There is room for each text that this can be.
    let _ = write!(text, "{counts}");
    print_beside(text.as_str(), is_beside, out, err)
}

/// The text of what was made.
fn text_of(made: &Made) -> Option<ArrayString<128>>
    ensures text { IfSome result (λ text. text.bytes ≡ made_text made.now) }
{
    let mut text = ArrayString::new();
    // There is room for each text that this can be.
    match write!(text, "{made}") {
        Ok(()) => Some(text),
        Err(_) => None,
    }
}

/// Prints what was made, and answers the exit status: to the first sink, or to the second where a file went to standard output.
pub(crate) fn print_made<K: Sink, E: Sink>(
    made: &Made,
    is_beside: bool,
    out: &mut K,
    err: &mut E,
) -> u8
    requires out { K.has_failed out.old ≡ false }
    requires err { E.has_failed err.old ≡ false }
    ensures line { result ≡ success → is_beside ≡ false
        → Appends (K.held out.old) (K.held out.new) (line_octets (first_line (made_text made.now))) }
    ensures one_line { result ≡ success → is_beside ≡ false → PutsLine (K.held out.old) (K.held out.new) }
    ensures line_alone { result ≡ success → is_beside ≡ false → err.new ≡ err.old }
    ensures beside_line { result ≡ success → is_beside ≡ true
        → Appends (E.held err.old) (E.held err.new) (line_octets (first_line (made_text made.now))) }
    ensures one_beside { result ≡ success → is_beside ≡ true → PutsLine (E.held err.old) (E.held err.new) }
    ensures beside { is_beside ≡ true → out.new ≡ out.old }
    ensures alone { (out.new ≡ out.old) ⊎ (err.new ≡ err.old) }
    ensures error { result ≡ failure → K.has_failed out.new ≡ false → E.has_failed err.new ≡ false
        → PutsError (E.held err.old) (E.held err.new) }
    ensures status { result ≤ 1 }
    ensures out_failed { K.has_failed out.new ≡ true → result ≡ failure }
    ensures err_failed { E.has_failed err.new ≡ true → result ≡ failure }
{
    let Some(text) = text_of(made) else {
        print_want_of_memory(err);
        return FAILURE;
    };
    print_beside(text.as_str(), is_beside, out, err)
}
