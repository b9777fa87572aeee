//! How a run ended.
ghost use Rattle.std.specs.Prelude.{◌≡◌, ◌↔◌, false, true, IsTrue};
ghost use Rattle.std.specs.Io.KnownBytes.{Appends};
ghost use Rattle.dmr_lines.specs.Line.{IsOneLine, PutsError, PutsLine, error_octets};
ghost use Rattle.dmr_program.specs.RunEnd.{IsDone, end_of, status_of};
ghost use Rattle.dmr_program.specs.Told.{PutsErrorAnd, PutsLineAnd};
ghost use Rattle.dmr_lines.specs.Status.{failure, success};

use crate::text::text_of;
use dmr_lines::{FAILURE, SUCCESS, USAGE, line_of, print_error, print_line};
use dmr_record::Sink;
use dmr_repeater::{RunFault, Stream, Summary};
use dmr_settings::ConfigFault;
use std::fmt;

/// How a run ended.
#[derive(Clone, Copy, Debug, Drop, PartialEq, Eq)]
pub enum RunEnd {
    /// At the end of its files.
    Done(Summary),
    /// At a fault.
    Fault(RunFault),
    /// Before it began: a file could not be opened.
    CannotOpen(Stream),
    /// Before it began: a file was to be sent to a terminal.
    Terminal(Stream),
    /// Before it began: its settings were refused.
    Setting(ConfigFault),
}

impl fmt::Display for RunEnd {
    fn fmt<W: fmt::Write>(&self, f: &mut fmt::Formatter<W>) -> fmt::Result {
        match self {
            RunEnd::Done(summary) => write_summary(summary, f),
            RunEnd::Fault(fault) => write!(f, "{fault}"),
            RunEnd::CannotOpen(stream) => write!(f, "{stream}: cannot open"),
            RunEnd::Terminal(stream) => write!(f, "{stream}: standard output is a terminal"),
            RunEnd::Setting(ConfigFault::Hang) => write!(f, "{}", ConfigFault::Hang),
            // The command line refuses these by their ranges, so that no run ends so.
            RunEnd::Setting(_) => write!(f, "bad setting"),
        }
    }
}

fn write_summary<W: fmt::Write>(summary: &Summary, f: &mut fmt::Formatter<W>) -> fmt::Result {
    let Summary {
        frames,
        repeated,
        received,
        delivered,
        sent,
        given_up,
        refused,
        unoffered,
    } = *summary;
    write!(
        f,
        "frames {frames} repeated {repeated} received {received} "
    )?;
    write!(f, "delivered {delivered} sent {sent} given-up {given_up} ")?;
    write!(f, "refused {refused} unoffered {unoffered}")
}

impl RunEnd {
    /// How a run over open files ended.
    pub(crate) fn of(end: Result<Summary, RunFault>) -> RunEnd
        ensures value { result ≡ end_of end }
    {
        match end {
            Ok(summary) => RunEnd::Done(summary),
            Err(fault) => RunEnd::Fault(fault),
        }
    }

    /// Whether it came to the end of its files.
    fn is_done(&self) -> bool
        ensures done { IsTrue result ↔ IsDone self.now }
    {
        match self {
            RunEnd::Done(_) => true,
            RunEnd::Fault(_) => false,
            RunEnd::CannotOpen(_) => false,
            RunEnd::Terminal(_) => false,
            RunEnd::Setting(_) => false,
        }
    }

    /// The exit status.
    fn status(&self) -> u8
        ensures value { result ≡ status_of self.now }
    {
        match self {
            RunEnd::Done(_) => SUCCESS,
            RunEnd::Fault(_) => FAILURE,
            RunEnd::CannotOpen(_) => FAILURE,
            RunEnd::Terminal(_) => FAILURE,
            RunEnd::Setting(_) => USAGE,
        }
    }
}

/// Prints how a run ended, and answers the exit status: the numbers of a run that came to its end, and else an error.
pub fn print_end<K: Sink, E: Sink>(end: &RunEnd, out: &mut K, err: &mut E) -> u8
    requires out { K.has_failed out.old ≡ false }
    requires err { E.has_failed err.old ≡ false }
    // One line is printed, to one of the two, and the other is as it was.
    ensures line { IsDone end.now → K.has_failed out.new ≡ false → PutsLine (K.held out.old) (K.held out.new) }
    ensures line_alone { IsDone end.now → err.new ≡ err.old }
    ensures error { (IsDone end.now → ⊥) → E.has_failed err.new ≡ false → PutsError (E.held err.old) (E.held err.new) }
    ensures error_alone { (IsDone end.now → ⊥) → out.new ≡ out.old }

    ensures status { K.has_failed out.new ≡ false → E.has_failed err.new ≡ false → result ≡ status_of end.now }
    ensures out_failed { K.has_failed out.new ≡ true → result ≡ failure }
    ensures err_failed { E.has_failed err.new ≡ true → result ≡ failure }
{
    let text = text_of(end);
    let line = line_of(text.as_str());
    if end.is_done() {
        print_line(out, line, end.status())
    } else {
        print_error(err, line, end.status())
    }
}

/// Prints how a run ended where standard output is a file of the run, and answers the exit status. All goes to one sink.
pub fn print_end_beside<E: Sink>(end: &RunEnd, err: &mut E) -> u8
    requires err { E.has_failed err.old ≡ false }
    ensures line { IsDone end.now → E.has_failed err.new ≡ false → PutsLine (E.held err.old) (E.held err.new) }
    ensures error { (IsDone end.now → ⊥) → E.has_failed err.new ≡ false → PutsError (E.held err.old) (E.held err.new) }
    ensures success { result ≡ success → PutsLine (E.held err.old) (E.held err.new) }
    ensures status { E.has_failed err.new ≡ false → result ≡ status_of end.now }
    ensures failed { E.has_failed err.new ≡ true → result ≡ failure }
{
    let text = text_of(end);
    let line = line_of(text.as_str());
    if end.is_done() {
        print_line(err, line, end.status())
    } else {
        print_error(err, line, end.status())
    }
}

/// Prints a line that tells an error, and behind it one more, and answers the status that is to follow them. Where the first can't
/// be printed, the other isn't.
fn print_errors<E: Sink>(line: &str, more: &str, status: u8, err: &mut E) -> u8
    requires err { E.has_failed err.old ≡ false }
    requires one { IsOneLine line.now }
    ensures both { E.has_failed err.new ≡ false → PutsErrorAnd more.now (E.held err.old) (E.held err.new) }
    ensures status { E.has_failed err.new ≡ false → result ≡ status }
    ensures failed { E.has_failed err.new ≡ true → result ≡ failure }
{
    match print_error(err, line, SUCCESS) {
        SUCCESS => print_error(err, more, status),
        _ => FAILURE,
    }
}

/// Prints a line, and behind it one that tells an error, as `print_errors` prints two of these.
fn print_line_and_error<E: Sink>(line: &str, more: &str, status: u8, err: &mut E) -> u8
    requires err { E.has_failed err.old ≡ false }
    requires one { IsOneLine line.now }
    ensures both { E.has_failed err.new ≡ false → PutsLineAnd more.now (E.held err.old) (E.held err.new) }
    ensures status { E.has_failed err.new ≡ false → result ≡ status }
    ensures failed { E.has_failed err.new ≡ true → result ≡ failure }
{
    match print_line(err, line, SUCCESS) {
        SUCCESS => print_error(err, more, status),
        _ => FAILURE,
    }
}

/// Prints how a run ended, and behind that a line that tells more of it, and answers the exit status. The numbers of a run that
/// came to its end go to the first sink, but where standard output is a file of the run; all else goes to the second. Where the
/// first line can't be printed, the other isn't.
pub(crate) fn print_end_and_more<K: Sink, E: Sink>(
    end: &RunEnd,
    more: &str,
    is_beside: bool,
    out: &mut K,
    err: &mut E,
) -> u8
    requires out { K.has_failed out.old ≡ false }
    requires err { E.has_failed err.old ≡ false }
    ensures line { IsDone end.now → is_beside ≡ false → K.has_failed out.new ≡ false → PutsLine (K.held out.old) (K.held out.new) }
    ensures more { IsDone end.now → is_beside ≡ false → K.has_failed out.new ≡ false → E.has_failed err.new ≡ false
        → Appends (E.held err.old) (E.held err.new) (error_octets more.now) }
    ensures unwritten { K.has_failed out.new ≡ true → err.new ≡ err.old }
    ensures both { IsDone end.now → is_beside ≡ true → E.has_failed err.new ≡ false
        → PutsLineAnd more.now (E.held err.old) (E.held err.new) }
    ensures errors { (IsDone end.now → ⊥) → E.has_failed err.new ≡ false
        → PutsErrorAnd more.now (E.held err.old) (E.held err.new) }
    ensures error_alone { (IsDone end.now → ⊥) → out.new ≡ out.old }
    ensures beside { is_beside ≡ true → out.new ≡ out.old }

    ensures status { K.has_failed out.new ≡ false → E.has_failed err.new ≡ false → result ≡ status_of end.now }
    ensures out_failed { K.has_failed out.new ≡ true → result ≡ failure }
    ensures err_failed { E.has_failed err.new ≡ true → result ≡ failure }
{
    let text = text_of(end);
    let line = line_of(text.as_str());
    if !end.is_done() {
        return print_errors(line, more, end.status(), err);
    }
    if is_beside {
        return print_line_and_error(line, more, end.status(), err);
    }
    match print_line(out, line, SUCCESS) {
        SUCCESS => print_error(err, more, end.status()),
        _ => FAILURE,
    }
}
