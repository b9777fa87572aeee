//! Lines of text, printed to a sink.
ghost use Rattle.std.specs.Prelude.{◌≡◌, ◌++◌, false, true, IfSome, OnOk, OnErr};
ghost use Rattle.std.specs.Io.KnownBytes.{Appends};
ghost use Rattle.dmr_lines.specs.Line.{IsOneLine, error_octets, first_line, line_octets};
ghost use Rattle.dmr_lines.specs.Status.{failure};

use crate::status::FAILURE;
use arrayvec::ArrayString;
use dmr_record::{RecordFault, Sink, put};

/// A text up to its first line feed, so that it has one line whatever it prints: all of it, where it has none.
pub fn line_of(text: &str) -> &str
    ensures line { result.now ≡ first_line text.now }
    ensures one { IsOneLine result.now }
    ensures whole { IsOneLine text.now → result.now ≡ text.now }
{
    match text.split_once('\n') {
        Some((line, _)) => line,
        None => text,
    }
}

/// A line of a text behind a head, with its end, where there is room for it.
fn whole_line(head: &str, text: &str) -> Option<ArrayString<512>>
    ensures value { IfSome result (λ line. line.bytes ≡ head.now ++ line_octets text.now) }
{
    let mut line = ArrayString::from(head).ok()?;
    line.try_push_str(text).ok()?;
    line.try_push_str("\n").ok()?;
    Some(line)
}

/// Puts a text behind a head, and the end of its line: at once where it isn't long, so that the lines of several programs that
/// print to one place don't mix.
fn put_line<K: Sink>(sink: &mut K, head: &str, text: &str) -> Result<(), RecordFault>
    requires well { K.has_failed sink.old ≡ false }
    ensures octets { OnOk result (Appends (K.held sink.old) (K.held sink.new) (head.now ++ line_octets text.now)) }
    ensures well { OnOk result (K.has_failed sink.new ≡ false) }
    ensures failed { OnErr result (K.has_failed sink.new ≡ true) }
{
    if let Some(line) = whole_line(head, text) {
        return put(sink, line.as_str().as_bytes());
    }
    put(sink, head.as_bytes())?;
    put(sink, text.as_bytes())?;
    put(sink, b"\n")
}

/// The status, where what was to be printed was.
fn status_after(printed: Result<(), RecordFault>, status: u8) -> u8
    ensures ok { OnOk printed (result ≡ status) }
    ensures err { OnErr printed (result ≡ failure) }
{
    match printed {
        Ok(()) => status,
        Err(_) => FAILURE,
    }
}

/// Prints a line, and answers the status that is to follow it.
pub fn print_line<K: Sink>(sink: &mut K, text: &str, status: u8) -> u8
    requires well { K.has_failed sink.old ≡ false }
    ensures octets { K.has_failed sink.new ≡ false → Appends (K.held sink.old) (K.held sink.new) (line_octets text.now) }
    ensures status { K.has_failed sink.new ≡ false → result ≡ status }
    ensures failed { K.has_failed sink.new ≡ true → result ≡ failure }
{
    status_after(put_line(sink, "", text), status)
}

/// Prints a line that tells an error, and answers the status that is to follow it.
pub fn print_error<K: Sink>(sink: &mut K, message: &str, status: u8) -> u8
    requires well { K.has_failed sink.old ≡ false }
    ensures octets { K.has_failed sink.new ≡ false → Appends (K.held sink.old) (K.held sink.new) (error_octets message.now) }
    ensures status { K.has_failed sink.new ≡ false → result ≡ status }
    ensures failed { K.has_failed sink.new ≡ true → result ≡ failure }
{
    status_after(put_line(sink, "error: ", message), status)
}

/// Prints a text that has its own ends of lines, and answers the status that is to follow it.
pub fn print_text<K: Sink>(sink: &mut K, text: &str, status: u8) -> u8
    requires well { K.has_failed sink.old ≡ false }
    ensures octets { K.has_failed sink.new ≡ false → Appends (K.held sink.old) (K.held sink.new) text.now }
    ensures status { K.has_failed sink.new ≡ false → result ≡ status }
    ensures failed { K.has_failed sink.new ≡ true → result ≡ failure }
{
    status_after(put(sink, text.as_bytes()), status)
}
