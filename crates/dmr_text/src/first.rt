//! The first line of a text.
ghost use Rattle.std.specs.Prelude.{◌≡◌, ◌≢◌, IfSome, IfNone};
ghost use Rattle.dmr_record.specs.Head.{magic_of};
ghost use Rattle.dmr_words.specs.Words.{line_words};
ghost use Rattle.dmr_text.specs.Spelling.{title_words, format_word};

use crate::said::last_word;
use dmr_record::{DOWNLINK_MAGIC, FileFormat, OUTGOING_MAGIC, RECEIVED_MAGIC, UPLINK_MAGIC};
use dmr_words::Words;

/// The format that a word is.
fn format_said(word: &[u8]) -> Option<FileFormat>
    ensures format { IfSome result (λ format. word.now ≡ format_word format) }
    ensures none { IfNone result ((format : FileFormat) → word.now ≢ format_word format) }
{
    if word == b"uplink".as_slice() {
        return Some(FileFormat::Uplink);
    }
    if word == b"downlink".as_slice() {
        return Some(FileFormat::Downlink);
    }
    if word == b"outgoing".as_slice() {
        return Some(FileFormat::Outgoing);
    }
    if word == b"received".as_slice() {
        return Some(FileFormat::Received);
    }
    None
}

/// The format of the file that a first line says.
pub(crate) fn first_said(line: &[u8]) -> Option<FileFormat>
    ensures format { IfSome result (λ format. line_words line.now ≡ title_words format) }
    ensures none { IfNone result ((format : FileFormat) → line_words line.now ≢ title_words format) }
{
    let mut words = Words::new(line);
    if words.next()? != b"dmrgate".as_slice() {
        return None;
    }
    let format = format_said(words.next()?)?;
    if last_word(&mut words)? != b"1".as_slice() {
        return None;
    }
    Some(format)
}

/// What a file of a format begins with.
pub(crate) fn magic(format: FileFormat) -> [u8; 4]
    ensures magic { result ≡ magic_of format }
{
    match format {
        FileFormat::Uplink => UPLINK_MAGIC,
        FileFormat::Downlink => DOWNLINK_MAGIC,
        FileFormat::Outgoing => OUTGOING_MAGIC,
        FileFormat::Received => RECEIVED_MAGIC,
    }
}
