//! A writer that knows where a file has got to.
ghost use Rattle.std.specs.Prelude.{◌≡◌, Some, None, take, IfOk, IfErr, OnErr};
ghost use Rattle.std.specs.Io.{WritesAtMost};
ghost use Rattle.std.specs.Io.KnownBytes.{WriteAppends};
ghost use Rattle.dmr_watch.specs.Devices.{file_format_of, reached_of, watched_contents, write_error_of};
ghost use Rattle.dmr_watch.specs.Reached.{nothing, reached_by};

use crate::reached::Reached;
use dmr_record::FileFormat;
use std::io::{self, Error, Write};

/// A writer that knows where the octets have got to that were written, and keeps the error of the last write that failed.
#[derive(Drop)]
pub struct WatchedWriter<W> {
    writer: W,
    format: FileFormat,
    reached: Reached,
    error: Option<Error>,
}

impl<W: Write> WatchedWriter<W> {
    /// A writer of a file of this format that writes what this one writes, with no octet and no error so far.
    pub fn new(writer: W, format: FileFormat) -> WatchedWriter<W>
        ensures octets { ⟦<WatchedWriter<W> as Write>⟧.contents result ≡ W.contents writer }
        ensures reached { reached_of result ≡ nothing }
        ensures error { write_error_of result ≡ None }
        ensures format { file_format_of result ≡ format }
    {
        WatchedWriter {
            writer,
            format,
            reached: Reached::nothing(),
            error: None,
        }
    }

    /// Where the octets have got to that were written.
    pub fn reached(&self) -> Reached
        ensures reached { result ≡ reached_of self.now }
    {
        let WatchedWriter { reached, .. } = self;
        *reached
    }

    /// The error of the last write that failed, where one did.
    pub fn error(&self) -> Option<Error>
        ensures error { result ≡ write_error_of self.now }
    {
        let WatchedWriter { error, .. } = self;
        *error
    }
}

impl<W: Write> Write for WatchedWriter<W> {
    ghost contents = { watched_contents W.contents };

    fn write(&mut self, piece: &[u8]) -> io::Result<usize>
        ensures bound { WritesAtMost result piece.now }
        ensures bytes { WriteAppends (watched_contents W.contents self.old) (watched_contents W.contents self.new)
            result piece.now }
        ensures reached { IfOk result (λ n. reached_of self.new
            ≡ reached_by (file_format_of self.old) (reached_of self.old) (take n piece.now)) }
        ensures same { IfOk result (λ n. write_error_of self.new ≡ write_error_of self.old) }
        ensures kept { IfErr result (λ e. write_error_of self.new ≡ Some e) }
        ensures stays { OnErr result (reached_of self.new ≡ reached_of self.old) }
        ensures same_format { file_format_of self.new ≡ file_format_of self.old }
    {
        match self.writer.write(piece) {
            Ok(count) => {
                self.reached = self.reached.by(self.format, &piece[..count]);
                Ok(count)
            }
            Err(error) => {
                self.error = Some(error);
                Err(error)
            }
        }
    }

    fn flush(&mut self) -> io::Result<()> {
        self.writer.flush()
    }
}
