//! A reader that keeps the error of a read that failed.
ghost use Rattle.std.specs.Prelude.{◌≡◌, Some, None, IfOk, IfErr};
ghost use Rattle.std.specs.Io.{ReadsAtMost};
ghost use Rattle.std.specs.Io.KnownBytes.{ReadConsumes};
ghost use Rattle.dmr_watch.specs.Devices.{kept_remaining, read_error_of};

use std::io::{self, Error, Read};

/// A reader that keeps the error of the last read that failed.
#[derive(Drop)]
pub struct KeptReader<R> {
    reader: R,
    error: Option<Error>,
}

impl<R: Read> KeptReader<R> {
    /// A reader that reads what this one reads, with no error so far.
    pub fn new(reader: R) -> KeptReader<R>
        ensures octets { ⟦<KeptReader<R> as Read>⟧.remaining result ≡ R.remaining reader }
        ensures error { read_error_of result ≡ None }
    {
        KeptReader {
            reader,
            error: None,
        }
    }

    /// The error of the last read that failed, where one did.
    pub fn error(&self) -> Option<Error>
        ensures error { result ≡ read_error_of self.now }
    {
        let KeptReader { reader: _, error } = self;
        *error
    }
}

impl<R: Read> Read for KeptReader<R> {
    ghost remaining = { kept_remaining R.remaining };

    fn read(&mut self, buffer: &mut [u8]) -> io::Result<usize>
        ensures bound { ReadsAtMost result buffer.new }
        ensures bytes { ReadConsumes (kept_remaining R.remaining self.old) (kept_remaining R.remaining self.new) result buffer.new }
        ensures same { IfOk result (λ n. read_error_of self.new ≡ read_error_of self.old) }
        ensures kept { IfErr result (λ e. read_error_of self.new ≡ Some e) }
    {
        match self.reader.read(buffer) {
            Ok(count) => Ok(count),
            Err(error) => {
                self.error = Some(error);
                Err(error)
            }
        }
    }
}
