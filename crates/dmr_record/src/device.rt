//! Where octets come from and where they go.

ghost use Rattle.std.specs.Prelude.{◌≡◌, ℕ, ◌<◌, ◌≤◌, [], ◌∷◌, List, Option, Bool, false, length};
ghost use Rattle.std.specs.Prelude.{IfOk, IfSome, IfNone, OnOk, OnErr};
ghost use Rattle.std.specs.Io.KnownBytes.{Appends, Consumes, IsAtEnd, ReadConsumes, WriteAppends};
ghost use Rattle.std.specs.Io.Buffered.{reader_remaining};
ghost use Rattle.dmr_record.specs.Devices.{TearsBehind, failed_after};
ghost use Rattle.dmr_record.specs.Silence.{silence_octets};

use crate::silence::{Copied, SILENT_FRAMES, write_silence};
use std::io::{BufRead, BufReader, Read, Write};

/// A device has failed. It doesn't say why.
#[derive(Clone, Copy, Debug, PartialEq, Eq)]
pub struct DeviceFault;

/// A device that gives octets. Once it has failed it is not used again.
pub trait Source {
    /// The octets that it has left to give, where it tells them.
    ghost left: { Self → Option (List ℕ) };

    /// Whether it has failed.
    ghost has_failed: { Self → Bool };

    /// Puts the next octets at the front of the buffer, and answers how many: 0 only at the end of the octets,
    /// or where the buffer is empty. At an `Err` no octet is taken, and the device has failed from then on.
    fn read(&mut self, buffer: &mut [u8]) -> Result<usize, DeviceFault>
        requires well { has_failed self.old ≡ false }
        ensures count { IfOk result (λ n. n ≤ length buffer.new) }
        ensures octets { ReadConsumes (left self.old) (left self.new) result buffer.new }
        ensures failure { has_failed self.new ≡ failed_after (has_failed self.old) result };

    /// The next octet, or none at the end of the octets. At an `Err` no octet is taken, and the device has failed from then on.
    fn next(&mut self) -> Result<Option<u8>, DeviceFault>
        requires well { has_failed self.old ≡ false }
        ensures octet { IfOk result (λ found. IfSome found (λ octet. Consumes (left self.old) (left self.new) (octet ∷ []))) }
        ensures end { IfOk result (λ found. IfNone found (Consumes (left self.old) (left self.new) [] × IsAtEnd (left self.new))) }
        ensures kept { OnErr result (Consumes (left self.old) (left self.new) []) }
        ensures failure { has_failed self.new ≡ failed_after (has_failed self.old) result }
    {
        let mut buffer = [0u8; 1];
        match self.read(&mut buffer) {
            Ok(0) => Ok(None),
            Ok(_) => Ok(Some(buffer[0])),
            Err(fault) => Err(fault),
        }
    }

    /// Copies silent frames that are at hand to a sink, which has the same octets for them, and passes over those that went out
    /// whole. It copies as many as the sink takes of `SILENT_RUN` frames, and none where there are fewer at hand.
    fn copy_silence<K: Sink>(&mut self, sink: &mut K) -> Copied
        requires well { has_failed self.old ≡ false }
        requires sink { K.has_failed sink.old ≡ false }
        ensures few { result.frames ≤ 32 }
        ensures passed { Consumes (left self.old) (left self.new) (silence_octets result.frames) }
        ensures well { has_failed self.new ≡ false }
        ensures written { OnOk result.result
            (Appends (K.held sink.old) (K.held sink.new) (silence_octets result.frames)) }
        ensures torn { OnErr result.result
            (TearsBehind (silence_octets result.frames) (K.held sink.old) (K.held sink.new) (silence_octets 1)) }
        ensures failure { K.has_failed sink.new ≡ failed_after (K.has_failed sink.old) result.result }
    {
        Copied {
            frames: 0,
            result: Ok(()),
        }
    }
}

/// A device that takes octets. Once it has failed it is not used again.
pub trait Sink {
    /// The octets that it holds, where it tells them.
    ghost held: { Self → Option (List ℕ) };

    /// Whether it has failed.
    ghost has_failed: { Self → Bool };

    /// Takes octets from the front of the piece, and answers how many: at least one, unless the piece is empty.
    /// At an `Err` no octet is taken, and the device has failed from then on.
    fn write(&mut self, piece: &[u8]) -> Result<usize, DeviceFault>
        requires well { has_failed self.old ≡ false }
        ensures count { IfOk result (λ n. n ≤ length piece.now) }
        ensures progress { IfOk result (λ n. 0 < length piece.now → 0 < n) }
        ensures octets { WriteAppends (held self.old) (held self.new) result piece.now }
        ensures failure { has_failed self.new ≡ failed_after (has_failed self.old) result };
}

/// A source over a reader of std.
#[derive(Drop)]
pub struct FromRead<R> {
    reader: R,
    is_failed: bool,
}

impl<R: Read> FromRead<R> {
    /// A source that gives what the reader gives, and hasn't failed.
    pub fn new(reader: R) -> FromRead<R>
        ensures octets { ⟦<FromRead<R> as Source>⟧.left result ≡ R.remaining reader }
        ensures failure { ⟦<FromRead<R> as Source>⟧.has_failed result ≡ false }
    {
        FromRead {
            reader,
            is_failed: false,
        }
    }

    /// The reader, with what the source has left.
    pub fn into_inner(self) -> R
        ensures octets { R.remaining result ≡ ⟦<FromRead<R> as Source>⟧.left self }
    {
        let FromRead {
            reader,
            is_failed: _,
        } = self;
        reader
    }
}

impl<R: Read> Source for FromRead<R> {
    ghost left = { λ source. R.remaining source.reader };

    ghost has_failed = { λ source. source.is_failed };

    fn read(&mut self, buffer: &mut [u8]) -> Result<usize, DeviceFault> {
        match self.reader.read(buffer) {
            Ok(count) => Ok(count),
            Err(_) => {
                self.is_failed = true;
                Err(DeviceFault)
            }
        }
    }
}

/// A source over a reader behind a buffer, out of which it takes single octets without a call of the reader.
#[derive(Drop)]
pub struct FromBuffered<R> {
    reader: BufReader<R>,
    is_failed: bool,
}

impl<R: Read> FromBuffered<R> {
    /// A source that gives what the reader gives, and hasn't failed.
    pub fn new(reader: BufReader<R>) -> FromBuffered<R>
        ensures octets { ⟦<FromBuffered<R> as Source>⟧.left result ≡ reader_remaining R.remaining reader }
        ensures failure { ⟦<FromBuffered<R> as Source>⟧.has_failed result ≡ false }
    {
        FromBuffered {
            reader,
            is_failed: false,
        }
    }

    /// The reader, with what the source has left.
    pub fn into_inner(self) -> BufReader<R>
        ensures octets { reader_remaining R.remaining result ≡ ⟦<FromBuffered<R> as Source>⟧.left self }
    {
        let FromBuffered {
            reader,
            is_failed: _,
        } = self;
        reader
    }
}

impl<R: Read> Source for FromBuffered<R> {
    ghost left = { λ source. reader_remaining R.remaining source.reader };

    ghost has_failed = { λ source. source.is_failed };

    #[inline(always)]
    fn read(&mut self, buffer: &mut [u8]) -> Result<usize, DeviceFault> {
        let held = self.reader.buffer();
        // Most often all that is asked for is there.
        if buffer.len() <= held.len() {
            let count = buffer.len();
            buffer.copy_from_slice(&held[..count]);
            self.reader.consume(count);
            return Ok(count);
        }
        read_some(&mut self.reader, buffer, &mut self.is_failed)
    }

    #[inline(always)]
    fn next(&mut self) -> Result<Option<u8>, DeviceFault> {
        match self.reader.buffer() {
            [first, ..] => {
                let octet = *first;
                self.reader.consume(1);
                Ok(Some(octet))
            }
            [] => read_one(&mut self.reader, &mut self.is_failed),
        }
    }

    #[inline(always)]
    fn copy_silence<K: Sink>(&mut self, sink: &mut K) -> Copied {
        if !self.reader.buffer().starts_with(&SILENT_FRAMES) {
            return Copied {
                frames: 0,
                result: Ok(()),
            };
        }
        let copied = write_silence(sink);
        self.reader.consume(2 * copied.frames as usize);
        copied
    }
}

/// Reads by a call of the reader, and tells whether it has failed.
#[inline(never)]
fn read_some<R: Read>(
    reader: &mut R,
    buffer: &mut [u8],
    is_failed: &mut bool,
) -> Result<usize, DeviceFault>
    requires well { is_failed.old ≡ false }
    ensures count { IfOk result (λ n. n ≤ length buffer.new) }
    ensures octets { ReadConsumes (R.remaining reader.old) (R.remaining reader.new) result buffer.new }
    ensures failure { is_failed.new ≡ failed_after is_failed.old result }
{
    match reader.read(buffer) {
        Ok(count) => Ok(count),
        Err(_) => {
            *is_failed = true;
            Err(DeviceFault)
        }
    }
}

/// The next octet by a call of the reader, or none at its end. It tells whether the reader has failed.
#[inline(never)]
fn read_one<R: Read>(reader: &mut R, is_failed: &mut bool) -> Result<Option<u8>, DeviceFault>
    requires well { is_failed.old ≡ false }
    ensures octet { IfOk result (λ found. IfSome found (λ octet.
        Consumes (R.remaining reader.old) (R.remaining reader.new) (octet ∷ []))) }
    ensures end { IfOk result (λ found. IfNone found (Consumes (R.remaining reader.old) (R.remaining reader.new) []
        × IsAtEnd (R.remaining reader.new))) }
    ensures kept { OnErr result (Consumes (R.remaining reader.old) (R.remaining reader.new) []) }
    ensures failure { is_failed.new ≡ failed_after is_failed.old result }
{
    let mut buffer = [0u8; 1];
    match reader.read(&mut buffer) {
        Ok(0) => Ok(None),
        Ok(_) => Ok(Some(buffer[0])),
        Err(_) => {
            *is_failed = true;
            Err(DeviceFault)
        }
    }
}

/// A sink over a writer of std. A write that takes nothing of a piece that isn't empty counts as a failure.
#[derive(Drop)]
pub struct ToWrite<W> {
    writer: W,
    is_failed: bool,
}

impl<W: Write> ToWrite<W> {
    /// A sink that holds what the writer holds, and hasn't failed.
    pub fn new(writer: W) -> ToWrite<W>
        ensures octets { ⟦<ToWrite<W> as Sink>⟧.held result ≡ W.contents writer }
        ensures failure { ⟦<ToWrite<W> as Sink>⟧.has_failed result ≡ false }
    {
        ToWrite {
            writer,
            is_failed: false,
        }
    }

    /// The writer, with what the sink holds.
    pub fn into_inner(self) -> W
        ensures octets { W.contents result ≡ ⟦<ToWrite<W> as Sink>⟧.held self }
    {
        let ToWrite {
            writer,
            is_failed: _,
        } = self;
        writer
    }
}

impl<W: Write> Sink for ToWrite<W> {
    ghost held = { λ sink. W.contents sink.writer };

    ghost has_failed = { λ sink. sink.is_failed };

    fn write(&mut self, piece: &[u8]) -> Result<usize, DeviceFault> {
        match self.writer.write(piece) {
            Ok(count) if count > 0 || piece.is_empty() => Ok(count),
            _ => {
                self.is_failed = true;
                Err(DeviceFault)
            }
        }
    }
}
