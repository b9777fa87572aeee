//! Buffers between a program and its files, so that there are few calls of the system.
ghost use Rattle.std.specs.Prelude.{◌≡◌, true, false, IfOk, IsOk};
ghost use Rattle.std.specs.Io.Buffered.{writer_capacity};
ghost use Rattle.std.specs.Io.KnownBytes.{Keeps};

use dmr_record::{DeviceFault, FromBuffered, Sink, Source, ToWrite};
use std::alloc::{AllocError, Global};
use std::io::{BufReader, BufWriter, Read, Write};

/// How many octets a buffer holds.
const BUFFER: usize = 65_536;

/// How many octets of an output are kept back: none where more of an input may come, so that each record is written as soon as it
/// is decided.
pub fn kept_back(is_live: bool) -> usize
    ensures none { is_live ≡ true → result ≡ 0 }
    ensures some { is_live ≡ false → result ≡ 65536 }
{
    if is_live { 0 } else { BUFFER }
}

/// A source that reads through a buffer.
pub fn buffered_source<R: Read + Drop>(
    alloc: Global,
    reader: R,
) -> Result<FromBuffered<R>, AllocError>
    ensures well { IfOk result (λ source. ⟦<FromBuffered<R> as Source>⟧.has_failed source ≡ false) }
    ensures octets { IfOk result (λ source. ⟦<FromBuffered<R> as Source>⟧.left source ≡ R.remaining reader) }
{
    match BufReader::with_capacity(alloc, BUFFER, reader) {
        Ok(reader) => Ok(FromBuffered::new(reader)),
        Err(_) => Err(AllocError),
    }
}

/// A writer behind a buffer of this capacity.
fn buffered_writer<W: Write + Drop>(
    alloc: Global,
    capacity: usize,
    writer: W,
) -> Result<BufWriter<W>, AllocError>
    ensures capacity { IfOk result (λ buffered. writer_capacity buffered ≡ capacity) }
    ensures none { capacity ≡ 0 → IsOk result }
{
    match BufWriter::with_capacity(alloc, capacity, writer) {
        Ok(buffered) => Ok(buffered),
        Err(_) => Err(AllocError),
    }
}

/// A sink that writes through a buffer of this capacity. One with no capacity needs no memory.
pub fn buffered_sink<W: Write + Drop>(
    alloc: Global,
    capacity: usize,
    writer: W,
) -> Result<ToWrite<BufWriter<W>>, AllocError>
    ensures well { IfOk result (λ sink. ⟦<ToWrite<BufWriter<W>> as Sink>⟧.has_failed sink ≡ false) }
    ensures none { capacity ≡ 0 → IsOk result }
{
    Ok(ToWrite::new(buffered_writer(alloc, capacity, writer)?))
}

/// Writes out what a buffer still holds, and hands back the writer, which then has all that the sink has.
pub fn write_out<W: Write + Drop>(sink: ToWrite<BufWriter<W>>) -> Result<W, DeviceFault>
    ensures octets { IfOk result (λ writer. Keeps (⟦<ToWrite<BufWriter<W>> as Sink>⟧.held sink) (W.contents writer)) }
{
    match sink.into_inner().into_inner() {
        Ok(writer) => Ok(writer),
        Err(_) => Err(DeviceFault),
    }
}
