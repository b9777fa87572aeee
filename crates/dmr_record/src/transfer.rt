//! Whole pieces, in as many calls of a device as they take.

ghost use Rattle.std.specs.Prelude.{◌≡◌, ◌<◌, ◌≤◌, ◌⊎◌, ◌++◌, [], ◌∷◌, List, ℕ, length, take, false, true};
ghost use Rattle.std.specs.Prelude.{IfOk, IfErr, OnOk, OnErr, IfSome, IfNone};
ghost use Rattle.std.specs.Io.KnownBytes.{Consumes, Appends, IsAtEnd};
ghost use Rattle.dmr_record.specs.Devices.{Tears};
ghost use Rattle.dmr_record.specs.Faults.{is_of_end, is_device_fault};

use crate::device::{Sink, Source};
use crate::fault::RecordFault;

/// Reads so many octets to the front of the buffer, or fewer where the source ends, and answers how many came.
pub(crate) fn fill_front<S: Source>(
    source: &mut S,
    buffer: &mut [u8],
    most: usize,
) -> Result<usize, RecordFault>
    requires well { S.has_failed source.old ≡ false }
    requires room { most ≤ length buffer.old }
    ensures count { IfOk result (λ n. n ≤ most) }
    ensures octets { IfOk result (λ n. Consumes (S.left source.old) (S.left source.new) (take n buffer.new)) }
    ensures end { IfOk result (λ n. n < most → IsAtEnd (S.left source.new)) }
    ensures well { OnOk result (S.has_failed source.new ≡ false) }
    ensures fault { IfErr result (λ e. e ≡ RecordFault.Read) }
    ensures failed { OnErr result (S.has_failed source.new ≡ true) }
    ensures taken { OnErr result ((taken : List ℕ) × (length taken < most)
        × Consumes (S.left source.old) (S.left source.new) taken) }
{
    let mut done = 0;
    while done < most {
        match source.read(&mut buffer[done..most]) {
            Ok(0) => return Ok(done),
            Ok(count) => done += count,
            Err(_) => return Err(RecordFault::Read),
        }
    }
    Ok(done)
}

/// Reads until the buffer is full or the source is at its end, and answers how many octets came.
pub(crate) fn fill<S: Source>(source: &mut S, buffer: &mut [u8]) -> Result<usize, RecordFault>
    requires well { S.has_failed source.old ≡ false }
    ensures count { IfOk result (λ n. n ≤ length buffer.new) }
    ensures octets { IfOk result (λ n. Consumes (S.left source.old) (S.left source.new) (take n buffer.new)) }
    ensures end { IfOk result (λ n. n < length buffer.new → IsAtEnd (S.left source.new)) }
    ensures well { OnOk result (S.has_failed source.new ≡ false) }
    ensures fault { IfErr result (λ e. e ≡ RecordFault.Read) }
    ensures failed { OnErr result (S.has_failed source.new ≡ true) }
    ensures taken { OnErr result ((taken : List ℕ) × (length taken < length buffer.new)
        × Consumes (S.left source.old) (S.left source.new) taken) }
{
    fill_front(source, buffer, buffer.len())
}

/// Reads so many octets to the front of the buffer. Where the source ends before, its record is cut.
pub(crate) fn fill_whole<S: Source>(
    source: &mut S,
    buffer: &mut [u8],
    count: usize,
) -> Result<(), RecordFault>
    requires well { S.has_failed source.old ≡ false }
    requires room { count ≤ length buffer.old }
    ensures octets { OnOk result (Consumes (S.left source.old) (S.left source.new) (take count buffer.new)) }
    ensures well { OnOk result (S.has_failed source.new ≡ false) }
    ensures part { OnErr result ((part : List ℕ) × (length part < count)
        × Consumes (S.left source.old) (S.left source.new) part) }
    ensures cause { IfErr result (λ e. (e ≡ RecordFault.CutRecord) ⊎ (e ≡ RecordFault.Read)) }
    ensures cut { IfErr result (λ e. is_of_end e ≡ true → IsAtEnd (S.left source.new)) }
    ensures device { IfErr result (λ e. S.has_failed source.new ≡ is_device_fault e) }
{
    let came = fill_front(source, buffer, count)?;
    if came < count {
        return Err(RecordFault::CutRecord);
    }
    Ok(())
}

/// Writes the whole piece, or stops where the sink fails.
#[inline(always)]
pub fn put<K: Sink>(sink: &mut K, piece: &[u8]) -> Result<(), RecordFault>
    requires well { K.has_failed sink.old ≡ false }
    ensures octets { OnOk result (Appends (K.held sink.old) (K.held sink.new) piece.now) }
    ensures well { OnOk result (K.has_failed sink.new ≡ false) }
    ensures fault { IfErr result (λ e. e ≡ RecordFault.Write) }
    ensures failed { OnErr result (K.has_failed sink.new ≡ true) }
    ensures torn { OnErr result (Tears (K.held sink.old) (K.held sink.new) piece.now) }
{
    if piece.is_empty() {
        return Ok(());
    }
    // Most often a sink takes all of it at once.
    match sink.write(piece) {
        Ok(count) if count == piece.len() => Ok(()),
        Ok(count) => put_each(sink, &piece[count..]),
        Err(_) => Err(RecordFault::Write),
    }
}

/// Writes the whole piece in as many calls as it takes, or stops where the sink fails.
#[inline(never)]
fn put_each<K: Sink>(sink: &mut K, piece: &[u8]) -> Result<(), RecordFault>
    requires well { K.has_failed sink.old ≡ false }
    ensures octets { OnOk result (Appends (K.held sink.old) (K.held sink.new) piece.now) }
    ensures well { OnOk result (K.has_failed sink.new ≡ false) }
    ensures fault { IfErr result (λ e. e ≡ RecordFault.Write) }
    ensures failed { OnErr result (K.has_failed sink.new ≡ true) }
    ensures torn { OnErr result (Tears (K.held sink.old) (K.held sink.new) piece.now) }
{
    let mut done = 0;
    while done < piece.len() {
        match sink.write(&piece[done..]) {
            Ok(count) => done += count,
            Err(_) => return Err(RecordFault::Write),
        }
    }
    Ok(())
}

/// Writes two pieces, or stops where the sink fails.
#[tactic(auto, using(crate::proofs::Torn::Tears_after, crate::proofs::Torn::Tears_more))]
pub(crate) fn put_both<K: Sink>(sink: &mut K, front: &[u8], rest: &[u8]) -> Result<(), RecordFault>
    requires well { K.has_failed sink.old ≡ false }
    ensures octets { OnOk result (Appends (K.held sink.old) (K.held sink.new) (front.now ++ rest.now)) }
    ensures well { OnOk result (K.has_failed sink.new ≡ false) }
    ensures fault { IfErr result (λ e. e ≡ RecordFault.Write) }
    ensures failed { OnErr result (K.has_failed sink.new ≡ true) }
    ensures torn { OnErr result (Tears (K.held sink.old) (K.held sink.new) (front.now ++ rest.now)) }
{
    put(sink, front)?;
    put(sink, rest)
}

/// The next octet, or none at the end of the source.
pub(crate) fn read_octet<S: Source>(source: &mut S) -> Result<Option<u8>, RecordFault>
    requires well { S.has_failed source.old ≡ false }
    ensures octet { IfOk result (λ found. IfSome found (λ octet.
        Consumes (S.left source.old) (S.left source.new) (octet ∷ []))) }
    ensures end { IfOk result (λ found. IfNone found (Consumes (S.left source.old) (S.left source.new) []
        × IsAtEnd (S.left source.new))) }
    ensures well { OnOk result (S.has_failed source.new ≡ false) }
    ensures fault { IfErr result (λ e. e ≡ RecordFault.Read) }
    ensures failed { OnErr result (S.has_failed source.new ≡ true) }
    ensures taken { OnErr result (Consumes (S.left source.old) (S.left source.new) []) }
{
    match source.next() {
        Ok(found) => Ok(found),
        Err(_) => Err(RecordFault::Read),
    }
}
