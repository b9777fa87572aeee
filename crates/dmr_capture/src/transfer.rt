//! Octets of a capture, as they come.
ghost use Rattle.std.specs.Prelude.{◌≡◌, ◌+◌, ◌<◌, ◌≤◌, ◌++◌, List, ℕ, length, take, false, true, IfOk, IfErr, OnOk, OnErr};
ghost use Rattle.std.specs.Io.KnownBytes.{Consumes, IsAtEnd};
ghost use Rattle.dmr_capture.specs.Cuts.{is_device_cut};

use dmr_record::{DeviceFault, Source};

/// Why octets that were asked for didn't come.
#[derive(Clone, Copy, Debug, Drop, PartialEq, Eq)]
pub(crate) enum Cut {
    /// The source is at its end.
    End,
    /// The source failed.
    Device,
}

/// How many octets are passed over at once, at most.
const CHUNK: usize = 1_024;

/// Reads octets to the places of a buffer from `from` up to `to`, or fewer where the source ends, and answers up to which place
/// they have come.
pub(crate) fn fill<S: Source>(
    source: &mut S,
    buffer: &mut [u8],
    from: usize,
    to: usize,
) -> Result<usize, DeviceFault>
    requires well { S.has_failed source.old ≡ false }
    requires order { from ≤ to }
    requires room { to ≤ length buffer.old }
    ensures count { IfOk result (λ n. n ≤ to) }
    ensures octets { IfOk result (λ n. (more : List ℕ) × Consumes (S.left source.old) (S.left source.new) more
        × (take n buffer.new ≡ take from buffer.old ++ more) × (n ≡ from + length more)) }
    ensures end { IfOk result (λ n. n < to → IsAtEnd (S.left source.new)) }
    ensures well { OnOk result (S.has_failed source.new ≡ false) }
    ensures failed { OnErr result (S.has_failed source.new ≡ true) }
    ensures part { OnErr result ((more : List ℕ) × (from + length more < to)
        × Consumes (S.left source.old) (S.left source.new) more) }
{
    let mut done = from;
    while done < to {
        match source.read(&mut buffer[done..to]) {
            Ok(0) => return Ok(done),
            Ok(count) => done += count,
            Err(fault) => return Err(fault),
        }
    }
    Ok(done)
}

/// Reads octets to all places of a buffer from `from` up to `to`.
pub(crate) fn fill_whole<S: Source>(
    source: &mut S,
    buffer: &mut [u8],
    from: usize,
    to: usize,
) -> Result<(), Cut>
    requires well { S.has_failed source.old ≡ false }
    requires order { from ≤ to }
    requires room { to ≤ length buffer.old }
    ensures octets { OnOk result ((more : List ℕ) × Consumes (S.left source.old) (S.left source.new) more
        × (take to buffer.new ≡ take from buffer.old ++ more) × (to ≡ from + length more)) }
    ensures well { OnOk result (S.has_failed source.new ≡ false) }
    ensures part { OnErr result ((more : List ℕ) × (from + length more < to)
        × Consumes (S.left source.old) (S.left source.new) more) }
    ensures cut { IfErr result (λ e. e ≡ Cut.End → IsAtEnd (S.left source.new)) }
    ensures device { IfErr result (λ e. S.has_failed source.new ≡ is_device_cut e) }
{
    match fill(source, buffer, from, to) {
        Ok(done) if done < to => Err(Cut::End),
        Ok(_) => Ok(()),
        Err(_) => Err(Cut::Device),
    }
}

/// Passes over so many octets.
pub(crate) fn skip<S: Source>(source: &mut S, count: usize) -> Result<(), Cut>
    requires well { S.has_failed source.old ≡ false }
    ensures octets { OnOk result ((passed : List ℕ) × Consumes (S.left source.old) (S.left source.new) passed
        × (length passed ≡ count)) }
    ensures well { OnOk result (S.has_failed source.new ≡ false) }
    ensures part { OnErr result ((passed : List ℕ) × (length passed < count)
        × Consumes (S.left source.old) (S.left source.new) passed) }
    ensures cut { IfErr result (λ e. e ≡ Cut.End → IsAtEnd (S.left source.new)) }
    ensures device { IfErr result (λ e. S.has_failed source.new ≡ is_device_cut e) }
{
    let mut left = count;
    let mut chunk = [0u8; CHUNK];
    while left > 0 {
        let most = left.min(CHUNK);
        if let Err(cut) = fill_whole(source, &mut chunk, 0, most) {
            return Err(cut);
        }
        left -= most;
    }
    Ok(())
}
