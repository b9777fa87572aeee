//! Octets that were read and not used yet.
ghost use Rattle.std.specs.Prelude.{◌≡◌, ◌≤◌, [], length, drop, false, OnOk, OnErr};
ghost use Rattle.std.specs.Io.KnownBytes.{Consumes, IsAtEnd, Keeps};
ghost use Rattle.dmr_record.specs.Devices.{failed_after};

use dmr_record::{DeviceFault, Source};
use std::marker::Model;

/// How many octets are read at once, at most.
pub(crate) const ROOM: usize = 8_192;

/// Octets of a source that were read and not used yet.
#[derive(Drop)]
pub(crate) struct Chunk {
    octets: [u8; ROOM],
    begin: usize,
    end: usize,
}

// Clauses see the octets that aren't used yet.
impl Model for Chunk {
    ghost use Rattle.std.specs.Prelude.{ℕ, List, ◌≤◌};
    ghost use Rattle.std.specs.List.{slice_range};

    ghost Value = { List ℕ };

    ghost view = { λ c. slice_range c.octets c.begin c.end };

    ghost invariant = { λ c. (c.begin ≤ c.end) × (c.end ≤ 8192) };
}

impl Chunk {
    /// No octets.
    pub(crate) fn new() -> Chunk
        ensures none { result ≡ [] }
    {
        Chunk {
            octets: [0; ROOM],
            begin: 0,
            end: 0,
        }
    }

    /// The octets that aren't used yet.
    pub(crate) fn octets(&self) -> &[u8]
        ensures value { result.now ≡ self.now }
        ensures room { length result.now ≤ 8192 }
    {
        &self.octets[self.begin..self.end]
    }

    /// So many octets are used.
    pub(crate) fn skip(&mut self, count: usize)
        requires there { count ≤ length self.old }
        ensures rest { self.new ≡ drop count self.old }
    {
        self.begin += count;
    }

    /// Reads once, in place of what was there: no octets have come only at the end of the source. At an `Err` none are there.
    pub(crate) fn refill<S: Source>(&mut self, source: &mut S) -> Result<(), DeviceFault>
        requires well { S.has_failed source.old ≡ false }
        ensures octets { OnOk result (Consumes (S.left source.old) (S.left source.new) self.new) }
        ensures end { OnOk result (self.new ≡ [] → IsAtEnd (S.left source.new)) }
        ensures none { OnErr result (self.new ≡ []) }
        ensures kept { OnErr result (Keeps (S.left source.old) (S.left source.new)) }
        ensures failure { S.has_failed source.new ≡ failed_after (S.has_failed source.old) result }
    {
        self.begin = 0;
        self.end = 0;
        self.end = source.read(&mut self.octets)?;
        Ok(())
    }
}
