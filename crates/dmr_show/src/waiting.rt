//! Octets that wait to be written to a sink in large pieces.
ghost use Rattle.std.specs.Prelude.{◌≡◌, ◌++◌, [], OnOk, OnErr, false};
ghost use Rattle.std.specs.Io.KnownBytes.{Appends};
ghost use Rattle.dmr_record.specs.Devices.{Tears, failed_after};
ghost use Rattle.dmr_lines.specs.Line.{line_octets};
ghost use Rattle.dmr_show.specs.Held.{held_by};

use arrayvec::ArrayVec;
use dmr_record::{DeviceFault, Sink};
use std::marker::Model;

/// How many octets may wait.
const ROOM: usize = 16_384;

/// Octets that wait until there are many to be written at once. They are all for one sink, which is handed in at each call, and
/// count as held behind what it holds.
#[derive(Drop)]
pub(crate) struct Waiting {
    octets: ArrayVec<u8, ROOM>,
}

// Clauses see the list of the octets.
impl Model for Waiting {
    ghost use Rattle.std.specs.Prelude.{ℕ, List};

    ghost Value = { List ℕ };

    ghost view = { λ waiting. waiting.octets.items };
}

/// Writes the whole piece, or stops where the sink fails.
fn put_piece<K: Sink>(sink: &mut K, piece: &[u8]) -> Result<(), DeviceFault>
    requires well { K.has_failed sink.old ≡ false }
    ensures octets { OnOk result (Appends (K.held sink.old) (K.held sink.new) piece.now) }
    ensures torn { OnErr result (Tears (K.held sink.old) (K.held sink.new) piece.now) }
    ensures failure { K.has_failed sink.new ≡ failed_after (K.has_failed sink.old) result }
{
    let mut done = 0;
    while done < piece.len() {
        done += sink.write(&piece[done..])?;
    }
    Ok(())
}

impl Waiting {
    /// None waits.
    pub(crate) fn new() -> Waiting
        ensures none { result ≡ [] }
    {
        Waiting {
            octets: ArrayVec::new(),
        }
    }

    /// Writes what waits to the sink. At an `Err` the sink took a front of it, and has failed from then on; nothing waits behind it
    /// either.
    pub(crate) fn flush<K: Sink>(&mut self, sink: &mut K) -> Result<(), DeviceFault>
        requires well { K.has_failed sink.old ≡ false }
        ensures octets { OnOk result (Appends (K.held sink.old) (K.held sink.new) self.old) }
        ensures torn { OnErr result (Tears (K.held sink.old) (K.held sink.new) self.old) }
        ensures none { self.new ≡ [] }
        ensures failure { K.has_failed sink.new ≡ failed_after (K.has_failed sink.old) result }
    {
        let written = put_piece(sink, self.octets.as_slice());
        self.octets.clear();
        written
    }

    /// Takes the whole piece, where nothing waits: one for which there is never room is written at once.
    #[tactic(auto, using(crate::proofs::Held::kept_alone, crate::proofs::Held::written_alone))]
    fn put_alone<K: Sink>(&mut self, sink: &mut K, piece: &[u8]) -> Result<(), DeviceFault>
        requires well { K.has_failed sink.old ≡ false }
        requires none { self.old ≡ [] }
        ensures octets { OnOk result (Appends (K.held sink.old) (held_by (K.held sink.new) self.new) piece.now) }
        ensures torn { OnErr result (Tears (K.held sink.old) (K.held sink.new) piece.now) }
        ensures failure { K.has_failed sink.new ≡ failed_after (K.has_failed sink.old) result }
    {
        if self.octets.try_extend_from_slice(piece).is_ok() {
            return Ok(());
        }
        put_piece(sink, piece)
    }

    /// Writes what waits, and takes the whole piece.
    #[tactic(auto, using(crate::proofs::Held::behind, crate::proofs::Held::torn_behind, crate::proofs::Held::torn_before))]
    fn put_behind<K: Sink>(&mut self, sink: &mut K, piece: &[u8]) -> Result<(), DeviceFault>
        requires well { K.has_failed sink.old ≡ false }
        ensures octets { OnOk result (Appends (held_by (K.held sink.old) self.old) (held_by (K.held sink.new) self.new) piece.now) }
        ensures torn { OnErr result (Tears (K.held sink.old) (K.held sink.new) (self.old ++ piece.now)) }
        ensures failure { K.has_failed sink.new ≡ failed_after (K.has_failed sink.old) result }
    {
        self.flush(sink)?;
        self.put_alone(sink, piece)
    }

    /// Takes the whole piece. Where there is no room for it, what waits is written first. At an `Err` the sink took a front of all
    /// of it.
    #[tactic(auto, using(crate::proofs::Held::kept))]
    fn put<K: Sink>(&mut self, sink: &mut K, piece: &[u8]) -> Result<(), DeviceFault>
        requires well { K.has_failed sink.old ≡ false }
        ensures octets { OnOk result (Appends (held_by (K.held sink.old) self.old) (held_by (K.held sink.new) self.new) piece.now) }
        ensures torn { OnErr result (Tears (K.held sink.old) (K.held sink.new) (self.old ++ piece.now)) }
        ensures failure { K.has_failed sink.new ≡ failed_after (K.has_failed sink.old) result }
    {
        if self.octets.try_extend_from_slice(piece).is_ok() {
            return Ok(());
        }
        self.put_behind(sink, piece)
    }

    /// Takes a text and the end of its line.
    pub(crate) fn put_line<K: Sink>(&mut self, sink: &mut K, text: &str) -> Result<(), DeviceFault>
        requires well { K.has_failed sink.old ≡ false }
        ensures line { OnOk result (Appends (held_by (K.held sink.old) self.old) (held_by (K.held sink.new) self.new)
            (line_octets text.now)) }
        ensures failure { K.has_failed sink.new ≡ failed_after (K.has_failed sink.old) result }
    {
        self.put(sink, text.as_bytes())?;
        self.put(sink, b"\n")
    }
}
