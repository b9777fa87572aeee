//! A source with an ear.
ghost use Rattle.std.specs.Io.KnownBytes.{ReadConsumes};
ghost use Rattle.std.specs.Prelude.{◌≡◌, ◌≤◌, false, length, take, IfOk, OnErr};
ghost use Rattle.dmr_record.specs.Devices.{failed_after};
ghost use Rattle.dmr_watch.specs.Devices.{ear_of, is_watched_failed, watched_left};
ghost use Rattle.dmr_watch.specs.Ears.{Listens};

use crate::ear::Ear;
use dmr_record::{DeviceFault, Source};

/// A source with an ear for all that is read.
#[derive(Drop)]
pub struct WatchedSource<S> {
    source: S,
    ear: Ear,
}

impl<S: Source> WatchedSource<S> {
    /// A source that gives what this one gives, with this ear.
    pub fn new(source: S, ear: Ear) -> WatchedSource<S>
        ensures octets { ⟦<WatchedSource<S> as Source>⟧.left result ≡ S.left source }
        ensures failure { ⟦<WatchedSource<S> as Source>⟧.has_failed result ≡ S.has_failed source }
        ensures ear { ear_of result ≡ ear }
    {
        WatchedSource { source, ear }
    }

    /// The source and its ear.
    pub fn into_parts(self) -> (S, Ear)
        ensures octets { S.left result.0 ≡ ⟦<WatchedSource<S> as Source>⟧.left self }
        ensures ear { result.1 ≡ ear_of self }
    {
        let WatchedSource { source, ear } = self;
        (source, ear)
    }
}

impl<S: Source> Source for WatchedSource<S> {
    ghost left = { watched_left S.left };

    ghost has_failed = { is_watched_failed S.has_failed };

    fn read(&mut self, buffer: &mut [u8]) -> Result<usize, DeviceFault>
        requires well { is_watched_failed S.has_failed self.old ≡ false }
        ensures count { IfOk result (λ n. n ≤ length buffer.new) }
        ensures octets { ReadConsumes (watched_left S.left self.old) (watched_left S.left self.new) result buffer.new }
        ensures failure { is_watched_failed S.has_failed self.new ≡ failed_after (is_watched_failed S.has_failed self.old) result }
        ensures heard { IfOk result (λ n. Listens (ear_of self.old) (take n buffer.new) (ear_of self.new)) }
        ensures same { OnErr result (ear_of self.new ≡ ear_of self.old) }
    {
        let count = self.source.read(buffer)?;
        self.ear.hear(&buffer[..count]);
        Ok(count)
    }
}
