//! Devices for tests, over those of `dmr_record`: one that fails after so many calls, one that gives an octet a call, and silence
//! without end.
//!
//! Only tests use it.
#![tactic(auto)]

ghost use Rattle.std.specs.Prelude.{◌≡◌, ◌||◌, None, false};

use dmr_record::{DeviceFault, Sink, Source};

/// A device that fails after so many calls, and from then on.
#[derive(Drop)]
pub struct FailsAt<D> {
    pub device: D,
    pub calls: u64,
    pub is_failed: bool,
}

impl<D> FailsAt<D> {
    /// Fails once so many calls are behind it.
    pub fn new(device: D, calls: u64) -> FailsAt<D>
        ensures device { result.device ≡ device }
        ensures well { result.is_failed ≡ false }
    {
        FailsAt {
            device,
            calls,
            is_failed: false,
        }
    }

    /// The device behind it.
    pub fn into_inner(self) -> D
        ensures device { result ≡ self.device }
    {
        let FailsAt {
            device,
            calls: _,
            is_failed: _,
        } = self;
        device
    }
}

impl<S: Source> Source for FailsAt<S> {
    ghost left = { λ source. S.left source.device };

    ghost has_failed = { λ source. source.is_failed || S.has_failed source.device };

    fn read(&mut self, buffer: &mut [u8]) -> Result<usize, DeviceFault> {
        if self.calls == 0 {
            self.is_failed = true;
            return Err(DeviceFault);
        }
        self.calls -= 1;
        self.device.read(buffer)
    }
}

impl<K: Sink> Sink for FailsAt<K> {
    ghost held = { λ sink. K.held sink.device };

    ghost has_failed = { λ sink. sink.is_failed || K.has_failed sink.device };

    fn write(&mut self, piece: &[u8]) -> Result<usize, DeviceFault> {
        if self.calls == 0 {
            self.is_failed = true;
            return Err(DeviceFault);
        }
        self.calls -= 1;
        self.device.write(piece)
    }
}

/// A source that gives one octet a call.
#[derive(Drop)]
pub struct OneByOne<'a> {
    octets: &'a [u8],
    at: usize,
}

impl<'a> OneByOne<'a> {
    /// Gives these octets.
    pub fn new(octets: &'a [u8]) -> OneByOne<'a> {
        OneByOne { octets, at: 0 }
    }
}

impl Source for OneByOne<'_> {
    ghost left = { λ source. None };

    ghost has_failed = { λ source. false };

    fn read(&mut self, buffer: &mut [u8]) -> Result<usize, DeviceFault> {
        if buffer.is_empty() || self.at >= self.octets.len() {
            return Ok(0);
        }
        buffer[0] = self.octets[self.at];
        self.at += 1;
        Ok(1)
    }
}

/// A source of silence without end.
#[derive(Drop)]
pub struct Silence;

impl Source for Silence {
    ghost left = { λ source. None };

    ghost has_failed = { λ source. false };

    fn read(&mut self, buffer: &mut [u8]) -> Result<usize, DeviceFault> {
        buffer.fill(0);
        Ok(buffer.len())
    }
}
