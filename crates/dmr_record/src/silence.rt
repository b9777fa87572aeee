//! Silent frames, many at once. They have the same octets in an uplink file and in a downlink file.

ghost use Rattle.std.specs.Prelude.{◌≡◌, ◌≤◌, false, OnOk, OnErr};
ghost use Rattle.std.specs.Io.KnownBytes.{Appends};
ghost use Rattle.dmr_record.specs.Devices.{TearsBehind, failed_after};
ghost use Rattle.dmr_record.specs.Silence.{silence_octets};

use crate::device::{DeviceFault, Sink};
use crate::tag::SILENCE;
use crate::transfer::put;

/// How many silent frames are copied at once.
pub const SILENT_RUN: u32 = 32;

/// The octets of so many silent frames.
pub(crate) const SILENT_FRAMES: [u8; 64] = [SILENCE; 64];

/// How far silent frames were copied.
#[derive(Clone, Copy, Debug, PartialEq, Eq)]
pub struct Copied {
    /// How many frames went out whole.
    pub frames: u32,
    /// Whether the sink failed in the frame behind them.
    pub result: Result<(), DeviceFault>,
}

/// Writes silent frames, as many as the sink takes at once.
pub(crate) fn write_silence<K: Sink>(sink: &mut K) -> Copied
    requires well { K.has_failed sink.old ≡ false }
    ensures few { result.frames ≤ 32 }
    ensures written { OnOk result.result (Appends (K.held sink.old) (K.held sink.new) (silence_octets result.frames)) }
    ensures torn { OnErr result.result
        (TearsBehind (silence_octets result.frames) (K.held sink.old) (K.held sink.new) (silence_octets 1)) }
    ensures failure { K.has_failed sink.new ≡ failed_after (K.has_failed sink.old) result.result }
{
    let written = match sink.write(&SILENT_FRAMES) {
        Ok(written) => written as u32,
        Err(fault) => {
            return Copied {
                frames: 0,
                result: Err(fault),
            };
        }
    };
    let frames = written / 2;
    if written % 2 == 0 {
        return Copied {
            frames,
            result: Ok(()),
        };
    }
    // Half of a frame is out, and the other half follows.
    match put(sink, &[SILENCE]) {
        Ok(()) => Copied {
            frames: frames + 1,
            result: Ok(()),
        },
        Err(_) => Copied {
            frames,
            result: Err(DeviceFault),
        },
    }
}
