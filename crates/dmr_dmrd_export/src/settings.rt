//! How a downlink is written.
ghost use Rattle.std.specs.Prelude.{◌+◌, ◌*◌, ◌^◌, ◌≤◌};

/// How a downlink is written.
#[derive(Clone, Copy, Debug, PartialEq, Eq)]
pub struct ExportSettings {
    /// The number of the repeater, which each packet has.
    pub repeater: u32,
    /// When the downlink began, in microseconds behind the begin of the year 1970.
    pub start: u64,
    // A capture has room for the times of the longest downlink: 2^32 seconds.
    ghost in_time: { start + 60000 * 1048582 ≤ 2 ^ 32 * 1000000 },
}

/// The last time at which a downlink may begin: the longest one has 1,048,582 frames of 60 milliseconds.
const LAST_START: u64 = (1 << 32) * 1_000_000 - 1_048_582 * 60_000;

impl ExportSettings {
    ghost use Rattle.std.specs.Prelude.{◌≡◌, ◌<◌, IfSome, IfNone};

    /// These settings, where a capture can say when each packet of the longest downlink came: its seconds have 32 bits, which end
    /// in the year 2106.
    pub fn new(repeater: u32, start: u64) -> Option<ExportSettings>
        ensures repeater { IfSome result (λ settings. settings.repeater ≡ repeater) }
        ensures start { IfSome result (λ settings. settings.start ≡ start) }
        ensures none { IfNone result (2 ^ 32 * 1000000 < start + 60000 * 1048582) }
    {
        if start > LAST_START {
            return None;
        }
        Some(ExportSettings { repeater, start })
    }
}
