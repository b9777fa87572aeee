//! Laws of logs of whole recordings, as the contracts of functions that do nothing.
ghost use Rattle.dmr_log_laws.specs.CallEntries.{CallsAreTold};
ghost use Rattle.dmr_log_laws.specs.TryEntries.{TriesAreTold};
ghost use Rattle.dmr_log_laws.specs.WholeLogs.{AgreesWithRuns, EachBurstIsInOneEntry, TellsWholeLogs};

use dmr_listing::Taker;
use dmr_log::FrameTold;
use dmr_log::laws::{all_bursts_are_told, each_burst_is_in_one};

/// Where `log_recording` has logged a whole recording with a new log, the laws below speak of what it told.
pub fn whole_recordings_are_told<L: Taker<FrameTold>>()
    ensures law { TellsWholeLogs L L.Takes }
{}

/// In each slot of a recording each frame that repeats a burst is in exactly one entry, and each entry tells the frames that it
/// has.
pub fn each_burst_is_in_one_entry()
    ensures law { EachBurstIsInOneEntry }
{
    each_burst_is_in_one();
}

/// The bursts of all entries of a log are as many as a run over the same file counts as repeated, and the log counts as many.
pub fn entries_agree_with_runs()
    ensures law { AgreesWithRuns }
{
    all_bursts_are_told();
}

/// Of well-formed transmissions in a slot, damaged within the limits, there is an entry for each call, headers alone and late calls
/// among them. It tells the frames of the call, its link control, its places, those that are absent, and its terminator.
pub fn calls_are_told()
    ensures law { CallsAreTold }
{}

/// Of well-formed transmissions in a slot, damaged within the limits, there is an entry for each data try whose header counts its
/// blocks. It has the frame of the header, and tells as many blocks as are there.
pub fn tries_are_told()
    ensures law { TriesAreTold }
{}
