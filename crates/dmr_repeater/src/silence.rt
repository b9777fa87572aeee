//! Silent frames, many at once, where silence changes nothing.
ghost use Rattle.std.specs.Prelude.{◌≡◌, ◌+◌, ◌<◌, ◌≤◌, ◌⊎◌, ℕ, IsTrue, IfErr, IfOk, OnOk, false};
ghost use Rattle.dmr_record.specs.Head.{frame_limit};
ghost use Rattle.dmr_station.specs.DownlinkRules.{silent_frame};
ghost use Rattle.dmr_station.specs.StationRules.{RestsInSilence};
ghost use Rattle.dmr_repeater.specs.Causes.{AreBlamed};
ghost use Rattle.dmr_repeater.specs.Frames.{SendsSilence, TearsSilence};
ghost use Rattle.dmr_repeater.specs.Schedule.{IsPast};

use crate::fault::{RunFault, Stream};
use crate::schedule::Schedule;
use dmr_record::{FRAME_LIMIT, RecordFault, SILENT_RUN, Sink, Source};
use dmr_station::{Station, UplinkFrame};

/// Whether silent frames may be repeated at once behind so many frames: the last of these is silent, silence changes nothing, and
/// no record is due in as many frames more as are copied at once.
#[inline(always)]
fn may_repeat(station: &Station, schedule: &Schedule, frame: &UplinkFrame, before: u32) -> bool
    requires few { before ≤ frame_limit }
    ensures rests { IsTrue result → RestsInSilence station.now.memory }
    ensures silent { IsTrue result → frame.now ≡ silent_frame }
    ensures few { IsTrue result → before + 32 ≤ frame_limit }
    ensures past { IsTrue result → IsPast (before + 32) schedule.now }
{
    station.rests_in(frame)
        && before + SILENT_RUN <= FRAME_LIMIT
        && schedule.is_past(before + SILENT_RUN)
}

/// Repeats silent frames that are at hand, where silence changes nothing, and answers how many. It hands over the last frame that
/// was read before, and then all that it reads but the last.
#[inline(always)]
pub(crate) fn repeat_silence<U: Source, D: Sink>(
    station: &mut Station,
    schedule: &Schedule,
    uplink: &mut U,
    downlink: &mut D,
    frame: &UplinkFrame,
    before: u32,
) -> Result<u32, RunFault>
    requires uplink { U.has_failed uplink.old ≡ false }
    requires downlink { D.has_failed downlink.old ≡ false }
    requires frames { station.old.frames ≡ before }
    requires few { before ≤ frame_limit }
    ensures sends { IfOk result (λ count. SendsSilence count station.old schedule.now (U.left uplink.old) (U.left uplink.new)
        (D.held downlink.old) (D.held downlink.new) station.new) }
    ensures silent { IfOk result (λ count. (count ≡ 0) ⊎ (frame.now ≡ silent_frame)) }
    ensures few { IfOk result (λ count. before + count ≤ frame_limit) }
    ensures frames { IfOk result (λ count. station.new.frames ≡ before + count) }
    ensures offered { OnOk result (station.new.offered ≡ station.old.offered) }
    ensures past { IfOk result (λ count. (frame : ℕ) → 0 < count → before + count ≡ frame + 1 → IsPast frame schedule.now) }
    ensures silent_still { IfErr result (λ e. frame.now ≡ silent_frame) }
    ensures torn { IfErr result (λ e. (e ≡ RunFault.File Stream.Downlink RecordFault.Write)
        × TearsSilence station.old schedule.now (U.left uplink.old) (U.left uplink.new) (D.held downlink.old)
        (D.held downlink.new)) }
    ensures blamed { AreBlamed result (U.has_failed uplink.new) false (D.has_failed downlink.new) false }
{
    if !may_repeat(station, schedule, frame, before) {
        return Ok(0);
    }
    let copied = uplink.copy_silence(downlink);
    station.pass_silence(copied.frames);
    match copied.result {
        Ok(()) => Ok(copied.frames),
        Err(_) => {
            // The frame whose write failed was handed over too.
            station.pass_silence(1);
            Err(RunFault::File(Stream::Downlink, RecordFault::Write))
        }
    }
}
