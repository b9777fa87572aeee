//! The uplink file of a recording.
ghost use Rattle.std.specs.Prelude.{◌≡◌, ◌<◌, ◌≤◌, ◌+◌, [], ◌∷◌, All, false, true, IfErr, IfOk, OnOk, OnErr};
ghost use Rattle.std.specs.Io.KnownBytes.{Appends};
ghost use Rattle.dmr_making.specs.Playing as spec;
ghost use Rattle.dmr_making.specs.Playing.{IsFitPlaced, IsOrdered, IsReady, PlaysFrame};
ghost use Rattle.dmr_making.specs.Playing.{TearsMadeFrame, TearsFrames, TearsRecording, WritesFrames};
ghost use Rattle.dmr_making.specs.Playing.{WritesRecording};
ghost use Rattle.dmr_record.specs.Devices.{Tears};
ghost use Rattle.dmr_record.specs.Uplink.{frame_octets};

use crate::playing::{PlacedTransmission, Player};
use dmr_record::{RecordFault, Sink, UPLINK_MAGIC, write_head, write_uplink_slot};
use dmr_script::NumberedStatement;

/// How many bursts stand in both slots of a recording.
#[derive(Clone, Copy, Debug, PartialEq, Eq)]
pub struct BurstsMade {
    /// How many in slot 1.
    pub first: u32,
    /// How many in slot 2.
    pub second: u32,
}

/// One where a burst goes out in a slot, and else none.
fn burst_count(slot: Option<[u8; 33]>) -> u32
    ensures value { result ≡ spec.burst_count slot }
{
    match slot {
        None => 0,
        Some(_) => 1,
    }
}

/// Writes both slots of a frame.
#[tactic(auto, using(dmr_record::proofs::Torn::Tears_after, dmr_record::proofs::Torn::Tears_more))]
fn write_frame<K: Sink>(
    sink: &mut K,
    one: Option<[u8; 33]>,
    two: Option<[u8; 33]>,
) -> Result<(), RecordFault>
    requires well { K.has_failed sink.old ≡ false }
    ensures frame { OnOk result (Appends (K.held sink.old) (K.held sink.new) (frame_octets (one ∷ two ∷ []))) }
    ensures well { OnOk result (K.has_failed sink.new ≡ false) }
    ensures fault { IfErr result (λ e. e ≡ RecordFault.Write) }
    ensures failed { OnErr result (K.has_failed sink.new ≡ true) }
    ensures torn { OnErr result (Tears (K.held sink.old) (K.held sink.new) (frame_octets (one ∷ two ∷ []))) }
{
    write_uplink_slot(sink, one)?;
    write_uplink_slot(sink, two)
}

/// Writes the next frame of both slots, and answers how many bursts it has in each.
fn play_frame<K: Sink>(
    first: &mut Player<'_>,
    second: &mut Player<'_>,
    frame: u32,
    sink: &mut K,
) -> Result<BurstsMade, RecordFault>
    requires well { K.has_failed sink.old ≡ false }
    requires frame { frame < 1048576 }
    requires first { IsReady first.old frame }
    requires second { IsReady second.old frame }
    ensures first { IsReady first.new (frame + 1) }
    ensures second { IsReady second.new (frame + 1) }
    ensures frame { IfOk result (λ counts.
        PlaysFrame first.old first.new second.old second.new frame counts (K.held sink.old) (K.held sink.new)) }
    ensures few { IfOk result (λ counts. (counts.first ≤ 1) × (counts.second ≤ 1)) }
    ensures well { OnOk result (K.has_failed sink.new ≡ false) }
    ensures fault { IfErr result (λ e. e ≡ RecordFault.Write) }
    ensures failed { OnErr result (K.has_failed sink.new ≡ true) }
    ensures torn { OnErr result
        (TearsMadeFrame first.old first.new second.old second.new frame (K.held sink.old) (K.held sink.new)) }
{
    let one = first.slot(frame);
    let two = second.slot(frame);
    write_frame(sink, one, two)?;
    Ok(BurstsMade {
        first: burst_count(one),
        second: burst_count(two),
    })
}

/// Writes so many frames of both slots, from the first on, and answers how many bursts they have.
fn write_frames<K: Sink>(
    first: &mut Player<'_>,
    second: &mut Player<'_>,
    frames: u32,
    sink: &mut K,
) -> Result<BurstsMade, RecordFault>
    requires well { K.has_failed sink.old ≡ false }
    requires frames { frames ≤ 1048576 }
    requires first { IsReady first.old 0 }
    requires second { IsReady second.old 0 }
    requires first_from { first.old.from ≡ 0 }
    requires second_from { second.old.from ≡ 0 }
    ensures frames { IfOk result (λ counts.
        WritesFrames first.old first.new second.old second.new frames counts (K.held sink.old) (K.held sink.new)) }
    ensures well { OnOk result (K.has_failed sink.new ≡ false) }
    ensures fault { IfErr result (λ e. e ≡ RecordFault.Write) }
    ensures failed { OnErr result (K.has_failed sink.new ≡ true) }
    ensures torn { OnErr result (TearsFrames first.old second.old (K.held sink.old) (K.held sink.new)) }
{
    let mut counts = BurstsMade {
        first: 0,
        second: 0,
    };
    for frame in 0..frames {
        let more = play_frame(first, second, frame, sink)?;
        counts = BurstsMade {
            first: counts.first + more.first,
            second: counts.second + more.second,
        };
    }
    Ok(counts)
}

/// Writes the uplink file of a recording of so many frames, at most 1,048,576, with this own colour code. In both slots these
/// transmissions of a script are sent, each from its frame on, with silence between them. They stand one behind another, and fit.
/// It answers how many bursts both slots have. At an `Err` the sink failed. The format is this project's own.
pub fn write_recording<K: Sink>(
    statements: &[NumberedStatement],
    own: u8,
    first: &[PlacedTransmission],
    second: &[PlacedTransmission],
    frames: u32,
    sink: &mut K,
) -> Result<BurstsMade, RecordFault>
    requires well { K.has_failed sink.old ≡ false }
    requires own { own < 16 }
    requires frames { frames ≤ 1048576 }
    requires first { All (IsFitPlaced statements.now) first.now }
    requires second { All (IsFitPlaced statements.now) second.now }
    requires first_ordered { IsOrdered 0 first.now }
    requires second_ordered { IsOrdered 0 second.now }
    ensures recording { IfOk result (λ counts.
        WritesRecording own statements.now first.now second.now frames counts (K.held sink.old) (K.held sink.new)) }
    ensures well { OnOk result (K.has_failed sink.new ≡ false) }
    ensures fault { IfErr result (λ e. e ≡ RecordFault.Write) }
    ensures failed { OnErr result (K.has_failed sink.new ≡ true) }
    ensures torn { OnErr result
        (TearsRecording own statements.now first.now second.now (K.held sink.old) (K.held sink.new)) }
{
    write_head(sink, UPLINK_MAGIC)?;
    let mut one = Player::new(statements, own, first);
    let mut two = Player::new(statements, own, second);
    write_frames(&mut one, &mut two, frames, sink)
}
