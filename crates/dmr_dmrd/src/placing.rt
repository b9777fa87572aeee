//! In which frame of a recording a packet is placed.
//!
//! The numbers of packets count packets, and not frames, so that a silence on the air leaves no gap in them. Times of arrival tell
//! it, but they jitter. So the rule takes both, and each slot is placed alone. It is this project's own.
ghost use Rattle.std.specs.Prelude.{◌≡◌, ◌+◌, ◌≤◌, ◌<◌, ◌^◌, Some};
ghost use Rattle.dmr_dmrd.specs.Placing as spec;

use crate::packet::{BurstKind, HotspotPacket, Slot};

/// Where a recording begins: when the first packet came that is taken, in nanoseconds, and in which slot.
#[derive(Clone, Copy, Debug, Drop, PartialEq, Eq)]
pub(crate) struct Start {
    pub(crate) time: u128,
    pub(crate) slot: Slot,
}

/// The packet that was placed last in a slot.
#[derive(Clone, Copy, Debug, Drop, PartialEq, Eq)]
pub(crate) struct LastPlaced {
    /// Its stream.
    pub(crate) stream: u32,
    /// Its number in the stream.
    pub(crate) number: u8,
    /// What it is.
    pub(crate) kind: BurstKind,
    /// The frame in which it was placed.
    pub(crate) frame: u32,
    /// When it came, in nanoseconds.
    pub(crate) time: u128,
    /// The frame of the first packet of its stream.
    pub(crate) first_frame: u32,
    /// When that came.
    pub(crate) first_time: u128,
}

/// What is remembered of the packets that were placed in a slot.
#[derive(Clone, Copy, Debug, Drop, PartialEq, Eq)]
pub(crate) struct SlotPlaces {
    /// The last one.
    pub(crate) last: Option<LastPlaced>,
    /// How many were placed.
    pub(crate) bursts: u32,
    /// How many numbers were left out between them.
    pub(crate) lost: u32,
    /// How many were late.
    pub(crate) late: u64,
}

/// What a packet asks for.
#[derive(Clone, Copy, Debug, Drop, PartialEq, Eq)]
pub(crate) enum Asked {
    /// It is late, and dropped.
    Late,
    /// It is the first of its stream, and asks for this frame.
    Begins { frame: u128 },
    /// It goes on in its stream, asks for this frame, and leaves so many numbers out.
    GoesOn { frame: u128, lost: u8 },
}

/// How many nanoseconds a frame has.
const FRAME: u128 = 60_000_000;

/// Half a frame in nanoseconds. So much later does slot 2 of a frame begin than slot 1.
const HALF: u64 = 30_000_000;

/// How many nanoseconds behind the last packet a late one begins a stream: those of 64 frames.
const MUCH_LATER: u128 = 64 * FRAME;

/// How many whole frames a time is behind another one, where the first is counted so much later.
fn frames_since(reference: u128, later: u64, time: u128) -> u128
    ensures value { result ≡ spec.frames_since reference later time }
    ensures bound { result < 2 ^ 104 }
{
    let later = u128::from(later);
    if time < reference {
        return later.saturating_sub(reference - time) / FRAME;
    }
    let since = time - reference;
    since / FRAME + (since % FRAME + later) / FRAME
}

/// How much later the time of a packet is counted than that of the first one, so that frames are rounded to the nearest.
fn later_than_start(start: Slot, slot: Slot) -> u64
    ensures value { result ≡ spec.later_than_start start slot }
{
    match (start, slot) {
        (Slot::One, Slot::One) | (Slot::Two, Slot::Two) => HALF,
        (Slot::One, Slot::Two) => 0,
        (Slot::Two, Slot::One) => 2 * HALF,
    }
}

/// How many frames a voice burst is at least behind another one that is so many numbers before it.
fn voice_frames_on(last: u8, voice: u8, on: u8) -> u128
    ensures value { result ≡ spec.voice_frames_on last voice on }
    ensures least { on ≤ result }
    ensures bound { result ≤ on + 5 }
{
    let apart = (u32::from(voice) + 600 - (u32::from(last) + u32::from(on))) % 6;
    u128::from(on) + u128::from(apart)
}

/// The frame nearest to one that is asked for, among this one and those that are a multiple of 6 behind it.
fn nearest_by_six(least: u128, asked: u128) -> u128
    requires least { least < 2 ^ 104 }
    requires asked { asked < 2 ^ 104 }
    ensures value { result ≡ spec.nearest_by_six least asked }
    ensures least { least ≤ result }
{
    least + (asked.saturating_sub(least) + 2) / 6 * 6
}

/// The frame of a packet that is so many numbers behind the last one, by what both are and the frame that its time asks for.
fn frame_on(before: BurstKind, kind: BurstKind, last: u32, on: u8, asked: u128) -> u128
    requires asked { asked < 2 ^ 104 }
    ensures value { result ≡ spec.frame_on before kind last on asked }
    ensures least { last + on ≤ result }
{
    let least = u128::from(last) + u128::from(on);
    match (before, kind) {
        (BurstKind::Voice { number: before }, BurstKind::Voice { number }) => {
            let first = u128::from(last) + voice_frames_on(before, number, on);
            nearest_by_six(first, asked)
        }
        (BurstKind::Data, BurstKind::Voice { .. }) => asked.max(least),
        (_, BurstKind::Data) => { if asked <= least + 1 { least } else { asked } }
    }
}

/// The frame of the first packet of a stream: by its time, and none before this one.
fn frame_of_first(start: Start, slot: Slot, least: u64, time: u128) -> u128
    ensures value { result ≡ spec.frame_of_first start slot least time }
    ensures least { least ≤ result }
{
    frames_since(start.time, later_than_start(start.slot, slot), time).max(u128::from(least))
}

/// How many numbers a packet is behind another one, modulo 256.
fn numbers_on(last: u8, number: u8) -> u8
    ensures value { result ≡ spec.numbers_on last number }
{
    ((u16::from(number) + 256 - u16::from(last)) % 256) as u8
}

impl LastPlaced {
    /// The frame of a packet of its stream by its time.
    fn frame_in_stream(&self, time: u128) -> u128
        ensures value { result ≡ spec.frame_in_stream self.now time }
        ensures bound { result < 2 ^ 104 }
    {
        let later = u64::from(self.first_frame) * 60_000_000 + HALF;
        frames_since(self.first_time, later, time)
    }

    /// Whether a packet came 64 frames or more behind it.
    fn is_much_later(&self, time: u128) -> bool
        ensures value { result ≡ spec.is_much_later self.now time }
    {
        time.saturating_sub(self.time) >= MUCH_LATER
    }

    /// What a packet of its stream asks for that is behind it.
    fn asked_in_stream(&self, start: Start, packet: &HotspotPacket, time: u128) -> Asked
        ensures value { result ≡ spec.asked_in_stream self.now start packet.now time
            (spec.numbers_on self.now.number packet.now.number) }
        ensures least { spec.IsFromOn (self.now.frame + 1) result }
    {
        let on = numbers_on(self.number, packet.number);
        if on == 0 || on >= 128 {
            return if self.is_much_later(time) {
                let frame = frame_of_first(start, packet.slot, u64::from(self.frame) + 1, time);
                Asked::Begins { frame }
            } else {
                Asked::Late
            };
        }
        let asked = self.frame_in_stream(time);
        Asked::GoesOn {
            frame: frame_on(self.kind, packet.kind, self.frame, on, asked),
            lost: on - 1,
        }
    }
}

/// What a packet asks for that came at this time, behind the last one that was placed in its slot, if one was.
pub(crate) fn asked_behind(
    last: &Option<LastPlaced>,
    start: Start,
    packet: &HotspotPacket,
    time: u128,
) -> Asked
    ensures value { result ≡ spec.asked_behind last.now start packet.now time }
    ensures least { spec.IsFromOn (spec.frames_up_to last.now) result }
{
    match last {
        None => Asked::Begins {
            frame: frame_of_first(start, packet.slot, 0, time),
        },
        Some(last) if last.stream == packet.stream => last.asked_in_stream(start, packet, time),
        Some(last) => Asked::Begins {
            frame: frame_of_first(start, packet.slot, u64::from(last.frame) + 1, time),
        },
    }
}

impl Asked {
    /// The frame that is asked for, where one is.
    pub(crate) fn frame(self) -> Option<u128>
        ensures value { result ≡ spec.frame_asked self }
    {
        match self {
            Asked::Late => None,
            Asked::Begins { frame } | Asked::GoesOn { frame, .. } => Some(frame),
        }
    }
}

impl SlotPlaces {
    /// In front of a recording.
    pub(crate) fn none() -> SlotPlaces
        ensures value { result ≡ spec.no_places }
    {
        SlotPlaces {
            last: None,
            bursts: 0,
            lost: 0,
            late: 0,
        }
    }

    /// What is remembered behind a packet that is late.
    pub(crate) fn with_late(self) -> SlotPlaces
        requires few { self.late < 2 ^ 63 }
        ensures value { result ≡ record self { late = self.late + 1 } }
    {
        SlotPlaces {
            late: self.late + 1,
            ..self
        }
    }

    /// What is remembered behind a packet that was placed in this frame.
    pub(crate) fn with(
        self,
        packet: &HotspotPacket,
        time: u128,
        asked: Asked,
        frame: u32,
    ) -> SlotPlaces
        requires asked { spec.frame_asked asked ≡ Some frame }
        requires bursts { self.bursts < 2 ^ 30 }
        requires lost { self.lost < 2 ^ 30 }
        ensures value { result ≡ spec.places_behind self packet.now time asked }
    {
        let (first_frame, first_time) = match (asked, self.last) {
            (Asked::GoesOn { .. }, Some(last)) => (last.first_frame, last.first_time),
            _ => (frame, time),
        };
        let lost = match asked {
            Asked::GoesOn { lost, .. } => lost,
            _ => 0,
        };
        SlotPlaces {
            last: Some(LastPlaced {
                stream: packet.stream,
                number: packet.number,
                kind: packet.kind,
                frame,
                time,
                first_frame,
                first_time,
            }),
            bursts: self.bursts + 1,
            lost: self.lost + u32::from(lost),
            ..self
        }
    }
}
