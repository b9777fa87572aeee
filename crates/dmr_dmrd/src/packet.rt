//! A packet of a hotspot, as the payload of a datagram spells it.
ghost use Rattle.std.specs.Prelude.{◌≡◌, ◌≤◌, true, length};
ghost use Rattle.dmr_dmrd.specs.Payloads as spec;

use byteorder::{BigEndian, ByteOrder};

/// A slot of a frame.
#[derive(Clone, Copy, Debug, Drop, PartialEq, Eq)]
pub(crate) enum Slot {
    One,
    Two,
}

/// What a burst is.
#[derive(Clone, Copy, Debug, Drop, PartialEq, Eq)]
pub(crate) enum BurstKind {
    /// A burst of data.
    Data,
    /// A voice burst: 0 is A, and 5 is F.
    Voice { number: u8 },
}

/// A packet of a hotspot: a burst, and what is told of it.
#[derive(Clone, Copy, Drop)]
pub(crate) struct HotspotPacket {
    /// The number of the packet in its stream, modulo 256.
    pub(crate) number: u8,
    /// The repeater that has sent or received the burst.
    pub(crate) repeater: u32,
    /// The slot of the burst.
    pub(crate) slot: Slot,
    /// What it is.
    pub(crate) kind: BurstKind,
    /// The stream, which has a new name for each transmission.
    pub(crate) stream: u32,
    /// The burst, in the order of the air.
    pub(crate) burst: [u8; 33],
}

/// Whether a payload begins with `DMRD`.
fn begins_with_dmrd(payload: &[u8]) -> bool
    requires four { 4 ≤ length payload.now }
    ensures value { result ≡ spec.begins_with_dmrd payload.now }
{
    payload[0] == b'D' && payload[1] == b'M' && payload[2] == b'R' && payload[3] == b'D'
}

/// Whether a payload is one of a burst, by its length and its begin.
fn is_dmrd(payload: &[u8]) -> bool
    ensures value { result ≡ spec.is_dmrd payload.now }
{
    (payload.len() == 53 || payload.len() == 55) && begins_with_dmrd(payload)
}

/// The slot that the flags say.
fn slot_said(flags: u8) -> Slot
    ensures value { result ≡ spec.slot_said flags }
{
    if flags >= 0x80 { Slot::Two } else { Slot::One }
}

/// What the flags say that the burst is.
fn kind_said(flags: u8) -> BurstKind
    ensures value { result ≡ spec.kind_said flags }
{
    match flags / 16 % 4 {
        0 => BurstKind::Voice { number: flags % 16 },
        1 => BurstKind::Voice { number: 0 },
        _ => BurstKind::Data,
    }
}

/// The burst of a payload.
fn burst_said(payload: &[u8]) -> [u8; 33]
    requires whole { 53 ≤ length payload.now }
    ensures value { result ≡ spec.burst_said payload.now }
{
    let mut burst = [0u8; 33];
    burst.copy_from_slice(&payload[20..53]);
    burst
}

/// The packet that a payload says. The protocol is that of Homebrew repeaters, whose payloads have two octets more where MMDVMHost
/// wrote them.
pub(crate) fn packet_in(payload: &[u8]) -> Option<HotspotPacket>
    ensures value { result ≡ spec.hotspot_packet_in payload.now }
{
    if !is_dmrd(payload) {
        return None;
    }
    let flags = payload[15];
    Some(HotspotPacket {
        number: payload[4],
        repeater: BigEndian::read_u32(&payload[11..]),
        slot: slot_said(flags),
        kind: kind_said(flags),
        stream: BigEndian::read_u32(&payload[16..]),
        burst: burst_said(payload),
    })
}
