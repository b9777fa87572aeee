//! A packet of a hotspot, and its payload.
ghost use Rattle.std.specs.Prelude.{◌≡◌, ◌<◌};
ghost use Rattle.dmr_dmrd_export.specs.BurstPackets as spec;

use crate::addresses::Addresses;
use crate::burst::SentKind;
use dmr_listing::VoicePlace;
use dmr_recording::Place;

/// A packet of a hotspot.
#[derive(Clone, Copy)]
pub(crate) struct BurstPacket {
    /// The slot of the downlink that has its burst.
    pub(crate) place: Place,
    /// The number of its frame in the stream, modulo 256.
    pub(crate) number: u8,
    /// The addresses of the stream.
    pub(crate) addresses: Addresses,
    /// What the burst is.
    pub(crate) kind: SentKind,
    /// The name of the stream.
    pub(crate) stream: u32,
    /// The burst.
    pub(crate) burst: [u8; 33],
}

/// The bits of the flags that tell what the burst is.
fn kind_flags(kind: SentKind) -> u8
    ensures value { result ≡ spec.kind_flags kind }
    ensures low { result < 64 }
{
    match kind {
        SentKind::Voice(None) => 0,
        SentKind::Voice(Some(VoicePlace::A)) => 0x10,
        SentKind::Voice(Some(VoicePlace::B)) => 1,
        SentKind::Voice(Some(VoicePlace::C)) => 2,
        SentKind::Voice(Some(VoicePlace::D)) => 3,
        SentKind::Voice(Some(VoicePlace::E)) => 4,
        SentKind::Voice(Some(VoicePlace::F)) => 5,
        SentKind::Data(data_type) => 0x20 + data_type % 16,
    }
}

/// The three octets of an address.
fn three_octets(address: u32) -> [u8; 3]
    ensures value { result ≡ spec.three_octets address }
{
    [
        (address / 65_536 % 256) as u8,
        (address / 256 % 256) as u8,
        (address % 256) as u8,
    ]
}

/// The four octets of a number, the highest first.
fn four_octets(number: u32) -> [u8; 4]
    ensures value { result ≡ spec.four_octets number }
{
    [
        (number / 16_777_216) as u8,
        (number / 65_536 % 256) as u8,
        (number / 256 % 256) as u8,
        (number % 256) as u8,
    ]
}

impl BurstPacket {
    /// The flags: the slot, whether the target is a radio, and what the burst is.
    fn flags(&self) -> u8
        ensures value { result ≡ spec.packet_flags self.now }
    {
        let slot = if self.place.slot == 2 { 0x80 } else { 0 };
        let call = if self.addresses.is_to_unit { 0x40 } else { 0 };
        slot + call + kind_flags(self.kind)
    }

    /// What stands in front of the burst.
    fn head(&self, repeater: u32) -> [u8; 20]
        ensures value { result ≡ spec.payload_head repeater self.now }
    {
        let number = self.number;
        let flags = self.flags();
        let [s0, s1, s2] = three_octets(self.addresses.source);
        let [t0, t1, t2] = three_octets(self.addresses.target);
        let [r0, r1, r2, r3] = four_octets(repeater);
        let [n0, n1, n2, n3] = four_octets(self.stream);
        [
            b'D', b'M', b'R', b'D', number, s0, s1, s2, t0, t1, t2, r0, r1, r2, r3, flags, n0, n1,
            n2, n3,
        ]
    }

    /// Its payload, which tells that it is of this repeater.
    pub(crate) fn payload(&self, repeater: u32) -> [u8; 53]
        ensures value { result ≡ spec.packet_payload repeater self.now }
    {
        let mut payload = [0u8; 53];
        payload[..20].copy_from_slice(&self.head(repeater));
        payload[20..].copy_from_slice(&self.burst);
        payload
    }
}
