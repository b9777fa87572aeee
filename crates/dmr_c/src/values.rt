//! What crosses between a host and a station. C has each of these structs in `dmrgate.h`.

/// A slot of the uplink: a burst, or nothing.
#[repr(C)]
#[derive(Drop)]
pub struct UplinkSlot {
    /// Whether there is a burst.
    pub heard: bool,
    /// The burst, which is not read where there is none.
    pub burst: [u8; 33],
}

/// A slot of the downlink: a CACH and a burst, or nothing.
#[repr(C)]
#[derive(Drop)]
pub struct DownlinkSlot {
    /// Whether there is a burst.
    pub sent: bool,
    /// Its CACH, and zeros where there is none.
    pub cach: [u8; 3],
    /// The burst, and zeros where there is none.
    pub burst: [u8; 33],
}

/// What a station is set to.
#[repr(C)]
#[derive(Drop)]
pub struct StationSettings {
    /// The gateway's address on the air, a logical link identifier from 1 to 16,777,215.
    pub llid: u32,
    /// For how many frames a call holds its slot after its last burst, at most `channel_hang`.
    pub call_hang: u16,
    /// For how many frames the repeater stays on the air after the last repeated burst or burst of the gateway.
    pub channel_hang: u16,
    /// The repeater's colour code, below 16 (ETSI TS 102 361-1, clause 9.3.1).
    pub colour: u8,
    /// How many datagrams may wait for each slot, from 1 to 64.
    pub queue: u8,
}

/// What was received, without its octets.
#[repr(C)]
#[derive(Drop)]
pub struct StationReceipt {
    /// The LLID of its source, an address of 24 bits.
    pub source: u32,
    /// How many octets it has.
    pub length: u16,
    /// The slot in which it came: 1 or 2.
    pub slot: u8,
    /// What its octets are: 0 a datagram, 1 short data, 2 a status.
    pub kind: u8,
}

/// What a station has done so far, in numbers.
#[repr(C)]
#[derive(Drop)]
pub struct StationCounts {
    /// Frames of the downlink, two slots each.
    pub frames: u32,
    /// Slots that repeated a burst.
    pub repeated: u32,
    /// Datagrams that were offered.
    pub offered: u32,
    /// Datagrams that the gateway refused.
    pub refused: u32,
    /// What was taken of what the gateway received: datagrams, short data and statuses.
    pub received: u32,
    /// Confirmed packets that were delivered.
    pub delivered: u32,
    /// Unconfirmed packets that were sent.
    pub sent: u32,
    /// Packets that were given up: they had no try left.
    pub given_up: u32,
}
