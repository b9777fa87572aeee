//! What is told of a burst. C has each of these structs in `dmrgate.h`.

/// What a sync word says.
#[repr(C)]
#[derive(Drop)]
pub struct BurstSync {
    /// Who sends the burst: 0 a base station, 1 a mobile station.
    pub side: u8,
    /// Whether it is a voice burst.
    pub voice: bool,
}

/// What a slot type says.
#[repr(C)]
#[derive(Drop)]
pub struct BurstSlotType {
    /// The colour code, below 16.
    pub colour: u8,
    /// The data type, below 16.
    pub kind: u8,
}

/// What embedded signalling says.
#[repr(C)]
#[derive(Drop)]
pub struct BurstEmb {
    /// The colour code, below 16.
    pub colour: u8,
    /// The pre-emption and power control indicator (PI).
    pub pi: bool,
    /// The link control start and stop, below 4.
    pub lcss: u8,
}

/// The fields of a full link control.
#[repr(C)]
#[derive(Drop)]
pub struct BurstLinkControl {
    /// PF: the contents are protected.
    pub protect: bool,
    /// The reserved bit.
    pub reserved: bool,
    /// The opcode (FLCO), of six bits.
    pub flco: u8,
    /// The feature set (FID).
    pub fid: u8,
    /// The 56 bits whose meaning the opcode gives.
    pub body: [u8; 7],
}

/// What a burst is read as, with zeros where it has no such field.
#[repr(C)]
#[derive(Drop)]
pub struct BurstReading {
    /// Who sends a burst with a sync word: 0 a base station, 1 a mobile station.
    pub side: u8,
    /// The colour code that the slot type or the embedded signalling names.
    pub colour: u8,
    /// The data type of a data burst.
    pub kind: u8,
    /// What a data burst holds: 0 the octets of `message`, 1 bits that are too damaged, 2 bits in another code or in none.
    pub information: u8,
    /// The pre-emption and power control indicator (PI) of embedded signalling.
    pub pi: bool,
    /// The link control start and stop of embedded signalling.
    pub lcss: u8,
    /// The twelve octets that the product code holds.
    pub message: [u8; 12],
}
