//! What bursts hold.

/// The link control of a call to talk group 1 from radio 2 with no option set. ETSI TS 102 361-2, clause 7.1.1.1.
pub const GROUP_CALL: [u8; 9] = [0, 0, 0, 0, 0, 1, 0, 0, 2];

/// The four embedded fields that carry it. ETSI TS 102 361-1, annex B.2.1.
pub const CALL_FIELDS: [u32; 4] = [0, 0x0009_0000, 0x0300_060A, 0x030F_060C];

/// What the terminator of that call holds.
pub const TERMINATOR_BLOCK: [u8; 12] = [0, 0, 0, 0, 0, 1, 0, 0, 2, 0x8D, 0x6A, 0x62];

/// What an idle burst holds. ETSI TS 102 361-1, annex D.2.
pub const IDLE_BLOCK: [u8; 12] = [
    0xFF, 0x83, 0xDF, 0x17, 0x32, 0x09, 0x4E, 0xD1, 0xE7, 0xCD, 0x8A, 0x91,
];

/// The one block that a compressed datagram of seven octets makes at rate 1/2: these, a pad octet and the packet's check.
pub const DATAGRAM_BLOCK: [u8; 12] = [
    0x12, 0x34, 0x00, 0x01, 0x00, 0x13, 0x9A, 0x00, 0x66, 0xC3, 0xEE, 0x66,
];
