//! The fields of a full link control, written and read.
ghost use Rattle.std.specs.Prelude.{◌≡◌, ◌<◌};
ghost use Rattle.dmr_bits.specs.Bits.{bits_of_octets};
ghost use Rattle.dmr_link.specs.FullLc.{full_lc_bits, FitsFullLc};

use dmr_bits::{Bits, Reader, Writer, read_fields, write_fields};

/// A full link control (ETSI TS 102 361-1, clause 7.1).
#[derive(Clone, Copy, Debug, PartialEq, Eq)]
pub struct FullLc {
    /// PF: the contents are protected.
    pub protect: bool,
    /// R, the reserved bit; it is carried.
    pub reserved: bool,
    /// FLCO, the opcode, in six bits.
    pub flco: u8,
    /// FID, the feature set to which the opcode belongs; 0 is the standard's.
    pub fid: u8,
    /// The 56 bits whose meaning the opcode gives.
    pub body: [u8; 7],
}

// The one list of fields, for the writer and the reader.
macro_rules! lc_fields {
    ($each:ident, $($with:tt)*) => {
        $each!($($with)*; protect: flag, reserved: flag, flco: number(u8, 6), fid: number(u8, 8), body: octets(7))
    };
}

impl FullLc {
    /// The nine octets of the fields.
    pub fn octets(&self) -> [u8; 9]
        requires fits { self.now.flco < 64 }
        ensures spelled { bits_of_octets result ≡ full_lc_bits self.now }
        ensures fit { FitsFullLc self.now }
    {
        let mut writer = Writer::<72>::new();
        lc_fields!(write_fields, writer, self);
        writer.finish().octets()
    }

    /// The fields that nine octets spell.
    pub fn from_octets(octets: &[u8; 9]) -> Self
        ensures fields { full_lc_bits result ≡ bits_of_octets octets.now }
        ensures fit { FitsFullLc result }
    {
        let bits = Bits::<72>::from_octets(octets);
        let mut reader = Reader::<72>::new(&bits);
        lc_fields!(read_fields, reader, FullLc)
    }
}
