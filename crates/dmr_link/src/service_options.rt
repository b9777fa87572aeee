//! The service options of a voice call.
ghost use Rattle.std.specs.Prelude.{◌≡◌, ◌%◌, ◌↔◌, ℕ, IsTrue, IsBitSet};

use bitflags::{Flag, Flags, bitflag_items};

/// The service options octet of a voice call (ETSI TS 102 361-2, clause 7.2.1): named bits, and a priority in the two
/// lowest. All eight bits are carried, the reserved ones too. The trait `bitflags::Flags` has the operations of sets
/// with contracts; the operators `|`, `&` and the like, which the kit's macro writes, have none.
#[derive(Clone, Copy, Debug, PartialEq, Eq)]
pub struct ServiceOptions(pub u8);

bitflag_items! {
    impl ServiceOptions: u8 {
        /// An emergency call.
        const EMERGENCY = 0x80;
        /// The call is private.
        const PRIVACY = 0x40;
        /// A broadcast to a group.
        const BROADCAST = 0x08;
        /// An open voice channel mode call.
        const OVCM = 0x04;
    }
}

impl Flags for ServiceOptions {
    ghost use Rattle.std.specs.Prelude.{⊤, [], ◌∷◌, codes};

    type Bits = u8;

    ghost exact = { ⊤ };

    ghost table = { (codes "EMERGENCY", 0x80) ∷ (codes "PRIVACY", 0x40) ∷ (codes "BROADCAST", 0x08) ∷ (codes "OVCM", 0x04) ∷ [] };

    ghost set_of = { λ options. options.0 };

    fn flags<'a>() -> &'a [Flag<ServiceOptions>] {
        ServiceOptions::FLAGS
    }

    fn bits(&self) -> u8 {
        self.0
    }

    fn from_bits_retain(bits: u8) -> ServiceOptions {
        ServiceOptions(bits)
    }
}

impl ServiceOptions {
    /// Whether every bit of `option` is one here.
    pub fn contains(self, option: ServiceOptions) -> bool
        ensures contained { IsTrue result ↔ ((k : ℕ) → IsBitSet option.0 k → IsBitSet self.0 k) }
    {
        Flags::contains(&self, option)
    }

    /// The priority of the call, from 0, no priority, to 3, the highest.
    pub fn priority(self) -> u8
        ensures value { result ≡ self.0 % 4 }
    {
        self.0 % 4
    }
}
