//! What is told of an open try.
ghost use Rattle.std.specs.Prelude.{◌≡◌};
ghost use Rattle.dmr_arq.specs.OpenTry.{blocks_of_try};

/// What an open try is of. These are this project's own words.
#[derive(Clone, Copy, Debug, PartialEq, Eq)]
pub enum OpenTry {
    /// A packet without confirmation, whose blocks have no serials.
    Unconfirmed,
    /// A confirmed packet of so many blocks, below which serials are. Of a repeat it is the count of its header.
    Confirmed(u8),
}

impl OpenTry {
    /// How many blocks a confirmed packet has, as those that read a block are told.
    pub fn blocks(&self) -> Option<u8>
        ensures value { result ≡ blocks_of_try self.now }
    {
        match self {
            OpenTry::Unconfirmed => None,
            OpenTry::Confirmed(blocks) => Some(*blocks),
        }
    }
}
