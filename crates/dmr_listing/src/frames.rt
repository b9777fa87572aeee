//! Which frames are asked for.
ghost use Rattle.std.specs.Prelude.{◌≡◌};
ghost use Rattle.dmr_listing.specs.Strips.{has};

/// Frames of a recording that follow one another.
#[derive(Clone, Copy, Drop)]
pub struct Frames {
    /// The first of them.
    pub first: u32,
    /// The last of them. There are none where it lies before the first.
    pub last: u32,
}

impl Frames {
    /// Whether a frame is one of them.
    pub(crate) fn has(&self, frame: u32) -> bool
        ensures value { result ≡ has self.now frame }
    {
        self.first <= frame && frame <= self.last
    }
}
