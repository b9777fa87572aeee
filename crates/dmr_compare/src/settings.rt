//! What is compared of two files.
ghost use Rattle.std.specs.Prelude.{◌≡◌};
ghost use Rattle.dmr_compare.specs.Shifts.{slots_in_front_of_first, slots_in_front_of_second};

/// What is left out of each burst that is compared. Other repeaters have other values there. Nothing is left out of lists.
#[derive(Clone, Copy, Debug, Default, Drop, PartialEq, Eq)]
pub struct Ignored {
    /// The CACH before it, on the downlink.
    pub cach: bool,
    /// Its vocoder bits, where it is a voice burst.
    pub vocoder: bool,
}

/// Which frame of the second recording a frame of the first is compared with. This project's own.
#[derive(Clone, Copy, Debug, Drop, PartialEq, Eq)]
pub enum Shift {
    /// One that stands so many frames later in the second, or in the same place where that is 0. So many frames of the second stand
    /// in front of those that are compared.
    Later(u32),
    /// One that stands so many frames earlier in the second. So many frames of the first stand in front of those that are compared.
    Earlier(u32),
}

/// How two files are compared.
#[derive(Clone, Copy, Debug, Drop, PartialEq, Eq)]
pub struct CompareSettings {
    /// Which frames of two recordings are compared with one another: those of one number where no shift is given. Lists have none,
    /// and are refused with any, one of no frames too.
    pub shift: Option<Shift>,
    /// What is left out of their bursts.
    pub ignored: Ignored,
    /// Whether differences are counted alone, and have no lines.
    pub is_quiet: bool,
}

/// How many slots a frame has. ETSI TS 102 361-1, clause 4.2.2.
const FRAME_SLOTS: u64 = 2;

/// How many slots of the first recording stand in front of those that are compared.
pub(crate) fn slots_in_front_of_first(shift: Option<Shift>) -> u64
    ensures value { result ≡ slots_in_front_of_first shift }
{
    match shift {
        None | Some(Shift::Later(_)) => 0,
        Some(Shift::Earlier(frames)) => FRAME_SLOTS * u64::from(frames),
    }
}

/// How many slots of the second recording do.
pub(crate) fn slots_in_front_of_second(shift: Option<Shift>) -> u64
    ensures value { result ≡ slots_in_front_of_second shift }
{
    match shift {
        None | Some(Shift::Earlier(_)) => 0,
        Some(Shift::Later(frames)) => FRAME_SLOTS * u64::from(frames),
    }
}
