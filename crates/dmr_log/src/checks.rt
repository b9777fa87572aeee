//! How many bits of bursts are wrong, of how many.
ghost use Rattle.std.specs.Prelude.{◌≡◌};
ghost use Rattle.dmr_log.specs.Checks as spec;

use dmr_listing::Wrong;
use dmr_reading::{Information, Reading};

/// How many bits of bursts are wrong, of as many as codes and sync words cover there.
#[derive(Clone, Copy, Debug, Default, PartialEq, Eq, Drop)]
pub struct Checks {
    /// Bits that differ from the word that was read.
    pub wrong: u64,
    /// Bits of all words that were read.
    pub covered: u64,
}

/// The bits of a sync word, of a slot type, of the information that the product code covers, and of an EMB.
const SYNC: u64 = 48;

const SLOT_TYPE: u64 = 20;

const INFORMATION: u64 = 195;

const EMB: u64 = 16;

/// How many bits of a burst are covered that is read so.
fn covered(reading: &Reading) -> u64
    ensures value { result ≡ spec.covered reading.now }
{
    match reading {
        Reading::Data(_, _, Information::Coded(Some(_))) => SYNC + SLOT_TYPE + INFORMATION,
        Reading::Data(_, _, _) => SYNC + SLOT_TYPE,
        Reading::Untyped(_) | Reading::VoiceSync(_) => SYNC,
        Reading::Voice(_) => EMB,
        Reading::Unreadable => 0,
    }
}

impl Checks {
    /// Those of one burst, which is read so and has so many wrong bits.
    pub(crate) fn of_burst(reading: &Reading, wrong: &Wrong) -> Checks
        ensures value { result ≡ spec.checks_of reading.now wrong.now }
    {
        let fields = [wrong.sync, wrong.slot_type, wrong.emb, wrong.information];
        let [sync, slot_type, emb, information] = fields;
        let wrong = (sync as u64)
            .saturating_add(slot_type as u64)
            .saturating_add(emb as u64)
            .saturating_add(information as u64);
        Checks {
            wrong,
            covered: covered(reading),
        }
    }

    /// Those of both. At most 2^64 - 1 bits are counted, which no recording has.
    pub(crate) fn and(self, other: Checks) -> Checks
        ensures value { result ≡ spec.both self other }
    {
        Checks {
            wrong: self.wrong.saturating_add(other.wrong),
            covered: self.covered.saturating_add(other.covered),
        }
    }
}
