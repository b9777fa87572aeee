//! How many bits differ of two bursts.
ghost use Rattle.std.specs.Prelude.{◌≡◌, ◌==◌, ◌&&◌, ◌+◌, ◌≤◌, ◌++◌, length};
ghost use Rattle.dmr_bits.specs.Bits.{bits_of_octets, distance, part};
ghost use Rattle.dmr_compare.specs.Kept.{cach_bits, differing_in_burst, differing_in_cach, is_voice};
ghost use Rattle.dmr_compare.specs.Printed.{differing_text};

use crate::line::Line;
use crate::settings::Ignored;
use dmr_bits::Bits;
use dmr_listing::ListedBurst;
use dmr_reading::Reading;

/// How many bits differ of what is compared of two bursts.
#[derive(Clone, Copy, Debug, Drop, PartialEq, Eq)]
pub struct Differing {
    /// Of the 24 bits of the CACHs before them.
    pub cach: usize,
    /// Of the 264 bits of the bursts, or of the 48 at their centres.
    pub burst: usize,
}

/// Whether a burst that is read so is a voice burst.
fn is_voice(reading: &Reading) -> bool
    ensures value { result ≡ is_voice reading.now }
{
    match reading {
        Reading::VoiceSync(_) | Reading::Voice(_) => true,
        Reading::Data(_, _, _) | Reading::Untyped(_) | Reading::Unreadable => false,
    }
}

/// How many bits of two CACHs differ: none where one of them isn't there.
#[tactic(auto, using(crate::proofs::Distances::from_nothing))]
fn distance_of_cachs(first: Option<[u8; 3]>, second: Option<[u8; 3]>) -> usize
    ensures value { result ≡ distance (cach_bits first) (cach_bits second) }
{
    match (first, second) {
        (Some(first), Some(second)) => {
            let first = Bits::<24>::from_octets(&first);
            first.distance(&Bits::from_octets(&second))
        }
        (None, _) => 0,
        (Some(_), None) => 0,
    }
}

/// How many bits of two bursts differ.
fn distance_of_bursts(first: &[u8; 33], second: &[u8; 33]) -> usize
    ensures value { result ≡ distance (bits_of_octets first.now) (bits_of_octets second.now) }
{
    let first = Bits::<264>::from_octets(first);
    first.distance(&Bits::from_octets(second))
}

/// How many bits differ at the centres of two bursts, between their vocoder bits. ETSI TS 102 361-1, clause 6.1.
fn distance_of_centres(first: &[u8; 33], second: &[u8; 33]) -> usize
    ensures value { result ≡ distance (part (bits_of_octets first.now) 108 156) (part (bits_of_octets second.now) 108 156) }
{
    let first: Bits<48> = Bits::<264>::from_octets(first).part(108, 156);
    let second: Bits<48> = Bits::<264>::from_octets(second).part(108, 156);
    first.distance(&second)
}

impl Differing {
    /// How many bits differ of what isn't ignored of two bursts. Vocoder bits are ignored where both are voice bursts.
    pub fn between(ignored: Ignored, first: &ListedBurst, second: &ListedBurst) -> Differing
        ensures cach { result.cach ≡ differing_in_cach ignored first.now second.now }
        ensures burst { result.burst ≡ differing_in_burst ignored first.now second.now }
    {
        let are_voice = is_voice(&first.line.reading) && is_voice(&second.line.reading);
        let cach = match ignored.cach {
            true => 0,
            false => distance_of_cachs(first.burst.cach, second.burst.cach),
        };
        let burst = if ignored.vocoder && are_voice {
            distance_of_centres(&first.burst.burst, &second.burst.burst)
        } else {
            distance_of_bursts(&first.burst.burst, &second.burst.burst)
        };
        Differing { cach, burst }
    }

    /// Whether no bit differs.
    pub fn is_none(&self) -> bool
        ensures value { result ≡ (self.now.cach == 0 && self.now.burst == 0) }
    {
        self.cach == 0 && self.burst == 0
    }

    /// Adds the parts that differ to a line, in brackets, and nothing where none does.
    pub(crate) fn add_to(&self, line: &mut Line)
        requires room { length line.old + 100 ≤ 640 }
        ensures value { line.new ≡ line.old ++ differing_text self.now.cach self.now.burst }
        ensures length { length line.new ≤ length line.old + 100 }
    {
        if self.cach > 0 {
            line.add_number(b"  [differ: CACH ", self.cach as u64);
            if self.burst > 0 {
                line.add_number(b", burst ", self.burst as u64);
            }
            line.add(b"]");
        } else if self.burst > 0 {
            line.add_number(b"  [differ: burst ", self.burst as u64);
            line.add(b"]");
        }
    }
}
