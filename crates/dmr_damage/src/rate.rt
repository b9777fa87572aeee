//! A slot, damaged at a rate.
ghost use Rattle.std.specs.Prelude.{◌≡◌, ◌≤◌};
ghost use Rattle.dmr_damage.specs.Rates.{IsSlotAtRate};

use crate::drawing::happens;
use rand_pcg::Pcg32;

/// What a slot is written as whose bits are turned, and whose burst is left out, so many times in 10,000.
pub(crate) fn slot_at_rate(
    slot: &Option<[u8; 33]>,
    errors: u16,
    loss: u16,
    rng: &mut Pcg32,
) -> Option<[u8; 33]>
    ensures at_rate { IsSlotAtRate errors loss slot.now result }
{
    match slot {
        None => None,
        Some(burst) => {
            if happens(rng, u32::from(loss), 10_000) {
                return None;
            }
            Some(burst_at_rate(burst, errors, rng))
        }
    }
}

/// A burst whose bits are turned so many times in 10,000.
fn burst_at_rate(burst: &[u8; 33], errors: u16, rng: &mut Pcg32) -> [u8; 33]
    ensures same { errors ≡ 0 → result ≡ burst.now }
{
    let mut damaged = *burst;
    for i in 0..33usize {
        damaged[i] = octet_at_rate(damaged[i], errors, rng);
    }
    damaged
}

/// An octet whose bits are turned so many times in 10,000, the highest first.
fn octet_at_rate(octet: u8, errors: u16, rng: &mut Pcg32) -> u8
    ensures same { errors ≡ 0 → result ≡ octet }
{
    let mut damaged = octet;
    for place in 0..8u32 {
        if happens(rng, u32::from(errors), 10_000) {
            damaged = damaged ^ (128 >> place);
        }
    }
    damaged
}
