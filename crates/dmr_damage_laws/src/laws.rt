//! Laws of recordings that were damaged within the limits, as the contracts of functions that do nothing.
ghost use Rattle.dmr_damage_laws.specs.DamagedCopies.{CopiesMeanTheSame, RunsWriteTheSame};
ghost use Rattle.dmr_damage_laws.specs.DamagedSlots.{DamagedSlotsMeanTheSame};

use dmr_repeater::laws::one_result;

/// Whatever well-formed transmissions are sent in a slot, and whatever recording there is of them, damaged within the limits: what
/// the recording is written as within the limits is a recording, damaged within the limits, of transmissions that are well formed
/// and mean the same.
pub fn damaged_slots_mean_the_same()
    ensures law { DamagedSlotsMeanTheSame }
{}

/// Where a source has a recording of well-formed transmissions in both slots, damaged within the limits, what `damage_recording`
/// writes of it within the limits into an empty file is such a recording too, with as many frames. Its transmissions mean the same.
pub fn copies_mean_the_same()
    ensures law { CopiesMeanTheSame }
{}

/// Two runs, with the same datagrams, one over such a recording and the other over what `damage_recording` wrote of it, write the
/// same octets of both outputs and have the same summary, where both end well.
pub fn runs_write_the_same()
    ensures law { RunsWriteTheSame }
{
    one_result();
}
