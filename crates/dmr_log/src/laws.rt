//! Laws of what is told of a slot, as the contracts of functions that do nothing.
ghost use Rattle.dmr_log.specs.Pieces.{AllBurstsAreTold, EachBurstIsInOne};

/// Each frame that repeats a burst is in exactly one transmission, and each transmission tells the frames that it has.
pub fn each_burst_is_in_one()
    ensures law { EachBurstIsInOne }
{}

/// The bursts that the transmissions of a slot tell are as many as it repeats.
pub fn all_bursts_are_told()
    ensures law { AllBurstsAreTold }
{}
