//! Laws of damaged recordings, as the contracts of functions that do nothing.
ghost use Rattle.std.specs.Prelude.{◌≡◌, ℕ, List, length, replicate};
ghost use Rattle.std.specs.List.{AllByRecursion};
ghost use Rattle.dmr_record.specs.Uplink.{IsFrame, UplinkSlots, uplink_file};
ghost use Rattle.dmr_damage.specs.Passing.{silence_in_both};
ghost use Rattle.dmr_damage.specs.Rates.{AreAtRate};

/// Where no bit is to be turned and no burst to be left out, the file is the same, octet for octet.
pub fn nothing_damaged_is_the_same()
    ensures law { (frames outs : List UplinkSlots) → AllByRecursion IsFrame frames → AllByRecursion IsFrame outs
        → AreAtRate 0 0 frames outs → uplink_file outs ≡ uplink_file frames }
{}

/// Where each burst is to be left out, as many frames are silent.
pub fn all_lost_is_silent()
    ensures law { (errors : ℕ) (frames outs : List UplinkSlots) → AllByRecursion IsFrame outs
        → AreAtRate errors 10000 frames outs → outs ≡ replicate (length frames) silence_in_both }
{}
