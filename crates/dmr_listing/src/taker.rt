//! Whoever takes what the lines of a file are made of.
ghost use Rattle.std.specs.Prelude.{◌≡◌, ℕ, Bool, false, OnOk, OnErr};
ghost use Rattle.dmr_record.specs.Devices.{failed_after};

use dmr_record::DeviceFault;

/// Takes what the lines of a file are made of, one by one: a `T` for each, such as a `ListedBurst`.
pub trait Taker<T> {
    /// What it makes of one that it takes: how it was before, what it takes, and how it is after.
    ghost Takes: { Self → T → Self → Type 0 };

    /// What becomes of it where it refuses one: how it was before, what it refuses, and how it is after.
    ghost Refuses: { Self → T → Self → Type 0 };

    /// Whether it has failed.
    ghost has_failed: { Self → Bool };

    /// What nothing that it takes changes of it, such as the name of a sink that it holds and prints to.
    ghost kept: { Self → ℕ };

    /// Takes one. At an `Err` it didn't, and has failed from then on.
    fn put(&mut self, line: &T) -> Result<(), DeviceFault>
        requires well { has_failed self.old ≡ false }
        ensures line { OnOk result (Takes self.old line.now self.new) }
        ensures none { OnErr result (Refuses self.old line.now self.new) }
        ensures failure { has_failed self.new ≡ failed_after (has_failed self.old) result }
        ensures kept { kept self.new ≡ kept self.old };
}
