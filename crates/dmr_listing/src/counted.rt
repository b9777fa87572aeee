//! How many of something there are.
ghost use Rattle.std.specs.Prelude.{◌≡◌, ◌==◌, [], Some, if◌then◌else◌, codes};
ghost use Rattle.dmr_listing.specs.Texts.{count_text};

use std::fmt;

/// A number and what it counts, in the singular for one.
#[derive(Drop)]
pub struct Counted(pub usize, pub &'static str);

/// The ending of a name behind a number.
fn ending_of(count: usize) -> &'static str
    ensures value { result.now ≡ (if count == 1 then [] else codes "s") }
{
    if count == 1 { "" } else { "s" }
}

impl fmt::Display for Counted {
    ghost output = { λ count. Some (count_text count.0 count.1.now) };

    fn fmt<W: fmt::Write>(&self, f: &mut fmt::Formatter<W>) -> fmt::Result {
        let ending = ending_of(self.0);
        write!(f, "{} {}{ending}", self.0, self.1)
    }
}
