//! What is counted of two files.
ghost use Rattle.std.specs.Prelude.{◌≡◌};
ghost use Rattle.dmr_compare.specs.Counting.{counts_line, places_in};
ghost use Rattle.dmr_compare.specs.Status.{counted_status};

use crate::line::Line;
use crate::status::{DIFFERENT, SAME};

/// How many slots of two recordings, or records of two lists, are the same, and how many aren't.
#[derive(Clone, Copy, Debug, Default, Drop, PartialEq, Eq)]
pub struct PlaceCounts {
    /// That both have, and that are the same.
    pub same: u32,
    /// That both have, and that differ.
    pub different: u32,
    /// That the first has behind the end of the second.
    pub only_in_first: u32,
    /// That the second has behind the end of the first.
    pub only_in_second: u32,
}

impl PlaceCounts {
    /// How many slots or records were compared, or stand in one of the two alone.
    pub fn places(&self) -> u64
        ensures value { result ≡ places_in self.now }
    {
        u64::from(self.same)
            + u64::from(self.different)
            + u64::from(self.only_in_first)
            + u64::from(self.only_in_second)
    }

    /// The exit status of a comparison that counted this.
    pub fn status(&self) -> u8
        ensures value { result ≡ counted_status self.now }
    {
        if self.different == 0 && self.only_in_first == 0 && self.only_in_second == 0 {
            SAME
        } else {
            DIFFERENT
        }
    }

    /// The line that tells them.
    pub(crate) fn line(&self) -> Line
        ensures value { result ≡ counts_line self.now }
    {
        let mut line = Line::new();
        line.add_number(b"records ", self.places());
        line.add_number(b" same ", u64::from(self.same));
        line.add_number(b" different ", u64::from(self.different));
        line.add_number(b" only-in-A ", u64::from(self.only_in_first));
        line.add_number(b" only-in-B ", u64::from(self.only_in_second));
        line.add(b"\n");
        line
    }
}
