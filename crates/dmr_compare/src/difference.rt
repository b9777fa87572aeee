//! What differs in a place that two recordings have.
ghost use Rattle.std.specs.Prelude.{◌≡◌, ◌+◌, ◌≤◌, ◌++◌, false, true, length, IfNone, IfSome, OnOk};
ghost use Rattle.dmr_compare.specs.Kept.{is_same};
ghost use Rattle.dmr_compare.specs.Printed.{PutsDifference, PutsLineThatEnds, ending_of, told_of};
ghost use Rattle.dmr_lines.specs.Line.{PutsLine, line_octets};
ghost use Rattle.dmr_record.specs.Devices.{failed_after};

use crate::differing::Differing;
use crate::line::Line;
use crate::listed::SlotText;
use crate::settings::Ignored;
use arrayvec::ArrayString;
use dmr_lines::{SUCCESS, line_of, print_line};
use dmr_listing::ListedBurst;
use dmr_record::{DeviceFault, Sink, put};
use dmr_recording::Place;
use std::fmt::{self, Display, Write};

/// How many octets a line has at most in front of what tells the bits that differ.
const LONGEST_LINE: usize = 512;

/// What differs in a place that both recordings have.
#[derive(Clone, Copy, Drop)]
pub(crate) enum Difference {
    /// One of the two is silent there.
    Silence,
    /// Both have a burst, and so many bits differ.
    Bits(Differing),
}

/// What the first recording has in a place.
#[derive(Drop)]
struct FirstLine<'a> {
    place: Place,
    slot: &'a Option<ListedBurst>,
}

impl fmt::Display for FirstLine<'_> {
    fn fmt<W: fmt::Write>(&self, f: &mut fmt::Formatter<W>) -> fmt::Result {
        write!(f, "{}  A  {}", self.place, SlotText(self.slot))
    }
}

/// What the second recording has there.
#[derive(Drop)]
struct SecondLine<'a>(&'a Option<ListedBurst>);

impl fmt::Display for SecondLine<'_> {
    /// The columns of the place are left blank.
    fn fmt<W: fmt::Write>(&self, f: &mut fmt::Formatter<W>) -> fmt::Result {
        write!(f, "{:19}  B  {}", "", SlotText(self.0))
    }
}

/// The text of a line. There is room for every line, and nothing else could cut it.
fn text_of<T: Display>(line: &T) -> ArrayString<LONGEST_LINE> {
    let mut text = ArrayString::new();
    let _ = write!(text, "{line}");
    text
}

/// Prints the line of the first recording.
fn print_first<K: Sink>(line: &FirstLine<'_>, sink: &mut K) -> Result<(), DeviceFault>
    requires sink { K.has_failed sink.old ≡ false }
    ensures line { OnOk result (PutsLine (K.held sink.old) (K.held sink.new)) }
    ensures failed { K.has_failed sink.new ≡ failed_after (K.has_failed sink.old) result }
{
    let text = text_of(line);
    match print_line(sink, line_of(text.as_str()), SUCCESS) {
        SUCCESS => Ok(()),
        _ => Err(DeviceFault),
    }
}

impl Difference {
    /// What differs of two slots, if something does that isn't ignored.
    pub(crate) fn between(
        ignored: Ignored,
        first: &Option<ListedBurst>,
        second: &Option<ListedBurst>,
    ) -> Option<Difference>
        ensures none { IfNone result (is_same ignored first.now second.now ≡ true) }
        ensures some { IfSome result (λ difference. (is_same ignored first.now second.now ≡ false)
            × (ending_of difference ≡ told_of ignored first.now second.now)) }
    {
        match (first, second) {
            (None, None) => None,
            (Some(first), Some(second)) => {
                let differing = Differing::between(ignored, first, second);
                if differing.is_none() {
                    None
                } else {
                    Some(Difference::Bits(differing))
                }
            }
            (Some(_), None) | (None, Some(_)) => Some(Difference::Silence),
        }
    }

    /// Adds how many bits differ to a line, where both have a burst.
    fn add_to(&self, line: &mut Line)
        requires room { length line.old + 100 ≤ 640 }
        ensures value { line.new ≡ line.old ++ ending_of self.now }
        ensures length { length line.new ≤ length line.old + 100 }
    {
        match self {
            Difference::Silence => {}
            Difference::Bits(differing) => differing.add_to(line),
        }
    }

    /// The line of the second recording, behind what it has there, which is one line.
    fn line_behind(&self, shown: &str) -> Line
        requires short { length shown.now ≤ 512 }
        ensures value { result ≡ line_octets (shown.now ++ ending_of self.now) }
    {
        let mut line = Line::new();
        line.add(shown.as_bytes());
        self.add_to(&mut line);
        line.add(b"\n");
        line
    }

    /// Prints the line of the second recording, which ends with how many bits differ.
    #[tactic(auto, using(crate::proofs::Printed::length_first_line))]
    fn print_second<K: Sink>(&self, line: &SecondLine<'_>, sink: &mut K) -> Result<(), DeviceFault>
        requires sink { K.has_failed sink.old ≡ false }
        ensures line { OnOk result (PutsLineThatEnds (ending_of self.now) (K.held sink.old) (K.held sink.new)) }
        ensures failed { K.has_failed sink.new ≡ failed_after (K.has_failed sink.old) result }
    {
        let text = text_of(line);
        let whole = self.line_behind(line_of(text.as_str()));
        match put(sink, whole.as_slice()) {
            Ok(()) => Ok(()),
            Err(_) => Err(DeviceFault),
        }
    }

    /// Prints the two lines of a difference: what each recording has there.
    pub(crate) fn print<K: Sink>(
        &self,
        place: Place,
        first: &Option<ListedBurst>,
        second: &Option<ListedBurst>,
        sink: &mut K,
    ) -> Result<(), DeviceFault>
        requires sink { K.has_failed sink.old ≡ false }
        ensures lines { OnOk result (PutsDifference (ending_of self.now) (K.held sink.old) (K.held sink.new)) }
        ensures failed { K.has_failed sink.new ≡ failed_after (K.has_failed sink.old) result }
    {
        print_first(&FirstLine { place, slot: first }, sink)?;
        self.print_second(&SecondLine(second), sink)
    }
}
