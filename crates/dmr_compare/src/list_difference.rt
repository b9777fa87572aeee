//! What differs of two records with one number in two lists.
ghost use Rattle.std.specs.Prelude.{◌≡◌, ◌≤◌, ◌++◌, false, true, length, IfNone, IfSome, OnOk};
ghost use Rattle.std.specs.Io.KnownBytes.{Appends};
ghost use Rattle.dmr_compare.specs.ListReading.{record_with};
ghost use Rattle.dmr_compare.specs.ListRecords.{ending_of_records, is_same_record, told_of_records};
ghost use Rattle.dmr_compare.specs.Printed.{PutsDifference, PutsLineThatEnds};
ghost use Rattle.dmr_lines.specs.Line.{PutsLine, line_octets};
ghost use Rattle.dmr_record.specs.Devices.{failed_after};

use crate::line::Line;
use crate::list_record::{RecordHead, differing_octets};
use dmr_lines::{SUCCESS, line_of, print_line};
use dmr_listing::{OutgoingLine, ReceivedLine};
use dmr_octets::Octets;
use dmr_record::{DeviceFault, Outgoing, OutgoingRecord, Sink, put};
use std::fmt::{self, Write};

/// What differs of two records that two lists have in one place.
#[derive(Clone, Copy, Drop)]
pub(crate) enum RecordDifference {
    /// Fields, and octets or not.
    Fields,
    /// So many octets alone.
    Octets(usize),
}

/// A record of a list, as its listing shows it.
#[derive(Clone, Copy, Drop)]
struct RecordText<'a> {
    head: RecordHead,
    octets: &'a [u8],
}

/// An outgoing record as a listing has it, which keeps the first of its octets.
fn kept_outgoing(record: OutgoingRecord, octets: &[u8]) -> Outgoing {
    let mut kept = Octets::new();
    kept.keep(octets);
    Outgoing {
        frame: record.frame,
        slot: record.slot,
        confirmed: record.confirmed,
        full: record.full,
        length: record.length,
        octets: kept,
    }
}

impl fmt::Display for RecordText<'_> {
    fn fmt<W: fmt::Write>(&self, f: &mut fmt::Formatter<W>) -> fmt::Result {
        match self.head {
            RecordHead::Outgoing(record) => {
                let kept = kept_outgoing(record, self.octets);
                write!(f, "{}", OutgoingLine { record: &kept })
            }
            RecordHead::Received(record) => {
                let octets = self.octets;
                write!(f, "{}", ReceivedLine { record, octets })
            }
        }
    }
}

/// Makes the text of a record behind the letter of its list. There is room for every line, and nothing else could cut it.
fn make_text(text: &mut String, letter: &str, record: &RecordText<'_>) {
    text.clear();
    let _ = write!(text, "{letter}  {record}");
}

/// Prints the line of the first record.
fn print_first<K: Sink>(
    record: &RecordText<'_>,
    text: &mut String,
    sink: &mut K,
) -> Result<(), DeviceFault>
    requires sink { K.has_failed sink.old ≡ false }
    ensures line { OnOk result (PutsLine (K.held sink.old) (K.held sink.new)) }
    ensures failed { K.has_failed sink.new ≡ failed_after (K.has_failed sink.old) result }
{
    make_text(text, "A", record);
    match print_line(sink, line_of(text.as_str()), SUCCESS) {
        SUCCESS => Ok(()),
        _ => Err(DeviceFault),
    }
}

/// Prints a text and what stands behind it.
fn put_both<K: Sink>(shown: &str, behind: &Line, sink: &mut K) -> Result<(), DeviceFault>
    requires sink { K.has_failed sink.old ≡ false }
    ensures octets { OnOk result (Appends (K.held sink.old) (K.held sink.new) (shown.now ++ behind.now)) }
    ensures failed { K.has_failed sink.new ≡ failed_after (K.has_failed sink.old) result }
{
    if put(sink, shown.as_bytes()).is_err() {
        return Err(DeviceFault);
    }
    match put(sink, behind.as_slice()) {
        Ok(()) => Ok(()),
        Err(_) => Err(DeviceFault),
    }
}

impl RecordDifference {
    /// What differs of two records, if something does.
    pub(crate) fn between(
        first: RecordHead,
        first_octets: &[u8],
        second: RecordHead,
        second_octets: &[u8],
    ) -> Option<RecordDifference>
        requires first { length first_octets.now ≤ 65535 }
        requires second { length second_octets.now ≤ 65535 }
        ensures none { IfNone result (
            is_same_record (record_with first first_octets.now) (record_with second second_octets.now) ≡ true) }
        ensures some { IfSome result (λ difference.
            (is_same_record (record_with first first_octets.now) (record_with second second_octets.now) ≡ false)
            × (ending_of_records difference
            ≡ told_of_records (record_with first first_octets.now) (record_with second second_octets.now))) }
    {
        if !first.has_same_fields(second) {
            return Some(RecordDifference::Fields);
        }
        match differing_octets(first_octets, second_octets) {
            0 => None,
            count => Some(RecordDifference::Octets(count)),
        }
    }

    /// What the line of the second record ends with: how many octets differ, where only octets do, and the end of the line.
    fn ending(&self) -> Line
        ensures value { result ≡ line_octets (ending_of_records self.now) }
    {
        let mut line = Line::new();
        match self {
            RecordDifference::Fields => {}
            RecordDifference::Octets(count) => {
                line.add_number(b"  [differ: ", *count as u64);
                line.add(b" octets]");
            }
        }
        line.add(b"\n");
        line
    }

    /// Prints the line of the second record, which ends with how many octets differ.
    fn print_second<K: Sink>(
        &self,
        record: &RecordText<'_>,
        text: &mut String,
        sink: &mut K,
    ) -> Result<(), DeviceFault>
        requires sink { K.has_failed sink.old ≡ false }
        ensures line { OnOk result (PutsLineThatEnds (ending_of_records self.now) (K.held sink.old) (K.held sink.new)) }
        ensures failed { K.has_failed sink.new ≡ failed_after (K.has_failed sink.old) result }
    {
        make_text(text, "B", record);
        put_both(line_of(text.as_str()), &self.ending(), sink)
    }

    /// Prints the two lines of a difference: what each list has there. `text` is room for a line, and may hold anything.
    pub(crate) fn print<K: Sink>(
        &self,
        first: RecordHead,
        first_octets: &[u8],
        second: RecordHead,
        second_octets: &[u8],
        text: &mut String,
        sink: &mut K,
    ) -> Result<(), DeviceFault>
        requires sink { K.has_failed sink.old ≡ false }
        ensures lines { OnOk result (PutsDifference (ending_of_records self.now) (K.held sink.old) (K.held sink.new)) }
        ensures failed { K.has_failed sink.new ≡ failed_after (K.has_failed sink.old) result }
    {
        let one = RecordText {
            head: first,
            octets: first_octets,
        };
        let other = RecordText {
            head: second,
            octets: second_octets,
        };
        print_first(&one, text, sink)?;
        self.print_second(&other, text, sink)
    }
}
