//! Where the octets of a file have got to.
ghost use Rattle.std.specs.Prelude.{◌≡◌, ◌<◌};
ghost use Rattle.dmr_watch.specs.Reached.{behind_tag, continued, fault_line_of, has_fields, is_told_behind, last_record, nothing};
ghost use Rattle.dmr_watch.specs.Reached.{place_of, reached_by, reached_with, spelled_with, tag_passed};

use dmr_record::{FileFormat, RecordFault};
use dmr_recording::{FaultLine, Place};

/// How many octets the head of a file has. This project's own, as the other numbers are.
const HEAD: u32 = 8;

/// Begins a slot with a burst.
const BURST: u8 = 1;

/// Where the octets of a file have got to, so far.
#[derive(Clone, Copy, Debug, Drop, PartialEq, Eq)]
pub struct Reached {
    /// How many octets there are.
    pub octets: u64,
    /// How many records were begun behind the head.
    pub records: u32,
    /// Where the last of them begins, in octets behind the begin of the file: 0 while there is none.
    pub begin: u64,
    /// How many octets are to come until what was begun is whole: the head, the fields of a record, or a record.
    pub left: u32,
    /// What was begun is the fields of a record, of which the last two octets say how many more the record has.
    pub is_in_fields: bool,
    /// The number that the last two octets of the record spell.
    pub spelled: u16,
}

/// How many octets stand behind the tag of a record: of a slot all, and of a record of a list its fields.
fn behind_tag(format: FileFormat, tag: u8) -> u32
    ensures value { result ≡ behind_tag format tag }
{
    match format {
        FileFormat::Uplink => if tag == BURST { 33 } else { 0 },
        FileFormat::Downlink => if tag == BURST { 36 } else { 0 },
        FileFormat::Outgoing => 8,
        FileFormat::Received => 11,
    }
}

/// Whether the records of a file have fields.
fn has_fields(format: FileFormat) -> bool
    ensures value { result ≡ has_fields format }
{
    match format {
        FileFormat::Uplink => false,
        FileFormat::Downlink => false,
        FileFormat::Outgoing => true,
        FileFormat::Received => true,
    }
}

/// The number that the last two octets spell, the higher first, with one octet more.
fn spelled_with(spelled: u16, octet: u8) -> u16
    ensures value { result ≡ spelled_with spelled octet }
{
    ((u32::from(spelled) * 256 + u32::from(octet)) % 65_536) as u16
}

/// Whether a fault is told of a record behind the octets, where no record has begun: the end of the file, or its device, is at
/// fault there.
fn is_behind(fault: RecordFault) -> bool
    ensures value { result ≡ is_told_behind fault }
{
    match fault {
        RecordFault::HalfFrame => true,
        RecordFault::Read => true,
        RecordFault::Write => true,
        RecordFault::Magic => false,
        RecordFault::Version => false,
        RecordFault::CutRecord => false,
        RecordFault::BadTag => false,
        RecordFault::FrameOrder => false,
        RecordFault::TooLong => false,
    }
}

/// The slot of a recording by its number, and none of a list.
fn place_of(format: FileFormat, number: u32) -> Option<Place>
    ensures value { result ≡ place_of format number }
{
    match format {
        FileFormat::Uplink => Some(Place::of_slot(number)),
        FileFormat::Downlink => Some(Place::of_slot(number)),
        FileFormat::Outgoing => None,
        FileFormat::Received => None,
    }
}

impl Reached {
    /// No octet so far, in front of the head.
    pub fn nothing() -> Reached
        ensures value { result ≡ nothing }
    {
        Reached {
            octets: 0,
            records: 0,
            begin: 0,
            left: HEAD,
            is_in_fields: false,
            spelled: 0,
        }
    }

    /// Behind the tag of a record.
    fn begun(self, format: FileFormat, tag: u8) -> Reached
        ensures value { result ≡ tag_passed format self tag }
    {
        Reached {
            octets: self.octets.saturating_add(1),
            records: self.records.saturating_add(1),
            begin: self.octets,
            left: behind_tag(format, tag),
            is_in_fields: has_fields(format),
            spelled: 0,
        }
    }

    /// Behind an octet of what was begun.
    fn continued(self, octet: u8) -> Reached
        requires inside { 0 < self.left }
        ensures value { result ≡ continued self octet }
    {
        let spelled = spelled_with(self.spelled, octet);
        let are_fields_whole = self.is_in_fields && self.left == 1;
        Reached {
            octets: self.octets.saturating_add(1),
            records: self.records,
            begin: self.begin,
            left: if are_fields_whole {
                u32::from(spelled)
            } else {
                self.left - 1
            },
            is_in_fields: self.is_in_fields && !are_fields_whole,
            spelled,
        }
    }

    /// Behind one octet more.
    pub fn with(self, format: FileFormat, octet: u8) -> Reached
        ensures value { result ≡ reached_with format self octet }
    {
        if self.left == 0 {
            self.begun(format, octet)
        } else {
            self.continued(octet)
        }
    }

    /// Behind more octets.
    pub fn by(self, format: FileFormat, octets: &[u8]) -> Reached
        ensures value { result ≡ reached_by format self octets.now }
    {
        let mut reached = self;
        for octet in octets {
            reached = reached.with(format, *octet);
        }
        reached
    }

    /// The number of the record that was begun last, from 0 on, where one was.
    fn number(self) -> Option<u32>
        ensures value { result ≡ last_record self }
    {
        self.records.checked_sub(1)
    }

    /// A fault of the file with its place: where the record begins that is at fault, and in a recording its frame and its slot.
    pub fn fault_line(self, format: FileFormat, fault: RecordFault) -> FaultLine
        ensures value { result ≡ fault_line_of format self fault }
    {
        if is_behind(fault) && self.left == 0 {
            return FaultLine {
                fault,
                octet: self.octets,
                place: place_of(format, self.records),
            };
        }
        FaultLine {
            fault,
            octet: self.begin,
            place: match self.number() {
                Some(number) => place_of(format, number),
                None => None,
            },
        }
    }
}
