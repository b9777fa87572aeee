//! The objects of a log as JSON.
use crate::columns::{CallEnd, EntryColumns};
use crate::entry::{EntryDetails, LogEntry};
use crate::row::DETAILS;
use crate::start_time::{Begin, StartTime};
use arrayvec::ArrayString;
use dmr_listing::Way;
use dmr_log::Checks;
use dmr_recording::Seconds;
use std::fmt;
use std::fmt::Write;

/// The object of an entry: the same columns as those of a table. All its texts are fixed or digits, so nothing has to be escaped.
#[derive(Clone, Copy, Drop)]
pub(crate) struct EntryObject<'a> {
    /// When the recording began, if that is known.
    pub start: Option<StartTime>,
    /// What has the object.
    pub entry: LogEntry<'a>,
}

/// A value, or null where there is none.
#[derive(Clone, Copy, Drop)]
struct OrNull<T>(Option<T>);

impl<T: fmt::Display> fmt::Display for OrNull<T> {
    fn fmt<W: fmt::Write>(&self, f: &mut fmt::Formatter<W>) -> fmt::Result {
        match &self.0 {
            Some(value) => write!(f, "{value}"),
            None => write!(f, "null"),
        }
    }
}

/// When an entry begins: a number of seconds, or a string with a time of day.
#[derive(Clone, Copy, Drop)]
struct BeginValue(Begin);

impl fmt::Display for BeginValue {
    fn fmt<W: fmt::Write>(&self, f: &mut fmt::Formatter<W>) -> fmt::Result {
        match self.0.start {
            Some(_) => write!(f, "\"{}\"", self.0),
            None => write!(f, "{}", self.0),
        }
    }
}

/// The keys of who sends to whom.
#[derive(Clone, Copy, Drop)]
struct AddressKeys(Option<Way>);

impl fmt::Display for AddressKeys {
    fn fmt<W: fmt::Write>(&self, f: &mut fmt::Formatter<W>) -> fmt::Result {
        match self.0 {
            Some(way) => {
                let Way {
                    source,
                    to_group,
                    destination,
                } = way;
                write!(f, "\"from\":{source},\"to\":{destination},")?;
                write!(f, "\"group\":{to_group}")
            }
            None => write!(f, "\"from\":null,\"to\":null,\"group\":null"),
        }
    }
}

/// The keys of wrong bits.
#[derive(Clone, Copy, Drop)]
struct ChecksKeys(Option<Checks>);

impl fmt::Display for ChecksKeys {
    fn fmt<W: fmt::Write>(&self, f: &mut fmt::Formatter<W>) -> fmt::Result {
        match self.0 {
            Some(Checks { wrong, covered }) => {
                write!(f, "\"wrong\":{wrong},\"checked\":{covered}")
            }
            None => write!(f, "\"wrong\":null,\"checked\":null"),
        }
    }
}

/// The value of how a call ended.
#[derive(Clone, Copy, Drop)]
struct EndValue(Option<CallEnd>);

impl fmt::Display for EndValue {
    fn fmt<W: fmt::Write>(&self, f: &mut fmt::Formatter<W>) -> fmt::Result {
        match self.0 {
            Some(end) => write!(f, "\"{}\"", end.name()),
            None => write!(f, "null"),
        }
    }
}

/// The value of what else tells an entry apart.
#[derive(Clone, Copy, Drop)]
struct DetailsValue<'a>(&'a LogEntry<'a>);

impl fmt::Display for DetailsValue<'_> {
    fn fmt<W: fmt::Write>(&self, f: &mut fmt::Formatter<W>) -> fmt::Result {
        let mut details: ArrayString<DETAILS> = ArrayString::new();
        write!(details, "{}", EntryDetails(self.0))?;
        if details.is_empty() {
            write!(f, "null")
        } else {
            write!(f, "\"{}\"", details.as_str())
        }
    }
}

/// The keys of what a call or a packet has.
#[derive(Drop)]
struct CountKeys<'a>(&'a EntryColumns);

impl fmt::Display for CountKeys<'_> {
    fn fmt<W: fmt::Write>(&self, f: &mut fmt::Formatter<W>) -> fmt::Result {
        let columns = self.0;
        let options = OrNull(columns.options);
        let late = OrNull(columns.is_late);
        let bursts = OrNull(columns.bursts);
        write!(f, "\"options\":{options},\"late\":{late},")?;
        write!(f, "\"bursts\":{bursts},")?;
        let places = OrNull(columns.places);
        let filled = OrNull(columns.filled);
        write!(f, "\"places\":{places},\"filled\":{filled},")?;
        let blocks = OrNull(columns.blocks);
        let missing = OrNull(columns.missing);
        write!(f, "\"blocks\":{blocks},\"missing\":{missing}")
    }
}

impl fmt::Display for EntryObject<'_> {
    fn fmt<W: fmt::Write>(&self, f: &mut fmt::Formatter<W>) -> fmt::Result {
        let columns = self.entry.columns();
        let place = columns.place;
        let begin = BeginValue(Begin {
            start: self.start,
            milliseconds: place.milliseconds(),
        });
        let seconds = Seconds(columns.milliseconds);
        write!(f, "{{\"start\":{begin},\"seconds\":{seconds},")?;
        write!(f, "\"frame\":{},\"slot\":{},", place.frame, place.slot)?;
        let way = AddressKeys(columns.way);
        write!(f, "\"kind\":\"{}\",{way},", columns.kind.in_table())?;
        let counts = CountKeys(&columns);
        let checks = ChecksKeys(columns.checks);
        write!(f, "{counts},{checks},")?;
        let end = EndValue(columns.end);
        let details = DetailsValue(&self.entry);
        write!(f, "\"end\":{end},\"details\":{details}}}")
    }
}
