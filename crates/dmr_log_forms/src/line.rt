//! The lines of a log for people.
ghost use Rattle.std.specs.Prelude.{◌≡◌};
ghost use Rattle.dmr_log_forms.specs.Rows.{end_name};

use crate::columns::{CallEnd, EntryColumns};
use crate::details::{BlockDetails, HeaderDetails};
use crate::entry::{EntryDetails, LogEntry};
use crate::kind::EntryKind;
use crate::start_time::{Begin, StartTime};
use arrayvec::ArrayString;
use dmr_listing::{Contents, Counted};
use dmr_log::{Call, Checks, ControlKind, Packet, Subject};
use dmr_recording::Seconds;
use std::fmt;
use std::fmt::Write;

/// The line of an entry: when it begins and how long it takes, its first frame and its slot, in columns, and what it is.
#[derive(Clone, Copy, Drop)]
pub(crate) struct EntryLine<'a> {
    /// When the recording began, if that is known.
    pub start: Option<StartTime>,
    /// What has the line.
    pub entry: LogEntry<'a>,
}

impl CallEnd {
    /// What a log calls it.
    pub fn name(self) -> &'static str
        ensures value { result.now ≡ end_name self }
    {
        match self {
            CallEnd::Terminator => "terminator",
            CallEnd::Lost => "lost",
            CallEnd::Cut => "cut",
            CallEnd::End => "end",
        }
    }
}

/// Says of a call who calls whom, how many places it has, and how it ended.
fn write_call<W: fmt::Write>(
    call: &Call,
    end: Option<CallEnd>,
    f: &mut fmt::Formatter<W>,
) -> fmt::Result {
    match call.link_control {
        Some(link_control) => write!(f, "{}", Contents::LinkControl(link_control))?,
        None => write!(f, "{}", EntryKind::UnknownCall)?,
    }
    if call.is_late {
        write!(f, ", late")?;
    }
    match call.places {
        0 => write!(f, ", no voice")?,
        places => write!(f, ", {}", Counted(places as usize, "place"))?,
    }
    if call.filled > 0 {
        write!(f, ", {} filled", call.filled)?;
    }
    match end {
        Some(end) => write!(f, ", {}", end.name()),
        None => Ok(()),
    }
}

/// Says of a packet what it is, who sends it to whom, and how many of its blocks came.
fn write_packet<W: fmt::Write>(
    kind: EntryKind,
    packet: &Packet,
    f: &mut fmt::Formatter<W>,
) -> fmt::Result {
    let mut details: ArrayString<64> = ArrayString::new();
    write!(details, "{}", HeaderDetails(&packet.head))?;
    write!(f, "{kind} {}", packet.head.way())?;
    if !details.is_empty() {
        write!(f, ", {}", details.as_str())?;
    }
    match packet.head.blocks() {
        0 => Ok(()),
        blocks => {
            let blocks = Counted(usize::from(blocks), "block");
            write!(f, ", {} of {blocks}", packet.there)
        }
    }
}

/// Says of control blocks what they are, and how many there are.
fn write_controls<W: fmt::Write>(
    columns: &EntryColumns,
    controls: ControlKind,
    f: &mut fmt::Formatter<W>,
) -> fmt::Result {
    let kind = columns.kind;
    match (columns.way, controls) {
        (Some(way), _) => write!(f, "{kind} {way}")?,
        (None, ControlKind::Csbk { .. }) => write!(f, "{kind} {}", BlockDetails(controls))?,
        _ => write!(f, "{kind}")?,
    }
    match columns.bursts {
        Some(bursts) if bursts > 1 => write!(f, ", {bursts} bursts"),
        _ => Ok(()),
    }
}

/// How many bits are wrong, behind two spaces; nothing where none is.
#[derive(Clone, Copy, Drop)]
struct WrongBits(Option<Checks>);

impl fmt::Display for WrongBits {
    fn fmt<W: fmt::Write>(&self, f: &mut fmt::Formatter<W>) -> fmt::Result {
        match self.0 {
            Some(Checks { wrong, covered }) if wrong > 0 => {
                write!(f, "  [wrong: {wrong} of {covered} bits]")
            }
            _ => Ok(()),
        }
    }
}

impl EntryLine<'_> {
    /// Says what it is.
    fn write_what<W: fmt::Write>(
        &self,
        columns: &EntryColumns,
        f: &mut fmt::Formatter<W>,
    ) -> fmt::Result {
        match self.entry {
            LogEntry::Transmission { ended, .. } => match &ended.transmission.subject {
                Subject::Call(call) => write_call(call, columns.end, f),
                Subject::Packet(packet) => write_packet(columns.kind, packet, f),
                Subject::Controls(controls) => write_controls(columns, *controls, f),
            },
            LogEntry::Received { record, .. } => {
                let kind = columns.kind;
                let details = EntryDetails(&self.entry);
                write!(f, "{kind} from {}, {details}", record.source)
            }
        }
    }
}

impl fmt::Display for EntryLine<'_> {
    fn fmt<W: fmt::Write>(&self, f: &mut fmt::Formatter<W>) -> fmt::Result {
        let columns = self.entry.columns();
        let place = columns.place;
        let begin = Begin {
            start: self.start,
            milliseconds: place.milliseconds(),
        };
        let mut time: ArrayString<40> = ArrayString::new();
        write!(time, "{begin}")?;
        let mut seconds: ArrayString<32> = ArrayString::new();
        write!(seconds, "{}", Seconds(columns.milliseconds))?;
        write!(f, "{:>9} {:>8} ", time.as_str(), seconds.as_str())?;
        write!(f, "{:>7} {}  ", place.frame, place.slot)?;
        self.write_what(&columns, f)?;
        write!(f, "{}", WrongBits(columns.checks))
    }
}
