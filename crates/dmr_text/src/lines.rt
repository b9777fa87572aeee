//! The lines of a text, one by one.
ghost use Rattle.std.specs.Prelude.{◌≡◌, ◌^◌, ◌<◌, ◌≤◌, length};
ghost use Rattle.dmr_record.specs.Outgoing.{whole_sending};
ghost use Rattle.dmr_record.specs.Received.{receipt_of};
ghost use Rattle.dmr_text.specs.Files.{last_line};
ghost use Rattle.dmr_text.specs.Spelling.{burst_line, title_line, receipt_line, sending_line};
ghost use Rattle.dmr_text.specs.Spelling.{confirmed_word, format_word, kind_word, rate_word};

use crate::carried::Carried;
use crate::line::Line;
use dmr_record::{FileFormat, OutgoingRecord, Received, ReceivedKind};
use dmr_recording::{Place, RecordedBurst};

/// What a first line calls a file of this format.
fn format_word(format: FileFormat) -> &'static str
    ensures word { result.now ≡ format_word format }
    ensures short { length result.now ≤ 8 }
{
    match format {
        FileFormat::Uplink => "uplink",
        FileFormat::Downlink => "downlink",
        FileFormat::Outgoing => "outgoing",
        FileFormat::Received => "received",
    }
}

/// How a datagram is to be sent, as a word: as a confirmed packet or not.
fn confirmed_word(confirmed: bool) -> &'static str
    ensures word { result.now ≡ confirmed_word confirmed }
    ensures short { length result.now ≤ 11 }
{
    if confirmed {
        "confirmed"
    } else {
        "unconfirmed"
    }
}

/// The same of its rate.
fn rate_word(full: bool) -> &'static str
    ensures word { result.now ≡ rate_word full }
    ensures short { length result.now ≤ 4 }
{
    if full { "full" } else { "half" }
}

/// What the octets of a received record are, as a word.
fn kind_word(kind: ReceivedKind) -> &'static str
    ensures word { result.now ≡ kind_word kind }
    ensures short { length result.now ≤ 10 }
{
    match kind {
        ReceivedKind::Datagram => "datagram",
        ReceivedKind::ShortData => "short-data",
        ReceivedKind::Status => "status",
    }
}

/// Makes the line that a text of a file of this format begins with.
pub(crate) fn make_title(line: &mut Line, format: FileFormat)
    ensures line { line.new ≡ title_line format }
{
    line.begin_with("dmrgate");
    line.word_behind(format_word(format));
    line.word_behind("1");
    line.end();
}

/// Makes the line of a burst.
pub(crate) fn make_burst(line: &mut Line, place: Place, burst: &RecordedBurst)
    ensures line { line.new ≡ burst_line place burst.now }
{
    line.begin(place.frame, place.slot);
    if let Some(cach) = &burst.cach {
        line.octets_behind(cach);
    }
    line.octets_behind(&burst.burst);
    line.end();
}

/// Makes the line of an outgoing record with these octets.
pub(crate) fn make_outgoing(line: &mut Line, sending: OutgoingRecord, octets: &[u8])
    requires short { length octets.now < 2 ^ 16 }
    ensures line { line.new ≡ sending_line (whole_sending sending octets.now) }
{
    line.begin(sending.frame, sending.slot);
    line.word_behind(confirmed_word(sending.confirmed));
    line.word_behind(rate_word(sending.full));
    line.octets_behind(octets);
    line.end();
}

/// Makes the line of a received record with these octets.
pub(crate) fn make_received(line: &mut Line, received: Received, octets: &[u8])
    requires short { length octets.now < 2 ^ 16 }
    ensures line { line.new ≡ receipt_line (receipt_of received octets.now) }
{
    line.begin(received.frame, received.slot);
    line.word_behind(kind_word(received.kind));
    line.number_behind(received.source);
    line.octets_behind(octets);
    line.end();
}

/// Makes the line that the text of a file that holds so much ends with.
pub(crate) fn make_last(line: &mut Line, carried: Carried)
    ensures line { line.new ≡ last_line carried }
{
    match carried {
        Carried::Recording { frames } => {
            line.begin_with("frames");
            line.number_behind(frames);
        }
        Carried::List { records } => {
            line.begin_with("records");
            line.number_behind(records);
        }
    }
    line.end();
}
