//! What the options of captures of datagrams ask for.
ghost use Rattle.std.specs.Prelude.{◌≡◌, ◌↔◌, IsTrue, codes};
ghost use Rattle.clap.specs.Words.{found_of};
ghost use Rattle.dmr_options.specs.Found.{IsGivenBy, IsNumberOf};
ghost use Rattle.dmr_record.specs.Received.{IsSlot};
ghost use Rattle.dmr_tools.specs.Datagrams as spec;

use clap::ArgMatches;
use dmr_datagrams::ImportSettings;
use dmr_options::{flag_of, given_text_of};
use jiff::Timestamp;

/// The slot in which datagrams are to be sent, which has to be given.
fn slot_of(import: &ArgMatches<'_>) -> u8
    ensures number { IsNumberOf 8 (found_of import.now) (codes "slot") result }
{
    import.get_one::<u8>("slot").unwrap_or(1)
}

/// The frame of the first of them, which has a default.
fn first_frame_of(import: &ArgMatches<'_>) -> u32
    ensures number { IsNumberOf 32 (found_of import.now) (codes "first-frame") result }
{
    import.get_one::<u32>("first-frame").unwrap_or(0)
}

/// How the datagrams of a capture are to be sent.
pub(crate) fn import_settings_of(import: &ArgMatches<'_>) -> ImportSettings
    ensures settings { spec.AreImportSettings (found_of import.now) result }
{
    ImportSettings {
        slot: slot_of(import),
        confirmed: flag_of(import, "confirmed"),
        full: flag_of(import, "full-rate"),
        first_frame: first_frame_of(import),
    }
}

/// Whether this is the number of a slot.
pub(crate) fn is_slot(number: u8) -> bool
    ensures slot { IsTrue result ↔ IsSlot number }
{
    number == 1 || number == 2
}

/// The slot whose datagrams are written, if one alone is asked for.
pub(crate) fn exported_slot_of(export: &ArgMatches<'_>) -> Option<u8>
    ensures number { IsGivenBy 8 (found_of export.now) (codes "slot") result }
{
    export.get_one::<u8>("slot")
}

/// How many microseconds behind the begin of the year 1970 this time of RFC 3339 is, where it isn't before that.
fn microseconds_of(text: &str) -> Option<u64> {
    let start = text.parse::<Timestamp>().ok()?;
    u64::try_from(start.as_microsecond()).ok()
}

/// When the run began, in microseconds behind the begin of the year 1970: then, where nothing is told. None is a text that is no
/// such time.
pub(crate) fn start_of(export: &ArgMatches<'_>) -> Option<u64> {
    match given_text_of(export, "start") {
        Some(text) => microseconds_of(text),
        None => Some(0),
    }
}
