//! What the words of a command line ask for.
ghost use Rattle.std.specs.Prelude.{◌≡◌, false, Some, codes, option_map};
ghost use Rattle.clap.specs.Words.{found_of};
ghost use Rattle.dmr_files.specs.Place.{IsNamed};
ghost use Rattle.dmr_options.specs.Found.{IsNumberOf, text_of};
ghost use Rattle.dmr_tools.specs.LogRequest.{AreLogSettings, IsLogFormOf, log_form_by};
ghost use Rattle.dmr_tools.specs.Filters.{IsFilterOf, is_backwards};
ghost use Rattle.dmr_tools.specs.Request.{IsAskedOfTools, IsFormOf, form_by};
ghost use Rattle.dmr_tools.specs.Request.{ArePairPlaces};

use crate::comparison::Comparison;
use crate::damaging::{damage_of, seed_of};
use crate::datagrams::{exported_slot_of, import_settings_of, start_of};
use crate::hotspot::{burst_settings_of, hotspot_settings_of};
use crate::make_places::MakePlaces;
use clap::{ArgMatches, Error};
use dmr_damage::Damage;
use dmr_datagrams::{ExportSettings, ImportSettings};
use dmr_files::Place;
use dmr_log_forms::{LogForm, LogSettings, StartTime};
use dmr_log_page::PageSettings;
use dmr_options::{Listed, flag_of, given_text_of, text_of};
use dmr_show::{Filter, Form};
use dmr_tool_options::tool_commands;
use std::alloc::Global;
use std::convert::AsStr;

/// A format of which a file of a run is made.
#[derive(Clone, Copy, Debug, PartialEq, Eq)]
pub enum ImportFormat {
    /// Lines of text, which say any of the four files.
    Text,
    /// A capture of packets, whose datagrams become an outgoing list.
    Datagrams(ImportSettings),
    /// A capture of packets of a hotspot, whose bursts become a recording.
    Dmrd(dmr_dmrd::ImportSettings),
}

/// A format in which a file of a run is written.
#[derive(Clone, Copy, Debug, PartialEq, Eq)]
pub enum ExportFormat {
    /// Lines of text, for any of the four files.
    Text,
    /// A capture of packets, with the datagrams of a received list.
    Datagrams(ExportSettings),
    /// A capture of packets of a hotspot, with the repeated bursts of a downlink.
    Dmrd(dmr_dmrd_export::ExportSettings),
}

/// Where a file stands that is carried, and where it goes.
#[derive(Clone, Copy)]
pub struct PairPlaces<'a> {
    pub input: Place<'a>,
    pub output: Place<'a>,
}

/// Why the settings of a log are refused.
#[derive(Clone, Copy, Debug, PartialEq, Eq)]
pub enum LogRefusal {
    /// The lines that are asked for begin beyond their end.
    Backwards,
    /// When the recording began is no time.
    Time,
}

/// What the words of a command line ask for.
#[derive(Clone, Copy)]
pub enum Request<'a> {
    /// To show the file of this name in a form, as far as a filter lets its lines pass.
    Show {
        name: &'a str,
        form: Form,
        filter: Filter,
    },
    /// To show frames from one on that is beyond the last.
    Backwards,
    /// To print the log of the recording of this name.
    Log {
        name: &'a str,
        settings: LogSettings,
    },
    /// To print the log of the recording of this name as a page.
    LogPage {
        name: &'a str,
        settings: PageSettings,
    },
    /// To print a log with settings that are refused.
    LogRefused(LogRefusal),
    /// To make a recording of a script.
    Make(MakePlaces<'a>),
    /// To make a recording and an outgoing list, which would both be standard output.
    SharedOutput,
    /// To write a recording with wrong bits.
    Damage {
        damage: Damage,
        seed: u64,
        places: PairPlaces<'a>,
    },
    /// To compare two files.
    Compare(Comparison<'a>),
    /// To compare standard input with itself.
    SharedInput,
    /// To make a file of what is in a format.
    Import {
        format: ImportFormat,
        places: PairPlaces<'a>,
    },
    /// To write a file in a format.
    Export {
        format: ExportFormat,
        places: PairPlaces<'a>,
    },
    /// To write a capture of what began at what is no time of a capture.
    NoStart,
    /// A command that another program has, by its name.
    Elsewhere(&'a str),
}

/// The lines that a command line of `show` asks for.
fn filter_of(show: &ArgMatches<'_>) -> Filter
    ensures filter { IsFilterOf (found_of show.now) result }
{
    Filter {
        slot: show.get_one::<u8>("slot"),
        from: show.get_one::<u32>("from"),
        to: show.get_one::<u32>("to"),
    }
}

/// The form by the two options that ask for one.
fn form_by(strip: bool, json: bool) -> Form
    ensures value { result ≡ form_by strip json }
{
    match (strip, json) {
        (true, _) => Form::Strip,
        (false, true) => Form::Json,
        (false, false) => Form::Listing,
    }
}

/// The form that a command line of `show` asks for.
fn form_of(show: &ArgMatches<'_>) -> Form
    ensures form { IsFormOf (found_of show.now) result }
{
    form_by(flag_of(show, "strip"), flag_of(show, "json"))
}

/// Whether a filter begins beyond its end.
fn is_backwards(filter: &Filter) -> bool
    ensures backwards { result ≡ is_backwards filter.now }
{
    match (filter.from, filter.to) {
        (Some(from), Some(to)) => from > to,
        _ => false,
    }
}

/// What a command line of `show` asks for.
fn show_request<'a>(show: &ArgMatches<'a>) -> Request<'a>
    ensures asked { IsAskedOfTools (Some (record { 0 = codes "show"; 1 = show.now })) result }
{
    let filter = filter_of(show);
    if is_backwards(&filter) {
        return Request::Backwards;
    }
    Request::Show {
        name: text_of(show, "file"),
        form: form_of(show),
        filter,
    }
}

/// The form of a log by the two options that ask for one.
fn log_form_by(csv: bool, json: bool) -> LogForm
    ensures value { result ≡ log_form_by csv json }
{
    match (csv, json) {
        (true, _) => LogForm::Table,
        (false, true) => LogForm::Json,
        (false, false) => LogForm::Lines,
    }
}

/// The form that a command line of `log` asks for.
fn log_form_of(log: &ArgMatches<'_>) -> LogForm
    ensures form { IsLogFormOf (found_of log.now) result }
{
    log_form_by(flag_of(log, "csv"), flag_of(log, "json"))
}

/// The colour code, which has a default.
fn colour_of(log: &ArgMatches<'_>) -> u8
    ensures number { IsNumberOf 8 (found_of log.now) (codes "colour") result }
{
    match log.get_one::<u8>("colour") {
        Some(colour) => colour,
        None => 0,
    }
}

/// The settings of a command line of `log`, without when the recording began.
fn log_settings_of(log: &ArgMatches<'_>) -> LogSettings
    ensures settings { AreLogSettings (found_of log.now) result }
{
    LogSettings {
        colour: colour_of(log),
        address: log.get_one::<u32>("llid"),
        form: log_form_of(log),
        start: None,
        filter: filter_of(log),
    }
}

/// What a command line of `log` asks for, with these settings: a page where it asks for one, which has no other form and leaves
/// nothing out.
fn log_of<'a>(log: &ArgMatches<'a>, settings: LogSettings) -> Request<'a>
    requires settings { AreLogSettings (found_of log.now) settings }
    requires forwards { is_backwards settings.filter ≡ false }
    ensures asked { IsAskedOfTools (Some (record { 0 = codes "log"; 1 = log.now })) result }
{
    let name = text_of(log, "uplink");
    if flag_of(log, "html") {
        return Request::LogPage {
            name,
            settings: PageSettings {
                colour: settings.colour,
                address: settings.address,
                start: settings.start,
            },
        };
    }
    Request::Log { name, settings }
}

/// What a command line of `log` asks for.
fn log_request<'a>(log: &ArgMatches<'a>) -> Request<'a>
    ensures asked { IsAskedOfTools (Some (record { 0 = codes "log"; 1 = log.now })) result }
{
    let settings = log_settings_of(log);
    if is_backwards(&settings.filter) {
        return Request::LogRefused(LogRefusal::Backwards);
    }
    let Some(text) = given_text_of(log, "start") else {
        return log_of(log, settings);
    };
    match StartTime::read(text) {
        Some(start) => log_of(
            log,
            LogSettings {
                start: Some(start),
                ..settings
            },
        ),
        None => Request::LogRefused(LogRefusal::Time),
    }
}

/// The place that a word of a command line names.
pub(crate) fn place_of<'a>(matches: &ArgMatches<'a>, word: &str) -> Place<'a>
    ensures place { IsNamed (text_of (found_of matches.now) word.now) result }
{
    Place::named(text_of(matches, word))
}

/// The places of a command that makes one file of another.
fn places_of<'a>(files: &ArgMatches<'a>) -> PairPlaces<'a>
    ensures places { ArePairPlaces (found_of files.now) result }
{
    PairPlaces {
        input: place_of(files, "input"),
        output: place_of(files, "output"),
    }
}

/// What a command line of `make` asks for.
fn make_request<'a>(make: &ArgMatches<'a>) -> Request<'a>
    ensures asked { IsAskedOfTools (Some (record { 0 = codes "make"; 1 = make.now })) result }
{
    let places = MakePlaces::of(make);
    if places.are_both_to_output() {
        return Request::SharedOutput;
    }
    Request::Make(places)
}

/// What a command line of `damage` asks for.
fn damage_request<'a>(damage: &ArgMatches<'a>) -> Request<'a>
    ensures asked { IsAskedOfTools (Some (record { 0 = codes "damage"; 1 = damage.now })) result }
{
    Request::Damage {
        damage: damage_of(damage),
        seed: seed_of(damage),
        places: places_of(damage),
    }
}

/// What a command line of `compare` asks for.
fn compare_request<'a>(compare: &ArgMatches<'a>) -> Request<'a>
    ensures asked { IsAskedOfTools (Some (record { 0 = codes "compare"; 1 = compare.now })) result }
{
    let comparison = Comparison::of(compare);
    if comparison.shares_input() {
        return Request::SharedInput;
    }
    Request::Compare(comparison)
}

/// What a command line of `import` asks for.
fn import_request<'a>(import: &ArgMatches<'a>) -> Request<'a>
    ensures asked { IsAskedOfTools (Some (record { 0 = codes "import"; 1 = import.now })) result }
{
    match import.subcommand() {
        Some(("text", files)) => Request::Import {
            format: ImportFormat::Text,
            places: places_of(files),
        },
        Some(("datagrams", files)) => Request::Import {
            format: ImportFormat::Datagrams(import_settings_of(files)),
            places: places_of(files),
        },
        Some(("dmrd", files)) => Request::Import {
            format: ImportFormat::Dmrd(hotspot_settings_of(files)),
            places: places_of(files),
        },
        // Not reached, since a format is required, and there is no other.
        _ => Request::Elsewhere("import"),
    }
}

/// What a command line of `export` asks for.
fn export_request<'a>(export: &ArgMatches<'a>) -> Request<'a>
    ensures asked { IsAskedOfTools (Some (record { 0 = codes "export"; 1 = export.now })) result }
{
    match export.subcommand() {
        Some(("text", files)) => Request::Export {
            format: ExportFormat::Text,
            places: places_of(files),
        },
        Some(("datagrams", files)) => match start_of(files) {
            Some(start) => Request::Export {
                format: ExportFormat::Datagrams(ExportSettings {
                    slot: exported_slot_of(files),
                    start,
                }),
                places: places_of(files),
            },
            None => Request::NoStart,
        },
        Some(("dmrd", files)) => {
            let Some(settings) = burst_settings_of(files) else {
                return Request::NoStart;
            };
            Request::Export {
                format: ExportFormat::Dmrd(settings),
                places: places_of(files),
            }
        }
        // Not reached, since a format is required, and there is no other.
        _ => Request::Elsewhere("export"),
    }
}

/// What a command with its options asks for.
pub(crate) fn request_by<'a>(command: Option<(&'a str, &ArgMatches<'a>)>) -> Request<'a>
    ensures asked { IsAskedOfTools (option_map (λ c. (c.0.now, c.1.now)) command.entry) result }
{
    // Not reached, since a command is required.
    let Some((name, given)) = command else {
        return Request::Elsewhere("");
    };
    // Not reached, since the parser knows no other name.
    let Some(listed) = Listed::named(name) else {
        return Request::Elsewhere(name);
    };
    match listed {
        Listed::Show => show_request(given),
        Listed::Log => log_request(given),
        Listed::Make => make_request(given),
        Listed::Damage => damage_request(given),
        Listed::Compare => compare_request(given),
        Listed::Import => import_request(given),
        Listed::Export => export_request(given),
        Listed::Run | Listed::Slot => Request::Elsewhere(name),
    }
}

/// What the words of a command line ask for, of which the first is the program's name. The error has the text for whoever wrote
/// them, which is help or the version where these are asked for.
pub fn request_of<'a, T: AsStr>(alloc: Global, words: &'a [T]) -> Result<Request<'a>, Error> {
    let matches = tool_commands(alloc)?.try_get_matches_from(words)?;
    Ok(request_by(matches.subcommand()))
}
