//! What the words of a command line ask for.
ghost use Rattle.std.specs.Prelude.{Some, codes, option_map};
ghost use Rattle.clap.specs.Words.{found_of};
ghost use Rattle.dmr_command.specs.Request.{ArePlacesOf, AreSettingsOf, IsAskedBy, IsPlaceIfGiven, IsPlaceOf};
ghost use Rattle.dmr_options.specs.Found.{IsNumberOf};

use crate::places::Places;
use clap::{ArgMatches, Error};
use dmr_files::Place;
use dmr_options::{Listed, flag_of, given_text_of, repeating_commands, text_of};
use dmr_settings::{Config, ConfigFault};
use std::alloc::Global;
use std::convert::AsStr;

/// A standard stream that two files of a run would share.
#[derive(Clone, Copy, Debug, PartialEq, Eq)]
pub enum SharedStream {
    /// Standard input, as the uplink and the outgoing list.
    Input,
    /// Standard output, as the downlink and the received file.
    Output,
}

/// What the words of a command line ask for.
#[derive(Clone, Copy)]
pub enum Request<'a> {
    /// To say what a burst is, of hexadecimal digits.
    Slot(&'a str),
    /// To run with these settings, or to say why they are refused, and whether to tell more of how the run ends.
    Run {
        config: Result<Config, ConfigFault>,
        places: Places<'a>,
        is_verbose: bool,
    },
    /// A run two files of which would be one standard stream.
    Shared(SharedStream),
    /// A command that another program has, by its name.
    Elsewhere(&'a str),
}

/// The place that an option of `run` names, which is required.
fn place_of<'a>(run: &ArgMatches<'a>, option: &str) -> Place<'a>
    ensures place { IsPlaceOf (found_of run.now) option.now result }
{
    Place::named(text_of(run, option))
}

/// The place that an option of `run` names, where it is given.
fn place_if_given<'a>(run: &ArgMatches<'a>, option: &str) -> Option<Place<'a>>
    ensures place { IsPlaceIfGiven (found_of run.now) option.now result }
{
    match given_text_of(run, option) {
        Some(name) => Some(Place::named(name)),
        None => None,
    }
}

/// Where a command line of `run` has its files.
fn places_of<'a>(run: &ArgMatches<'a>) -> Places<'a>
    ensures places { ArePlacesOf (found_of run.now) result }
{
    Places {
        uplink: place_of(run, "uplink"),
        outgoing: place_if_given(run, "outgoing"),
        downlink: place_of(run, "downlink"),
        received: place_if_given(run, "received"),
    }
}

/// A number of 8 bits, which has a default.
fn octet_of(run: &ArgMatches<'_>, option: &str) -> u8
    ensures number { IsNumberOf 8 (found_of run.now) option.now result }
{
    match run.get_one::<u8>(option) {
        Some(number) => number,
        None => 0,
    }
}

/// A number of frames, of 16 bits, which has a default.
fn frames_of(run: &ArgMatches<'_>, option: &str) -> u16
    ensures number { IsNumberOf 16 (found_of run.now) option.now result }
{
    match run.get_one::<u16>(option) {
        Some(number) => number,
        None => 0,
    }
}

/// An address, a number of 32 bits, which is required.
fn address_of(run: &ArgMatches<'_>, option: &str) -> u32
    ensures number { IsNumberOf 32 (found_of run.now) option.now result }
{
    match run.get_one::<u32>(option) {
        Some(number) => number,
        None => 0,
    }
}

/// The settings of a command line of `run`.
fn config_of(run: &ArgMatches<'_>) -> Result<Config, ConfigFault>
    ensures settings { AreSettingsOf (found_of run.now) result }
{
    Config::new(
        octet_of(run, "colour"),
        address_of(run, "llid"),
        frames_of(run, "call-hang"),
        frames_of(run, "channel-hang"),
        octet_of(run, "queue"),
    )
}

/// What a command line of `run` asks for.
fn run_request<'a>(run: &ArgMatches<'a>) -> Request<'a>
    ensures asked { IsAskedBy (Some (record { 0 = codes "run"; 1 = found_of run.now })) result }
{
    let places = places_of(run);
    if places.share_input() {
        return Request::Shared(SharedStream::Input);
    }
    if places.share_output() {
        return Request::Shared(SharedStream::Output);
    }
    Request::Run {
        config: config_of(run),
        places,
        is_verbose: flag_of(run, "verbose"),
    }
}

/// What a command with its options asks for.
pub(crate) fn request_by<'a>(command: Option<(&'a str, &ArgMatches<'a>)>) -> Request<'a>
    ensures asked { IsAskedBy (option_map (λ c. (c.0.now, found_of c.1.now)) command.entry) result }
{
    // Not reached, since a command is required. No burst has no digits.
    let Some((name, given)) = command else {
        return Request::Slot("");
    };
    // Not reached, since the parser knows no other name.
    let Some(listed) = Listed::named(name) else {
        return Request::Elsewhere(name);
    };
    match listed {
        Listed::Run => run_request(given),
        Listed::Slot => Request::Slot(text_of(given, "burst")),
        Listed::Show
        | Listed::Log
        | Listed::Make
        | Listed::Damage
        | Listed::Compare
        | Listed::Import
        | Listed::Export => Request::Elsewhere(name),
    }
}

/// What the words of a command line ask for, of which the first is the program's name. The error has the text for whoever wrote
/// them, which is help or the version where these are asked for.
pub fn request_of<'a, T: AsStr>(alloc: Global, words: &'a [T]) -> Result<Request<'a>, Error> {
    let matches = repeating_commands(alloc)?.try_get_matches_from(words)?;
    Ok(request_by(matches.subcommand()))
}
