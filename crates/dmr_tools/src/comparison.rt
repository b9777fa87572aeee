//! What a command line of `compare` asks for.
ghost use Rattle.std.specs.Prelude.{◌≡◌};
ghost use Rattle.clap.specs.Words.{found_of};
ghost use Rattle.dmr_tools.specs.Comparison as spec;

use crate::request::place_of;
use clap::ArgMatches;
use dmr_compare::{CompareSettings, Ignored, Shift};
use dmr_files::Place;
use dmr_options::{flag_of, is_text_of};

/// Two files that are to be compared, and how.
#[derive(Clone, Copy)]
pub struct Comparison<'a> {
    /// Where the first is.
    pub first: Place<'a>,
    /// Where the second is.
    pub second: Place<'a>,
    /// What is compared of them.
    pub settings: CompareSettings,
}

/// The shift by so many frames, which are earlier ones where there are fewer than none.
fn shift_by(frames: i32) -> Shift
    ensures value { result ≡ spec.shift_by frames }
{
    let count = frames.unsigned_abs();
    if frames < 0 {
        Shift::Earlier(count)
    } else {
        Shift::Later(count)
    }
}

/// The shift that is given, if one is.
fn shift_of(compare: &ArgMatches<'_>) -> Option<Shift>
    ensures shift { spec.IsShiftOf (found_of compare.now) result }
{
    match compare.get_one::<i32>("shift") {
        Some(frames) => Some(shift_by(frames)),
        None => None,
    }
}

/// What is to be left out of bursts.
fn ignored_of(compare: &ArgMatches<'_>) -> Ignored
    ensures ignored { spec.IsIgnoredOf (found_of compare.now) result }
{
    Ignored {
        cach: is_text_of(compare, "ignore", "cach"),
        vocoder: is_text_of(compare, "ignore", "vocoder"),
    }
}

/// What is to be compared.
fn settings_of(compare: &ArgMatches<'_>) -> CompareSettings
    ensures settings { spec.AreCompareSettings (found_of compare.now) result }
{
    CompareSettings {
        shift: shift_of(compare),
        ignored: ignored_of(compare),
        is_quiet: flag_of(compare, "quiet"),
    }
}

impl<'a> Comparison<'a> {
    /// That of a command line.
    pub(crate) fn of(compare: &ArgMatches<'a>) -> Comparison<'a>
        ensures comparison { spec.IsComparisonOf (found_of compare.now) result }
    {
        Comparison {
            first: place_of(compare, "first"),
            second: place_of(compare, "second"),
            settings: settings_of(compare),
        }
    }

    /// Whether both files are standard input, which holds one file alone.
    pub(crate) fn shares_input(&self) -> bool
        ensures share { result ≡ spec.shares_input self.now }
    {
        self.first.is_standard() && self.second.is_standard()
    }
}
