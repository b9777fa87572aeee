//! Where the files of `make` are.
ghost use Rattle.std.specs.Prelude.{◌≡◌};
ghost use Rattle.clap.specs.Words.{found_of};
ghost use Rattle.dmr_tools.specs.Making as spec;

use crate::request::place_of;
use clap::ArgMatches;
use dmr_files::Place;
use dmr_options::given_text_of;

/// Where the files of `make` are: the script, and what is made of it. Without an outgoing list a script may have no datagrams to
/// send.
#[derive(Clone, Copy)]
pub struct MakePlaces<'a> {
    pub script: Place<'a>,
    pub uplink: Place<'a>,
    pub outgoing: Option<Place<'a>>,
}

/// The place that an option names, where it is given.
fn place_if_given<'a>(make: &ArgMatches<'a>, option: &str) -> Option<Place<'a>>
    ensures place { spec.IsNamedIfGiven (found_of make.now) option.now result }
{
    match given_text_of(make, option) {
        Some(name) => Some(Place::named(name)),
        None => None,
    }
}

/// Whether a place that may be left out is a standard stream.
fn is_list_to_output(place: &Option<Place<'_>>) -> bool
    ensures standard { result ≡ spec.is_list_to_output place.now }
{
    match place {
        Some(place) => place.is_standard(),
        None => false,
    }
}

impl<'a> MakePlaces<'a> {
    /// Those of a command line.
    pub(crate) fn of(make: &ArgMatches<'a>) -> MakePlaces<'a>
        ensures places { spec.AreMakePlaces (found_of make.now) result }
    {
        MakePlaces {
            script: place_of(make, "script"),
            uplink: place_of(make, "uplink"),
            outgoing: place_if_given(make, "outgoing"),
        }
    }

    /// Whether both outputs are standard output.
    pub(crate) fn are_both_to_output(&self) -> bool
        ensures share { result ≡ spec.are_both_to_output self.now }
    {
        self.uplink.is_standard() && is_list_to_output(&self.outgoing)
    }

    /// Whether an output is standard output, to which nothing else is printed then.
    pub(crate) fn is_any_to_output(&self) -> bool
        ensures take { result ≡ spec.is_any_to_output self.now }
    {
        self.uplink.is_standard() || is_list_to_output(&self.outgoing)
    }
}
