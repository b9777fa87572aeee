//! Where the files of a run are.
ghost use Rattle.std.specs.Prelude.{◌≡◌};
ghost use Rattle.dmr_command.specs.Places.{is_standard_if_any, share_input, share_output, take_output};

use dmr_files::Place;

/// Where the files of a run are. Without an outgoing list there are no datagrams to send, and without a received file what is
/// received is counted, and not kept.
#[derive(Clone, Copy)]
pub struct Places<'a> {
    pub uplink: Place<'a>,
    pub outgoing: Option<Place<'a>>,
    pub downlink: Place<'a>,
    pub received: Option<Place<'a>>,
}

/// Whether a place that may be left out is a standard stream.
fn is_standard_if_any(place: &Option<Place<'_>>) -> bool
    ensures standard { result ≡ is_standard_if_any place.now }
{
    match place {
        Some(place) => place.is_standard(),
        None => false,
    }
}

impl Places<'_> {
    /// Whether both inputs are standard input, which holds one file alone.
    pub(crate) fn share_input(&self) -> bool
        ensures share { result ≡ share_input self.now }
    {
        self.uplink.is_standard() && is_standard_if_any(&self.outgoing)
    }

    /// Whether both outputs are standard output.
    pub(crate) fn share_output(&self) -> bool
        ensures share { result ≡ share_output self.now }
    {
        self.downlink.is_standard() && is_standard_if_any(&self.received)
    }

    /// Whether an output is standard output, to which nothing else is printed then.
    pub fn take_output(&self) -> bool
        ensures take { result ≡ take_output self.now }
    {
        self.downlink.is_standard() || is_standard_if_any(&self.received)
    }
}
