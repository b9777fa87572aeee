//! From whom something is, and to whom.
ghost use Rattle.std.specs.Prelude.{◌≡◌, [], Some, if◌then◌else◌, codes};
ghost use Rattle.dmr_listing.specs.Texts.{way_text};

use dmr_data::Header;
use std::fmt;

/// The addresses of a sender and of whom it sends to.
#[derive(Clone, Copy, Drop)]
pub struct Way {
    /// The address of the sender, of 24 bits.
    pub source: u32,
    /// The destination is a talk group; else it is a radio.
    pub to_group: bool,
    /// The address of the destination, of 24 bits.
    pub destination: u32,
}

impl Way {
    ghost use Rattle.dmr_listing.specs.Ways.{target_of, is_to_group, source_of};

    /// Who sends a data header to whom. A response goes to a radio.
    pub fn of_header(header: &Header) -> Way
        ensures source { result.source ≡ source_of header.now }
        ensures to_group { result.to_group ≡ is_to_group header.now }
        ensures destination { result.destination ≡ target_of header.now }
    {
        let (source, to_group, destination) = match *header {
            Header::Response(response) => (response.source, false, response.destination),
            Header::Unconfirmed(header) => (header.source, header.group, header.destination),
            Header::Confirmed(header) => (header.source, header.group, header.destination),
            Header::ShortData(header) => (header.source, header.group, header.destination),
            Header::Status(status) => (status.source, status.group, status.destination),
        };
        Way {
            source,
            to_group,
            destination,
        }
    }
}

/// What stands before the number of a group.
fn group_name(group: bool) -> &'static str
    ensures value { result.now ≡ (if group then codes "group " else []) }
{
    if group { "group " } else { "" }
}

impl fmt::Display for Way {
    ghost output = { λ way. Some (way_text way) };

    fn fmt<W: fmt::Write>(&self, f: &mut fmt::Formatter<W>) -> fmt::Result {
        let to = group_name(self.to_group);
        write!(f, "{} -> {to}{}", self.source, self.destination)
    }
}
