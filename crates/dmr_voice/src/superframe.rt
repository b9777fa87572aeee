//! The embedded fields of a superframe, which its places from B to E carry in turn.
ghost use Rattle.std.specs.Prelude.{◌≡◌, ◌<◌, slice_index_or};
ghost use Rattle.dmr_hearing.specs.Fields.{IsCarrier};
ghost use Rattle.dmr_link.specs.FullLc.{FitsFullLc};
ghost use Rattle.dmr_voice.specs.Places.{field_number};

use crate::place::Place;
use dmr_embedded::embed;
use dmr_hearing::read_fields;
use dmr_link::FullLc;
use std::marker::Model;

/// A link control and the four fields that carry it, which are worked out once for as long as it stays.
#[derive(Drop)]
pub struct Carrier {
    link_control: FullLc,
    fields: [u32; 4],
}

// Clauses see the link control.
impl Model for Carrier {
    ghost use Rattle.dmr_hearing.specs.Fields.{IsCarrier};
    ghost use Rattle.dmr_link.specs.FullLc.{FitsFullLc};
    ghost use Rattle.dmr_link.specs.declared.full_lc.FullLc.{FullLc};

    ghost Value = { FullLc };

    ghost view = { λ c. c.link_control };

    ghost invariant = { λ c. IsCarrier c.link_control c.fields × FitsFullLc c.link_control };
}

/// The field that a place from B to E has among four.
fn pick_field(fields: &[u32; 4], place: Place) -> u32
    ensures field { result ≡ slice_index_or fields.now (field_number place) 0 }
{
    fields[place.field_number()]
}

/// The four fields that carry a link control.
fn fields_of(link_control: &FullLc) -> [u32; 4]
    requires fit { link_control.now.flco < 64 }
    ensures carrier { IsCarrier link_control.now result }
    ensures fit { FitsFullLc link_control.now }
{
    embed(&link_control.octets())
}

impl Carrier {
    ghost use Rattle.std.specs.Prelude.{◌≡◌, ◌<◌, Some};
    ghost use Rattle.dmr_hearing.specs.Fields.{IsReadFrom};
    ghost use Rattle.dmr_hearing.specs.Fit.{IsFitLc};
    ghost use Rattle.dmr_voice.specs.Bursts.{IsField};

    /// That of a link control.
    fn of(link_control: FullLc) -> Self
        requires fit { link_control.flco < 64 }
        ensures link_control { result ≡ link_control }
    {
        Carrier {
            link_control,
            fields: fields_of(&link_control),
        }
    }

    /// That of the link control that is all zero.
    pub(crate) fn new() -> Self {
        Carrier::of(FullLc {
            protect: false,
            reserved: false,
            flco: 0,
            fid: 0,
            body: [0; 7],
        })
    }

    /// Is that of a link control from now on.
    pub(crate) fn take(&mut self, link_control: FullLc)
        requires fit { link_control.flco < 64 }
        ensures link_control { self.new ≡ link_control }
    {
        if self.link_control != link_control {
            *self = Carrier::of(link_control);
        }
    }

    /// Is that of a link control from now on, where there is one.
    pub(crate) fn take_known(&mut self, link_control: Option<FullLc>)
        requires fit { IsFitLc link_control }
    {
        if let Some(link_control) = link_control {
            self.take(link_control);
        }
    }

    /// The field of a place from B to E.
    pub(crate) fn field(&self, place: Place) -> u32
        ensures field { IsField place (Some self.now) result }
    {
        pick_field(&self.fields, place)
    }

    /// The link control that four fields carry. Most superframes of a call carry that of the one before, whose fields are at hand:
    /// where they are the same, nothing is decoded.
    pub(crate) fn read(&self, fields: &[u32; 4]) -> Option<FullLc>
        ensures read { IsReadFrom fields.now result }
    {
        if *fields == self.fields {
            return Some(self.link_control);
        }
        read_fields(fields)
    }
}
