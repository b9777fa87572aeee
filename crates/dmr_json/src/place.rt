//! Where a burst or a record stands.
ghost use Rattle.std.specs.Prelude.{Some};
ghost use Rattle.dmr_json.specs.Records.{place_keys};

use dmr_recording::Place;
use std::fmt;

/// Frame, slot and milliseconds, the first keys of an object.
#[derive(Drop)]
pub(crate) struct PlaceKeys<'a>(pub(crate) &'a Place);

impl fmt::Display for PlaceKeys<'_> {
    ghost output = { λ place. Some (place_keys place.0.now) };

    #[tactic(auto, unfolding(crate::specs::Records::place_keys))]
    fn fmt<W: fmt::Write>(&self, f: &mut fmt::Formatter<W>) -> fmt::Result {
        let ms = self.0.milliseconds();
        write!(f, "\"frame\":{},", self.0.frame)?;
        write!(f, "\"slot\":{},\"ms\":{ms}", self.0.slot)
    }
}
