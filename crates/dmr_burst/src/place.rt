//! A place that holds something large, or nothing.
ghost use Rattle.std.specs.Prelude.{◌≡◌, None};

/// Nothing stands in a place. Most often nothing does already, and then nothing is written: bursts and records are large (this
/// project's own).
#[inline(always)]
pub fn clear<T: Copy>(place: &mut Option<T>)
    ensures gone { place.new ≡ None }
{
    if place.is_some() {
        *place = None;
    }
}
