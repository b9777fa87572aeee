//! Where a burst stands, in front of its line.
ghost use Rattle.std.specs.Prelude.{◌≡◌, IfSome};
ghost use Rattle.dmr_web.specs.Heads as spec;

use arrayvec::ArrayString;
use dmr_recording::Place;
use std::fmt::Write;

/// Where something stands in a file that stands in this place behind a frame of it.
pub(crate) fn later(frame: u32, place: Place) -> Place
    ensures value { result ≡ spec.later frame place }
{
    Place {
        frame: frame.saturating_add(place.frame),
        slot: place.slot,
    }
}

/// Milliseconds as seconds to the hundredth.
fn seconds_text(milliseconds: u64) -> Option<ArrayString<32>>
    ensures text { IfSome result (λ seconds. seconds.bytes ≡ spec.seconds_text milliseconds) }
{
    let whole = milliseconds / 1000;
    let hundredths = milliseconds % 1000 / 10;
    let mut seconds = ArrayString::<32>::new();
    match write!(seconds, "{whole}.{hundredths:02}") {
        Ok(()) => Some(seconds),
        Err(_) => None,
    }
}

/// What the line of a burst begins with: seconds to the hundredth, frame and slot in columns. A `Place` is printed the same, though
/// no clause says so.
pub(crate) fn place_columns(place: Place) -> Option<ArrayString<64>>
    ensures text { IfSome result (λ columns. columns.bytes ≡ spec.place_text place) }
{
    let seconds = seconds_text(place.milliseconds())?;
    let Place { frame, slot } = place;
    let mut columns = ArrayString::<64>::new();
    match write!(columns, "{:>9} {frame:>7} {slot}  ", seconds.as_str()) {
        Ok(()) => Some(columns),
        Err(_) => None,
    }
}
