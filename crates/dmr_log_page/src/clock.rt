//! Times in a page.
use arrayvec::ArrayString;
use dmr_log_forms::Begin;
use std::fmt;
use std::fmt::Write;

/// How many letters of a time of day go to the second, as `12:00:05`, and to the hundredth, as `12:00:05.32`.
const TO_THE_SECOND: usize = 8;

const TO_THE_HUNDREDTH: usize = 11;

/// Writes the first letters of a time of day.
fn write_time_of_day<W: fmt::Write>(
    begin: &Begin,
    letters: usize,
    f: &mut fmt::Formatter<W>,
) -> fmt::Result {
    let mut text: ArrayString<40> = ArrayString::new();
    write!(text, "{begin}")?;
    let (_, time) = text.as_str().split_once('T').unwrap_or_default();
    for letter in time.chars().take(letters) {
        f.write_char(letter)?;
    }
    Ok(())
}

/// A time to the second: minutes and seconds behind the begin of the recording, or a time of day.
#[derive(Clone, Copy, Drop)]
pub(crate) struct ToTheSecond(pub(crate) Begin);

impl fmt::Display for ToTheSecond {
    fn fmt<W: fmt::Write>(&self, f: &mut fmt::Formatter<W>) -> fmt::Result {
        if self.0.start.is_some() {
            return write_time_of_day(&self.0, TO_THE_SECOND, f);
        }
        let minutes = self.0.milliseconds / 60000;
        let seconds = self.0.milliseconds % 60000 / 1000;
        write!(f, "{minutes}:{seconds:02}")
    }
}

/// A time to the hundredth of a second.
#[derive(Clone, Copy, Drop)]
pub(crate) struct ToTheHundredth(pub(crate) Begin);

impl fmt::Display for ToTheHundredth {
    fn fmt<W: fmt::Write>(&self, f: &mut fmt::Formatter<W>) -> fmt::Result {
        if self.0.start.is_some() {
            return write_time_of_day(&self.0, TO_THE_HUNDREDTH, f);
        }
        let hundredths = self.0.milliseconds % 1000 / 10;
        write!(f, "{}.{hundredths:02}", ToTheSecond(self.0))
    }
}

/// The day of a time and the time to the second, where it is known when the recording began; else nothing.
#[derive(Clone, Copy, Drop)]
pub(crate) struct DayAndTime(pub(crate) Begin);

impl fmt::Display for DayAndTime {
    fn fmt<W: fmt::Write>(&self, f: &mut fmt::Formatter<W>) -> fmt::Result {
        if self.0.start.is_none() {
            return Ok(());
        }
        let mut text: ArrayString<40> = ArrayString::new();
        write!(text, "{}", self.0)?;
        let (day, _) = text.as_str().split_once('T').unwrap_or_default();
        write!(f, ", {day} {} UTC", ToTheSecond(self.0))
    }
}
