//! Values that several objects have.
ghost use Rattle.std.specs.Prelude.{Some};
ghost use Rattle.dmr_json.specs.Values.{hex};

use dmr_listing::Digits;
use std::fmt;

/// Octets, printed as a string of hexadecimal digits.
#[derive(Drop)]
pub(crate) struct Hex<'a>(pub(crate) &'a [u8]);

impl fmt::Display for Hex<'_> {
    ghost output = { λ octets. Some (hex octets.0.now) };

    fn fmt<W: fmt::Write>(&self, f: &mut fmt::Formatter<W>) -> fmt::Result {
        let digits = Digits(self.0);
        write!(f, "\"{digits}\"")
    }
}

/// A number that may not be known.
#[derive(Drop)]
pub(crate) struct Known(pub(crate) Option<u8>);

impl fmt::Display for Known {
    fn fmt<W: fmt::Write>(&self, f: &mut fmt::Formatter<W>) -> fmt::Result {
        match self.0 {
            Some(number) => write!(f, "{number}"),
            None => write!(f, "null"),
        }
    }
}
