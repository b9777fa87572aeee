//! Octets in digits.
ghost use Rattle.std.specs.Prelude.{Some};
ghost use Rattle.dmr_listing.specs.Texts.{digits_text};

use std::fmt;

/// Octets, printed as two hexadecimal digits each, in upper case.
#[derive(Clone, Copy, Drop)]
pub struct Digits<'a>(pub &'a [u8]);

impl fmt::Display for Digits<'_> {
    ghost output = { λ digits. Some (digits_text digits.0.now) };

    fn fmt<W: fmt::Write>(&self, f: &mut fmt::Formatter<W>) -> fmt::Result {
        for &octet in self.0 {
            write!(f, "{octet:02X}")?;
        }
        Ok(())
    }
}
