//! Octets as the elements of a field of 256.
ghost use Rattle.std.specs.Prelude.{◌≡◌, ℕ, ◌<◌, bit_xor};
ghost use Rattle.dmr_bits.specs.Bits.{bits_of, xor_bits};
ghost use Rattle.dmr_rs.specs.Field.{times_x, times, IsProduct};

use std::marker::Model;
use std::ops::{Add, Mul};

/// An octet as an element of the field of 256 with the polynomial x^8 + x^4 + x^3 + x^2 + 1.
/// Source: ETSI TS 102 361-1, annex B.3.6.
#[derive(Clone, Copy, Debug, PartialEq, Eq, Drop)]
pub struct Octet {
    value: u8,
}

// Clauses see the number.
impl Model for Octet {
    ghost use Rattle.std.specs.Prelude.{ℕ};

    ghost Value = { ℕ };

    ghost view = { λ octet. octet.value };

    ghost inverse = { λ n. record { value = n } };
}

impl From<u8> for Octet {
    ghost from_gives = { λ number octet. octet ≡ number };

    fn from(value: u8) -> Octet {
        Octet { value }
    }
}

impl From<Octet> for u8 {
    ghost from_gives = { λ octet number. number ≡ octet };

    fn from(octet: Octet) -> u8 {
        octet.value
    }
}

impl Add for Octet {
    type Output = Octet;

    ghost add_gives = { λ left right sum. sum ≡ bit_xor left right };

    /// The sum, bit by bit.
    fn add(self, other: Octet) -> Octet
        ensures value { result ≡ bit_xor self other }
        ensures bits { bits_of 8 result ≡ xor_bits (bits_of 8 self) (bits_of 8 other) }
        ensures bound { result < 256 }
    {
        Octet {
            value: self.value ^ other.value,
        }
    }
}

impl Mul for Octet {
    type Output = Octet;

    ghost mul_gives = { λ left right product. product ≡ times left right };

    /// The product of the two polynomials, modulo that of the field.
    fn mul(self, other: Octet) -> Octet
        ensures value { result ≡ times self other }
        ensures product { IsProduct self other result }
        ensures only { (octet : ℕ) → octet < 256 → IsProduct self other octet → octet ≡ result }
        ensures bound { result < 256 }
    {
        Octet {
            value: product(self.value, other.value),
        }
    }
}

impl Octet {
    /// The octet that times x is this one.
    pub(crate) fn over_x(self) -> Octet
        ensures value { times_x result ≡ self }
        ensures bound { result < 256 }
    {
        Octet {
            value: previous_power(self.value),
        }
    }
}

/// x times an octet.
fn next_power(octet: u8) -> u8
    ensures value { result ≡ times_x octet }
{
    let shifted = octet << 1;
    if octet < 128 { shifted } else { shifted ^ 0x1D }
}

/// The octet that x times gives this one.
fn previous_power(octet: u8) -> u8
    ensures value { times_x result ≡ octet }
{
    let half = octet / 2;
    if octet % 2 == 0 { half } else { half ^ 0x8E }
}

/// The product of two octets, from the highest bit of the left one down.
fn product(left: u8, right: u8) -> u8
    ensures value { result ≡ times left right }
{
    let mut sum = 0;
    for place in (0..8_u32).rev() {
        let term = if (left >> place) % 2 == 1 { right } else { 0 };
        sum = next_power(sum) ^ term;
    }
    sum
}
