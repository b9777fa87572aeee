//! Words of the code: their parity, and the correction of one wrong octet.
ghost use Rattle.std.specs.Prelude.{◌≡◌, ℕ, ◌<◌, ◌≤◌, ◌++◌, List, length, IfSome};
ghost use Rattle.dmr_bits.specs.Register.{shift_in};
ghost use Rattle.dmr_rs.specs.Field.{octet_field};
ghost use Rattle.dmr_rs.specs.Word.{generator_low, IsRsWord, value_at, octet_distance};

use crate::generator::generator_times;
use crate::octet::Octet;

/// What three octets of a division's register become after one octet more.
#[inline(always)]
fn next_register(register: [Octet; 3], octet: Octet) -> [Octet; 3]
    ensures value { result ≡ shift_in octet_field generator_low register octet }
{
    let [first, second, third] = generator_times(register[0] + octet);
    [
        first + register[1],
        second + register[2],
        third + Octet::from(0),
    ]
}

/// The three octets that complete nine octets to a word.
/// Source: ETSI TS 102 361-1, annex B.3.6.
pub fn rs_parity(octets: &[u8; 9]) -> [u8; 3]
    ensures word { IsRsWord (octets.now ++ result) }
    ensures only { (parity : List ℕ) → length parity ≡ 3 → IsRsWord (octets.now ++ parity) → parity ≡ result }
{
    let mut register = [Octet::from(0); 3];
    for octet in octets {
        let next = next_register(register, Octet::from(*octet));
        register = next;
    }
    [
        u8::from(register[0]),
        u8::from(register[1]),
        u8::from(register[2]),
    ]
}

/// The value of the polynomial with these coefficients, the highest power first, at `x`.
fn value_at(octets: &[u8], x: Octet) -> Octet
    ensures value { result ≡ value_at x octets.now }
{
    let mut sum = Octet::from(0);
    for octet in octets {
        sum = x * sum + Octet::from(*octet);
    }
    sum
}

/// The word that differs from twelve octets in at most one.
/// Source: ETSI TS 102 361-1, annex B.3.6.
pub fn rs_correct(octets: &[u8; 12]) -> Option<[u8; 12]>
    ensures within { IfSome result (λ word. IsRsWord word × (octet_distance word octets.now ≤ 1)) }
    ensures only { (word : List ℕ) → length word ≡ 12 → IsRsWord word → octet_distance word octets.now ≤ 1
        → result ≡ Some word }
{
    let mut first = value_at(octets, Octet::from(2));
    let mut second = value_at(octets, Octet::from(4));
    let mut third = value_at(octets, Octet::from(8));
    for place in (0..12_usize).rev() {
        // What is wrong in this place alone shows alike at each root.
        if first == second && second == third {
            let mut word = *octets;
            word[place] ^= u8::from(first);
            return Some(word);
        }
        first = first.over_x();
        second = second.over_x().over_x();
        third = third.over_x().over_x().over_x();
    }
    None
}
