//! Laws of the field and of the code, as the contracts of functions that do nothing.
ghost use Rattle.std.specs.Prelude.{◌≡◌, ◌↔◌, ℕ, ◌<◌, ◌≤◌, ◌≢◌, List, All, length};
ghost use Rattle.dmr_rs.specs.Field.{times, IsProduct};
ghost use Rattle.dmr_rs.specs.Word.{IsRsWord, IsZeroAtRoots, octet_distance};

/// The product of two octets is that of their polynomials modulo the field's.
pub fn product_is_modulo_the_polynomial()
    ensures law { (a b : ℕ) → IsProduct a b (times a b) }
{}

/// Twelve octets are a word exactly where their polynomial is zero at the first three powers of 02.
pub fn words_are_zero_at_the_roots()
    ensures law { (octets : List ℕ) → length octets ≡ 12 → All (λ octet. octet < 256) octets
        → IsRsWord octets ↔ IsZeroAtRoots octets }
{}

/// Two different words differ in at least four octets.
pub fn words_lie_four_octets_apart()
    ensures law { (word other : List ℕ) → length word ≡ 12 → length other ≡ 12 → IsRsWord word → IsRsWord other
        → word ≢ other → 4 ≤ octet_distance word other }
{}

/// At most one word is within one octet of any twelve.
pub fn one_word_is_within_one_octet()
    ensures law { (octets word other : List ℕ) → length octets ≡ 12 → length word ≡ 12 → length other ≡ 12
        → IsRsWord word → IsRsWord other → octet_distance word octets ≤ 1 → octet_distance other octets ≤ 1
        → word ≡ other }
{}
