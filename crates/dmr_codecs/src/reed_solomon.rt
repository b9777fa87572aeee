//! The Reed-Solomon code (12,9).
ghost use Rattle.std.specs.Prelude.{◌≡◌, ℕ, ◌≤◌, ◌++◌, List, length, true, false};
ghost use Rattle.dmr_rs.specs.Word.{IsRsWord, octet_distance};

use dmr_rs::{rs_correct, rs_parity};

/// The three octets that complete nine octets to a word. ETSI TS 102 361-1, annex B.3.6.
#[unsafe(no_mangle)]
pub extern "C" fn dmr_rs_parity(octets: &[u8; 9], parity: &mut [u8; 3])
    ensures word { IsRsWord (octets.now ++ parity.new) }
    ensures only { (other : List ℕ) → length other ≡ 3 → IsRsWord (octets.now ++ other) → other ≡ parity.new }
{
    *parity = rs_parity(octets);
}

/// Makes twelve octets the word that differs from them in at most one; false where there is none, and then they stay.
/// ETSI TS 102 361-1, annex B.3.6.
#[unsafe(no_mangle)]
pub extern "C" fn dmr_rs_correct(octets: &mut [u8; 12]) -> bool
    ensures within { result ≡ true → IsRsWord octets.new × (octet_distance octets.new octets.old ≤ 1) }
    ensures only { (word : List ℕ) → length word ≡ 12 → IsRsWord word → octet_distance word octets.old ≤ 1
        → (result ≡ true) × (octets.new ≡ word) }
    ensures unwritten { result ≡ false → octets.new ≡ octets.old }
{
    match rs_correct(octets) {
        Some(word) => {
            *octets = word;
            true
        }
        None => false,
    }
}
