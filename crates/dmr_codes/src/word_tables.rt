//! Words looked up: a code of few words by a table of them, and what is wrong by a table over the checks.
ghost use Rattle.std.specs.Prelude.{◌≡◌, ◌-◌, ◌^◌, ◌≤◌, IfSome, IsTrue, ℕ, List, Bool, Some, nat_lt, take, true};
ghost use Rattle.std.specs.List.{list_all};
ghost use Rattle.dmr_bits.specs.Bits.{distance};
ghost use Rattle.dmr_codes.specs.Code.{IsWord, IsShaped};
ghost use Rattle.dmr_codes.specs.WordTables.{are_words, are_words_each, tells};

use dmr_bits::Bits;

/// The word that begins with the information, where `words` has for each information its word.
#[inline(always)]
pub(crate) fn word_of<const N: usize, const K: usize, const W: usize>(
    words: &[u32; W],
    information: &Bits<K>,
) -> Bits<N>
    requires places { K ≤ N }
    requires narrow { N ≤ 32 }
    requires count { W ≡ 2 ^ K }
    requires fits { IsTrue (list_all (λ word. nat_lt word (2 ^ N)) words.now) }
    ensures word { (columns : List ℕ) → IsShaped N K columns → are_words N K columns words.now ≡ true
        → IsWord columns (N - K) result }
    ensures information { (columns : List ℕ) → IsShaped N K columns → are_words N K columns words.now ≡ true
        → take K result ≡ information.now }
{
    let word = words[information.field(0, K) as usize];
    Bits::<N>::zero().with_field(0, N, u64::from(word))
}

/// The word that begins with the information, as the sum of two: `upper` has the words of the information whose `LOW` lowest
/// bits are clear, and `lower` has those of these bits.
#[inline(always)]
pub(crate) fn sum_of_words<
    const N: usize,
    const K: usize,
    const LOW: usize,
    const U: usize,
    const L: usize,
>(upper: &[u32; U], lower: &[u32; L], information: &Bits<K>) -> Bits<N>
    requires places { K ≤ N }
    requires narrow { N ≤ 32 }
    requires low { LOW ≤ K }
    requires upper_count { U ≡ 2 ^ (K - LOW) }
    requires lower_count { L ≡ 2 ^ LOW }
    requires upper_fit { IsTrue (list_all (λ word. nat_lt word (2 ^ N)) upper.now) }
    requires lower_fit { IsTrue (list_all (λ word. nat_lt word (2 ^ N)) lower.now) }
    ensures word { (columns : List ℕ) → IsShaped N K columns
        → are_words_each N K (2 ^ LOW) (2 ^ (K - LOW)) columns upper.now ≡ true
        → are_words_each N K 1 (2 ^ LOW) columns lower.now ≡ true → IsWord columns (N - K) result }
    ensures information { (columns : List ℕ) → IsShaped N K columns
        → are_words_each N K (2 ^ LOW) (2 ^ (K - LOW)) columns upper.now ≡ true
        → are_words_each N K 1 (2 ^ LOW) columns lower.now ≡ true → take K result ≡ information.now }
{
    let number = information.field(0, K);
    let high = upper[(number >> LOW) as usize];
    let low = lower[(number % (1 << LOW)) as usize];
    let high_word = Bits::<N>::zero().with_field(0, N, u64::from(high));
    let low_word = Bits::<N>::zero().with_field(0, N, u64::from(low));
    high_word.xor(&low_word)
}

/// The word within `reach` places of what was received, by two tables. `words` has the word of each information. The word of the
/// received information is taken off what was received, and the check bits that are left are looked up in `wrong`. It tells which
/// bits of the information are wrong.
#[inline(always)]
pub(crate) fn nearest<const N: usize, const K: usize, const W: usize, const S: usize>(
    words: &[u32; W],
    wrong: &[u16; S],
    reach: usize,
    received: &Bits<N>,
) -> Option<Bits<N>>
    requires places { K ≤ N }
    requires narrow { N ≤ 32 }
    requires words_count { W ≡ 2 ^ K }
    requires wrong_count { S ≡ 2 ^ (N - K) }
    requires words_fit { IsTrue (list_all (λ word. nat_lt word (2 ^ N)) words.now) }
    requires wrong_fit { IsTrue (list_all (λ information. nat_lt information (2 ^ K)) wrong.now) }
    ensures within { (columns : List ℕ) → IsShaped N K columns → are_words N K columns words.now ≡ true
        → IfSome result (λ w. IsWord columns (N - K) w × (distance w received.now ≤ reach)) }
    ensures only { (columns : List ℕ) → IsShaped N K columns → are_words N K columns words.now ≡ true
        → tells N K words.now wrong.now N 0 reach ≡ true
        → (w : List Bool) → IsWord columns (N - K) w → distance w received.now ≤ reach → result ≡ Some w }
{
    let number = received.field(0, N);
    let information = (number >> (N - K)) as usize;
    let left = (number ^ u64::from(words[information])) % (1 << (N - K));
    let right = information ^ usize::from(wrong[left as usize]);
    let word = Bits::<N>::zero().with_field(0, N, u64::from(words[right]));
    if word.distance(received) <= reach {
        Some(word)
    } else {
        None
    }
}
