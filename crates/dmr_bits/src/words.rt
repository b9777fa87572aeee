//! Numbers in five words of 64 bits, which are one list, the highest bit of the first word first.
ghost use Rattle.std.specs.Prelude.{◌≡◌, ◌+◌, ◌-◌, ◌/◌, ◌%◌, ◌^◌, ◌<◌, ◌≤◌, ◌++◌, All, length, take, drop};
ghost use Rattle.dmr_bits.specs.Bits.{bits_of};
ghost use Rattle.dmr_bits.specs.Words.{word_bits, bits_of_words};

/// The number that `width` bits of a word spell, from place `at` on.
#[inline(always)]
fn read_word(word: u64, at: usize, width: usize) -> u64
    requires inside { at + width ≤ 64 }
    ensures value { bits_of width result ≡ take width (drop at (word_bits word)) }
    ensures number { result ≡ word / 2 ^ (64 - at - width) % 2 ^ width }
    ensures bound { result < 2 ^ width }
{
    if width == 0 {
        return 0;
    }
    (word << at) >> (64 - width)
}

/// A word with a number in its `width` bits from place `at` on.
#[inline(always)]
fn write_word(word: u64, at: usize, width: usize, value: u64) -> u64
    requires inside { at + width ≤ 64 }
    requires fits { value < 2 ^ width }
    ensures value { word_bits result ≡ take at (word_bits word) ++ (bits_of width value ++ drop (at + width) (word_bits word)) }
{
    if width == 0 {
        return word;
    }
    let below = 64 - at - width;
    let old = read_word(word, at, width);
    word - (old << below) + (value << below)
}

/// The number that `width` bits spell, from place `at` on.
#[inline(always)]
pub(crate) fn read(words: &[u64; 5], at: usize, width: usize) -> u64
    requires inside { at + width ≤ 320 }
    requires narrow { width ≤ 64 }
    ensures value { bits_of width result ≡ take width (drop at (bits_of_words words.now)) }
    ensures bound { result < 2 ^ width }
{
    if width == 0 {
        return 0;
    }
    let word = at / 64;
    let place = at % 64;
    if place + width <= 64 {
        return read_word(words[word], place, width);
    }
    let low = place + width - 64;
    let high = read_word(words[word], place, 64 - place);
    (high << low) + read_word(words[word + 1], 0, low)
}

/// Writes a number into `width` bits, from place `at` on.
#[inline(always)]
pub(crate) fn write(words: &mut [u64; 5], at: usize, width: usize, value: u64)
    requires inside { at + width ≤ 320 }
    requires narrow { width ≤ 64 }
    requires fits { value < 2 ^ width }
    ensures value { bits_of_words words.new
        ≡ take at (bits_of_words words.old) ++ (bits_of width value ++ drop (at + width) (bits_of_words words.old)) }
    ensures long { length words.new ≡ 5 }
    ensures small { All (λ word. word < 2 ^ 64) words.new }
{
    if width == 0 {
        return;
    }
    let word = at / 64;
    let place = at % 64;
    if place + width <= 64 {
        words[word] = write_word(words[word], place, width, value);
        return;
    }
    let low = place + width - 64;
    let high = value >> low;
    words[word] = write_word(words[word], place, 64 - place, high);
    words[word + 1] = write_word(words[word + 1], 0, low, value - (high << low));
}

/// Copies `width` bits of other words, from their place `from` on, to the place `at` on.
#[inline(always)]
pub(crate) fn copy(words: &mut [u64; 5], at: usize, other: &[u64; 5], from: usize, width: usize)
    requires inside { at + width ≤ 320 }
    requires other { from + width ≤ 320 }
    ensures value { bits_of_words words.new
        ≡ take at (bits_of_words words.old)
        ++ (take width (drop from (bits_of_words other.now)) ++ drop (at + width) (bits_of_words words.old)) }
    ensures long { length words.new ≡ 5 }
    ensures small { All (λ word. word < 2 ^ 64) words.new }
{
    let mut done = 0;
    while done < width {
        let step = (width - done).min(64);
        let value = read(other, from + done, step);
        write(words, at + done, step, value);
        done += step;
    }
}
