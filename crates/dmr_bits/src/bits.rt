//! Lists of a fixed number of bits, the highest first.
ghost use Rattle.std.specs.Prelude.{◌≡◌, ◌+◌, ◌-◌, ◌*◌, ◌^◌, ◌<◌, ◌≤◌, ◌++◌, All, length, take, drop, replicate, false};
ghost use Rattle.std.specs.Prelude.{slice_set, slice_index_or};
ghost use Rattle.dmr_bits.specs.Bits.{number_of, bits_of, bits_of_octets, xor_bits, distance, part, put_at};
ghost use Rattle.dmr_bits.specs.Bits as spec;

use crate::word_octets::{octets_of, words_of};
use crate::word_sums::{ones, sum};
use crate::words::{copy, read, write};
use std::marker::Model;

/// `N` bits, at most 320, the highest first: bit 0 is the one that is sent first, and the highest of a number.
#[derive(Clone, Copy, Debug, PartialEq, Eq, Drop)]
pub struct Bits<const N: usize> {
    words: [u64; 5],
}

// Clauses see the list of the bits. They stand at the front of the words, and behind them are zeros.
impl<const N: usize> Model for Bits<N> {
    ghost use Rattle.std.specs.Prelude.{List, Bool};
    ghost use Rattle.dmr_bits.specs.Words.{IsPacked, unpacked, packed};
    ghost use Rattle.dmr_bits.specs.Packing.{packed_back};

    ghost Value = { List Bool };

    ghost view = { λ b. unpacked N b.words };

    ghost invariant = { λ b. IsPacked N b.words };

    ghost inverse = { λ list. record { words = packed N list } };

    ghost inverse_ok = { λ b h i. record { words = packed_back N b.words h i } };
}

impl<const N: usize> Bits<N> {
    /// No bit set.
    #[inline(always)]
    pub fn zero() -> Self
        requires capacity { N ≤ 320 }
        ensures value { result ≡ replicate N false }
    {
        Bits { words: [0; 5] }
    }

    /// The bits of octets, each highest bit first.
    #[inline(always)]
    pub fn from_octets<const M: usize>(octets: &[u8; M]) -> Self
        requires whole { 8 * M ≡ N }
        requires capacity { N ≤ 320 }
        ensures value { result ≡ bits_of_octets octets.now }
    {
        let mut all = [0; 40];
        all[..M].copy_from_slice(octets);
        Bits {
            words: words_of(&all),
        }
    }

    /// The octets that the bits spell.
    #[inline(always)]
    pub fn octets<const M: usize>(&self) -> [u8; M]
        requires whole { 8 * M ≡ N }
        ensures value { result ≡ spec.octets_of M self.now }
        ensures octets { All (λ octet. octet < 256) result }
        ensures spelled { bits_of_octets result ≡ self.now }
        ensures length { length self.now ≡ N }
    {
        let all = octets_of(&self.words);
        let mut octets = [0; M];
        octets.copy_from_slice(&all[..M]);
        octets
    }

    /// The number of the bits.
    pub fn len(&self) -> usize
        ensures value { result ≡ N }
        ensures length { length self.now ≡ N }
    {
        // A value's use of its fields is where a proof learns what always holds of them.
        let _ = &self.words;
        N
    }

    /// The bit at place `i`.
    #[inline(always)]
    pub fn get(&self, i: usize) -> bool
        requires inside { i < N }
        ensures value { result ≡ slice_index_or self.now i false }
        ensures length { length self.now ≡ N }
    {
        read(&self.words, i, 1) == 1
    }

    /// Writes the bit at place `i`.
    #[inline(always)]
    pub fn set(&mut self, i: usize, bit: bool)
        requires inside { i < N }
        ensures value { self.new ≡ slice_set self.old i bit }
        ensures length { length self.old ≡ N }
    {
        write(&mut self.words, i, 1, u64::from(bit));
    }

    /// The number that `width` bits from place `at` on spell.
    #[inline(always)]
    pub fn field(&self, at: usize, width: usize) -> u64
        requires inside { at + width ≤ N }
        requires narrow { width ≤ 64 }
        ensures value { result ≡ number_of (take width (drop at self.now)) }
        ensures bound { result < 2 ^ width }
        ensures length { length self.now ≡ N }
    {
        read(&self.words, at, width)
    }

    /// These bits with `value` in the `width` places from `at` on.
    #[inline(always)]
    pub fn with_field(&self, at: usize, width: usize, value: u64) -> Self
        requires inside { at + width ≤ N }
        requires narrow { width ≤ 64 }
        requires fits { value < 2 ^ width }
        ensures value { result ≡ take at self.now ++ bits_of width value ++ drop (at + width) self.now }
        ensures length { length self.now ≡ N }
    {
        let mut words = self.words;
        write(&mut words, at, width, value);
        Bits { words }
    }

    /// The number of places in which the two differ.
    #[inline(always)]
    pub fn distance(&self, other: &Bits<N>) -> usize
        ensures value { result ≡ distance self.now other.now }
        ensures bound { result ≤ N }
        ensures length { length self.now ≡ N }
        ensures other_length { length other.now ≡ N }
    {
        ones(&sum(&self.words, &other.words)) as usize
    }

    /// The sum of the two, bit by bit.
    #[inline(always)]
    pub fn xor(&self, other: &Bits<N>) -> Self
        ensures value { result ≡ xor_bits self.now other.now }
        ensures length { length self.now ≡ N }
        ensures other_length { length other.now ≡ N }
    {
        Bits {
            words: sum(&self.words, &other.words),
        }
    }

    /// The bits from a place up to another.
    #[inline(always)]
    pub fn part<const M: usize>(&self, from: usize, to: usize) -> Bits<M>
        requires order { from ≤ to }
        requires bound { to ≤ N }
        requires fit { to - from ≡ M }
        ensures value { result ≡ part self.now from to }
        ensures count { length result ≡ to - from }
        ensures length { length self.now ≡ N }
    {
        let mut words = [0; 5];
        copy(&mut words, 0, &self.words, from, to - from);
        Bits { words }
    }

    /// Writes bits from a place on.
    #[inline(always)]
    pub fn put<const M: usize>(&mut self, at: usize, new: &Bits<M>)
        requires room { at + M ≤ N }
        ensures value { self.new ≡ put_at self.old at new.now }
        ensures length { length self.old ≡ N }
        ensures kept { length self.new ≡ N }
        ensures count { length new.now ≡ M }
    {
        self.put_part(at, new, 0, M);
    }

    /// Writes a part of other bits from a place on.
    #[inline(always)]
    pub fn put_part<const M: usize>(&mut self, at: usize, new: &Bits<M>, from: usize, to: usize)
        requires order { from ≤ to }
        requires bound { to ≤ M }
        requires room { at + (to - from) ≤ N }
        ensures value { self.new ≡ put_at self.old at (part new.now from to) }
        ensures length { length self.old ≡ N }
        ensures kept { length self.new ≡ N }
        ensures count { length (part new.now from to) ≡ to - from }
        ensures other_length { length new.now ≡ M }
    {
        copy(&mut self.words, at, &new.words, from, to - from);
    }
}
