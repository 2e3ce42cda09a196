//! Bits in words of 64.
ghost use Rattle.std.specs.Prelude.{◌≡◌, ℕ, ◌*◌, ◌/◌, ◌%◌, ◌^◌, ◌<◌, ◌≤◌, ◌||◌, ◌&&◌, ◌==◌, false, IsTrue, List, length, IfOk, IsOkUnless, nat_eq};
ghost use Rattle.std.specs.Cmp.Lexicographic.{pointwise, nat_list_eq_equiv};
ghost use Rattle.std.specs.Cmp.{partial_equiv_from_equiv};
ghost use Rattle.std.specs.Iterator.{IsFinite};
ghost use Rattle.std.specs.Iterator.Runs.{EachRunFrom, WholeRun};
ghost use Rattle.bloom_parts.specs.Content.{AreWords, content, index_of};

mod atomic;
mod by_hash;
mod gathered;
mod lent;
mod loads;
mod turn_words;
mod words;

use crate::error::FilterError;
use crate::slices;
pub use crate::slices::one_bit::{is_set, next_place, word_and_mask_of_hash};
pub use atomic::{AtomicBitVec, AtomicWords};
pub use gathered::gather;
pub use lent::LentWords;
pub use loads::Loads;
use std::alloc::Global;
use std::marker::Model;
pub use turn_words::{Turn, TurnWords};
pub use words::Words;

/// The greatest number of words, so that the number of bits fits 64 bits.
pub const MAX_WORDS: usize = 288_230_376_151_711_743;

/// Where a hash lies among `num_bits` positions. It needs one multiplication and no division.
pub fn index(num_bits: usize, hash: u64) -> usize
    ensures value { result ≡ index_of num_bits hash }
    ensures range { 0 < num_bits → result < num_bits }
{
    ((hash as u128 * num_bits as u128) >> 64) as usize
}

/// The word in which a position lies, and the number that has its bit alone.
pub fn word_and_mask(position: usize) -> (usize, u64)
    ensures word { result.0 ≡ position / 64 }
    ensures mask { result.1 ≡ 2 ^ (position % 64) }
{
    (position / 64, 1 << (position % 64))
}

/// Words of 64 bits, from 1 to 2^58 - 1 of them. Contracts see the list of the words.
#[derive(Debug, Drop)]
pub struct BitVec {
    words: Vec<u64>,
}

impl Model for BitVec {
    ghost use Rattle.std.specs.Prelude.{ℕ, List, ◌<◌, ◌≤◌, ◌^◌, length};

    ghost Value = { List ℕ };

    ghost view = { λ v. v.words.items };

    ghost invariant = { λ v. (1 ≤ length v.words.items) × (length v.words.items < 2 ^ 58) };
}

impl BitVec {
    /// A vector of these words, which takes no memory.
    pub fn from_vec(words: Vec<u64>) -> Self
        requires some { 1 ≤ length words.items }
        requires few { length words.items < 2 ^ 58 }
        ensures { result ≡ words.items }
    {
        BitVec { words }
    }

    /// The words that an iterator gives, in order.
    pub fn from_words<I: Iterator<Item = u64>>(alloc: Global, words: I) -> Result<Self, FilterError>
        requires can { I.can_next words }
        requires ends { IsFinite (I.remaining words) }
        requires fits { EachRunFrom I.next_gives words
            (λ p. IsTrue p.whole → (1 ≤ length p.items) × (length p.items < 2 ^ 58)) }
        ensures words { IfOk result (λ v. WholeRun I.next_gives words (λ p. v ≡ p.items)) }
        ensures refused { IsOkUnless result FilterError.Memory }
    {
        let words = gather(alloc, words)?;
        Ok(BitVec { words })
    }

    /// The number of words.
    pub fn len(&self) -> usize
        ensures value { result ≡ length self.now }
        ensures least { 1 ≤ length self.now }
        ensures most { length self.now < 2 ^ 58 }
    {
        self.words.len()
    }

    /// The number of bits, 64 for each word.
    pub fn num_bits(&self) -> usize
        ensures value { result ≡ 64 * length self.now }
        ensures least { 64 ≤ result }
    {
        self.len() * 64
    }

    /// The words, word 0 first.
    pub fn as_slice(&self) -> &[u64]
        ensures value { result.now ≡ self.now }
        ensures least { 1 ≤ length result.now }
        ensures most { length result.now < 2 ^ 58 }
        ensures range { AreWords self.now }
    {
        slices::with_range(self.words.as_slice())
    }

    /// An iterator over the words, word 0 first.
    pub fn iter(&self) -> Words<'_>
        ensures value { result ≡ self.now }
        ensures range { AreWords self.now }
    {
        Words::new(self.as_slice())
    }

    /// Whether a position is set.
    pub fn check(&self, position: usize) -> bool
        requires { position < 64 * length self.now }
        ensures { result ≡ content self.now position }
    {
        let (word, mask) = word_and_mask(position);
        is_set(self.words[word], mask)
    }

    /// Sets a position, and returns whether it was set before.
    pub fn set(&mut self, position: usize) -> bool
        requires { position < 64 * length self.old }
        ensures reply { result ≡ content self.old position }
        ensures content { (p : ℕ) → content self.new p ≡ (content self.old p || p == position) }
        ensures shape { length self.new ≡ length self.old }
    {
        let (word, mask) = word_and_mask(position);
        let was_on = is_set(self.words[word], mask);
        self.words[word] |= mask;
        was_on
    }

    /// Clears every position.
    pub fn clear(&mut self)
        ensures content { (p : ℕ) → content self.new p ≡ false }
        ensures shape { length self.new ≡ length self.old }
    {
        slices::clear(self.words.as_mut_slice());
    }

    /// Sets what is set in the other.
    pub fn union(&mut self, other: &BitVec)
        requires { length self.old ≡ length other.now }
        ensures content { (p : ℕ) → content self.new p
            ≡ (content self.old p || content other.now p) }
        ensures shape { length self.new ≡ length self.old }
    {
        slices::union(self.words.as_mut_slice(), other.words.as_slice());
    }

    /// Clears what is clear in the other.
    pub fn intersect(&mut self, other: &BitVec)
        requires { length self.old ≡ length other.now }
        ensures content { (p : ℕ) → content self.new p
            ≡ (content self.old p && content other.now p) }
        ensures shape { length self.new ≡ length self.old }
    {
        slices::intersect(self.words.as_mut_slice(), other.words.as_slice());
    }
}

impl PartialEq for BitVec {
    ghost eq = { pointwise nat_eq };

    ghost laws = { partial_equiv_from_equiv nat_list_eq_equiv };

    fn eq(&self, other: &Self) -> bool {
        slices::are_equal(self.words.as_slice(), other.words.as_slice())
    }
}

impl Eq for BitVec {
    ghost laws = { nat_list_eq_equiv };
}
