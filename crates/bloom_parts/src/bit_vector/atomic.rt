//! Words that threads share, each read or changed by one atomic operation.
ghost use Rattle.std.specs.Prelude.{◌≡◌, ◌*◌, ◌-◌, ◌^◌, ◌<◌, ◌≤◌, IsTrue, length, Some, IfOk, IfSome, IsOkUnless};
ghost use Rattle.std.specs.Iterator.{IsFinite, UpTo, at_most};
ghost use Rattle.std.specs.Iterator.Runs.{EachRunFrom, WholeRun};
ghost use Rattle.std.specs.Iterator.SizeHint.{IsWithinCount};
ghost use Rattle.bloom_parts.specs.Made.{BeganWith, FoundByLoad, FoundByOr, FoundByAnd, MadeZero, FoundBySwap};
ghost use Rattle.bloom_parts.specs.Reading.{ReadsNext};

use super::gather;
use crate::error::FilterError;
use std::alloc::Global;
use std::fmt;
use std::marker::Model;
use std::snapshot::Snapshot;
use std::sync::atomic::{AtomicU64, Ordering};

/// Words of 64 bits that threads share, from 1 to 2^58 - 1 of them.
///
/// Contracts see how many there are, and a name that no clause fixes, which tells one vector from
/// another. They say nothing of what the words hold, since any thread may change them.
///
/// The name is a convention of proofs: the fact of a step names its vector, and holds as long as
/// none but the proofs of these operations cite the lemmas that make such facts.
#[derive(Drop)]
pub struct AtomicBitVec {
    words: Vec<AtomicU64>,
    // It has no bytes.
    name: Snapshot<u64>,
}

impl Model for AtomicBitVec {
    ghost use Rattle.std.specs.Prelude.{◌<◌, ◌≤◌, ◌^◌, vec_len};
    ghost use Rattle.bloom_parts.specs.Made.{SharedWords};

    ghost Value = { SharedWords };

    ghost view = { λ v. record { name = v.name.value; count = vec_len v.words } };

    ghost invariant = { λ v. (1 ≤ vec_len v.words) × (vec_len v.words < 2 ^ 58) };
}

// Reads a word of a vector, which is lent as a slice: one that is handed in fits the memory.
#[inline(always)]
#[tactic(auto, using(crate::specs::Made::made_by_load))]
pub(super) fn load_from(vector: &AtomicBitVec, words: &[AtomicU64], word: usize) -> u64
    requires all { length words.now ≡ vector.now.count }
    requires within { word < vector.now.count }
    ensures { FoundByLoad vector.now word result }
{
    words[word].load(Ordering::SeqCst)
}

// Sets the bits of a mask in a word of a vector, and returns the word as it was.
#[inline(always)]
#[tactic(auto, using(crate::specs::Made::made_by_or))]
pub(super) fn or_into(vector: &AtomicBitVec, words: &[AtomicU64], word: usize, mask: u64) -> u64
    requires all { length words.now ≡ vector.now.count }
    requires within { word < vector.now.count }
    ensures { FoundByOr vector.now word mask result }
{
    words[word].fetch_or(mask, Ordering::SeqCst)
}

// Clears the bits of a word of a vector that a mask lacks, and returns the word as it was.
#[inline(always)]
#[tactic(auto, using(crate::specs::Made::made_by_and))]
pub(super) fn and_into(vector: &AtomicBitVec, words: &[AtomicU64], word: usize, mask: u64) -> u64
    requires all { length words.now ≡ vector.now.count }
    requires within { word < vector.now.count }
    ensures { FoundByAnd vector.now word mask result }
{
    words[word].fetch_and(mask, Ordering::SeqCst)
}

// Clears a word of a vector.
#[inline(always)]
#[tactic(auto, using(crate::specs::Made::made_by_zero))]
pub(super) fn zero_in(vector: &AtomicBitVec, words: &[AtomicU64], word: usize)
    requires all { length words.now ≡ vector.now.count }
    requires within { word < vector.now.count }
    ensures { MadeZero vector.now word }
{
    words[word].store(0, Ordering::SeqCst);
}

// Clears a word of a vector, and returns the word as it was.
#[inline(always)]
#[tactic(auto, using(crate::specs::Made::made_by_swap))]
pub(super) fn swap_in(vector: &AtomicBitVec, words: &[AtomicU64], word: usize) -> u64
    requires all { length words.now ≡ vector.now.count }
    requires within { word < vector.now.count }
    ensures { FoundBySwap vector.now word result }
{
    words[word].swap(0, Ordering::SeqCst)
}

impl AtomicBitVec {
    /// The words that an iterator gives, in order.
    pub fn from_words<I: Iterator<Item = u64>>(alloc: Global, words: I) -> Result<Self, FilterError>
        requires can { I.can_next words }
        requires ends { IsFinite (I.remaining words) }
        requires fits { EachRunFrom I.next_gives words
            (λ p. IsTrue p.whole → (1 ≤ length p.items) × (length p.items < 2 ^ 58)) }
        ensures words { IfOk result (λ v. WholeRun I.next_gives words
            (λ p. BeganWith v p.items)) }
        ensures count { IfOk result (λ v. WholeRun I.next_gives words
            (λ p. v.count ≡ length p.items)) }
        ensures refused { IsOkUnless result FilterError.Memory }
    {
        let words = gather(alloc, words.map(AtomicU64::new))?;
        Ok(AtomicBitVec {
            words,
            name: Snapshot::of(&0),
        })
    }

    /// The number of words.
    pub fn len(&self) -> usize
        ensures value { result ≡ self.now.count }
        ensures least { 1 ≤ self.now.count }
        ensures most { self.now.count < 2 ^ 58 }
    {
        self.words.len()
    }

    /// The number of bits, 64 for each word.
    pub fn num_bits(&self) -> usize
        ensures value { result ≡ 64 * self.now.count }
        ensures least { 64 ≤ result }
    {
        self.len() * 64
    }

    // The words, word 0 first.
    pub(super) fn as_slice(&self) -> &[AtomicU64]
        ensures count { length result.now ≡ self.now.count }
        ensures least { 1 ≤ self.now.count }
        ensures most { self.now.count < 2 ^ 58 }
    {
        self.words.as_slice()
    }

    /// An iterator over the words, word 0 first, which loads each when it is asked for it.
    pub fn iter(&self) -> AtomicWords<'_>
        ensures vector { result.vector ≡ self.now }
        ensures next { result.next ≡ 0 }
        ensures least { 1 ≤ self.now.count }
        ensures most { self.now.count < 2 ^ 58 }
    {
        AtomicWords {
            vector: self,
            end: self.len(),
            next: 0,
        }
    }

    /// Reads a word.
    pub fn load(&self, word: usize) -> u64
        requires { word < self.now.count }
        ensures { FoundByLoad self.now word result }
    {
        load_from(self, self.as_slice(), word)
    }

    /// Sets the bits of a mask in a word, and returns the word as it was.
    pub fn fetch_or(&self, word: usize, mask: u64) -> u64
        requires { word < self.now.count }
        ensures { FoundByOr self.now word mask result }
    {
        or_into(self, self.as_slice(), word, mask)
    }

    /// Clears the bits of a word that a mask lacks, and returns the word as it was.
    pub fn fetch_and(&self, word: usize, mask: u64) -> u64
        requires { word < self.now.count }
        ensures { FoundByAnd self.now word mask result }
    {
        and_into(self, self.as_slice(), word, mask)
    }

    /// Clears every bit of a word.
    pub fn store_zero(&self, word: usize)
        requires { word < self.now.count }
        ensures { MadeZero self.now word }
    {
        zero_in(self, self.as_slice(), word);
    }

    /// Clears every bit of a word, and returns the word as it was.
    pub fn swap_zero(&self, word: usize) -> u64
        requires { word < self.now.count }
        ensures { FoundBySwap self.now word result }
    {
        swap_in(self, self.as_slice(), word)
    }
}

impl fmt::Debug for AtomicBitVec {
    fn fmt<W: fmt::Write>(&self, f: &mut fmt::Formatter<W>) -> fmt::Result {
        f.debug_list().entries(self.iter()).finish()
    }
}

/// The words of a vector that threads share, each loaded when it is asked for.
///
/// Contracts see the vector, and the index of the word that comes next.
#[derive(Drop)]
pub struct AtomicWords<'a> {
    vector: &'a AtomicBitVec,
    end: usize,
    next: usize,
    ghost whole: { end ≡ vector.now.count },
}

impl<'a> Model for AtomicWords<'a> {
    ghost use Rattle.bloom_parts.specs.Reading.{Reading};

    ghost Value = { Reading };

    ghost view = { λ w. record { vector = w.vector.now; next = w.next } };
}

impl<'a> Iterator for AtomicWords<'a> {
    type Item = u64;

    ghost next_gives = { ReadsNext };

    ghost remaining = { λ w. at_most (w.vector.count - w.next) };

    fn next(&mut self) -> Option<u64> {
        if self.next >= self.end {
            return None;
        }
        let word = self.vector.load(self.next);
        self.next += 1;
        Some(word)
    }

    // A copy asks for its room at once.
    fn size_hint(&self) -> (usize, Option<usize>)
        ensures lower { IsWithinCount result.0 (at_most (self.now.vector.count - self.now.next)) }
        ensures upper { IfSome result.1 (UpTo (at_most (self.now.vector.count - self.now.next))) }
        ensures exact { (result.0 ≡ self.now.vector.count - self.now.next)
            × (result.1 ≡ Some result.0) }
    {
        let left = self.end.saturating_sub(self.next);
        (left, Some(left))
    }
}
