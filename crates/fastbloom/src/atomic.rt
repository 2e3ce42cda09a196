//! The Bloom filter that threads share, and change with no lock.
ghost use Rattle.std.specs.Prelude.{◌≡◌, ◌*◌, ◌≤◌, max, Some};
ghost use Rattle.bloom_steps.specs.declared.steps.vocabulary.Call.TheVariants.{Contains, Insert};
ghost use Rattle.bloom_steps.specs.LiveSteps.{MakesCallOn};

mod all_words;
mod data;
mod items;
mod ones;
mod rates;
mod sets;

use bloom_parts::bit_vector::AtomicBitVec;
use bloom_parts::hasher::DefaultHasher;
use bloom_steps::calls;
use std::marker::Model;

/// A Bloom filter that threads share: each call takes `&self`.
///
/// No call takes a lock or waits for a thread. An insert's `|` on a word is tried again only where
/// another thread changed that word in between.
///
/// Contracts see the vector of its words, its number of hashes and its hasher. Each call is made of
/// atomic operations on single words, so calls of several threads may come between one another's.
#[derive(Debug, Drop)]
pub struct AtomicBloomFilter<S = DefaultHasher> {
    words: AtomicBitVec,
    num_hashes: u32,
    hasher: S,
}

impl<S> Model for AtomicBloomFilter<S> {
    ghost use Rattle.std.specs.Prelude.{◌≤◌, ◌<◌, ◌^◌};
    ghost use Rattle.bloom_plain.specs.SharedFilters.{SharedFilter};

    ghost Value = { SharedFilter S };

    ghost view = { λ f. record { words = f.words; hashes = f.num_hashes; hasher = f.hasher } };

    ghost invariant = { λ f. (1 ≤ f.num_hashes) × (f.num_hashes < 2 ^ 32) };
}

impl<S> AtomicBloomFilter<S> {
    // The filter of these parts. `num_hashes` 0 counts as 1.
    pub(crate) fn from_parts(words: AtomicBitVec, num_hashes: u32, hasher: S) -> Self
        ensures words { result.words ≡ words }
        ensures hashes { result.hashes ≡ max 1 num_hashes }
        ensures hasher { result.hasher ≡ hasher }
    {
        AtomicBloomFilter {
            words,
            num_hashes: num_hashes.max(1),
            hasher,
        }
    }

    /// The number of hashes, and so of positions of each hash, which may coincide.
    pub fn num_hashes(&self) -> u32
        ensures value { result ≡ self.now.hashes }
        ensures least { 1 ≤ result }
    {
        self.num_hashes
    }

    /// The number of bits, 64 for each word.
    pub fn num_bits(&self) -> usize
        ensures value { result ≡ 64 * self.now.words.count }
        ensures least { 64 ≤ result }
    {
        self.words.num_bits()
    }

    /// What builds the hashers of items, which no call changes.
    pub fn hasher(&self) -> &S
        ensures value { result.now ≡ self.now.hasher }
    {
        &self.hasher
    }

    /// Sets all positions of a hash, and returns whether its own steps found all of them set. So it
    /// returns false exactly if it set a bit itself.
    #[inline(always)]
    pub fn insert_hash(&self, hash: u64) -> bool
        ensures { MakesCallOn self.now.words self.now.words self.now.hashes (Insert hash)
            (Some result) }
    {
        calls::insert_hash(&self.words.lent(), self.num_hashes, hash)
    }

    /// Whether all positions of a hash were found set, one after the other.
    ///
    /// Its steps stop at the first that is clear. While other threads clear positions, those found
    /// set may never have been set all at once.
    #[inline(always)]
    pub fn contains_hash(&self, hash: u64) -> bool
        ensures { MakesCallOn self.now.words self.now.words self.now.hashes (Contains hash)
            (Some result) }
    {
        calls::contains_hash(&self.words.lent(), self.num_hashes, hash)
    }
}
