//! The blocked Bloom filter that threads share, and change without waiting for one another.
ghost use Rattle.std.specs.Prelude.{◌≡◌, ◌*◌, ◌/◌, ◌≤◌, IfOk, IsOkUnless};
ghost use Rattle.bloom_plain.specs.SharedFilters.{HasFormOf};
ghost use Rattle.bloom_blocked.specs.LineSteps.{LooksInLine, SetsInLine, SetsInTurn, WasSetInLine, WereSetInLines};
ghost use Rattle.bloom_steps.specs.LiveSteps.{EachInTurn};

mod items;
mod sets;

use crate::filter::BlockedBloomFilter;
use crate::line;
use bloom_parts::bit_vector::{AtomicBitVec, Turn};
use bloom_parts::error::FilterError;
use bloom_parts::hasher::DefaultHasher;
use std::alloc::Global;
use std::marker::Model;

/// A blocked Bloom filter that threads share: each call takes `&self`.
///
/// No call takes a lock or waits for a thread. An insert's `|` on a word is tried again only where
/// another thread changed that word in between.
///
/// Contracts see the vector of its words, its number of hashes and its hasher. Each call is made of
/// atomic operations on single words, so calls of several threads may come between one another's.
#[derive(Debug, Drop)]
pub struct AtomicBlockedBloomFilter<S = DefaultHasher> {
    words: AtomicBitVec,
    num_hashes: u32,
    hasher: S,
}

impl<S> Model for AtomicBlockedBloomFilter<S> {
    ghost use Rattle.std.specs.Prelude.{◌≡◌, ◌≤◌, ◌<◌, ◌^◌, ◌%◌};
    ghost use Rattle.bloom_plain.specs.SharedFilters.{SharedFilter};

    ghost Value = { SharedFilter S };

    ghost view = { λ f. record { words = f.words; hashes = f.num_hashes; hasher = f.hasher } };

    ghost invariant = { λ f. (8 ≤ f.words.count) × (f.words.count % 8 ≡ 0)
        × (1 ≤ f.num_hashes) × (f.num_hashes < 2 ^ 32) };
}

impl<S: Drop> AtomicBlockedBloomFilter<S> {
    /// The shared filter that begins with the words of a plain one, and has its number of hashes
    /// and its hasher.
    ///
    /// # Errors
    /// `Memory` where there is no room for the words that threads share.
    pub fn from_plain(alloc: Global, plain: BlockedBloomFilter<S>) -> Result<Self, FilterError>
        ensures form { IfOk result (λ filter. HasFormOf filter plain) }
        ensures refused { IsOkUnless result FilterError.Memory }
    {
        let words = AtomicBitVec::from_words(alloc, plain.as_slice().iter().copied())?;
        let (num_hashes, hasher) = plain.into_hashes_and_hasher();
        Ok(AtomicBlockedBloomFilter {
            words,
            num_hashes,
            hasher,
        })
    }
}

impl<S> AtomicBlockedBloomFilter<S> {
    /// The number of hashes, and so of positions of each hash, which may coincide.
    pub fn num_hashes(&self) -> u32
        ensures value { result ≡ self.now.hashes }
        ensures least { 1 ≤ result }
    {
        self.num_hashes
    }

    /// The number of bits, 512 for each line.
    pub fn num_bits(&self) -> usize
        ensures value { result ≡ 64 * self.now.words.count }
        ensures least { 512 ≤ result }
        // The words are whole lines.
        ensures lines { self.now.words.count ≡ 8 * (self.now.words.count / 8) }
    {
        self.words.num_bits()
    }

    /// What builds the hashers of items, which no call changes.
    pub fn hasher(&self) -> &S
        ensures value { result.now ≡ self.now.hasher }
    {
        &self.hasher
    }

    /// Sets all positions of a hash, and returns whether its own steps found all of them set. So it
    /// returns false exactly if it set a bit itself. It makes one step for each word that has
    /// positions.
    #[inline(always)]
    pub fn insert_hash(&self, hash: u64) -> bool
        ensures { SetsInLine self.now.words self.now.hashes hash result }
    {
        line::set_in_line(&self.words.lent(), self.num_hashes.max(1), hash)
    }

    /// Whether all positions of a hash were found set, one after the other.
    ///
    /// Its steps stop at the first that is clear. While other threads clear positions, those found
    /// set may never have been set all at once.
    #[inline(always)]
    pub fn contains_hash(&self, hash: u64) -> bool
        ensures { LooksInLine self.now.words self.now.hashes hash result }
    {
        line::look_up_in_line(&self.words.lent(), self.num_hashes, hash)
    }

    // Sets all positions of a hash, from this turn on, and returns whether all were found set.
    #[inline(always)]
    fn insert_in_turn(&self, turn: &mut Turn, hash: u64) -> bool
        ensures { SetsInTurn self.now.words self.now.hashes hash result turn.old turn.new }
    {
        line::set_in_turn(&self.words.lent(), turn, self.num_hashes, hash)
    }

    // Loads the ends of the lines of all these hashes, and then inserts the hashes, in order, from
    // this turn on.
    fn load_then_insert(&self, turn: &mut Turn, hashes: &[u64])
        ensures { EachInTurn (WasSetInLine self.now.words self.now.hashes) hashes.now
            turn.old turn.new }
    {
        line::load_then_insert(&self.words.lent(), turn, self.num_hashes, hashes);
    }

    /// Inserts hashes, in order.
    pub fn insert_hashes(&self, hashes: &[u64])
        ensures { WereSetInLines self.now.words self.now.hashes hashes.now }
    {
        line::insert_hashes(&self.words.lent(), self.num_hashes, hashes);
    }
}
