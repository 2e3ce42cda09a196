//! Calls on many hashes, and how items are inserted by their hashes.
ghost use Rattle.std.specs.Prelude.{◌≡◌, ◌*◌, ◌≤◌, length};
ghost use Rattle.bloom_parts.specs.Content.{content};
ghost use Rattle.bloom_parts.specs.Many.{TellsFound, TellsNew};
ghost use Rattle.bloom_plain.specs.Filter.{num_bits_of};
ghost use Rattle.bloom_plain.specs.Replies.{InsertsAll};

use crate::bloom::BloomFilter;
use crate::queue::TakesHashes;
use bloom_parts::slices::{HASHES_TOGETHER, WORDS_BEYOND_CACHE, many};
use std::hash::{BuildHasher, Hash};

impl<S> BloomFilter<S> {
    /// Inserts hashes, in order.
    pub fn insert_hashes(&mut self, hashes: &[u64])
        ensures { InsertsAll self.old hashes.now self.new }
    {
        let num_hashes = self.num_hashes;
        self.bits.insert_hashes(num_hashes, hashes);
    }

    /// Sets bit i of `found` where hash i is contained, and clears every other bit.
    ///
    /// ```
    /// let mut found = [0u64];
    /// bloom.contains_hashes(&[3, 5], &mut found); // bit 1 of `found` tells of hash 5
    /// ```
    pub fn contains_hashes(&self, hashes: &[u64], found: &mut [u64])
        requires room { length hashes.now ≤ 64 * length found.old }
        ensures found { TellsFound (num_bits_of self.now) self.now.hashes
            (content self.now.words) hashes.now found.new }
        ensures shape { length found.new ≡ length found.old }
    {
        many::contains_hashes(self.bits.as_slice(), self.num_hashes, hashes, found);
    }

    /// Inserts hashes, in order, and sets bit i of `fresh` where hash i was new, which means that
    /// it wasn't contained just before its insert. Clears every other bit.
    pub fn insert_hashes_tell_new(&mut self, hashes: &[u64], fresh: &mut [u64])
        requires room { length hashes.now ≤ 64 * length fresh.old }
        ensures inserts { InsertsAll self.old hashes.now self.new }
        ensures fresh { TellsNew (num_bits_of self.old) self.old.hashes
            (content self.old.words) hashes.now fresh.new }
        ensures shape { length fresh.new ≡ length fresh.old }
    {
        let num_hashes = self.num_hashes;
        self.bits.insert_hashes_tell_new(num_hashes, hashes, fresh);
    }
}

impl<S: BuildHasher> TakesHashes for BloomFilter<S> {
    ghost use Rattle.std.specs.Prelude.{◌≡◌};
    ghost use Rattle.std.proofs.Common.{ap};
    ghost use Rattle.bloom_plain.specs.ListLaws.{inserts_all-none, inserts_all-join};
    ghost use Rattle.bloom_plain.specs.Replies.{InsertsAll};
    ghost use Rattle.bloom_plain.specs.SourceHash.{hash_by};

    ghost took = { InsertsAll };

    ghost hash_of = { λ f writes. hash_by S.Hasher.Hasher (S.build_hasher f.hasher) writes };

    ghost none = { inserts_all-none };

    ghost join = { inserts_all-join };

    ghost keeps = { λ x y xs writes did.
        ap (λ b. hash_by S.Hasher.Hasher (S.build_hasher b) writes) did.1.hasher };

    fn num_together(&self) -> usize {
        if self.bits.len() >= WORDS_BEYOND_CACHE {
            HASHES_TOGETHER
        } else {
            1
        }
    }

    #[inline(always)]
    fn hash_item<T: Hash>(&self, val: &T) -> u64 {
        self.source_hash(val)
    }

    #[inline(always)]
    fn insert_one(&mut self, hash: u64) {
        self.insert_hash(hash);
    }

    fn insert_many(&mut self, hashes: &[u64]) {
        self.insert_hashes(hashes);
    }
}
