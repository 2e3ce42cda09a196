//! The calls that take items. Each is the call of the item's source hash.
ghost use Rattle.std.specs.Prelude.{◌≡◌, ℕ, List, IsTrue};
ghost use Rattle.std.specs.Iterator.{IsFiniteIterable};
ghost use Rattle.std.specs.Iterator.Runs.{WholeRun};
ghost use Rattle.std.specs.List.{concat};
ghost use Rattle.bloom_plain.specs.SourceHash.{source_hash_of, lent_hash_of, IsFunctionOfBytes};
ghost use Rattle.bloom_plain.specs.Filter.{contains, Inserts};
ghost use Rattle.bloom_blocked.specs.Blocked.{InsertsItemsInLines, in_lines};

use super::BlockedBloomFilter;
use crate::many::{LINES_TOGETHER, WORDS_TO_READ_AHEAD};
use bloom_plain::queue::{TakesHashes, insert_items};
use std::hash::{BuildHasher, Hash, Hasher};

impl<S: BuildHasher> BlockedBloomFilter<S> {
    /// The source hash of an item: what a fresh hasher returns once the item is hashed into it.
    #[inline]
    pub fn source_hash<T: Hash>(&self, val: &T) -> u64
        ensures hash { result
            ≡ source_hash_of S.BuildHasher S.Hasher.Hasher T.hash_input self.now.hasher val.now }
        // If the hasher returns a function of the bytes written, this is that function of the
        // item's.
        ensures bytes { (f : List ℕ → ℕ)
            → IsFunctionOfBytes S.Hasher.Hasher (S.build_hasher self.now.hasher) f
            → result ≡ f (concat (T.hash_input val.now)) }
        // An equal item has the same source hash.
        ensures alike { (other : T) → IsTrue (T.eq val.now other) → result
            ≡ source_hash_of S.BuildHasher S.Hasher.Hasher T.hash_input self.now.hasher other }
    {
        let mut state = self.hasher.build_hasher();
        val.hash(&mut state);
        state.finish()
    }

    /// Sets all positions of an item's source hash, and returns whether all of them were set
    /// before.
    ///
    /// ```
    /// bloom.insert(&"crab"); // false, where the filter was empty
    /// bloom.insert(&"crab"); // true
    /// ```
    #[inline]
    pub fn insert<T: Hash>(&mut self, val: &T) -> bool
        ensures inserts { let hash = source_hash_of S.BuildHasher S.Hasher.Hasher T.hash_input in
            Inserts in_lines self.old (hash self.old.hasher val.now) self.new result }
        // An equal item would have been inserted alike.
        ensures alike { let hash = source_hash_of S.BuildHasher S.Hasher.Hasher T.hash_input in
            (other : T) → IsTrue (T.eq val.now other)
            → Inserts in_lines self.old (hash self.old.hasher other) self.new result }
    {
        let hash = self.source_hash(val);
        self.insert_hash(hash)
    }

    /// Whether all positions of an item's source hash are set. True may be a false positive. False
    /// means that the item wasn't inserted since the last `clear` or `intersect`.
    #[inline]
    pub fn contains<T: Hash>(&self, val: &T) -> bool
        ensures found { let hash = source_hash_of S.BuildHasher S.Hasher.Hasher T.hash_input in
            result ≡ contains in_lines self.now (hash self.now.hasher val.now) }
        // An equal item is found alike.
        ensures alike { let hash = source_hash_of S.BuildHasher S.Hasher.Hasher T.hash_input in
            (other : T) → IsTrue (T.eq val.now other)
            → result ≡ contains in_lines self.now (hash self.now.hasher other) }
    {
        self.contains_hash(self.source_hash(val))
    }

    /// Inserts every item that an iterator lends, in order.
    pub fn insert_all<'a, T: Hash + 'a, I: IntoIterator<Item = &'a T>>(&mut self, iter: I)
        // The iterator ends.
        requires { IsFiniteIterable
            I.into_iter_gives I.IntoIter.can_next I.IntoIter.remaining iter }
        ensures { (it : I.IntoIter) × I.into_iter_gives iter it
            × WholeRun I.IntoIter.next_gives it (λ run.
            InsertsItemsInLines (lent_hash_of S.BuildHasher S.Hasher.Hasher T.hash_input)
            self.old run.items self.new) }
    {
        self.extend(iter);
    }

    /// Inserts every item that an iterator gives, in order.
    pub fn extend<T: Hash + Drop, I: IntoIterator<Item = T>>(&mut self, iter: I)
        // The iterator ends.
        requires { IsFiniteIterable
            I.into_iter_gives I.IntoIter.can_next I.IntoIter.remaining iter }
        ensures { (it : I.IntoIter) × I.into_iter_gives iter it
            × WholeRun I.IntoIter.next_gives it (λ run.
            InsertsItemsInLines (source_hash_of S.BuildHasher S.Hasher.Hasher T.hash_input)
            self.old run.items self.new) }
    {
        insert_items(self, iter);
    }
}

impl<S: BuildHasher> TakesHashes for BlockedBloomFilter<S> {
    ghost use Rattle.std.specs.Prelude.{◌≡◌};
    ghost use Rattle.std.proofs.Common.{ap};
    ghost use Rattle.bloom_plain.specs.SourceHash.{hash_by};
    ghost use Rattle.bloom_blocked.specs.Blocked.{InsertsAllInLines};
    ghost use Rattle.bloom_blocked.specs.InsertLaws.{inserts_all-none, inserts_all-join};

    ghost took = { InsertsAllInLines };

    ghost hash_of = { λ f writes. hash_by S.Hasher.Hasher (S.build_hasher f.hasher) writes };

    ghost none = { inserts_all-none };

    ghost join = { inserts_all-join };

    ghost keeps = { λ x y xs writes did.
        ap (λ b. hash_by S.Hasher.Hasher (S.build_hasher b) writes) did.hasher };

    fn num_together(&self) -> usize {
        if self.words.len() >= WORDS_TO_READ_AHEAD {
            LINES_TOGETHER
        } else {
            1
        }
    }

    #[inline(always)]
    fn hash_item<T: Hash>(&self, val: &T) -> u64 {
        self.source_hash(val)
    }

    #[inline(always)]
    #[tactic(auto, using(crate::proofs::LawLemmas::inserts_all_one))]
    fn insert_one(&mut self, hash: u64) {
        self.insert_hash(hash);
    }

    fn insert_many(&mut self, hashes: &[u64]) {
        self.insert_hashes(hashes);
    }
}
