//! The calls that take items: those of their source hashes.
ghost use Rattle.std.specs.Prelude.{◌≡◌, ℕ, List, IsTrue};
ghost use Rattle.std.specs.List.{concat};
ghost use Rattle.std.specs.Iterator.{IsFiniteIterable};
ghost use Rattle.std.specs.Iterator.Runs.{WholeRun};
ghost use Rattle.bloom_plain.specs.SourceHash.{source_hash_of, lent_hash_of, IsFunctionOfBytes};
ghost use Rattle.bloom_blocked.specs.LineSteps.{LooksInLine, SetsInLine};
ghost use Rattle.bloom_blocked.specs.LineSteps.{MakesInsertsInLines};

use super::AtomicBlockedBloomFilter;
use crate::many::{LINES_TOGETHER, WORDS_TO_READ_AHEAD};
use bloom_parts::bit_vector::Turn;
use bloom_plain::queue::{TakesHashes, insert_items};
use std::hash::{BuildHasher, Hash, Hasher};

impl<S: BuildHasher> AtomicBlockedBloomFilter<S> {
    /// The source hash of an item: what a fresh hasher returns once the item is hashed into it.
    #[inline]
    pub fn source_hash<T: Hash>(&self, val: &T) -> u64
        ensures hash { result
            ≡ source_hash_of S.BuildHasher S.Hasher.Hasher T.hash_input self.now.hasher val.now }
        // If the hasher returns a function of the bytes written, this is that function of the
        // item's.
        ensures bytes { (f : List ℕ → ℕ)
            → IsFunctionOfBytes S.Hasher.Hasher (S.build_hasher self.now.hasher) f
            → result ≡ f (concat (T.hash_input val.now)) }
        // An equal item has the same.
        ensures alike { (other : T) → IsTrue (T.eq val.now other) → result
            ≡ source_hash_of S.BuildHasher S.Hasher.Hasher T.hash_input self.now.hasher other }
    {
        let mut state = self.hasher.build_hasher();
        val.hash(&mut state);
        state.finish()
    }

    /// Sets all positions of an item's source hash, and returns whether its own steps found all of
    /// them set. So it returns false exactly if it set a bit itself.
    #[inline]
    pub fn insert<T: Hash>(&self, val: &T) -> bool
        ensures made { let hash = source_hash_of S.BuildHasher S.Hasher.Hasher T.hash_input in
            SetsInLine self.now.words self.now.hashes (hash self.now.hasher val.now) result }
        // An equal item would have been inserted alike.
        ensures alike { let hash = source_hash_of S.BuildHasher S.Hasher.Hasher T.hash_input in
            (other : T) → IsTrue (T.eq val.now other)
            → SetsInLine self.now.words self.now.hashes (hash self.now.hasher other) result }
    {
        self.insert_hash(self.source_hash(val))
    }

    /// Whether all positions of an item's source hash were found set, one after the other.
    #[inline]
    pub fn contains<T: Hash>(&self, val: &T) -> bool
        ensures made { let hash = source_hash_of S.BuildHasher S.Hasher.Hasher T.hash_input in
            LooksInLine self.now.words self.now.hashes (hash self.now.hasher val.now) result }
        // An equal item is found alike.
        ensures alike { let hash = source_hash_of S.BuildHasher S.Hasher.Hasher T.hash_input in
            (other : T) → IsTrue (T.eq val.now other)
            → LooksInLine self.now.words self.now.hashes (hash self.now.hasher other) result }
    {
        self.contains_hash(self.source_hash(val))
    }

    /// Inserts every item that an iterator lends, in order.
    ///
    /// In a filter of one mebibyte or more it takes 64 items at a time from the iterator,
    /// and loads words of all of them before it inserts the first, so that memory fetches them side
    /// by side. Its clause doesn't tell these loads.
    pub fn insert_all<'a, T: Hash + 'a, I: IntoIterator<Item = &'a T>>(&self, iter: I)
        // The iterator ends.
        requires { IsFiniteIterable
            I.into_iter_gives I.IntoIter.can_next I.IntoIter.remaining iter }
        ensures { (it : I.IntoIter) × I.into_iter_gives iter it
            × WholeRun I.IntoIter.next_gives it (λ run. MakesInsertsInLines
            (lent_hash_of S.BuildHasher S.Hasher.Hasher T.hash_input) self.now run.items) }
    {
        self.extend(iter);
    }

    /// Inserts every item that an iterator gives, in order.
    ///
    /// In a filter of one mebibyte or more it takes 64 items at a time from the iterator,
    /// and loads words of all of them before it inserts the first, so that memory fetches them side
    /// by side. Its clause doesn't tell these loads.
    pub fn extend<T: Hash + Drop, I: IntoIterator<Item = T>>(&self, iter: I)
        // The iterator ends.
        requires { IsFiniteIterable
            I.into_iter_gives I.IntoIter.can_next I.IntoIter.remaining iter }
        ensures { (it : I.IntoIter) × I.into_iter_gives iter it
            × WholeRun I.IntoIter.next_gives it (λ run. MakesInsertsInLines
            (source_hash_of S.BuildHasher S.Hasher.Hasher T.hash_input) self.now run.items) }
    {
        let mut inserts = Inserts {
            filter: self,
            turn: Turn::first(),
        };
        insert_items(&mut inserts, iter);
    }
}

// Inserts into a filter, one after the other: each begins in the turn to which the one before led.
#[derive(Drop)]
struct Inserts<'a, S> {
    filter: &'a AtomicBlockedBloomFilter<S>,
    turn: Turn,
}

impl<'a, S: BuildHasher> TakesHashes for Inserts<'a, S> {
    ghost use Rattle.std.specs.Prelude.{◌≡◌};
    ghost use Rattle.std.proofs.Common.{ap, refl, ◌∙◌, subst};
    ghost use Rattle.bloom_plain.specs.SourceHash.{hash_by};
    ghost use Rattle.bloom_steps.specs.LiveSteps.{EachInTurn};
    ghost use Rattle.bloom_steps.proofs.EachLemmas.{each-append};
    ghost use Rattle.bloom_blocked.specs.LineSteps.{WasSetInLine};

    ghost took = { λ old hashes new. (new.filter ≡ old.filter)
        × EachInTurn (WasSetInLine old.filter.now.words old.filter.now.hashes) hashes
        old.turn new.turn };

    ghost hash_of = { λ f writes.
        hash_by S.Hasher.Hasher (S.build_hasher f.filter.now.hasher) writes };

    ghost none = { λ f. (refl, refl) };

    ghost join = { λ x y z xs ys first second. (
      second.0 ∙ first.0,
      each-append (WasSetInLine x.filter.now.words x.filter.now.hashes) xs ys x.turn y.turn z.turn
          first.1
          (subst (λ f. EachInTurn (WasSetInLine f.now.words f.now.hashes) ys y.turn z.turn) first.0
          second.1),
    ) };

    ghost keeps = { λ x y xs writes did.
        ap (λ f. hash_by S.Hasher.Hasher (S.build_hasher f.now.hasher) writes) did.0 };

    fn num_together(&self) -> usize {
        let filter = self.filter;
        if filter.words.len() >= WORDS_TO_READ_AHEAD {
            LINES_TOGETHER
        } else {
            1
        }
    }

    #[inline(always)]
    fn hash_item<T: Hash>(&self, val: &T) -> u64 {
        self.filter.source_hash(val)
    }

    #[inline(always)]
    fn insert_one(&mut self, hash: u64) {
        self.filter.insert_in_turn(&mut self.turn, hash);
    }

    fn insert_many(&mut self, hashes: &[u64]) {
        self.filter.load_then_insert(&mut self.turn, hashes);
    }
}
