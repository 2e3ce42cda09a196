//! Many items, each inserted by its hash. Where a filter is larger than a cache, hashes wait until
//! there are as many as are inserted together.
ghost use Rattle.std.specs.Prelude.{◌≡◌, ℕ, ◌<◌, ◌≤◌, ◌++◌, [], ◌∷◌, List, map};
ghost use Rattle.arrayvec.specs.ArrayVec.{array_vec_len};
ghost use Rattle.std.specs.Iterator.{IsFiniteIterable};
ghost use Rattle.std.specs.Iterator.Runs.{WholeRun};
ghost use Rattle.bloom_plain.specs.Queues.{Queues};

use arrayvec::ArrayVec;
use std::hash::Hash;

// The most hashes that are inserted together.
const MOST: usize = 64;

/// What items are inserted into by their hashes.
pub trait TakesHashes {
    // From the first to the second these hashes were inserted, in order.
    ghost took: { Self → List ℕ → Self → Type 0 };

    // The hash of an item that writes these lists of bytes.
    ghost hash_of: { Self → List (List ℕ) → ℕ };

    /// How many hashes are inserted together, 64 at most.
    fn num_together(&self) -> usize
        ensures most { result ≤ 64 };

    /// The hash of an item.
    fn hash_item<T: Hash>(&self, val: &T) -> u64
        ensures { result ≡ hash_of self.now (T.hash_input val.now) };

    /// Inserts one hash.
    fn insert_one(&mut self, hash: u64)
        ensures { took self.old (hash ∷ []) self.new };

    /// Inserts these hashes, in order.
    fn insert_many(&mut self, hashes: &[u64])
        ensures { took self.old hashes.now self.new };

    ghost none: { (x : Self) → took x [] x };

    ghost join: { (x y z : Self) (xs ys : List ℕ) → took x xs y → took y ys z
        → took x (xs ++ ys) z };

    ghost keeps: { (x y : Self) (xs : List ℕ) (writes : List (List ℕ)) → took x xs y
        → hash_of y writes ≡ hash_of x writes };
}

// Lets a hash wait, and inserts all that wait once they are as many as are inserted together.
#[inline(always)]
fn insert_later<F: TakesHashes>(
    to: &mut F,
    together: usize,
    waiting: &mut ArrayVec<u64, MOST>,
    hash: u64,
)
    requires room { array_vec_len waiting.old < together }
    requires most { together ≤ 64 }
    ensures queues { Queues F.took to.old waiting.old.items hash to.new waiting.new.items }
    ensures room { array_vec_len waiting.new < together }
{
    waiting.push(hash);
    let is_full = waiting.len() >= together;
    if is_full {
        to.insert_many(waiting);
        waiting.clear();
    }
}

// Inserts every item that an iterator gives, in order, this many at a time.
fn insert_together<F: TakesHashes, T: Hash + Drop, I: IntoIterator<Item = T>>(
    to: &mut F,
    together: usize,
    iter: I,
)
    requires some { 1 ≤ together }
    requires most { together ≤ 64 }
    requires ends { IsFiniteIterable
        I.into_iter_gives I.IntoIter.can_next I.IntoIter.remaining iter }
    ensures { (it : I.IntoIter) × I.into_iter_gives iter it
        × WholeRun I.IntoIter.next_gives it (λ run.
        F.took to.old (map (λ item. F.hash_of to.old (T.hash_input item)) run.items) to.new) }
{
    let mut waiting = ArrayVec::<u64, MOST>::new();
    'given: for item in iter {
        let hash = to.hash_item(&item);
        insert_later(to, together, &mut waiting, hash);
    }
    to.insert_many(&waiting);
}

// Inserts every item that an iterator gives, in order, one by one.
fn insert_each<F: TakesHashes, T: Hash + Drop, I: IntoIterator<Item = T>>(to: &mut F, iter: I)
    requires { IsFiniteIterable
        I.into_iter_gives I.IntoIter.can_next I.IntoIter.remaining iter }
    ensures { (it : I.IntoIter) × I.into_iter_gives iter it
        × WholeRun I.IntoIter.next_gives it (λ run.
        F.took to.old (map (λ item. F.hash_of to.old (T.hash_input item)) run.items) to.new) }
{
    'given: for item in iter {
        let hash = to.hash_item(&item);
        to.insert_one(hash);
    }
}

/// Inserts every item that an iterator gives, in order.
pub fn insert_items<F: TakesHashes, T: Hash + Drop, I: IntoIterator<Item = T>>(to: &mut F, iter: I)
    // The iterator ends.
    requires { IsFiniteIterable
        I.into_iter_gives I.IntoIter.can_next I.IntoIter.remaining iter }
    ensures { (it : I.IntoIter) × I.into_iter_gives iter it
        × WholeRun I.IntoIter.next_gives it (λ run.
        F.took to.old (map (λ item. F.hash_of to.old (T.hash_input item)) run.items) to.new) }
{
    let together = to.num_together();
    if together > 1 {
        insert_together(to, together, iter);
        return;
    }
    insert_each(to, iter);
}
