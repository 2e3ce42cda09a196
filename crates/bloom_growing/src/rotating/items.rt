//! The calls that take items. Each is the call of the item's source hash.
ghost use Rattle.std.specs.Prelude.{◌≡◌, IsTrue};
ghost use Rattle.bloom_growing.specs.Rotating.{either_contains, Receives};
ghost use Rattle.bloom_plain.specs.SourceHash.{source_hash_of};

use super::RotatingFilterOf;
use crate::growable::GrowableFilter;
use bloom_parts::hasher::{DefaultHasher, RandomDefaultHasher};
use std::hash::{BuildHasher, Hash, Hasher};

impl<F: GrowableFilter> RotatingFilterOf<F> {
    /// The source hash of an item, which both filters share.
    #[inline]
    pub fn source_hash<T: Hash>(&self, val: &T) -> u64
        ensures hash { result ≡ source_hash_of ⟦<DefaultHasher as BuildHasher>⟧
            ⟦<RandomDefaultHasher as Hasher>⟧ T.hash_input self.now.setup.hasher val.now }
        // An equal item has the same source hash.
        ensures alike { (other : T) → IsTrue (T.eq val.now other)
            → result ≡ source_hash_of ⟦<DefaultHasher as BuildHasher>⟧
            ⟦<RandomDefaultHasher as Hasher>⟧ T.hash_input self.now.setup.hasher other }
    {
        let mut state = self.hasher.build_hasher();
        val.hash(&mut state);
        state.finish()
    }

    /// Inserts an item by its source hash, and returns whether one of both filters contained that.
    #[inline]
    pub fn insert<T: Hash>(&mut self, val: &T) -> bool
        ensures receives { let hash = source_hash_of ⟦<DefaultHasher as BuildHasher>⟧
            ⟦<RandomDefaultHasher as Hasher>⟧ T.hash_input self.old.setup.hasher in
            Receives F.kind self.old (hash val.now) self.new result }
        // An equal item would have been inserted alike.
        ensures alike { let hash = source_hash_of ⟦<DefaultHasher as BuildHasher>⟧
            ⟦<RandomDefaultHasher as Hasher>⟧ T.hash_input self.old.setup.hasher in
            (other : T) → IsTrue (T.eq val.now other)
            → Receives F.kind self.old (hash other) self.new result }
    {
        let hash = self.source_hash(val);
        self.insert_hash(hash)
    }

    /// Whether one of both filters contains an item's source hash. True may be a false positive.
    #[inline]
    pub fn contains<T: Hash>(&self, val: &T) -> bool
        ensures found { let hash = source_hash_of ⟦<DefaultHasher as BuildHasher>⟧
            ⟦<RandomDefaultHasher as Hasher>⟧ T.hash_input self.now.setup.hasher in
            result ≡ either_contains F.kind self.now (hash val.now) }
        // An equal item is found alike.
        ensures alike { let hash = source_hash_of ⟦<DefaultHasher as BuildHasher>⟧
            ⟦<RandomDefaultHasher as Hasher>⟧ T.hash_input self.now.setup.hasher in
            (other : T) → IsTrue (T.eq val.now other)
            → result ≡ either_contains F.kind self.now (hash other) }
    {
        self.contains_hash(self.source_hash(val))
    }
}
