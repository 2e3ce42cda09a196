//! The calls that take items. Each is the call of the item's source hash.
ghost use Rattle.std.specs.Prelude.{◌≡◌, IsTrue, IfOk, OnErr};
ghost use Rattle.std.specs.Result.{result_err};
ghost use Rattle.bloom_growing.specs.Growing.{has};
ghost use Rattle.bloom_growing.specs.GrowingInserts.{Accepts, RefusesInsert};
ghost use Rattle.bloom_plain.specs.SourceHash.{source_hash_of};

use super::{GrowingError, GrowingFilterOf};
use crate::growable::GrowableFilter;
use bloom_parts::hasher::{DefaultHasher, RandomDefaultHasher};
use std::alloc::Global;
use std::hash::{BuildHasher, Hash, Hasher};

impl<F: GrowableFilter> GrowingFilterOf<F> {
    /// The source hash of an item, which all the filters share.
    #[inline]
    pub fn source_hash<T: Hash>(&self, val: &T) -> u64
        ensures hash { result ≡ source_hash_of ⟦<DefaultHasher as BuildHasher>⟧
            ⟦<RandomDefaultHasher as Hasher>⟧ T.hash_input self.now.setup.hasher val.now }
        // An equal item has the same source hash.
        ensures alike { (other : T) → IsTrue (T.eq val.now other)
            → result ≡ source_hash_of ⟦<DefaultHasher as BuildHasher>⟧
            ⟦<RandomDefaultHasher as Hasher>⟧ T.hash_input self.now.setup.hasher other }
    {
        let mut state = self.hasher.build_hasher();
        val.hash(&mut state);
        state.finish()
    }

    /// Inserts an item by its source hash unless one of the filters contains that, and returns
    /// whether one does.
    ///
    /// # Errors
    /// Those of `insert_hash`.
    #[inline]
    pub fn insert<T: Hash>(&mut self, alloc: Global, val: &T) -> Result<bool, GrowingError>
        ensures takes { let hash = source_hash_of ⟦<DefaultHasher as BuildHasher>⟧
            ⟦<RandomDefaultHasher as Hasher>⟧ T.hash_input self.old.setup.hasher in
            IfOk result (λ reply. Accepts F.kind self.old (hash val.now) self.new reply) }
        // An equal item would have been inserted alike.
        ensures alike { let hash = source_hash_of ⟦<DefaultHasher as BuildHasher>⟧
            ⟦<RandomDefaultHasher as Hasher>⟧ T.hash_input self.old.setup.hasher in
            (other : T) → IsTrue (T.eq val.now other)
            → IfOk result (λ reply. Accepts F.kind self.old (hash other) self.new reply) }
        ensures unchanged { OnErr result (self.new ≡ self.old) }
        ensures refused { let hash = source_hash_of ⟦<DefaultHasher as BuildHasher>⟧
            ⟦<RandomDefaultHasher as Hasher>⟧ T.hash_input self.old.setup.hasher in
            RefusesInsert F.kind self.old (hash val.now) (result_err result) }
    {
        let hash = self.source_hash(val);
        self.insert_hash(alloc, hash)
    }

    /// Whether one of the filters contains an item's source hash. True may be a false positive;
    /// false means that the item was never inserted.
    #[inline]
    pub fn contains<T: Hash>(&self, val: &T) -> bool
        ensures found { let hash = source_hash_of ⟦<DefaultHasher as BuildHasher>⟧
            ⟦<RandomDefaultHasher as Hasher>⟧ T.hash_input self.now.setup.hasher in
            result ≡ has F.kind self.now (hash val.now) }
        // An equal item is found alike.
        ensures alike { let hash = source_hash_of ⟦<DefaultHasher as BuildHasher>⟧
            ⟦<RandomDefaultHasher as Hasher>⟧ T.hash_input self.now.setup.hasher in
            (other : T) → IsTrue (T.eq val.now other) → result ≡ has F.kind self.now (hash other) }
    {
        self.contains_hash(self.source_hash(val))
    }
}
