//! Blocked filters as sets: calls on all of a filter, or on two filters.
ghost use Rattle.std.specs.Prelude.{◌≡◌, ◌↔◌, IsTrue, IfOk, IsOkUnless};
ghost use Rattle.std.specs.Cmp.Lexicographic.{nat_list_eq_equiv};
ghost use Rattle.std.specs.Cmp.{nat_eq_equiv, on_equiv, and_equiv, partial_equiv_from_equiv};
ghost use Rattle.bloom_plain.specs.Filter.{SameShape, Clears, Unites, Intersects, same_filter};

use super::BlockedBloomFilter;
use bloom_parts::error::FilterError;
use bloom_parts::slices;
use std::alloc::Global;

impl<S> BlockedBloomFilter<S> {
    /// Clears every bit.
    pub fn clear(&mut self)
        ensures clears { Clears self.old self.new }
    {
        slices::clear(self.words.as_mut_slice());
    }

    /// Whether both filters have equal numbers of words and of hashes. The hashers aren't compared.
    pub fn same_shape(&self, other: &Self) -> bool
        ensures { IsTrue result ↔ SameShape self.now other.now }
    {
        self.words.len() == other.words.len() && self.num_hashes == other.num_hashes
    }

    /// Sets every bit that is set in the other filter. Both have one shape, as `same_shape` tests.
    /// The hashers aren't compared.
    pub fn union(&mut self, other: &Self)
        requires { SameShape self.old other.now }
        ensures unites { Unites self.old other.now self.new }
    {
        slices::union(self.words.as_mut_slice(), other.words.as_slice());
    }

    /// Clears every bit that is clear in the other filter. Both have one shape, as `same_shape`
    /// tests. The hashers aren't compared.
    pub fn intersect(&mut self, other: &Self)
        requires { SameShape self.old other.now }
        ensures intersects { Intersects self.old other.now self.new }
    {
        slices::intersect(self.words.as_mut_slice(), other.words.as_slice());
    }
}

impl<S: Clone> BlockedBloomFilter<S> {
    /// A filter with the same words and number of hashes, and the clone of the hasher.
    ///
    /// # Errors
    /// `Memory` where there is no room for the words, or none for the clone of the hasher.
    pub fn try_clone(&self, alloc: Global) -> Result<Self, FilterError>
        ensures words { IfOk result (λ copy. copy.words ≡ self.now.words) }
        ensures hashes { IfOk result (λ copy. copy.hashes ≡ self.now.hashes) }
        ensures hasher { IfOk result (λ copy. S.is_clone self.now.hasher copy.hasher) }
        // The copy is the same filter where clones equal their hashers, as the default hasher's do.
        ensures same { ((h clone : S) → S.is_clone h clone → clone ≡ h)
            → IfOk result (λ copy. copy ≡ self.now) }
        ensures refused { IsOkUnless result FilterError.Memory }
    {
        let words = Vec::from_slice(alloc, self.words.as_slice())?;
        let hasher = self.hasher.clone()?;
        Ok(BlockedBloomFilter {
            words,
            num_hashes: self.num_hashes,
            hasher,
        })
    }
}

/// Filters are equal where their words and numbers of hashes are, whatever their hashers.
impl<S> PartialEq for BlockedBloomFilter<S> {
    ghost eq = { same_filter };

    ghost laws = { partial_equiv_from_equiv (and_equiv
        (on_equiv (λ f. f.words) nat_list_eq_equiv) (on_equiv (λ f. f.hashes) nat_eq_equiv)) };

    fn eq(&self, other: &Self) -> bool {
        self.num_hashes == other.num_hashes
            && slices::are_equal(self.words.as_slice(), other.words.as_slice())
    }
}

impl<S> Eq for BlockedBloomFilter<S> {
    ghost laws = { and_equiv
        (on_equiv (λ f. f.words) nat_list_eq_equiv) (on_equiv (λ f. f.hashes) nat_eq_equiv) };
}
