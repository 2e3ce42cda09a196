//! Filters as sets: calls on all of a filter, or on two filters.
ghost use Rattle.std.specs.Prelude.{◌≡◌, ◌↔◌, ◌∷◌, [], IsTrue, IfOk, IsOkUnless};
ghost use Rattle.std.specs.Cmp.Lexicographic.{nat_list_eq_equiv};
ghost use Rattle.std.specs.Cmp.{nat_eq_equiv, on_equiv, and_equiv, partial_equiv_from_equiv};
ghost use Rattle.bloom_parts.specs.Content.{content};
ghost use Rattle.bloom_parts.specs.Operations as operation;
ghost use Rattle.bloom_plain.specs.Filter.{SameShape, Clears, Unites, Intersects, same_filter};
ghost use Rattle.bloom_plain.specs.Replies.{CarriesOut};

use super::BloomFilter;
use bloom_parts::bit_vector::BitVec;
use bloom_parts::error::FilterError;
use std::alloc::Global;

impl<S> BloomFilter<S> {
    /// Clears every position.
    pub fn clear(&mut self)
        ensures clears { Clears self.old self.new }
        // The clear as a list of this one command.
        ensures same { CarriesOut self.old (operation.Clear ∷ []) self.new [] }
    {
        self.bits.clear();
    }

    /// Whether both filters have equal numbers of words and of hashes. The hashers aren't compared.
    pub fn same_shape(&self, other: &Self) -> bool
        ensures { IsTrue result ↔ SameShape self.now other.now }
    {
        self.bits.len() == other.bits.len() && self.num_hashes == other.num_hashes
    }

    /// Sets every position that is set in the other filter. Both have one shape, as `same_shape`
    /// tests. The hashers aren't compared.
    ///
    /// ```
    /// bloom.insert_hash(1);
    /// other.insert_hash(2);
    /// bloom.union(&other);
    /// // bloom contains 1 and 2
    /// ```
    pub fn union(&mut self, other: &Self)
        requires { SameShape self.old other.now }
        ensures unites { Unites self.old other.now self.new }
        // The union as a list of this one command.
        ensures same { CarriesOut self.old
            (operation.Union (content other.now.words) ∷ []) self.new [] }
    {
        self.bits.union(&other.bits);
    }

    /// Clears every position that is clear in the other filter. Both have one shape, as
    /// `same_shape` tests. The hashers aren't compared.
    ///
    /// ```
    /// bloom.insert_hash(1);
    /// bloom.insert_hash(2);
    /// other.insert_hash(2);
    /// bloom.intersect(&other);
    /// // bloom contains 2
    /// ```
    pub fn intersect(&mut self, other: &Self)
        requires { SameShape self.old other.now }
        ensures intersects { Intersects self.old other.now self.new }
        // The intersection as a list of this one command.
        ensures same { CarriesOut self.old
            (operation.Intersect (content other.now.words) ∷ []) self.new [] }
    {
        self.bits.intersect(&other.bits);
    }
}

impl<S: Clone> BloomFilter<S> {
    /// A filter with the same words and number of hashes, and the clone of the hasher.
    ///
    /// # Errors
    /// `Memory` where there is no room for the words, or none for the clone of the hasher.
    pub fn try_clone(&self, alloc: Global) -> Result<Self, FilterError>
        ensures words { IfOk result (λ copy. copy.words ≡ self.now.words) }
        ensures hashes { IfOk result (λ copy. copy.hashes ≡ self.now.hashes) }
        ensures hasher { IfOk result (λ copy. S.is_clone self.now.hasher copy.hasher) }
        // The copy is the same filter where clones equal their hashers, as the default hasher's do.
        ensures same { ((h clone : S) → S.is_clone h clone → clone ≡ h)
            → IfOk result (λ copy. copy ≡ self.now) }
        ensures refused { IsOkUnless result FilterError.Memory }
    {
        let words = Vec::from_slice(alloc, self.bits.as_slice())?;
        let hasher = self.hasher.clone()?;
        Ok(BloomFilter {
            bits: BitVec::from_vec(words),
            num_hashes: self.num_hashes,
            hasher,
        })
    }
}

/// Filters are equal where their words and numbers of hashes are, whatever their hashers.
impl<S> PartialEq for BloomFilter<S> {
    ghost eq = { same_filter };

    ghost laws = { partial_equiv_from_equiv (and_equiv
        (on_equiv (λ f. f.words) nat_list_eq_equiv) (on_equiv (λ f. f.hashes) nat_eq_equiv)) };

    fn eq(&self, other: &Self) -> bool {
        self.num_hashes == other.num_hashes && self.bits == other.bits
    }
}

impl<S> Eq for BloomFilter<S> {
    ghost laws = { and_equiv
        (on_equiv (λ f. f.words) nat_list_eq_equiv) (on_equiv (λ f. f.hashes) nat_eq_equiv) };
}
