//! All words of a shared filter, each as it is read.
ghost use Rattle.std.specs.Prelude.{◌≡◌, ◌⊎◌, ◌*◌, ◌≤◌, length, IfOk, IsOkUnless};
ghost use Rattle.std.specs.Bool.{MatchBool};
ghost use Rattle.bloom_parts.specs.Brackets.{low_of, high_of, width_of, HoldsRate, rate_low, rate_high};
ghost use Rattle.fastbloom.specs.Shared.{BeganAsLoaded, TakesWords, WereFoundAlike, WereFoundToDiffer};
ghost use Rattle.bloom_plain.specs.SharedFilters.{HaveSameShape};

use super::AtomicBloomFilter;
use bloom_parts::bit_vector::{AtomicBitVec, AtomicWords};
use bloom_parts::error::FilterError;
use bloom_parts::math::Bracket;
use bloom_plain::expected_rate;
use bloom_steps::calls;
use std::alloc::Global;

// Room for as many words. No filter is at hand here, so none is touched where memory is refused.
fn make_room(alloc: Global, count: usize) -> Result<Vec<u64>, FilterError>
    ensures count { IfOk result (λ room. length room.items ≡ count) }
    ensures refused { IsOkUnless result FilterError.Memory }
{
    Ok(vec![in alloc; 0u64; count]?)
}

impl<S> AtomicBloomFilter<S> {
    /// An iterator over the words, word 0 first, which loads each when it is asked for it.
    pub fn iter(&self) -> AtomicWords<'_>
        ensures vector { result.vector ≡ self.now.words }
        ensures next { result.next ≡ 0 }
    {
        self.words.iter()
    }

    /// Whether both filters have equal numbers of words and of hashes, and equal words as they were
    /// loaded. The hashers aren't compared.
    pub fn same_words(&self, other: &Self) -> bool
        ensures { MatchBool result (WereFoundAlike self.now other.now)
            ((HaveSameShape self.now other.now → ⊥) ⊎ WereFoundToDiffer self.now other.now) }
    {
        if !self.same_shape(other) {
            return false;
        }
        'words: for word in 0..self.words.len() {
            if self.words.load(word) != other.words.load(word) {
                return false;
            }
        }
        true
    }

    /// Takes the words out, word 0 first: each is read and cleared by one operation, so no bit that
    /// another thread sets meanwhile is lost. It is either taken or still there.
    ///
    /// # Errors
    /// `Memory` where there is no room for the words, before any is touched.
    pub fn take_words(&self, alloc: Global) -> Result<Vec<u64>, FilterError>
        ensures taken { IfOk result (λ words. TakesWords self.now words.items) }
        ensures count { IfOk result (λ words. length words.items ≡ self.now.words.count) }
        ensures refused { IsOkUnless result FilterError.Memory }
    {
        let mut taken = make_room(alloc, self.words.len())?;
        calls::take_into(&self.words.lent(), self.num_hashes, &mut taken);
        Ok(taken)
    }

    /// The rate of false positives to expect once `num_items` items are in the filter, by the
    /// classical formula.
    ///
    /// The formula is a lower bound of the mean rate, by Chebyshev's sum inequality: law `lower` of
    /// `bloom_parts::laws::rate_by_formula`. `false_pos_bounds` has both bounds of that mean, and
    /// docs/RATES.md says how far they are apart.
    pub fn expected_false_pos(&self, num_items: usize) -> Bracket
        ensures holds { let k = self.now.hashes in
            HoldsRate result (64 * self.now.words.count) (k * num_items) k }
        // The ends are exact.
        ensures low { let k = self.now.hashes in
            low_of result ≡ rate_low (64 * self.now.words.count) (k * num_items) k }
        ensures high { let k = self.now.hashes in
            high_of result ≡ rate_high (64 * self.now.words.count) (k * num_items) k }
        ensures width { let k = self.now.hashes in width_of result ≤ 2 * (k * num_items) * k }
    {
        expected_rate(self.num_hashes, self.num_bits(), num_items)
    }
}

impl<S: Clone> AtomicBloomFilter<S> {
    /// A filter of the same shape with the words as they were loaded, and the clone of the hasher.
    ///
    /// # Errors
    /// `Memory` where there is no room for the words, or none for the clone of the hasher.
    pub fn try_clone(&self, alloc: Global) -> Result<Self, FilterError>
        ensures began { IfOk result (λ copy. BeganAsLoaded copy.words self.now.words) }
        ensures words { IfOk result (λ copy. copy.words.count ≡ self.now.words.count) }
        ensures hashes { IfOk result (λ copy. copy.hashes ≡ self.now.hashes) }
        ensures hasher { IfOk result (λ copy. S.is_clone self.now.hasher copy.hasher) }
        ensures refused { IsOkUnless result FilterError.Memory }
    {
        let words = AtomicBitVec::from_words(alloc, self.words.iter())?;
        let hasher = self.hasher.clone()?;
        Ok(AtomicBloomFilter {
            words,
            num_hashes: self.num_hashes,
            hasher,
        })
    }
}
