//! Builders that size a filter that threads share by a rate of false positives.
ghost use Rattle.std.specs.Prelude.{◌≡◌, ℕ, ◌<◌, IfOk, replicate};
ghost use Rattle.std.specs.Result.{result_err};
ghost use Rattle.std.specs.Int.{w128, to_be_bytes};
ghost use Rattle.std.specs.Iterator.{IsFiniteIterable, items_left};
ghost use Rattle.std.specs.Iterator.Runs.{WholeRun};
ghost use Rattle.std.specs.Cmp.{on_equiv, partial_equiv_from_equiv};
ghost use Rattle.bloom_parts.specs.Keys.{HasKey, key_low, key_high};
ghost use Rattle.bloom_parts.specs.Made.{BeganWith};
ghost use Rattle.bloom_parts.specs.RateLaws.{same_rate-laws};
ghost use Rattle.bloom_plain.specs.Builders.{words_for, size_refusal, RefusesAs, IsSizeOf, same_rate_start};
ghost use Rattle.fastbloom.specs.Shared.{HasFormFor, MakesInserts};
ghost use Rattle.bloom_plain.specs.SourceHash.{lent_hash_of};

use crate::atomic::AtomicBloomFilter;
use bloom_parts::bit_vector::AtomicBitVec;
use bloom_parts::error::FilterError;
use bloom_parts::hasher::DefaultHasher;
use bloom_parts::math::{Rate, optimal_size};
use bloom_plain::BloomFilter;
use bloom_plain::builder::{
    BuilderWithFalsePositiveRate, num_hashes_for, num_words_for, rate_and_hasher,
};
use std::alloc::Global;
use std::hash::{BuildHasher, Hash};
use std::iter::repeat_n;
use std::marker::Model;

/// A builder that has the rate of the shared filter. Contracts see the rate and the hasher.
#[derive(Debug, Drop)]
pub struct AtomicBuilderWithFalsePositiveRate<S = DefaultHasher> {
    plain: BuilderWithFalsePositiveRate<S>,
}

impl<S> Model for AtomicBuilderWithFalsePositiveRate<S> {
    ghost use Rattle.bloom_plain.specs.Builders.{RateStart};

    ghost Value = { RateStart S };

    ghost view = { λ b. b.plain };
}

// Zero words that threads share for this many bits, in room that is asked for at once.
fn zero_words(alloc: Global, num_bits: usize) -> Result<AtomicBitVec, FilterError>
    requires { 0 < num_bits }
    ensures began { IfOk result (λ words. BeganWith words (replicate (words_for num_bits) 0)) }
    ensures count { IfOk result (λ words. words.count ≡ words_for num_bits) }
    ensures refused { RefusesAs (size_refusal num_bits) (result_err result) }
{
    let num_words = num_words_for(num_bits)?;
    AtomicBitVec::from_words(alloc, repeat_n(0, num_words))
}

impl AtomicBloomFilter {
    /// A builder of a filter that is sized by a rate of false positives, under the zero key.
    ///
    /// ```
    /// let builder = AtomicBloomFilter::with_false_pos(Rate::new(1, 1000)?);
    /// let bloom = builder.expected_items(alloc, 1000)?; // 14400 bits, 10 hashes
    /// ```
    pub fn with_false_pos(rate: Rate) -> AtomicBuilderWithFalsePositiveRate
        ensures rate { result.rate ≡ rate }
        ensures key { HasKey result.hasher 0 0 }
    {
        AtomicBuilderWithFalsePositiveRate {
            plain: BloomFilter::with_false_pos(rate),
        }
    }
}

impl AtomicBuilderWithFalsePositiveRate {
    /// The same builder with the key of a seed, which is its sixteen big-endian bytes.
    pub fn seed(self, seed: &u128) -> Self
        ensures rate { result.rate ≡ self.rate }
        ensures key { let bytes = to_be_bytes w128 seed.now in
            HasKey result.hasher (key_low bytes) (key_high bytes) }
    {
        AtomicBuilderWithFalsePositiveRate {
            plain: self.plain.seed(seed),
        }
    }
}

impl<S: Drop> AtomicBuilderWithFalsePositiveRate<S> {
    /// The same builder with another hasher.
    pub fn hasher<H: BuildHasher>(self, hasher: H) -> AtomicBuilderWithFalsePositiveRate<H>
        ensures rate { result.rate ≡ self.rate }
        ensures hasher { result.hasher ≡ hasher }
    {
        AtomicBuilderWithFalsePositiveRate {
            plain: self.plain.hasher(hasher),
        }
    }

    /// An empty filter for this many items, where 0 counts as 1, at the rate of the builder.
    ///
    /// # Errors
    /// `SizeOverflow` for 2^64 bits or more, `TooManyWords` for more than 2^58 - 1 words, and else
    /// `Memory`.
    pub fn expected_items(
        self,
        alloc: Global,
        expected_items: usize,
    ) -> Result<AtomicBloomFilter<S>, FilterError>
        ensures form { IfOk result (HasFormFor self expected_items) }
        // One number of bits alone is the size, as a law of `bloom_parts` says.
        ensures refused { (bits : ℕ) × IsSizeOf self expected_items bits
            × RefusesAs (size_refusal bits) (result_err result) }
    {
        let (rate, hasher) = rate_and_hasher(self.plain);
        let size = optimal_size(expected_items.max(1), rate)?;
        let words = zero_words(alloc, size)?;
        let num_hashes = num_hashes_for(words.num_bits(), expected_items);
        Ok(AtomicBloomFilter::from_parts(words, num_hashes, hasher))
    }
}

impl<S: BuildHasher + Drop> AtomicBuilderWithFalsePositiveRate<S> {
    /// A filter for as many items as the iterator's `len()`, into which all that come are inserted.
    ///
    /// # Errors
    /// Those of `expected_items`, before any item is taken.
    pub fn items<'a, T: Hash + 'a, I: IntoIterator<Item = &'a T>>(
        self,
        alloc: Global,
        items: I,
    ) -> Result<AtomicBloomFilter<S>, FilterError>
    where
        I::IntoIter: ExactSizeIterator,
        // The iterator ends.
        requires { IsFiniteIterable I.into_iter_gives I.IntoIter.can_next I.IntoIter.remaining
            items }
        // `items_left` is the iterator's `len()`, which sizes the filter and no more.
        ensures form { IfOk result (λ filter. (it : I.IntoIter) × I.into_iter_gives items it
            × HasFormFor self (items_left I.IntoIter.remaining it) filter
            × WholeRun I.IntoIter.next_gives it (λ run. MakesInserts
            (lent_hash_of S.BuildHasher S.Hasher.Hasher T.hash_input) filter run.items)) }
        ensures refused { (it : I.IntoIter) × I.into_iter_gives items it
            × (bits : ℕ) × IsSizeOf self (items_left I.IntoIter.remaining it) bits
            × RefusesAs (size_refusal bits) (result_err result) }
    {
        let items = items.into_iter();
        let filter = self.expected_items(alloc, items.len())?;
        filter.insert_all(items);
        Ok(filter)
    }
}

/// Builders are equal where their rates are, whatever their hashers.
impl<S> PartialEq for AtomicBuilderWithFalsePositiveRate<S> {
    ghost eq = { same_rate_start };

    ghost laws = { partial_equiv_from_equiv (on_equiv (λ b. b.rate) same_rate-laws) };

    fn eq(&self, other: &Self) -> bool {
        self.plain == other.plain
    }
}

impl<S> Eq for AtomicBuilderWithFalsePositiveRate<S> {
    ghost laws = { on_equiv (λ b. b.rate) same_rate-laws };
}
