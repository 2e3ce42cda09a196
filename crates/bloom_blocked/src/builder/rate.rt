//! Builders that size a blocked filter by a rate of false positives.
ghost use Rattle.std.specs.Prelude.{◌≡◌, ℕ, IfOk};
ghost use Rattle.std.specs.Result.{result_err};
ghost use Rattle.std.specs.Int.{w128, to_be_bytes};
ghost use Rattle.std.specs.Iterator.{IsFiniteIterable, items_left};
ghost use Rattle.std.specs.Iterator.Runs.{WholeRun};
ghost use Rattle.std.specs.Cmp.{on_equiv, partial_equiv_from_equiv};
ghost use Rattle.bloom_parts.specs.Keys.{HasKey, key_low, key_high};
ghost use Rattle.bloom_parts.specs.RateLaws.{same_rate-laws};
ghost use Rattle.bloom_plain.specs.Builders.{RefusesAs, same_rate_start};
ghost use Rattle.bloom_plain.specs.Filter.{Filter};
ghost use Rattle.bloom_plain.specs.SourceHash.{lent_hash_of};
ghost use Rattle.bloom_blocked.specs.Blocked.{InsertsItemsInLines};
ghost use Rattle.bloom_blocked.specs.BlockedSizing.{IsSizeInLinesOf, IsMadeInLinesFor, line_size_refusal};

use super::{BlockedBuilderWithBits, zero_lines};
use crate::filter::BlockedBloomFilter;
use crate::sizing::optimal_size_in_lines;
use bloom_parts::error::FilterError;
use bloom_parts::hasher::DefaultHasher;
use bloom_parts::math::Rate;
use std::alloc::Global;
use std::hash::{BuildHasher, Hash};
use std::marker::Model;

/// A builder that has the rate of its blocked filter. Contracts see the rate and the hasher.
#[derive(Debug, Drop)]
pub struct BlockedBuilderWithFalsePositiveRate<S = DefaultHasher> {
    rate: Rate,
    hasher: S,
}

impl<S> Model for BlockedBuilderWithFalsePositiveRate<S> {
    ghost use Rattle.bloom_plain.specs.Builders.{RateStart};

    ghost Value = { RateStart S };

    ghost view = { λ b. record { rate = b.rate; hasher = b.hasher } };
}

impl BlockedBloomFilter {
    /// A builder of a filter that is sized by a rate of false positives, under the zero key.
    ///
    /// That a filter so sized has this rate is measured, not proved: docs/RATES.md.
    ///
    /// ```
    /// let builder = BlockedBloomFilter::with_false_pos(Rate::new(1, 1000)?);
    /// let bloom = builder.expected_items(alloc, 1000)?;
    /// ```
    pub fn with_false_pos(rate: Rate) -> BlockedBuilderWithFalsePositiveRate
        ensures rate { result.rate ≡ rate }
        ensures key { HasKey result.hasher 0 0 }
    {
        BlockedBuilderWithFalsePositiveRate {
            rate,
            hasher: DefaultHasher::default(),
        }
    }
}

impl BlockedBuilderWithFalsePositiveRate {
    /// The same builder with the key of a seed, which is its sixteen big-endian bytes.
    pub fn seed(self, seed: &u128) -> Self
        ensures rate { result.rate ≡ self.rate }
        ensures key { let bytes = to_be_bytes w128 seed.now in
            HasKey result.hasher (key_low bytes) (key_high bytes) }
    {
        self.hasher(DefaultHasher::seeded(&seed.to_be_bytes()))
    }
}

impl<S: Drop> BlockedBuilderWithFalsePositiveRate<S> {
    /// The same builder with another hasher.
    pub fn hasher<H: BuildHasher>(self, hasher: H) -> BlockedBuilderWithFalsePositiveRate<H>
        ensures rate { result.rate ≡ self.rate }
        ensures hasher { result.hasher ≡ hasher }
    {
        BlockedBuilderWithFalsePositiveRate {
            rate: self.rate,
            hasher,
        }
    }

    /// An empty filter for this many items, where 0 counts as 1, at the rate of the builder.
    ///
    /// # Errors
    /// `SizeOverflow` for 2^64 bits or more, `TooManyWords` for more than 2^58 - 8 words, and
    /// `Memory` where there is no room for them.
    pub fn expected_items(
        self,
        alloc: Global,
        expected_items: usize,
    ) -> Result<BlockedBloomFilter<S>, FilterError>
        ensures made { IfOk result (IsMadeInLinesFor self expected_items) }
        // Only one number of bits is the size, as a law of `bloom_parts` says.
        ensures refused { (bits : ℕ) × IsSizeInLinesOf self expected_items bits
            × RefusesAs (line_size_refusal bits) (result_err result) }
    {
        let size = optimal_size_in_lines(expected_items.max(1), self.rate)?;
        let words = zero_lines(alloc, size)?;
        let hasher = self.hasher;
        Ok(BlockedBuilderWithBits { words, hasher }.expected_items(expected_items))
    }
}

impl<S: BuildHasher + Drop> BlockedBuilderWithFalsePositiveRate<S> {
    /// A filter for as many items as the iterator's `len()`, into which all that come are inserted.
    ///
    /// # Errors
    /// Those of `expected_items`, before any item is taken.
    pub fn items<'a, T: Hash + 'a, I: IntoIterator<Item = &'a T>>(
        self,
        alloc: Global,
        items: I,
    ) -> Result<BlockedBloomFilter<S>, FilterError>
    where
        I::IntoIter: ExactSizeIterator,
        // The iterator ends.
        requires { IsFiniteIterable I.into_iter_gives I.IntoIter.can_next I.IntoIter.remaining
            items }
        ensures hasher { IfOk result (λ filter. filter.hasher ≡ self.hasher) }
        // `items_left` is the iterator's `len()`, which sizes the filter and no more.
        ensures content { IfOk result (λ filter. (it : I.IntoIter) × I.into_iter_gives items it
            × (made : Filter S) × IsMadeInLinesFor self (items_left I.IntoIter.remaining it) made
            × WholeRun I.IntoIter.next_gives it (λ run.
            InsertsItemsInLines (lent_hash_of S.BuildHasher S.Hasher.Hasher T.hash_input)
            made run.items filter)) }
        ensures refused { (it : I.IntoIter) × I.into_iter_gives items it
            × (bits : ℕ) × IsSizeInLinesOf self (items_left I.IntoIter.remaining it) bits
            × RefusesAs (line_size_refusal bits) (result_err result) }
    {
        let items = items.into_iter();
        let mut filter = self.expected_items(alloc, items.len())?;
        filter.insert_all(items);
        Ok(filter)
    }
}

/// Builders are equal where their rates are, whatever their hashers.
impl<S> PartialEq for BlockedBuilderWithFalsePositiveRate<S> {
    ghost eq = { same_rate_start };

    ghost laws = { partial_equiv_from_equiv (on_equiv (λ b. b.rate) same_rate-laws) };

    fn eq(&self, other: &Self) -> bool {
        self.rate == other.rate
    }
}

impl<S> Eq for BlockedBuilderWithFalsePositiveRate<S> {
    ghost laws = { on_equiv (λ b. b.rate) same_rate-laws };
}
