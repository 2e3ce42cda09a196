//! Builders of filters that threads share, from words.
ghost use Rattle.std.specs.Prelude.{◌≡◌, ◌<◌, ◌≤◌, ◌^◌, length, replicate, vec_len, IfOk, IsOkUnless, max};
ghost use Rattle.std.specs.Result.{result_err};
ghost use Rattle.std.specs.Int.{w128, to_be_bytes};
ghost use Rattle.std.specs.Iterator.{IsFiniteIterable, items_left};
ghost use Rattle.std.specs.Iterator.Runs.{WholeRun};
ghost use Rattle.std.specs.Cmp.Lexicographic.{nat_list_eq_equiv};
ghost use Rattle.std.specs.Cmp.{on_equiv, partial_equiv_from_equiv};
ghost use Rattle.bloom_parts.specs.Keys.{HasKey, key_low, key_high};
ghost use Rattle.bloom_parts.specs.Made.{BeganWith};
ghost use Rattle.bloom_plain.specs.Builders.{words_for, words_refusal, bits_refusal, RefusesAs, sized_filter, same_start};
ghost use Rattle.fastbloom.specs.Shared.{MakesInserts};
ghost use Rattle.bloom_plain.specs.SharedFilters.{HasFormOf};
ghost use Rattle.bloom_plain.specs.SourceHash.{lent_hash_of};

use crate::atomic::AtomicBloomFilter;
use bloom_parts::bit_vector::{AtomicBitVec, BitVec};
use bloom_parts::error::FilterError;
use bloom_parts::hasher::DefaultHasher;
use bloom_plain::BloomFilter;
use bloom_plain::builder::{BuilderWithBits, bits_and_hasher, num_hashes_for};
use std::alloc::Global;
use std::hash::{BuildHasher, Hash};
use std::marker::Model;

/// A builder that has the words of the shared filter, as they will be. Contracts see the words and
/// the hasher.
#[derive(Debug, Drop)]
pub struct AtomicBuilderWithBits<S = DefaultHasher> {
    plain: BuilderWithBits<S>,
}

impl<S> Model for AtomicBuilderWithBits<S> {
    ghost use Rattle.bloom_plain.specs.Builders.{Start, start_code};

    ghost Value = { Start S };

    ghost coded = { start_code S.code };

    ghost view = { λ b. b.plain };
}

// The filter whose words begin as these bits. `num_hashes` 0 counts as 1.
fn filter_of<S: Drop>(
    alloc: Global,
    bits: &BitVec,
    num_hashes: u32,
    hasher: S,
) -> Result<AtomicBloomFilter<S>, FilterError>
    requires some { 1 ≤ length bits.now }
    requires few { length bits.now < 2 ^ 58 }
    ensures began { IfOk result (λ filter. BeganWith filter.words bits.now) }
    ensures words { IfOk result (λ filter. filter.words.count ≡ length bits.now) }
    ensures hashes { IfOk result (λ filter. filter.hashes ≡ max 1 num_hashes) }
    ensures hasher { IfOk result (λ filter. filter.hasher ≡ hasher) }
    ensures refused { IsOkUnless result FilterError.Memory }
{
    let words = AtomicBitVec::from_words(alloc, bits.as_slice().iter().copied())?;
    Ok(AtomicBloomFilter::from_parts(words, num_hashes, hasher))
}

impl AtomicBloomFilter {
    /// A builder of a filter of at least this many bits, all clear, under the zero key.
    ///
    /// ```
    /// let builder = AtomicBloomFilter::with_num_bits(alloc, 1000)?; // 1024 bits, whole words
    /// let bloom = builder.hashes(alloc, 4)?;
    /// ```
    ///
    /// # Errors
    /// `ZeroBits` for no bits, `TooManyWords` for more than 2^58 - 1 words, and else `Memory` where
    /// there is no room for them.
    pub fn with_num_bits(
        alloc: Global,
        num_bits: usize,
    ) -> Result<AtomicBuilderWithBits, FilterError>
        ensures words { IfOk result (λ builder.
            builder.words ≡ replicate (words_for num_bits) 0) }
        ensures key { IfOk result (λ builder. HasKey builder.hasher 0 0) }
        ensures refused { RefusesAs (bits_refusal num_bits) (result_err result) }
    {
        Ok(AtomicBuilderWithBits {
            plain: BloomFilter::with_num_bits(alloc, num_bits)?,
        })
    }

    /// A builder of a filter that begins with these words, under the zero key.
    ///
    /// # Errors
    /// `EmptyWords` where there is no word, and `TooManyWords` where there are more than 2^58 - 1.
    pub fn from_vec(bit_vec: Vec<u64>) -> Result<AtomicBuilderWithBits, FilterError>
        ensures words { IfOk result (λ builder. builder.words ≡ bit_vec.items) }
        ensures key { IfOk result (λ builder. HasKey builder.hasher 0 0) }
        ensures refused { result_err result ≡ words_refusal (vec_len bit_vec) }
    {
        Ok(AtomicBuilderWithBits {
            plain: BloomFilter::from_vec(bit_vec)?,
        })
    }
}

impl AtomicBuilderWithBits {
    /// The same builder with the key of a seed, which is its sixteen big-endian bytes.
    pub fn seed(self, seed: &u128) -> Self
        ensures words { result.words ≡ self.words }
        ensures key { let bytes = to_be_bytes w128 seed.now in
            HasKey result.hasher (key_low bytes) (key_high bytes) }
    {
        AtomicBuilderWithBits {
            plain: self.plain.seed(seed),
        }
    }
}

impl<S: Drop> AtomicBuilderWithBits<S> {
    /// The same builder with another hasher.
    pub fn hasher<H: BuildHasher>(self, hasher: H) -> AtomicBuilderWithBits<H>
        ensures words { result.words ≡ self.words }
        ensures hasher { result.hasher ≡ hasher }
    {
        AtomicBuilderWithBits {
            plain: self.plain.hasher(hasher),
        }
    }

    /// The filter with this many hashes, where 0 counts as 1. Its words are those of the builder.
    ///
    /// # Errors
    /// `Memory` where there is no room for the words that threads share.
    pub fn hashes(self, alloc: Global, num_hashes: u32) -> Result<AtomicBloomFilter<S>, FilterError>
        ensures began { IfOk result (λ filter. BeganWith filter.words self.words) }
        ensures words { IfOk result (λ filter. filter.words.count ≡ length self.words) }
        ensures hashes { IfOk result (λ filter. filter.hashes ≡ max 1 num_hashes) }
        ensures hasher { IfOk result (λ filter. filter.hasher ≡ self.hasher) }
        ensures refused { IsOkUnless result FilterError.Memory }
    {
        let (bits, hasher) = bits_and_hasher(self.plain);
        filter_of(alloc, &bits, num_hashes, hasher)
    }

    /// The filter with as many hashes as suit its bits and this many items, where 0 counts as 1.
    ///
    /// # Errors
    /// `Memory` where there is no room for the words that threads share.
    pub fn expected_items(
        self,
        alloc: Global,
        expected_items: usize,
    ) -> Result<AtomicBloomFilter<S>, FilterError>
        ensures form { IfOk result (λ filter.
            HasFormOf filter (sized_filter self expected_items)) }
        ensures refused { IsOkUnless result FilterError.Memory }
    {
        let (bits, hasher) = bits_and_hasher(self.plain);
        let num_hashes = num_hashes_for(bits.num_bits(), expected_items);
        filter_of(alloc, &bits, num_hashes, hasher)
    }
}

impl<S: BuildHasher + Drop> AtomicBuilderWithBits<S> {
    /// A filter for as many items as the iterator's `len()`, into which all that come are inserted.
    ///
    /// # Errors
    /// `Memory` where there is no room for the words that threads share, before any item is taken.
    pub fn items<'a, T: Hash + 'a, I: IntoIterator<Item = &'a T>>(
        self,
        alloc: Global,
        items: I,
    ) -> Result<AtomicBloomFilter<S>, FilterError>
    where
        I::IntoIter: ExactSizeIterator,
        // The iterator ends.
        requires { IsFiniteIterable I.into_iter_gives I.IntoIter.can_next I.IntoIter.remaining
            items }
        // `items_left` is the iterator's `len()`, which sizes the filter and no more.
        ensures form { IfOk result (λ filter. (it : I.IntoIter) × I.into_iter_gives items it
            × HasFormOf filter (sized_filter self (items_left I.IntoIter.remaining it))
            × WholeRun I.IntoIter.next_gives it (λ run. MakesInserts
            (lent_hash_of S.BuildHasher S.Hasher.Hasher T.hash_input) filter run.items)) }
        ensures refused { IsOkUnless result FilterError.Memory }
    {
        let items = items.into_iter();
        let filter = self.expected_items(alloc, items.len())?;
        filter.insert_all(items);
        Ok(filter)
    }
}

/// Builders are equal where their words are, whatever their hashers.
impl<S> PartialEq for AtomicBuilderWithBits<S> {
    ghost eq = { same_start };

    ghost laws = { partial_equiv_from_equiv (on_equiv (λ b. b.words) nat_list_eq_equiv) };

    fn eq(&self, other: &Self) -> bool {
        self.plain == other.plain
    }
}

impl<S> Eq for AtomicBuilderWithBits<S> {
    ghost laws = { on_equiv (λ b. b.words) nat_list_eq_equiv };
}
