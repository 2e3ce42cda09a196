//! Builders of filters, and the parts that builders of shared filters use too.
ghost use Rattle.std.specs.Prelude.{◌≡◌, ◌<◌, ◌≤◌, ◌^◌, length, replicate, vec_len, IfOk, max};
ghost use Rattle.std.specs.Result.{result_err};
ghost use Rattle.std.specs.Int.{w128, to_be_bytes};
ghost use Rattle.std.specs.Iterator.{IsFiniteIterable, items_left};
ghost use Rattle.std.specs.Iterator.Runs.{WholeRun};
ghost use Rattle.std.specs.Cmp.Lexicographic.{nat_list_eq_equiv};
ghost use Rattle.std.specs.Cmp.{on_equiv, partial_equiv_from_equiv};
ghost use Rattle.bloom_parts.specs.Keys.{HasKey, key_low, key_high};
ghost use Rattle.bloom_parts.specs.Sizing.{hashes_for};
ghost use Rattle.bloom_plain.specs.Builders.{words_for, words_refusal, bits_refusal, size_refusal, RefusesAs, sized_filter, same_start};
ghost use Rattle.bloom_plain.specs.Replies.{InsertsItems};
ghost use Rattle.bloom_plain.specs.SourceHash.{lent_hash_of};

mod rate;

use crate::bloom::BloomFilter;
use bloom_parts::bit_vector::{BitVec, MAX_WORDS};
use bloom_parts::error::FilterError;
use bloom_parts::hasher::DefaultHasher;
use bloom_parts::math::optimal_hashes;
pub use rate::{BuilderWithFalsePositiveRate, rate_and_hasher};
use std::alloc::Global;
use std::hash::{BuildHasher, Hash};
use std::marker::Model;

/// A builder that has the words of its filter. Contracts see the words and the hasher.
#[derive(Debug, Drop)]
pub struct BuilderWithBits<S = DefaultHasher> {
    bits: BitVec,
    hasher: S,
}

impl<S> Model for BuilderWithBits<S> {
    ghost use Rattle.std.specs.Prelude.{◌≤◌, ◌<◌, ◌^◌, length};
    ghost use Rattle.bloom_plain.specs.Builders.{Start, start_code};

    ghost Value = { Start S };

    ghost coded = { start_code S.code };

    ghost view = { λ b. record { words = b.bits; hasher = b.hasher } };

    ghost invariant = { λ b. (1 ≤ length b.bits) × (length b.bits < 2 ^ 58) };
}

// The default hasher with the key of a seed, which is its sixteen big-endian bytes.
pub(crate) fn hasher_of_seed(seed: &u128) -> DefaultHasher
    ensures { let bytes = to_be_bytes w128 seed.now in
        HasKey result (key_low bytes) (key_high bytes) }
{
    DefaultHasher::seeded(&seed.to_be_bytes())
}

/// The number of words for this many bits.
///
/// # Errors
/// `TooManyWords` for more than 2^58 - 1 words.
pub fn num_words_for(num_bits: usize) -> Result<usize, FilterError>
    requires { 0 < num_bits }
    ensures value { IfOk result (λ words. words ≡ words_for num_bits) }
    ensures least { IfOk result (λ words. 1 ≤ words) }
    ensures most { IfOk result (λ words. words < 2 ^ 58) }
    ensures refused { result_err result ≡ size_refusal num_bits }
{
    let num_words = num_bits.div_ceil(64);
    if num_words > MAX_WORDS {
        return Err(FilterError::TooManyWords);
    }
    Ok(num_words)
}

/// The number of hashes that suits this many bits and items, where 0 items count as 1.
pub fn num_hashes_for(num_bits: usize, expected_items: usize) -> u32
    ensures value { result ≡ hashes_for num_bits (max 1 expected_items) }
    ensures least { 1 ≤ result }
{
    optimal_hashes(num_bits, expected_items.max(1))
}

// Zero words for this many bits, which one allocation makes.
fn zero_bits(alloc: Global, num_bits: usize) -> Result<BitVec, FilterError>
    requires { 0 < num_bits }
    ensures words { IfOk result (λ bits. bits ≡ replicate (words_for num_bits) 0) }
    ensures some { IfOk result (λ bits. 1 ≤ length bits) }
    ensures few { IfOk result (λ bits. length bits < 2 ^ 58) }
    ensures refused { RefusesAs (size_refusal num_bits) (result_err result) }
{
    let words = vec![in alloc; 0u64; num_words_for(num_bits)?]?;
    Ok(BitVec::from_vec(words))
}

/// The bits and the hasher of a builder.
pub fn bits_and_hasher<S: Drop>(builder: BuilderWithBits<S>) -> (BitVec, S)
    ensures bits { result.0 ≡ builder.words }
    ensures some { 1 ≤ length result.0 }
    ensures few { length result.0 < 2 ^ 58 }
    ensures hasher { result.1 ≡ builder.hasher }
{
    (builder.bits, builder.hasher)
}

impl BloomFilter {
    /// A builder of a filter of at least this many bits, all clear, under the zero key.
    ///
    /// ```
    /// let bloom = BloomFilter::with_num_bits(alloc, 1000)?.hashes(4); // 1024 bits, whole words
    /// ```
    ///
    /// # Errors
    /// `ZeroBits` for no bits, `TooManyWords` for more than 2^58 - 1 words, and `Memory` where
    /// there is no room for them.
    pub fn with_num_bits(alloc: Global, num_bits: usize) -> Result<BuilderWithBits, FilterError>
        ensures words { IfOk result (λ builder.
            builder.words ≡ replicate (words_for num_bits) 0) }
        ensures key { IfOk result (λ builder. HasKey builder.hasher 0 0) }
        ensures refused { RefusesAs (bits_refusal num_bits) (result_err result) }
    {
        if num_bits == 0 {
            return Err(FilterError::ZeroBits);
        }
        Ok(BuilderWithBits {
            bits: zero_bits(alloc, num_bits)?,
            hasher: DefaultHasher::default(),
        })
    }

    /// A builder of a filter that keeps these words, under the zero key.
    ///
    /// # Errors
    /// `EmptyWords` where there is no word, and `TooManyWords` where there are more than 2^58 - 1.
    pub fn from_vec(bit_vec: Vec<u64>) -> Result<BuilderWithBits, FilterError>
        ensures words { IfOk result (λ builder. builder.words ≡ bit_vec.items) }
        ensures key { IfOk result (λ builder. HasKey builder.hasher 0 0) }
        ensures refused { result_err result ≡ words_refusal (vec_len bit_vec) }
    {
        if bit_vec.is_empty() {
            return Err(FilterError::EmptyWords);
        }
        if bit_vec.len() > MAX_WORDS {
            return Err(FilterError::TooManyWords);
        }
        Ok(BuilderWithBits {
            bits: BitVec::from_vec(bit_vec),
            hasher: DefaultHasher::default(),
        })
    }
}

impl BuilderWithBits {
    /// The same builder with the key of a seed, which is its sixteen big-endian bytes.
    pub fn seed(self, seed: &u128) -> Self
        ensures words { result.words ≡ self.words }
        ensures key { let bytes = to_be_bytes w128 seed.now in
            HasKey result.hasher (key_low bytes) (key_high bytes) }
    {
        self.hasher(hasher_of_seed(seed))
    }
}

impl<S: Drop> BuilderWithBits<S> {
    /// The same builder with another hasher.
    pub fn hasher<H: BuildHasher>(self, hasher: H) -> BuilderWithBits<H>
        ensures words { result.words ≡ self.words }
        ensures hasher { result.hasher ≡ hasher }
    {
        BuilderWithBits {
            bits: self.bits,
            hasher,
        }
    }
}

impl<S> BuilderWithBits<S> {
    /// The filter with this many hashes, where 0 counts as 1, and with the words of the builder.
    pub fn hashes(self, num_hashes: u32) -> BloomFilter<S>
        ensures words { result.words ≡ self.words }
        ensures hashes { result.hashes ≡ max 1 num_hashes }
        ensures hasher { result.hasher ≡ self.hasher }
    {
        BloomFilter::from_parts(self.bits, num_hashes, self.hasher)
    }

    /// The filter with as many hashes as suit its bits and this many items, where 0 counts as 1.
    pub fn expected_items(self, expected_items: usize) -> BloomFilter<S>
        ensures { result ≡ sized_filter self expected_items }
    {
        let num_hashes = num_hashes_for(self.bits.num_bits(), expected_items);
        self.hashes(num_hashes)
    }
}

impl<S: BuildHasher> BuilderWithBits<S> {
    /// A filter for as many items as the iterator's `len()`, into which all that come are inserted.
    pub fn items<'a, T: Hash + 'a, I: IntoIterator<Item = &'a T>>(self, items: I) -> BloomFilter<S>
    where
        I::IntoIter: ExactSizeIterator,
        // The iterator ends.
        requires { IsFiniteIterable I.into_iter_gives I.IntoIter.can_next I.IntoIter.remaining
            items }
        ensures words { length result.words ≡ length self.words }
        ensures hasher { result.hasher ≡ self.hasher }
        // `items_left` is the iterator's `len()`, which sizes the filter and no more.
        ensures content { (it : I.IntoIter) × I.into_iter_gives items it
            × WholeRun I.IntoIter.next_gives it (λ run.
            InsertsItems (lent_hash_of S.BuildHasher S.Hasher.Hasher T.hash_input)
            (sized_filter self (items_left I.IntoIter.remaining it)) run.items result) }
    {
        let items = items.into_iter();
        let mut filter = self.expected_items(items.len());
        filter.insert_all(items);
        filter
    }
}

/// Builders are equal where their words are, whatever their hashers.
impl<S> PartialEq for BuilderWithBits<S> {
    ghost eq = { same_start };

    ghost laws = { partial_equiv_from_equiv (on_equiv (λ b. b.words) nat_list_eq_equiv) };

    fn eq(&self, other: &Self) -> bool {
        self.bits == other.bits
    }
}

impl<S> Eq for BuilderWithBits<S> {
    ghost laws = { on_equiv (λ b. b.words) nat_list_eq_equiv };
}
