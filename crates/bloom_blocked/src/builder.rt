//! Builders of blocked filters.
ghost use Rattle.std.specs.Prelude.{◌≡◌, ◌%◌, ◌<◌, ◌≤◌, ◌^◌, length, replicate, vec_len, IfOk, max};
ghost use Rattle.std.specs.Result.{result_err};
ghost use Rattle.std.specs.Int.{w128, to_be_bytes};
ghost use Rattle.std.specs.Iterator.{IsFiniteIterable, items_left};
ghost use Rattle.std.specs.Iterator.Runs.{WholeRun};
ghost use Rattle.std.specs.Cmp.Lexicographic.{nat_list_eq_equiv};
ghost use Rattle.std.specs.Cmp.{on_equiv, partial_equiv_from_equiv};
ghost use Rattle.bloom_parts.specs.Keys.{HasKey, key_low, key_high};
ghost use Rattle.bloom_plain.specs.Builders.{RefusesAs, same_start};
ghost use Rattle.bloom_plain.specs.SourceHash.{lent_hash_of};
ghost use Rattle.bloom_blocked.specs.Blocked.{InsertsItemsInLines};
ghost use Rattle.bloom_blocked.specs.BlockedSizing.{line_words_for, line_bits_refusal, line_size_refusal, sized_in_lines};
ghost use Rattle.bloom_blocked.specs.LineRefusals.{lines_refusal};

mod rate;

use crate::by_hash::LINE;
use crate::error::LinesError;
use crate::filter::BlockedBloomFilter;
use crate::sizing::{num_words_in_lines, optimal_hashes_in_lines};
use bloom_parts::bit_vector::MAX_WORDS;
use bloom_parts::error::FilterError;
use bloom_parts::hasher::DefaultHasher;
pub use rate::BlockedBuilderWithFalsePositiveRate;
use std::alloc::Global;
use std::hash::{BuildHasher, Hash};
use std::marker::Model;

/// A builder that has the lines of its filter. Contracts see the words and the hasher.
#[derive(Debug, Drop)]
pub struct BlockedBuilderWithBits<S = DefaultHasher> {
    words: Vec<u64>,
    hasher: S,
}

impl<S> Model for BlockedBuilderWithBits<S> {
    ghost use Rattle.std.specs.Prelude.{◌≡◌, ◌≤◌, ◌<◌, ◌^◌, ◌%◌, length};
    ghost use Rattle.bloom_plain.specs.Builders.{Start, start_code};

    ghost Value = { Start S };

    ghost coded = { start_code S.code };

    ghost view = { λ b. record { words = b.words.items; hasher = b.hasher } };

    ghost invariant = { λ b. (8 ≤ length b.words.items) × (length b.words.items < 2 ^ 58)
        × (length b.words.items % 8 ≡ 0) };
}

// The zero words of the lines for this many bits, which one allocation makes.
fn zero_lines(alloc: Global, num_bits: usize) -> Result<Vec<u64>, FilterError>
    requires { 0 < num_bits }
    ensures words { IfOk result (λ words. words.items ≡ replicate (line_words_for num_bits) 0) }
    ensures some { IfOk result (λ words. 8 ≤ length words.items) }
    ensures few { IfOk result (λ words. length words.items < 2 ^ 58) }
    ensures whole { IfOk result (λ words. length words.items % 8 ≡ 0) }
    ensures refused { RefusesAs (line_size_refusal num_bits) (result_err result) }
{
    let words = vec![in alloc; 0u64; num_words_in_lines(num_bits)?]?;
    Ok(words)
}

impl BlockedBloomFilter {
    /// A builder of a filter of at least this many bits, rounded up to whole lines of 512, all
    /// clear, under the zero key.
    ///
    /// ```
    /// let builder = BlockedBloomFilter::with_num_bits(alloc, 1000)?; // 1024 bits, two lines
    /// let bloom = builder.hashes(4);
    /// ```
    ///
    /// # Errors
    /// `ZeroBits` for no bits, `TooManyWords` for more than 2^58 - 8 words, and `Memory` where
    /// there is no room for them.
    pub fn with_num_bits(
        alloc: Global,
        num_bits: usize,
    ) -> Result<BlockedBuilderWithBits, FilterError>
        ensures words { IfOk result (λ builder.
            builder.words ≡ replicate (line_words_for num_bits) 0) }
        ensures key { IfOk result (λ builder. HasKey builder.hasher 0 0) }
        ensures refused { RefusesAs (line_bits_refusal num_bits) (result_err result) }
    {
        if num_bits == 0 {
            return Err(FilterError::ZeroBits);
        }
        Ok(BlockedBuilderWithBits {
            words: zero_lines(alloc, num_bits)?,
            hasher: DefaultHasher::default(),
        })
    }

    /// A builder of a filter that keeps these words, eight in a line, under the zero key.
    ///
    /// # Errors
    /// `EmptyWords` where there is no word, `TooManyWords` where there are more than 2^58 - 1, and
    /// `PartOfALine` where their number isn't a multiple of eight.
    pub fn from_vec(bit_vec: Vec<u64>) -> Result<BlockedBuilderWithBits, LinesError>
        ensures words { IfOk result (λ builder. builder.words ≡ bit_vec.items) }
        ensures key { IfOk result (λ builder. HasKey builder.hasher 0 0) }
        ensures refused { result_err result ≡ lines_refusal (vec_len bit_vec) }
    {
        if bit_vec.is_empty() {
            return Err(LinesError::EmptyWords);
        }
        if bit_vec.len() > MAX_WORDS {
            return Err(LinesError::TooManyWords);
        }
        if bit_vec.len() % LINE != 0 {
            return Err(LinesError::PartOfALine);
        }
        Ok(BlockedBuilderWithBits {
            words: bit_vec,
            hasher: DefaultHasher::default(),
        })
    }
}

impl BlockedBuilderWithBits {
    /// The same builder with the key of a seed, which is its sixteen big-endian bytes.
    pub fn seed(self, seed: &u128) -> Self
        ensures words { result.words ≡ self.words }
        ensures key { let bytes = to_be_bytes w128 seed.now in
            HasKey result.hasher (key_low bytes) (key_high bytes) }
    {
        self.hasher(DefaultHasher::seeded(&seed.to_be_bytes()))
    }
}

impl<S: Drop> BlockedBuilderWithBits<S> {
    /// The same builder with another hasher.
    pub fn hasher<H: BuildHasher>(self, hasher: H) -> BlockedBuilderWithBits<H>
        ensures words { result.words ≡ self.words }
        ensures hasher { result.hasher ≡ hasher }
    {
        BlockedBuilderWithBits {
            words: self.words,
            hasher,
        }
    }
}

impl<S> BlockedBuilderWithBits<S> {
    /// The filter with this many hashes, where 0 counts as 1, and with the words of the builder.
    pub fn hashes(self, num_hashes: u32) -> BlockedBloomFilter<S>
        ensures words { result.words ≡ self.words }
        ensures hashes { result.hashes ≡ max 1 num_hashes }
        ensures hasher { result.hasher ≡ self.hasher }
    {
        BlockedBloomFilter::from_parts(self.words, num_hashes, self.hasher)
    }

    /// The filter with as many hashes as suit its bits and this many items, where 0 counts as 1.
    pub fn expected_items(self, expected_items: usize) -> BlockedBloomFilter<S>
        ensures { result ≡ sized_in_lines self expected_items }
    {
        let num_bits = self.words.len() * 64;
        let num_hashes = optimal_hashes_in_lines(num_bits, expected_items.max(1));
        self.hashes(num_hashes)
    }
}

impl<S: BuildHasher> BlockedBuilderWithBits<S> {
    /// A filter for as many items as the iterator's `len()`, into which all that come are inserted.
    pub fn items<'a, T: Hash + 'a, I: IntoIterator<Item = &'a T>>(
        self,
        items: I,
    ) -> BlockedBloomFilter<S>
    where
        I::IntoIter: ExactSizeIterator,
        // The iterator ends.
        requires { IsFiniteIterable I.into_iter_gives I.IntoIter.can_next I.IntoIter.remaining
            items }
        ensures words { length result.words ≡ length self.words }
        ensures hasher { result.hasher ≡ self.hasher }
        // `items_left` is the iterator's `len()`, which sizes the filter and no more.
        ensures content { (it : I.IntoIter) × I.into_iter_gives items it
            × WholeRun I.IntoIter.next_gives it (λ run.
            InsertsItemsInLines (lent_hash_of S.BuildHasher S.Hasher.Hasher T.hash_input)
            (sized_in_lines self (items_left I.IntoIter.remaining it)) run.items result) }
    {
        let items = items.into_iter();
        let mut filter = self.expected_items(items.len());
        filter.insert_all(items);
        filter
    }
}

/// Builders are equal where their words are, whatever their hashers.
impl<S> PartialEq for BlockedBuilderWithBits<S> {
    ghost eq = { same_start };

    ghost laws = { partial_equiv_from_equiv (on_equiv (λ b. b.words) nat_list_eq_equiv) };

    fn eq(&self, other: &Self) -> bool {
        bloom_parts::slices::are_equal(self.words.as_slice(), other.words.as_slice())
    }
}

impl<S> Eq for BlockedBuilderWithBits<S> {
    ghost laws = { on_equiv (λ b. b.words) nat_list_eq_equiv };
}
