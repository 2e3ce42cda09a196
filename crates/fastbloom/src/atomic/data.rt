//! Shared filters as plain data, which `serde` reads and writes.
ghost use Rattle.std.specs.Prelude.{◌≡◌, ◌+◌, None, IfOk, IsOkUnless, vec_len};
ghost use Rattle.std.specs.Result.{result_err};
ghost use Rattle.bloom_parts.specs.Keys.{HasKey, key_of};
ghost use Rattle.bloom_parts.specs.Made.{BeganWith};
ghost use Rattle.bloom_plain.specs.Builders.{RefusesAs};
ghost use Rattle.bloom_plain.specs.Data.{data_refusal};
ghost use Rattle.bloom_steps.specs.Loaded.{WereLoaded};

use super::AtomicBloomFilter;
use bloom_parts::bit_vector::{AtomicBitVec, gather};
use bloom_parts::error::FilterError;
use bloom_parts::hasher::DefaultHasher;
use bloom_plain::{BitsData, FilterData, shape_of_data};
use std::alloc::Global;

impl AtomicBloomFilter {
    /// The filter as plain data, with the words as they were loaded.
    ///
    /// # Errors
    /// `Memory` where there is no room for the words.
    pub fn to_data(&self, alloc: Global) -> Result<FilterData, FilterError>
        ensures words { IfOk result (λ form. WereLoaded self.now.words form.bits.bits.items) }
        ensures hashes { IfOk result (λ form. self.now.hashes ≡ form.num_hashes_minus_one + 1) }
        ensures key { IfOk result (λ form. key_of self.now.hasher ≡ (form.k0, form.k1)) }
        // The data are never refused.
        ensures good { IfOk result (λ form. data_refusal form ≡ None) }
        ensures refused { IsOkUnless result FilterError.Memory }
    {
        let bits = gather(alloc, self.words.iter())?;
        let (k0, k1) = self.hasher.key();
        Ok(FilterData {
            bits: BitsData { bits },
            num_hashes_minus_one: self.num_hashes - 1,
            k0,
            k1,
        })
    }

    /// The filter of these data, under their key. Its words are those of the data.
    ///
    /// # Errors
    /// `EmptyWords` where there is no word, `TooManyWords` where there are more than 2^58 - 1,
    /// `HashCount` where the number of hashes would be 2^32, and else `Memory` where there is no
    /// room for the words that threads share.
    pub fn from_data(alloc: Global, form: FilterData) -> Result<Self, FilterError>
        ensures began { IfOk result (λ filter. BeganWith filter.words form.bits.bits.items) }
        ensures words { IfOk result (λ filter. filter.words.count ≡ vec_len form.bits.bits) }
        ensures hashes { IfOk result (λ filter. filter.hashes ≡ form.num_hashes_minus_one + 1) }
        ensures key { IfOk result (λ filter. HasKey filter.hasher form.k0 form.k1) }
        ensures refused { RefusesAs (data_refusal form) (result_err result) }
    {
        let (_num_words, num_hashes) = shape_of_data(&form)?;
        let words = AtomicBitVec::from_words(alloc, form.bits.bits.iter().copied())?;
        let hasher = DefaultHasher::keyed(form.k0, form.k1);
        Ok(AtomicBloomFilter::from_parts(words, num_hashes, hasher))
    }
}
