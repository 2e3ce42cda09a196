//! Filters as plain data, which `serde` reads and writes.
ghost use Rattle.std.specs.Prelude.{◌≡◌, ◌+◌, ◌^◌, ◌<◌, ◌≤◌, None, IfOk, IsOkUnless, vec_len};
ghost use Rattle.std.specs.Result.{result_err};
ghost use Rattle.bloom_parts.specs.Keys.{HasKey};
ghost use Rattle.bloom_plain.specs.Data.{IsDataOf, data_refusal};

use super::BloomFilter;
use bloom_parts::bit_vector::{BitVec, MAX_WORDS};
use bloom_parts::error::FilterError;
use bloom_parts::hasher::DefaultHasher;
use serde::{Deserialize, Serialize};
use std::alloc::Global;

/// The words of a filter, word 0 first.
#[derive(Debug, PartialEq, Eq, Serialize, Deserialize, Drop)]
pub struct BitsData {
    pub bits: Vec<u64>,
}

/// A filter with the default hasher as plain data, in memory or as text.
#[derive(Debug, PartialEq, Eq, Serialize, Deserialize, Drop)]
pub struct FilterData {
    /// The words.
    pub bits: BitsData,
    /// The number of hashes, less one.
    pub num_hashes_minus_one: u32,
    /// The first little-endian word of the key.
    pub k0: u64,
    /// The second little-endian word of the key.
    pub k1: u64,
}

/// The numbers of words and of hashes that a filter of these data has.
///
/// # Errors
/// `EmptyWords` where there is no word, `TooManyWords` where there are more than 2^58 - 1, and
/// `HashCount` where the number of hashes would be 2^32.
pub fn shape_of_data(form: &FilterData) -> Result<(usize, u32), FilterError>
    ensures words { IfOk result (λ shape. shape.0 ≡ vec_len form.now.bits.bits) }
    ensures some { IfOk result (λ shape. 1 ≤ shape.0) }
    ensures few { IfOk result (λ shape. shape.0 < 2 ^ 58) }
    ensures hashes { IfOk result (λ shape. shape.1 ≡ form.now.num_hashes_minus_one + 1) }
    ensures refused { result_err result ≡ data_refusal form.now }
{
    let num_words = form.bits.bits.len();
    if num_words == 0 {
        return Err(FilterError::EmptyWords);
    }
    if num_words > MAX_WORDS {
        return Err(FilterError::TooManyWords);
    }
    match form.num_hashes_minus_one.checked_add(1) {
        Some(num_hashes) => Ok((num_words, num_hashes)),
        None => Err(FilterError::HashCount),
    }
}

impl BloomFilter {
    /// The filter as plain data.
    ///
    /// # Errors
    /// `Memory` where there is no room for the words.
    pub fn to_data(&self, alloc: Global) -> Result<FilterData, FilterError>
        ensures form { IfOk result (λ form. IsDataOf form self.now) }
        // `from_data` never refuses these data.
        ensures good { IfOk result (λ form. data_refusal form ≡ None) }
        ensures refused { IsOkUnless result FilterError.Memory }
    {
        let bits = self.as_slice().to_vec(alloc)?;
        let (k0, k1) = self.hasher.key();
        Ok(FilterData {
            bits: BitsData { bits },
            num_hashes_minus_one: self.num_hashes - 1,
            k0,
            k1,
        })
    }

    /// The filter of these data, under their key.
    ///
    /// # Errors
    /// `EmptyWords` where there is no word, `TooManyWords` where there are more than 2^58 - 1, and
    /// `HashCount` where the number of hashes would be 2^32.
    pub fn from_data(form: FilterData) -> Result<Self, FilterError>
        ensures filter { IfOk result (λ filter. IsDataOf form filter) }
        ensures key { IfOk result (λ filter. HasKey filter.hasher form.k0 form.k1) }
        ensures refused { result_err result ≡ data_refusal form }
    {
        let (_num_words, num_hashes) = shape_of_data(&form)?;
        let FilterData {
            bits: BitsData { bits },
            num_hashes_minus_one: _,
            k0,
            k1,
        } = form;
        let hasher = DefaultHasher::keyed(k0, k1);
        Ok(BloomFilter::from_parts(BitVec::from_vec(bits), num_hashes, hasher))
    }
}
