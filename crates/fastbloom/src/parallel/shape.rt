//! Shapes of filters.
ghost use Rattle.bloom_plain.specs.Filter.{IsShape};

use bloom_parts::error::FilterError;
use bloom_plain::BloomFilter;
use bloom_plain::builder::num_words_for;
use std::alloc::{AllocError, Global};

/// The number of words and the number of hashes of a filter to be.
#[derive(Clone, Copy, Debug)]
pub struct Shape {
    num_words: usize,
    num_hashes: u32,
    pub ghost is_shape: { IsShape num_words num_hashes },
}

impl Shape {
    ghost use Rattle.std.specs.Prelude.{◌≡◌, [], IfOk, max};
    ghost use Rattle.std.specs.Result.{result_err};
    ghost use Rattle.bloom_parts.specs.Keys.{HasKey};
    ghost use Rattle.bloom_plain.specs.Builders.{words_for, bits_refusal};
    ghost use Rattle.fastbloom.specs.Fill.{words_of, hashes_of, IsFilledWith};

    /// The shape of at least this many bits, and of this many hashes, where 0 counts as 1: that of
    /// the filter which `with_num_bits` and `hashes` would make.
    ///
    /// # Errors
    /// `ZeroBits` for no bits, and `TooManyWords` for more than 2^58 - 1 words.
    pub fn new(num_bits: usize, num_hashes: u32) -> Result<Shape, FilterError>
        ensures words { IfOk result (λ shape. words_of shape ≡ words_for num_bits) }
        ensures hashes { IfOk result (λ shape. hashes_of shape ≡ max 1 num_hashes) }
        ensures refused { result_err result ≡ bits_refusal num_bits }
    {
        if num_bits == 0 {
            return Err(FilterError::ZeroBits);
        }
        Ok(Shape {
            num_words: num_words_for(num_bits)?,
            num_hashes: num_hashes.max(1),
        })
    }

    // The filter of this shape with every position clear, under the zero key.
    pub(super) fn empty_filter(self, alloc: Global) -> Result<BloomFilter, AllocError>
        ensures empty { IfOk result (λ filter. IsFilledWith self [] filter) }
        ensures key { IfOk result (λ filter. HasKey filter.hasher 0 0) }
    {
        match BloomFilter::with_num_bits(alloc, 64 * self.num_words) {
            Ok(builder) => Ok(builder.hashes(self.num_hashes)),
            Err(_no_memory) => Err(AllocError),
        }
    }
}
