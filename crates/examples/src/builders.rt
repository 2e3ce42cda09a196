//! The ways to say how large a filter is.

use fastbloom::{BloomFilter, FilterError, Rate};
use std::alloc::Global;

/// A filter of at least 1000 bits, with 4 hashes.
pub fn by_bits_and_hashes(alloc: Global) -> Result<BloomFilter, FilterError> {
    let builder = BloomFilter::with_num_bits(alloc, 1000)?; // 1024 bits, whole words
    Ok(builder.hashes(4))
}

/// A filter of at least 1000 bits, with the number of hashes that suits 100 items.
pub fn by_bits_and_items(alloc: Global) -> Result<BloomFilter, FilterError> {
    let builder = BloomFilter::with_num_bits(alloc, 1000)?;
    Ok(builder.expected_items(100)) // 7 hashes, for 10.24 bits an item
}

/// A filter for 1000 items, at a rate of false positives of one in a thousand.
pub fn by_rate_and_items(alloc: Global) -> Result<BloomFilter, FilterError> {
    let builder = BloomFilter::with_false_pos(Rate::new(1, 1000)?);
    builder.expected_items(alloc, 1000) // 14400 bits, 10 hashes
}

/// A filter of words that are there already.
pub fn by_words(alloc: Global) -> Result<BloomFilter, FilterError> {
    let words = vec![in alloc; 1048577u64]?; // bits 0 and 20
    Ok(BloomFilter::from_vec(words)?.hashes(2))
}
