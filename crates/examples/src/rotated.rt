//! A filter that is rotated from time to time, while other threads use it.

use fastbloom::{AtomicBloomFilter, BloomFilter, FilterError};
use std::alloc::Global;

/// What was inserted since the last rotation, under the same key. The live filter goes on, empty.
pub fn rotate(
    alloc: Global,
    live: &AtomicBloomFilter,
    key: &u128,
) -> Result<BloomFilter, FilterError> {
    let words = live.take_words(alloc)?;
    let past = BloomFilter::from_vec(words)?.seed(key);
    Ok(past.hashes(live.num_hashes()))
}
