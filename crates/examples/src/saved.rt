//! A filter that is taken apart and made again.

use fastbloom::{BloomFilter, DefaultHasher, FilterError};
use std::alloc::Global;

/// What is to be stored: the words, the number of hashes, and the key.
#[derive(Drop)]
pub struct Parts {
    pub words: Vec<u64>,
    pub num_hashes: u32,
    pub key: [u8; 16],
}

/// The parts of a filter under this key.
pub fn parts_of(alloc: Global, filter: &BloomFilter, key: [u8; 16]) -> Result<Parts, FilterError> {
    Ok(Parts {
        words: filter.as_slice().to_vec(alloc)?,
        num_hashes: filter.num_hashes(),
        key,
    })
}

/// The filter of these parts, which contains the same hashes as the one that they came from.
pub fn filter_of(parts: Parts) -> Result<BloomFilter, FilterError> {
    let builder = BloomFilter::from_vec(parts.words)?;
    Ok(
        builder
            .hasher(DefaultHasher::seeded(&parts.key))
            .hashes(parts.num_hashes),
    )
}
