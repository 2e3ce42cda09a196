//! The keys that are measured, and their hashes.

use fastbloom::BloomFilter;
use std::alloc::{AllocError, Global};

/// The hash of a key: the numbers of keys, spread evenly.
#[inline]
pub fn hash_of(key: u64) -> u64 {
    let word = key.wrapping_add(0x9e37_79b9_7f4a_7c15);
    let word = (word ^ (word >> 30)).wrapping_mul(0xbf58_476d_1ce4_e5b9);
    let word = (word ^ (word >> 27)).wrapping_mul(0x94d0_49bb_1331_11eb);
    word ^ (word >> 31)
}

/// The first of the keys that a round looks up, of which none is ever inserted. Each round takes
/// other keys, which no processor can know from the round before.
pub fn first_foreign_key(keys: u64, round: u32) -> u64 {
    keys.wrapping_mul(round as u64).wrapping_add(1 << 40)
}

/// Looks up this many keys from the first on, and counts the look-ups that returned true.
#[inline(never)]
pub fn contains_keys(filter: &BloomFilter, first: u64, keys: u64) -> u64 {
    let mut answers: u64 = 0;
    'keys: for key in 0..keys {
        let answer = filter.contains_hash(hash_of(first.wrapping_add(key)));
        answers = answers.wrapping_add(answer as u64);
    }
    answers
}

/// The numbers of keys below this one.
pub fn numbers_to(alloc: Global, end: u64) -> Result<Vec<u64>, AllocError> {
    let mut numbers = Vec::new(alloc);
    'keys: for key in 0..end {
        numbers.push(key)?;
    }
    Ok(numbers)
}
