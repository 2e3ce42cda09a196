//! The examples of filters that threads share.
use super::WORD_OF_ONE;
use examples::filled;
use examples::rotated::rotate;
use examples::seated::insert_hashes;
use examples::shared::count_found;
use fastbloom::{AtomicBloomFilter, BloomFilter, FilterError, SeatedBloomFilter};
use std::alloc::Global;
use std::thread::Threads;

/// How many of the hashes 1, 2 and 1 set a bit.
pub(super) fn count_new(alloc: Global) -> Result<u64, FilterError> {
    let words = vec![in alloc; 0u64; 64]?;
    let (filter, mut passes) = SeatedBloomFilter::new(alloc, words, 2, 1)?;
    let Some(mut pass) = passes.pop() else {
        unreachable!()
    };
    Ok(insert_hashes(&filter, &mut pass, &[1, 2, 1]))
}

/// Whether a rotation gives what was inserted, and leaves nothing.
pub(super) fn is_rotated(alloc: Global) -> Result<bool, FilterError> {
    let builder = AtomicBloomFilter::with_num_bits(alloc, 64)?.seed(&42);
    let live = builder.hashes(alloc, 2)?;
    live.insert_hash(1);
    match rotate(alloc, &live, &42) {
        Ok(past) => {
            let is_given = past.as_slice() == [WORD_OF_ONE].as_slice();
            Ok(is_given & !live.contains_hash(1))
        }
        Err(refusal) => Err(refusal),
    }
}

// Whether a filter finds the hashes 1 to 7.
fn finds_seven(filter: &BloomFilter) -> bool {
    let mut are_found = true;
    for hash in 1..=7u64 {
        are_found &= filter.contains_hash(hash);
    }
    are_found
}

/// Whether a filter that workers fill finds the hashes.
pub(super) fn is_filled<R: Threads>(rt: &R, alloc: Global) -> bool {
    match filled::filter_of(rt, alloc, &[1, 2, 3, 4, 5, 6, 7]) {
        Ok(filter) => finds_seven(&filter),
        Err(_refusal) => false,
    }
}

/// Whether all is found that two threads inserted.
pub(super) fn finds_all<R: Threads>(rt: &R, alloc: Global) -> bool {
    matches!(count_found(rt, alloc), Ok(2000))
}
