//! Filters that threads share, as README and docs/CALLING.md show them.

use fastbloom::{AtomicBloomFilter, FilterError, Rate, SeatedBloomFilter};
use std::alloc::Global;
use std::sync::Arc;

/// Many threads, each with an `Arc` of the filter. Returns false and true.
pub fn shared_filter(alloc: Global, key: &u128) -> Result<(bool, bool), FilterError> {
    let one_in_a_thousand = Rate::new(1, 1000)?;
    let builder = AtomicBloomFilter::with_false_pos(one_in_a_thousand).seed(key);
    let mine = Arc::new(alloc, builder.expected_items(alloc, 1_000_000)?)?;
    let theirs = Arc::try_clone(&mine)?; // to be moved into another thread
    let before = theirs.insert(&"crab"); // false: it is new
    let after = mine.contains(&"crab"); // true: it was inserted
    Ok((before, after))
}

/// Many threads, each with a pass: a hash that a pass knows is found by it from then on.
pub fn seated_filter(alloc: Global) -> Result<(bool, bool, Vec<u64>), FilterError> {
    let words = vec![in alloc; 0u64]?;
    let (filter, mut passes) = SeatedBloomFilter::new(alloc, words, 2, 2)?;
    let (Some(mut first), Some(mut second)) = (passes.pop(), passes.pop()) else {
        unreachable!() // two passes were asked for
    };
    let before = filter.insert_hash_as(&mut first, 1); // false: this pass set a bit
    filter.meet(&mut first, &mut second); // each then knows what either knew
    let after = filter.contains_hash_as(&mut second, 1); // true
    Ok((before, after, filter.close(alloc, second)?)) // one word, with bits 0 and 20
}
