//! A first use.

use fastbloom::{BloomFilter, FilterError, Rate};
use std::alloc::Global;

/// How many of the names were there before, from a filter sized for one false positive in a
/// thousand.
pub fn count_repeated(alloc: Global, key: &u128, names: &[&str]) -> Result<u64, FilterError> {
    let rate = Rate::new(1, 1000)?;
    let builder = BloomFilter::with_false_pos(rate).seed(key);
    let mut seen = builder.expected_items(alloc, names.len())?;
    let mut repeated = 0u64;
    for name in names {
        if seen.insert(name) {
            repeated = repeated.saturating_add(1);
        }
    }
    Ok(repeated)
}
