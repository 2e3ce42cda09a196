//! A filter for a number of items that isn't known.

use fastbloom::{GrowingError, GrowingFilter, Rate};
use std::alloc::Global;

/// How many of the names were there before, and from how many filters that is told. The rates that
/// these are sized for sum to less than one in a thousand. The first is for two names.
pub fn count_repeated(
    alloc: Global,
    key: &u128,
    names: &[&str],
) -> Result<(u64, usize), GrowingError> {
    let rate = Rate::new(1, 1000)?;
    let mut seen = GrowingFilter::seeded(alloc, rate, 2, key)?;
    let mut repeated = 0u64;
    for name in names {
        if seen.insert(alloc, name)? {
            repeated = repeated.saturating_add(1);
        }
    }
    Ok((repeated, seen.older().len() + 1))
}
