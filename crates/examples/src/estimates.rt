//! How many items a filter has, and how alike two are.

use fastbloom::{BloomFilter, Estimate};

/// The bounds of the number of items, where the second may be missing: of a filter in which every
/// bit is set, no number is too many.
pub fn bounds_of(filter: &BloomFilter) -> (usize, Option<usize>) {
    let items: Estimate = filter.estimated_items();
    (items.low(), items.high())
}

/// Whether at least half of the items of both filters are in common, for certain by the estimates.
/// False where they differ in key or shape.
pub fn are_alike(filter: &BloomFilter, other: &BloomFilter) -> bool {
    if filter.hasher().key() != other.hasher().key() {
        return false;
    }
    if !filter.same_shape(other) {
        return false;
    }
    filter.jaccard(other).low() >= 1 << 62 // in units of 2^-63
}
