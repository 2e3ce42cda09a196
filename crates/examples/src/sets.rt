//! Unions and intersections.

use fastbloom::BloomFilter;

/// Keeps what both filters have, and returns true. Returns false where they differ in key or shape.
pub fn keep_common(filter: &mut BloomFilter, other: &BloomFilter) -> bool {
    if filter.hasher().key() != other.hasher().key() {
        return false;
    }
    if !filter.same_shape(other) {
        return false;
    }
    filter.intersect(other);
    true
}
