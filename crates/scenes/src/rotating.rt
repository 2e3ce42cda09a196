//! Filters that rotate, at the smallest, an odd and a large number of items.

use crate::drawn::spread;
use crate::growing::Shaped;
use crate::row_reports::tell_row;
use fastbloom::{
    BlockedBloomFilter, BloomFilter, GrowingError, Rate, RotatingFilter, RotatingFilterOf,
};
use std::alloc::Global;

// Numbers of items, the room of each filter for a rate of 1/10, its bits and hashes, and how often
// it turned over in the end. Each is sized for 1/20. To come to that one is halved 4.32 times.
// Times the items, and by the logarithm of 2, these are 6, 44 and 6244 bits, which are rounded up
// to words. The turns were counted by a program apart, from the positions of the hashes: some
// hashes are false positives of the newer filter, which doesn't take them.
type Row = (usize, usize, usize, u32, u64);

const PLAIN: &'static [Row] = &[
    (0, 1, 64, 44, 5),
    (7, 7, 64, 6, 3),
    (1000, 1000, 6272, 4, 2),
];

// The same of blocked filters, with some hundredths of bits more, rounded up to lines of 512. With
// 512, 73 and 6.6 bits for each item, these hashes suit. The turns were counted likewise.
const BLOCKED: &'static [Row] = &[
    (0, 1, 512, 16, 5),
    (7, 7, 512, 16, 3),
    (1000, 1000, 6656, 4, 2),
];

// Whether a filter has this shape.
fn is_sized<F: Shaped>(filter: &F, bits: usize, hashes: u32) -> bool {
    filter.shape() == (bits, hashes)
}

/// Whether a filter for one item has its two filters.
pub(crate) fn is_made(alloc: Global) -> Result<bool, GrowingError> {
    match RotatingFilter::new(alloc, Rate::new(4, 1)?, 1) {
        Ok(filter) => Ok(is_sized(filter.older(), 64, 44) & is_sized(filter.newer(), 64, 44)),
        Err(refusal) => Err(refusal),
    }
}

// Whether a filter has the shapes of its row, and each of some hashes, three times as many as the
// room, is found once it came, and an item that comes twice behind them is, the second time.
fn takes<F: Shaped>(filter: &mut RotatingFilterOf<F>, row: &Row) -> bool {
    let (_items, room, bits, hashes, turns) = *row;
    let mut is_right = is_sized(filter.older(), bits, hashes)
        & is_sized(filter.newer(), bits, hashes)
        & (filter.room() == room);
    for i in 0..(room as u64).saturating_mul(3) {
        filter.insert_hash(spread(i));
        is_right &= filter.contains_hash(spread(i));
    }
    let held = filter.insert(&"crab");
    is_right & !held & filter.insert(&"crab") & (filter.turns() == turns)
}

// Whether a filter of a row is made and used so.
fn rotates<F: Shaped>(alloc: Global, row: &Row) -> Result<bool, GrowingError> {
    let rate = Rate::new(1, 10)?;
    match RotatingFilterOf::<F>::new(alloc, rate, row.0) {
        Ok(mut filter) => Ok(takes(&mut filter, row)),
        Err(refusal) => Err(refusal),
    }
}

#[test]
fn a_filter_that_rotates_is_of_its_size_and_finds_what_just_came(rt: HostRuntime) {
    for (i, row) in PLAIN.iter().enumerate() {
        let is_right = matches!(rotates::<BloomFilter>(rt.alloc(), row), Ok(true));
        assert!(rt; tell_row(&rt, i, is_right));
    }
    for (i, row) in BLOCKED.iter().enumerate() {
        let is_right = matches!(rotates::<BlockedBloomFilter>(rt.alloc(), row), Ok(true));
        assert!(rt; tell_row(&rt, i, is_right));
    }
}
