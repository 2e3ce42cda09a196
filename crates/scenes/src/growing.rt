//! Filters that grow: their sizes at values worked out by hand from the definitions.

use crate::drawn::spread;
use fastbloom::{
    BlockedBloomFilter, BloomFilter, GrowableFilter, GrowingError, GrowingFilterOf, Rate,
};
use std::alloc::Global;

// How many new hashes came before a filter, its room, and its bits and hashes.
type Row = (usize, usize, usize, u32);

// The first four filters for a rate of 1/10 and 8 items. They are for 8, 16, 32 and 64 items at
// 1/20, 1/40, 1/80 and 1/160. To come to the rate one is halved 4.32 times, and then once more each
// time. Times the items, and by the logarithm of 2, these are 50, 123, 292 and 676 bits, which are
// rounded up to words.
const PLAIN: &'static [Row] = &[
    (0, 8, 64, 6),
    (8, 16, 128, 6),
    (24, 32, 320, 7),
    (56, 64, 704, 8),
];

// The same of blocked ones, with some hundredths of bits more, rounded up to lines of 512. With 64,
// 32, 16 and 16 bits for each item, these hashes suit.
const BLOCKED: &'static [Row] = &[
    (0, 8, 512, 16),
    (8, 16, 512, 15),
    (24, 32, 512, 9),
    (56, 64, 1024, 9),
];

/// A filter of which the tests see the bits and the hashes.
pub(crate) trait Shaped: GrowableFilter {
    fn shape(&self) -> (usize, u32);
}

impl Shaped for BloomFilter {
    fn shape(&self) -> (usize, u32) {
        (self.num_bits(), self.num_hashes())
    }
}

impl Shaped for BlockedBloomFilter {
    fn shape(&self) -> (usize, u32) {
        (self.num_bits(), self.num_hashes())
    }
}

// Whether the newest filter is that of its row, once this many new hashes came.
fn is_grown<F: Shaped>(filter: &GrowingFilterOf<F>, rows: &[Row], new: usize) -> bool {
    let Some((before, room, bits, hashes)) = rows.get(filter.older().len()) else {
        return false;
    };
    let taken = filter.taken();
    let is_begun = (taken >= 1) & (taken <= *room) & (filter.room() == *room);
    let is_shaped = filter.newest().shape() == (*bits, *hashes);
    is_shaped & is_begun & (before.saturating_add(taken) == new)
}

// Whether this holds after each of a hundred hashes, and the newest filter is the fourth in the
// end. An item that goes in is found, too.
fn grows<F: Shaped>(
    alloc: Global,
    filter: &mut GrowingFilterOf<F>,
    rows: &[Row],
) -> Result<bool, GrowingError> {
    let mut new = 0usize;
    let mut is_right = true;
    for i in 0..100u64 {
        let held = filter.insert_hash(alloc, spread(i))?;
        new = new.saturating_add(!held as usize);
        is_right &= is_grown(filter, rows, new) & filter.contains_hash(spread(i));
    }
    filter.insert(alloc, &"crab")?;
    Ok(is_right & (filter.older().len() == 3) & filter.contains(&"crab"))
}

// Whether a filter for a rate of 1/10 and 8 items grows so.
fn one_grows<F: Shaped>(alloc: Global, rows: &[Row]) -> Result<bool, GrowingError> {
    let rate = Rate::new(1, 10)?;
    match GrowingFilterOf::<F>::new(alloc, rate, 8) {
        Ok(mut filter) => grows(alloc, &mut filter, rows),
        Err(refusal) => Err(refusal),
    }
}

#[test]
fn each_filter_begins_when_the_one_before_is_full(rt: HostRuntime) {
    assert!(rt; matches!(one_grows::<BloomFilter>(rt.alloc(), PLAIN), Ok(true)));
    assert!(rt;
        matches!(
            one_grows::<BlockedBloomFilter>(rt.alloc(), BLOCKED),
            Ok(true)
        )
    );
}
