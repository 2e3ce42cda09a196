//! Blocked filters: drawn sessions, the same calls on both kinds, and threads.

mod sessions;
mod takes;
mod threads;

use crate::row_reports::tell_row;
use fastbloom::{AtomicBlockedBloomFilter, BlockedBloomFilter, FilterError, Rate};
use sessions::fold_ten;
use std::alloc::Global;

// How an empty filter is made: lines, and the number of hashes.
#[derive(Clone, Copy)]
struct Make {
    lines: usize,
    num_hashes: u32,
}

// A plain and a shared filter, on which the same calls are made.
#[derive(Drop)]
struct Pair {
    plain: BlockedBloomFilter,
    shared: AtomicBlockedBloomFilter,
}

// The plain filter, under the key of seed 42.
fn plain_of(alloc: Global, make: &Make) -> Result<BlockedBloomFilter, FilterError> {
    let words = vec![in alloc; 0u64; make.lines.saturating_mul(8)]?;
    match BlockedBloomFilter::from_vec(words) {
        Ok(builder) => Ok(builder.seed(&42).hashes(make.num_hashes)),
        Err(_refusal) => Err(FilterError::EmptyWords),
    }
}

// The same, to be shared.
fn shared_of(alloc: Global, make: &Make) -> Result<AtomicBlockedBloomFilter, FilterError> {
    AtomicBlockedBloomFilter::from_plain(alloc, plain_of(alloc, make)?)
}

// Both.
fn pair_of(alloc: Global, make: &Make) -> Result<Pair, FilterError> {
    let shared = shared_of(alloc, make)?;
    match plain_of(alloc, make) {
        Ok(plain) => Ok(Pair { plain, shared }),
        Err(refusal) => Err(refusal),
    }
}

// The first of ten sessions, and what the model says of their replies and words. The library for C
// and the packages make all 200.
const WANTED: &'static [(u64, u64)] = &[(0, 1283216022127539977), (40, 11551038469314496990)];

#[test]
fn drawn_filters_are_those_of_the_model(rt: HostRuntime) {
    for (i, (first, wanted)) in WANTED.iter().enumerate() {
        assert!(rt; tell_row(&rt, i, fold_ten(rt.alloc(), *first) == *wanted));
    }
}

// Whether a filter of three items at a rate of one in a hundred has its shape.
fn is_of_three(alloc: Global) -> Result<bool, FilterError> {
    let builder = BlockedBloomFilter::with_false_pos(Rate::new(1, 100)?);
    match builder.items(alloc, [1u64, 2, 3].as_slice()) {
        Ok(filter) => {
            let has_shape = (filter.num_bits() == 512) & (filter.num_hashes() == 16);
            Ok(has_shape & filter.contains(&1u64) & filter.contains(&3u64))
        }
        Err(refusal) => Err(refusal),
    }
}

#[test]
fn a_blocked_filter_is_made_for_its_items(rt: HostRuntime) {
    assert!(rt; matches!(is_of_three(rt.alloc()), Ok(true)));
}

// Whether both filters have the same words.
fn are_alike(pair: &Pair) -> bool {
    pair.plain.iter().eq(pair.shared.iter())
}

// Whether both take items alike.
fn take_items(pair: &mut Pair) -> bool {
    let Pair { plain, shared } = pair;
    let is_new = !plain.insert(&7u64) & !shared.insert(&7u64);
    plain.insert_all(&[1u64, 2]);
    shared.insert_all(&[1u64, 2]);
    plain.extend(3..100u64);
    shared.extend(3..100u64);
    is_new & plain.contains(&99u64) & shared.contains(&99u64) & are_alike(pair)
}

// Whether both are united and intersected alike with another pair of their shape.
fn meet(pair: &mut Pair, other: &Pair) -> bool {
    let Pair { plain, shared } = pair;
    if !plain.same_shape(&other.plain) || !shared.same_shape(&other.shared) {
        return false;
    }
    plain.union(&other.plain);
    shared.union(&other.shared);
    let are_united = plain.iter().eq(shared.iter());
    plain.intersect(&other.plain);
    shared.intersect(&other.shared);
    are_united & are_alike(pair)
}

// Whether both tell the same, and stay as they are.
fn tell_the_same(pair: &Pair) -> bool {
    let Pair { plain, shared } = pair;
    (plain.count_ones() == shared.count_ones())
        & (plain.false_pos_now() == shared.false_pos_now())
        & are_alike(pair)
}

// Whether both are cleared, and the copy of a filter stays as it is.
fn are_cleared(pair: &mut Pair, copy: &BlockedBloomFilter) -> bool {
    let is_copied = pair.plain == *copy;
    pair.plain.clear();
    pair.shared.clear();
    is_copied & (pair.plain != *copy) & (pair.plain.count_ones() == 0) & are_alike(pair)
}

// Whether all this holds of a pair beside another.
fn agree(alloc: Global, pair: &mut Pair, other: &mut Pair) -> bool {
    let are_met = take_items(pair) & meet(pair, other) & take_items(other) & meet(pair, other);
    let are_met = are_met & tell_the_same(pair);
    match pair.plain.try_clone(alloc) {
        Ok(copy) => are_met & are_cleared(pair, &copy) & meet(pair, other),
        Err(_refusal) => false,
    }
}

// The same, of pairs that are made.
fn kinds_agree(alloc: Global, make: &Make) -> Result<bool, FilterError> {
    let mut pair = pair_of(alloc, make)?;
    match pair_of(alloc, make) {
        Ok(mut other) => Ok(agree(alloc, &mut pair, &mut other)),
        Err(refusal) => Err(refusal),
    }
}

// From a mebibyte on hashes go in 64 at a time.
const MAKES: &'static [Make] = &[
    Make {
        lines: 3,
        num_hashes: 2,
    },
    Make {
        lines: 16384,
        num_hashes: 7,
    },
];

#[test]
fn calls_on_both_kinds_leave_the_same_words(rt: HostRuntime) {
    for (i, make) in MAKES.iter().enumerate() {
        assert!(rt; tell_row(&rt, i, matches!(kinds_agree(rt.alloc(), make), Ok(true))));
    }
}
