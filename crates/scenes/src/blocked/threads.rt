//! Two threads that insert into one blocked filter.
use super::{Make, plain_of, shared_of};
use crate::drawn::spread;
use crate::row_reports::tell_row;
use crate::threads::{Anything, Child, join_all};
use fastbloom::{AtomicBlockedBloomFilter, BlockedBloomFilter, FilterError};
use std::alloc::Global;
use std::sync::Arc;
use std::thread;
use std::thread::Threads;

type Shared = Arc<AtomicBlockedBloomFilter, Global>;

// How many hashes each thread inserts, and from which on: half of them go in by both.
const HASHES: u64 = 5000;

const FIRST: [u64; 2] = [0, 2500];

// Lines and numbers of hashes.
const STORMS: &'static [(usize, u32)] = &[(1, 1), (20, 1), (20, 3)];

// Inserts hashes from the first on, and looks each up then. Counts the inserts that returned false,
// and the hashes that weren't found.
fn insert_and_find(filter: &AtomicBlockedBloomFilter, first: u64) -> (u64, u64) {
    let mut new = 0u64;
    let mut lost = 0u64;
    for i in 0..HASHES {
        let hash = spread(first.wrapping_add(i));
        new = new.wrapping_add(!filter.insert_hash(hash) as u64);
        lost = lost.wrapping_add(!filter.contains_hash(hash) as u64);
    }
    (new, lost)
}

// Starts both threads.
fn start<R: Threads>(rt: &R, alloc: Global, filter: &Shared) -> Result<Vec<Child>, FilterError> {
    let mut children = Vec::new(alloc);
    for first in FIRST {
        let shared = Arc::try_clone(filter)?;
        match thread::spawn_with(rt, Anything, move || insert_and_find(&shared, first)) {
            Ok(child) => children.push(child)?,
            Err(_refused) => return Err(FilterError::Worker),
        }
    }
    Ok(children)
}

// Whether a shared filter has the words of a plain one into which all hashes go, no look-up missed
// one, and with one hash as many inserts returned false as bits are set.
fn are_left(
    shared: &AtomicBlockedBloomFilter,
    plain: &mut BlockedBloomFilter,
    counts: (u64, u64),
) -> bool {
    let (new, lost) = counts;
    for i in 0..7500u64 {
        plain.insert_hash(spread(i));
    }
    let is_counted = (plain.num_hashes() > 1) | (new == plain.count_ones() as u64);
    is_counted & (lost == 0) & shared.iter().eq(plain.iter())
}

// Whether two threads leave it so.
fn leave<R: Threads>(
    rt: &R,
    alloc: Global,
    shared: &Shared,
    plain: &mut BlockedBloomFilter,
) -> bool {
    match start(rt, alloc, shared) {
        Ok(children) => are_left(shared, plain, join_all(rt, children)),
        Err(_refusal) => false,
    }
}

// An empty filter that is shared, and one that isn't.
fn filters_of(alloc: Global, make: &Make) -> Result<(Shared, BlockedBloomFilter), FilterError> {
    let shared = Arc::new(alloc, shared_of(alloc, make)?)?;
    Ok((shared, plain_of(alloc, make)?))
}

// Whether two threads leave the words of one, in filters of these lines and hashes.
fn ends_well<R: Threads>(rt: &R, alloc: Global, row: (usize, u32)) -> bool {
    let (lines, num_hashes) = row;
    let make = Make { lines, num_hashes };
    match filters_of(alloc, &make) {
        Ok((shared, mut plain)) => leave(rt, alloc, &shared, &mut plain),
        Err(_refusal) => false,
    }
}

// Steps of two threads on one word seldom meet, so each storm comes ten times.
#[test]
fn two_threads_leave_the_words_of_one(rt: HostRuntime) {
    for (i, row) in STORMS.iter().enumerate() {
        for _ in 0..10 {
            assert!(rt; tell_row(&rt, i, ends_well(&rt, rt.alloc(), *row)));
        }
    }
}
