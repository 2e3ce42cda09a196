//! Words that are taken out of a blocked filter into which a thread inserts numbers, or their
//! hashes. No two have one position, so each bit is set once, and is taken once or left.
use super::{Make, plain_of, shared_of};
use crate::row_reports::tell_row;
use crate::threads::{Anything, Child, join_all};
use fastbloom::{AtomicBlockedBloomFilter, FilterError};
use std::alloc::Global;
use std::sync::Arc;
use std::thread;
use std::thread::Threads;

type Shared = Arc<AtomicBlockedBloomFilter, Global>;

const MAKE: Make = Make {
    lines: 64,
    num_hashes: 1,
};

// Numbers and their hashes. Each hash has a position of its own.
fn numbers_apart(alloc: Global) -> Result<(Vec<u64>, Vec<u64>), FilterError> {
    let mut plain = plain_of(alloc, &MAKE)?;
    let mut numbers = Vec::new(alloc);
    let mut hashes = Vec::new(alloc);
    for i in 0..10_000u64 {
        if !plain.insert(&i) {
            numbers.push(i)?;
            hashes.push(plain.source_hash(&i))?;
        }
    }
    Ok((numbers, hashes))
}

// How numbers go in.
#[derive(Clone, Copy)]
enum By {
    Insert,
    Extend,
    // Their hashes, so many at once.
    Hashes(usize),
}

const BY: &'static [By] = &[By::Insert, By::Extend, By::Hashes(64), By::Hashes(100)];

// Inserts numbers, which have these hashes. Counts them, and the inserts that returned true.
fn insert(
    filter: &AtomicBlockedBloomFilter,
    numbers: &[u64],
    hashes: &[u64],
    by: By,
) -> (u64, u64) {
    let mut old = 0u64;
    match by {
        By::Insert => {
            for number in numbers {
                old = old.wrapping_add(filter.insert(number) as u64);
            }
        }
        By::Extend => filter.extend(numbers.iter().copied()),
        By::Hashes(together) => {
            for some in hashes.chunks(together.max(1)) {
                filter.insert_hashes(some);
            }
        }
    }
    (numbers.len() as u64, old)
}

// How many bits are set in the words that are taken out.
fn take(alloc: Global, filter: &AtomicBlockedBloomFilter) -> Result<u64, FilterError> {
    let mut ones = 0u64;
    for word in filter.take_words(alloc)?.as_slice() {
        ones = ones.wrapping_add(word.count_ones() as u64);
    }
    Ok(ones)
}

// The bits that are taken out beside an insert, and those that are left.
fn take_beside<R: Threads>(
    rt: &R,
    alloc: Global,
    shared: &Shared,
    children: Vec<Child>,
) -> Result<(u64, (u64, u64)), FilterError> {
    let mut ones = 0u64;
    for _ in 0..100 {
        ones = ones.wrapping_add(take(alloc, shared)?);
    }
    let counts = join_all(rt, children);
    Ok((ones.wrapping_add(take(alloc, shared)?), counts))
}

// Whether each of the numbers set its bit once.
fn set_once<R: Threads>(rt: &R, alloc: Global, by: By) -> Result<bool, FilterError> {
    let shared = Arc::new(alloc, shared_of(alloc, &MAKE)?)?;
    let (numbers, hashes) = numbers_apart(alloc)?;
    let filter = Arc::try_clone(&shared)?;
    let mut children = Vec::new(alloc);
    let insert_all = move || insert(&filter, numbers.as_slice(), hashes.as_slice(), by);
    match thread::spawn_with(rt, Anything, insert_all) {
        Ok(child) => children.push(child)?,
        Err(_refused) => return Err(FilterError::Worker),
    }
    let (ones, (inserted, old)) = take_beside(rt, alloc, &shared, children)?;
    Ok((ones == inserted) & (old == 0))
}

#[test]
fn each_insert_beside_takes_sets_its_bit_once(rt: HostRuntime) {
    for (i, by) in BY.iter().enumerate() {
        for _ in 0..20 {
            let are_set = set_once(&rt, rt.alloc(), *by);
            assert!(rt; tell_row(&rt, i, matches!(are_set, Ok(true))));
        }
    }
}
