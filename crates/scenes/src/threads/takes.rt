//! Words that are taken out of a filter into which threads insert.
use super::tasks::{Act, work};
use super::{Anything, Child, Shared, join_all, start};
use crate::drawn::spread;
use crate::row_reports::tell_row;
use fastbloom::{AtomicBloomFilter, BloomFilter, FilterError};
use std::alloc::Global;
use std::sync::Arc;
use std::thread;
use std::thread::Threads;

// The words of 4096 bits.
type Kept = [u64; 64];

// Takes the words out, and unites those that are kept with them.
fn take(alloc: Global, filter: &AtomicBloomFilter, kept: &mut Kept) -> bool {
    match filter.take_words(alloc) {
        Ok(words) => {
            for (i, word) in words.as_slice().iter().enumerate() {
                kept[i % 64] |= *word;
            }
            words.len() == 64
        }
        Err(_refusal) => false,
    }
}

// Whether these are the words that one thread makes of the hashes.
fn are_made_alone(alloc: Global, kept: &Kept) -> Result<bool, FilterError> {
    let mut filter = BloomFilter::with_num_bits(alloc, 4096)?.hashes(3);
    for i in 0..2000u64 {
        filter.insert_hash(spread(i));
    }
    Ok(filter.as_slice() == kept.as_slice())
}

// Takes 100 times. Look-ups in between spread this over the time of the inserts.
fn take_often(alloc: Global, filter: &AtomicBloomFilter, kept: &mut Kept) -> bool {
    let mut all = true;
    for i in 0..100u64 {
        all &= take(alloc, filter, kept);
        work(alloc, filter, (Act::Find, i, i + 20));
    }
    all
}

// Takes words out while these threads insert, and the rest once they ended: whether none are left.
fn take_beside<R: Threads>(
    rt: &R,
    alloc: Global,
    children: Vec<Child>,
    shared: &AtomicBloomFilter,
    kept: &mut Kept,
) -> bool {
    let are_taken = take_often(alloc, shared, kept);
    join_all(rt, children);
    are_taken & take(alloc, shared, kept) & (shared.count_ones() == 0)
}

// Takes out the words that two threads insert.
fn take_all<R: Threads>(rt: &R, alloc: Global, shared: &Shared, kept: &mut Kept) -> bool {
    let tasks = [(Act::Insert, 0, 1000), (Act::Insert, 1000, 2000)];
    match start(rt, alloc, shared, &tasks) {
        Ok(children) => take_beside(rt, alloc, children, shared, kept),
        Err(_refusal) => false,
    }
}

// A filter that is to be shared, and is empty.
fn empty_filter(alloc: Global) -> Result<Shared, FilterError> {
    let filter = AtomicBloomFilter::with_num_bits(alloc, 4096)?.hashes(alloc, 3)?;
    Ok(Arc::new(alloc, filter)?)
}

// Whether no bit is lost: each is among the words taken, or still there at the end.
fn lose_no_bit<R: Threads>(rt: &R, alloc: Global) -> bool {
    let mut kept = [0; 64];
    match empty_filter(alloc) {
        Ok(shared) => {
            let are_taken = take_all(rt, alloc, &shared, &mut kept);
            are_taken & matches!(are_made_alone(alloc, &kept), Ok(true))
        }
        Err(_refusal) => false,
    }
}

#[test]
fn words_taken_and_words_left_are_all_that_was_inserted(rt: HostRuntime) {
    assert!(rt; lose_no_bit(&rt, rt.alloc()));
}

// Numbers of which each has a position of its own in a filter with one hash.
fn numbers_apart(alloc: Global, bits: usize) -> Result<Vec<u64>, FilterError> {
    let mut plain = BloomFilter::with_num_bits(alloc, bits)?.hashes(1);
    let mut numbers = Vec::new(alloc);
    for i in 0..50_000u64 {
        if !plain.insert(&i) {
            numbers.push(i)?;
        }
    }
    Ok(numbers)
}

// How many bits are set in the words that are taken out.
fn taken_ones(alloc: Global, filter: &AtomicBloomFilter) -> Result<u64, FilterError> {
    let mut ones = 0u64;
    for word in filter.take_words(alloc)?.as_slice() {
        ones = ones.wrapping_add(word.count_ones() as u64);
    }
    Ok(ones)
}

// Whether each number that a thread inserts beside takes sets its bit once: it is taken once, or
// left.
fn set_once<R: Threads>(rt: &R, alloc: Global, bits: usize) -> Result<bool, FilterError> {
    let filter = AtomicBloomFilter::with_num_bits(alloc, bits)?.hashes(alloc, 1)?;
    let shared = Arc::new(alloc, filter)?;
    let numbers = numbers_apart(alloc, bits)?;
    let filter = Arc::try_clone(&shared)?;
    let count = numbers.len() as u64;
    let mut children = Vec::new(alloc);
    let extend = move || {
        filter.extend(numbers.iter().copied());
        (0, 0)
    };
    match thread::spawn_with(rt, Anything, extend) {
        Ok(child) => children.push(child)?,
        Err(_refused) => return Err(FilterError::Worker),
    }
    let mut ones = 0u64;
    for _ in 0..4 {
        ones = ones.wrapping_add(taken_ones(alloc, &shared)?);
    }
    join_all(rt, children);
    Ok(ones.wrapping_add(taken_ones(alloc, &shared)?) == count)
}

// Of four mebibytes sixteen numbers are inserted together.
#[test]
fn each_number_sets_its_bit_once_beside_takes(rt: HostRuntime) {
    for (bits, rounds) in [(1 << 12, 20), (1 << 25, 2)] {
        for _ in 0..rounds {
            let are_set = set_once(&rt, rt.alloc(), bits);
            assert!(rt; tell_row(&rt, bits, matches!(are_set, Ok(true))));
        }
    }
}
