//! What threads do with the filter that they share, and what they count.
use crate::drawn::spread;
use fastbloom::{AtomicBloomFilter, FilterError};
use std::alloc::Global;

/// What a thread does at each of its turns.
#[derive(Clone, Copy)]
pub(super) enum Act {
    /// Looks up another hash, and inserts the turn's hash.
    Insert,
    /// Inserts the turn's number as an item.
    InsertItem,
    /// Looks up one of the first hundred hashes, which must be found.
    Find,
    /// Makes a call that is drawn by the turn's hash.
    Call,
    /// Takes the words out.
    Take,
    /// Copies the filter. The copy must have its shape.
    Clone,
    /// Makes the filter's data, which must have its shape and the zero key.
    Data,
    /// Sets and clears this position of one word 10,000 times, which no other thread changes.
    Flip(u64),
}

/// A thread's act, and its turns: from the first up to the end, which it leaves out.
pub(super) type Task = (Act, u64, u64);

// Unites or intersects a filter with itself.
fn combine_with_itself(filter: &AtomicBloomFilter, unites: bool) {
    if !filter.same_shape(filter) {
        return;
    }
    if unites {
        filter.union(filter);
    } else {
        filter.intersect(filter);
    }
}

// The call is drawn by the three highest bits, the hash is the whole number.
fn call_by(alloc: Global, filter: &AtomicBloomFilter, drawn: u64) {
    match drawn >> 61 {
        0 => filter.clear(),
        1 => combine_with_itself(filter, true),
        2 => combine_with_itself(filter, false),
        3 => drop(filter.take_words(alloc)),
        4 => drop(filter.contains_hash(drawn)),
        5 => drop(filter.insert(&drawn)),
        _ => drop(filter.insert_hash(drawn)),
    }
}

// A turn with the position of a hash, which one thread alone changes, and whether each reply was
// right. In one other filter the position alone is clear, in one it alone is set.
fn is_flipped(
    filter: &AtomicBloomFilter,
    hash: u64,
    without: &AtomicBloomFilter,
    alone: &AtomicBloomFilter,
) -> bool {
    if !filter.same_shape(without) || !filter.same_shape(alone) {
        return false;
    }
    let was_clear = !filter.insert_hash(hash);
    let is_inserted = filter.contains_hash(hash);
    filter.intersect(without);
    let is_cleared = !filter.contains_hash(hash);
    filter.union(alone);
    let is_set = filter.contains_hash(hash);
    filter.intersect(without);
    was_clear & is_inserted & is_cleared & is_set
}

// The same in 10,000 turns.
fn is_flipped_often(
    filter: &AtomicBloomFilter,
    hash: u64,
    without: &AtomicBloomFilter,
    alone: &AtomicBloomFilter,
) -> bool {
    let mut is_right = true;
    for _ in 0..10_000 {
        is_right &= is_flipped(filter, hash, without, alone);
    }
    is_right
}

// A shared filter of one word and one hash.
fn filter_of(alloc: Global, word: u64) -> Result<AtomicBloomFilter, FilterError> {
    AtomicBloomFilter::from_vec(vec![in alloc; word]?)?.hashes(alloc, 1)
}

// Whether a look-up of a position is right each time that it is set and cleared. The position of a
// hash among 64 is its six highest bits.
fn is_always_flipped(
    alloc: Global,
    filter: &AtomicBloomFilter,
    position: u64,
) -> Result<bool, FilterError> {
    let bit = 1 << (position % 64);
    let without = filter_of(alloc, !bit)?;
    match filter_of(alloc, bit) {
        Ok(alone) => Ok(is_flipped_often(filter, position << 58, &without, &alone)),
        Err(refusal) => Err(refusal),
    }
}

// How many bits are set in the words that are taken out, less than none, and whether there was
// room for the words.
fn take_out(alloc: Global, filter: &AtomicBloomFilter) -> (u64, bool) {
    match filter.take_words(alloc) {
        Ok(words) => {
            let mut less = 0u64;
            for word in words.as_slice() {
                less = less.wrapping_sub(word.count_ones() as u64);
            }
            (less, true)
        }
        Err(_refusal) => (0, false),
    }
}

// Whether a copy of the filter has its shape.
fn is_copied(alloc: Global, filter: &AtomicBloomFilter) -> bool {
    match filter.try_clone(alloc) {
        Ok(copy) => copy.same_shape(filter),
        Err(_refusal) => false,
    }
}

// Whether the filter's data have its shape and the zero key.
fn has_data(alloc: Global, filter: &AtomicBloomFilter) -> bool {
    match filter.to_data(alloc) {
        Ok(form) => {
            let has_length = form.bits.bits.len() == filter.num_bits() / 64;
            let num_hashes = form.num_hashes_minus_one.checked_add(1);
            let has_hashes = num_hashes == Some(filter.num_hashes());
            has_length & has_hashes & (form.k0 == 0) & (form.k1 == 0)
        }
        Err(_refusal) => false,
    }
}

// How many inserts of a turn returned false, less the bits that it took out, and whether its
// replies were right and there was memory.
fn turn(alloc: Global, filter: &AtomicBloomFilter, act: Act, i: u64) -> (u64, bool) {
    match act {
        Act::Insert => {
            filter.contains_hash(spread(spread(i)));
            (!filter.insert_hash(spread(i)) as u64, true)
        }
        Act::InsertItem => (!filter.insert(&i) as u64, true),
        Act::Find => (0, filter.contains_hash(spread(i % 100))),
        Act::Call => {
            call_by(alloc, filter, spread(i));
            (0, true)
        }
        Act::Take => take_out(alloc, filter),
        Act::Clone => (0, is_copied(alloc, filter)),
        Act::Data => (0, has_data(alloc, filter)),
        Act::Flip(position) => {
            let flipped = is_always_flipped(alloc, filter, position);
            (0, matches!(flipped, Ok(true)))
        }
    }
}

/// Does a task. Counts the inserts that returned false less the bits that were taken out, modulo
/// 2^64, and the turns in which a reply was wrong or memory ran out.
pub(super) fn work(alloc: Global, filter: &AtomicBloomFilter, task: Task) -> (u64, u64) {
    let (act, first, end) = task;
    let mut new = 0u64;
    let mut wrong = 0u64;
    for i in first..end {
        let (more, is_right) = turn(alloc, filter, act, i);
        new = new.wrapping_add(more);
        wrong = wrong.wrapping_add(!is_right as u64);
    }
    (new, wrong)
}
