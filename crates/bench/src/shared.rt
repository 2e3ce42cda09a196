//! The calls of a filter that threads share, made by one thread.
mod rows;

use crate::filters::shared_filter_for;
use crate::keys::{first_foreign_key, hash_of, numbers_to};
use crate::table::{Made, Measured};
use fastbloom::{AtomicBloomFilter, FilterError};
pub use rows::{Call, TABLE};
use std::alloc::Global;

/// Inserts this many keys from the first on, and counts the inserts that returned true.
#[inline(never)]
pub fn insert_keys(filter: &AtomicBloomFilter, first: u64, keys: u64) -> u64 {
    let mut answers: u64 = 0;
    'keys: for key in 0..keys {
        let answer = filter.insert_hash(hash_of(first.wrapping_add(key)));
        answers = answers.wrapping_add(answer as u64);
    }
    answers
}

/// Looks up this many keys from the first on, and counts the look-ups that returned true.
#[inline(never)]
pub fn contains_keys(filter: &AtomicBloomFilter, first: u64, keys: u64) -> u64 {
    let mut answers: u64 = 0;
    'keys: for key in 0..keys {
        let answer = filter.contains_hash(hash_of(first.wrapping_add(key)));
        answers = answers.wrapping_add(answer as u64);
    }
    answers
}

#[inline(never)]
fn count_odd(filter: &AtomicBloomFilter) -> u64 {
    let mut odd: u64 = 0;
    'words: for word in filter.iter() {
        odd = odd.wrapping_add(word % 2);
    }
    odd
}

// What a look-up finds right after a call that changes the filter.
fn answer_of(filter: &AtomicBloomFilter, other: &AtomicBloomFilter, call: Call) -> bool {
    if !filter.same_shape(other) {
        return false;
    }
    match call {
        Call::Union => filter.union(other),
        Call::Intersect => filter.intersect(other),
        Call::Clear => filter.clear(),
        _ => return false,
    }
    filter.contains_hash(0)
}

/// What the calls are made on: a filter and another, which has the hash 0, and items.
#[derive(Drop)]
pub struct Calls {
    alloc: Global,
    keys: u32,
    filter: AtomicBloomFilter,
    other: AtomicBloomFilter,
    numbers: Vec<u64>,
}

impl Calls {
    // The count of the results of a call that gives nothing else.
    fn count_answers(&self, call: Call, round: u32) -> u64 {
        let (keys, filter) = (self.keys as u64, &self.filter);
        match call {
            Call::InsertHash => insert_keys(filter, 0, keys),
            Call::Hit => contains_keys(filter, 0, keys),
            Call::Miss => contains_keys(filter, first_foreign_key(keys, round), keys),
            Call::Extend => {
                filter.extend(0..keys);
                filter.contains(&0u64) as u64
            }
            Call::InsertAll => {
                filter.insert_all(&self.numbers);
                filter.contains(&0u64) as u64
            }
            Call::Iter => count_odd(&self.other),
            _ => answer_of(filter, &self.other, call) as u64,
        }
    }
}

impl Measured for Calls {
    type Call = Call;

    fn prepare(&mut self, call: Call, _number: u32, round: u32) -> anyhow::Result<()> {
        match (call, round) {
            (Call::InsertHash | Call::Extend | Call::InsertAll, _) => self.filter.clear(),
            (Call::Hit | Call::Miss, 0) => {
                insert_keys(&self.filter, 0, self.keys as u64);
            }
            (Call::Union | Call::Intersect | Call::Clear, 0) => {
                self.filter = self.other.try_clone(self.alloc)?;
            }
            _ => {}
        }
        Ok(())
    }

    fn make(&mut self, call: Call, _number: u32, round: u32) -> anyhow::Result<Made> {
        Ok(match call {
            Call::Clone => Made::SharedCopy(self.other.try_clone(self.alloc)?),
            _ => Made::Answers(self.count_answers(call, round)),
        })
    }
}

/// All numbers, and two filters, one of which has the hash 0.
pub fn calls_for(alloc: Global, keys: u32) -> Result<Calls, FilterError> {
    let numbers = numbers_to(alloc, keys as u64)?;
    let filter = shared_filter_for(alloc, keys, 7)?;
    let other = shared_filter_for(alloc, keys, 7)?;
    other.insert_hash(0);
    Ok(Calls {
        alloc,
        keys,
        filter,
        other,
        numbers,
    })
}
