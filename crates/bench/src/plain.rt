//! The calls of a plain filter: a key, or a word of the filter.
mod rows;

use crate::filters::filter_for;
use crate::keys::{contains_keys, first_foreign_key, hash_of, numbers_to};
use crate::table::{Made, Measured};
use fastbloom::{BloomFilter, FilterError};
pub use rows::{Call, TABLE};
use std::alloc::{AllocError, Global};

// The results of `source_hash` are counted by their lowest bit.
#[inline(never)]
fn hash_numbers(filter: &BloomFilter, keys: u64) -> u64 {
    let mut answers: u64 = 0;
    'keys: for key in 0..keys {
        answers = answers.wrapping_add(filter.source_hash(&key) % 2);
    }
    answers
}

// The items are 32 texts by turns.
#[inline(never)]
fn hash_texts(filter: &BloomFilter, texts: &[String], keys: u64) -> u64 {
    let mut answers: u64 = 0;
    'keys: for key in 0..keys {
        if let Some(item) = texts.get(key as usize % 32) {
            answers = answers.wrapping_add(filter.source_hash(item) % 2);
        }
    }
    answers
}

#[inline(never)]
fn insert_texts(filter: &mut BloomFilter, texts: &[String], keys: u64) -> u64 {
    let mut answers: u64 = 0;
    'keys: for key in 0..keys {
        if let Some(item) = texts.get(key as usize % 32) {
            answers = answers.wrapping_add(filter.insert(item) as u64);
        }
    }
    answers
}

#[inline(never)]
fn contains_texts(filter: &BloomFilter, texts: &[String], keys: u64) -> u64 {
    let mut answers: u64 = 0;
    'keys: for key in 0..keys {
        if let Some(item) = texts.get(key as usize % 32) {
            answers = answers.wrapping_add(filter.contains(item) as u64);
        }
    }
    answers
}

#[inline(never)]
fn insert_numbers(filter: &mut BloomFilter, keys: u64) -> u64 {
    let mut answers: u64 = 0;
    'keys: for key in 0..keys {
        let answer = filter.insert(&key);
        answers = answers.wrapping_add(answer as u64);
    }
    answers
}

#[inline(never)]
fn contains_numbers(filter: &BloomFilter, keys: u64) -> u64 {
    let mut answers: u64 = 0;
    'keys: for key in 0..keys {
        let answer = filter.contains(&key);
        answers = answers.wrapping_add(answer as u64);
    }
    answers
}

#[inline(never)]
fn count_odd(filter: &BloomFilter) -> u64 {
    let mut odd: u64 = 0;
    'words: for word in filter.iter() {
        odd = odd.wrapping_add(word % 2);
    }
    odd
}

/// Inserts this many keys, and counts the inserts that returned true.
#[inline(never)]
pub fn insert_keys(filter: &mut BloomFilter, keys: u64) -> u64 {
    let mut answers: u64 = 0;
    'keys: for key in 0..keys {
        let answer = filter.insert_hash(hash_of(key));
        answers = answers.wrapping_add(answer as u64);
    }
    answers
}

// 32 texts of this many bytes, at most 1,000.
fn texts_of(alloc: Global, size: u32) -> Result<Vec<String>, AllocError> {
    let text = "0123456789abcdefghijklmnopqrstuv".repeat(alloc, 33)?;
    let size = size.min(1000) as usize;
    let mut texts = Vec::new(alloc);
    'texts: for from in 0..32 {
        if let Some(item) = text.get(from..from + size) {
            texts.push(item.to_string(alloc)?)?;
        }
    }
    Ok(texts)
}

// Whether the filters are equal, or, of a call that changes the filter, what a look-up finds right
// after it.
fn answer_of(filter: &mut BloomFilter, other: &BloomFilter, call: Call) -> bool {
    if !filter.same_shape(other) {
        return false;
    }
    match call {
        Call::Union => filter.union(other),
        Call::Intersect => filter.intersect(other),
        Call::Clear => filter.clear(),
        _ => return *filter == *other,
    }
    filter.contains_hash(0)
}

/// What the calls are made on: a filter and another, which has the hash 0, and items of both
/// kinds.
#[derive(Drop)]
pub struct Calls {
    alloc: Global,
    keys: u32,
    filter: BloomFilter,
    other: BloomFilter,
    texts: Vec<String>,
    numbers: Vec<u64>,
}

impl Calls {
    // The count of the results of a call that gives nothing else.
    fn count_answers(&mut self, call: Call, round: u32) -> u64 {
        let (keys, texts) = (self.keys as u64, self.texts.as_slice());
        match call {
            Call::HashNumbers => hash_numbers(&self.filter, keys),
            Call::HashTexts => hash_texts(&self.filter, texts, keys),
            Call::InsertTexts => insert_texts(&mut self.filter, texts, keys),
            Call::ContainsTexts => contains_texts(&self.filter, texts, keys),
            Call::Insert => insert_numbers(&mut self.filter, keys),
            Call::Contains => contains_numbers(&self.filter, keys),
            Call::Extend => {
                self.filter.extend(0..keys);
                self.filter.contains(&0u64) as u64
            }
            Call::InsertAll => {
                self.filter.insert_all(&self.numbers);
                self.filter.contains(&0u64) as u64
            }
            Call::InsertHash => insert_keys(&mut self.filter, keys),
            Call::Hit => contains_keys(&self.filter, 0, keys),
            Call::Miss => contains_keys(&self.filter, first_foreign_key(keys, round), keys),
            Call::Iter => count_odd(&self.other),
            _ => answer_of(&mut self.filter, &self.other, call) as u64,
        }
    }
}

impl Measured for Calls {
    type Call = Call;

    fn prepare(&mut self, call: Call, number: u32, round: u32) -> anyhow::Result<()> {
        let (alloc, keys) = (self.alloc, self.keys as u64);
        if round == 0 {
            match call {
                Call::HashTexts | Call::InsertTexts | Call::ContainsTexts => {
                    self.texts = texts_of(alloc, number)?;
                }
                Call::Union | Call::Intersect | Call::Equality | Call::Clear => {
                    self.filter = self.other.try_clone(alloc)?;
                }
                _ => self.filter = filter_for(alloc, self.keys, number)?,
            }
            match call {
                Call::Contains => insert_numbers(&mut self.filter, keys),
                Call::ContainsTexts => insert_texts(&mut self.filter, self.texts.as_slice(), 32),
                Call::Hit | Call::Miss => insert_keys(&mut self.filter, keys),
                _ => 0,
            };
        }
        match call {
            Call::Insert | Call::InsertTexts | Call::Extend | Call::InsertAll | Call::InsertHash =>
                {
                    self.filter.clear();
                }
            _ => {}
        }
        Ok(())
    }

    fn make(&mut self, call: Call, _number: u32, round: u32) -> anyhow::Result<Made> {
        Ok(match call {
            Call::Clone => Made::Copy(self.other.try_clone(self.alloc)?),
            _ => Made::Answers(self.count_answers(call, round)),
        })
    }
}

/// All numbers, and two filters with seven hashes, one of which has the hash 0.
pub fn calls_for(alloc: Global, keys: u32) -> Result<Calls, FilterError> {
    let numbers = numbers_to(alloc, keys as u64)?;
    let filter = filter_for(alloc, keys, 7)?;
    let mut other = filter_for(alloc, keys, 7)?;
    other.insert_hash(0);
    Ok(Calls {
        alloc,
        keys,
        filter,
        other,
        texts: Vec::new(alloc),
        numbers,
    })
}
