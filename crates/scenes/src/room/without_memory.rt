//! Calls that take no memory. Each test makes all that its calls need, asks for memory once more,
//! and then makes the calls. dev/starve refuses that request and all behind it.
use super::seated::called;
use crate::answers;
use crate::concrete::rates_are_compared;
use crate::fills::parts_of;
use crate::follow::first_broken;
use crate::memory::{compare_with, meet_both};
use crate::row_reports::{NO_ROOM, is_given, say, word_without};
use crate::scripted::Op::{
    Clear, Contains, ContainsItem, Estimates, Extend, Insert, InsertAll, InsertItem, Ones,
    UniteWithItself, Words,
};
use crate::scripted::{Item, Line, Make, Size};
use crate::scripted_filters::{Pair, Refused, have_words, named, pair_of, plain_by, plain_from};
use fastbloom::{
    AtomicBloomFilter, AtomicBuilderWithBits, BitsData, BloomFilter, BuilderWithBits,
    DefaultHasher, FilterData, FilterError,
};
use std::alloc::Global;

// Calls on filters of one word of zeros and two hashes. Hash 1 has the positions 0 and 20.
const LINES: &'static [Line] = &[
    (Estimates, true),
    (InsertItem(Item::Number(2)), false),
    (InsertItem(Item::Number(2)), true),
    (ContainsItem(Item::Number(2)), true),
    (Extend(3, 7), true),
    (ContainsItem(Item::Number(6)), true),
    (InsertAll(&[7, 8]), true),
    (Clear, true),
    (Contains(1), false),
    (Insert(1), false),
    (Insert(1), true),
    (Contains(1), true),
    (UniteWithItself, true),
    (Ones(2), true),
    (Words(&[1048577]), true),
];

// Filters with the word of hash 1, or with another.
fn filters_of(alloc: Global, words: &'static [u64]) -> Result<Pair, Refused> {
    pair_of(alloc, &Make::Words(words, 42, Size::Hashes(2)))
}

// Whether calls with filters of the word 6 do what they are to.
fn are_met(pair: &mut Pair, others: &Pair) -> bool {
    let united = meet_both(pair, others, true) & have_words(pair, &[1048583]);
    let common = meet_both(pair, others, false) & have_words(pair, &[6]);
    united & common & compare_with(pair, others, true, true) & answers::clear(pair)
}

// How calls on filters ended.
fn called_on(alloc: Global, pair: &mut Pair, others: &Pair) -> &'static str {
    let is_left = is_given(alloc);
    let are_followed = matches!(first_broken(alloc, pair, LINES), Ok(None));
    word_without(is_left, are_followed & are_met(pair, others))
}

// How calls on filters ended, if they were made.
fn filters_called(alloc: Global) -> Result<&'static str, Refused> {
    let mut pair = filters_of(alloc, &[0])?;
    match filters_of(alloc, &[6]) {
        Ok(others) => Ok(called_on(alloc, &mut pair, &others)),
        Err(refused) => Err(refused),
    }
}

#[test]
fn calls_on_filters_take_no_memory(rt: HostRuntime) {
    let ended = filters_called(rt.alloc()).unwrap_or(NO_ROOM);
    assert!(rt; say(&rt, "filters", ended));
}

// The data of the word 5 and two hashes, with the key of seed 42.
fn form_of_five(alloc: Global) -> Result<FilterData, FilterError> {
    Ok(FilterData {
        bits: BitsData {
            bits: [5].to_vec(alloc)?,
        },
        num_hashes_minus_one: 1,
        k0: 0,
        k1: 3026418949592973312,
    })
}

// A plain builder of the last words, and a shared one.
fn plain_builder(words: &mut Vec<Vec<u64>>) -> Result<BuilderWithBits, FilterError> {
    match words.pop() {
        Some(words) => BloomFilter::from_vec(words),
        None => Err(FilterError::EmptyWords),
    }
}

fn shared_builder(words: &mut Vec<Vec<u64>>) -> Result<AtomicBuilderWithBits, FilterError> {
    match words.pop() {
        Some(words) => AtomicBloomFilter::from_vec(words),
        None => Err(FilterError::EmptyWords),
    }
}

// Whether builders of equal words are equal, whatever their hashers.
fn plain_are_equal(words: &mut Vec<Vec<u64>>) -> Result<bool, FilterError> {
    let given = plain_builder(words)?.hasher(DefaultHasher::seeded(&[0; 16]));
    match plain_builder(words) {
        Ok(builder) => Ok(builder.seed(&42) == given),
        Err(refusal) => Err(refusal),
    }
}

fn shared_are_equal(words: &mut Vec<Vec<u64>>) -> Result<bool, FilterError> {
    let given = shared_builder(words)?.hasher(DefaultHasher::seeded(&[0; 16]));
    match shared_builder(words) {
        Ok(builder) => Ok(builder.seed(&42) == given),
        Err(refusal) => Err(refusal),
    }
}

// Whether a filter keeps the bits of the word 5, where an empty list asks for nothing.
fn keeps_five(alloc: Global, filter: &mut BloomFilter, num_hashes: u32) -> bool {
    let is_empty = match filter.replay(alloc, &[]) {
        Ok(replies) => replies.is_empty(),
        Err(_refusal) => false,
    };
    is_empty & (filter.num_hashes() == num_hashes) & (filter.as_slice()[0] & 5 == 5)
}

// The same, of a filter that is made.
fn is_built(alloc: Global, made: Result<BloomFilter, Refused>, num_hashes: u32) -> bool {
    match made {
        Ok(mut filter) => keeps_five(alloc, &mut filter, num_hashes),
        Err(_refused) => false,
    }
}

// What fixes the number of hashes among 64 bits, and that number.
const SIZES: &'static [(Size, u32)] = &[
    (Size::Hashes(2), 2),
    (Size::Expected(22), 2),
    (Size::Numbers(&[1, 2]), 22),
];

// Whether builders of words, and data, make filters as they are to.
fn are_built(alloc: Global, words: &mut Vec<Vec<u64>>, form: FilterData) -> bool {
    let mut all = is_built(alloc, plain_from(Ok(form)), 2);
    for (size, num_hashes) in SIZES {
        let builder = named("from_vec", plain_builder(words));
        all &= is_built(alloc, plain_by(builder, &42, size), *num_hashes);
    }
    all
}

// The words of seven builders.
const FIVES: &'static [&'static [u64]] = &[&[5], &[5], &[5], &[5], &[5], &[5], &[5]];

// How builders ended.
fn built(alloc: Global) -> Result<&'static str, FilterError> {
    let form = form_of_five(alloc)?;
    let mut words = parts_of(alloc, FIVES)?;
    let is_left = is_given(alloc);
    let are_built = are_built(alloc, &mut words, form);
    let plain = matches!(plain_are_equal(&mut words), Ok(true));
    let shared = matches!(shared_are_equal(&mut words), Ok(true));
    let rates = matches!(rates_are_compared(), Ok(true));
    Ok(word_without(is_left, are_built & plain & shared & rates))
}

#[test]
fn builders_of_words_rates_and_data_take_no_memory(rt: HostRuntime) {
    assert!(rt; say(&rt, "builders", built(rt.alloc()).unwrap_or(NO_ROOM)));
}

#[test]
fn calls_by_passes_take_no_memory(rt: HostRuntime) {
    assert!(rt; say(&rt, "passes", called(rt.alloc()).unwrap_or(NO_ROOM)));
}
