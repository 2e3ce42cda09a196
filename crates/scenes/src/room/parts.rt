//! Calls on parts of filters that take no memory, as in `without_memory`.
use crate::engines::bloom::words_of;
use crate::hashing::hashers_return;
use crate::row_reports::{NO_ROOM, is_given, say, word_without};
use bloom_engine::{Fault, arguments};
use bloom_parts::bit_vector::{AtomicBitVec, BitVec, index};
use fastbloom::{Call, FilterError, MemoryStore, Shape, WordStore, drive};
use std::alloc::Global;

// Whether the word 5 is changed and read as it is to be, with the other word 6.
fn are_changed(bits: &mut BitVec, other: &BitVec) -> bool {
    if bits.len() != other.len() {
        return false;
    }
    let were_set = bits.check(0) & bits.set(2) & !bits.set(1) & (bits.num_bits() == 64);
    bits.union(other);
    let are_united = bits.as_slice() == [7].as_slice();
    bits.intersect(other);
    let are_common = *bits == *other;
    bits.clear();
    were_set & are_united & are_common & bits.iter().eq([0])
}

// Whether the word 5, which threads share, is changed and read as it is to be.
fn are_stepped(shared: &AtomicBitVec) -> bool {
    let is_one = (shared.len() == 1) & (shared.num_bits() == 64);
    let were_found = (shared.load(0) == 5) & (shared.fetch_or(0, 2) == 5);
    let were_left = (shared.fetch_and(0, 6) == 7) & (shared.swap_zero(0) == 6);
    shared.store_zero(0);
    is_one & were_found & were_left & shared.iter().eq([0])
}

// Whether an insert of hash 1 is driven over a word of zeros, step by step.
fn is_driven(store: &mut MemoryStore) -> bool {
    let is_new = drive(store, Call::Insert(1), 2) == Some(false);
    is_new & (store.words() == [1048577].as_slice()) & (store.num_words() == 1)
}

// Whether a hash lies where it is to, and a shape, a status and a number are what they are to be.
fn are_numbers(rt: &HostRuntime) -> bool {
    let are_told = (Fault::Memory.status() == 3) & (FilterError::Worker.code() == 8);
    hashers_return(rt) & (index(64, 1 << 63) == 32) & Shape::new(64, 3).is_ok() & are_told
}

// What calls are made on.
enum Part {
    Words,
    SharedWords,
    Steps,
    Arguments,
    Numbers,
}

const PARTS: &'static [(&'static str, Part)] = &[
    ("words", Part::Words),
    ("shared words", Part::SharedWords),
    ("steps", Part::Steps),
    ("arguments", Part::Arguments),
    ("hashers and numbers", Part::Numbers),
];

// How calls on each of these ended, if what they need was made.
fn words_called(alloc: Global) -> Result<&'static str, FilterError> {
    let words = vec![in alloc; 5u64]?;
    let other = vec![in alloc; 6u64]?;
    let is_left = is_given(alloc);
    let is_right = are_changed(&mut BitVec::from_vec(words), &BitVec::from_vec(other));
    Ok(word_without(is_left, is_right))
}

fn shared_words_called(alloc: Global) -> Result<&'static str, FilterError> {
    let shared = AtomicBitVec::from_words(alloc, [5u64].iter().copied())?;
    let is_left = is_given(alloc);
    Ok(word_without(is_left, are_stepped(&shared)))
}

fn steps_called(alloc: Global) -> Result<&'static str, FilterError> {
    let words = vec![in alloc; 0u64]?;
    let other = vec![in alloc; 0u64]?;
    let is_left = is_given(alloc);
    Ok(word_without(is_left, is_driven(&mut MemoryStore::new(words, other))))
}

fn arguments_called(alloc: Global) -> Result<&'static str, FilterError> {
    let words = words_of(alloc, &["1", "3"])?;
    let is_left = is_given(alloc);
    Ok(word_without(is_left, arguments(words.as_slice()) == Ok((1, 3))))
}

// The same, of any.
fn called_on_part(rt: &HostRuntime, part: &Part) -> Result<&'static str, FilterError> {
    match part {
        Part::Words => words_called(rt.alloc()),
        Part::SharedWords => shared_words_called(rt.alloc()),
        Part::Steps => steps_called(rt.alloc()),
        Part::Arguments => arguments_called(rt.alloc()),
        Part::Numbers => Ok(word_without(is_given(rt.alloc()), are_numbers(rt))),
    }
}

#[test]
fn calls_on_parts_take_no_memory(rt: HostRuntime) {
    for (name, part) in PARTS {
        assert!(rt; say(&rt, name, called_on_part(&rt, part).unwrap_or(NO_ROOM)));
    }
}
