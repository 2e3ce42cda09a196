//! The examples of README and of docs/CALLING.md: each does what its comments say.

mod shared;

use examples::builders::{by_bits_and_hashes, by_bits_and_items, by_rate_and_items, by_words};
use examples::clauses::{remember, write_and_read};
use examples::estimates::{are_alike, bounds_of};
use examples::files::{load, save};
use examples::guarded::Guarded;
use examples::keys::drawn_key;
use examples::lists::replies;
use examples::readme::{seated_filter, shared_filter};
use examples::saved::parts_of;
use examples::sets::keep_common;
use examples::{growing, plain, saved};
use fastbloom::{BloomFilter, FilterError};
use shared::{count_new, finds_all, is_filled, is_rotated};
use std::alloc::Global;
use std::collections::BTreeMap;
use std::fs;

// The word of hash 1, whose two positions among 64 are 0 and 20.
const WORD_OF_ONE: u64 = 1 + (1 << 20);

// Whether a seated filter finds what was inserted, and is closed to its words.
fn is_seated(alloc: Global) -> bool {
    match seated_filter(alloc) {
        Ok((before, after, words)) => {
            !before & after & (words.as_slice() == [WORD_OF_ONE].as_slice())
        }
        Err(_refusal) => false,
    }
}

#[test]
fn shared_and_seated_filters_find_what_was_inserted(rt: HostRuntime) {
    assert!(rt; matches!(shared_filter(rt.alloc(), &42), Ok((false, true))));
    assert!(rt; is_seated(rt.alloc()));
}

// Whether a filter was made that has this many bits and hashes.
fn has_shape(made: Result<BloomFilter, FilterError>, bits: usize, hashes: u32) -> bool {
    match made {
        Ok(filter) => (filter.num_bits() == bits) & (filter.num_hashes() == hashes),
        Err(_refusal) => false,
    }
}

// The filter of hash 1 under the key of seed 42.
fn one(alloc: Global) -> Result<BloomFilter, FilterError> {
    let builder = BloomFilter::with_num_bits(alloc, 64)?.seed(&42);
    let mut filter = builder.hashes(2);
    remember(&mut filter, 1);
    Ok(filter)
}

// Whether a filter that was made again, or in another way, is that of hash 1, with this key.
fn is_one(made: Result<BloomFilter, FilterError>, key: u64) -> bool {
    match made {
        Ok(filter) => {
            (filter.as_slice() == [WORD_OF_ONE].as_slice())
                & (filter.num_hashes() == 2)
                & (filter.hasher().key() == (0, key.swap_bytes()))
        }
        Err(_refusal) => false,
    }
}

// The filter of hash 1 once more, from its parts.
fn one_again(alloc: Global) -> Result<BloomFilter, FilterError> {
    let filter = one(alloc)?;
    saved::filter_of(parts_of(alloc, &filter, 42u128.to_be_bytes())?)
}

#[test]
fn plain_filters_are_built_and_made_again(rt: HostRuntime) {
    let alloc = rt.alloc();
    assert!(rt; has_shape(by_bits_and_hashes(alloc), 1024, 4));
    assert!(rt; has_shape(by_bits_and_items(alloc), 1024, 7));
    assert!(rt; has_shape(by_rate_and_items(alloc), 14400, 10));
    assert!(rt; is_one(by_words(alloc), 0));
    assert!(rt; is_one(one_again(alloc), 42));
}

// Whether names are counted that come again, under a key that is drawn, and in a filter that grows.
fn are_counted(rt: &HostRuntime) -> bool {
    let names = ["crab", "lobster", "crab"];
    let many = ["crab", "lobster", "crab", "ray", "eel"];
    let is_drawn = match drawn_key(rt) {
        Ok(key) => matches!(plain::count_repeated(rt.alloc(), &key, &names), Ok(1)),
        Err(_error) => false,
    };
    is_drawn & matches!(growing::count_repeated(rt.alloc(), &42, &many), Ok((1, 2)))
}

#[test]
fn repeated_names_are_counted(rt: HostRuntime) {
    assert!(rt; are_counted(&rt));
}

// Whether what two filters have in common is kept: that of one with itself, and not of filters of
// other keys. Two bits of 64 by two hashes are more than one item and fewer than two.
fn is_kept(filter: &mut BloomFilter, copy: &BloomFilter, other: &BloomFilter) -> bool {
    let is_kept = keep_common(filter, copy) & !keep_common(filter, other);
    is_kept & filter.contains_hash(1) & (bounds_of(filter) == (1, Some(2)))
}

// Whether a filter carries out a list as its comments say.
fn carries_out(alloc: Global, filter: &mut BloomFilter) -> bool {
    match replies(alloc, filter) {
        Ok(replies) => replies.as_slice() == [false, true, false].as_slice(),
        Err(_refusal) => false,
    }
}

// Whether both hold of the filter of hash 1.
fn is_used(alloc: Global) -> Result<bool, FilterError> {
    let mut filter = one(alloc)?;
    let copy = one(alloc)?;
    let other = by_bits_and_hashes(alloc)?;
    Ok(is_kept(&mut filter, &copy, &other) & carries_out(alloc, &mut filter))
}

// Whether an empty filter is told apart from another once it has items.
fn is_told_apart(filter: &mut BloomFilter, empty: &BloomFilter) -> bool {
    filter.extend(0..1000u64);
    are_alike(filter, filter) & !are_alike(filter, empty)
}

// The same, of filters that are made.
fn are_told_apart(alloc: Global) -> Result<bool, FilterError> {
    let mut filter = by_rate_and_items(alloc)?;
    let empty = by_rate_and_items(alloc)?;
    Ok(is_told_apart(&mut filter, &empty))
}

#[test]
fn filters_are_compared_and_carry_out_a_list(rt: HostRuntime) {
    assert!(rt; matches!(is_used(rt.alloc()), Ok(true)));
    assert!(rt; matches!(are_told_apart(rt.alloc()), Ok(true)));
}

// Whether a filter is saved and read from its file.
fn is_saved(rt: &HostRuntime, filter: &BloomFilter) -> bool {
    let is_written = save(rt, filter, "one.bloom").is_ok();
    match load(rt, "one.bloom") {
        Ok(loaded) => is_written & (loaded == *filter),
        Err(_error) => false,
    }
}

// Whether it comes back in memory.
fn is_read_back(alloc: Global, filter: &BloomFilter) -> bool {
    match write_and_read(alloc, filter) {
        Ok(read) => read == *filter,
        Err(_refusal) => false,
    }
}

#[test]
fn a_filter_is_read_from_its_file(rt: HostRuntime) {
    let is_saved = match one(rt.alloc()) {
        Ok(filter) => is_saved(&rt, &filter) & is_read_back(rt.alloc(), &filter),
        Err(_refusal) => false,
    };
    assert!(rt; is_saved);
    assert!(rt; fs::remove_file(&rt, "one.bloom").is_ok());
}

#[test]
fn shared_filters_find_what_threads_inserted(rt: HostRuntime) {
    assert!(rt; finds_all(&rt, rt.alloc()));
    assert!(rt; matches!(count_new(rt.alloc()), Ok(2)));
    assert!(rt; matches!(is_rotated(rt.alloc()), Ok(true)));
    assert!(rt; is_filled(&rt, rt.alloc()));
}

// Whether a filter before a map has the key that was put, and the map its value.
fn is_guarded(alloc: Global) -> Result<bool, FilterError> {
    let filter = BloomFilter::with_num_bits(alloc, 64)?.hashes(2);
    let mut guarded = Guarded::new(filter, BTreeMap::new(alloc));
    guarded.put(1, 10)?;
    let is_put = (guarded.get(&1)? == Some(10)) & guarded.filter().contains(&1u64);
    Ok(is_put & (guarded.get(&2)? == None) & !guarded.filter().contains(&2u64))
}

#[test]
fn a_filter_before_a_store_has_its_keys(rt: HostRuntime) {
    assert!(rt; matches!(is_guarded(rt.alloc()), Ok(true)));
}
