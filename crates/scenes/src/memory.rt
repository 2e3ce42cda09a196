//! What both filters return from a call that takes memory, or that needs another filter.
mod data;

use crate::scripted::{Make, Size};
use crate::scripted_filters::{Pair, Refused, are_alike, have_words, named, pair_of, paired};
pub(crate) use data::{cross, data_of, has_data};
use fastbloom::{AtomicBloomFilter, BloomFilter, Command};
use std::alloc::Global;

// The key of the other filters, which no call looks at.
const OTHER_SEED: u128 = 2;

// Another pair, of these words and this number of hashes.
fn other_of(alloc: Global, words: &'static [u64], num_hashes: u32) -> Result<Pair, Refused> {
    pair_of(
        alloc,
        &Make::Words(words, OTHER_SEED, Size::Hashes(num_hashes)),
    )
}

// Unites or intersects a plain filter with another, if it has its shape.
fn meet_plain(filter: &mut BloomFilter, other: &BloomFilter, unites: bool) -> bool {
    if !filter.same_shape(other) {
        return false;
    }
    if unites {
        filter.union(other);
    } else {
        filter.intersect(other);
    }
    true
}

// Unites or intersects a shared filter with another, if it has its shape.
fn meet_shared(filter: &AtomicBloomFilter, other: &AtomicBloomFilter, unites: bool) -> bool {
    if !filter.same_shape(other) {
        return false;
    }
    if unites {
        filter.union(other);
    } else {
        filter.intersect(other);
    }
    true
}

/// Unites or intersects both filters with others, if they have their shape.
pub(crate) fn meet_both(pair: &mut Pair, other: &Pair, unites: bool) -> bool {
    meet_plain(&mut pair.plain, &other.plain, unites)
        & meet_shared(&pair.shared, &other.shared, unites)
}

/// Whether the filters are united, or else intersected, with filters of these words, which stay as
/// they are; or whether nothing is done since the shapes differ, where that is said.
pub(crate) fn meet(
    alloc: Global,
    pair: &mut Pair,
    words: &'static [u64],
    unites: bool,
    said: bool,
) -> Result<bool, Refused> {
    match other_of(alloc, words, pair.plain.num_hashes()) {
        Ok(other) => Ok((meet_both(pair, &other, unites) == said) & have_words(&other, words)),
        Err(refused) => Err(refused),
    }
}

/// Whether both filters have the shape of others, or haven't, and their words, or haven't.
pub(crate) fn compare_with(pair: &Pair, other: &Pair, same_shape: bool, same_words: bool) -> bool {
    (pair.plain.same_shape(&other.plain) == same_shape)
        & (pair.shared.same_shape(&other.shared) == same_shape)
        & ((pair.plain == other.plain) == same_words)
        & (pair.shared.same_words(&other.shared) == same_words)
        & (other.shared.same_words(&pair.shared) == same_words)
}

/// Whether the shape, and the shape and words, are found to be those of filters of these words and
/// hashes, or to differ.
pub(crate) fn compare(
    alloc: Global,
    pair: &Pair,
    words: &'static [u64],
    num_hashes: u32,
    same_shape: bool,
    same_words: bool,
) -> Result<bool, Refused> {
    match other_of(alloc, words, num_hashes) {
        Ok(other) => {
            let is_right = compare_with(pair, &other, same_shape, same_words);
            Ok(is_right & have_words(&other, words))
        }
        Err(refused) => Err(refused),
    }
}

/// Whether both filters are shown.
pub(crate) fn show(alloc: Global, pair: &Pair) -> bool {
    let Pair { plain, shared } = pair;
    format!(in alloc; "{plain:?} {shared:?}").is_ok()
}

// Copies of both filters.
fn copies_of(alloc: Global, pair: &Pair) -> Result<Pair, Refused> {
    match named("try_clone", pair.plain.try_clone(alloc)) {
        Ok(plain) => paired(
            plain,
            named("shared try_clone", pair.shared.try_clone(alloc)),
        ),
        Err(refused) => Err(refused),
    }
}

// Whether copies are alike and equal the filters, and differ from them once the item 42 went into
// them.
fn are_copies(pair: &Pair, copies: &mut Pair) -> bool {
    let are_equal = compare_with(copies, pair, true, true) & are_alike(copies);
    copies.plain.insert(&42u64);
    copies.shared.insert(&42u64);
    are_equal & compare_with(copies, pair, true, false)
}

/// Whether copies are alike and equal the filters, and differ from them once the item 42 went into
/// the copies.
pub(crate) fn copy(alloc: Global, pair: &Pair) -> Result<bool, Refused> {
    match copies_of(alloc, pair) {
        Ok(mut copies) => Ok(are_copies(pair, &mut copies)),
        Err(refused) => Err(refused),
    }
}

// Whether these are the words of a filter, which is cleared.
fn are_cleared(filter: &mut BloomFilter, words: &[u64]) -> bool {
    let is_right = words == filter.as_slice();
    filter.clear();
    is_right
}

/// Whether the words that are taken are those of the plain filter, which is cleared.
pub(crate) fn take(alloc: Global, pair: &mut Pair) -> Result<bool, Refused> {
    match named("take_words", pair.shared.take_words(alloc)) {
        Ok(words) => Ok(are_cleared(&mut pair.plain, words.as_slice())),
        Err(refused) => Err(refused),
    }
}

/// Whether a list, in the end of which the filters are cleared, is carried out with these replies.
pub(crate) fn replay(alloc: Global, pair: &mut Pair, said: &[bool]) -> Result<bool, Refused> {
    let list = [
        Command::Contains(1),
        Command::Insert(1),
        Command::Insert(1),
        Command::Contains(0),
        Command::Clear,
        Command::Contains(1),
    ];
    let replayed = pair.plain.replay(alloc, &list);
    match named("replay", replayed) {
        Ok(replies) => Ok(replies.as_slice() == said),
        Err(refused) => Err(refused),
    }
}

/// Whether filters that are made so are alike, and have this shape.
pub(crate) fn build(
    alloc: Global,
    make: &Make,
    num_bits: usize,
    num_hashes: u32,
) -> Result<bool, Refused> {
    match pair_of(alloc, make) {
        Ok(built) => {
            let has_shape = (built.plain.num_bits(), built.plain.num_hashes());
            Ok(are_alike(&built) & (has_shape == (num_bits, num_hashes)))
        }
        Err(refused) => Err(refused),
    }
}
