//! A seated filter that is made, called by two passes and closed.
ghost use Rattle.std.specs.Prelude.{◌≡◌};

use crate::row_reports::{WRONG, is_given, word_of, word_without};
use fastbloom::{FilterError, Pass, SeatedBloomFilter};
use std::alloc::Global;

// Whether what one pass inserts is new, and is found by the other.
fn is_shared(filter: &SeatedBloomFilter, first: &mut Pass, second: &mut Pass) -> bool
    requires first { first.old.filter ≡ filter.now.table }
    requires second { second.old.filter ≡ filter.now.table }
    ensures { second.new.filter ≡ second.old.filter }
{
    let was_new = !filter.insert_hash_as(first, 1);
    let is_found = filter.contains_hash_as(second, 1);
    filter.meet(first, second);
    was_new & is_found
}

// Whether a filter is closed to the word of hash 1, which has the positions 0 and 20.
fn is_closed(closed: Result<Vec<u64>, FilterError>) -> Result<bool, FilterError> {
    match closed {
        Ok(words) => Ok(words.as_slice() == [1048577].as_slice()),
        Err(refusal) => Err(refusal),
    }
}

/// How `close` ended after two of the passes called, or why there is no filter.
pub(super) fn closed(alloc: Global) -> Result<&'static str, FilterError> {
    let words = [0].to_vec(alloc)?;
    let (filter, mut passes) = SeatedBloomFilter::new(alloc, words, 2, 2)?;
    let Some(mut first) = passes.pop() else {
        unreachable!()
    };
    let Some(mut second) = passes.pop() else {
        unreachable!()
    };
    if !is_shared(&filter, &mut first, &mut second) {
        return Ok(WRONG);
    }
    Ok(word_of(&is_closed(filter.close(alloc, second))))
}

/// How the calls by two passes ended, if there was room for the filter.
pub(super) fn called(alloc: Global) -> Result<&'static str, FilterError> {
    let words = [0].to_vec(alloc)?;
    let (filter, mut passes) = SeatedBloomFilter::new(alloc, words, 2, 2)?;
    let Some(mut first) = passes.pop() else {
        unreachable!()
    };
    let Some(mut second) = passes.pop() else {
        unreachable!()
    };
    let is_left = is_given(alloc);
    Ok(word_without(is_left, is_shared(&filter, &mut first, &mut second)))
}
