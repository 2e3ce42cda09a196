//! Calls that take memory, at two sizes each. Behind a call a line names it, with the words of its
//! filter and another number on which it depends. dev/starve counts the bytes that were asked for
//! since the line before, and compares them with the table of docs/API.md.

mod parts;
mod several;

use crate::drawn::spread_from;
use fastbloom::{
    AtomicBlockedBloomFilter, AtomicBloomFilter, BlockedBloomFilter, BloomFilter, FileError,
    FilterError, FilterFile, Rate,
};

// Tells what a call depends on that was made since the line before.
fn tell(rt: &HostRuntime, call: &str, words: usize, other: usize) {
    let _told = eprintln!(rt; "asked: {call}, {words}, {other}");
}

// Begins anew, behind what was made for a call.
fn begin(rt: &HostRuntime) {
    tell(rt, "nothing", 0, 0);
}

// The calls on Bloom filters of this many words.
fn call_plain(rt: &HostRuntime, words: usize) -> Result<(), FilterError> {
    let alloc = rt.alloc();
    let builder = BloomFilter::with_num_bits(alloc, words.saturating_mul(64))?;
    tell(rt, "with_num_bits", words, 0);
    let filter = builder.hashes(2);
    drop(filter.try_clone(alloc)?);
    tell(rt, "try_clone", words, 0);
    let form = filter.to_data(alloc)?;
    tell(rt, "to_data", words, 0);
    drop(AtomicBloomFilter::from_data(alloc, form)?);
    tell(rt, "from_data", words, 0);
    Ok(())
}

// Those on filters that threads share.
fn call_shared(rt: &HostRuntime, words: usize) -> Result<(), FilterError> {
    let alloc = rt.alloc();
    let builder = AtomicBloomFilter::with_num_bits(alloc, words.saturating_mul(64))?;
    tell(rt, "with_num_bits", words, 0);
    let filter = builder.hashes(alloc, 2)?;
    tell(rt, "hashes", words, 0);
    drop(filter.try_clone(alloc)?);
    tell(rt, "try_clone", words, 0);
    drop(filter.to_data(alloc)?);
    tell(rt, "to_data", words, 0);
    drop(filter.take_words(alloc)?);
    tell(rt, "take_words", words, 0);
    Ok(())
}

// Those on blocked filters.
fn call_blocked(rt: &HostRuntime, words: usize) -> Result<(), FilterError> {
    let alloc = rt.alloc();
    let builder = BlockedBloomFilter::with_num_bits(alloc, words.saturating_mul(64))?;
    tell(rt, "with_num_bits", words, 0);
    let filter = builder.hashes(2);
    drop(filter.try_clone(alloc)?);
    tell(rt, "try_clone", words, 0);
    let shared = AtomicBlockedBloomFilter::from_plain(alloc, filter)?;
    tell(rt, "from_plain", words, 0);
    drop(shared.take_words(alloc)?);
    tell(rt, "take_words", words, 0);
    Ok(())
}

// The builders by a rate, for this many items.
fn call_by_rate(rt: &HostRuntime, items: usize) -> Result<(), FilterError> {
    let alloc = rt.alloc();
    let rate = Rate::new(1, 1000)?;
    let filter = BloomFilter::with_false_pos(rate).expected_items(alloc, items)?;
    tell(rt, "expected_items", filter.as_slice().len(), 0);
    let filter = BlockedBloomFilter::with_false_pos(rate).expected_items(alloc, items)?;
    tell(rt, "expected_items", filter.as_slice().len(), 0);
    let filter = AtomicBloomFilter::with_false_pos(rate).expected_items(alloc, items)?;
    tell(rt, "expected_items", filter.num_bits() / 64, 0);
    Ok(())
}

// Those that insert this many items.
fn call_with_items(rt: &HostRuntime, items: usize) -> Result<(), FilterError> {
    let alloc = rt.alloc();
    let rate = Rate::new(1, 1000)?;
    let numbers = spread_from(alloc, 0, items as u64)?;
    begin(rt);
    let filter = BloomFilter::with_false_pos(rate).items(alloc, numbers.iter())?;
    tell(rt, "items", filter.as_slice().len(), 0);
    let filter = BlockedBloomFilter::with_false_pos(rate).items(alloc, numbers.iter())?;
    tell(rt, "items", filter.as_slice().len(), 0);
    let filter = AtomicBloomFilter::with_false_pos(rate).items(alloc, numbers.iter())?;
    tell(rt, "items", filter.num_bits() / 64, 0);
    Ok(())
}

// The calls on files, of a filter of either kind.
fn call_on_file<F: FilterFile>(rt: &HostRuntime, filter: &F) -> Result<(), FileError> {
    let alloc = rt.alloc();
    let words = filter.words().len();
    let Ok(file) = filter.to_bytes(alloc) else {
        return Err(FileError::Memory);
    };
    tell(rt, "to_bytes", words, 0);
    drop(F::from_bytes(alloc, file.as_slice())?);
    tell(rt, "from_bytes", words, 0);
    let mut rest = file.as_slice();
    drop(F::read_file(alloc, &mut rest)?);
    tell(rt, "read_file", words, 0);
    Ok(())
}

// The same of a Bloom filter and of a blocked one with as many words.
fn call_on_files(rt: &HostRuntime, words: usize) -> Result<(), FilterError> {
    let bits = words.saturating_mul(64);
    let plain = BloomFilter::with_num_bits(rt.alloc(), bits)?.hashes(2);
    let blocked = BlockedBloomFilter::with_num_bits(rt.alloc(), bits)?.hashes(2);
    begin(rt);
    match (call_on_file(rt, &plain), call_on_file(rt, &blocked)) {
        (Ok(()), Ok(())) => Ok(()),
        _ => Err(FilterError::Memory),
    }
}

// The room of a reader doubles: of 66,000 words it asks for nearly the most that the page tells.
#[test]
fn calls_on_a_filter_are_made_at_two_sizes(rt: HostRuntime) {
    for words in [600, 66_000] {
        begin(&rt);
        assert!(rt; call_plain(&rt, words).is_ok());
        assert!(rt; call_shared(&rt, words).is_ok());
        assert!(rt; call_blocked(&rt, words).is_ok());
        assert!(rt; call_on_files(&rt, words).is_ok());
        assert!(rt; call_by_rate(&rt, words).is_ok());
        assert!(rt; call_with_items(&rt, words).is_ok());
    }
}
