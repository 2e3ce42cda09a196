//! Filters of several parts: those that grow or rotate, seated ones, and one that workers fill.
use super::{begin, tell};
use crate::drawn::spread;
use crate::fills::{gate_of, many_parts};
use fastbloom::{
    BlockedBloomFilter, BloomFilter, FilterError, FilterFile, GrowableFilter, GrowingError,
    GrowingFilterOf, Rate, RotatingFilterOf, SeatedBloomFilter, Shape, fill,
};
use std::thread::Threads;

// A filter for this many items, and the one that begins where it is full.
fn grow<F: GrowableFilter + FilterFile>(
    rt: &HostRuntime,
    items: usize,
) -> Result<(), GrowingError> {
    let rate = Rate::new(1, 1000)?;
    let mut filter = GrowingFilterOf::<F>::new(rt.alloc(), rate, items)?;
    tell(rt, "GrowingFilter::new", filter.newest().words().len(), 0);
    for i in 0..(items as u64).saturating_mul(2) {
        filter.insert_hash(rt.alloc(), spread(i))?;
    }
    tell(
        rt,
        "insert_hash",
        filter.newest().words().len(),
        filter.older().len(),
    );
    Ok(())
}

// A filter for this many items that rotates.
fn rotate<F: GrowableFilter + FilterFile>(
    rt: &HostRuntime,
    items: usize,
) -> Result<(), GrowingError> {
    let rate = Rate::new(1, 1000)?;
    let filter = RotatingFilterOf::<F>::new(rt.alloc(), rate, items)?;
    tell(rt, "RotatingFilter::new", filter.newer().words().len(), 0);
    Ok(())
}

#[test]
fn filters_of_filters_grow_and_rotate(rt: HostRuntime) {
    for items in [64, 10_000] {
        begin(&rt);
        assert!(rt; grow::<BloomFilter>(&rt, items).is_ok());
        assert!(rt; grow::<BlockedBloomFilter>(&rt, items).is_ok());
        assert!(rt; rotate::<BloomFilter>(&rt, items).is_ok());
        assert!(rt; rotate::<BlockedBloomFilter>(&rt, items).is_ok());
    }
}

// A seated filter of this many words, with this many passes.
fn seat(rt: &HostRuntime, words: usize, passes: usize) -> Result<(), FilterError> {
    let given = vec![in rt.alloc(); 0u64; words]?;
    begin(rt);
    let (filter, mut all) = SeatedBloomFilter::new(rt.alloc(), given, 2, passes)?;
    tell(rt, "SeatedBloomFilter::new", words, passes);
    let Some(pass) = all.pop() else {
        unreachable!()
    };
    drop(filter.close(rt.alloc(), pass)?);
    tell(rt, "close", words, 0);
    Ok(())
}

// A filter of this many words that workers fill, each with a thousand hashes.
fn fill_by<R: Threads>(
    rt: &HostRuntime,
    threads: &R,
    words: usize,
    workers: u64,
) -> Result<(), FilterError> {
    let bits = words.saturating_mul(64);
    let parts = many_parts(rt.alloc(), &(workers, 1000, bits))?;
    let (gate, seen) = gate_of(rt.alloc(), workers as usize)?;
    begin(rt);
    drop(fill(threads, rt.alloc(), gate, Shape::new(bits, 3)?, parts)?);
    tell(rt, "fill", words, workers as usize);
    drop(seen);
    Ok(())
}

#[test]
fn filters_of_threads_are_made_and_closed(rt: HostRuntime) {
    for words in [64, 100_000] {
        assert!(rt; seat(&rt, words, 100).is_ok());
        assert!(rt; fill_by(&rt, &rt, words, 3).is_ok());
    }
    assert!(rt; fill_by(&rt, &rt, 64, 100).is_ok());
}
