//! Two threads that share a filter.
ghost use Rattle.std.specs.Prelude.{⊤};

use anyhow::bail;
use fastbloom::{AtomicBloomFilter, Rate};
use std::alloc::Global;
use std::ops::Range;
use std::sync::Arc;
use std::thread;
use std::thread::{Promise, PromisedHandle, Threads};

type Shared = Arc<AtomicBloomFilter, Global>;

// A thread promises nothing of the number that it counts.
#[derive(Drop)]
struct Anything;

impl Promise<u64> for Anything {
    ghost kept_by = { λ _ _. ⊤ };
}

// Inserts each number, and counts those that it found new.
fn insert_numbers(filter: &AtomicBloomFilter, numbers: Range<u64>) -> u64 {
    let mut new = 0u64;
    for number in numbers {
        if !filter.insert(&number) {
            new = new.saturating_add(1);
        }
    }
    new
}

// Starts a thread that inserts the numbers.
fn start<R: Threads>(
    rt: &R,
    filter: &Shared,
    numbers: Range<u64>,
) -> anyhow::Result<PromisedHandle<u64, Anything>> {
    let shared = Arc::try_clone(filter)?;
    match thread::spawn_with(rt, Anything, move || insert_numbers(&shared, numbers)) {
        Ok(child) => Ok(child),
        Err(_refused) => bail!("no thread could be started"),
    }
}

/// How many of 2000 numbers are found, of which two threads inserted a half each: all.
pub fn count_found<R: Threads>(rt: &R, alloc: Global) -> anyhow::Result<u64> {
    let builder = AtomicBloomFilter::with_false_pos(Rate::new(1, 1000)?);
    let filter = Arc::new(alloc, builder.expected_items(alloc, 2000)?)?;
    let first = start(rt, &filter, 0..1000)?;
    let second = start(rt, &filter, 1000..2000);
    first.join(rt);
    second?.join(rt);
    let mut found = 0u64;
    for number in 0..2000u64 {
        if filter.contains(&number) {
            found = found.saturating_add(1);
        }
    }
    Ok(found)
}
