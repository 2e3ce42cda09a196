//! One filter that many workers fill.

use fastbloom::{BloomFilter, FilterError, Gate, Shape, fill};
use std::alloc::Global;
use std::sync::Arc;
use std::thread::Threads;

/// Lets every worker begin at once.
#[derive(Drop)]
struct Open;

impl Gate for Open {
    fn pass(&self, _worker: usize) {}
}

// The hashes in parts of at most this size, where 0 counts as 1.
fn cut(alloc: Global, hashes: &[u64], size: usize) -> Result<Vec<Vec<u64>>, FilterError> {
    let mut parts = Vec::new(alloc);
    for part in hashes.chunks(size.max(1)) {
        parts.push(part.to_vec(alloc)?)?;
    }
    Ok(parts)
}

/// The filter of all hashes at ten bits for each, filled by at most four workers.
pub fn filter_of<R: Threads>(
    rt: &R,
    alloc: Global,
    hashes: &[u64],
) -> Result<BloomFilter, FilterError> {
    let parts = cut(alloc, hashes, hashes.len().div_ceil(4))?;
    let shape = Shape::new(hashes.len().saturating_mul(10).max(1), 7)?;
    fill(rt, alloc, Arc::new(alloc, Open)?, shape, parts)
}
