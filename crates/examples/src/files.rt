//! A filter in a file.

use anyhow::Context;
use fastbloom::{BloomFilter, FilterFile};
use std::fs;
use std::rt::Files;

/// Writes a filter with the default hasher.
pub fn save<R: Files + AllocGlobal>(
    rt: &R,
    filter: &BloomFilter,
    path: &str,
) -> anyhow::Result<()> {
    let mut file = fs::create(rt, path).context("the file can't be made")?;
    filter
        .write_file(&mut file)
        .context("the filter wasn't written")
}

/// Reads it.
pub fn load<R: Files + AllocGlobal>(rt: &R, path: &str) -> anyhow::Result<BloomFilter> {
    let mut file = fs::open(rt, path).context("the file can't be opened")?;
    // no filter, a truncated or a changed file: the error says which
    Ok(BloomFilter::read_file(rt.alloc(), &mut file)?)
}
