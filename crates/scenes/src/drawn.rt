//! Hashes that are spread over all numbers of 64 bits.
use std::alloc::{AllocError, Global};

/// Number i of the hashes.
pub(crate) fn spread(i: u64) -> u64 {
    i.wrapping_mul(0x9e37_79b9_7f4a_7c15)
}

/// The hashes from the first up to the end, which is left out.
pub(crate) fn spread_from(alloc: Global, first: u64, end: u64) -> Result<Vec<u64>, AllocError> {
    let mut hashes = Vec::new(alloc);
    for i in first..end {
        hashes.push(spread(i))?;
    }
    Ok(hashes)
}
