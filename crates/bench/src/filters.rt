//! The filters that are measured.
ghost use Rattle.std.specs.Prelude.{◌≡◌, ◌*◌, All, IfErr, IfOk, max, replicate};
ghost use Rattle.fastbloom.specs.Builders.{words_for};

use fastbloom::{AtomicBloomFilter, BloomFilter, FilterError, Pass, SeatedBloomFilter};
use std::alloc::{AllocError, Global};

/// How many words a filter with ten bits for each key has, and one at least.
pub fn count_words(keys: u32) -> usize
    ensures { result ≡ words_for (max 1 (keys * 10)) }
{
    (keys as usize * 10).max(1).div_ceil(64)
}

/// This many words, all 0.
pub fn zeros(alloc: Global, count: usize) -> Result<Vec<u64>, AllocError>
    ensures { IfOk result (λ words. words.items ≡ replicate count 0) }
{
    vec![in alloc; 0u64; count]
}

/// An empty filter with ten bits for each key, and one bit at least.
pub fn filter_for(alloc: Global, keys: u32, num_hashes: u32) -> Result<BloomFilter, FilterError>
    ensures words { IfOk result (λ filter.
        filter.words ≡ replicate (words_for (max 1 (keys * 10))) 0) }
    ensures hashes { IfOk result (λ filter. filter.hashes ≡ max 1 num_hashes) }
    ensures refused { IfErr result (λ error. error ≡ FilterError.Memory) }
{
    let builder = BloomFilter::with_num_bits(alloc, (keys as usize * 10).max(1))?;
    Ok(builder.hashes(num_hashes))
}

/// An empty filter for threads to share, with ten bits for each key, and one bit at least.
pub fn shared_filter_for(
    alloc: Global,
    keys: u32,
    num_hashes: u32,
) -> Result<AtomicBloomFilter, FilterError>
    ensures words { IfOk result (λ filter.
        filter.words.count ≡ words_for (max 1 (keys * 10))) }
    ensures hashes { IfOk result (λ filter. filter.hashes ≡ max 1 num_hashes) }
    ensures refused { IfErr result (λ error. error ≡ FilterError.Memory) }
{
    let builder = AtomicBloomFilter::with_num_bits(alloc, (keys as usize * 10).max(1))?;
    builder.hashes(alloc, num_hashes)
}

/// An empty filter for threads to share under a rule, with ten bits for each key, one bit at least,
/// and seven hashes, and its passes.
pub fn seated_filter_for(
    alloc: Global,
    keys: u32,
    passes: u32,
) -> Result<(SeatedBloomFilter, Vec<Pass>), FilterError>
    ensures { IfOk result (λ made. All (λ pass. pass.filter ≡ made.0.table) made.1.items) }
{
    let words = zeros(alloc, count_words(keys))?;
    SeatedBloomFilter::new(alloc, words, 7, passes as usize)
}
