//! Empty filters of a size, and for some keys at a rate of false positives.
ghost use Rattle.std.specs.Prelude.{◌≡◌, ℕ, max, length, IfOk};
ghost use Rattle.std.specs.Result.{result_err};
ghost use Rattle.bloom_parts.specs.Rates.{den_of, num_of};
ghost use Rattle.bloom_parts.specs.Sizing.{IsSizeFor};
ghost use Rattle.fastbloom.specs.BlockedSizing.{IsMadeInLinesFor, IsSizeInLines, line_bits_refusal, line_size_refusal, line_words_for};
ghost use Rattle.fastbloom.specs.Builders.{IsMadeFor, RateStart, RefusesAs, bits_refusal, size_refusal, words_for};
ghost use Rattle.summaries_engine.specs.Sizes.{HasSeed, IsEmpty};

use fastbloom::{BlockedBloomFilter, BloomFilter, FilterError, Rate};
use std::alloc::Global;

/// An empty Bloom filter of at least this many bits, with this many hashes, where 0 counts as 1,
/// under the key of a seed.
///
/// # Errors
/// `ZeroBits` for no bits, `TooManyWords` for more than 2^58 - 1 words, and `Memory` where there is
/// no room for them.
pub fn classic_with_bits(
    alloc: Global,
    num_bits: usize,
    num_hashes: u32,
    seed: &u128,
) -> Result<BloomFilter, FilterError>
    ensures empty { IfOk result IsEmpty }
    ensures key { IfOk result (λ filter. HasSeed filter seed.now) }
    ensures words { IfOk result (λ filter. length filter.words ≡ words_for num_bits) }
    ensures hashes { IfOk result (λ filter. filter.hashes ≡ max 1 num_hashes) }
    ensures refused { RefusesAs (bits_refusal num_bits) (result_err result) }
{
    let builder = BloomFilter::with_num_bits(alloc, num_bits)?;
    Ok(builder.seed(seed).hashes(num_hashes))
}

/// The empty Bloom filter that the library's builders make for this many keys, where 0 counts as 1,
/// at this rate of false positives, under the key of a seed.
///
/// # Errors
/// `SizeOverflow` for 2^64 bits or more, `TooManyWords` for more than 2^58 - 1 words, and `Memory`
/// where there is no room for them.
pub fn classic_for(
    alloc: Global,
    keys: usize,
    rate: Rate,
    seed: &u128,
) -> Result<BloomFilter, FilterError>
    ensures empty { IfOk result IsEmpty }
    ensures key { IfOk result (λ filter. HasSeed filter seed.now) }
    ensures made { IfOk result (λ filter.
        (start : RateStart _) × (start.rate ≡ rate) × IsMadeFor start keys filter) }
    ensures refused { (bits : ℕ) × IsSizeFor (max 1 keys) (num_of rate) (den_of rate) bits
        × RefusesAs (size_refusal bits) (result_err result) }
{
    BloomFilter::with_false_pos(rate)
        .seed(seed)
        .expected_items(alloc, keys)
}

/// An empty blocked filter of at least this many bits, rounded up to whole lines of 512, with this
/// many hashes, where 0 counts as 1, under the key of a seed.
///
/// # Errors
/// `ZeroBits` for no bits, `TooManyWords` for more than 2^58 - 8 words, and `Memory` where there is
/// no room for them.
pub fn blocked_with_bits(
    alloc: Global,
    num_bits: usize,
    num_hashes: u32,
    seed: &u128,
) -> Result<BlockedBloomFilter, FilterError>
    ensures empty { IfOk result IsEmpty }
    ensures key { IfOk result (λ filter. HasSeed filter seed.now) }
    ensures words { IfOk result (λ filter. length filter.words ≡ line_words_for num_bits) }
    ensures hashes { IfOk result (λ filter. filter.hashes ≡ max 1 num_hashes) }
    ensures refused { RefusesAs (line_bits_refusal num_bits) (result_err result) }
{
    let builder = BlockedBloomFilter::with_num_bits(alloc, num_bits)?;
    Ok(builder.seed(seed).hashes(num_hashes))
}

/// The empty blocked filter that the library's builders make for this many keys, where 0 counts as
/// 1, at this rate of false positives, under the key of a seed.
///
/// # Errors
/// `SizeOverflow` for 2^64 bits or more, `TooManyWords` for more than 2^58 - 8 words, and `Memory`
/// where there is no room for them.
pub fn blocked_for(
    alloc: Global,
    keys: usize,
    rate: Rate,
    seed: &u128,
) -> Result<BlockedBloomFilter, FilterError>
    ensures empty { IfOk result IsEmpty }
    ensures key { IfOk result (λ filter. HasSeed filter seed.now) }
    ensures made { IfOk result (λ filter.
        (start : RateStart _) × (start.rate ≡ rate) × IsMadeInLinesFor start keys filter) }
    ensures refused { (bits : ℕ) × IsSizeInLines (max 1 keys) (num_of rate) (den_of rate) bits
        × RefusesAs (line_size_refusal bits) (result_err result) }
{
    BlockedBloomFilter::with_false_pos(rate)
        .seed(seed)
        .expected_items(alloc, keys)
}
