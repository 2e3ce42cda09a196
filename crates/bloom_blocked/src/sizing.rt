//! How many lines a blocked filter has, and how many hashes.
ghost use Rattle.std.specs.Prelude.{◌≡◌, ◌*◌, ◌^◌, ◌<◌, ◌≤◌, ◌+◌, length, count_by, nat_lt, IfOk, IfErr};
ghost use Rattle.std.specs.Result.{result_err};
ghost use Rattle.bloom_parts.specs.Rates.{num_of, den_of};
ghost use Rattle.bloom_blocked.specs.BlockedSizing.{IsSizeInLines, IsTooLargeInLines, hashes_in_lines, hundredths_more, line_words_for, line_size_refusal};

use crate::by_hash::LINE;
use bloom_parts::bit_vector::MAX_WORDS;
use bloom_parts::error::FilterError;
use bloom_parts::math::{Rate, optimal_size};

// The hundredths of a bit for each item above which one hash more suits.
const HASH_STEPS: [u64; 15] = [
    208, 359, 511, 668, 832, 1006, 1193, 1394, 1613, 1853, 2119, 2414, 2745, 3117, 3537,
];

// How many of these numbers of hundredths are fewer than there are for each item.
fn steps_passed(steps: &[u64], num_bits: usize, num_items: usize) -> u32
    requires { length steps.now < 2 ^ 32 }
    ensures { result ≡ count_by (λ t. nat_lt (t * num_items) (100 * num_bits)) steps.now }
{
    let mut passed: u32 = 0;
    'steps: for step in steps {
        if *step as u128 * (num_items as u128) < 100 * num_bits as u128 {
            passed += 1;
        }
    }
    passed
}

/// The number of hashes, from 1 to 16, that a table of this crate gives to a blocked filter of
/// `num_bits` bits that `num_items` items go into.
pub fn optimal_hashes_in_lines(num_bits: usize, num_items: usize) -> u32
    ensures value { result ≡ hashes_in_lines num_bits num_items }
    ensures least { 1 ≤ result }
{
    1 + steps_passed(&HASH_STEPS, num_bits, num_items)
}

// The hundredth parts of a Bloom filter's bits that come on top of them.
fn more_for(num_bits: usize, num_items: usize) -> u128
    ensures value { result ≡ hundredths_more num_bits num_items }
    ensures most { result ≤ 44 }
{
    let bits = num_bits as u128;
    let items = num_items as u128;
    if bits <= 8 * items {
        2
    } else if bits <= 10 * items {
        4
    } else if bits <= 12 * items {
        6
    } else if bits <= 16 * items {
        10
    } else if bits <= 20 * items {
        16
    } else if bits <= 24 * items {
        24
    } else if bits <= 28 * items {
        33
    } else {
        44
    }
}

/// The number of bits for a blocked filter that `num_items` items go into, at this rate of false
/// positives: that of a Bloom filter, and 2 to 44 hundredths more. Where a Bloom filter has more
/// than 32 bits for each item, the rate isn't met.
///
/// # Errors
/// `SizeOverflow` where the size is 2^64 bits or more.
pub fn optimal_size_in_lines(num_items: usize, rate: Rate) -> Result<usize, FilterError>
    ensures value { IfOk result (IsSizeInLines num_items (num_of rate) (den_of rate)) }
    ensures refused { IfErr result (λ error. error ≡ FilterError.SizeOverflow) }
    ensures large { IfErr result (λ _. IsTooLargeInLines num_items (num_of rate) (den_of rate)) }
{
    let plain = optimal_size(num_items, rate)?;
    let more = more_for(plain, num_items);
    let size = (plain as u128 * (100 + more)).div_ceil(100);
    if size > usize::MAX as u128 {
        return Err(FilterError::SizeOverflow);
    }
    Ok(size as usize)
}

/// The number of words in the lines for this many bits.
///
/// # Errors
/// `TooManyWords` for more than 2^58 - 8 words.
pub fn num_words_in_lines(num_bits: usize) -> Result<usize, FilterError>
    requires { 0 < num_bits }
    ensures value { IfOk result (λ words. words ≡ line_words_for num_bits) }
    ensures least { IfOk result (λ words. 8 ≤ words) }
    ensures most { IfOk result (λ words. words < 2 ^ 58) }
    ensures refused { result_err result ≡ line_size_refusal num_bits }
{
    let num_words = LINE * num_bits.div_ceil(512);
    if num_words > MAX_WORDS {
        return Err(FilterError::TooManyWords);
    }
    Ok(num_words)
}
