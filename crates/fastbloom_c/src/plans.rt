//! The size that a filter is to have.
ghost use Rattle.std.specs.Prelude.{◌≡◌, ℕ, ◌*◌, ◌^◌, ◌<◌, ◌≤◌, max, IfOk};
ghost use Rattle.std.specs.Result.{result_err};
ghost use Rattle.bloom_parts.specs.Sizing.{IsSizeFor, hashes_for};
ghost use Rattle.bloom_plain.specs.Builders.{words_for};
ghost use Rattle.fastbloom_c.specs.Plans.{IsCodeFor, IsRefusalFor};

use bloom_parts::bit_vector::MAX_WORDS;
use bloom_parts::error::FilterError;
use bloom_parts::math::{Rate, optimal_size};
use bloom_plain::builder::{num_hashes_for, num_words_for};

// The numbers of words and of hashes of a filter for these items at the rate num / den.
fn numbers(num: u64, den: u64, items: usize) -> Result<(usize, u32), FilterError>
    ensures words { IfOk result (λ numbers. (bits : ℕ) × IsSizeFor (max 1 items) num den bits
        × (numbers.0 ≡ words_for bits)) }
    ensures hashes { IfOk result (λ numbers.
        numbers.1 ≡ hashes_for (64 * numbers.0) (max 1 items)) }
    ensures refused { IsRefusalFor num den items (result_err result) }
{
    let rate = Rate::new(num, den)?;
    let bits = optimal_size(items.max(1), rate)?;
    let words = num_words_for(bits)?;
    Ok((words, num_hashes_for(words * 64, items)))
}

/// The numbers of words and of hashes of a filter for these items, where 0 counts as 1, at the rate
/// `num / den` of false positives.
///
/// Returns 0, or the number of a refusal: 4 for a zero part of the rate, 5 for 2^64 bits or more, 3
/// for more than 2^58 - 1 words. A refusal sets both numbers to 0.
#[unsafe(no_mangle)]
pub extern "C" fn fastbloom_plan(
    num: u64,
    den: u64,
    items: usize,
    num_words: &mut usize,
    num_hashes: &mut u32,
) -> u8
    ensures words { result ≡ 0 → (bits : ℕ) × IsSizeFor (max 1 items) num den bits
        × (num_words.new ≡ words_for bits) }
    ensures hashes { result ≡ 0
        → num_hashes.new ≡ hashes_for (64 * num_words.new) (max 1 items) }
    // Only one number of bits is the size, so the result is decided.
    ensures code { IsCodeFor num den items result }
    // A refusal sets both numbers to 0, the size of no filter.
    ensures words_zero { 0 < result → num_words.new ≡ 0 }
    ensures hashes_zero { 0 < result → num_hashes.new ≡ 0 }
{
    match numbers(num, den, items) {
        Ok((words, hashes)) => {
            *num_words = words;
            *num_hashes = hashes;
            0
        }
        Err(error) => {
            *num_words = 0;
            *num_hashes = 0;
            error.code()
        }
    }
}

/// The number of bits of this many words, or 0 for more than 2^58 - 1 words.
#[unsafe(no_mangle)]
pub extern "C" fn fastbloom_num_bits(num_words: usize) -> usize
    ensures value { num_words < 2 ^ 58 → result ≡ 64 * num_words }
    ensures none { 2 ^ 58 ≤ num_words → result ≡ 0 }
{
    if num_words > MAX_WORDS {
        return 0;
    }
    num_words * 64
}
