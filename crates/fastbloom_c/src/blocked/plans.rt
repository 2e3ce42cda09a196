//! The size that a blocked filter is to have.
ghost use Rattle.std.specs.Prelude.{◌≡◌, ℕ, ◌*◌, ◌<◌, max, IfOk};
ghost use Rattle.std.specs.Result.{result_err};
ghost use Rattle.bloom_blocked.specs.BlockedSizing.{IsSizeInLines, hashes_in_lines, line_words_for};
ghost use Rattle.fastbloom_c.specs.BlockedPlans.{IsCodeInLinesFor, IsRefusalInLinesFor};

use bloom_blocked::sizing::{num_words_in_lines, optimal_hashes_in_lines, optimal_size_in_lines};
use bloom_parts::error::FilterError;
use bloom_parts::math::Rate;

// The numbers of words and of hashes of a blocked filter for these items at the rate num / den.
fn plan_in_lines(num: u64, den: u64, items: usize) -> Result<(usize, u32), FilterError>
    ensures words { IfOk result (λ numbers. (bits : ℕ) × IsSizeInLines (max 1 items) num den bits
        × (numbers.0 ≡ line_words_for bits)) }
    ensures hashes { IfOk result (λ numbers.
        numbers.1 ≡ hashes_in_lines (64 * numbers.0) (max 1 items)) }
    ensures refused { IsRefusalInLinesFor num den items (result_err result) }
{
    let rate = Rate::new(num, den)?;
    let bits = optimal_size_in_lines(items.max(1), rate)?;
    let words = num_words_in_lines(bits)?;
    Ok((words, optimal_hashes_in_lines(words * 64, items.max(1))))
}

/// The numbers of words and of hashes of a blocked filter for these items, where 0 counts as 1, at
/// the rate `num / den` of false positives. The words are whole lines.
///
/// It returns 0, or the number of a refusal: 4 for a zero part of the rate, 5 for 2^64 bits or
/// more, 3 for more than 2^58 - 8 words. A refusal sets both numbers to 0.
#[unsafe(no_mangle)]
pub extern "C" fn fastbloom_blocked_plan(
    num: u64,
    den: u64,
    items: usize,
    num_words: &mut usize,
    num_hashes: &mut u32,
) -> u8
    ensures words { result ≡ 0 → (bits : ℕ) × IsSizeInLines (max 1 items) num den bits
        × (num_words.new ≡ line_words_for bits) }
    ensures hashes { result ≡ 0
        → num_hashes.new ≡ hashes_in_lines (64 * num_words.new) (max 1 items) }
    // Only one number of bits is the size, so the result is decided.
    ensures code { IsCodeInLinesFor num den items result }
    // A refusal sets both numbers to 0, the size of no filter.
    ensures words_zero { 0 < result → num_words.new ≡ 0 }
    ensures hashes_zero { 0 < result → num_hashes.new ≡ 0 }
{
    match plan_in_lines(num, den, items) {
        Ok((words, hashes)) => {
            *num_words = words;
            *num_hashes = hashes;
            0
        }
        Err(error) => {
            *num_words = 0;
            *num_hashes = 0;
            error.code()
        }
    }
}
