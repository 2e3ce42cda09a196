//! How many items filters take at a rate of false positives.
ghost use Rattle.std.specs.Prelude.{◌≡◌, ◌*◌, ◌<◌, max};
ghost use Rattle.bloom_parts.specs.FalsePositives.{IsCapacity};
ghost use Rattle.fastbloom_c.specs.Passed.{MakeFilter};

use bloom_parts::bit_vector::MAX_WORDS;
use bloom_parts::math::{Rate, capacity};

/// A number of items that a filter of this size takes at the mean rate `num / den` of false
/// positives, of which one more is too many, by the upper bound of `fastbloom_rate_bounds`.
///
/// `num_hashes` 0 counts as 1. It is 0 where there are no words or more than 2^58 - 1, or a part of
/// the rate is zero.
#[unsafe(no_mangle)]
pub extern "C" fn fastbloom_capacity(num_words: usize, num_hashes: u32, num: u64, den: u64) -> usize
    ensures capacity { MakeFilter num_words → 0 < num → 0 < den
        → IsCapacity (64 * num_words) (max 1 num_hashes) num den result }
    ensures no_words { (MakeFilter num_words → ⊥) → result ≡ 0 }
    ensures no_rate { num * den ≡ 0 → result ≡ 0 }
{
    if num_words == 0 || num_words > MAX_WORDS {
        return 0;
    }
    match Rate::new(num, den) {
        Ok(rate) => capacity(num_hashes.max(1), 64 * num_words, rate),
        Err(_) => 0,
    }
}
