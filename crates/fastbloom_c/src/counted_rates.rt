//! Rates of false positives as counts: the mean rate of a filter, and the rate of one as it is.
ghost use Rattle.std.specs.Prelude.{◌≡◌, ◌↔◌, ◌*◌, ◌^◌, ◌<◌, ◌≤◌, false, IsTrue, length, max};
ghost use Rattle.bloom_parts.specs.Brackets.{rate_low};
ghost use Rattle.bloom_parts.specs.FalsePositives.{HoldsFalsePositives, false_pos_high, BoundsPositives};
ghost use Rattle.fastbloom_c.specs.Estimates.{TellsPart, ones_of_words};
ghost use Rattle.fastbloom_c.specs.Files.{head_words_refusal, file_code_or_zero};

use crate::estimates::are_words;
use bloom_files::FileError;
use bloom_parts::bit_vector::MAX_WORDS;
use bloom_parts::math::{Bracket, false_pos_bounds, false_pos_of_ones};
use bloom_parts::slices;

/// Two bounds of the mean rate of false positives once this many items are in a filter, in units of
/// 2^-63, and 0.
///
/// The rate is the part of all draws of positions, those of the items and of a look-up, by which
/// each position of the look-up was drawn for an item. `num_hashes` 0 counts as 1. Returns 2 for no
/// words and 3 for more than 2^58 - 1; the bounds are then 0 and 2^63, which every rate has.
#[unsafe(no_mangle)]
pub extern "C" fn fastbloom_rate_bounds(
    num_words: usize,
    num_hashes: u32,
    items: usize,
    low: &mut u64,
    high: &mut u64,
) -> u8
    ensures code { result ≡ file_code_or_zero (head_words_refusal num_words) }
    ensures bounds { result ≡ 0 → TellsPart (λ bracket. HoldsFalsePositives bracket (64 * num_words)
        (max 1 num_hashes * items) (max 1 num_hashes)) low.new high.new }
    // The bounds are exactly these.
    ensures low { result ≡ 0 → low.new
        ≡ rate_low (64 * num_words) (max 1 num_hashes * items) (max 1 num_hashes) }
    ensures high { result ≡ 0 → high.new
        ≡ false_pos_high (64 * num_words) (max 1 num_hashes * items) (max 1 num_hashes) }
    // A refusal tells nothing.
    ensures refused_low { 0 < result → low.new ≡ 0 }
    ensures refused_high { 0 < result → high.new ≡ 2 ^ 63 }
{
    *low = 0;
    *high = 1 << 63;
    if num_words == 0 {
        return FileError::EmptyWords.code();
    }
    if num_words > MAX_WORDS {
        return FileError::TooManyWords.code();
    }
    let rate = false_pos_bounds(num_hashes.max(1), 64 * num_words, items);
    *low = rate.low();
    *high = rate.high();
    0
}

// The rate of a filter of these words.
fn rate_of(words: &[u64], num_hashes: u32) -> Bracket
    requires words { 1 ≤ length words.now }
    requires few { length words.now < 2 ^ 58 }
    ensures { BoundsPositives (64 * length words.now) num_hashes (ones_of_words words.now) result }
{
    false_pos_of_ones(num_hashes, 64 * words.len(), slices::count_ones(words))
}

/// Two bounds of the rate of false positives of a filter as it is, in units of 2^-63, and whether
/// there are words, at most 2^58 - 1.
///
/// The rate is the part of all look-ups, each a draw of positions, for which the filter returns
/// true. `num_hashes` 0 counts as 1. Both bounds are 0 where the call returns false.
#[unsafe(no_mangle)]
pub extern "C" fn fastbloom_rate_now(
    words: &[u64],
    num_hashes: u32,
    low: &mut u64,
    high: &mut u64,
) -> bool
    ensures done { IsTrue result ↔ ((1 ≤ length words.now) × (length words.now < 2 ^ 58)) }
    ensures bounds { IsTrue result → TellsPart
        (BoundsPositives (64 * length words.now) (max 1 num_hashes) (ones_of_words words.now))
        low.new high.new }
    // A refusal tells nothing.
    ensures refused_low { result ≡ false → low.new ≡ 0 }
    ensures refused_high { result ≡ false → high.new ≡ 0 }
{
    *low = 0;
    *high = 0;
    if !are_words(words) {
        return false;
    }
    let now = rate_of(words, num_hashes.max(1));
    *low = now.low();
    *high = now.high();
    true
}
