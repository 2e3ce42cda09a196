//! The rate of false positives that is expected of a filter.
ghost use Rattle.std.specs.Prelude.{◌≡◌, ◌*◌, ◌^◌, ◌<◌, max};
ghost use Rattle.bloom_parts.specs.Brackets.{rate_low, rate_high};
ghost use Rattle.fastbloom_c.specs.Files.{head_words_refusal, file_code_or_zero};
ghost use Rattle.fastbloom_c.specs.Rates.{HoldRate};

use bloom_files::FileError;
use bloom_parts::bit_vector::MAX_WORDS;
use bloom_plain::expected_rate;

/// Two bounds of the classical formula of the rate of false positives, once this many items are in
/// a filter, in units of 2^-63, and 0. The formula is a lower bound of the mean rate.
///
/// `num_hashes` 0 counts as 1. Returns 2 for no words and 3 for more than 2^58 - 1; the bounds are
/// then 0 and 2^63, which every rate has.
#[unsafe(no_mangle)]
pub extern "C" fn fastbloom_expected_rate(
    num_words: usize,
    num_hashes: u32,
    items: usize,
    low: &mut u64,
    high: &mut u64,
) -> u8
    ensures code { result ≡ file_code_or_zero (head_words_refusal num_words) }
    ensures holds { result ≡ 0
        → HoldRate low.new high.new (64 * num_words) (max 1 num_hashes * items) (max 1 num_hashes) }
    // The bounds are exactly these.
    ensures low { result ≡ 0 → low.new
        ≡ rate_low (64 * num_words) (max 1 num_hashes * items) (max 1 num_hashes) }
    ensures high { result ≡ 0 → high.new
        ≡ rate_high (64 * num_words) (max 1 num_hashes * items) (max 1 num_hashes) }
    // A refusal tells nothing.
    ensures refused_low { 0 < result → low.new ≡ 0 }
    ensures refused_high { 0 < result → high.new ≡ 2 ^ 63 }
{
    *low = 0;
    *high = 1 << 63;
    if num_words == 0 {
        return FileError::EmptyWords.code();
    }
    if num_words > MAX_WORDS {
        return FileError::TooManyWords.code();
    }
    let bracket = expected_rate(num_hashes.max(1), 64 * num_words, items);
    *low = bracket.low();
    *high = bracket.high();
    0
}
