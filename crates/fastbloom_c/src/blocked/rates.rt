//! Rates of false positives of blocked filters as they are.
ghost use Rattle.std.specs.Prelude.{◌≡◌, ◌↔◌, ◌/◌, false, IsTrue, length, max};
ghost use Rattle.bloom_blocked.specs.LineRates.{BoundsLines, BoundsLoadedLines, line_words};
ghost use Rattle.fastbloom_c.specs.Estimates.{TellsPart};
ghost use Rattle.fastbloom_c.specs.Passed.{MakeLines, vector_of};

use crate::lent::LentWords;
use crate::passed_words::{PassedWords, RawWords};
use bloom_blocked::by_hash::LINE;
use bloom_blocked::rates::{false_pos_of_lines, false_pos_of_shared_lines};
use bloom_parts::bit_vector::MAX_WORDS;
use bloom_parts::math::Bracket;

/// Two bounds of the rate of false positives of a blocked filter as it is, in units of 2^-63, and
/// whether there are eight words, and at most 2^58 - 1.
///
/// The rate is the part of all look-ups, each a draw of a line and of positions in it, for which
/// the filter returns true. `num_hashes` 0 counts as 1. Both bounds are 0 where the call returns
/// false.
#[unsafe(no_mangle)]
pub extern "C" fn fastbloom_blocked_rate_now(
    words: &[u64],
    num_hashes: u32,
    low: &mut u64,
    high: &mut u64,
) -> bool
    ensures done { IsTrue result ↔ MakeLines (length words.now) }
    ensures bounds { IsTrue result → TellsPart
        (BoundsLines (line_words words.now) (length words.now / 8) (max 1 num_hashes))
        low.new high.new }
    // A refusal tells nothing.
    ensures refused_low { result ≡ false → low.new ≡ 0 }
    ensures refused_high { result ≡ false → high.new ≡ 0 }
{
    *low = 0;
    *high = 0;
    if words.len() < LINE || words.len() > MAX_WORDS {
        return false;
    }
    let now = false_pos_of_lines(words, num_hashes.max(1));
    *low = now.low();
    *high = now.high();
    true
}

// The rate of the lines of these words.
fn rate_of(words: &RawWords, num_hashes: u32) -> Bracket
    requires { MakeLines words.now.len }
    ensures { BoundsLoadedLines (vector_of words.now.at words.now.len) (words.now.len / 8)
        num_hashes result }
{
    false_pos_of_shared_lines(&LentWords::new(words), num_hashes)
}

/// The same of a filter that threads share, of its words as they were loaded.
#[unsafe(no_mangle)]
pub extern "C" fn fastbloom_blocked_shared_rate_now(
    words: PassedWords,
    num_hashes: u32,
    low: &mut u64,
    high: &mut u64,
) -> bool
    ensures done { IsTrue result ↔ MakeLines words.len }
    ensures bounds { IsTrue result → TellsPart
        (BoundsLoadedLines (vector_of words.at words.len) (words.len / 8) (max 1 num_hashes))
        low.new high.new }
    // A refusal tells nothing.
    ensures refused_low { result ≡ false → low.new ≡ 0 }
    ensures refused_high { result ≡ false → high.new ≡ 0 }
{
    *low = 0;
    *high = 0;
    let Some(words) = words.lines() else {
        return false;
    };
    let now = rate_of(&words, num_hashes.max(1));
    *low = now.low();
    *high = now.high();
    true
}
