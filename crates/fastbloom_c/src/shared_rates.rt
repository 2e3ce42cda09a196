//! How many items filters have that threads share, and how often they err, as they are. No copy of
//! their words is made.
ghost use Rattle.std.specs.Prelude.{◌≡◌, ◌↔◌, ◌≤◌, false, IsTrue, max};
ghost use Rattle.fastbloom_c.specs.Estimates.{TellsBounds, TellsPart};
ghost use Rattle.fastbloom_c.specs.Passed.{MakeFilter, vector_of};
ghost use Rattle.fastbloom_c.specs.SharedRates.{BoundsWords, EstimatesWords};

use crate::estimates::tell;
use crate::lent::LentWords;
use crate::passed_words::{PassedWords, RawWords};
use bloom_parts::math::{Bracket, Estimate, estimated_items, false_pos_of_ones};
use bloom_steps::calls::count_ones;

// The rate of a filter of these words.
fn rate_of(words: &RawWords, num_hashes: u32) -> Bracket
    requires { MakeFilter words.now.len }
    ensures { BoundsWords (vector_of words.now.at words.now.len) num_hashes result }
{
    false_pos_of_ones(
        num_hashes,
        64 * words.len(),
        count_ones(&LentWords::new(words)),
    )
}

// The number of items in it.
fn items_in(words: &RawWords, num_hashes: u32) -> Estimate
    requires filter { MakeFilter words.now.len }
    requires hashes { 1 ≤ num_hashes }
    ensures { EstimatesWords (vector_of words.now.at words.now.len) num_hashes result }
{
    estimated_items(
        num_hashes,
        64 * words.len(),
        count_ones(&LentWords::new(words)),
    )
}

/// Two bounds of the rate of false positives of a filter as it is, in units of 2^-63, and whether
/// there are words, at most 2^58 - 1. They are those of `fastbloom_rate_now`, of the words as they
/// were loaded.
#[unsafe(no_mangle)]
pub extern "C" fn fastbloom_shared_rate_now(
    words: PassedWords,
    num_hashes: u32,
    low: &mut u64,
    high: &mut u64,
) -> bool
    ensures done { IsTrue result ↔ MakeFilter words.len }
    ensures bounds { IsTrue result → TellsPart
        (BoundsWords (vector_of words.at words.len) (max 1 num_hashes)) low.new high.new }
    // A refusal tells nothing.
    ensures refused_low { result ≡ false → low.new ≡ 0 }
    ensures refused_high { result ≡ false → high.new ≡ 0 }
{
    *low = 0;
    *high = 0;
    let Some(words) = words.filter() else {
        return false;
    };
    let now = rate_of(&words, num_hashes.max(1));
    *low = now.low();
    *high = now.high();
    true
}

/// Two bounds of the number of items in a filter, and whether there are words, at most 2^58 - 1.
/// They are those of `fastbloom_estimate`, of the words as they were loaded.
#[unsafe(no_mangle)]
pub extern "C" fn fastbloom_shared_estimate(
    words: PassedWords,
    num_hashes: u32,
    low: &mut usize,
    high: &mut usize,
) -> bool
    ensures done { IsTrue result ↔ MakeFilter words.len }
    ensures bounds { IsTrue result → TellsBounds
        (EstimatesWords (vector_of words.at words.len) (max 1 num_hashes)) low.new high.new }
    // A refusal tells nothing.
    ensures refused_low { result ≡ false → low.new ≡ 0 }
    ensures refused_high { result ≡ false → high.new ≡ 0 }
{
    *low = 0;
    *high = 0;
    let Some(words) = words.filter() else {
        return false;
    };
    tell(items_in(&words, num_hashes.max(1)), low, high);
    true
}
