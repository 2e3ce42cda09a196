//! How many items filters have, and how alike they are, by how many of their bits are set.
ghost use Rattle.std.specs.Prelude.{◌≡◌, ◌↔◌, ◌-◌, ◌*◌, ◌^◌, ◌<◌, ◌≤◌, false, IsTrue, length, max, unwrap_or};
ghost use Rattle.bloom_parts.specs.Alike.{EstimatesCommon, EstimatesLikeness};
ghost use Rattle.bloom_parts.specs.Estimates.{EstimatesItems, least_of, most_of};
ghost use Rattle.fastbloom_c.specs.Estimates.{TellsBounds, TellsPart, ones_of_words, ones_of_either_words};

use bloom_parts::bit_vector::MAX_WORDS;
use bloom_parts::math::{Bracket, Estimate, estimated_common, estimated_items, estimated_part};
use bloom_parts::slices;

// Whether there are words, and at most 2^58 - 1.
pub(crate) fn are_words(words: &[u64]) -> bool
    ensures { IsTrue result ↔ ((1 ≤ length words.now) × (length words.now < 2 ^ 58)) }
{
    !words.is_empty() && words.len() <= MAX_WORDS
}

// Whether there are words, at most 2^58 - 1, and as many in the other list.
fn are_alike(words: &[u64], other: &[u64]) -> bool
    ensures { IsTrue result ↔ ((1 ≤ length words.now) × (length words.now < 2 ^ 58)
        × (length words.now ≡ length other.now)) }
{
    are_words(words) && words.len() == other.len()
}

// Hands out the two bounds of an estimate.
pub(crate) fn tell(estimate: Estimate, low: &mut usize, high: &mut usize)
    ensures low { low.new ≡ least_of estimate }
    ensures high { high.new ≡ unwrap_or (most_of estimate) (2 ^ 64 - 1) }
{
    *low = estimate.low();
    *high = estimate.high().unwrap_or(usize::MAX);
}

// The number of items in a filter of these words.
fn items_in(words: &[u64], num_hashes: u32) -> Estimate
    requires words { 1 ≤ length words.now }
    requires few { length words.now < 2 ^ 58 }
    requires hashes { 1 ≤ num_hashes }
    ensures { EstimatesItems (64 * length words.now) num_hashes (ones_of_words words.now) result }
{
    estimated_items(num_hashes, 64 * words.len(), slices::count_ones(words))
}

// The number of items in the union of two filters.
fn items_in_either(words: &[u64], other: &[u64], num_hashes: u32) -> Estimate
    requires words { 1 ≤ length words.now }
    requires few { length words.now < 2 ^ 58 }
    requires lengths { length words.now ≡ length other.now }
    requires hashes { 1 ≤ num_hashes }
    ensures { EstimatesItems (64 * length words.now) num_hashes
        (ones_of_either_words words.now other.now) result }
{
    estimated_items(
        num_hashes,
        64 * words.len(),
        slices::count_either(words, other),
    )
}

// The number of items that two filters have in common.
fn items_in_both(words: &[u64], other: &[u64], num_hashes: u32) -> Estimate
    requires words { 1 ≤ length words.now }
    requires few { length words.now < 2 ^ 58 }
    requires lengths { length words.now ≡ length other.now }
    requires hashes { 1 ≤ num_hashes }
    ensures { EstimatesCommon (64 * length words.now) num_hashes (ones_of_words words.now)
        (ones_of_words other.now) (ones_of_either_words words.now other.now) result }
{
    let (first, second) = (items_in(words, num_hashes), items_in(other, num_hashes));
    estimated_common(first, second, items_in_either(words, other, num_hashes))
}

// The part of the items of two filters that they have in common.
fn part_in_both(words: &[u64], other: &[u64], num_hashes: u32) -> Bracket
    requires words { 1 ≤ length words.now }
    requires few { length words.now < 2 ^ 58 }
    requires lengths { length words.now ≡ length other.now }
    requires hashes { 1 ≤ num_hashes }
    ensures { EstimatesLikeness (64 * length words.now) num_hashes (ones_of_words words.now)
        (ones_of_words other.now) (ones_of_either_words words.now other.now) result }
{
    let (first, second) = (items_in(words, num_hashes), items_in(other, num_hashes));
    let all = items_in_either(words, other, num_hashes);
    estimated_part(estimated_common(first, second, all), all)
}

/// Two bounds of the number of items in a filter, and whether there are words, at most 2^58 - 1.
///
/// It is the number of items at which as many bits are expected to be set. Nothing is claimed of
/// how far the number of items that were inserted may lie from it. `num_hashes` 0 counts as 1. The
/// upper bound is 2^64 - 1 where there is none. Both are 0 where the call returns false.
#[unsafe(no_mangle)]
pub extern "C" fn fastbloom_estimate(
    words: &[u64],
    num_hashes: u32,
    low: &mut usize,
    high: &mut usize,
) -> bool
    ensures done { IsTrue result ↔ ((1 ≤ length words.now) × (length words.now < 2 ^ 58)) }
    ensures bounds { IsTrue result → TellsBounds
        (EstimatesItems (64 * length words.now) (max 1 num_hashes) (ones_of_words words.now))
        low.new high.new }
    // A refusal tells nothing.
    ensures refused_low { result ≡ false → low.new ≡ 0 }
    ensures refused_high { result ≡ false → high.new ≡ 0 }
{
    *low = 0;
    *high = 0;
    if !are_words(words) {
        return false;
    }
    tell(items_in(words, num_hashes.max(1)), low, high);
    true
}

/// Two bounds of the number of items in the union of two filters, which isn't made, and whether
/// there are words, at most 2^58 - 1, and as many in both.
///
/// `num_hashes`, the upper bound and both bounds where the call returns false are as in
/// `fastbloom_estimate`.
#[unsafe(no_mangle)]
pub extern "C" fn fastbloom_estimate_union(
    words: &[u64],
    other: &[u64],
    num_hashes: u32,
    low: &mut usize,
    high: &mut usize,
) -> bool
    ensures done { IsTrue result ↔ ((1 ≤ length words.now) × (length words.now < 2 ^ 58)
        × (length words.now ≡ length other.now)) }
    ensures bounds { IsTrue result → TellsBounds
        (EstimatesItems (64 * length words.now) (max 1 num_hashes)
        (ones_of_either_words words.now other.now)) low.new high.new }
    // A refusal tells nothing.
    ensures refused_low { result ≡ false → low.new ≡ 0 }
    ensures refused_high { result ≡ false → high.new ≡ 0 }
{
    *low = 0;
    *high = 0;
    if !are_alike(words, other) {
        return false;
    }
    tell(items_in_either(words, other, num_hashes.max(1)), low, high);
    true
}

/// Two bounds of the number of items that two filters have in common, and whether there are words,
/// at most 2^58 - 1, and as many in both.
///
/// It is what both have together, less what their union has. `num_hashes`, the upper bound and both
/// bounds where the call returns false are as in `fastbloom_estimate`.
#[unsafe(no_mangle)]
pub extern "C" fn fastbloom_estimate_common(
    words: &[u64],
    other: &[u64],
    num_hashes: u32,
    low: &mut usize,
    high: &mut usize,
) -> bool
    ensures done { IsTrue result ↔ ((1 ≤ length words.now) × (length words.now < 2 ^ 58)
        × (length words.now ≡ length other.now)) }
    ensures bounds { IsTrue result → TellsBounds
        (EstimatesCommon (64 * length words.now) (max 1 num_hashes) (ones_of_words words.now)
        (ones_of_words other.now) (ones_of_either_words words.now other.now)) low.new high.new }
    // A refusal tells nothing.
    ensures refused_low { result ≡ false → low.new ≡ 0 }
    ensures refused_high { result ≡ false → high.new ≡ 0 }
{
    *low = 0;
    *high = 0;
    if !are_alike(words, other) {
        return false;
    }
    tell(items_in_both(words, other, num_hashes.max(1)), low, high);
    true
}

/// Two bounds of the part of the items of two filters that they have in common, in units of 2^-63,
/// and whether there are words, at most 2^58 - 1, and as many in both.
///
/// `num_hashes` 0 counts as 1. Both bounds are 0 where the call returns false.
#[unsafe(no_mangle)]
pub extern "C" fn fastbloom_jaccard(
    words: &[u64],
    other: &[u64],
    num_hashes: u32,
    low: &mut u64,
    high: &mut u64,
) -> bool
    ensures done { IsTrue result ↔ ((1 ≤ length words.now) × (length words.now < 2 ^ 58)
        × (length words.now ≡ length other.now)) }
    ensures bounds { IsTrue result → TellsPart
        (EstimatesLikeness (64 * length words.now) (max 1 num_hashes) (ones_of_words words.now)
        (ones_of_words other.now) (ones_of_either_words words.now other.now)) low.new high.new }
    // A refusal tells nothing.
    ensures refused_low { result ≡ false → low.new ≡ 0 }
    ensures refused_high { result ≡ false → high.new ≡ 0 }
{
    *low = 0;
    *high = 0;
    if !are_alike(words, other) {
        return false;
    }
    let part = part_in_both(words, other, num_hashes.max(1));
    *low = part.low();
    *high = part.high();
    true
}
