//! Rates of false positives as counts: of all draws of positions, of a set, and of two filters.
ghost use Rattle.std.specs.Prelude.{◌≡◌, ◌*◌, ◌^◌, ◌<◌, ◌≤◌};
ghost use Rattle.bloom_parts.specs.Brackets.{low_of, high_of, width_of, rate_low};
ghost use Rattle.bloom_parts.specs.FalsePositives as counted;
ghost use Rattle.bloom_parts.specs.FalsePositives.{HoldsFalsePositives, false_pos_high, false_pos_width, BoundsPositives, BoundsEither};

use super::bracket::Bracket;
use super::expected::{expected_density, expected_false_pos};
use super::powers::UNIT;

// The share of set bits whose power is above the rate, from the upper end of the mean share.
fn share_above(hashes: u32, bits: usize, high: u64) -> u64
    requires bits { 0 < bits }
    requires high { high ≤ 2 ^ 63 }
    ensures value { result ≡ counted.share_above bits hashes high }
    ensures fits { result ≤ 2 ^ 63 }
    ensures least { high ≤ result }
{
    if high == 0 {
        return 0;
    }
    let twice = 2 * bits as u128;
    let part = (hashes.saturating_sub(1) as u128).min(twice);
    let more = ((UNIT - high) as u128 * part).div_ceil(twice);
    high + more as u64
}

/// Two bounds of the rate of false positives of `bits` bits that `items` items of `hashes`
/// positions each went into, where each position is drawn alike and whatever the others are.
///
/// The rate is a count: the part of all pairs of draws and a query that are a false positive. The
/// lower bound is the classical formula, which is below the rate.
pub fn false_pos_bounds(hashes: u32, bits: usize, items: usize) -> Bracket
    requires { 0 < bits }
    ensures holds { HoldsFalsePositives result bits (hashes * items) hashes }
    // The ends are exact.
    ensures low { low_of result ≡ rate_low bits (hashes * items) hashes }
    ensures high { high_of result ≡ false_pos_high bits (hashes * items) hashes }
    ensures width { width_of result ≤ false_pos_width bits (hashes * items) hashes }
    ensures width_none { 0 < hashes → items ≡ 0 → width_of result ≡ 0 }
{
    let density = expected_density(hashes, bits, items);
    let share = share_above(hashes, bits, density.high());
    expected_false_pos(hashes, Bracket::new(density.low(), share))
}

/// Two bounds of the rate of a filter of `bits` bits of which `ones` are set: the part of all
/// queries of `hashes` positions for which it returns true.
pub fn false_pos_of_ones(hashes: u32, bits: usize, ones: usize) -> Bracket
    requires bits { 0 < bits }
    requires ones { ones ≤ bits }
    ensures { BoundsPositives bits hashes ones result }
{
    let (set, bits) = (UNIT as u128 * ones as u128, bits as u128);
    let high = set.div_ceil(bits);
    expected_false_pos(hashes, Bracket::new((set / bits) as u64, high as u64))
}

/// Two bounds of the part of queries for which at least one of two tests holds, by those of the
/// parts for which each does. How the tests depend on each other doesn't matter.
pub fn false_pos_of_either(first: Bracket, second: Bracket) -> Bracket
    ensures { BoundsEither first second result }
{
    let high = (first.high() as u128 + second.high() as u128).min(UNIT as u128);
    Bracket::new(first.low().max(second.low()), high as u64)
}
