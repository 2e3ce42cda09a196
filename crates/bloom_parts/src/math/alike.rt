//! How many items two filters have in common, and which part of all their items that is.
ghost use Rattle.std.specs.Prelude.{◌≡◌, ◌^◌, ◌≤◌};
ghost use Rattle.bloom_parts.specs.Alike.{IsCommon, IsPartOf, common_least, common_most, part_high, part_low};

use super::bracket::Bracket;
use super::estimate::Estimate;
use super::powers::UNIT;

// The least number in common.
fn least_common(first: usize, second: usize, both: Option<usize>) -> usize
    ensures { result ≡ common_least first second both }
{
    match both {
        None => 0,
        Some(both) => {
            let items = (first as u128 + second as u128).saturating_sub(both as u128);
            items.min(usize::MAX as u128) as usize
        }
    }
}

// The most in common.
fn most_common(first: Option<usize>, second: Option<usize>, both: usize) -> Option<usize>
    ensures { result ≡ common_most first second both }
{
    let items = (first? as u128 + second? as u128).saturating_sub(both as u128);
    if items > usize::MAX as u128 {
        return None;
    }
    Some(items as usize)
}

/// The number of items that two filters have in common, by the estimates of each and of their
/// union: what both have together, less what the union has.
pub fn estimated_common(first: Estimate, second: Estimate, both: Estimate) -> Estimate
    ensures { IsCommon first second both result }
{
    let low = least_common(first.low(), second.low(), both.high());
    let high = most_common(first.high(), second.high(), both.low());
    Estimate::new(low, high)
}

// The lower bound of a part.
fn lower_part(part: usize, all: Option<usize>) -> u64
    ensures value { result ≡ part_low part all }
    ensures fits { result ≤ 2 ^ 63 }
{
    match all {
        None | Some(0) => 0,
        Some(all) => (UNIT as u128 * part as u128 / all as u128).min(UNIT as u128) as u64,
    }
}

// The upper bound of a part.
fn upper_part(part: Option<usize>, all: usize) -> u64
    ensures value { result ≡ part_high part all }
    ensures fits { result ≤ 2 ^ 63 }
{
    let Some(part) = part else {
        return UNIT;
    };
    if all == 0 {
        return UNIT;
    }
    (UNIT as u128 * part as u128)
        .div_ceil(all as u128)
        .min(UNIT as u128) as u64
}

/// Which part of all items some of them are, in units of 2^-63.
pub fn estimated_part(some: Estimate, all: Estimate) -> Bracket
    ensures { IsPartOf some all result }
{
    let low = lower_part(some.low(), all.high());
    Bracket::new(low, upper_part(some.high(), all.low()))
}
