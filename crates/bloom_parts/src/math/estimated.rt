//! How many items a filter has, by how many of its bits are set.
ghost use Rattle.std.specs.Prelude.{◌≡◌, ◌-◌, ◌*◌, ◌^◌, ◌<◌, ◌≤◌, IfSome, None, Some};
ghost use Rattle.bloom_parts.specs.Brackets.{density_low};
ghost use Rattle.bloom_parts.specs.Estimates.{EstimatesItems};

use super::estimate::Estimate;
use super::search::{AtMost, Filled, MaybeBelow, last_passing};

// A number of items at which the expected density is certainly the share of bits that is set, or
// more, and isn't so with one item less.
fn upper_bound(filled: Filled) -> Option<usize>
    ensures fits { IfSome result (λ most. most < 2 ^ 64) }
    ensures ends { IfSome result (λ most. 2 ^ 63 * filled.ones
        ≤ density_low filled.bits (filled.hashes * most) * filled.bits) }
    ensures first { IfSome result (λ most. 0 < most →
        density_low filled.bits (filled.hashes * (most - 1)) * filled.bits < 2 ^ 63 * filled.ones) }
    ensures empty { filled.ones ≡ 0 → result ≡ Some 0 }
    ensures none { result ≡ None →
        density_low filled.bits (filled.hashes * (2 ^ 64 - 1)) * filled.bits
        < 2 ^ 63 * filled.ones }
{
    if filled.ones == 0 {
        return Some(0);
    }
    last_passing(&mut MaybeBelow { filled, tests: 0 }).checked_add(1)
}

/// The number of items in a filter of `bits` bits of which `ones` are set, as two bounds.
///
/// It is the number at which as many bits are expected to be set. Nothing is claimed of how far
/// the number of items that were inserted may lie from it. Each bound takes 64 powers.
pub fn estimated_items(hashes: u32, bits: usize, ones: usize) -> Estimate
    requires hashes { 0 < hashes }
    requires bits { 1 < bits }
    ensures { EstimatesItems bits hashes ones result }
{
    let filled = Filled { hashes, bits, ones };
    let low = last_passing(&mut AtMost { filled, tests: 0 });
    Estimate::new(low, upper_bound(filled))
}
