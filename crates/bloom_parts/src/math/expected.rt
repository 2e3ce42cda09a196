//! What share of the bits is set, and how often a look-up errs, as brackets.
ghost use Rattle.std.specs.Prelude.{◌≡◌, ℕ, ◌+◌, ◌-◌, ◌*◌, ◌^◌, ◌<◌, ◌≤◌};
ghost use Rattle.bloom_parts.specs.Brackets.{low_of, high_of, width_of, Holds, HoldsDensity, density_low, density_high};
ghost use Rattle.bloom_parts.specs.Powers.{lower_power_of, upper_power_of};

use super::bracket::Bracket;
use super::powers::{UNIT, lower_power, upper_power};

// The lower end of the expected density after `sets` positions were set.
pub(super) fn low_end(bits: usize, sets: u128) -> u64
    requires { 0 < bits }
    ensures value { result ≡ density_low bits sets }
    ensures fits { result ≤ 2 ^ 63 }
{
    let off = (UNIT as u128 * (bits as u128 - 1)).div_ceil(bits as u128);
    let mut products = 0;
    UNIT - upper_power(off as u64, sets, &mut products)
}

// The upper end of the expected density after `sets` positions were set.
pub(super) fn high_end(bits: usize, sets: u128) -> u64
    requires { 0 < bits }
    ensures value { result ≡ density_high bits sets }
    ensures fits { result ≤ 2 ^ 63 }
{
    let off = UNIT as u128 * (bits as u128 - 1) / bits as u128;
    let mut products = 0;
    UNIT - lower_power(off as u64, sets, &mut products)
}

/// The expected share of `bits` bits that is set after `items` items with `hashes` positions each.
pub fn expected_density(hashes: u32, bits: usize, items: usize) -> Bracket
    requires { 0 < bits }
    ensures holds { HoldsDensity result bits (hashes * items) }
    // The ends are exact.
    ensures low { low_of result ≡ density_low bits (hashes * items) }
    ensures high { high_of result ≡ density_high bits (hashes * items) }
    ensures width { 0 < hashes * items → width_of result ≤ 2 * (hashes * items) - 1 }
    ensures width_none { hashes * items ≡ 0 → width_of result ≡ 0 }
{
    let sets = hashes as u128 * items as u128;
    Bracket::new(low_end(bits, sets), high_end(bits, sets))
}

/// The chance that `hashes` positions, each of which is set with the chance `density`, are all set.
///
/// Of the expected density it is the classical formula of the rate of false positives, which is a
/// lower bound of the mean rate: `laws::rate_by_formula`. `false_pos_bounds` has both bounds.
pub fn expected_false_pos(hashes: u32, density: Bracket) -> Bracket
    ensures holds { (p q : ℕ) → 0 < q → Holds density p q → Holds result (p ^ hashes) (q ^ hashes) }
    // The ends are exact.
    ensures low { low_of result ≡ lower_power_of (low_of density) hashes }
    ensures high { high_of result ≡ upper_power_of (high_of density) hashes }
    ensures width { width_of result ≤ hashes * (width_of density + 1) }
    ensures width_none { 0 < hashes → high_of density ≡ 0 → width_of result ≡ 0 }
{
    let (mut down, mut up) = (0, 0);
    let low = lower_power(density.low(), hashes as u128, &mut down);
    let high = upper_power(density.high(), hashes as u128, &mut up);
    Bracket::new(low, high)
}
