//! How many hashes a filter has, and how many bits.
ghost use Rattle.std.specs.Prelude.{◌≡◌, ◌↔◌, ℕ, ◌<◌, ◌≤◌, IfOk, IfErr, IsTrue};
ghost use Rattle.bloom_parts.specs.Rates.{num_of, den_of};
ghost use Rattle.bloom_parts.specs.Sizing.{IsEnough, IsHalvings, IsSizeFor, IsTooLarge, hashes_for};

use super::rate::Rate;
use super::roots::root;
use crate::error::FilterError;

// 2^53 times the natural logarithm of 2, as the nearest double has it.
const LN_TWO: u128 = 6_243_314_768_165_359;

// Whether these sixty-fourth parts of a halving are enough for the rate, where no fewer are.
fn is_enough(rate: Rate, parts: u32) -> bool
    requires within { parts < 4096 }
    requires few { (fewer : ℕ) → fewer < parts → ¬ IsEnough (num_of rate) (den_of rate) fewer }
    ensures { IsTrue result ↔ IsEnough (num_of rate) (den_of rate) parts }
{
    let whole = (rate.den() as u128) << 32;
    let scaled = (rate.num() as u128) << (parts / 64);
    whole <= scaled * root((parts % 64) as usize) as u128
}

// The least number of sixty-fourth parts of a halving that are enough for the rate.
fn halvings(rate: Rate) -> u32
    ensures value { IsHalvings (num_of rate) (den_of rate) result }
    ensures most { result ≤ 4096 }
{
    'tried: for parts in 0..4096 {
        if is_enough(rate, parts) {
            return parts;
        }
    }
    4096
}

/// The number of hashes for a filter of `num_bits` bits that `num_items` items go into.
pub fn optimal_hashes(num_bits: usize, num_items: usize) -> u32
    ensures { result ≡ hashes_for num_bits num_items }
{
    if num_items == 0 {
        return if num_bits == 0 { 1 } else { u32::MAX };
    }
    let unit = num_items as u128 * (1 << 53);
    let hashes = (2 * num_bits as u128 * LN_TWO + unit) / (2 * unit);
    if hashes < 1 {
        1
    } else if hashes > u32::MAX as u128 {
        u32::MAX
    } else {
        hashes as u32
    }
}

/// The number of bits for a filter that `num_items` items go into, at this rate of false positives.
///
/// It can be a little more than the formula in real numbers gives.
///
/// # Errors
/// `SizeOverflow` where the size is 2^64 bits or more.
pub fn optimal_size(num_items: usize, rate: Rate) -> Result<usize, FilterError>
    ensures value { IfOk result (λ size. IsSizeFor num_items (num_of rate) (den_of rate) size) }
    ensures refused { IfErr result (λ error. error ≡ FilterError.SizeOverflow) }
    ensures large { IfErr result (λ _. IsTooLarge num_items (num_of rate) (den_of rate)) }
{
    let steps = num_items as u128 * halvings(rate) as u128 * (1 << 44);
    let size = (8 * steps.div_ceil(LN_TWO)).max(64);
    if size > usize::MAX as u128 {
        return Err(FilterError::SizeOverflow);
    }
    Ok(size as usize)
}
