//! Rates of false positives: what is expected of a filter, and what it is now.
ghost use Rattle.std.specs.Prelude.{◌≡◌, ◌*◌, ◌<◌, ◌≤◌, ◌||◌};
ghost use Rattle.bloom_plain.specs.Filter.{HasShape, SameShape, num_bits_of};
ghost use Rattle.bloom_plain.specs.Ones.{ones_of, ones_of_either};
ghost use Rattle.bloom_parts.specs.Brackets.{low_of, high_of, width_of, HoldsRate, rate_low, rate_high};
ghost use Rattle.bloom_parts.specs.Content.{content};
ghost use Rattle.bloom_parts.specs.FalsePositives.{HoldsFalsePositives, false_pos_high, false_pos_width, HoldsPositives, positives_low, positives_high, IsCapacity};
ghost use Rattle.bloom_parts.specs.Rates.{num_of, den_of};

use super::BloomFilter;
use bloom_parts::math::{
    Bracket, Rate, capacity, expected_density, expected_false_pos, false_pos_bounds,
    false_pos_of_ones,
};

/// The classical formula of the rate of false positives for a filter of this many hashes and bits,
/// once this many items are in it.
pub fn expected_rate(num_hashes: u32, num_bits: usize, num_items: usize) -> Bracket
    requires { 0 < num_bits }
    ensures holds { HoldsRate result num_bits (num_hashes * num_items) num_hashes }
    ensures low { low_of result ≡ rate_low num_bits (num_hashes * num_items) num_hashes }
    ensures high { high_of result ≡ rate_high num_bits (num_hashes * num_items) num_hashes }
    ensures width { width_of result ≤ 2 * (num_hashes * num_items) * num_hashes }
{
    let density = expected_density(num_hashes, num_bits, num_items);
    expected_false_pos(num_hashes, density)
}

impl<S> BloomFilter<S> {
    /// The rate of false positives to expect once `num_items` items are in the filter, by the
    /// classical formula.
    ///
    /// The formula is a lower bound of the mean rate, by Chebyshev's sum inequality: law `lower` of
    /// `bloom_parts::laws::rate_by_formula`. `false_pos_bounds` has both bounds of that mean, and
    /// docs/RATES.md says how far they are apart.
    pub fn expected_false_pos(&self, num_items: usize) -> Bracket
        ensures holds { let k = self.now.hashes in
            HoldsRate result (num_bits_of self.now) (k * num_items) k }
        // The ends are exactly these.
        ensures low { let k = self.now.hashes in
            low_of result ≡ rate_low (num_bits_of self.now) (k * num_items) k }
        ensures high { let k = self.now.hashes in
            high_of result ≡ rate_high (num_bits_of self.now) (k * num_items) k }
        ensures width { let k = self.now.hashes in width_of result ≤ 2 * (k * num_items) * k }
    {
        expected_rate(self.num_hashes, self.num_bits(), num_items)
    }

    /// Two bounds of the mean rate of false positives once `num_items` items are in the filter.
    ///
    /// The rate is the part of all draws of positions, those of the items and of a look-up, by
    /// which each position of the look-up was drawn for an item. That hashes are such draws is the
    /// premise, which docs/RATES.md measures.
    pub fn false_pos_bounds(&self, num_items: usize) -> Bracket
        ensures holds { let k = self.now.hashes in
            HoldsFalsePositives result (num_bits_of self.now) (k * num_items) k }
        // The ends are exactly these.
        ensures low { let k = self.now.hashes in
            low_of result ≡ rate_low (num_bits_of self.now) (k * num_items) k }
        ensures high { let k = self.now.hashes in
            high_of result ≡ false_pos_high (num_bits_of self.now) (k * num_items) k }
        ensures width { let k = self.now.hashes in
            width_of result ≤ false_pos_width (num_bits_of self.now) (k * num_items) k }
        ensures shape { HasShape self.now }
    {
        false_pos_bounds(self.num_hashes, self.num_bits(), num_items)
    }

    /// A number of items that the filter takes at a mean rate of false positives, of which one more
    /// is too many, by the upper bound of `false_pos_bounds`.
    pub fn capacity_for(&self, rate: Rate) -> usize
        ensures { IsCapacity (num_bits_of self.now) self.now.hashes (num_of rate) (den_of rate)
            result }
    {
        capacity(self.num_hashes, self.num_bits(), rate)
    }

    /// Two bounds of the rate of false positives of the filter as it is: the part of all look-ups,
    /// each a draw of positions, for which it returns true.
    pub fn false_pos_now(&self) -> Bracket
        ensures holds { HoldsPositives result (num_bits_of self.now) self.now.hashes
            (content self.now.words) }
        // The ends are exactly these.
        ensures low { low_of result
            ≡ positives_low (num_bits_of self.now) self.now.hashes (ones_of self.now) }
        ensures high { high_of result
            ≡ positives_high (num_bits_of self.now) self.now.hashes (ones_of self.now) }
        ensures width { width_of result ≤ 2 * self.now.hashes }
        ensures shape { HasShape self.now }
    {
        false_pos_of_ones(self.num_hashes, self.num_bits(), self.count_ones())
    }

    /// Two bounds of the rate of false positives of the union of two filters, which isn't made.
    pub fn false_pos_union(&self, other: &Self) -> Bracket
        requires { SameShape self.now other.now }
        ensures holds { HoldsPositives result (num_bits_of self.now) self.now.hashes
            (λ p. content self.now.words p || content other.now.words p) }
        // The ends are exactly these.
        ensures low { let ones = ones_of_either self.now other.now in
            low_of result ≡ positives_low (num_bits_of self.now) self.now.hashes ones }
        ensures high { let ones = ones_of_either self.now other.now in
            high_of result ≡ positives_high (num_bits_of self.now) self.now.hashes ones }
        ensures width { width_of result ≤ 2 * self.now.hashes }
    {
        let ones = self.count_either(other);
        false_pos_of_ones(self.num_hashes, self.num_bits(), ones)
    }
}
