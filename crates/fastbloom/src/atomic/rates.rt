//! Rates of false positives of a shared filter, as counts of draws.
ghost use Rattle.std.specs.Prelude.{◌≡◌, ◌*◌, ◌≤◌};
ghost use Rattle.bloom_parts.specs.Brackets.{low_of, high_of, width_of, rate_low};
ghost use Rattle.bloom_parts.specs.FalsePositives.{HoldsFalsePositives, false_pos_high, false_pos_width, IsCapacity};
ghost use Rattle.bloom_parts.specs.Rates.{num_of, den_of};
ghost use Rattle.fastbloom.specs.LoadedOnes.{BoundsLoaded};

use super::AtomicBloomFilter;
use bloom_parts::math::{Bracket, Rate, capacity, false_pos_bounds, false_pos_of_ones};

impl<S> AtomicBloomFilter<S> {
    /// Two bounds of the mean rate of false positives once `num_items` items are in the filter.
    ///
    /// The rate is the part of all draws of positions, those of the items and of a look-up, by
    /// which each position of the look-up was drawn for an item. That hashes are such draws is the
    /// premise, which docs/RATES.md measures.
    pub fn false_pos_bounds(&self, num_items: usize) -> Bracket
        ensures holds { let k = self.now.hashes in
            HoldsFalsePositives result (64 * self.now.words.count) (k * num_items) k }
        // The ends are exact.
        ensures low { let k = self.now.hashes in
            low_of result ≡ rate_low (64 * self.now.words.count) (k * num_items) k }
        ensures high { let k = self.now.hashes in
            high_of result ≡ false_pos_high (64 * self.now.words.count) (k * num_items) k }
        ensures width { let k = self.now.hashes in
            width_of result ≤ false_pos_width (64 * self.now.words.count) (k * num_items) k }
    {
        false_pos_bounds(self.num_hashes, self.num_bits(), num_items)
    }

    /// A number of items that the filter takes at a mean rate of false positives, of which one more
    /// is too many, by the upper bound of `false_pos_bounds`.
    pub fn capacity_for(&self, rate: Rate) -> usize
        ensures { IsCapacity (64 * self.now.words.count) self.now.hashes (num_of rate) (den_of rate)
            result }
    {
        capacity(self.num_hashes, self.num_bits(), rate)
    }

    /// Two bounds of the rate of false positives of the filter, by its words as they were loaded:
    /// the part of all look-ups, each a draw of positions, for which such words return true.
    pub fn false_pos_now(&self) -> Bracket
        ensures { BoundsLoaded self.now result }
    {
        false_pos_of_ones(self.num_hashes, self.num_bits(), self.count_ones())
    }
}
