//! The rate of false positives of a filter that rotates two Bloom filters.
ghost use Rattle.std.specs.Prelude.{◌≡◌};
ghost use Rattle.bloom_growing.specs.GrowingRates.{BoundsAny};
ghost use Rattle.bloom_growing.specs.Rotating as rotating;
ghost use Rattle.bloom_growing.specs.Rotating.{both_now, both_taken};

use super::RotatingFilterOf;
use bloom_parts::math::{Bracket, false_pos_of_either};
use bloom_plain::BloomFilter;

impl RotatingFilterOf<BloomFilter> {
    // The number of new items that the older filter took before it became the older one.
    fn older_taken(&self) -> usize
        ensures { result ≡ rotating.older_taken self.now }
    {
        if self.turns == 0 { 0 } else { self.room }
    }

    /// Two bounds of the mean rate of false positives of both filters together, each after as many
    /// draws as it took new items. Only items that set a bit are new, so more bits are set than by
    /// as many draws, and the rate can lie above both bounds.
    ///
    /// The upper bound is the sum of those of both filters, and the lower one the greater, as for a
    /// filter that grows.
    pub fn false_pos_bounds(&self) -> Bracket
        ensures { BoundsAny (both_taken self.now) result }
    {
        let items = self.older_taken();
        let older = false_pos_of_either(Bracket::new(0, 0), self.older.false_pos_bounds(items));
        false_pos_of_either(older, self.newer.false_pos_bounds(self.taken))
    }

    /// Two bounds of the rate of false positives of both filters together as they are: the part of
    /// look-ups for which at least one of them returns true, by the part for each.
    pub fn false_pos_now(&self) -> Bracket
        ensures { BoundsAny (both_now self.now) result }
    {
        let older = false_pos_of_either(Bracket::new(0, 0), self.older.false_pos_now());
        false_pos_of_either(older, self.newer.false_pos_now())
    }
}
