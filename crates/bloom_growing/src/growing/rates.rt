//! The rate of false positives of a filter that grows by Bloom filters.
ghost use Rattle.std.specs.Prelude.{◌^◌, ◌<◌, length, map};
ghost use Rattle.bloom_growing.specs.Growing.{room_at};
ghost use Rattle.bloom_growing.specs.GrowingRates.{BoundsAny, part_now, parts_now, parts_full, parts_grown};

use super::GrowingFilterOf;
use bloom_parts::math::{Bracket, false_pos_of_either};
use bloom_plain::BloomFilter;

// The rate of these filters together as they are.
fn rate_now(filters: &[BloomFilter]) -> Bracket
    ensures { BoundsAny (map part_now filters.now) result }
{
    let mut rate = Bracket::new(0, 0);
    'filters: for filter in filters {
        rate = false_pos_of_either(rate, filter.false_pos_now());
    }
    rate
}

// The mean rate of these filters together, each after as many draws as its room.
fn rate_full(filters: &[BloomFilter], first_room: usize) -> Bracket
    requires { room_at first_room (length filters.now) < 2 ^ 64 }
    ensures { BoundsAny (parts_full first_room 0 filters.now) result }
{
    let (mut rate, mut room) = (Bracket::new(0, 0), first_room);
    'filters: for filter in filters {
        rate = false_pos_of_either(rate, filter.false_pos_bounds(room));
        room *= 2;
    }
    rate
}

impl GrowingFilterOf<BloomFilter> {
    /// Two bounds of the mean rate of false positives of all the filters together, each after as
    /// many draws as it took new items. Only items that set a bit are new, so more bits are set
    /// than by as many draws, and the rate can lie above both bounds.
    ///
    /// A look-up errs if one of the filters does. Each has its own rate. How their replies to one
    /// look-up depend on each other isn't known, so the upper bound is the sum of theirs, and the
    /// lower one the greatest.
    pub fn false_pos_bounds(&self) -> Bracket
        ensures { BoundsAny (parts_grown self.now) result }
    {
        let _room = self.room; // the last room fits, so each one does
        let newest = self.newest.false_pos_bounds(self.taken);
        false_pos_of_either(rate_full(&self.older, self.items), newest)
    }

    /// Two bounds of the rate of false positives of all the filters together as they are: the part
    /// of look-ups for which at least one of them returns true, by the part for each.
    pub fn false_pos_now(&self) -> Bracket
        ensures { BoundsAny (parts_now self.now) result }
    {
        false_pos_of_either(rate_now(&self.older), self.newest.false_pos_now())
    }
}
