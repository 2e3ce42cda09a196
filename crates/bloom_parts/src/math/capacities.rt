//! How many items a filter takes at a rate of false positives.
ghost use Rattle.std.specs.Prelude.{◌<◌};
ghost use Rattle.bloom_parts.specs.FalsePositives.{IsCapacity, TakesItems};
ghost use Rattle.bloom_parts.specs.Rates.{num_of, den_of};

use super::false_pos::false_pos_bounds;
use super::powers::UNIT;
use super::rate::Rate;
use super::search::{Side, last_passing};

// Whether the upper bound of the mean rate is at most a rate.
#[derive(Drop)]
struct WithinRate {
    hashes: u32,
    bits: usize,
    rate: Rate,
    tests: u32,
    ghost some: { 0 < bits },
}

impl Side for WithinRate {
    ghost passes = { λ side items.
        TakesItems side.bits side.hashes (num_of side.rate) (den_of side.rate) items };

    ghost count = { λ side. side.tests };

    fn passes(&mut self, items: usize) -> bool {
        self.tests += 1;
        let high = false_pos_bounds(self.hashes, self.bits, items).high();
        high as u128 * self.rate.den() as u128 <= UNIT as u128 * self.rate.num() as u128
    }
}

/// A number of items that `bits` bits take at a mean rate of false positives, of which one more is
/// too many, by the upper bound of that rate. It takes 64 such bounds.
pub fn capacity(hashes: u32, bits: usize, rate: Rate) -> usize
    requires hashes { 0 < hashes }
    requires bits { 0 < bits }
    ensures { IsCapacity bits hashes (num_of rate) (den_of rate) result }
{
    last_passing(&mut WithinRate {
        hashes,
        bits,
        rate,
        tests: 0,
    })
}
