//! The search of a number of items by tests of the expected density.
ghost use Rattle.std.specs.Prelude.{◌≡◌, ◌↔◌, ℕ, ◌+◌, ◌*◌, ◌^◌, ◌<◌, ◌≤◌, IsTrue};
ghost use Rattle.bloom_parts.specs.Brackets.{density_low, density_high};

use super::expected::{high_end, low_end};
use super::powers::UNIT;

// A test of numbers of items, which counts how often it was made.
pub(super) trait Side {
    ghost passes: { Self → ℕ → Type 0 };

    ghost count: { Self → ℕ };

    fn passes(&mut self, items: usize) -> bool
        requires room { count self.old < 64 }
        ensures value { IsTrue result ↔ passes self.old items }
        // It stays the same test.
        ensures same { (n : ℕ) → passes self.old n ↔ passes self.new n }
        ensures tests { count self.new ≡ count self.old + 1 };
}

// A filter of which this many bits are set.
#[derive(Clone, Copy)]
pub(super) struct Filled {
    pub(super) hashes: u32,
    pub(super) bits: usize,
    pub(super) ones: usize,
    ghost some: { 0 < bits },
}

// Whether the expected density is certainly at most the share of bits that is set.
#[derive(Drop)]
pub(super) struct AtMost {
    pub(super) filled: Filled,
    pub(super) tests: u32,
}

impl Side for AtMost {
    ghost passes = { λ side items. let it = side.filled in
        density_high it.bits (it.hashes * items) * it.bits ≤ 2 ^ 63 * it.ones };

    ghost count = { λ side. side.tests };

    fn passes(&mut self, items: usize) -> bool {
        self.tests += 1;
        let Filled { hashes, bits, ones } = self.filled;
        let density = high_end(bits, hashes as u128 * items as u128);
        density as u128 * bits as u128 <= UNIT as u128 * ones as u128
    }
}

// Whether the expected density may be below the share of bits that is set.
#[derive(Drop)]
pub(super) struct MaybeBelow {
    pub(super) filled: Filled,
    pub(super) tests: u32,
}

impl Side for MaybeBelow {
    ghost passes = { λ side items. let it = side.filled in
        density_low it.bits (it.hashes * items) * it.bits < 2 ^ 63 * it.ones };

    ghost count = { λ side. side.tests };

    fn passes(&mut self, items: usize) -> bool {
        self.tests += 1;
        let Filled { hashes, bits, ones } = self.filled;
        let density = low_end(bits, hashes as u128 * items as u128);
        (density as u128 * bits as u128) < UNIT as u128 * ones as u128
    }
}

// A number of items that passes, of which the next does not, found by 64 tests.
//
// This function can't make a `T`, so it learns of the side only by tests, which are counted.
pub(super) fn last_passing<T: Side>(side: &mut T) -> usize
    requires zero { T.passes side.old 0 }
    requires none { T.count side.old ≡ 0 }
    ensures passes { T.passes side.old result }
    ensures last { result + 1 < 2 ^ 64 → T.passes side.old (result + 1) → ⊥ }
    ensures tests { T.count side.new ≡ 64 }
{
    let mut found: usize = 0;
    'bits: for bit in (0..64u32).rev() {
        let next = found + (1 << bit);
        if side.passes(next) {
            found = next;
        }
    }
    found
}
