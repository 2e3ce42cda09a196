//! What takes the hashes of keys.
ghost use Rattle.std.specs.Prelude.{ℕ, List, ◌++◌};
ghost use Rattle.summaries_engine.specs.Fillers.{FillsMore, takes-none};

use crate::kinds::AnyFilter;

// How many hashes a filter is given at once: their look-ups of memory go on side by side.
const TOGETHER: usize = 4096;

/// Takes hashes, many at once.
pub(crate) trait Filler {
    ghost use Rattle.std.specs.Prelude.{ℕ, List, []};

    /// What it needs to take any.
    ghost ready: { Self → Type 0 };

    /// From the first to the second it took these hashes, in order.
    ghost took: { Self → List ℕ → Self → Type 0 };

    /// How many hashes it is given at once, but for the last ones.
    fn most(&self) -> usize;

    /// Takes hashes, in order.
    fn take(&mut self, hashes: &[u64])
        requires { ready self.old }
        ensures ready { ready self.new }
        ensures took { (first : Self) (before : List ℕ)
            → took first before self.old → took first (before ++ hashes.now) self.new };

    /// At first it took none.
    ghost none: { (first : Self) → took first [] first };
}

/// A filter takes hashes by inserting them.
impl Filler for AnyFilter {
    ghost ready = { λ _. Unit {0} };

    ghost took = { FillsMore };

    fn most(&self) -> usize {
        TOGETHER
    }

    fn take(&mut self, hashes: &[u64]) {
        self.insert_hashes(hashes);
    }

    ghost none = { takes-none };
}
