//! What is seen of a filter that rotates: its two filters, and how far it is.
ghost use Rattle.std.specs.Prelude.{◌≡◌, ◌<◌};
ghost use Rattle.bloom_growing.specs.Rotating.{IsRotating};

use super::RotatingFilterOf;
use crate::growable::GrowableFilter;

impl<F: GrowableFilter> RotatingFilterOf<F> {
    /// The older filter, which is full, or empty before the first turn.
    pub fn older(&self) -> &F
        ensures value { F.seen result.now ≡ self.now.older }
        ensures rotating { IsRotating F.kind self.now }
    {
        &self.older
    }

    /// The newer filter, which takes what is new.
    pub fn newer(&self) -> &F
        ensures value { F.seen result.now ≡ self.now.newer }
        ensures rotating { IsRotating F.kind self.now }
    {
        &self.newer
    }

    /// The number of new items that the newer filter took.
    pub fn taken(&self) -> usize
        ensures value { result ≡ self.now.taken }
        ensures most { result < self.now.setup.room }
    {
        self.taken
    }

    /// The number of new items that each filter is for. Once the newer one took these, it becomes
    /// the older one.
    pub fn room(&self) -> usize
        ensures { result ≡ self.now.setup.room }
    {
        self.room
    }

    /// How often the newer filter became the older one, up to 2^64 - 1.
    pub fn turns(&self) -> u64
        ensures { result ≡ self.now.turns }
    {
        self.turns
    }
}
