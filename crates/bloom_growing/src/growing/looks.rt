//! What is seen of a filter that grows: its filters, and how far it is.
ghost use Rattle.std.specs.Prelude.{◌≡◌, ◌≤◌, map};
ghost use Rattle.bloom_growing.specs.Growing.{IsGrown, newest_room};

use super::GrowingFilterOf;
use crate::growable::GrowableFilter;

impl<F: GrowableFilter> GrowingFilterOf<F> {
    /// The full filters, the oldest first. None of them changes any more.
    pub fn older(&self) -> &[F]
        ensures value { map F.seen result.now ≡ self.now.older }
        ensures grown { IsGrown F.kind self.now }
    {
        self.older.as_slice()
    }

    /// The newest filter, which takes what is new.
    pub fn newest(&self) -> &F
        ensures value { F.seen result.now ≡ self.now.newest }
        ensures grown { IsGrown F.kind self.now }
    {
        &self.newest
    }

    /// The number of new items that the newest filter took.
    pub fn taken(&self) -> usize
        ensures value { result ≡ self.now.taken }
        ensures most { result ≤ newest_room self.now }
    {
        self.taken
    }

    /// The number of new items that the newest filter is for. After these the next one begins.
    pub fn room(&self) -> usize
        ensures { result ≡ newest_room self.now }
    {
        self.room
    }
}
