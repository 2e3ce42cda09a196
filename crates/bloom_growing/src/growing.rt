//! A filter that grows: filters of one kind, one after the other, each for twice the items of the
//! one before it at half its rate.
ghost use Rattle.std.specs.Prelude.{◌≡◌, ℕ, ◌+◌, ◌<◌, ◌≤◌, max, length, true, false, IfOk, OnErr};
ghost use Rattle.std.specs.Result.{result_err};
ghost use Rattle.std.specs.Int.{w128, to_be_bytes};
ghost use Rattle.bloom_parts.specs.Keys.{HasKey, key_low, key_high};
ghost use Rattle.bloom_growing.specs.Growing.{setup_of, HasSomeKey, any_contains, has, newest_room};
ghost use Rattle.bloom_growing.specs.GrowingInserts.{IsBegun, BeginsNext, Adds, Accepts, RefusesNumber, RefusesInsert};
ghost use Rattle.bloom_plain.specs.Filter.{contains};
ghost use Rattle.bloom_growing.specs.Kinds.{placement_of};

mod error;
pub(crate) mod filters;
mod items;
mod looks;
mod rates;

use crate::growable::GrowableFilter;
use bloom_blocked::BlockedBloomFilter;
use bloom_parts::hasher::DefaultHasher;
use bloom_parts::math::Rate;
use bloom_plain::BloomFilter;
pub use error::GrowingError;
use filters::{any_contains, make_next};
use std::alloc::Global;
use std::marker::Model;
use std::mem;

/// A filter for a number of items that isn't known, which consists of filters of one kind. Once its
/// newest filter took as many new items as it was made for, the next one begins, for twice the
/// items at half the rate.
///
/// The rates that its filters are sized for, however many come, sum to less than the one that it
/// was made with. The rate that comes of it can lie above that one: each filter takes only items
/// that set a bit, so it has more bits set than its size is reckoned for.
///
/// Contracts see what was asked for, the filters, and how many new items the newest one took.
#[derive(Debug, Drop)]
pub struct GrowingFilterOf<F: GrowableFilter> {
    rate: Rate,
    items: usize,
    hasher: DefaultHasher,
    older: Vec<F>,
    newest: F,
    taken: usize,
    // The rate and the room of the newest filter.
    newest_rate: Rate,
    room: usize,
}

/// A filter that grows by Bloom filters.
pub type GrowingFilter = GrowingFilterOf<BloomFilter>;

/// A filter that grows by blocked filters.
pub type GrowingBlockedFilter = GrowingFilterOf<BlockedBloomFilter>;

impl<F: GrowableFilter> Model for GrowingFilterOf<F> {
    ghost use Rattle.std.specs.Prelude.{map};
    ghost use Rattle.bloom_parts.specs.declared.hasher.CloneBuildHasher.{CloneBuildHasher};
    ghost use Rattle.bloom_parts.specs.declared.hasher.sip.RandomDefaultHasher.{RandomDefaultHasher};
    ghost use Rattle.bloom_growing.specs.Growing.{Growing, setup_of, IsSound};

    ghost Value = { Growing (CloneBuildHasher RandomDefaultHasher) };

    ghost view = { λ g. record {
      setup = setup_of g.rate g.items g.hasher;
      older = map F.seen g.older.items;
      newest = F.seen g.newest;
      taken = g.taken;
    } };

    ghost invariant = { λ g. IsSound F.kind (record {
      setup = setup_of g.rate g.items g.hasher;
      older = map F.seen g.older.items;
      newest = F.seen g.newest;
      taken = g.taken;
    }) g.newest_rate g.room };
}

impl<F: GrowableFilter> GrowingFilterOf<F> {
    /// A filter for this many items at first, where 0 counts as 1, under the zero key. However many
    /// come, the rates that its filters are sized for sum to less than this one.
    ///
    /// ```
    /// let mut seen = GrowingFilter::new(alloc, Rate::new(1, 1000)?, 1000)?;
    /// let before = seen.insert(alloc, &"crab")?; // false, in a new filter
    /// ```
    ///
    /// # Errors
    /// Those of `insert_hash`.
    pub fn new(alloc: Global, rate: Rate, items: usize) -> Result<Self, GrowingError>
        ensures begun { IfOk result
            (λ g. IsBegun F.kind (setup_of rate (max 1 items) g.setup.hasher) g) }
        ensures key { IfOk result (λ g. HasKey g.setup.hasher 0 0) }
        ensures refused { RefusesNumber F.kind rate (max 1 items) 0 (result_err result) }
    {
        GrowingFilterOf::with_hasher(alloc, rate, items, DefaultHasher::default())
    }

    /// A filter as `new` makes it, under the key of a seed, which is its sixteen big-endian bytes.
    ///
    /// # Errors
    /// Those of `insert_hash`.
    pub fn seeded(
        alloc: Global,
        rate: Rate,
        items: usize,
        seed: &u128,
    ) -> Result<Self, GrowingError>
        ensures begun { IfOk result
            (λ g. IsBegun F.kind (setup_of rate (max 1 items) g.setup.hasher) g) }
        ensures key { let bytes = to_be_bytes w128 seed.now in
            IfOk result (λ g. HasKey g.setup.hasher (key_low bytes) (key_high bytes)) }
        ensures refused { RefusesNumber F.kind rate (max 1 items) 0 (result_err result) }
    {
        let hasher = DefaultHasher::seeded(&seed.to_be_bytes());
        GrowingFilterOf::with_hasher(alloc, rate, items, hasher)
    }

    // A filter whose first filter is for this many items, under a key.
    fn with_hasher(
        alloc: Global,
        rate: Rate,
        items: usize,
        hasher: DefaultHasher,
    ) -> Result<Self, GrowingError>
        requires { HasSomeKey hasher }
        ensures begun { IfOk result (λ g. IsBegun F.kind (setup_of rate (max 1 items) hasher) g) }
        ensures refused { RefusesNumber F.kind rate (max 1 items) 0 (result_err result) }
    {
        let items = items.max(1);
        let first = make_next(alloc, rate, Some(items), &hasher)?;
        Ok(GrowingFilterOf {
            rate,
            items,
            hasher,
            older: Vec::new(alloc),
            newest: first.0,
            taken: 0,
            newest_rate: first.1,
            room: first.2,
        })
    }

    // Begins the next filter, and calls the newest one older.
    fn begin(&mut self, alloc: Global) -> Result<(), GrowingError>
        requires full { newest_room self.old ≤ self.old.taken }
        ensures begins { IfOk result (λ _. BeginsNext F.kind self.old self.new) }
        ensures new { IfOk result
            (λ _. (hash : ℕ) → contains (placement_of F.kind) self.new.newest hash ≡ false) }
        ensures room { IfOk result (λ _. self.new.taken < newest_room self.new) }
        ensures unchanged { OnErr result (self.new ≡ self.old) }
        ensures refused { RefusesNumber F.kind self.old.setup.rate self.old.setup.room
            (length self.old.older + 1) (result_err result) }
    {
        let room = self.room.checked_mul(2);
        let next = make_next(alloc, self.newest_rate, room, &self.hasher)?;
        self.older.reserve(1)?;
        let full = mem::replace(&mut self.newest, next.0);
        self.older.push_reserved(full);
        self.newest_rate = next.1;
        self.room = next.2;
        self.taken = 0;
        Ok(())
    }

    // Inserts a hash that no older filter contains into the newest, which has room, and returns
    // whether that one contained it. If not, it counts as new.
    #[inline(always)]
    fn add(&mut self, hash: u64) -> bool
        requires new { any_contains F.kind self.old.older hash ≡ false }
        requires room { self.old.taken < newest_room self.old }
        ensures reply { result ≡ contains (placement_of F.kind) self.old.newest hash }
        ensures held { result ≡ true → self.new ≡ self.old }
        ensures adds { result ≡ false → Adds F.kind self.old hash self.new }
    {
        if self.newest.insert_once(hash) {
            return true;
        }
        self.taken += 1;
        false
    }

    /// Inserts a hash unless one of the filters contains it, and returns whether one does.
    ///
    /// # Errors
    /// Only where the next filter has to begin, and then nothing changes: `RateOverflow` where its
    /// rate would have a lower part of 2^64 or more, `TooManyItems` where it would be for 2^64
    /// items or more, and else `Filter` with what the builders refuse: `SizeOverflow` for 2^64 bits
    /// or more, `TooManyWords` for 2^58 words or more, and `Memory`.
    #[inline]
    pub fn insert_hash(&mut self, alloc: Global, hash: u64) -> Result<bool, GrowingError>
        ensures takes { IfOk result (λ reply. Accepts F.kind self.old hash self.new reply) }
        ensures unchanged { OnErr result (self.new ≡ self.old) }
        ensures refused { RefusesInsert F.kind self.old hash (result_err result) }
    {
        if any_contains(&self.older, hash) {
            return Ok(true);
        }
        if self.taken < self.room {
            return Ok(self.add(hash));
        }
        self.insert_past(alloc, hash)
    }

    // Inserts a hash that no older filter contains, where the newest is full.
    fn insert_past(&mut self, alloc: Global, hash: u64) -> Result<bool, GrowingError>
        requires new { any_contains F.kind self.old.older hash ≡ false }
        requires full { newest_room self.old ≤ self.old.taken }
        ensures takes { IfOk result (λ reply. Accepts F.kind self.old hash self.new reply) }
        ensures unchanged { OnErr result (self.new ≡ self.old) }
        ensures refused { RefusesInsert F.kind self.old hash (result_err result) }
    {
        if self.newest.contains_hash(hash) {
            return Ok(true);
        }
        self.begin(alloc)?;
        Ok(self.add(hash))
    }

    /// Whether one of the filters contains a hash. True may be a false positive; false means that
    /// the hash was never inserted.
    #[inline]
    pub fn contains_hash(&self, hash: u64) -> bool
        ensures { result ≡ has F.kind self.now hash }
    {
        self.newest.contains_hash(hash) || any_contains(&self.older, hash)
    }
}
