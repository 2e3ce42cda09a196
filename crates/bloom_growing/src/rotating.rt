//! A filter that rotates: two filters of one kind and size, of which one takes what is new, and the
//! other still has what came before.
ghost use Rattle.std.specs.Prelude.{◌≡◌, ℕ, max, IfOk};
ghost use Rattle.std.specs.Result.{result_err};
ghost use Rattle.std.specs.Int.{w128, to_be_bytes};
ghost use Rattle.bloom_parts.specs.Keys.{HasKey, key_low, key_high};
ghost use Rattle.bloom_growing.specs.Growing.{setup_of, HasSomeKey};
ghost use Rattle.bloom_growing.specs.GrowingInserts.{RefusesNumber};
ghost use Rattle.bloom_growing.specs.Rotating.{either_contains, IsUnused, Receives};

mod items;
mod looks;
mod rates;

use crate::growable::GrowableFilter;
use crate::growing::GrowingError;
use crate::growing::filters::make_next;
use bloom_blocked::BlockedBloomFilter;
use bloom_parts::hasher::DefaultHasher;
use bloom_parts::laws::content_of_words;
use bloom_parts::math::Rate;
use bloom_plain::BloomFilter;
use std::alloc::Global;
use std::marker::Model;
use std::mem;

/// A filter that forgets, for a stream without end. A hash is contained as long as fewer different
/// ones came behind it than this filter is for.
///
/// It has two filters of one kind for as many items, each at half the rate. The newer one takes
/// what it doesn't contain, also what the older one contains. Once it took as many as it is for, it
/// becomes the older one, and the older one is cleared. After the start no memory is taken.
#[derive(Debug, Drop)]
pub struct RotatingFilterOf<F: GrowableFilter> {
    rate: Rate,
    room: usize,
    hasher: DefaultHasher,
    older: F,
    newer: F,
    taken: usize,
    turns: u64,
}

/// A filter that rotates two Bloom filters.
pub type RotatingFilter = RotatingFilterOf<BloomFilter>;

/// A filter that rotates two blocked filters.
pub type RotatingBlockedFilter = RotatingFilterOf<BlockedBloomFilter>;

impl<F: GrowableFilter> Model for RotatingFilterOf<F> {
    ghost use Rattle.bloom_parts.specs.declared.hasher.CloneBuildHasher.{CloneBuildHasher};
    ghost use Rattle.bloom_parts.specs.declared.hasher.sip.RandomDefaultHasher.{RandomDefaultHasher};
    ghost use Rattle.bloom_growing.specs.Growing.{setup_of};
    ghost use Rattle.bloom_growing.specs.Rotating.{Rotating, IsRotating};

    ghost Value = { Rotating (CloneBuildHasher RandomDefaultHasher) };

    ghost view = { λ r. record {
      setup = setup_of r.rate r.room r.hasher;
      older = F.seen r.older;
      newer = F.seen r.newer;
      taken = r.taken;
      turns = r.turns;
    } };

    ghost invariant = { λ r. IsRotating F.kind (record {
      setup = setup_of r.rate r.room r.hasher;
      older = F.seen r.older;
      newer = F.seen r.newer;
      taken = r.taken;
      turns = r.turns;
    }) };
}

impl<F: GrowableFilter> RotatingFilterOf<F> {
    /// A filter for this many of the last items, where 0 counts as 1, under the zero key. Its two
    /// filters are for as many, at half the rate.
    ///
    /// ```
    /// let mut seen = RotatingFilter::new(alloc, Rate::new(1, 1000)?, 1000)?;
    /// let before = seen.insert(&"crab"); // false, in a new filter
    /// ```
    ///
    /// # Errors
    /// `RateOverflow` where half of the rate would have a lower part of 2^64 or more, and else
    /// `Filter` with what the builders refuse: `SizeOverflow` for 2^64 bits or more, `TooManyWords`
    /// for 2^58 words or more, and `Memory`.
    pub fn new(alloc: Global, rate: Rate, items: usize) -> Result<Self, GrowingError>
        ensures unused { IfOk result
            (λ r. IsUnused F.kind (setup_of rate (max 1 items) r.setup.hasher) r) }
        ensures key { IfOk result (λ r. HasKey r.setup.hasher 0 0) }
        ensures refused { RefusesNumber F.kind rate (max 1 items) 0 (result_err result) }
    {
        RotatingFilterOf::with_hasher(alloc, rate, items, DefaultHasher::default())
    }

    /// A filter as `new` makes it, under the key of a seed, which is its sixteen big-endian bytes.
    ///
    /// # Errors
    /// Those of `new`.
    pub fn seeded(
        alloc: Global,
        rate: Rate,
        items: usize,
        seed: &u128,
    ) -> Result<Self, GrowingError>
        ensures unused { IfOk result
            (λ r. IsUnused F.kind (setup_of rate (max 1 items) r.setup.hasher) r) }
        ensures key { let bytes = to_be_bytes w128 seed.now in
            IfOk result (λ r. HasKey r.setup.hasher (key_low bytes) (key_high bytes)) }
        ensures refused { RefusesNumber F.kind rate (max 1 items) 0 (result_err result) }
    {
        let hasher = DefaultHasher::seeded(&seed.to_be_bytes());
        RotatingFilterOf::with_hasher(alloc, rate, items, hasher)
    }

    // A filter whose two filters are for this many items, under a key.
    fn with_hasher(
        alloc: Global,
        rate: Rate,
        items: usize,
        hasher: DefaultHasher,
    ) -> Result<Self, GrowingError>
        requires { HasSomeKey hasher }
        ensures unused { IfOk result (λ r. IsUnused F.kind (setup_of rate (max 1 items) hasher) r) }
        ensures refused { RefusesNumber F.kind rate (max 1 items) 0 (result_err result) }
    {
        let room = items.max(1);
        let older = make_next(alloc, rate, Some(room), &hasher)?;
        let newer = make_next(alloc, rate, Some(room), &hasher)?;
        Ok(RotatingFilterOf {
            rate,
            room,
            hasher,
            older: older.0,
            newer: newer.0,
            taken: 0,
            turns: 0,
        })
    }

    /// Inserts a hash into the newer filter, and returns whether one of both contained it. Where
    /// the newer one did, nothing changes.
    #[inline]
    pub fn insert_hash(&mut self, hash: u64) -> bool
        ensures { Receives F.kind self.old hash self.new result }
    {
        content_of_words();
        if self.newer.insert_once(hash) {
            return true;
        }
        let held = self.older.contains_hash(hash);
        if self.taken + 1 < self.room {
            self.taken += 1;
            return held;
        }
        mem::swap(&mut self.older, &mut self.newer);
        self.newer.clear();
        self.taken = 0;
        self.turns = self.turns.saturating_add(1);
        held
    }

    /// Whether one of both filters contains a hash. True may be a false positive. False means that
    /// the hash didn't come, or that as many different ones came behind it as this filter is for.
    #[inline]
    pub fn contains_hash(&self, hash: u64) -> bool
        ensures { result ≡ either_contains F.kind self.now hash }
    {
        self.newer.contains_hash(hash) || self.older.contains_hash(hash)
    }
}
