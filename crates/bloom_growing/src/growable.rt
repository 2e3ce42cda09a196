//! The filters of which one that grows, or rotates, consists: of one kind, plain or blocked.
ghost use Rattle.std.specs.Prelude.{◌≡◌, ◌≤◌, ℕ, length, max, true, IfOk};
ghost use Rattle.std.specs.Result.{result_err};
ghost use Rattle.bloom_parts.specs.Content.{AreWords};
ghost use Rattle.bloom_parts.specs.Rates.{num_of, den_of};
ghost use Rattle.bloom_plain.specs.Builders.{RefusesAs};
ghost use Rattle.bloom_plain.specs.Data.{DefaultFilter};
ghost use Rattle.bloom_plain.specs.Filter.{Clears, contains, Inserts};
ghost use Rattle.bloom_growing.specs.Growing.{rate_start};
ghost use Rattle.bloom_growing.specs.Kinds.{Kind, IsMadeIn, IsSizeIn, size_refusal_in, placement_of};

mod blocked;
mod plain;

use bloom_parts::error::FilterError;
use bloom_parts::hasher::DefaultHasher;
use bloom_parts::math::Rate;
use std::alloc::Global;

/// A filter with the default hasher, of which several make one that grows, and two one that
/// rotates: a Bloom filter or a blocked one.
pub trait GrowableFilter: Drop {
    // Its kind.
    ghost kind: { Kind };

    // What contracts see of it.
    ghost seen: { Self → DefaultFilter };

    /// The empty filter that the builders make for this many items at this rate.
    ///
    /// # Errors
    /// What the builders refuse: `SizeOverflow`, `TooManyWords` or `Memory`.
    fn make(
        alloc: Global,
        rate: Rate,
        items: usize,
        hasher: DefaultHasher,
    ) -> Result<Self, FilterError>
    where
        Self: Sized,
        ensures made { IfOk result (λ filter.
            IsMadeIn kind (rate_start rate hasher) items (seen filter)) }
        ensures refused { (bits : ℕ) × IsSizeIn kind (max 1 items) (num_of rate) (den_of rate) bits
            × RefusesAs (size_refusal_in kind bits) (result_err result) };

    /// Inserts a hash, and returns whether it was contained. If so, the filter stays as it was.
    fn insert_once(&mut self, hash: u64) -> bool
        ensures inserts { Inserts (placement_of kind) (seen self.old) hash (seen self.new) result }
        ensures held { result ≡ true → seen self.new ≡ seen self.old };

    /// Whether a hash is contained.
    fn contains_hash(&self, hash: u64) -> bool
        ensures { result ≡ contains (placement_of kind) (seen self.now) hash };

    /// Whether it is so large that hashes are better looked up together before each is inserted.
    fn looks_ahead(&self) -> bool;

    /// Looks up these hashes, 64 at most, so that the memory brings their words side by side.
    /// Nothing depends on what is found, so no clause tells it.
    fn look_up(&self, hashes: &[u64], found: &mut [u64; 1])
        requires { length hashes.now ≤ 64 };

    /// Clears every bit.
    fn clear(&mut self)
        ensures clears { Clears (seen self.old) (seen self.new) }
        ensures range { AreWords (seen self.new).words };
}
