//! Laws of filters that grow or rotate. These functions do nothing: their contracts are the laws.
ghost use Rattle.std.specs.Prelude.{◌≡◌, ℕ, ◌<◌, true, List, ◌∷◌, ◌++◌, nat_eq};
ghost use Rattle.std.specs.Set.{distinct_count};
ghost use Rattle.bloom_growing.specs.Growing.{Growing, has};
ghost use Rattle.bloom_growing.specs.GrowingLaws.{RatesBelowLaw, AcceptsAll};
ghost use Rattle.bloom_growing.specs.Kinds.{Kind};
ghost use Rattle.bloom_growing.specs.Rotating.{Rotating, ReceivesAll, either_contains};

/// In a filter that grows, what is contained stays contained, and so does each hash that came.
pub fn growing_inserted_stays_found<S>()
    ensures kept { (kind : Kind) (old new : Growing S) (hashes : List ℕ) (hash : ℕ)
        → AcceptsAll kind old hashes new → has kind old hash ≡ true → has kind new hash ≡ true }
    ensures found { (kind : Kind) (old new : Growing S) (earlier later : List ℕ) (hash : ℕ)
        → AcceptsAll kind old (earlier ++ hash ∷ later) new → has kind new hash ≡ true }
{}

/// The rates that the filters of one that grows are sized for, however many they are, sum to less
/// than the rate that was asked for.
pub fn growing_rates_stay_below()
    ensures { RatesBelowLaw }
{}

/// In a filter that rotates a hash that came is contained as long as fewer different ones came
/// behind it than each of its filters is for.
pub fn rotating_recent_stays_found<S>()
    ensures { (kind : Kind) (old new : Rotating S) (earlier later : List ℕ) (hash : ℕ)
        → ReceivesAll kind old (earlier ++ hash ∷ later) new
        → distinct_count nat_eq later < new.setup.room → either_contains kind new hash ≡ true }
{}
