//! Laws of filters. These functions do nothing: their contracts are the laws.
ghost use Rattle.std.specs.Prelude.{◌≡◌, ℕ};
ghost use Rattle.std.specs.List.{concat};
ghost use Rattle.bloom_parts.specs.Keys.{HasKey};
ghost use Rattle.bloom_parts.specs.Sip.{sip};
ghost use Rattle.bloom_parts.specs.declared.hasher.CloneBuildHasher.{CloneBuildHasher as Builder};
ghost use Rattle.bloom_plain.specs.Data.{DataLaw, SameItemsLaw};
ghost use Rattle.bloom_plain.specs.Filter.{Unites, Intersects, anywhere};
ghost use Rattle.bloom_plain.specs.Laws.{InsertLaw, KeptByInsertLaw, KeptByUnionLaw, KeptByListLaw, KeptByInsertsLaw, IntersectionLaw, UnionLaw, ClearLaw, IsCommutative, IsAssociative, IsIdempotent, RebuiltLaw, EqualityLaw, EqualContentLaw, EqualStartsLaw, EqualRateStartsLaw, JoinedListsLaw, UnitedInsertsLaw, FoundLaw, FoundAfterInsertsLaw, FoundAfterReplayLaw};
ghost use Rattle.bloom_plain.specs.SourceHash.{source_hash_of, IsFunctionOfBytes};

use bloom_parts::hasher::{DefaultHasher, RandomDefaultHasher};
use bloom_parts::laws::{content_of_words, hash_of_pieces};
use std::hash::{BuildHasher, Hash, Hasher};

/// An insert returns what a look-up would have returned, and afterwards its hash is contained.
pub fn insert_answers_contains<S>()
    ensures { InsertLaw anywhere S }
{}

/// A contained hash stays contained under inserts, unions, and lists that spare its positions.
pub fn contained_stays<S>()
    ensures insert { KeptByInsertLaw anywhere S }
    ensures union { KeptByUnionLaw anywhere S }
    ensures list { KeptByListLaw S }
    ensures inserts { KeptByInsertsLaw S }
{}

/// After an intersection exactly the hashes are contained that both filters contained.
pub fn intersection_contains<S>()
    ensures { IntersectionLaw anywhere S }
{}

/// After a union every hash is contained that either filter contained. Other hashes may be too.
pub fn union_contains<S>()
    ensures { UnionLaw anywhere S }
{}

/// Unions commute and associate, and a union of a filter with itself changes nothing.
pub fn union_of_contents<S>()
    ensures commutative { IsCommutative S Unites }
    ensures associative { IsAssociative S Unites }
    ensures idempotent { IsIdempotent S Unites }
{}

/// Intersections commute and associate, and one of a filter with itself changes nothing.
pub fn intersection_of_contents<S>()
    ensures commutative { IsCommutative S Intersects }
    ensures associative { IsAssociative S Intersects }
    ensures idempotent { IsIdempotent S Intersects }
{}

/// After a clear no hash is contained.
pub fn clear_contains_nothing<S>()
    ensures { ClearLaw anywhere S }
{}

/// A filter that is made of another's words, number of hashes and hasher contains the same hashes.
pub fn rebuilt_answers_alike<S>()
    ensures { RebuiltLaw S }
{}

/// Filters are equal exactly if their words and numbers of hashes are.
pub fn equality_of_filters<S>()
    ensures words { EqualityLaw S }
    // The words that a filter hands out are of 64 bits.
    ensures content { EqualContentLaw S }
{
    content_of_words();
}

/// Builders are equal exactly if their words, or their rates as fractions, are.
pub fn equality_of_builders<S>()
    ensures words { EqualStartsLaw S }
    ensures rates { EqualRateStartsLaw S }
{}

/// Calls one after the other do what one list of them does. Each is a list of one command.
pub fn lists_join<S>()
    ensures { JoinedListsLaw S }
{}

/// The union of filters into which lists of hashes were inserted, from one start, is the filter
/// with all of them inserted.
pub fn union_of_inserts<S>()
    ensures { UnitedInsertsLaw S }
{}

/// An inserted hash stays found, through lists that later neither clear nor intersect it away.
pub fn inserted_stays_found<S>()
    ensures operations { FoundLaw S }
    ensures inserts { FoundAfterInsertsLaw S }
    ensures replay { FoundAfterReplayLaw S }
{}

/// Under the default hasher a source hash is SipHash-1-3 of the bytes that the item writes.
pub fn source_hash_by_default<T: Hash>()
    // The default hasher is a function of the bytes written, as `source_hash` asks.
    ensures bytes { (builder : Builder RandomDefaultHasher) (k0 k1 : ℕ) → HasKey builder k0 k1
        → IsFunctionOfBytes ⟦<RandomDefaultHasher as Hasher>⟧
        (⟦<DefaultHasher as BuildHasher>⟧.build_hasher builder) (sip k0 k1) }
    // The left side is what `source_hash` returns.
    ensures item { (builder : Builder RandomDefaultHasher) (k0 k1 : ℕ) (item : T)
        → HasKey builder k0 k1
        → source_hash_of ⟦<DefaultHasher as BuildHasher>⟧ ⟦<RandomDefaultHasher as Hasher>⟧
        T.hash_input builder item ≡ sip k0 k1 (concat (T.hash_input item)) }
{
    hash_of_pieces();
}

/// A filter that is made of another's data has its words, number of hashes and key, and contains
/// the same hashes and items.
pub fn data_answer_alike<T: Hash>()
    ensures filters { DataLaw }
    // The left and right sides are what `source_hash` returns.
    ensures items { SameItemsLaw (source_hash_of ⟦<DefaultHasher as BuildHasher>⟧
        ⟦<RandomDefaultHasher as Hasher>⟧ T.hash_input) }
{
    source_hash_by_default::<T>();
}
