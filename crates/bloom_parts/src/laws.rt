//! Laws of the definitions that contracts cite. These functions do nothing: their contracts are the
//! laws.
#![tactic(auto, using(crate::proofs::LawLemmas::laws))]

ghost use Rattle.std.specs.Prelude.{ℕ, ◌<◌, slice_index};
ghost use Rattle.bloom_parts.specs.Content.{EqualWordsLaw, BoundLaw};
ghost use Rattle.bloom_parts.specs.Draws.{ListsLaw, MeanLaw, PositivesLaw, PowersLaw, FormulaLaw, UpperLaw};
ghost use Rattle.bloom_parts.specs.Estimates.{DensityLaw};
ghost use Rattle.bloom_parts.specs.Laws.{CuttingLaw, JoiningLaw};
ghost use Rattle.bloom_parts.specs.Places.{PositionsLaw, SubsetLaw, RangeLaw};
ghost use Rattle.bloom_parts.specs.Roots.{IsRoot};
ghost use Rattle.bloom_parts.specs.Shares.{ShareLaw, ReachedLaw, EvenLaw};
ghost use Rattle.bloom_parts.specs.Sizing.{HalfUpLaw, CoverLaw, NoneLaw, MostLaw, OneSizeLaw};

use crate::math::ROOTS;

/// The positions of a hash are the first of its chain, and each lies within the bits.
pub fn positions_of_hash()
    ensures members { PositionsLaw }
    ensures range { RangeLaw }
{}

/// The test of a hash is whether its positions are a part of the set.
pub fn test_of_hash()
    ensures { SubsetLaw }
{}

/// Two lists of words of equal length are equal exactly if their contents are, and no position lies
/// past the bits.
pub fn content_of_words()
    ensures equality { EqualWordsLaw }
    ensures range { BoundLaw }
{}

/// With one hash each position has a run of the hashes, and runs differ in length by one at most.
pub fn shares_of_positions()
    ensures share { ShareLaw }
    ensures reached { ReachedLaw }
    ensures even { EvenLaw }
{}

/// Root `j` of the table is the greatest number whose power to 64 is at most 2^(2048 + j).
pub fn roots_of_table()
    ensures { (j : ℕ) → j < 64 → IsRoot j (slice_index ROOTS j) }
{}

/// The halvings of a rate are never too few, none for a rate of one or more, and at most 4096.
pub fn halvings_of_rate()
    ensures cover { CoverLaw }
    ensures none { NoneLaw }
    ensures most { MostLaw }
{}

/// At most one number is the size for items and a rate, so no two results are right.
pub fn size_of_rate()
    ensures { OneSizeLaw }
{}

/// The share of bits that is expected to be set grows with each time that one is set.
pub fn density_grows()
    ensures { DensityLaw }
{}

/// All lists of draws are counted, and the mean share of the positions that were drawn is exact.
pub fn density_of_draws()
    ensures lists { ListsLaw }
    ensures mean { MeanLaw }
{}

/// The part of all queries whose positions all lie in a set is a power of the set's share of the
/// positions, and the rate of false positives is the mean of that power.
pub fn rate_of_draws()
    ensures positives { PositivesLaw }
    ensures powers { PowersLaw }
{}

/// The classical formula of the rate of false positives is at most the rate, which is at most the
/// same formula of a share of set bits that is a little greater.
pub fn rate_by_formula()
    ensures lower { FormulaLaw }
    ensures upper { UpperLaw }
{}

/// A quotient rounded half up is the greatest whole number that is at most a half above it.
pub fn half_up_of_quotient()
    ensures { HalfUpLaw }
{}

/// How bytes are split into writes doesn't change their hash, which is SipHash of them joined.
pub fn hash_of_pieces()
    ensures cutting { CuttingLaw }
    ensures joining { JoiningLaw }
{}
