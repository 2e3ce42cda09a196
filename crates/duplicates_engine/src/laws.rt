//! Laws of sieves. These functions do nothing: their contracts are the laws.
ghost use Rattle.duplicates_engine.specs.Choices.{AllLinesLaw, LastLinesLaw};
ghost use Rattle.duplicates_engine.specs.Plain.{SiftedLaw};

use bloom_plain::laws::lists_join;
use std::hash::BuildHasher;

/// What a plain filter sifted it inserted, as one list of commands.
pub fn plain_filter_inserts<S: BuildHasher>()
    ensures { SiftedLaw S.Hasher.Hasher S.build_hasher }
{
    lists_join::<S>();
}

/// A line that is new, as far back as a sieve tells, differs from each line before it; of a sieve
/// of some span, from each of so many lines before it.
pub fn last_lines_differ()
    ensures all { AllLinesLaw }
    ensures last { LastLinesLaw }
{}
