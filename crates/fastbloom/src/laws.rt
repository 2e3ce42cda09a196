//! The laws of all that this library holds: of plain filters, of word steps, of shared blocked
//! filters, of seated filters, and of filters that workers fill. These functions do nothing: their
//! contracts are the laws.
ghost use Rattle.fastbloom.specs.Fill.{UnionOfPositionsLaw, AnyCuttingLaw, FilledByInsertsLaw, FilledByUnionLaw, FilledContainsLaw};

pub use crate::seated::laws::{
    inserted_stays_known, met_is_found, passes_are_few, steps_of_words, sure_is_found,
};
pub use bloom_blocked::laws::interleavings_in_lines;
pub use bloom_files::laws::file_reads_back;
pub use bloom_growing::laws::{
    growing_inserted_stays_found, growing_rates_stay_below, rotating_recent_stays_found,
};
pub use bloom_plain::laws::{
    clear_contains_nothing, contained_stays, data_answer_alike, equality_of_builders,
    equality_of_filters, insert_answers_contains, inserted_stays_found, intersection_contains,
    intersection_of_contents, lists_join, rebuilt_answers_alike, source_hash_by_default,
    union_contains, union_of_contents, union_of_inserts,
};
pub use bloom_steps::laws::{at_most_one_course, interleavings, steps_in_memory};

/// Filters of one shape that `fill` returns for the same hashes are equal, however the hashes are
/// split into parts, and in whatever order and number they come.
pub fn fill_of_any_cutting<S>()
    ensures { AnyCuttingLaw S }
{
    equality_of_filters::<S>();
}

/// What `fill` returns is what inserts of all hashes, one after the other, make of an empty filter.
pub fn fill_equals_one_filter<S>()
    ensures inserts { FilledByInsertsLaw S }
    // The union of two such filters is filled with the hashes of both.
    ensures union { FilledByUnionLaw S }
    // `positions_of_all`, by which `IsFilledWith` says the bits, is the union of the positions.
    ensures positions { UnionOfPositionsLaw }
{}

/// Every hash of every part is contained in what `fill` returns.
pub fn filled_contains<S>()
    ensures { FilledContainsLaw S }
{}
