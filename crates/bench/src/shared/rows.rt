//! The calls of a filter that threads share that are measured, and their rows.

use crate::plan::Unit;
use crate::table::Rows;

/// The calls of a shared filter.
#[derive(Clone, Copy)]
pub enum Call {
    InsertHash,
    Hit,
    Miss,
    Extend,
    InsertAll,
    Union,
    Intersect,
    Clear,
    Clone,
    Iter,
}

const FOUND: &'static str = "found after it";

const CHANGED: &'static str = "same, or found after it";

/// The rows of a shared filter with seven hashes, by one thread: of hashes and items, and of whole
/// filters.
pub const TABLE: [Rows<Call>; 10] = [
    row! { Call::InsertHash, "shared insert_hash", &[7] => Key, "true" },
    row! { Call::Hit, "shared hit", &[7] => Key, "true" },
    row! { Call::Miss, "shared miss", &[7] => Key, "true" },
    row! { Call::Extend, "shared extend, u64", &[7] => Key, FOUND },
    row! { Call::InsertAll, "shared insert_all, u64", &[7] => Key, FOUND },
    row! { Call::Union, "shared union, a word", &[7] => Word, CHANGED },
    row! { Call::Intersect, "shared intersect, a word", &[7] => Word, CHANGED },
    row! { Call::Clear, "shared clear, a word", &[7] => Word, CHANGED },
    row! { Call::Clone, "shared try_clone, a word", &[7] => Word, FOUND },
    row! { Call::Iter, "shared iter, a word", &[7] => Word, "odd words" },
];
