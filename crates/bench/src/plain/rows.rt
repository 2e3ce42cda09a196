//! The calls of a plain filter that are measured, and their rows.

use crate::plan::Unit;
use crate::table::Rows;

/// The calls of a plain filter.
#[derive(Clone, Copy)]
pub enum Call {
    HashNumbers,
    HashTexts,
    InsertTexts,
    ContainsTexts,
    Insert,
    Contains,
    Extend,
    InsertAll,
    InsertHash,
    Hit,
    Miss,
    Union,
    Intersect,
    Equality,
    Clear,
    Clone,
    Iter,
}

const TEXTS: &'static [u32] = &[8, 16, 32, 64];

const HASHED_TEXTS: &'static [u32] = &[8, 16, 32, 64, 1000];

const HASHES: &'static [u32] = &[1, 2, 3, 7, 22];

const FOUND: &'static str = "found after it";

const CHANGED: &'static str = "equal, or found after it";

/// The rows of a plain filter: of items with seven hashes, of hashes with one to 22, and of
/// whole filters.
pub const TABLE: [Rows<Call>; 17] = [
    row! { Call::HashNumbers, "source_hash, u64", &[7] => Key, "odd hashes" },
    row! { Call::Insert, "insert, u64", &[7] => Key, "true" },
    row! { Call::Contains, "contains, u64", &[7] => Key, "true" },
    row! { Call::Extend, "extend, u64", &[7] => Key, FOUND },
    row! { Call::InsertAll, "insert_all, u64", &[7] => Key, FOUND },
    row! { Call::HashTexts, "source_hash, text of bytes:", HASHED_TEXTS => Key, "odd hashes" },
    row! { Call::InsertTexts, "insert, text of bytes:", TEXTS => Key, "true" },
    row! { Call::ContainsTexts, "contains, text of bytes:", TEXTS => Key, "true" },
    row! { Call::InsertHash, "insert_hash", HASHES => Key, "true" },
    row! { Call::Hit, "contains_hash, hit", HASHES => Key, "true" },
    row! { Call::Miss, "contains_hash, miss", HASHES => Key, "true" },
    row! { Call::Union, "union, a word", &[7] => Word, CHANGED },
    row! { Call::Intersect, "intersect, a word", &[7] => Word, CHANGED },
    row! { Call::Equality, "==, a word", &[7] => Word, CHANGED },
    row! { Call::Clear, "clear, a word", &[7] => Word, CHANGED },
    row! { Call::Clone, "try_clone, a word", &[7] => Word, FOUND },
    row! { Call::Iter, "iter, a word", &[7] => Word, "odd words" },
];
