//! What C calls: a Bloom filter over words that the caller owns.
//!
//! Each call takes the words as a slice, which is a pointer and a number of words in C. No call
//! asks for memory or has a `requires`. No words are no filter: every call that returns a `bool`
//! returns false for them. `include/fastbloom.h` says what C must keep, since nothing checks it.
//!
//! - `plans`, `rates`, `counted_rates`, `estimates`: sizes, rates, and numbers of items.
//! - `hashes`, `many`, `texts`, `whole`: calls by hash, by many, by bytes, and on all words.
//! - `items`, `pieces`: the hashes of many items, and of bytes that come in pieces.
//! - `files`: heads of files, and seals.
//! - `passed_words`, `lent`: words at a pointer, with their atomic operations, and lent to steps in
//!   turn.
//! - `shared`, `shared_many`, `shared_whole`: the calls on such words.
//! - `blocked`: all calls on blocked filters, plain and shared.
#![tactic(auto)]

pub mod blocked;
pub mod capacities;
pub mod counted_rates;
pub mod estimates;
pub mod files;
pub mod hashes;
pub mod items;
pub mod lent;
pub mod many;
pub mod passed_words;
pub mod pieces;
pub mod plans;
pub mod rates;
pub mod shared;
pub mod shared_many;
pub mod shared_rates;
pub mod shared_whole;
pub mod texts;
pub mod whole;
