//! Summaries of keys: filters of the keys of shards, their unions, and look-ups in them.
//!
//! - `keys`: keys, which are lines, and their hashes, given to what takes them.
//! - `waiting`: keys that wait whole, many of which are hashed at once.
//! - `filler`, `crew`: what takes hashes: a filter of either kind, or workers that fill one.
//! - `summary`: the filter of all keys of some inputs.
//! - `kinds`: a filter of either kind.
//! - `unions`, `shards`: the union of two filters, and of those that have names.
//! - `answers`: which keys may be in.
//! - `loading`, `head`, `form`: the filter of a reader, what the head of its file tells, and how a
//!   filter is written.
//! - `sizes`, `facts`, `comparing`: the shape for some keys, and what is reported about one filter
//!   or two.
//! - `inputs`, `stop`: inputs that have names, and why a run stopped.
//! - `laws`: unions of parts in any order, number and nesting.
#![tactic(auto)]

mod answers;
mod comparing;
mod crew;
mod facts;
mod filler;
mod form;
mod head;
mod inputs;
mod keys;
mod kinds;
pub mod laws;
mod loading;
mod script;
mod shards;
mod sizes;
mod stop;
mod summary;
mod unions;
mod waiting;

pub use answers::{Wanted, ask};
pub use comparing::compare_named;
pub use facts::facts_of;
pub use form::{Form, put, put_file};
pub use inputs::Inputs;
pub use keys::unread;
pub use kinds::AnyFilter;
pub use loading::load;
pub use script::script_of;
pub use shards::{Shelf, unite_named};
pub use sizes::{blocked_for, blocked_with_bits, classic_for, classic_with_bits};
pub use stop::{Stop, is_output, no_json, twice, unsaid, unshaped, unwritten, written};
pub use summary::{build, build_alone};
