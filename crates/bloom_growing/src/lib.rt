//! Bloom filters for streams: one that grows with the number of its items, and one that forgets.
//! Each consists of plain filters, or of blocked ones.
//!
//! - `growable`: the filters of which they consist.
//! - `growing`: `GrowingFilter`, for a number of items that isn't known.
//! - `rotating`: `RotatingFilter`, for the last items of a stream.
//! - `laws`: the laws of both.
#![tactic(auto)]

mod growable;
mod growing;
pub mod laws;
mod rotating;

pub use growable::GrowableFilter;
pub use growing::{GrowingBlockedFilter, GrowingError, GrowingFilter, GrowingFilterOf};
pub use rotating::{RotatingBlockedFilter, RotatingFilter, RotatingFilterOf};
