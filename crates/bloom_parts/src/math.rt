//! Rates, sizes, brackets of false positive rates, and estimates of items, all in whole numbers.
mod alike;
mod bracket;
mod capacities;
mod estimate;
mod estimated;
mod expected;
mod false_pos;
mod powers;
mod rate;
mod roots;
mod search;
mod sizing;

pub use alike::{estimated_common, estimated_part};
pub use bracket::Bracket;
pub use capacities::capacity;
pub use estimate::Estimate;
pub use estimated::estimated_items;
pub use expected::{expected_density, expected_false_pos};
pub use false_pos::{false_pos_bounds, false_pos_of_either, false_pos_of_ones};
pub use rate::Rate;
pub(crate) use roots::ROOTS;
pub use sizing::{optimal_hashes, optimal_size};
