//! A list of commands.

use fastbloom::{BloomFilter, Command, FilterError};
use std::alloc::Global;

/// The replies of an insert and two look-ups: false, true, false.
pub fn replies(alloc: Global, filter: &mut BloomFilter) -> Result<Vec<bool>, FilterError> {
    let list = [
        Command::Clear,
        Command::Insert(1),
        Command::Contains(1),
        Command::Clear,
        Command::Contains(1),
    ];
    filter.replay(alloc, &list)
}
