//! The plain Bloom filter, which its owner changes: its calls, its builders and its laws.
//!
//! - `bloom`: `BloomFilter`, with its calls on whole filters (`sets`), items (`items`), many hashes
//!   (`together`), lists of commands (`command`), rates (`rates`), numbers of items (`estimates`)
//!   and data (`data`).
//! - `builder`: the builders by bits, and by a rate (`rate`).
//! - `queue`: many items, each inserted by its hash into any filter.
//! - `laws`: the laws of filters.
#![tactic(auto)]

mod bloom;
pub mod builder;
pub mod laws;
pub mod queue;

pub use bloom::{BitsData, BloomFilter, Command, FilterData, expected_rate, shape_of_data};
pub use bloom_parts::error::FilterError;
pub use bloom_parts::hasher::{CloneBuildHasher, DefaultHasher, RandomDefaultHasher};
pub use bloom_parts::math::{Estimate, Rate};
pub use bloom_parts::text::Text;
pub use builder::{BuilderWithBits, BuilderWithFalsePositiveRate};
