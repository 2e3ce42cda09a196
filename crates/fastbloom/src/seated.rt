//! A Bloom filter that threads share under a rule: a position that a thread knows stays set.
mod closing;
mod filter;
pub mod laws;
mod looks;
mod meetings;
mod opening;
mod passes;
mod rule;
mod steps;

pub use filter::SeatedBloomFilter;
pub use passes::Pass;
pub use rule::SeatedRule;
