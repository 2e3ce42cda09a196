//! The parts that Bloom filters are made of: words of bits, the chain of a hash, bytes as an item,
//! and refusals.
//!
//! - `error`: the refusals, with their numbers and texts.
//! - `text`: bytes as an item of one write.
//! - `hasher`: SipHash-1-3 (`sip`), the default hasher, and the chain of a hash (`chain`).
//! - `math`: rates, sizes, numbers of hashes, bounds of rates, and estimates of items.
//! - `bit_vector`: words of 64 bits as a set of positions, and the calls by hash (`by_hash`); words
//!   that threads share (`atomic`), lent to steps in turn (`turn_words`, `lent`), or only to be
//!   loaded (`loads`).
//! - `slices`: the same over words that lie anywhere: one bit (`one_bit`), the positions of a hash
//!   (`positions`), many hashes (`many`), and all words, eight at a time (`kernels`).
//! - `laws`: what ties the definitions to what a reader expects of them.
#![tactic(auto)]

pub mod bit_vector;
pub mod error;
pub mod hasher;
pub mod laws;
pub mod math;
pub mod slices;
pub mod text;
