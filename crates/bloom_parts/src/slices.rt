//! The calls of a filter over words that lie anywhere: in a vector, or in memory that a caller from
//! another language owns.
//!
//! `BitVec` and the library for C are made of these. Each word has 64 bits, and word 0 is first.
ghost use Rattle.std.specs.Prelude.{◌≡◌, ℕ, ◌*◌, ◌^◌, ◌<◌, ◌≤◌, ◌||◌, ◌&&◌, ◌↔◌, false, IsTrue, length};
ghost use Rattle.std.specs.Int.Count.{ones};
ghost use Rattle.bloom_parts.specs.Content.{content, AreWords};
ghost use Rattle.bloom_parts.specs.Counts.{count_on};

mod kernels;
pub mod many;
pub(crate) mod one_bit;
mod positions;

use kernels::{and_words, clear_words, or_words, same_words};
pub use positions::{
    contains_by_count, contains_in_few_words, contains_positions, insert_in_few_words,
    insert_positions,
};

/// From this many words on, which are four mebibytes, a filter counts as larger than a cache.
pub const WORDS_BEYOND_CACHE: usize = 1 << 19;

/// How many hashes are taken together where a filter is larger than a cache.
pub const HASHES_TOGETHER: usize = 16;

/// The same words, with the fact that each has 64 bits, which a slice that was read from a field
/// lacks.
pub fn with_range(words: &[u64]) -> &[u64]
    ensures value { result.now ≡ words.now }
    ensures range { AreWords words.now }
{
    words
}

/// Clears every position.
pub fn clear(words: &mut [u64])
    ensures content { (p : ℕ) → content words.new p ≡ false }
    ensures shape { length words.new ≡ length words.old }
{
    let mut turns = 0;
    clear_words(words, &mut turns);
}

/// Sets what is set in the other words.
pub fn union(words: &mut [u64], other: &[u64])
    requires { length words.old ≡ length other.now }
    ensures content { (p : ℕ) → content words.new p
        ≡ (content words.old p || content other.now p) }
    ensures shape { length words.new ≡ length words.old }
{
    let mut turns = 0;
    or_words(words, other, &mut turns);
}

/// Clears what is clear in the other words.
pub fn intersect(words: &mut [u64], other: &[u64])
    requires { length words.old ≡ length other.now }
    ensures content { (p : ℕ) → content words.new p
        ≡ (content words.old p && content other.now p) }
    ensures shape { length words.new ≡ length words.old }
{
    let mut turns = 0;
    and_words(words, other, &mut turns);
}

/// Whether the two lists of words are of equal length, and each word is equal.
pub fn are_equal(words: &[u64], other: &[u64]) -> bool
    ensures { IsTrue result ↔ (words.now ≡ other.now) }
{
    let mut turns = 0;
    same_words(words, other, &mut turns)
}

// The number of bits that are set in a word.
#[inline(always)]
fn ones_in(word: u64) -> usize
    ensures value { result ≡ ones word }
    ensures most { result ≤ 64 }
{
    word.count_ones() as usize
}

/// The number of positions that are set.
pub fn count_ones(words: &[u64]) -> usize
    requires { length words.now < 2 ^ 58 }
    ensures count { result ≡ count_on (content words.now) (64 * length words.now) }
    ensures most { result ≤ 64 * length words.now }
{
    let mut count: usize = 0;
    'words: for word in words {
        count += word.count_ones() as usize;
    }
    count
}

/// The number of positions that are set in either of two lists of words.
pub fn count_either(words: &[u64], other: &[u64]) -> usize
    requires few { length words.now < 2 ^ 58 }
    requires lengths { length words.now ≡ length other.now }
    ensures count { result
        ≡ count_on (λ p. content words.now p || content other.now p) (64 * length words.now) }
    ensures most { result ≤ 64 * length words.now }
{
    let mut count: usize = 0;
    'words: for at in 0..words.len() {
        count += ones_in(words[at] | other[at]);
    }
    count
}
