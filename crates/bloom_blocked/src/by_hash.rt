//! Calls by hash over words that lie anywhere. Eight words are a line.
ghost use Rattle.std.specs.Prelude.{◌≡◌, ℕ, ◌+◌, ◌*◌, ◌/◌, ◌≤◌, ◌||◌, length};
ghost use Rattle.bloom_parts.specs.Content.{content};
ghost use Rattle.bloom_blocked.specs.Lines.{line_of, inner_of, line_positions, are_in_line};

use bloom_parts::hasher::MULTIPLIER;
use bloom_parts::slices::{contains_in_few_words, insert_in_few_words};

/// The number of words in a line.
pub const LINE: usize = 8;

/// The first word of the line of a hash, among this many words.
#[inline(always)]
pub fn line_start(words: usize, hash: u64) -> usize
    requires { 8 ≤ words }
    ensures start { result ≡ 8 * line_of (words / 8) hash }
    ensures range { result + 8 ≤ words }
{
    let lines = words / LINE;
    let line = ((hash as u128 * lines as u128) >> 64) as usize;
    LINE * line
}

/// The hash that chooses positions within a line.
#[inline(always)]
pub fn inner(hash: u64) -> u64
    ensures { result ≡ inner_of hash }
{
    hash.wrapping_mul(MULTIPLIER)
}

/// Sets all positions of a hash, and returns whether all of them were set before.
#[inline(always)]
pub fn insert_hash(words: &mut [u64], num_hashes: u32, hash: u64) -> bool
    requires { 8 ≤ length words.old }
    ensures reply { result
        ≡ are_in_line (length words.old / 8) num_hashes hash (content words.old) }
    ensures content { (p : ℕ) → content words.new p
        ≡ (content words.old p || line_positions (length words.old / 8) num_hashes hash p) }
    ensures shape { length words.new ≡ length words.old }
{
    let at = line_start(words.len(), hash);
    insert_in_few_words(&mut words[at..at + LINE], num_hashes, inner(hash))
}

/// Whether all positions of a hash are set. True may be a false positive.
#[inline(always)]
pub fn contains_hash(words: &[u64], num_hashes: u32, hash: u64) -> bool
    requires { 8 ≤ length words.now }
    ensures { result ≡ are_in_line (length words.now / 8) num_hashes hash (content words.now) }
{
    let at = line_start(words.len(), hash);
    contains_in_few_words(&words[at..at + LINE], num_hashes, inner(hash))
}
