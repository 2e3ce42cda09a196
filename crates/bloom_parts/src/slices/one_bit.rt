//! The one way from a hash to its word and its bit, by one multiplication, and the test of a bit.
ghost use Rattle.std.specs.Prelude.{◌≡◌, ℕ, ◌+◌, ◌*◌, ◌/◌, ◌%◌, ◌^◌, ◌<◌, ◌≤◌, ◌||◌, ◌==◌, if◌then◌else◌, length};
ghost use Rattle.std.specs.Int.{bit_at};
ghost use Rattle.bloom_parts.specs.Chain.{IsAt};
ghost use Rattle.bloom_parts.specs.Content.{content, index_of};
ghost use Rattle.bloom_parts.specs.Places.{place};

use crate::hasher::DoubleHasher;

// The word where a hash lies among this many words, and its bit there, from 0 to 63.
//
// The product's high half is the word, and the six bits below it are the bit.
fn word_and_bit_of_hash(words: usize, hash: u64) -> (usize, u64)
    ensures word { result.0 ≡ index_of (64 * words) hash / 64 }
    ensures bit { result.1 ≡ index_of (64 * words) hash % 64 }
    ensures range { 0 < words → result.0 < words }
{
    let product = hash as u128 * words as u128;
    let word = (product >> 64) as usize;
    let bit = (product >> 58) % 64;
    (word, bit as u64)
}

/// The word where a hash lies among this many words, and the number that has its bit alone.
pub fn word_and_mask_of_hash(words: usize, hash: u64) -> (usize, u64)
    ensures word { result.0 ≡ index_of (64 * words) hash / 64 }
    ensures mask { result.1 ≡ 2 ^ (index_of (64 * words) hash % 64) }
    ensures range { 0 < words → result.0 < words }
{
    let (word, bit) = word_and_bit_of_hash(words, hash);
    (word, 1 << bit)
}

/// The word of the next position of a hash among this many words, and the number that has its bit
/// alone.
#[inline(always)]
pub fn next_place(chain: &mut DoubleHasher, words: usize) -> (usize, u64)
    ensures word { (hash i : ℕ) → IsAt hash i chain.old
        → result.0 ≡ place (64 * words) hash i / 64 }
    ensures mask { (hash i : ℕ) → IsAt hash i chain.old
        → result.1 ≡ 2 ^ (place (64 * words) hash i % 64) }
    ensures range { 0 < words → result.0 < words }
    ensures moved { (hash i : ℕ) → IsAt hash i chain.old → IsAt hash (i + 1) chain.new }
{
    word_and_mask_of_hash(words, chain.next())
}

/// Whether the bit is set in a word that a mask has alone.
#[inline(always)]
pub fn is_set(word: u64, mask: u64) -> bool
    ensures { (bit : ℕ) → mask ≡ 2 ^ bit → result ≡ (bit_at word bit == 1) }
{
    word & mask > 0
}

// Whether the position where a hash lies is set.
pub(crate) fn check_hash(words: &[u64], hash: u64) -> bool
    requires { 1 ≤ length words.now }
    ensures { result ≡ content words.now (index_of (64 * length words.now) hash) }
{
    let (word, mask) = word_and_mask_of_hash(words.len(), hash);
    is_set(words[word], mask)
}

// Sets the position where a hash lies, and returns the bit that this changed in its word.
pub(crate) fn set_hash(words: &mut [u64], hash: u64) -> u64
    requires { 1 ≤ length words.old }
    ensures changed { let position = index_of (64 * length words.old) hash in
        result ≡ (if content words.old position then 0 else 2 ^ (position % 64)) }
    ensures reply { (result == 0) ≡ content words.old (index_of (64 * length words.old) hash) }
    ensures content { (p : ℕ) → content words.new p
        ≡ (content words.old p || p == index_of (64 * length words.old) hash) }
    ensures shape { length words.new ≡ length words.old }
{
    let (word, mask) = word_and_mask_of_hash(words.len(), hash);
    let before = words[word];
    let after = before | mask;
    words[word] = after;
    before ^ after
}
