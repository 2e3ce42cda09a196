//! Calls on all of a filter, or on two of them.
ghost use Rattle.std.specs.Prelude.{◌≡◌, ◌↔◌, ℕ, ◌*◌, ◌^◌, ◌<◌, ◌≤◌, ◌||◌, ◌&&◌, false, IsTrue, length};
ghost use Rattle.bloom_parts.specs.Content.{content};
ghost use Rattle.bloom_parts.specs.Counts.{count_on};

use bloom_parts::bit_vector::MAX_WORDS;
use bloom_parts::slices;

/// Clears every position, and returns whether there are words.
#[unsafe(no_mangle)]
pub extern "C" fn fastbloom_clear(words: &mut [u64]) -> bool
    ensures done { IsTrue result ↔ (1 ≤ length words.old) }
    ensures content { (p : ℕ) → content words.new p ≡ false }
    ensures shape { length words.new ≡ length words.old }
{
    slices::clear(words);
    !words.is_empty()
}

/// Sets every position that is set in the other filter, and returns whether it did.
///
/// Returns false, and changes nothing, where there are no words or the numbers of words differ.
#[unsafe(no_mangle)]
pub extern "C" fn fastbloom_union(words: &mut [u64], other: &[u64]) -> bool
    ensures done { IsTrue result
        ↔ ((1 ≤ length words.old) × (length words.old ≡ length other.now)) }
    ensures content { IsTrue result → (p : ℕ) → content words.new p
        ≡ (content words.old p || content other.now p) }
    ensures stays { result ≡ false → words.new ≡ words.old }
    ensures shape { length words.new ≡ length words.old }
{
    if words.len() != other.len() || words.is_empty() {
        return false;
    }
    slices::union(words, other);
    true
}

/// Clears every position that is clear in the other filter, and returns whether it did.
///
/// Returns false, and changes nothing, where there are no words or the numbers of words differ.
#[unsafe(no_mangle)]
pub extern "C" fn fastbloom_intersect(words: &mut [u64], other: &[u64]) -> bool
    ensures done { IsTrue result
        ↔ ((1 ≤ length words.old) × (length words.old ≡ length other.now)) }
    ensures content { IsTrue result → (p : ℕ) → content words.new p
        ≡ (content words.old p && content other.now p) }
    ensures stays { result ≡ false → words.new ≡ words.old }
    ensures shape { length words.new ≡ length words.old }
{
    if words.is_empty() || words.len() != other.len() {
        return false;
    }
    slices::intersect(words, other);
    true
}

/// Whether the words of two filters are equal. Returns false where there are no words.
#[unsafe(no_mangle)]
pub extern "C" fn fastbloom_equal(words: &[u64], other: &[u64]) -> bool
    ensures { IsTrue result ↔ ((1 ≤ length words.now) × (words.now ≡ other.now)) }
{
    if words.is_empty() {
        return false;
    }
    slices::are_equal(words, other)
}

/// The number of positions that are set, or 0 for more than 2^58 - 1 words.
#[unsafe(no_mangle)]
pub extern "C" fn fastbloom_count_ones(words: &[u64]) -> usize
    ensures value { length words.now < 2 ^ 58
        → result ≡ count_on (content words.now) (64 * length words.now) }
    ensures none { 2 ^ 58 ≤ length words.now → result ≡ 0 }
{
    if words.len() > MAX_WORDS {
        return 0;
    }
    slices::count_ones(words)
}
