//! Calls on many hashes over words that lie anywhere, which may tell of each by a bit set that the
//! caller owns. Where the words are larger than a cache, those of sixteen hashes are looked up
//! before any is written, so that the memory brings them side by side.
ghost use Rattle.std.specs.Prelude.{◌≡◌, ℕ, ◌*◌, ◌%◌, ◌^◌, ◌<◌, ◌≤◌, ◌||◌, ◌&&◌, ◌==◌, length, if◌then◌else◌};
ghost use Rattle.std.specs.List.{list_all, list_any};
ghost use Rattle.bloom_parts.specs.Content.{content};
ghost use Rattle.bloom_parts.specs.Many.{TellsFound, TellsNew};
ghost use Rattle.bloom_parts.specs.Places.{positions, are_in};

use super::positions::{contains_by_count, contains_positions, insert_positions};
use super::{HASHES_TOGETHER, WORDS_BEYOND_CACHE, clear};

// Whether all positions of all of these hashes are set. The look-ups branch on no word, so that the
// memory brings the words side by side.
fn all_are_set(words: &[u64], num_hashes: u32, hashes: &[u64]) -> bool
    requires { 1 ≤ length words.now }
    ensures { result ≡ list_all (λ hash. are_in (64 * length words.now) num_hashes hash
        (content words.now)) hashes.now }
{
    let mut found: usize = 0;
    'looks: for hash in hashes {
        found += usize::from(contains_by_count(words, num_hashes, *hash));
    }
    found == hashes.len()
}

// Sets all positions of each of these hashes, one after the other.
fn insert_each(words: &mut [u64], num_hashes: u32, hashes: &[u64])
    requires { 1 ≤ length words.old }
    ensures content { (p : ℕ) → content words.new p ≡ (content words.old p
        || list_any (λ hash. positions (64 * length words.old) num_hashes hash p) hashes.now) }
    ensures shape { length words.new ≡ length words.old }
{
    'hashes: for hash in hashes {
        insert_positions(words, num_hashes, *hash);
    }
}

// Sets all positions of each of these hashes, unless all of them are set: then nothing is written.
fn insert_unless_present(words: &mut [u64], num_hashes: u32, hashes: &[u64])
    requires { 1 ≤ length words.old }
    ensures content { (p : ℕ) → content words.new p ≡ (content words.old p
        || list_any (λ hash. positions (64 * length words.old) num_hashes hash p) hashes.now) }
    ensures shape { length words.new ≡ length words.old }
{
    if !all_are_set(words, num_hashes, hashes) {
        insert_each(words, num_hashes, hashes);
    }
}

// Sets all positions of each of these hashes, sixteen hashes at a time.
fn insert_together(words: &mut [u64], num_hashes: u32, hashes: &[u64])
    requires { 1 ≤ length words.old }
    ensures content { (p : ℕ) → content words.new p ≡ (content words.old p
        || list_any (λ hash. positions (64 * length words.old) num_hashes hash p) hashes.now) }
    ensures shape { length words.new ≡ length words.old }
{
    let turns = hashes.len() / HASHES_TOGETHER;
    'turns: for turn in 0..turns {
        let at = HASHES_TOGETHER * turn;
        insert_unless_present(words, num_hashes, &hashes[at..at + HASHES_TOGETHER]);
    }
    insert_unless_present(words, num_hashes, &hashes[HASHES_TOGETHER * turns..]);
}

/// Sets all positions of each of these hashes.
pub fn insert_hashes(words: &mut [u64], num_hashes: u32, hashes: &[u64])
    requires { 1 ≤ length words.old }
    ensures content { (p : ℕ) → content words.new p ≡ (content words.old p
        || list_any (λ hash. positions (64 * length words.old) num_hashes hash p) hashes.now) }
    ensures shape { length words.new ≡ length words.old }
{
    if words.len() >= WORDS_BEYOND_CACHE {
        insert_together(words, num_hashes, hashes);
    } else {
        insert_each(words, num_hashes, hashes);
    }
}

// The mask of a position in its word, or 0.
#[inline(always)]
fn mask_where(on: bool, position: usize) -> u64
    ensures { result ≡ (if on then 2 ^ (position % 64) else 0) }
{
    u64::from(on) << (position % 64)
}

/// Sets a position if this is true. It doesn't branch, since no processor foresees it.
#[inline(always)]
pub fn turn_on_where(on: bool, bits: &mut [u64], position: usize)
    requires { position < 64 * length bits.old }
    ensures content { (p : ℕ) → content bits.new p ≡ (content bits.old p || (p == position && on)) }
    ensures shape { length bits.new ≡ length bits.old }
{
    let word = position / 64;
    bits[word] |= mask_where(on, position);
}

// Sets bit i where hash i is contained, and no other.
fn find_each(words: &[u64], num_hashes: u32, hashes: &[u64], found: &mut [u64])
    requires words { 1 ≤ length words.now }
    requires room { length hashes.now ≤ 64 * length found.old }
    ensures found { TellsFound (64 * length words.now) num_hashes (content words.now) hashes.now
        found.new }
    ensures shape { length found.new ≡ length found.old }
{
    clear(found);
    let mut i: usize = 0;
    'looks: for hash in hashes {
        turn_on_where(contains_positions(words, num_hashes, *hash), found, i);
        i += 1;
    }
}

// Sets bit i where hash i is contained, and no other. The look-ups branch on no word, so that
// the memory brings the words of many hashes side by side.
fn find_together(words: &[u64], num_hashes: u32, hashes: &[u64], found: &mut [u64])
    requires words { 1 ≤ length words.now }
    requires room { length hashes.now ≤ 64 * length found.old }
    ensures found { TellsFound (64 * length words.now) num_hashes (content words.now) hashes.now
        found.new }
    ensures shape { length found.new ≡ length found.old }
{
    clear(found);
    let mut i: usize = 0;
    'looks: for hash in hashes {
        turn_on_where(contains_by_count(words, num_hashes, *hash), found, i);
        i += 1;
    }
}

/// Sets bit i of `found` where all positions of hash i are set, and clears every other bit.
pub fn contains_hashes(words: &[u64], num_hashes: u32, hashes: &[u64], found: &mut [u64])
    requires words { 1 ≤ length words.now }
    requires room { length hashes.now ≤ 64 * length found.old }
    ensures found { TellsFound (64 * length words.now) num_hashes (content words.now) hashes.now
        found.new }
    ensures shape { length found.new ≡ length found.old }
{
    if words.len() >= WORDS_BEYOND_CACHE {
        find_together(words, num_hashes, hashes, found);
    } else {
        find_each(words, num_hashes, hashes, found);
    }
}

/// Sets all positions of each of these hashes, one after the other, and bit i of `fresh` where hash
/// i was not contained just before. Clears every other bit.
pub fn insert_hashes_tell_new(words: &mut [u64], num_hashes: u32, hashes: &[u64], fresh: &mut [u64])
    requires words { 1 ≤ length words.old }
    requires room { length hashes.now ≤ 64 * length fresh.old }
    ensures fresh { TellsNew (64 * length words.old) num_hashes (content words.old) hashes.now
        fresh.new }
    ensures content { (p : ℕ) → content words.new p ≡ (content words.old p
        || list_any (λ hash. positions (64 * length words.old) num_hashes hash p) hashes.now) }
    ensures shape { length words.new ≡ length words.old }
    ensures bits { length fresh.new ≡ length fresh.old }
{
    clear(fresh);
    let mut i: usize = 0;
    'hashes: for hash in hashes {
        let was_on = insert_positions(words, num_hashes, *hash);
        turn_on_where(!was_on, fresh, i);
        i += 1;
    }
}
