//! Inserts of many hashes that tell which of them were new.
ghost use Rattle.std.specs.Prelude.{◌≡◌, ℕ, ◌*◌, ◌/◌, ◌≤◌, ◌||◌, ◌∷◌, [], length};
ghost use Rattle.bloom_parts.specs.Content.{content};
ghost use Rattle.bloom_blocked.specs.Many.{positions_in_lines, TellsNewInLines};

use super::{WORDS_TO_READ_AHEAD, all_are_set, ends_are_full, with_bit};
use crate::by_hash::insert_hash;
use bloom_parts::slices::clear;

// Sets all positions of each of these hashes, one after the other. Bit i is whether not all
// positions of hash i were set just before.
#[inline(always)]
fn insert_each_telling(words: &mut [u64], num_hashes: u32, hashes: &[u64]) -> u64
    requires words { 8 ≤ length words.old }
    requires few { length hashes.now ≤ 64 }
    ensures fresh { TellsNewInLines (length words.old / 8) num_hashes (content words.old) hashes.now
        (result ∷ []) }
    ensures content { (p : ℕ) → content words.new p ≡ (content words.old p
        || positions_in_lines (length words.old / 8) num_hashes hashes.now p) }
    ensures shape { length words.new ≡ length words.old }
{
    let mut fresh: u64 = 0;
    let mut i: usize = 0;
    'hashes: for hash in hashes {
        let was_set = insert_hash(words, num_hashes, *hash);
        fresh = with_bit(fresh, i, !was_set);
        i += 1;
    }
    fresh
}

// Sets all positions of each of these hashes, one after the other. Bit i is whether not all
// positions of hash i were set just before. Of large words the ends of each line are read first;
// where these are full, and all positions are set, nothing is written.
fn insert_word_telling(words: &mut [u64], num_hashes: u32, hashes: &[u64]) -> u64
    requires words { 8 ≤ length words.old }
    requires few { length hashes.now ≤ 64 }
    ensures fresh { TellsNewInLines (length words.old / 8) num_hashes (content words.old) hashes.now
        (result ∷ []) }
    ensures content { (p : ℕ) → content words.new p ≡ (content words.old p
        || positions_in_lines (length words.old / 8) num_hashes hashes.now p) }
    ensures shape { length words.new ≡ length words.old }
{
    if words.len() >= WORDS_TO_READ_AHEAD
        && ends_are_full(words, hashes)
        && all_are_set(words, num_hashes, hashes)
    {
        return 0;
    }
    insert_each_telling(words, num_hashes, hashes)
}

/// Sets all positions of each of these hashes, one after the other.
///
/// Sets bit i of `fresh` where not all positions of hash i were set just before its insert, and
/// clears every other bit. So a hash that comes twice is new once at most.
pub fn insert_hashes_tell_new(words: &mut [u64], num_hashes: u32, hashes: &[u64], fresh: &mut [u64])
    requires words { 8 ≤ length words.old }
    requires room { length hashes.now ≤ 64 * length fresh.old }
    ensures fresh { TellsNewInLines (length words.old / 8) num_hashes (content words.old) hashes.now
        fresh.new }
    ensures content { (p : ℕ) → content words.new p ≡ (content words.old p
        || positions_in_lines (length words.old / 8) num_hashes hashes.now p) }
    ensures words_shape { length words.new ≡ length words.old }
    ensures fresh_shape { length fresh.new ≡ length fresh.old }
{
    clear(fresh);
    let turns = hashes.len().div_ceil(64);
    'turns: for turn in 0..turns {
        let at = 64 * turn;
        let end = hashes.len().min(at + 64);
        fresh[turn] = insert_word_telling(words, num_hashes, &hashes[at..end]);
    }
}
