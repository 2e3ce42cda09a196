//! The loops over the positions of a hash. They branch as seldom as they can, since no processor
//! foresees whether one position is set.
//!
//! Each loop says what its form was measured to gain, in nanoseconds of a call with seven hashes,
//! where no other number is named. docs/log/speed.md has these measurements, and the forms that
//! were given up.
ghost use Rattle.std.specs.Prelude.{◌≡◌, ℕ, ◌*◌, ◌<◌, ◌≤◌, ◌||◌, length};
ghost use Rattle.bloom_parts.specs.Content.{content};
ghost use Rattle.bloom_parts.specs.Places.{positions, are_in};
ghost use Rattle.bloom_parts.specs.Stretches.{Advances, TurnsOnNext, TellsNext};

use super::one_bit::{check_hash, set_hash};
use crate::hasher::DoubleHasher;

// Sets the next position of a hash. Returns 0 exactly if it was set before.
fn turn_on_next(words: &mut [u64], chain: &mut DoubleHasher) -> u64
    requires { 1 ≤ length words.old }
    ensures turns_on { TurnsOnNext 1 chain.old words.old words.new result }
    ensures moved { Advances 1 chain.old chain.new }
{
    set_hash(words, chain.next())
}

/// Sets all positions of a hash, and returns whether all of them were set before.
///
/// One hash needs no chain. Of more the first two positions are set before any loop. One word
/// gathers what was clear. At 10^4 keys an insert with one hash takes 2.6 so, and 2.9 where a loop
/// begins behind the first position. With two hashes both take 4.3, and with seven 11.0.
#[inline(always)]
pub fn insert_positions(words: &mut [u64], num_hashes: u32, hash: u64) -> bool
    requires { 1 ≤ length words.old }
    ensures reply { result ≡ are_in (64 * length words.old) num_hashes hash (content words.old) }
    ensures content { (p : ℕ) → content words.new p
        ≡ (content words.old p || positions (64 * length words.old) num_hashes hash p) }
    ensures shape { length words.new ≡ length words.old }
{
    let mut chain = DoubleHasher::new(hash);
    if num_hashes == 0 {
        return true;
    }
    if num_hashes == 1 {
        return turn_on_next(words, &mut chain) == 0;
    }
    let first = turn_on_next(words, &mut chain);
    let second = turn_on_next(words, &mut chain);
    let mut was_off = first | second;
    'places: for _place in 2..num_hashes {
        was_off |= turn_on_next(words, &mut chain);
    }
    was_off == 0
}

// Whether the next position of a hash is set.
fn next_is_on(words: &[u64], chain: &mut DoubleHasher) -> bool
    requires { 1 ≤ length words.now }
    ensures found { TellsNext 1 chain.old words.now result }
    ensures moved { Advances 1 chain.old chain.new }
{
    check_hash(words, chain.next())
}

// Whether the next `count` positions of a hash are set. It counts, which needs no branch.
#[inline(always)]
fn next_are_on(words: &[u64], chain: &mut DoubleHasher, count: u32) -> bool
    requires { 1 ≤ length words.now }
    ensures found { TellsNext count chain.old words.now result }
    ensures moved { Advances count chain.old chain.new }
{
    let mut on: u32 = 0;
    'places: for _place in 0..count {
        on += u32::from(next_is_on(words, chain));
    }
    on == count
}

// Whether the next `count` positions of a hash are set. It stops at the first that is clear. It
// counts those before, so that the loop makes no `bool`: at 10^4 keys a look-up of a number takes
// 18.2 so, and 20.5 where the loop makes the answer.
#[inline(always)]
fn each_is_on(words: &[u64], chain: &mut DoubleHasher, count: u32) -> bool
    requires { 1 ≤ length words.now }
    ensures { TellsNext count chain.old words.now result }
{
    let mut found: u32 = 0;
    'places: while found < count && next_is_on(words, chain) {
        found += 1;
    }
    found == count
}

/// Whether all positions of a hash are set.
///
/// Up to three are taken together. Of more, the first three are, which tell apart most hashes that
/// were never inserted. It then stops at the first that is clear. In the lines of 10^6 keys a hit
/// takes 13.5 so and a miss 10.9, and 15.5 and 18.0 one position after the other.
#[inline(always)]
pub fn contains_positions(words: &[u64], num_hashes: u32, hash: u64) -> bool
    requires { 1 ≤ length words.now }
    ensures { result ≡ are_in (64 * length words.now) num_hashes hash (content words.now) }
{
    let mut chain = DoubleHasher::new(hash);
    if num_hashes < 4 {
        return next_are_on(words, &mut chain, num_hashes);
    }
    if !next_are_on(words, &mut chain, 3) {
        return false;
    }
    each_is_on(words, &mut chain, num_hashes - 3)
}

/// Whether all positions of a hash are set.
///
/// It counts, so that no branch waits for a word, and all words are asked for at once. Of 10^7
/// numbers an insert takes 0.52 of its time where sixteen are looked up so before.
#[inline(always)]
pub fn contains_by_count(words: &[u64], num_hashes: u32, hash: u64) -> bool
    requires { 1 ≤ length words.now }
    ensures { result ≡ are_in (64 * length words.now) num_hashes hash (content words.now) }
{
    let mut chain = DoubleHasher::new(hash);
    next_are_on(words, &mut chain, num_hashes)
}

/// Sets all positions of a hash, and returns whether all of them were set before. It is for words
/// so few that they lie in the cache together, as those of one line do.
///
/// It is one loop, with no case of its own for few hashes: the shorter an insert is, the more of
/// them a processor has at work. In the lines of 10^5 and 10^6 keys it takes 12.0 and 13.4, and the
/// loop for any words 14.3 and 15.3.
#[inline(always)]
pub fn insert_in_few_words(words: &mut [u64], num_hashes: u32, hash: u64) -> bool
    requires { 1 ≤ length words.old }
    ensures reply { result ≡ are_in (64 * length words.old) num_hashes hash (content words.old) }
    ensures content { (p : ℕ) → content words.new p
        ≡ (content words.old p || positions (64 * length words.old) num_hashes hash p) }
    ensures shape { length words.new ≡ length words.old }
{
    let mut chain = DoubleHasher::new(hash);
    let mut off = 0;
    'places: for _place in 0..num_hashes {
        off |= turn_on_next(words, &mut chain);
    }
    off == 0
}

/// Whether all positions of a hash are set. It is for words so few that they lie in the cache
/// together.
///
/// The first three are taken together, which tells apart most hashes that were never inserted. Of
/// seven and more the next four are taken without a loop, since ten bits an item ask for seven.
/// All others are taken together too, since no position waits long for its word. In the lines of
/// 10^6 keys a hit takes 12.6 and a miss 9.2 with all others together, and 13.5 and 10.9 in the
/// loop for any words. The four without a loop take 0.8 off a hit.
#[inline(always)]
pub fn contains_in_few_words(words: &[u64], num_hashes: u32, hash: u64) -> bool
    requires { 1 ≤ length words.now }
    ensures { result ≡ are_in (64 * length words.now) num_hashes hash (content words.now) }
{
    let mut chain = DoubleHasher::new(hash);
    if num_hashes < 4 {
        return next_are_on(words, &mut chain, num_hashes);
    }
    if !next_are_on(words, &mut chain, 3) {
        return false;
    }
    if num_hashes < 7 {
        return next_are_on(words, &mut chain, num_hashes - 3);
    }
    if !next_are_on(words, &mut chain, 4) {
        return false;
    }
    next_are_on(words, &mut chain, num_hashes - 7)
}
