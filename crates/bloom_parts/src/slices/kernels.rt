//! The loops over all words of a vector: eight words at a time, and then one by one what is left.
//!
//! Each counts its turns, a group of eight or one word of the rest. Nothing reads the count: the
//! compiler keeps one addition a block. A merge of two vectors goes over blocks of eight groups
//! first.
ghost use Rattle.std.specs.Prelude.{◌≡◌, ◌+◌, ◌<◌, ◌≤◌, ◌^◌, ◌↔◌, IsTrue, length, replicate};
ghost use Rattle.std.specs.Int.Bits.{bit_and, bit_or};
ghost use Rattle.std.specs.Simd.Lanes.{zip2, chunk, put_chunk};
ghost use Rattle.bloom_parts.specs.Lanes.{turns_of};

use std::simd::prelude::*;

// The eight words from `at` on become the `|` of themselves and the other's, in one turn.
#[inline(always)]
fn or_group(words: &mut [u64], other: &[u64], at: usize, turns: u64) -> u64
    requires words { at + 8 ≤ length words.old }
    requires other { at + 8 ≤ length other.now }
    requires room { turns + 1 < 2 ^ 64 }
    ensures words { words.new
        ≡ put_chunk at words.old (zip2 bit_or (chunk at 8 words.old) (chunk at 8 other.now)) }
    ensures turns { result ≡ turns + 1 }
{
    let lanes = u64x8::from_slice(&words[at..]) | u64x8::from_slice(&other[at..]);
    lanes.copy_to_slice(&mut words[at..]);
    turns + 1
}

// Each of 64 words becomes the `|` of itself and the other's. Of a call of its own the
// compiler makes no loop, so each address is one register and a number. Where it was the sum of two
// registers, a word took 1.36 times as long.
#[inline(never)]
fn or_block(words: &mut [u64], other: &[u64], turns: u64) -> u64
    requires words { length words.old ≡ 64 }
    requires other { length other.now ≡ 64 }
    requires room { turns + 8 < 2 ^ 64 }
    ensures words { words.new ≡ zip2 bit_or words.old other.now }
    ensures turns { result ≡ turns + 8 }
{
    let mut turns = turns;
    'groups: for group in 0..8 {
        turns = or_group(words, other, 8 * group, turns);
    }
    turns
}

// Each word becomes the `|` of itself and the other's.
pub(super) fn or_words(words: &mut [u64], other: &[u64], turns: &mut u64)
    requires lengths { length words.old ≡ length other.now }
    requires start { turns.old ≡ 0 }
    ensures words { words.new ≡ zip2 bit_or words.old other.now }
    ensures turns { turns.new ≡ turns_of (length words.old) }
{
    let parts = words.len() / 64;
    'parts: for part in 0..parts {
        let at = 64 * part;
        *turns = or_block(&mut words[at..at + 64], &other[at..at + 64], *turns);
    }
    let groups = words.len() / 8;
    'groups: for group in 8 * parts..groups {
        *turns = or_group(words, other, 8 * group, *turns);
    }
    'rest: for place in 8 * groups..words.len() {
        words[place] |= other[place];
        *turns += 1;
    }
}

// The eight words from `at` on become the `&` of themselves and the other's, in one turn.
#[inline(always)]
fn and_group(words: &mut [u64], other: &[u64], at: usize, turns: u64) -> u64
    requires words { at + 8 ≤ length words.old }
    requires other { at + 8 ≤ length other.now }
    requires room { turns + 1 < 2 ^ 64 }
    ensures words { words.new
        ≡ put_chunk at words.old (zip2 bit_and (chunk at 8 words.old) (chunk at 8 other.now)) }
    ensures turns { result ≡ turns + 1 }
{
    let lanes = u64x8::from_slice(&words[at..]) & u64x8::from_slice(&other[at..]);
    lanes.copy_to_slice(&mut words[at..]);
    turns + 1
}

// Each of 64 words becomes the `&` of itself and the other's.
#[inline(never)]
fn and_block(words: &mut [u64], other: &[u64], turns: u64) -> u64
    requires words { length words.old ≡ 64 }
    requires other { length other.now ≡ 64 }
    requires room { turns + 8 < 2 ^ 64 }
    ensures words { words.new ≡ zip2 bit_and words.old other.now }
    ensures turns { result ≡ turns + 8 }
{
    let mut turns = turns;
    'groups: for group in 0..8 {
        turns = and_group(words, other, 8 * group, turns);
    }
    turns
}

// Each word becomes the `&` of itself and the other's.
pub(super) fn and_words(words: &mut [u64], other: &[u64], turns: &mut u64)
    requires lengths { length words.old ≡ length other.now }
    requires start { turns.old ≡ 0 }
    ensures words { words.new ≡ zip2 bit_and words.old other.now }
    ensures turns { turns.new ≡ turns_of (length words.old) }
{
    let parts = words.len() / 64;
    'parts: for part in 0..parts {
        let at = 64 * part;
        *turns = and_block(&mut words[at..at + 64], &other[at..at + 64], *turns);
    }
    let groups = words.len() / 8;
    'groups: for group in 8 * parts..groups {
        *turns = and_group(words, other, 8 * group, *turns);
    }
    'rest: for place in 8 * groups..words.len() {
        words[place] &= other[place];
        *turns += 1;
    }
}

// Each word becomes 0.
pub(super) fn clear_words(words: &mut [u64], turns: &mut u64)
    requires start { turns.old ≡ 0 }
    ensures words { words.new ≡ replicate (length words.old) 0 }
    ensures turns { turns.new ≡ turns_of (length words.old) }
{
    let groups = words.len() / 8;
    'groups: for group in 0..groups {
        u64x8::splat(0).copy_to_slice(&mut words[8 * group..]);
        *turns += 1;
    }
    'rest: for place in 8 * groups..words.len() {
        words[place] = 0;
        *turns += 1;
    }
}

// Whether the eight words from `at` on are equal.
#[inline(always)]
fn same_group(words: &[u64], other: &[u64], at: usize) -> bool
    requires words { at + 8 ≤ length words.now }
    requires other { at + 8 ≤ length other.now }
    ensures { IsTrue result ↔ (chunk at 8 words.now ≡ chunk at 8 other.now) }
{
    let differ = u64x8::from_slice(&words[at..]).simd_ne(u64x8::from_slice(&other[at..]));
    differ.to_bitmask() == 0
}

// Whether the lists of words are equal.
pub(super) fn same_words(words: &[u64], other: &[u64], turns: &mut u64) -> bool
    requires start { turns.old ≡ 0 }
    ensures same { IsTrue result ↔ (words.now ≡ other.now) }
    ensures turns { turns.new ≤ turns_of (length words.now) }
{
    if words.len() != other.len() {
        return false;
    }
    let groups = words.len() / 8;
    'groups: for group in 0..groups {
        *turns += 1;
        if !same_group(words, other, 8 * group) {
            return false;
        }
    }
    'rest: for place in 8 * groups..words.len() {
        *turns += 1;
        if words[place] != other[place] {
            return false;
        }
    }
    true
}
