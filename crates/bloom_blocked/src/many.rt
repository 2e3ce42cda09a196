//! Calls on many hashes over words that lie anywhere. Where the words are one mebibyte or more, the
//! first and the last word of the lines of 64 hashes are read first, in a loop so short that the
//! processor asks for many of these lines at once. The memory then brings them side by side. Words
//! that don't begin at a line of the cache have each of their lines in two of these, and both are
//! asked for.
ghost use Rattle.std.specs.Prelude.{◌≡◌, ℕ, ◌+◌, ◌*◌, ◌/◌, ◌^◌, ◌<◌, ◌≤◌, ◌||◌, ◌&&◌, ◌==◌, ◌∷◌, [], if◌then◌else◌, length};
ghost use Rattle.bloom_parts.specs.Content.{content, index_of};
ghost use Rattle.bloom_parts.specs.Places.{positions};
ghost use Rattle.bloom_blocked.specs.Lines.{line_positions, are_in_line};
ghost use Rattle.bloom_blocked.specs.Many.{positions_in_lines, all_are_in_lines, TellsFoundInLines};

mod telling;

use crate::by_hash::{LINE, contains_hash, inner, line_start};
use bloom_parts::bit_vector::word_and_mask_of_hash;
use bloom_parts::hasher::DoubleHasher;
use bloom_parts::slices::{clear, contains_by_count};
pub use telling::insert_hashes_tell_new;

/// From this many words on, which are one mebibyte, the ends of lines are read first.
pub const WORDS_TO_READ_AHEAD: usize = 1 << 17;

/// How many hashes are taken together, each with a line of its own.
pub const LINES_TOGETHER: usize = 64;

// Whether the first and the last word of the line of each of these hashes are full. The compiler
// can't tell what this decides, so it keeps the loads.
#[inline(always)]
fn ends_are_full(words: &[u64], hashes: &[u64]) -> bool
    requires { 8 ≤ length words.now }
{
    let mut common = u64::MAX;
    'reads: for hash in hashes {
        let at = line_start(words.len(), *hash);
        common &= words[at] & words[at + (LINE - 1)];
    }
    common == u64::MAX
}

// Whether all positions of a hash are set. It branches on no word.
#[inline(always)]
fn contains_branchless(words: &[u64], num_hashes: u32, hash: u64) -> bool
    requires { 8 ≤ length words.now }
    ensures { result ≡ are_in_line (length words.now / 8) num_hashes hash (content words.now) }
{
    let at = line_start(words.len(), hash);
    contains_by_count(&words[at..at + LINE], num_hashes, inner(hash))
}

// Whether all positions of all of these hashes are set. The look-ups branch on no word.
#[inline(always)]
fn all_are_set(words: &[u64], num_hashes: u32, hashes: &[u64]) -> bool
    requires { 8 ≤ length words.now }
    ensures { result
        ≡ all_are_in_lines (length words.now / 8) num_hashes hashes.now (content words.now) }
{
    let mut found: usize = 0;
    'looks: for hash in hashes {
        found += usize::from(contains_branchless(words, num_hashes, *hash));
    }
    found == hashes.len()
}

// Sets the position where a hash lies, and clears in `common` what was clear in its word.
fn set_position(words: &mut [u64], hash: u64, common: &mut u64)
    requires { 1 ≤ length words.old }
    ensures content { (p : ℕ) → content words.new p
        ≡ (content words.old p || p == index_of (64 * length words.old) hash) }
    ensures shape { length words.new ≡ length words.old }
{
    let (word, mask) = word_and_mask_of_hash(words.len(), hash);
    let before = words[word];
    *common &= before;
    words[word] = before | mask;
}

// Sets all positions of a hash, and clears in `common` what was clear in one of their words.
#[inline(always)]
fn set_positions(words: &mut [u64], num_hashes: u32, hash: u64, common: &mut u64)
    requires { 1 ≤ length words.old }
    ensures content { (p : ℕ) → content words.new p
        ≡ (content words.old p || positions (64 * length words.old) num_hashes hash p) }
    ensures shape { length words.new ≡ length words.old }
{
    let mut chain = DoubleHasher::new(hash);
    'places: for _place in 0..num_hashes {
        set_position(words, chain.next(), common);
    }
}

// The same for a hash whose positions lie in its line.
#[inline(always)]
fn set_in_line(words: &mut [u64], num_hashes: u32, hash: u64, common: &mut u64)
    requires { 8 ≤ length words.old }
    ensures content { (p : ℕ) → content words.new p
        ≡ (content words.old p || line_positions (length words.old / 8) num_hashes hash p) }
    ensures shape { length words.new ≡ length words.old }
{
    let at = line_start(words.len(), hash);
    set_positions(&mut words[at..at + LINE], num_hashes, inner(hash), common);
}

// Sets all positions of each of these hashes, one after the other. Returns whether each of their
// words was full just before. To tell that, the compiler reads a word into a register, where a bit
// is set in fewer steps than in memory.
#[inline(always)]
fn insert_each(words: &mut [u64], num_hashes: u32, hashes: &[u64]) -> bool
    requires { 8 ≤ length words.old }
    ensures content { (p : ℕ) → content words.new p ≡ (content words.old p
        || positions_in_lines (length words.old / 8) num_hashes hashes.now p) }
    ensures shape { length words.new ≡ length words.old }
{
    let mut common = u64::MAX;
    'hashes: for hash in hashes {
        set_in_line(words, num_hashes, *hash, &mut common);
    }
    common == u64::MAX
}

// Sets all positions of each of these hashes. Where all are set already, as in a filter that was
// overfilled, nothing is written. Whether they are is looked up where `look_up` says so, and where
// the ends of all lines of large words are full. Returns whether to look up the next hashes too.
fn insert_unless_full(words: &mut [u64], num_hashes: u32, hashes: &[u64], look_up: bool) -> bool
    requires { 8 ≤ length words.old }
    ensures content { (p : ℕ) → content words.new p ≡ (content words.old p
        || positions_in_lines (length words.old / 8) num_hashes hashes.now p) }
    ensures shape { length words.new ≡ length words.old }
{
    let ends = words.len() >= WORDS_TO_READ_AHEAD && ends_are_full(words, hashes);
    if (ends || look_up) && all_are_set(words, num_hashes, hashes) {
        return true;
    }
    insert_each(words, num_hashes, hashes)
}

/// Sets all positions of each of these hashes, 64 hashes at a time.
pub fn insert_hashes(words: &mut [u64], num_hashes: u32, hashes: &[u64])
    requires { 8 ≤ length words.old }
    ensures content { (p : ℕ) → content words.new p ≡ (content words.old p
        || positions_in_lines (length words.old / 8) num_hashes hashes.now p) }
    ensures shape { length words.new ≡ length words.old }
{
    let turns = hashes.len() / LINES_TOGETHER;
    let mut look_up = false;
    'turns: for turn in 0..turns {
        let at = LINES_TOGETHER * turn;
        look_up = insert_unless_full(words, num_hashes, &hashes[at..at + LINES_TOGETHER], look_up);
    }
    insert_unless_full(
        words,
        num_hashes,
        &hashes[LINES_TOGETHER * turns..],
        look_up,
    );
}

// The mask of a bit, or 0.
#[inline(always)]
fn mask_where(set: bool, i: usize) -> u64
    requires { i < 64 }
    ensures { result ≡ (if set then 2 ^ i else 0) }
{
    u64::from(set) << i
}

// A word with a bit that is set where this is true, and its others.
#[inline(always)]
fn with_bit(word: u64, i: usize, set: bool) -> u64
    requires { i < 64 }
    ensures { (p : ℕ) → content (result ∷ []) p ≡ (content (word ∷ []) p || p == i && set) }
{
    word | mask_where(set, i)
}

// Whether all positions of a hash are set. The look-up stops at the first that is clear, or else it
// branches on no word.
#[inline(always)]
fn contains_either_way(words: &[u64], num_hashes: u32, hash: u64, stops: bool) -> bool
    requires { 8 ≤ length words.now }
    ensures { result ≡ are_in_line (length words.now / 8) num_hashes hash (content words.now) }
{
    if stops {
        contains_hash(words, num_hashes, hash)
    } else {
        contains_branchless(words, num_hashes, hash)
    }
}

// Bit i is whether all positions of hash i are set.
#[inline(always)]
fn found_bits(words: &[u64], num_hashes: u32, hashes: &[u64], stops: bool) -> u64
    requires words { 8 ≤ length words.now }
    requires few { length hashes.now ≤ 64 }
    ensures { TellsFoundInLines (length words.now / 8) num_hashes (content words.now) hashes.now
        (result ∷ []) }
{
    let mut found: u64 = 0;
    let mut i: usize = 0;
    'looks: for hash in hashes {
        found = with_bit(
            found,
            i,
            contains_either_way(words, num_hashes, *hash, stops),
        );
        i += 1;
    }
    found
}

// Bit i is whether all positions of hash i are set. Of large words the ends of each line are read
// first.
fn find_word(words: &[u64], num_hashes: u32, hashes: &[u64]) -> u64
    requires words { 8 ≤ length words.now }
    requires few { length hashes.now ≤ 64 }
    ensures { TellsFoundInLines (length words.now / 8) num_hashes (content words.now) hashes.now
        (result ∷ []) }
{
    if words.len() >= WORDS_TO_READ_AHEAD && ends_are_full(words, hashes) {
        found_bits(words, num_hashes, hashes, true)
    } else {
        found_bits(words, num_hashes, hashes, false)
    }
}

/// Sets bit i of `found` where all positions of hash i are set, and clears every other bit.
pub fn contains_hashes(words: &[u64], num_hashes: u32, hashes: &[u64], found: &mut [u64])
    requires words { 8 ≤ length words.now }
    requires room { length hashes.now ≤ 64 * length found.old }
    ensures found { TellsFoundInLines (length words.now / 8) num_hashes (content words.now)
        hashes.now found.new }
    ensures shape { length found.new ≡ length found.old }
{
    clear(found);
    let turns = hashes.len().div_ceil(64);
    'turns: for turn in 0..turns {
        let at = 64 * turn;
        let end = hashes.len().min(at + 64);
        found[turn] = find_word(words, num_hashes, &hashes[at..end]);
    }
}
