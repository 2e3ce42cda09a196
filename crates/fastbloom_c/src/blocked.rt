//! Calls on a blocked filter: all positions of a hash lie in one line of eight words.
//!
//! Words behind the last whole line are no part of the filter, and no call changes them. Fewer than
//! eight words are no filter: a call returns false and changes nothing. `num_hashes` 0 counts as 1.
ghost use Rattle.std.specs.Prelude.{◌≡◌, ℕ, Bool, ◌+◌, ◌-◌, ◌*◌, ◌/◌, ◌^◌, ◌<◌, ◌≤◌, ◌||◌, true, false, length, max};
ghost use Rattle.bloom_parts.specs.Content.{content};
ghost use Rattle.bloom_parts.specs.Keys.{key_low, key_high};
ghost use Rattle.bloom_parts.specs.Sip.{sip};
ghost use Rattle.bloom_blocked.specs.Lines.{line_of, in_line, line_positions, are_in_line};

pub mod files;
pub mod many;
pub mod plans;
pub mod rates;
pub mod shared;
pub mod shared_many;

use crate::texts::fastbloom_hash;
use bloom_blocked::by_hash::{LINE, contains_hash, insert_hash, line_start};

/// The line of a hash: a number from 0 on, which stands for the words `8 * line` to `8 * line + 7`.
///
/// These eight words alone are a filter of one line, and calls on the hash do there what they do in
/// all words. So a caller may keep the lines anywhere, and have at hand only the one it needs. Of
/// fewer than eight words none is a line, and the call returns 2^64 - 1.
#[unsafe(no_mangle)]
pub extern "C" fn fastbloom_blocked_line(num_words: usize, hash: u64) -> usize
    ensures line { 8 ≤ num_words → result ≡ line_of (num_words / 8) hash }
    ensures range { 8 ≤ num_words → 8 * result + 8 ≤ num_words }
    // The line as a filter of its own contains a hash exactly if all words do.
    ensures alone { 8 ≤ num_words → (k : ℕ) (A : ℕ → Bool)
        → are_in_line 1 k hash (in_line A result) ≡ are_in_line (num_words / 8) k hash A }
    // An insert sets the same positions of the line, and none elsewhere.
    ensures here { 8 ≤ num_words → (k q : ℕ) → q < 512
        → line_positions 1 k hash q ≡ line_positions (num_words / 8) k hash (512 * result + q) }
    ensures elsewhere { 8 ≤ num_words → (k p : ℕ)
        → line_positions (num_words / 8) k hash p ≡ true → p / 512 ≡ result }
    // Words that make no line are no filter.
    ensures none { num_words < 8 → result ≡ 2 ^ 64 - 1 }
{
    if num_words < LINE {
        return usize::MAX;
    }
    let first = line_start(num_words, hash);
    first / LINE
}

/// Sets all positions of a hash, and returns whether all were set just before.
#[inline(always)]
#[unsafe(no_mangle)]
pub extern "C" fn fastbloom_blocked_insert_hash(
    words: &mut [u64],
    num_hashes: u32,
    hash: u64,
) -> bool
    ensures reply { 8 ≤ length words.old → result
        ≡ are_in_line (length words.old / 8) (max 1 num_hashes) hash (content words.old) }
    ensures content { 8 ≤ length words.old → (p : ℕ) → content words.new p ≡ (content words.old p
        || line_positions (length words.old / 8) (max 1 num_hashes) hash p) }
    ensures shape { length words.new ≡ length words.old }
    // Words that make no line are no filter.
    ensures none { length words.old < 8 → result ≡ false }
    ensures stays { length words.old < 8 → words.new ≡ words.old }
{
    if words.len() < LINE {
        return false;
    }
    insert_hash(words, num_hashes.max(1), hash)
}

/// Whether all positions of a hash are set: false means that it wasn't inserted since one of
/// them was last cleared.
#[inline(always)]
#[unsafe(no_mangle)]
pub extern "C" fn fastbloom_blocked_contains_hash(words: &[u64], num_hashes: u32, hash: u64) -> bool
    ensures found { 8 ≤ length words.now → result
        ≡ are_in_line (length words.now / 8) (max 1 num_hashes) hash (content words.now) }
    ensures none { length words.now < 8 → result ≡ false }
{
    if words.len() < LINE {
        false
    } else {
        contains_hash(words, num_hashes.max(1), hash)
    }
}

/// Inserts the hash of bytes, and returns whether it was contained just before.
#[unsafe(no_mangle)]
pub extern "C" fn fastbloom_blocked_insert(
    words: &mut [u64],
    num_hashes: u32,
    key: &[u8; 16],
    bytes: &[u8],
) -> bool
    ensures reply { let hash = sip (key_low key.now) (key_high key.now) bytes.now in
        8 ≤ length words.old → result
        ≡ are_in_line (length words.old / 8) (max 1 num_hashes) hash (content words.old) }
    ensures content { let hash = sip (key_low key.now) (key_high key.now) bytes.now in
        8 ≤ length words.old → (p : ℕ) → content words.new p ≡ (content words.old p
        || line_positions (length words.old / 8) (max 1 num_hashes) hash p) }
    ensures shape { length words.new ≡ length words.old }
    ensures none { length words.old < 8 → result ≡ false }
    ensures stays { length words.old < 8 → words.new ≡ words.old }
{
    fastbloom_blocked_insert_hash(words, num_hashes, fastbloom_hash(key, bytes))
}

/// Whether the hash of bytes is contained.
#[unsafe(no_mangle)]
pub extern "C" fn fastbloom_blocked_contains(
    words: &[u64],
    num_hashes: u32,
    key: &[u8; 16],
    bytes: &[u8],
) -> bool
    ensures found { let hash = sip (key_low key.now) (key_high key.now) bytes.now in
        8 ≤ length words.now → result
        ≡ are_in_line (length words.now / 8) (max 1 num_hashes) hash (content words.now) }
    ensures none { length words.now < 8 → result ≡ false }
{
    fastbloom_blocked_contains_hash(words, num_hashes, fastbloom_hash(key, bytes))
}
