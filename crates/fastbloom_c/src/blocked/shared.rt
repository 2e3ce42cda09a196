//! Calls by hash, and by the bytes of an item, on a blocked filter that threads share.
//!
//! Each call is made of atomic operations on the words of one line, as the clauses say. Where there
//! are fewer than eight words, or more than 2^58 - 1, a call returns false and does nothing.
//! `num_hashes` 0 counts as 1.
ghost use Rattle.std.specs.Prelude.{◌≡◌, ◌↔◌, ◌<◌, false, IsTrue, max};
ghost use Rattle.bloom_parts.specs.Keys.{key_low, key_high};
ghost use Rattle.bloom_parts.specs.Sip.{sip};
ghost use Rattle.bloom_blocked.specs.LineSteps.{LooksInLine, SetsInLine};
ghost use Rattle.fastbloom_c.specs.Passed.{MakeLines, vector_of};

use crate::lent::LentWords;
use crate::passed_words::PassedWords;
use crate::texts::fastbloom_hash;
use bloom_blocked::by_hash::LINE;
use bloom_blocked::line::{look_up_in_line, set_in_line};
use bloom_parts::bit_vector::MAX_WORDS;

/// Sets all positions of a hash, and returns whether its own steps found all of them set already.
/// So it returns false exactly if it set a bit itself. It makes one step for each word of the line
/// that has positions.
#[unsafe(no_mangle)]
pub extern "C" fn fastbloom_blocked_shared_insert_hash(
    words: PassedWords,
    num_hashes: u32,
    hash: u64,
) -> bool
    ensures made { MakeLines words.len
        → SetsInLine (vector_of words.at words.len) (max 1 num_hashes) hash result }
    ensures none { (MakeLines words.len → ⊥) → result ≡ false }
{
    let Some(words) = words.lines() else {
        return false;
    };
    set_in_line(&LentWords::new(&words), num_hashes.max(1), hash)
}

/// Whether all positions of a hash were found set, one after the other, up to the first that isn't.
#[unsafe(no_mangle)]
pub extern "C" fn fastbloom_blocked_shared_contains_hash(
    words: PassedWords,
    num_hashes: u32,
    hash: u64,
) -> bool
    ensures made { MakeLines words.len
        → LooksInLine (vector_of words.at words.len) (max 1 num_hashes) hash result }
    ensures none { (MakeLines words.len → ⊥) → result ≡ false }
{
    let Some(words) = words.lines() else {
        return false;
    };
    look_up_in_line(&LentWords::new(&words), num_hashes.max(1), hash)
}

/// Inserts the hash of bytes, and returns whether its own steps found all positions set already.
#[unsafe(no_mangle)]
pub extern "C" fn fastbloom_blocked_shared_insert(
    words: PassedWords,
    num_hashes: u32,
    key: &[u8; 16],
    bytes: &[u8],
) -> bool
    ensures made { let hash = sip (key_low key.now) (key_high key.now) bytes.now in
        MakeLines words.len
        → SetsInLine (vector_of words.at words.len) (max 1 num_hashes) hash result }
    ensures none { (MakeLines words.len → ⊥) → result ≡ false }
{
    fastbloom_blocked_shared_insert_hash(words, num_hashes, fastbloom_hash(key, bytes))
}

/// Whether all positions of the hash of bytes were found set.
#[unsafe(no_mangle)]
pub extern "C" fn fastbloom_blocked_shared_contains(
    words: PassedWords,
    num_hashes: u32,
    key: &[u8; 16],
    bytes: &[u8],
) -> bool
    ensures made { let hash = sip (key_low key.now) (key_high key.now) bytes.now in
        MakeLines words.len
        → LooksInLine (vector_of words.at words.len) (max 1 num_hashes) hash result }
    ensures none { (MakeLines words.len → ⊥) → result ≡ false }
{
    fastbloom_blocked_shared_contains_hash(words, num_hashes, fastbloom_hash(key, bytes))
}
