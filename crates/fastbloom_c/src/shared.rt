//! Calls by hash, and by the bytes of an item, on words that threads share.
//!
//! C passes these words by value, as a pointer and a number, and any thread may call while others
//! do. Each call is made of atomic operations on single words, as the clauses say. `num_hashes` 0
//! counts as 1. Where there are no words, or more than 2^58 - 1, a call returns false and does
//! nothing. None takes a lock or waits for a thread: an insert's `|` on a word is tried again only
//! where another thread changed that word in between.
ghost use Rattle.std.specs.Prelude.{◌≡◌, ◌↔◌, ◌≤◌, false, IsTrue, Some, max, nat_lt};
ghost use Rattle.bloom_parts.specs.Keys.{key_low, key_high};
ghost use Rattle.bloom_parts.specs.Sip.{sip};
ghost use Rattle.bloom_steps.specs.declared.steps.vocabulary.Call.TheVariants.{Contains, Insert};
ghost use Rattle.bloom_steps.specs.LiveSteps.{MakesCallOn};
ghost use Rattle.fastbloom_c.specs.Passed.{MakeFilter, vector_of};

use crate::lent::LentWords;
use crate::passed_words::{PassedWords, RawWords};
use crate::texts::fastbloom_hash;
use bloom_parts::bit_vector::MAX_WORDS;
use bloom_steps::calls::{contains_hash, insert_hash};

/// Sets all positions of a hash, and returns whether its own steps found all of them set already.
/// So it returns false exactly if it set a bit itself.
#[unsafe(no_mangle)]
pub extern "C" fn fastbloom_shared_insert_hash(
    words: PassedWords,
    num_hashes: u32,
    hash: u64,
) -> bool
    ensures made { MakeFilter words.len
        → MakesCallOn (vector_of words.at words.len) (vector_of words.at words.len)
        (max 1 num_hashes) (Insert hash) (Some result) }
    ensures none { (MakeFilter words.len → ⊥) → result ≡ false }
{
    let Some(words) = words.filter() else {
        return false;
    };
    insert_hash(&LentWords::new(&words), num_hashes.max(1), hash)
}

// Returns the number of hashes if all positions of a hash were found set, one after the other, and
// else 0. It is a number, made in a function of its own: a loop that gives the `bool` itself keeps
// each position's bit as a byte, which takes half as long again.
#[inline(never)]
pub(crate) fn found_hashes(words: &RawWords, num_hashes: u32, hash: u64) -> u32
    requires filter { MakeFilter words.now.len }
    requires hashes { 1 ≤ num_hashes }
    ensures { let vector = vector_of words.now.at words.now.len in
        MakesCallOn vector vector num_hashes (Contains hash) (Some (nat_lt 0 result)) }
{
    if contains_hash(&LentWords::new(words), num_hashes, hash) {
        num_hashes
    } else {
        0
    }
}

// The same, of words that it is given, so that they stay in registers.
#[inline(never)]
fn found_hashes_of(words: RawWords, num_hashes: u32, hash: u64) -> u32
    requires filter { MakeFilter words.len }
    requires hashes { 1 ≤ num_hashes }
    ensures { let vector = vector_of words.at words.len in
        MakesCallOn vector vector num_hashes (Contains hash) (Some (nat_lt 0 result)) }
{
    if contains_hash(&LentWords::new(&words), num_hashes, hash) {
        num_hashes
    } else {
        0
    }
}

/// Whether all positions of a hash were found set, one after the other, up to the first that isn't.
#[unsafe(no_mangle)]
pub extern "C" fn fastbloom_shared_contains_hash(
    words: PassedWords,
    num_hashes: u32,
    hash: u64,
) -> bool
    ensures made { MakeFilter words.len
        → MakesCallOn (vector_of words.at words.len) (vector_of words.at words.len)
        (max 1 num_hashes) (Contains hash) (Some result) }
    ensures none { (MakeFilter words.len → ⊥) → result ≡ false }
{
    let Some(words) = words.filter() else {
        return false;
    };
    found_hashes_of(words, num_hashes.max(1), hash) > 0
}

/// Inserts the hash of bytes, and returns whether its own steps found all positions set already.
#[unsafe(no_mangle)]
pub extern "C" fn fastbloom_shared_insert(
    words: PassedWords,
    num_hashes: u32,
    key: &[u8; 16],
    bytes: &[u8],
) -> bool
    ensures made { let hash = sip (key_low key.now) (key_high key.now) bytes.now in
        MakeFilter words.len
        → MakesCallOn (vector_of words.at words.len) (vector_of words.at words.len)
        (max 1 num_hashes) (Insert hash) (Some result) }
    ensures none { (MakeFilter words.len → ⊥) → result ≡ false }
{
    fastbloom_shared_insert_hash(words, num_hashes, fastbloom_hash(key, bytes))
}

/// Whether all positions of the hash of bytes were found set.
#[unsafe(no_mangle)]
pub extern "C" fn fastbloom_shared_contains(
    words: PassedWords,
    num_hashes: u32,
    key: &[u8; 16],
    bytes: &[u8],
) -> bool
    ensures made { let hash = sip (key_low key.now) (key_high key.now) bytes.now in
        MakeFilter words.len
        → MakesCallOn (vector_of words.at words.len) (vector_of words.at words.len)
        (max 1 num_hashes) (Contains hash) (Some result) }
    ensures none { (MakeFilter words.len → ⊥) → result ≡ false }
{
    fastbloom_shared_contains_hash(words, num_hashes, fastbloom_hash(key, bytes))
}
