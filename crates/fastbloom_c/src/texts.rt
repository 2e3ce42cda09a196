//! Calls by the bytes of an item.
ghost use Rattle.std.specs.Prelude.{◌≡◌, ℕ, ◌*◌, ◌≤◌, ◌||◌, false, length, max};
ghost use Rattle.bloom_parts.specs.Content.{content};
ghost use Rattle.bloom_parts.specs.Keys.{key_low, key_high};
ghost use Rattle.bloom_parts.specs.Places.{positions, are_in};
ghost use Rattle.bloom_parts.specs.Sip.{sip};

use crate::hashes::{fastbloom_contains_hash, fastbloom_insert_hash};
use bloom_parts::hasher::RandomDefaultHasher;
use std::hash::Hasher;

/// The hash of bytes: SipHash-1-3 of just these bytes under the key, with no length before them
/// and no end after them. The item `Text` has the same hash.
#[unsafe(no_mangle)]
pub extern "C" fn fastbloom_hash(key: &[u8; 16], bytes: &[u8]) -> u64
    ensures { result ≡ sip (key_low key.now) (key_high key.now) bytes.now }
{
    let mut hasher = RandomDefaultHasher::seeded(key);
    hasher.write(bytes);
    hasher.finish()
}

/// Inserts the hash of bytes, and returns whether it was contained before.
#[unsafe(no_mangle)]
pub extern "C" fn fastbloom_insert(
    words: &mut [u64],
    num_hashes: u32,
    key: &[u8; 16],
    bytes: &[u8],
) -> bool
    ensures reply { let hash = sip (key_low key.now) (key_high key.now) bytes.now in
        result ≡ are_in (64 * length words.old) (max 1 num_hashes) hash (content words.old) }
    ensures content { let hash = sip (key_low key.now) (key_high key.now) bytes.now in
        1 ≤ length words.old → (p : ℕ) → content words.new p
        ≡ (content words.old p || positions (64 * length words.old) (max 1 num_hashes) hash p) }
    ensures shape { length words.new ≡ length words.old }
    ensures none { length words.old ≡ 0 → result ≡ false }
{
    fastbloom_insert_hash(words, num_hashes, fastbloom_hash(key, bytes))
}

/// Whether the hash of bytes is contained.
#[unsafe(no_mangle)]
pub extern "C" fn fastbloom_contains(
    words: &[u64],
    num_hashes: u32,
    key: &[u8; 16],
    bytes: &[u8],
) -> bool
    ensures found { let hash = sip (key_low key.now) (key_high key.now) bytes.now in
        result ≡ are_in (64 * length words.now) (max 1 num_hashes) hash (content words.now) }
    ensures none { length words.now ≡ 0 → result ≡ false }
{
    fastbloom_contains_hash(words, num_hashes, fastbloom_hash(key, bytes))
}
