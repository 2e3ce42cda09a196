//! The hash of bytes that come in pieces.
ghost use Rattle.std.specs.Prelude.{◌≡◌, ℕ, List, [], ◌++◌};
ghost use Rattle.bloom_parts.specs.HasherWords.{IsHashing};
ghost use Rattle.bloom_parts.specs.Keys.{key_low, key_high};
ghost use Rattle.bloom_parts.specs.Sip.{sip};

use bloom_parts::hasher::RandomDefaultHasher;
use std::hash::Hasher;

/// Begins: the words become those of a hasher that has the key and has taken in no bytes.
#[unsafe(no_mangle)]
pub extern "C" fn fastbloom_hasher_init(hasher: &mut [u64; 8], key: &[u8; 16])
    ensures begins { IsHashing (key_low key.now) (key_high key.now) [] hasher.new }
{
    *hasher = RandomDefaultHasher::seeded(key).to_words();
}

/// Takes in a piece of the bytes. Words that were not begun become others of no meaning.
#[unsafe(no_mangle)]
pub extern "C" fn fastbloom_hasher_update(hasher: &mut [u64; 8], bytes: &[u8])
    ensures taken { (k0 k1 : ℕ) (before : List ℕ) → IsHashing k0 k1 before hasher.old
        → IsHashing k0 k1 (before ++ bytes.now) hasher.new }
{
    let mut resumed = RandomDefaultHasher::from_words(hasher);
    resumed.write(bytes);
    *hasher = resumed.to_words();
}

/// The hash of all bytes so far, which is that of `fastbloom_hash`. More pieces may follow.
#[unsafe(no_mangle)]
pub extern "C" fn fastbloom_hasher_finish(hasher: &[u64; 8]) -> u64
    ensures hash { (k0 k1 : ℕ) (bytes : List ℕ) → IsHashing k0 k1 bytes hasher.now
        → result ≡ sip k0 k1 bytes }
{
    RandomDefaultHasher::from_words(hasher).finish()
}
