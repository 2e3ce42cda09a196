//! A hasher as eight words, which its owner keeps from one piece of a message to the next.
ghost use Rattle.std.specs.Prelude.{◌≡◌, ℕ, ◌%◌, List, take};
ghost use Rattle.std.specs.Int.{w64, to_le_bytes};
ghost use Rattle.bloom_parts.specs.Buffers.{AreBytes, IsPadded, held_in};
ghost use Rattle.bloom_parts.specs.Hashed.{Hashed};
ghost use Rattle.bloom_parts.specs.HasherWords.{IsHashing};

use super::RandomDefaultHasher;
use super::state::State;

// The first bytes of a word, as many as count where this many have been taken in, and zeros behind
// them.
#[inline(always)]
fn first_bytes(word: u64, count: u64) -> [u8; 8]
    ensures padding { IsPadded result count }
    ensures held { held_in result count ≡ take (count % 8) (to_le_bytes w64 word) }
{
    let mask = (1u64 << (8 * (count % 8))) - 1;
    (word & mask).to_le_bytes()
}

impl RandomDefaultHasher {
    /// The hasher of which `to_words` gave these words. Other words are those of some hasher too.
    #[inline]
    pub fn from_words(words: &[u64; 8]) -> Self
        ensures hasher { (k0 k1 : ℕ) (bytes : List ℕ)
            → IsHashing k0 k1 bytes words.now → Hashed result k0 k1 bytes }
    {
        let [k0, k1, v0, v1, v2, v3, word, count] = *words;
        RandomDefaultHasher {
            k0,
            k1,
            state: State { v0, v1, v2, v3 },
            rest: first_bytes(word, count % 256),
            length: count % 256,
        }
    }

    /// The words from which `from_words` makes this hasher again.
    #[inline]
    pub fn to_words(&self) -> [u64; 8]
        ensures words { (k0 k1 : ℕ) (bytes : List ℕ)
            → AreBytes bytes → Hashed self.now k0 k1 bytes → IsHashing k0 k1 bytes result }
    {
        let State { v0, v1, v2, v3 } = self.state;
        let word = u64::from_le_bytes(self.rest);
        [self.k0, self.k1, v0, v1, v2, v3, word, self.length]
    }
}
