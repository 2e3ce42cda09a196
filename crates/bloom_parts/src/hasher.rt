//! Hashers, and the chain of a hash.
ghost use Rattle.std.specs.Prelude.{◌≡◌, ℕ};
ghost use Rattle.bloom_parts.specs.Keys.{HasKey, key_of, key_low, key_high};

mod chain;
mod sip;

pub use chain::{DoubleHasher, MULTIPLIER};
pub use sip::RandomDefaultHasher;
use std::hash::{BuildHasher, Hasher};

/// Gives out copies of one hasher.
#[derive(Clone, Debug, Default, PartialEq, Eq, Drop)]
pub struct CloneBuildHasher<H: Hasher + Copy> {
    hasher: H,
}

impl<H: Hasher + Copy> BuildHasher for CloneBuildHasher<H> {
    type Hasher = H;

    ghost build_hasher = { λ builder. builder.hasher };

    #[inline]
    fn build_hasher(&self) -> H {
        self.hasher
    }
}

/// The builder of hashers of a filter that was given no other. Its default has a key of zeros.
pub type DefaultHasher = CloneBuildHasher<RandomDefaultHasher>;

impl CloneBuildHasher<RandomDefaultHasher> {
    /// The hashers that it builds have the key of these bytes.
    pub fn seeded(seed: &[u8; 16]) -> Self
        ensures { HasKey result (key_low seed.now) (key_high seed.now) }
    {
        CloneBuildHasher {
            hasher: RandomDefaultHasher::seeded(seed),
        }
    }

    /// The hashers that it builds have the key of these two little-endian words.
    pub fn keyed(k0: u64, k1: u64) -> Self
        ensures { HasKey result k0 k1 }
    {
        CloneBuildHasher {
            hasher: RandomDefaultHasher::keyed(k0, k1),
        }
    }

    /// The two little-endian words of the key.
    pub fn key(&self) -> (u64, u64)
        ensures value { result ≡ key_of self.now }
        ensures given { (k0 k1 : ℕ) → HasKey self.now k0 k1 → result ≡ (k0, k1) }
    {
        self.hasher.key()
    }
}
