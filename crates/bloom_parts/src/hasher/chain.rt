//! The chain of a source hash.
ghost use Rattle.std.specs.Prelude.{◌≡◌, ℕ, ◌+◌, ◌^◌, ◌<◌};
ghost use Rattle.bloom_parts.specs.Chain.{chain, IsAt};

/// An odd number whose bits have no pattern, as in the crate's hasher.
pub const MULTIPLIER: u64 = 0x517c_c1b7_2722_0a95;

/// The hashes that follow from one source hash, without end.
#[derive(Drop)]
pub struct DoubleHasher {
    newest: u64,
    added: u64,
}

impl DoubleHasher {
    /// The chain of a source hash, at its beginning.
    pub fn new(hash: u64) -> Self
        ensures { IsAt hash 0 result }
    {
        DoubleHasher {
            newest: hash,
            added: hash.wrapping_mul(MULTIPLIER),
        }
    }

    /// The next hash of the chain. The source hash itself comes first.
    pub fn next(&mut self) -> u64
        ensures value { (hash i : ℕ) → IsAt hash i self.old → result ≡ chain hash i }
        ensures moved { (hash i : ℕ) → IsAt hash i self.old → IsAt hash (i + 1) self.new }
        ensures range { result < 2 ^ 64 }
    {
        let hash = self.newest;
        self.newest = hash.rotate_left(5).wrapping_add(self.added);
        hash
    }
}
