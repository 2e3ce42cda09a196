//! A filter that rotates as a sieve, which tells of the last lines of an input without end.
ghost use Rattle.std.specs.Prelude.{Some, refl};
ghost use Rattle.duplicates_engine.specs.Plain.{IsLineHash};
ghost use Rattle.duplicates_engine.specs.Rotating.{rotating_recalls, rotating_receives};

use crate::sieve::Sieve;
use bloom_growing::laws::rotating_recent_stays_found;
use bloom_growing::{GrowableFilter, GrowingError, RotatingFilterOf};
use bloom_plain::{DefaultHasher, RandomDefaultHasher, Text};
use std::alloc::Global;
use std::hash::{BuildHasher, Hasher};

/// A line stands in a filter that rotates by the hash of its bytes.
impl<F: GrowableFilter> Sieve for RotatingFilterOf<F> {
    ghost span = { λ r. Some r.setup.room };

    ghost recalls = { rotating_recalls F.kind ⟦<RandomDefaultHasher as Hasher>⟧
        ⟦<DefaultHasher as BuildHasher>⟧.build_hasher };

    ghost sifts = { rotating_receives F.kind ⟦<RandomDefaultHasher as Hasher>⟧
        ⟦<DefaultHasher as BuildHasher>⟧.build_hasher };

    // No line is refused.
    ghost refuses = { λ _ _ _. ⊥ };

    ghost has_hash = { λ r. IsLineHash ⟦<RandomDefaultHasher as Hasher>⟧
        ⟦<DefaultHasher as BuildHasher>⟧.build_hasher r.setup.hasher };

    fn hash_of(&self, line: &[u8]) -> u64 {
        self.source_hash(&Text(line))
    }

    fn looks_ahead(&self) -> bool {
        self.newer().looks_ahead()
    }

    fn look_up(&self, hashes: &[u64], found: &mut [u64; 1]) {
        self.older().look_up(hashes, found);
        self.newer().look_up(hashes, found);
    }

    #[inline(always)]
    fn sift(&mut self, _alloc: Global, _line: &[u8], hash: u64) -> Result<bool, GrowingError> {
        rotating_recent_stays_found::<DefaultHasher>();
        Ok(self.insert_hash(hash))
    }

    ghost none = { λ r. (r, refl) };
}
