//! Plain filters of which others consist.
use super::GrowableFilter;
use bloom_parts::error::FilterError;
use bloom_parts::hasher::DefaultHasher;
use bloom_parts::laws::content_of_words;
use bloom_parts::math::Rate;
use bloom_plain::BloomFilter;
use std::alloc::Global;

impl GrowableFilter for BloomFilter {
    ghost use Rattle.bloom_growing.specs.Kinds.{Plain};

    ghost kind = { Plain };

    ghost seen = { λ f. f };

    fn make(
        alloc: Global,
        rate: Rate,
        items: usize,
        hasher: DefaultHasher,
    ) -> Result<Self, FilterError> {
        let builder = BloomFilter::with_false_pos(rate).hasher(hasher);
        builder.expected_items(alloc, items)
    }

    #[inline(always)]
    fn insert_once(&mut self, hash: u64) -> bool {
        let _before = self.as_slice(); // its words are of 64 bits
        let held = self.insert_hash(hash);
        let _after = self.as_slice();
        content_of_words();
        held
    }

    #[inline(always)]
    fn contains_hash(&self, hash: u64) -> bool {
        self.contains_hash(hash)
    }

    // So many positions of an item in several filters wait for one another anyway.
    fn looks_ahead(&self) -> bool {
        false
    }

    fn look_up(&self, hashes: &[u64], found: &mut [u64; 1]) {
        self.contains_hashes(hashes, found);
    }

    fn clear(&mut self) {
        self.clear();
        let _after = self.as_slice(); // its words are of 64 bits
    }
}
