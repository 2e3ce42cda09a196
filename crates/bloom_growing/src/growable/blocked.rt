//! Blocked filters of which others consist.
use super::GrowableFilter;
use bloom_blocked::{BlockedBloomFilter, many};
use bloom_parts::error::FilterError;
use bloom_parts::hasher::DefaultHasher;
use bloom_parts::laws::content_of_words;
use bloom_parts::math::Rate;
use std::alloc::Global;

impl GrowableFilter for BlockedBloomFilter {
    ghost use Rattle.bloom_growing.specs.Kinds.{Blocked};

    ghost kind = { Blocked };

    ghost seen = { λ f. f };

    fn make(
        alloc: Global,
        rate: Rate,
        items: usize,
        hasher: DefaultHasher,
    ) -> Result<Self, FilterError> {
        let builder = BlockedBloomFilter::with_false_pos(rate).hasher(hasher);
        builder.expected_items(alloc, items)
    }

    #[inline(always)]
    fn insert_once(&mut self, hash: u64) -> bool {
        let _before = self.as_slice(); // its words are of 64 bits
        let held = self.insert_hash(hash);
        let _after = self.as_slice();
        content_of_words();
        held
    }

    #[inline(always)]
    fn contains_hash(&self, hash: u64) -> bool {
        self.contains_hash(hash)
    }

    fn looks_ahead(&self) -> bool {
        self.as_slice().len() >= many::WORDS_TO_READ_AHEAD
    }

    fn look_up(&self, hashes: &[u64], found: &mut [u64; 1]) {
        // (one position brings the line that has all of them)
        many::contains_hashes(self.as_slice(), 1, hashes, found);
    }

    fn clear(&mut self) {
        self.clear();
        let _after = self.as_slice(); // its words are of 64 bits
    }
}
