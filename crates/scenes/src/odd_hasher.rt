//! A hasher that tells no items apart, in both kinds of filter.
use fastbloom::{AtomicBloomFilter, BloomFilter, FilterError};
use std::alloc::Global;
use std::hash::{BuildHasher, Hasher};

// A hasher that looks at nothing and always returns 0.
#[derive(Clone, Copy)]
struct Nothing;

impl Hasher for Nothing {
    ghost write = { λ h bytes. h };

    ghost finish = { λ h. 0 };

    fn finish(&self) -> u64 {
        0
    }

    fn write(&mut self, _bytes: &[u8]) {}
}

impl BuildHasher for Nothing {
    type Hasher = Nothing;

    ghost build_hasher = { λ h. h };

    fn build_hasher(&self) -> Nothing {
        Nothing
    }
}

// Whether an empty filter takes any item for the one that was inserted.
fn plain_finds_any(filter: &mut BloomFilter<Nothing>) -> bool {
    let is_new = !filter.contains(&1u64) & !filter.insert(&1u64);
    let finds = filter.contains(&2u64) & filter.insert(&"🦀");
    is_new & finds & (filter.as_slice() == [1].as_slice())
}

// The same of one that threads share.
fn shared_finds_any(filter: &AtomicBloomFilter<Nothing>) -> bool {
    let is_new = !filter.contains(&1u64) & !filter.insert(&1u64);
    let finds = filter.contains(&2u64) & filter.insert(&"🦀");
    is_new & finds & filter.iter().eq([1])
}

// Whether filters of one word and seven hashes do.
fn find_any(alloc: Global) -> Result<bool, FilterError> {
    let plain = BloomFilter::with_num_bits(alloc, 64)?.hasher(Nothing);
    let is_right = plain_finds_any(&mut plain.hashes(7));
    let shared = AtomicBloomFilter::with_num_bits(alloc, 64)?.hasher(Nothing);
    Ok(is_right & shared_finds_any(&shared.hashes(alloc, 7)?))
}

#[test]
fn all_items_have_hash_0_and_are_found_alike(rt: HostRuntime) {
    assert!(rt; matches!(find_any(rt.alloc()), Ok(true)));
}
