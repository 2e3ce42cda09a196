//! Files of filters: the worked file, and readers and writers that are odd. Files that every reader
//! refuses are tested from Python.

mod in_lines;
mod streams;

use fastbloom::{BloomFilter, DefaultHasher, FileError, FilterError, FilterFile, Text};
use std::alloc::Global;

// The worked file of docs/FILE.md, as a program in Python makes it.
const WORKED: [u8; 72] = [
    102, 98, 108, 111, 111, 109, 0, 49, 3, 0, 0, 0, 0, 0, 0, 0, 1, 0, 0, 0, 0, 0, 0, 0, 0, 1, 2, 3,
    4, 5, 6, 7, 8, 9, 10, 11, 12, 13, 14, 15, 168, 27, 10, 212, 238, 141, 157, 93, 0, 0, 0, 0, 0,
    0, 0, 0, 0, 0, 0, 0, 0, 0, 0, 0, 0, 20, 0, 64, 128, 0, 128, 16,
];

// Its key, of the bytes 0 to 15.
const KEY: (u64, u64) = (0x0706_0504_0302_0100, 0x0f0e_0d0c_0b0a_0908);

// The filter of one word and 3 hashes into which two texts were inserted.
fn crabs(alloc: Global) -> Result<BloomFilter, FilterError> {
    let hasher = DefaultHasher::keyed(KEY.0, KEY.1);
    let builder = BloomFilter::with_num_bits(alloc, 64)?.hasher(hasher);
    let mut filter = builder.hashes(3);
    filter.insert(&Text(b"crab".as_slice()));
    filter.insert(&Text(b"lobster".as_slice()));
    Ok(filter)
}

// Whether what was read is a filter, with its key.
fn is_back(read: Result<BloomFilter, FileError>, filter: &BloomFilter) -> bool {
    match read {
        Ok(back) => (back == *filter) & (back.hasher().key() == filter.hasher().key()),
        Err(_refusal) => false,
    }
}

// Whether these are the bytes of a filter in memory, and the filter comes back from them.
fn is_in_memory(alloc: Global, filter: &BloomFilter, file: &[u8]) -> bool {
    let is_written = match filter.to_bytes(alloc) {
        Ok(bytes) => bytes.as_slice() == file,
        Err(_refusal) => false,
    };
    is_written & is_back(BloomFilter::from_bytes(alloc, file), filter)
}

// Whether the worked file is that of its filter.
fn is_worked(alloc: Global) -> bool {
    match crabs(alloc) {
        Ok(filter) => is_in_memory(alloc, &filter, &WORKED),
        Err(_refusal) => false,
    }
}

#[test]
fn the_worked_file_is_written_and_read(rt: HostRuntime) {
    assert!(rt; is_worked(rt.alloc()));
}
