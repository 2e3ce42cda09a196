//! Files of blocked filters: the worked file, and others.
use crate::files::KEY;
use crate::row_reports::tell_row;
use bloom_blocked::BlockedBloomFilter;
use fastbloom::{BloomFilter, DefaultHasher, FileError, FilterError, FilterFile, Text};
use std::alloc::Global;

// The worked file of lines of docs/FILE.md, as a program in Python makes it.
const WORKED: [u8; 128] = [
    102, 98, 108, 111, 111, 109, 0, 49, 3, 0, 0, 0, 0, 0, 0, 0, 8, 0, 0, 0, 0, 0, 0, 0, 0, 1, 2, 3,
    4, 5, 6, 7, 8, 9, 10, 11, 12, 13, 14, 15, 203, 147, 242, 208, 198, 136, 251, 244, 1, 0, 0, 0,
    0, 0, 0, 0, 0, 0, 0, 0, 0, 0, 0, 0, 0, 0, 0, 0, 0, 0, 0, 0, 0, 0, 0, 0, 0, 4, 0, 0, 0, 0, 0, 0,
    0, 0, 0, 0, 0, 0, 0, 0, 0, 0, 0, 1, 128, 0, 2, 16, 0, 0, 0, 0, 0, 0, 0, 64, 0, 0, 0, 0, 0, 0,
    0, 0, 0, 0, 0, 0, 0, 0, 0, 0, 0, 0, 0, 0,
];

// The filter of this many lines and 3 hashes into which two texts were inserted.
fn crabs(alloc: Global, lines: usize) -> Result<BlockedBloomFilter, FilterError> {
    let hasher = DefaultHasher::keyed(KEY.0, KEY.1);
    let builder = BlockedBloomFilter::with_num_bits(alloc, lines.saturating_mul(512))?;
    let mut filter = builder.hasher(hasher).hashes(3);
    filter.insert(&Text(b"crab".as_slice()));
    filter.insert(&Text(b"lobster".as_slice()));
    Ok(filter)
}

// Whether what was read is a filter, with its key.
fn is_back(read: Result<BlockedBloomFilter, FileError>, filter: &BlockedBloomFilter) -> bool {
    match read {
        Ok(back) => (back == *filter) & (back.hasher().key() == KEY),
        Err(_refusal) => false,
    }
}

// Whether a filter comes back from its file in memory, which is the worked one where that is said.
fn comes_back(alloc: Global, filter: &BlockedBloomFilter, is_worked: bool) -> bool {
    match filter.to_bytes(alloc) {
        Ok(file) => {
            let is_right = !is_worked | (file.as_slice() == WORKED.as_slice());
            is_right
                & is_back(
                    BlockedBloomFilter::from_bytes(alloc, file.as_slice()),
                    filter,
                )
        }
        Err(_refusal) => false,
    }
}

// Whether it comes back from the file that it is written to.
fn comes_back_by_stream(alloc: Global, filter: &BlockedBloomFilter) -> bool {
    let mut output = Vec::new(alloc);
    let is_written = filter.write_file(&mut output).is_ok();
    let mut input = output.as_slice();
    let read = BlockedBloomFilter::read_file(alloc, &mut input);
    is_written & is_back(read, filter) & input.is_empty()
}

// Whether a filter of this many lines comes back both ways.
fn is_kept(alloc: Global, lines: usize) -> bool {
    match crabs(alloc, lines) {
        Ok(filter) => {
            comes_back(alloc, &filter, lines == 1) & comes_back_by_stream(alloc, &filter)
        }
        Err(_refusal) => false,
    }
}

// A block has 64 lines.
#[test]
fn blocked_filters_come_back_from_their_files(rt: HostRuntime) {
    for lines in [1, 2, 64, 513] {
        assert!(rt; tell_row(&rt, lines, is_kept(rt.alloc(), lines)));
    }
}
