//! Another hand on a filter in use: an iterator that clears the filter between two of its items.
//! What went in before is gone, and what is inserted behind is there.
ghost use Rattle.std.specs.Prelude.{◌-◌};
ghost use Rattle.std.specs.Iterator.{at_most};

use crate::row_reports::tell_row;
use fastbloom::{
    AtomicBlockedBloomFilter, AtomicBloomFilter, BlockedBloomFilter, BloomFilter, FilterError,
};
use std::alloc::Global;

// A filter that is in use.
#[derive(Clone, Copy)]
enum Used<'a> {
    Plain(&'a AtomicBloomFilter),
    Blocked(&'a AtomicBlockedBloomFilter),
}

// The numbers up to an end. Before it gives one of them it clears the filter.
#[derive(Drop)]
struct Clearing<'a> {
    filter: Used<'a>,
    next: u64,
    clears_at: u64,
    end: u64,
}

impl<'a> Iterator for Clearing<'a> {
    type Item = u64;

    ghost remaining = { λ s. at_most (s.end - s.next) };

    fn next(&mut self) -> Option<u64> {
        if self.next >= self.end {
            return None;
        }
        if self.next == self.clears_at {
            match self.filter {
                Used::Plain(filter) => filter.clear(),
                Used::Blocked(filter) => filter.clear(),
            }
        }
        let item = self.next;
        self.next += 1;
        Some(item)
    }
}

// Numbers that go into a filter, which is cleared before one of them is given.
fn numbers_for(filter: Used<'_>, clears_at: u64) -> Clearing<'_> {
    Clearing {
        filter,
        next: 0,
        clears_at,
        end: 200,
    }
}

// The number of bits, the number before which the filter is cleared, and the first of those that
// are in it then.
type Row = (usize, u64, u64);

// Whether a Bloom filter is left with the numbers from the first on.
fn is_left(alloc: Global, row: &Row) -> Result<bool, FilterError> {
    let (bits, clears_at, first) = *row;
    let shared = AtomicBloomFilter::with_num_bits(alloc, bits)?.hashes(alloc, 3)?;
    shared.extend(numbers_for(Used::Plain(&shared), clears_at));
    let mut plain = BloomFilter::with_num_bits(alloc, bits)?.hashes(3);
    plain.extend(first..200u64);
    Ok(shared.iter().eq(plain.iter()))
}

// Whether a blocked filter is.
fn is_left_in_lines(alloc: Global, row: &Row) -> Result<bool, FilterError> {
    let (bits, clears_at, first) = *row;
    let empty = BlockedBloomFilter::with_num_bits(alloc, bits)?.hashes(3);
    let shared = AtomicBlockedBloomFilter::from_plain(alloc, empty)?;
    shared.extend(numbers_for(Used::Blocked(&shared), clears_at));
    let mut plain = BlockedBloomFilter::with_num_bits(alloc, bits)?.hashes(3);
    plain.extend(first..200u64);
    Ok(shared.iter().eq(plain.iter()))
}

// From four mebibytes on sixteen items are taken before the first of them is inserted.
const ROWS: &'static [Row] = &[
    (512, 1, 1),
    (512, 100, 100),
    ((1 << 25) - 64, 100, 100),
    (1 << 25, 40, 32),
    (1 << 25, 199, 192),
];

// In lines 64 from one mebibyte on.
const IN_LINES: &'static [Row] = &[
    (512, 1, 1),
    (512, 100, 100),
    ((1 << 23) - 512, 100, 100),
    (1 << 23, 100, 64),
    (1 << 23, 199, 192),
];

#[test]
fn each_item_goes_in_once(rt: HostRuntime) {
    for (i, row) in ROWS.iter().enumerate() {
        assert!(rt; tell_row(&rt, i, matches!(is_left(rt.alloc(), row), Ok(true))));
    }
    for (i, row) in IN_LINES.iter().enumerate() {
        assert!(rt;
            tell_row(
                &rt,
                i,
                matches!(is_left_in_lines(rt.alloc(), row), Ok(true))
            )
        );
    }
}
