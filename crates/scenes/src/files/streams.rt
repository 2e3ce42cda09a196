//! Files of readers and writers that take few bytes a call, are interrupted, or fail.
use crate::engines::faulty::{KINDS, NARROW, Reading, Seen, Sink, Source, Writing};
use crate::files::{WORKED, crabs, is_back, is_in_memory};
use crate::row_reports::tell_row;
use fastbloom::{BloomFilter, FileError, FilterError, FilterFile};
use std::alloc::Global;
use std::io::ErrorKind;

// The file of a filter, as far as a writer takes it that has this room and takes this many bytes a
// call, and whether it took it whole.
fn written(alloc: Global, filter: &BloomFilter, piece: usize, room: usize) -> (Vec<u8>, bool) {
    let seen = Seen::new();
    let writing = Writing {
        piece,
        room,
        ..NARROW
    };
    let mut output = Sink::new(alloc, writing, &seen);
    let is_whole = filter.write_file(&mut output).is_ok();
    (output.written, is_whole)
}

// The filter of a file, by a reader that gives this many bytes a call, and may fail where it would
// tell its end.
fn read(
    alloc: Global,
    file: &[u8],
    piece: usize,
    fails: Option<ErrorKind>,
) -> Result<BloomFilter, FileError> {
    let seen = Seen::new();
    let reading = Reading {
        piece,
        interrupts: true,
        fails,
    };
    BloomFilter::read_file(alloc, &mut Source::new(file, reading, &seen))
}

// Whether a reader and a writer that fail behind this many bytes of the worked file are reported,
// the reader by its kind. Behind all 72 bytes the reader fails instead of telling its end, and the
// writer has room.
fn are_reported(alloc: Global, filter: &BloomFilter, length: usize) -> bool {
    let beginning = &WORKED[..length.min(72)];
    let kind = KINDS[length % 6];
    let refused = read(alloc, beginning, 5, Some(kind)).err();
    let (file, is_whole) = written(alloc, filter, 3, length);
    (refused == Some(FileError::Input(kind)))
        & (file.as_slice() == beginning)
        & (is_whole == (length == 72))
}

// Whether they are, behind any number of bytes.
fn all_are_reported(rt: &HostRuntime, filter: &BloomFilter) -> bool {
    let mut all = true;
    for length in 0..=72usize {
        all &= tell_row(rt, length, are_reported(rt.alloc(), filter, length));
    }
    all
}

#[test]
fn streams_that_fail_are_reported_at_each_place(rt: HostRuntime) {
    let are_reported = match crabs(rt.alloc()) {
        Ok(filter) => all_are_reported(&rt, &filter),
        Err(_refusal) => false,
    };
    assert!(rt; are_reported);
}

// A filter of this many words, under the key of a seed, with as many items.
fn filter_of(alloc: Global, words: u64) -> Result<BloomFilter, FilterError> {
    let builder = BloomFilter::with_num_bits(alloc, words.saturating_mul(64) as usize)?;
    let mut filter = builder.seed(&42).hashes(7);
    filter.extend(0..words);
    Ok(filter)
}

// Numbers of words, and of the bytes of a call. A block has 512 words. By one byte a call a file of
// 8,800 words takes more than 2^16 reads.
const STREAMS: &'static [(u64, usize)] = &[
    (1, 1),
    (1, 63),
    (1, 64),
    (1, 65),
    (2, 7),
    (511, 1000),
    (512, 1000),
    (513, 1000),
    (1025, 1000),
    (8800, 1),
    (4097, 1000),
    (100_000, 1000),
];

// Whether a file is read as a filter, and counts as truncated without its last byte.
fn is_read(alloc: Global, file: &[u8], piece: usize, filter: &BloomFilter) -> bool {
    let cut = &file[..file.len().saturating_sub(1)];
    let refused = read(alloc, cut, piece, None).err();
    is_back(read(alloc, file, piece, None), filter) & (refused == Some(FileError::Cut))
}

// Whether a filter is read back from its file, and not from the file without its last byte.
fn is_written_and_read(alloc: Global, filter: &BloomFilter, piece: usize) -> bool {
    let (file, is_whole) = written(alloc, filter, piece, usize::MAX);
    let is_same = is_in_memory(alloc, filter, file.as_slice());
    is_whole & is_same & is_read(alloc, file.as_slice(), piece, filter)
}

// The same of a filter of this many words.
fn comes_back(alloc: Global, words: u64, piece: usize) -> bool {
    match filter_of(alloc, words) {
        Ok(filter) => is_written_and_read(alloc, &filter, piece),
        Err(_refusal) => false,
    }
}

#[test]
fn filters_come_back_in_pieces_and_cut_files_do_not(rt: HostRuntime) {
    for (i, (words, piece)) in STREAMS.iter().enumerate() {
        assert!(rt; tell_row(&rt, i, comes_back(rt.alloc(), *words, *piece)));
    }
}
