//! What calls on files, and the programs' engines, ask of their readers and writers: each open,
//! each read by its room, each write by its length, and each flush of what waits, in order. Nothing
//! else is asked.
mod programs;
mod rows;

use crate::row_reports::tell_row;
use fastbloom::{BlockedBloomFilter, BloomFilter, FileError, FilterError, FilterFile};
use rows::{FILES, File, TEXT};
use std::alloc::Global;
use std::cell::Cell;
use std::io;
use std::io::{Read, Write};
use summaries_engine::{load, put};

/// What a reader or a writer is asked.
#[derive(Clone, Copy, PartialEq, Eq)]
pub(crate) enum Asked {
    /// The next input.
    Open,
    /// A read with room for so many bytes.
    Read(usize),
    /// A write of so many bytes.
    Write(usize),
    Flush,
}

// What is to be asked, how much was asked, whether it was that, and whether a write waits for a
// flush.
#[derive(Drop)]
struct Notes {
    wanted: &'static [Asked],
    count: Cell<usize>,
    is_wanted: Cell<bool>,
    waits: Cell<bool>,
}

impl Notes {
    fn new(wanted: &'static [Asked]) -> Self {
        Notes {
            wanted,
            count: Cell::new(0),
            is_wanted: Cell::new(true),
            waits: Cell::new(false),
        }
    }

    // Whether all that was wanted was asked, and nothing else.
    fn are_right(&self) -> bool {
        self.is_wanted.get() & (self.count.get() == self.wanted.len())
    }

    // A reader of bytes, at most so many a read, and a writer.
    fn desk<'a>(&'a self, rest: &'a [u8], piece: usize) -> Desk<'a> {
        Desk {
            rest,
            piece,
            notes: self,
        }
    }

    fn note(&self, asked: Asked) {
        let at = self.count.get();
        let is_right = self.wanted.get(at).copied() == Some(asked);
        self.is_wanted.set(self.is_wanted.get() & is_right);
        self.count.set(at.saturating_add(1));
    }
}

// Gives bytes, at most so many a read, and takes all that is written.
#[derive(Drop)]
struct Desk<'a> {
    rest: &'a [u8],
    piece: usize,
    notes: &'a Notes,
}

impl<'a> Read for Desk<'a> {
    fn read(&mut self, buf: &mut [u8]) -> io::Result<usize> {
        self.notes.note(Asked::Read(buf.len()));
        let count = self.rest.len().min(buf.len()).min(self.piece);
        buf[..count].copy_from_slice(&self.rest[..count]);
        self.rest = &self.rest[count..];
        Ok(count)
    }
}

impl<'a> Write for Desk<'a> {
    fn write(&mut self, buf: &[u8]) -> io::Result<usize> {
        self.notes.note(Asked::Write(buf.len()));
        self.notes.waits.set(true);
        Ok(buf.len())
    }

    fn flush(&mut self) -> io::Result<()> {
        if self.notes.waits.replace(false) {
            self.notes.note(Asked::Flush);
        }
        Ok(())
    }
}

// Whether a file is written, and read in pieces, as its row says.
fn is_kept<F: FilterFile>(alloc: Global, filter: &F, row: &File) -> Result<bool, FileError> {
    let (_words, piece, written, read) = *row;
    let notes = Notes::new(written);
    let is_written = filter.write_file(&mut notes.desk(&[], 0)).is_ok() & notes.are_right();
    let Ok(file) = filter.to_bytes(alloc) else {
        return Err(FileError::Memory);
    };
    let notes = Notes::new(read);
    drop(F::read_file(alloc, &mut notes.desk(file.as_slice(), piece))?);
    let is_read = notes.are_right();
    let notes = Notes::new(read);
    let is_loaded = load(alloc, "file", 2, &mut notes.desk(file.as_slice(), piece)).is_ok();
    Ok(is_written & is_read & is_loaded & notes.are_right())
}

// The same of a Bloom filter and of a blocked one with as many words.
fn are_kept(alloc: Global, row: &File) -> Result<bool, FileError> {
    let Ok(plain) = BloomFilter::with_num_bits(alloc, row.0.saturating_mul(64)) else {
        return Ok(false);
    };
    let is_plain = is_kept(alloc, &plain.hashes(2), row)?;
    let Ok(lines) = BlockedBloomFilter::with_num_bits(alloc, row.0.saturating_mul(64)) else {
        return Ok(false);
    };
    Ok(is_plain & is_kept(alloc, &lines.hashes(2), row)?)
}

#[test]
fn files_are_written_and_read_by_blocks(rt: HostRuntime) {
    for (i, row) in FILES.iter().enumerate() {
        assert!(rt; tell_row(&rt, i, are_kept(rt.alloc(), row) == Ok(true)));
    }
}

// Whether the text of a filter of one word is written as it is to be.
fn is_text(alloc: Global) -> Result<bool, FilterError> {
    let filter = BloomFilter::with_num_bits(alloc, 64)?.hashes(2);
    let notes = Notes::new(TEXT);
    Ok(put(alloc, &filter, &mut notes.desk(&[], 0)).is_ok() & notes.are_right())
}

#[test]
fn a_text_is_written_at_once(rt: HostRuntime) {
    assert!(rt; matches!(is_text(rt.alloc()), Ok(true)));
}
