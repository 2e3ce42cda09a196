//! A reader and a writer that fail, or that give and take their bytes oddly.
use std::alloc::Global;
use std::cell::Cell;
use std::io;
use std::io::{ErrorKind, Read, Write};

/// How a reader gives its bytes.
#[derive(Clone, Copy)]
pub(crate) struct Reading {
    /// The most bytes of a read.
    pub(crate) piece: usize,
    /// Whether five interrupted reads come before each.
    pub(crate) interrupts: bool,
    /// Why it fails where it would tell its end, if it does.
    pub(crate) fails: Option<ErrorKind>,
}

/// A reader that gives all at once.
pub(crate) const WHOLE: Reading = Reading {
    piece: 65536,
    interrupts: false,
    fails: None,
};

/// A reader that gives sixteen bytes a read, and so the beginning of a line behind another.
pub(crate) const HALVES: Reading = Reading { piece: 16, ..WHOLE };

/// A reader that gives a byte a read, with interrupted reads before each.
pub(crate) const SLOW: Reading = Reading {
    piece: 1,
    interrupts: true,
    fails: None,
};

/// The same, but it fails where it would tell its end.
pub(crate) const FAILING: Reading = Reading {
    fails: Some(ErrorKind::BrokenPipe),
    ..SLOW
};

/// Kinds of failed reads, each of which has to be reported as itself.
pub(crate) const KINDS: [ErrorKind; 6] = [
    ErrorKind::BrokenPipe,
    ErrorKind::NotFound,
    ErrorKind::PermissionDenied,
    ErrorKind::TimedOut,
    ErrorKind::UnexpectedEof,
    ErrorKind::Other,
];

/// What is seen of the readers and the writer of a run.
#[derive(Drop)]
pub(crate) struct Seen {
    /// How many bytes were written and not flushed.
    pub(crate) waiting: Cell<usize>,
    /// How many ends were told, or failures instead of one.
    pub(crate) ends: Cell<usize>,
    /// How many reads and opens came while what was written waited for a flush.
    pub(crate) early: Cell<usize>,
    /// How many reads came behind an end.
    pub(crate) late: Cell<usize>,
}

impl Seen {
    pub(crate) fn new() -> Self {
        Seen {
            waiting: Cell::new(0),
            ends: Cell::new(0),
            early: Cell::new(0),
            late: Cell::new(0),
        }
    }

    /// Counts a read or an open if what was written waits for a flush.
    pub(crate) fn note_read(&self) {
        if self.waiting.get() > 0 {
            self.early.set(self.early.get().saturating_add(1));
        }
    }
}

// What a reader gives that is asked again after its end.
const LATER: &[u8] = b" 1\nx\n";

/// Gives its bytes as its settings say, and others after the end that it tells.
#[derive(Drop)]
pub(crate) struct Source<'a> {
    rest: &'a [u8],
    reading: Reading,
    interrupted: u8,
    is_ended: bool,
    seen: &'a Seen,
}

impl<'a> Source<'a> {
    pub(crate) fn new(rest: &'a [u8], reading: Reading, seen: &'a Seen) -> Self {
        Source {
            rest,
            reading,
            interrupted: 0,
            is_ended: false,
            seen,
        }
    }

    fn end(&mut self) -> io::Result<()> {
        self.seen.ends.set(self.seen.ends.get().saturating_add(1));
        if let Some(kind) = self.reading.fails {
            return Err(kind.into());
        }
        self.rest = LATER;
        self.is_ended = true;
        Ok(())
    }
}

impl<'a> Read for Source<'a> {
    fn read(&mut self, buf: &mut [u8]) -> io::Result<usize> {
        self.seen.note_read();
        if self.is_ended {
            self.seen.late.set(self.seen.late.get().saturating_add(1));
        }
        self.interrupted = self.interrupted.wrapping_add(1) % 6;
        if self.reading.interrupts && self.interrupted > 0 {
            return Err(ErrorKind::Interrupted.into());
        }
        let count = self.rest.len().min(buf.len()).min(self.reading.piece);
        if count == 0 {
            self.end()?;
            return Ok(0);
        }
        buf[..count].copy_from_slice(&self.rest[..count]);
        self.rest = &self.rest[count..];
        Ok(count)
    }
}

/// How a writer takes its bytes.
#[derive(Clone, Copy)]
pub(crate) struct Writing {
    /// The most bytes of a write.
    pub(crate) piece: usize,
    /// The most bytes of all.
    pub(crate) room: usize,
    /// Whether five interrupted writes come before each.
    pub(crate) interrupts: bool,
    /// Whether it takes nothing where no room is left, instead of an error.
    pub(crate) takes_none: bool,
    /// The most flushes that don't fail.
    pub(crate) flushes: usize,
}

/// A writer that takes all.
pub(crate) const ROOMY: Writing = Writing {
    piece: 65536,
    room: 1 << 40,
    interrupts: false,
    takes_none: false,
    flushes: 1 << 40,
};

/// A writer that takes a byte a write, with interrupted writes before each.
pub(crate) const NARROW: Writing = Writing {
    piece: 1,
    interrupts: true,
    ..ROOMY
};

/// A writer whose first write fails.
pub(crate) const SHUT: Writing = Writing { room: 0, ..ROOMY };

/// A writer that takes a byte a write, with interrupted writes before each. It fails behind three
/// bytes.
pub(crate) const FULL: Writing = Writing { room: 3, ..NARROW };

/// The same, but it takes nothing behind three bytes.
pub(crate) const STUCK: Writing = Writing {
    takes_none: true,
    ..FULL
};

/// A writer whose first flush fails.
pub(crate) const UNFLUSHED: Writing = Writing {
    flushes: 0,
    ..ROOMY
};

/// A writer whose second flush fails.
pub(crate) const FLUSHED_ONCE: Writing = Writing {
    flushes: 1,
    ..ROOMY
};

/// Takes bytes as its settings say.
#[derive(Drop)]
pub(crate) struct Sink<'a> {
    pub(crate) written: Vec<u8>,
    writing: Writing,
    interrupted: u8,
    seen: &'a Seen,
}

impl<'a> Sink<'a> {
    pub(crate) fn new(alloc: Global, writing: Writing, seen: &'a Seen) -> Self {
        Sink {
            written: Vec::new(alloc),
            writing,
            interrupted: 0,
            seen,
        }
    }

    /// Whether this is what was written.
    pub(crate) fn has(&self, bytes: &[u8]) -> bool {
        self.written.as_slice() == bytes
    }
}

impl<'a> Write for Sink<'a> {
    fn write(&mut self, buf: &[u8]) -> io::Result<usize> {
        self.interrupted = self.interrupted.wrapping_add(1) % 6;
        if self.writing.interrupts && self.interrupted > 0 {
            return Err(ErrorKind::Interrupted.into());
        }
        let room = self.writing.room.saturating_sub(self.written.len());
        if room == 0 && !self.writing.takes_none {
            return Err(ErrorKind::StorageFull.into());
        }
        let count = buf.len().min(self.writing.piece).min(room);
        self.written.extend_from_slice(&buf[..count])?;
        self.seen
            .waiting
            .set(self.seen.waiting.get().saturating_add(count));
        Ok(count)
    }

    fn flush(&mut self) -> io::Result<()> {
        if self.writing.flushes == 0 {
            return Err(ErrorKind::BrokenPipe.into());
        }
        self.writing.flushes -= 1;
        self.seen.waiting.set(0);
        Ok(())
    }
}
