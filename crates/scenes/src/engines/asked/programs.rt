//! The programs' engines, each over one input.
use super::rows::{Engine, ROWS, Row};
use super::{Asked, Desk, Notes};
use crate::engines::duplicates::odd::Heard;
use crate::row_reports::tell_row;
use bloom_engine::serve;
use duplicates_engine::{Options, Written, keep_new};
use fastbloom::{BloomFilter, FilterError};
use std::alloc::Global;
use std::io;
use std::thread::Threads;
use summaries_engine::{AnyFilter, Stop, Wanted, ask, build, build_alone, classic_with_bits};

// The one input of a row.
#[derive(Drop)]
struct Input<'a> {
    text: Option<&'a [u8]>,
    piece: usize,
    notes: &'a Notes,
}

impl<'a> Input<'a> {
    fn new(row: &Row, notes: &'a Notes) -> Self {
        Input {
            text: Some(row.1.as_bytes()),
            piece: row.2,
            notes,
        }
    }
}

impl<'a> duplicates_engine::Inputs for Input<'a> {
    ghost use Rattle.std.specs.Prelude.{None};

    type Input = Desk<'a>;

    ghost coming = { λ _. None };

    ghost fails = { λ _ _ _. Unit {0} };

    fn open_next(&mut self) -> io::Result<Option<Desk<'a>>> {
        self.notes.note(Asked::Open);
        match self.text.take() {
            Some(text) => Ok(Some(self.notes.desk(text, self.piece))),
            None => Ok(None),
        }
    }
}

impl<'a> summaries_engine::Inputs for Input<'a> {
    type Input = Desk<'a>;

    ghost has = { λ input name read. Unit {0} };

    ghost fails = { λ input name stop. Unit {0} };

    fn open(&self, _name: &str) -> Result<Desk<'a>, Stop> {
        self.notes.note(Asked::Open);
        Ok(self.notes.desk(self.text.unwrap_or(b""), self.piece))
    }
}

// Whether `serve` ends well.
fn is_served(alloc: Global, row: &Row, notes: &Notes) -> Result<bool, FilterError> {
    let mut filter = BloomFilter::with_num_bits(alloc, 64)?.hashes(3);
    let mut reader = notes.desk(row.1.as_bytes(), row.2);
    let ended = serve(alloc, &mut filter, &mut reader, &mut notes.desk(&[], 0));
    Ok(ended.is_ok())
}

// Whether `keep_new` does.
fn is_kept(alloc: Global, row: &Row, notes: &Notes) -> Result<bool, FilterError> {
    let mut sieve = BloomFilter::with_num_bits(alloc, 512)?.hashes(3);
    let options = Options {
        longest: 2,
        skips_longer: true,
        written: Written::New,
        most: None,
    };
    let ended = keep_new::<BloomFilter, Input, Desk, Heard, 10>(
        alloc,
        &mut sieve,
        options,
        &mut Input::new(row, notes),
        &mut notes.desk(&[], 0),
        &mut Heard::new(alloc),
    );
    Ok(ended.is_ok())
}

// Whether `build` does.
fn is_built<R: Threads + Sync + AllocGlobal>(
    rt: &R,
    row: &Row,
    notes: &Notes,
) -> Result<bool, FilterError> {
    let empty = classic_with_bits(rt.alloc(), 64, 2, &0)?;
    let input = Input::new(row, notes);
    let built = build::<10, _, _>(rt, rt.alloc(), empty, 2, &input, &["input"]);
    Ok(built.is_ok())
}

// Whether `ask` does, of a filter with no key.
fn is_answered(alloc: Global, row: &Row, notes: &Notes) -> Result<bool, Stop> {
    let Ok(empty) = classic_with_bits(alloc, 64, 2, &0) else {
        return Err(Stop::Memory);
    };
    let input = Input::new(row, notes);
    let filter = build_alone::<10, _>(alloc, AnyFilter::Classic(empty), &input, &[])?;
    let mut output = notes.desk(&[], 0);
    let ended = ask::<10, _, _>(
        alloc,
        &filter,
        Wanted::Absent,
        &input,
        &["input"],
        &mut output,
    );
    drop(filter);
    Ok(ended.is_ok())
}

// Whether what runs ends well, and asks what its row says.
fn is_asked<R: Threads + Sync + AllocGlobal>(rt: &R, row: &Row) -> bool {
    let notes = Notes::new(row.3);
    let is_right = match row.0 {
        Engine::Serve => matches!(is_served(rt.alloc(), row, &notes), Ok(true)),
        Engine::Keep => matches!(is_kept(rt.alloc(), row, &notes), Ok(true)),
        Engine::Build => matches!(is_built(rt, row, &notes), Ok(true)),
        Engine::Ask => matches!(is_answered(rt.alloc(), row, &notes), Ok(true)),
    };
    is_right & notes.are_right()
}

#[test]
fn replies_and_lines_are_flushed_before_a_read_or_open_that_may_wait(rt: HostRuntime) {
    for (i, row) in ROWS.iter().enumerate() {
        assert!(rt; tell_row(&rt, i, is_asked(&rt, row)));
    }
}
