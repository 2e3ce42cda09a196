//! What the program `bloom` is to do: `arguments`, and `serve` over odd readers and writers.
mod rows;

use super::faulty::{NARROW, ROOMY, Reading, SLOW, Seen, Sink, Source, WHOLE, Writing};
use crate::row_reports::{has_text, tell_row};
use bloom_engine::{Fault, arguments, serve};
use fastbloom::{BloomFilter, FilterError};
use rows::{ARGUMENTS, Asked, FAULTS, Failing, Given, RUNS, Row};
use std::alloc::{AllocError, Global};

// A filter of this many words of zeros, with this many hashes.
fn filter_of(alloc: Global, words: usize, hashes: u32) -> Result<BloomFilter, FilterError> {
    Ok(BloomFilter::from_vec(vec![in alloc; 0u64; words]?)?.hashes(hashes))
}

/// The words after the program's name.
pub(crate) fn words_of(alloc: Global, given: &[&'static str]) -> Result<Vec<String>, AllocError> {
    let mut words = Vec::new(alloc);
    for word in given {
        words.push(word.to_string(alloc)?)?;
    }
    Ok(words)
}

// Whether a fault was to come, with this text and this status.
fn is_reported(alloc: Global, fault: &Fault, asked: &Asked) -> bool {
    match asked {
        Ok(_numbers) => false,
        Err((text, status)) => has_text(alloc, fault, text) & (fault.status() == *status),
    }
}

// Whether what comes of words is as their row says.
fn asks(alloc: Global, words: &[String], asked: &Asked) -> bool {
    match arguments(words) {
        Ok(numbers) => *asked == Ok(numbers),
        Err(fault) => is_reported(alloc, &fault, asked),
    }
}

// Whether what comes of a row's words is as the row says.
fn is_asked(alloc: Global, row: &Given) -> bool {
    match words_of(alloc, row.0) {
        Ok(words) => asks(alloc, words.as_slice(), &row.1),
        Err(_error) => false,
    }
}

#[test]
fn arguments_are_two_numbers_within_their_limits(rt: HostRuntime) {
    for (i, row) in ARGUMENTS.iter().enumerate() {
        assert!(rt; tell_row(&rt, i, is_asked(rt.alloc(), row)));
    }
}

// How a run ends, and the first word of its filter.
fn run(
    alloc: Global,
    shape: (usize, u32),
    reader: &mut Source,
    writer: &mut Sink,
) -> (Result<(), Fault>, u64) {
    let Ok(mut filter) = filter_of(alloc, shape.0, shape.1) else {
        return (Err(Fault::Memory), 0);
    };
    let ended = serve(alloc, &mut filter, reader, writer);
    let word = filter.as_slice().first().copied().unwrap_or(0);
    drop(filter);
    (ended, word)
}

// Whether a run writes this, ends so, and leaves this as the filter's first word, if that is
// reported. An end is reported once, and no reply waits while a read may wait, or at the end.
fn serves(alloc: Global, row: &Row, reading: Reading, writing: Writing, word: Option<u64>) -> bool {
    let seen = Seen::new();
    let mut reader = Source::new(row.2.as_bytes(), reading, &seen);
    let mut writer = Sink::new(alloc, writing, &seen);
    let (ended, left) = run(alloc, (row.0, row.1), &mut reader, &mut writer);
    (ended == row.4)
        & (word.unwrap_or(left) == left)
        & writer.has(row.3.as_bytes())
        & ((seen.waiting.get() == 0) | (writing.flushes <= 1))
        & (seen.ends.get() <= 1)
        & (seen.early.get() == 0)
}

// Whether a run is the same, whatever pieces its input comes in.
fn is_right(alloc: Global, row: &Row) -> bool {
    let mut all = true;
    for piece in 1..24 {
        let reading = Reading { piece, ..WHOLE };
        let slow = Reading { piece, ..SLOW };
        all &= serves(alloc, row, reading, ROOMY, None) & serves(alloc, row, slow, NARROW, None);
    }
    all
}

#[test]
fn pieces_of_input_change_no_answer(rt: HostRuntime) {
    for (i, row) in RUNS.iter().enumerate() {
        assert!(rt; tell_row(&rt, i, is_right(rt.alloc(), row)));
    }
}

// Whether a run that fails ends as its row says, whatever pieces its input comes in.
fn fails(alloc: Global, failing: &Failing) -> bool {
    let (input, reading, writing, output, fault, word) = *failing;
    let row = (1, 2, input, output, Err(fault));
    let mut all = true;
    for piece in 1..24 {
        let reading = Reading { piece, ..reading };
        all &= serves(alloc, &row, reading, writing, Some(word));
    }
    all
}

#[test]
fn a_read_a_write_or_a_flush_may_fail(rt: HostRuntime) {
    for (i, failing) in FAULTS.iter().enumerate() {
        assert!(rt; tell_row(&rt, i, fails(rt.alloc(), failing)));
    }
}
