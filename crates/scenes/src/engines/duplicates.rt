//! `keep_new` over odd readers, writers and sieves.
pub(super) mod odd;
mod rows;

use super::faulty::{KINDS, Reading, SLOW, Seen, Sink};
use crate::row_reports::tell_row;
use duplicates_engine::{Fault, Options, Tally, Total, keep_new};
use fastbloom::{BloomFilter, FilterError, Rate};
use odd::{Heard, Limited, Sources};
use rows::{PLAIN, READS, RUNS, Row, Run, WARNINGS};
use std::alloc::Global;
use std::io::ErrorKind;

// The filter of a run.
fn filter_of(alloc: Global) -> Result<BloomFilter, FilterError> {
    BloomFilter::with_false_pos(Rate::new(1, 1000)?).expected_items(alloc, 1000)
}

// How a run over a plain filter ends.
fn kept(
    alloc: Global,
    run: &Run,
    sources: &mut Sources,
    writer: &mut Sink,
    heard: &mut Heard,
) -> Result<Total, Fault> {
    let Ok(sieve) = filter_of(alloc) else {
        return Err(Fault::Memory);
    };
    let mut sieve = Limited {
        sieve,
        lines: run.lines,
        refusal: run.refusal,
    };
    let options = Options {
        longest: run.longest,
        skips_longer: run.skips_longer,
        written: run.written,
        most: run.most,
    };
    let ended = keep_new::<Limited<BloomFilter>, Sources, Sink, Heard, 10>(
        alloc, &mut sieve, options, sources, writer, heard,
    );
    drop(sieve);
    ended
}

// Whether a run writes this, and ends so. A flush comes before each read and open, and each end is
// told once.
fn is_right(alloc: Global, row: &Row) -> bool {
    let (run, output, wanted) = row;
    let seen = Seen::new();
    let mut sources = Sources::new(run, &seen);
    let mut writer = Sink::new(alloc, run.writing, &seen);
    let mut heard = Heard::new(alloc);
    let ended = kept(alloc, run, &mut sources, &mut writer, &mut heard);
    let is_read = ended.is_err() | (seen.ends.get() == run.inputs.len());
    is_read
        & (ended == *wanted)
        & writer.has(output.as_bytes())
        & (seen.early.get() == 0)
        & heard.has(&[])
}

#[test]
fn odd_runs_write_and_end_as_they_are_to(rt: HostRuntime) {
    for (i, row) in RUNS.iter().enumerate() {
        assert!(rt; tell_row(&rt, i, is_right(rt.alloc(), row)));
    }
}

// Whether a run warns of these counts, and of nothing else.
fn is_warned(alloc: Global, run: &Run, warnings: &[Tally]) -> bool {
    let seen = Seen::new();
    let mut sources = Sources::new(run, &seen);
    let mut writer = Sink::new(alloc, run.writing, &seen);
    let mut heard = Heard::new(alloc);
    let _ended = kept(alloc, run, &mut sources, &mut writer, &mut heard);
    heard.has(warnings)
}

#[test]
fn the_first_new_line_too_many_is_warned_of_once(rt: HostRuntime) {
    for (i, (run, warnings)) in WARNINGS.iter().enumerate() {
        assert!(rt; tell_row(&rt, i, is_warned(rt.alloc(), run, *warnings)));
    }
}

// The run over inputs whose reads fail at their end, for this reason.
fn failing(inputs: &'static [&'static str], kind: ErrorKind) -> Run {
    Run {
        inputs,
        reading: Reading {
            fails: Some(kind),
            ..SLOW
        },
        ..PLAIN
    }
}

#[test]
fn a_read_may_fail_behind_any_byte(rt: HostRuntime) {
    for (i, (inputs, output)) in READS.iter().enumerate() {
        let kind = KINDS[i % 6];
        let row = (failing(*inputs, kind), *output, Err(Fault::Input(kind)));
        assert!(rt; tell_row(&rt, i, is_right(rt.alloc(), &row)));
    }
}
