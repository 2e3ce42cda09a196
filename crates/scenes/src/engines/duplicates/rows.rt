//! Runs, what each writes, and how it ends.
mod run;

use crate::engines::faulty::{FLUSHED_ONCE, FULL, HALVES, NARROW, SLOW, STUCK, UNFLUSHED};
use duplicates_engine::{Fault, Tally, Total, Written};
use fastbloom::{FilterError, GrowingError};
use run::{LATE, PASSING};
pub(crate) use run::{PLAIN, Run};
use std::io::ErrorKind;

/// A run, what it writes, and how it ends.
pub(super) type Row = (Run, &'static str, Result<Total, Fault>);

// A row: a run that differs from another in these parts, and what is told of it.
macro_rules! run {
    ($other:ident $(, $part:ident: $value:expr)* => $($told:expr),+) => {
        (Run { $($part: $value,)* ..$other }, $($told),+)
    };
}

// The end of a run that read so many lines and held back so many.
macro_rules! total {
    ($read:literal, $held:literal) => {
        Ok(Total {
            tally: Tally { read: $read, held: $held },
            longer: 0,
        })
    };
}

const OUTPUT: &str = "ab\nc\n\nd\n";

const ALL: Result<Total, Fault> = total!(5, 1);

const SEVERAL: &'static [&'static str] = &["ab\nc", "", "c\nd\n", "ab\n\n"];

const PASSED: Total = Total {
    tally: Tally { read: 5, held: 3 },
    longer: 2,
};

// How a run ends whose flush fails.
const UNSENT: Result<Total, Fault> = Err(Fault::Output(ErrorKind::BrokenPipe));

/// Runs over a plain filter.
pub(super) const RUNS: &'static [Row] = &[
    run! { PLAIN => OUTPUT, ALL },
    run! { PLAIN, reading: SLOW, writing: NARROW => OUTPUT, ALL },
    run! {
        PLAIN, inputs: &["a\nthe beginning waits"], longest: 99, reading: HALVES =>
        "a\nthe beginning waits\n", total!(2, 0)
    },
    run! { PLAIN, written: Written::HeldBack => "ab\n", ALL },
    run! { PLAIN, written: Written::Nothing => "", ALL },
    run! { PLAIN, inputs: SEVERAL => "ab\nc\nd\n\n", total!(6, 2) },
    run! {
        PLAIN, inputs: SEVERAL, broken: 2 => "ab\nc\n", Err(Fault::Open(ErrorKind::NotFound))
    },
    run! { PLAIN, inputs: &[] => "", total!(0, 0) },
    // The number is that of the line in its own input.
    run! {
        PLAIN, inputs: &["a\nb\nc", "d\nee\nf"], longest: 1 =>
        "a\nb\nc\nd\n", Err(Fault::TooLong(2))
    },
    run! { PLAIN, writing: FULL => "ab\n", Err(Fault::Output(ErrorKind::StorageFull)) },
    run! { PLAIN, writing: STUCK => "ab\n", Err(Fault::Output(ErrorKind::WriteZero)) },
    // The first flush comes before the first read.
    run! { PLAIN, writing: UNFLUSHED => "", UNSENT },
    // Without inputs the last flush is the only one.
    run! { PLAIN, inputs: &[], writing: UNFLUSHED => "", UNSENT },
    // The last line may still be read on.
    run! { PLAIN, writing: FLUSHED_ONCE => "ab\nc\n\n", UNSENT },
    run! { PLAIN, writing: FLUSHED_ONCE, longest: 1 => "", UNSENT },
    // Longer lines are passed on with the new ones, as often as they come. The sieve would refuse
    // them.
    run! { PASSING, lines: 3 => "abc\nab\nabc\nd\n", Ok(PASSED) },
    run! {
        PASSING, written: Written::HeldBack, reading: SLOW, writing: NARROW => "ab\n", Ok(PASSED)
    },
    run! { PASSING, lines: 2 => "abc\nab\nabc\n", Err(Fault::Full) },
    run! { LATE => "ab\n", Err(Fault::Full) },
    run! { LATE, refusal: GrowingError::TooManyItems => "ab\n", Err(Fault::Full) },
    run! {
        LATE, refusal: GrowingError::Filter(FilterError::SizeOverflow) => "ab\n", Err(Fault::Full)
    },
    run! {
        LATE, refusal: GrowingError::Filter(FilterError::Memory) => "ab\n", Err(Fault::Memory)
    },
];

/// Runs with a most, and of which counts they warn: those with the first new line too many. A
/// longer line is none, nor is one that is refused, but one is that can't be written.
pub(super) const WARNINGS: &'static [(Run, &'static [Tally])] = &[
    run! { PLAIN, most: Some(4) => &[] },
    run! { PLAIN, most: Some(3) => &[Tally { read: 5, held: 1 }] },
    run! { PLAIN, most: Some(0), written: Written::Nothing => &[Tally { read: 1, held: 0 }] },
    run! { PLAIN, most: Some(3), inputs: SEVERAL => &[Tally { read: 6, held: 2 }] },
    run! { PASSING, most: Some(1) => &[Tally { read: 5, held: 3 }] },
    run! { LATE, most: Some(2) => &[] },
    run! { PLAIN, most: Some(1), writing: FULL => &[Tally { read: 2, held: 0 }] },
];

/// The inputs of readers that fail at their end, and what is written: whole lines that are new.
pub(super) const READS: &'static [(&'static [&'static str], &'static str)] = &[
    (&[""], ""),
    (&["a"], ""),
    (&["ab"], ""),
    (&["ab\n"], "ab\n"),
    (&["ab\nc"], "ab\n"),
    (&["ab\nc\n"], "ab\nc\n"),
    (&["ab\nc\na"], "ab\nc\n"),
    (&["ab\nc\nab"], "ab\nc\n"),
    (&["ab\nc\nab\n"], "ab\nc\n"),
    (&["ab\nc\nab\n\n"], "ab\nc\n\n"),
    (&["ab\nc\nab\n\nd"], "ab\nc\n\n"),
    (&["ab", "c\n"], ""),
];
