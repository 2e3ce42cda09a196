//! Filters of keys over odd readers and writers.
mod crews;
mod odd;
mod rows;
mod texts;

ghost use Rattle.std.specs.Prelude.{IfOk};
ghost use Rattle.summaries_engine.specs.Answers.{IsKeyed};

use super::faulty::{Seen, Sink, WHOLE};
use crate::row_reports::{has_text, tell_row};
use odd::Odd;
use rows::{A, ACTS, Act, Row, UNREAD, reading_of};
use std::alloc::Global;
use std::thread::Threads;
use summaries_engine::{
    AnyFilter, Stop, Wanted, ask, build, classic_with_bits, load, no_json, put, put_file,
};

// The filter of the keys of two inputs.
fn built<R: Threads + Sync + AllocGlobal>(rt: &R, odd: &Odd) -> Result<AnyFilter, Stop> {
    let Ok(empty) = classic_with_bits(rt.alloc(), 64, 2, &0) else {
        return Err(Stop::Memory);
    };
    match build::<10, _, _>(rt, rt.alloc(), empty, 2, odd, &["first", "odd"]) {
        Ok(filter) => Ok(AnyFilter::Classic(filter)),
        Err(stop) => Err(stop),
    }
}

// The filter of an input.
fn loaded(alloc: Global, odd: &Odd) -> Result<AnyFilter, Stop>
    ensures { IfOk result IsKeyed }
{
    let mut input = odd.source();
    match load(alloc, "odd", 64, &mut input) {
        Ok((filter, _form)) => Ok(filter),
        Err(stop) => Err(stop),
    }
}

// Writes the file of a filter.
fn write_file(filter: &AnyFilter, output: &mut Sink) -> Result<(), Stop> {
    match put_file(filter, output) {
        Ok(()) => Ok(()),
        Err(error) => Err(Stop::Output(error)),
    }
}

// Writes the file of a filter, if it was made.
fn write_made(made: Result<AnyFilter, Stop>, output: &mut Sink) -> Result<(), Stop> {
    match made {
        Ok(filter) => {
            let ended = write_file(&filter, output);
            drop(filter);
            ended
        }
        Err(stop) => Err(stop),
    }
}

// Writes the text of a filter.
fn write_text(alloc: Global, filter: &AnyFilter, output: &mut Sink) -> Result<(), Stop> {
    match filter {
        AnyFilter::Classic(filter) => put(alloc, filter, output),
        AnyFilter::Blocked(_) => Err(no_json()),
    }
}

// Writes the text of a filter that is loaded.
fn write_loaded(alloc: Global, odd: &Odd, output: &mut Sink) -> Result<(), Stop> {
    match loaded(alloc, odd) {
        Ok(filter) => {
            let ended = write_text(alloc, &filter, output);
            drop(filter);
            ended
        }
        Err(stop) => Err(stop),
    }
}

// Writes those keys of an input that a filter finds.
fn write_found(alloc: Global, odd: &Odd, filter: &AnyFilter, output: &mut Sink) -> Result<(), Stop>
    requires { IsKeyed filter.now }
{
    ask::<10, _, _>(alloc, filter, Wanted::Found, odd, &["odd"], output)
}

// Carries an act out: why it stops early.
fn carry_out<R: Threads + Sync + AllocGlobal>(
    rt: &R,
    act: Act,
    odd: &Odd,
    filter: &AnyFilter,
    output: &mut Sink,
) -> Result<(), Stop>
    requires { IsKeyed filter.now }
{
    match act {
        Act::Build => write_made(built(rt, odd), output),
        Act::Ask => write_found(rt.alloc(), odd, filter, output),
        Act::Load => write_made(loaded(rt.alloc(), odd), output),
        Act::LoadText => write_loaded(rt.alloc(), odd, output),
        Act::Put => write_file(filter, output),
        Act::PutText => write_text(rt.alloc(), filter, output),
    }
}

// Whether an act ended with this text, or well if it is empty.
fn is_reported(alloc: Global, ended: Result<(), Stop>, text: &str) -> bool {
    match ended {
        Ok(()) => text.is_empty(),
        Err(stop) => has_text(alloc, &stop, text),
    }
}

// Whether an act over the first bytes of its input writes and tells what its row says. What was
// written is flushed before each read and open, and at the end where the act ends well. Then no
// input was read behind its end.
fn is_right<R: Threads + Sync + AllocGlobal>(
    rt: &R,
    row: &Row,
    end: usize,
    filter: &AnyFilter,
) -> bool
    requires { IsKeyed filter.now }
{
    let seen = Seen::new();
    let (reading, text) = reading_of(row, end);
    let odd = Odd {
        keys: row.1.get(..end).unwrap_or(&[]),
        reading,
        seen: &seen,
    };
    let mut sink = Sink::new(rt.alloc(), row.3, &seen);
    let ended = carry_out(rt, row.0, &odd, filter, &mut sink);
    let is_whole = (seen.waiting.get() == 0) & (seen.late.get() == 0);
    let is_done = ended.is_err() | is_whole;
    let is_told = is_reported(rt.alloc(), ended, text);
    is_told & sink.has(row.4) & is_done & (seen.early.get() == 0)
}

// The same for each beginning of its input behind which a read may fail: any, or the whole, where
// keys are written before it or no read fails.
fn are_right<R: Threads + Sync + AllocGlobal>(rt: &R, row: &Row, filter: &AnyFilter) -> bool
    requires { IsKeyed filter.now }
{
    let length = row.1.len();
    let first = if (row.5 == UNREAD) & row.4.is_empty() {
        0
    } else {
        length
    };
    let mut all = true;
    for end in first..length.saturating_add(1) {
        all &= is_right(rt, row, end, filter);
    }
    all
}

// Whether all acts write and stop as their rows say. Their threads are those of the test.
fn all_are_right<R: Threads + Sync + AllocGlobal>(
    rt: &HostRuntime,
    threads: &R,
    filter: &AnyFilter,
) -> bool
    requires { IsKeyed filter.now }
{
    for (i, row) in ACTS.iter().enumerate() {
        if !tell_row(rt, i, are_right(threads, row, filter)) {
            return false;
        }
    }
    true
}

// The same, of a filter that is loaded.
fn are_carried_out<R: Threads + Sync + AllocGlobal>(rt: &HostRuntime, threads: &R) -> bool {
    match load(rt.alloc(), "a", 64, &mut &A[..]) {
        Ok((filter, _form)) => {
            let are_right = all_are_right(rt, threads, &filter);
            drop(filter);
            are_right
        }
        Err(stop) => {
            drop(stop);
            false
        }
    }
}

#[test]
fn acts_write_and_stop_as_they_are_to(rt: HostRuntime) {
    assert!(rt; are_carried_out(&rt, &rt));
}
