//! The table of what was measured.

use crate::keys::contains_keys;
use crate::plan::{Plan, Unit};
use fastbloom::{AtomicBloomFilter, BloomFilter, FilterError};
use std::io;
use std::time::{Duration, Instant};

/// What a round made. It is counted, and dropped, once the clock has stopped.
#[derive(Drop)]
pub enum Made {
    /// Answers that are counted already.
    Answers(u64),
    /// A copy, in which the hash 0 is looked up.
    Copy(BloomFilter),
    SharedCopy(AtomicBloomFilter),
    /// A filter, in which the first keys are looked up.
    Filled(BloomFilter, u64),
}

impl Made {
    // Counts it, and drops it.
    fn count(self) -> u64 {
        match self {
            Made::Answers(answers) => answers,
            Made::Copy(filter) => filter.contains_hash(0) as u64,
            Made::SharedCopy(filter) => filter.contains_hash(0) as u64,
            Made::Filled(filter, keys) => contains_keys(&filter, 0, keys),
        }
    }
}

/// Calls that rows measure, with what they are made on.
pub trait Measured {
    /// Which call.
    type Call: Copy;

    /// Does what a round needs before its clock starts. The number is that of the row.
    fn prepare(&mut self, call: Self::Call, number: u32, round: u32) -> anyhow::Result<()>;

    /// Makes the call as often as the row says. This is what is timed.
    fn make(&mut self, call: Self::Call, number: u32, round: u32) -> anyhow::Result<Made>;
}

// A row of the table: one call, how often a round makes it, and the best round so far.
#[derive(Clone, Copy)]
struct Row {
    call: &'static str,
    number: u32,
    operations: u64,
    counted: &'static str,
    answers: u64,
    // In nanoseconds.
    best: Option<u128>,
}

impl Row {
    // Takes in a round: the count of its results, and how long it took.
    fn add(&mut self, answers: u64, time: Duration) {
        self.answers = answers;
        let time = time.as_nanos();
        self.best = Some(self.best.unwrap_or(time).min(time));
    }

    // The best round's time for one operation, in picoseconds.
    fn picoseconds(&self) -> Option<u128> {
        let best = self.best?;
        best.saturating_mul(1000)
            .checked_div(self.operations as u128)
    }

    // Prints the row, with the time where something was measured.
    fn print(&self, rt: &HostRuntime) -> io::Result<()> {
        let (call, number, answers, counted) = (self.call, self.number, self.answers, self.counted);
        match self.picoseconds() {
            Some(time) => println!(rt; "{call:<28}{number:>8}{answers:>12}{time:>12}  {counted}"),
            None => println!(rt; "{call:<28}{number:>8}{answers:>12}           -  {counted}"),
        }
    }
}

// Measures a row in this many rounds, and prints it.
fn measure<M: Measured>(
    rt: &HostRuntime,
    rounds: u32,
    mut row: Row,
    measured: &mut M,
    call: M::Call,
) -> anyhow::Result<()> {
    'rounds: for round in 0..rounds {
        measured.prepare(call, row.number, round)?;
        let start = Instant::now(rt)?;
        let made = measured.make(call, row.number, round)?;
        let time = start.elapsed(rt);
        row.add(made.count(), time?);
    }
    Ok(row.print(rt)?)
}

/// The rows of a call: the call, their name, their numbers, what an operation is for, and what is
/// counted of its results. A number is that of hashes, or of what the name tells before a colon.
pub type Rows<C> = (C, &'static str, &'static [u32], Unit, &'static str);

// Measures the rows of these calls that are wanted.
fn measure_wanted<M: Measured>(
    rt: &HostRuntime,
    plan: &Plan,
    measured: &mut M,
    table: &[Rows<M::Call>],
) -> anyhow::Result<()> {
    'table: for (call, name, numbers, unit, counted) in table {
        let numbers: &[u32] = if plan.wants(name) { numbers } else { &[] };
        'numbers: for number in numbers {
            let row = Row {
                call: name,
                number: *number,
                operations: plan.operations(*unit),
                counted,
                answers: 0,
                best: None,
            };
            measure(rt, plan.rounds, row, measured, *call)?;
        }
    }
    Ok(())
}

/// Measures the rows of these calls that are wanted, where there is memory for what they are made
/// on.
pub fn measure_rows<M: Measured + Drop>(
    rt: &HostRuntime,
    plan: &Plan,
    measured: Result<M, FilterError>,
    table: &[Rows<M::Call>],
) -> anyhow::Result<()> {
    let mut measured = measured?;
    measure_wanted(rt, plan, &mut measured, table)
}

/// Prints what is measured, and the head of the table.
pub fn head(rt: &HostRuntime, plan: &Plan, bits: usize) -> io::Result<()> {
    let (keys, rounds, bytes) = (plan.keys, plan.rounds, bits / 8);
    println!(rt;
        "{keys} keys, best of {rounds} rounds, filters of {bits} bits ({bytes} bytes)\n\
        The number is that of hashes, or of what the name tells before a colon.\n\
        call                          number     answers          ps  answers count"
    )
}
