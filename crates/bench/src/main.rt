//! Measures the calls of a filter: `bench [KEYS [ROUNDS [WORD]]]`, those whose row has the word in
//! its name.
//!
//! Each row of the table is one call. A round makes it many times and counts its results, and the
//! best round tells what one operation costs.
#![tactic(auto)]

// A row of a table: a call, its name, its numbers, what an operation is for, and what is counted.
macro_rules! row {
    ($call:expr, $name:literal, $numbers:expr => $unit:ident, $counted:expr) => {
        ($call, $name, $numbers, Unit::$unit, $counted)
    };
}

mod fills;
mod filters;
mod keys;
mod plain;
mod plan;
mod seated;
mod shared;
mod table;
mod threads;

use filters::count_words;
use plan::Plan;
use std::thread::Threads;
use table::measure_rows;

// What is measured one after the other.
#[derive(Clone, Copy)]
enum Part {
    Plain,
    Shared,
    Threads,
    Fills,
}

const PARTS: [Part; 4] = [Part::Plain, Part::Shared, Part::Threads, Part::Fills];

// The second handle is the first again, seen as one that has threads, which only `main` can do.
fn measure_part<R: AllocGlobal + Threads>(
    rt: &HostRuntime,
    threads: &R,
    plan: &Plan,
    part: Part,
) -> anyhow::Result<()> {
    let (alloc, keys) = (rt.alloc(), plan.keys);
    match part {
        Part::Plain => measure_rows(rt, plan, plain::calls_for(alloc, keys), &plain::TABLE),
        Part::Shared => measure_rows(rt, plan, shared::calls_for(alloc, keys), &shared::TABLE),
        Part::Threads => {
            measure_rows(
                rt,
                plan,
                Ok(threads::calls_for(threads, keys)),
                &threads::TABLE,
            )
        }
        Part::Fills => measure_rows(rt, plan, Ok(fills::calls_for(threads, keys)), &fills::TABLE),
    }
}

fn main(rt: HostRuntime) -> anyhow::Result<()> {
    let plan = plan::given(&rt)?;
    table::head(&rt, &plan, count_words(plan.keys) * 64)?;
    'parts: for part in &PARTS {
        measure_part(&rt, &rt, &plan, *part)?;
    }
    Ok(())
}
