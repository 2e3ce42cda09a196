//! Threads that share a filter. Each is started with an `Arc` of it, and joined. None waits for
//! another: each has enough to do for their calls to overlap.
ghost use Rattle.std.specs.Prelude.{⊤};

mod storms;
mod takes;
mod tasks;

use fastbloom::{AtomicBloomFilter, FilterError};
use std::alloc::Global;
use std::sync::Arc;
use std::thread;
use std::thread::{Promise, PromisedHandle, Threads};
use tasks::{Task, work};

type Shared = Arc<AtomicBloomFilter, Global>;

/// What a thread promises of the two numbers that it counts: nothing.
#[derive(Clone, Copy)]
pub(crate) struct Anything;

impl Promise<(u64, u64)> for Anything {
    ghost kept_by = { λ _ _. ⊤ };
}

/// A thread that counts two numbers.
pub(crate) type Child = PromisedHandle<(u64, u64), Anything>;

// Starts a thread for each of the tasks.
fn start<R: Threads>(
    rt: &R,
    alloc: Global,
    filter: &Shared,
    tasks: &[Task],
) -> Result<Vec<Child>, FilterError> {
    let mut children = Vec::new(alloc);
    for task in tasks {
        let shared = Arc::try_clone(filter)?;
        let task = *task;
        match thread::spawn_with(rt, Anything, move || work(alloc, &shared, task)) {
            Ok(child) => children.push(child)?,
            Err(_refused) => return Err(FilterError::Worker),
        }
    }
    Ok(children)
}

/// Waits for every thread, and adds up what they counted.
pub(crate) fn join_all<R: Threads>(rt: &R, children: Vec<Child>) -> (u64, u64) {
    let mut new = 0u64;
    let mut wrong = 0u64;
    for child in children {
        let (more, worse) = child.join(rt);
        new = new.wrapping_add(more);
        wrong = wrong.wrapping_add(worse);
    }
    (new, wrong)
}
