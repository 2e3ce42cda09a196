//! The calls of filters that threads share, made by several threads at once.
ghost use Rattle.std.specs.Prelude.{⊤};

use crate::filters::shared_filter_for;
use crate::plan::Unit;
use crate::seated::{Seat, seats_for};
use crate::shared::{contains_keys, insert_keys};
use crate::table::{Made, Measured, Rows};
use anyhow::bail;
use fastbloom::{AtomicBloomFilter, FilterError};
use std::alloc::Global;
use std::sync::Arc;
use std::thread;
use std::thread::{Promise, PromisedHandle, Threads};

/// What a thread does with its part of the keys.
#[derive(Clone, Copy)]
pub enum Job {
    Insert,
    /// Looks up keys that are there.
    Hit,
}

// What a thread works with: a filter that it shares with the others.
trait Worker {
    // A worker for each thread, all of one empty filter.
    fn all(alloc: Global, keys: u32, threads: u32) -> Result<Vec<Self>, FilterError>;

    // Inserts or looks up this many keys from the first on, and counts the calls that returned
    // true.
    fn work(&mut self, job: Job, first: u64, keys: u64) -> u64;
}

impl Worker for Arc<AtomicBloomFilter, Global> {
    fn all(alloc: Global, keys: u32, threads: u32) -> Result<Vec<Self>, FilterError> {
        let filter = Arc::new(alloc, shared_filter_for(alloc, keys, 7)?)?;
        Ok(vec![in alloc; filter; threads as usize]?)
    }

    fn work(&mut self, job: Job, first: u64, keys: u64) -> u64 {
        match job {
            Job::Insert => insert_keys(self, first, keys),
            Job::Hit => contains_keys(self, first, keys),
        }
    }
}

impl Worker for Seat {
    fn all(alloc: Global, keys: u32, threads: u32) -> Result<Vec<Self>, FilterError> {
        seats_for(alloc, keys, threads)
    }

    fn work(&mut self, job: Job, first: u64, keys: u64) -> u64 {
        match job {
            Job::Insert => self.insert_keys(first, keys),
            Job::Hit => self.contains_keys(first, keys),
        }
    }
}

// What a thread promises of its count of results and of its worker: nothing.
#[derive(Drop)]
struct Anything;

impl<W> Promise<(u64, W)> for Anything {
    ghost kept_by = { λ _ _. ⊤ };
}

type Child<W> = PromisedHandle<(u64, W), Anything>;

// Starts a thread with this many keys from the first on.
fn start<R: Threads, W: Worker + Send + Drop + 'static>(
    rt: &R,
    mut worker: W,
    job: Job,
    first: u64,
    keys: u64,
) -> anyhow::Result<Child<W>> {
    let work = move || {
        let answers = worker.work(job, first, keys);
        (answers, worker)
    };
    match thread::spawn_with(rt, Anything, work) {
        Ok(child) => Ok(child),
        Err(_refused) => bail!("no thread could be started"),
    }
}

// As many workers of a filter as there are threads. It has all keys where keys are looked up, and
// else none.
fn workers_for<W: Worker + Drop>(
    alloc: Global,
    job: Job,
    keys: u32,
    threads: u32,
) -> Result<Vec<W>, FilterError> {
    let mut workers = W::all(alloc, keys, threads)?;
    if let (Job::Hit, Some(worker)) = (job, workers.first_mut()) {
        worker.work(Job::Insert, 0, keys as u64);
    }
    Ok(workers)
}

// One round: each worker takes this many keys of its own, in a thread. The calls that returned true
// are counted once all threads are at work.
fn round_of<R: Threads, W: Worker + Send + Drop + 'static>(
    rt: &R,
    workers: &mut Vec<W>,
    job: Job,
    keys: u64,
) -> anyhow::Result<u64> {
    let Some(worker) = workers.pop() else {
        return Ok(0);
    };
    let first = keys.wrapping_mul(workers.len() as u64);
    let child = start(rt, worker, job, first, keys)?;
    let others = round_of(rt, workers, job, keys)?;
    let (answers, worker) = child.join(rt);
    workers.push(worker)?;
    Ok(others.wrapping_add(answers))
}

/// Who takes part: threads that share a filter, or threads with a seat each.
#[derive(Clone, Copy)]
pub enum Party {
    Sharers,
    Seats,
}

// Numbers of threads.
const THREADS: &'static [u32] = &[1, 2, 4];

/// The rows of shared and of seated filters by one, two and four threads.
pub const TABLE: [Rows<(Party, Job)>; 4] = [
    row! { (Party::Sharers, Job::Insert), "insert by threads:", THREADS => Key, "true" },
    row! { (Party::Sharers, Job::Hit), "hit by threads:", THREADS => Key, "true" },
    row! { (Party::Seats, Job::Insert), "seated insert by threads:", THREADS => Key, "true" },
    row! { (Party::Seats, Job::Hit), "seated hit by threads:", THREADS => Key, "true" },
];

/// The workers on one filter with seven hashes.
#[derive(Drop)]
pub struct Calls<'a, R> {
    rt: &'a R,
    sharers: Vec<Arc<AtomicBloomFilter, Global>>,
    seats: Vec<Seat>,
    keys: u32,
}

impl<'a, R: AllocGlobal + Threads> Measured for Calls<'a, R> {
    type Call = (Party, Job);

    // Each round of inserts has a filter of its own.
    fn prepare(&mut self, call: (Party, Job), threads: u32, round: u32) -> anyhow::Result<()> {
        let (alloc, keys, job) = (self.rt.alloc(), self.keys, call.1);
        match call {
            (_, Job::Hit) if round > 0 => {}
            (Party::Sharers, _) => self.sharers = workers_for(alloc, job, keys, threads)?,
            (Party::Seats, _) => self.seats = workers_for(alloc, job, keys, threads)?,
        }
        Ok(())
    }

    fn make(&mut self, call: (Party, Job), threads: u32, _round: u32) -> anyhow::Result<Made> {
        let part = self.keys as u64 / threads.max(1) as u64;
        let answers = match call.0 {
            Party::Sharers => round_of(self.rt, &mut self.sharers, call.1, part)?,
            Party::Seats => round_of(self.rt, &mut self.seats, call.1, part)?,
        };
        Ok(Made::Answers(answers))
    }
}

/// No workers yet.
pub fn calls_for<'a, R: AllocGlobal>(rt: &'a R, keys: u32) -> Calls<'a, R> {
    Calls {
        rt,
        sharers: Vec::new(rt.alloc()),
        seats: Vec::new(rt.alloc()),
        keys,
    }
}
