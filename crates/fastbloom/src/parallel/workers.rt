//! All workers: what they need is made before the first is started, and all are joined.
ghost use Rattle.std.specs.Prelude.{◌≡◌, ◌≤◌, [], All, IfOk, OnOk, map, vec_len, vec_capacity};
ghost use Rattle.std.specs.List.{concat};
ghost use Rattle.bloom_parts.specs.Keys.{HasKey};
ghost use Rattle.fastbloom.specs.Fill.{IsFilledWith};

use super::job::{Gate, Job, NoThread, Worker, start};
use super::shape::Shape;
use bloom_plain::BloomFilter;
use std::alloc::{AllocError, Global};
use std::sync::Arc;
use std::thread::Threads;

// The jobs, the filter that is to hold all, and room for the workers. It isn't `Drop`, since
// a worker isn't.
pub(super) struct Prepared<G> {
    jobs: Vec<Job<G>>,
    whole: BloomFilter,
    workers: Vec<Worker>,
    shape: Shape,
    ghost shaped: { All (λ job. job.shape ≡ shape) jobs.items },
    ghost empty: { IsFilledWith shape [] whole },
    ghost idle: { vec_len workers ≡ 0 },
    ghost room: { vec_len jobs ≤ vec_capacity workers },
}

// A job for each part, with a filter of its own.
fn jobs_of<G: Gate + Drop>(
    alloc: Global,
    gate: &Arc<G, Global>,
    shape: Shape,
    parts: Vec<Vec<u64>>,
) -> Result<Vec<Job<G>>, AllocError>
    ensures hashes { IfOk result (λ jobs.
        map (λ job. job.hashes.items) jobs.items ≡ map (λ part. part.items) parts.items) }
    ensures shaped { IfOk result (λ jobs. All (λ job. job.shape ≡ shape) jobs.items) }
{
    let mut jobs = Vec::new(alloc);
    'parts: for hashes in parts {
        let job = Job {
            gate: Arc::try_clone(gate)?,
            worker: jobs.len(),
            hashes,
            filter: shape.empty_filter(alloc)?,
            shape,
        };
        jobs.push(job)?;
    }
    Ok(jobs)
}

/// All that the workers need. No thread runs yet, since none can be started here.
pub(super) fn prepare<G: Gate + Drop>(
    alloc: Global,
    gate: &Arc<G, Global>,
    shape: Shape,
    parts: Vec<Vec<u64>>,
) -> Result<Prepared<G>, AllocError>
    ensures hashes { IfOk result (λ prepared.
        map (λ job. job.hashes.items) prepared.jobs.items ≡ map (λ part. part.items) parts.items) }
    ensures shape { IfOk result (λ prepared. prepared.shape ≡ shape) }
    ensures key { IfOk result (λ prepared. HasKey prepared.whole.hasher 0 0) }
{
    let whole = shape.empty_filter(alloc)?;
    let jobs = jobs_of(alloc, gate, shape, parts)?;
    let workers = Vec::with_capacity(alloc, jobs.len())?;
    Ok(Prepared {
        jobs,
        whole,
        workers,
        shape,
    })
}

// Starts a thread for each job, until one is refused.
fn start_all<R: Threads, G: Gate + Send + Sync + Drop + 'static>(
    rt: &R,
    jobs: Vec<Job<G>>,
    shape: Shape,
    workers: &mut Vec<Worker>,
) -> Result<(), NoThread>
    requires shaped { All (λ job. job.shape ≡ shape) jobs.items }
    requires idle { vec_len workers.old ≡ 0 }
    requires room { vec_len jobs ≤ vec_capacity workers.old }
    ensures shaped { All (λ worker. worker.shape ≡ shape) workers.new.items }
    ensures hashes { OnOk result (map (λ worker. worker.hashes.value.items) workers.new.items
        ≡ map (λ job. job.hashes.items) jobs.items) }
{
    'jobs: for job in jobs {
        match start(rt, job) {
            Ok(worker) => workers.push_reserved(worker),
            Err(refused) => return Err(refused),
        }
    }
    Ok(())
}

// Waits for each worker, and unites its filter with the whole.
fn gather<R: Threads>(rt: &R, workers: Vec<Worker>, shape: Shape, whole: &mut BloomFilter)
    requires shaped { All (λ worker. worker.shape ≡ shape) workers.items }
    requires empty { IsFilledWith shape [] whole.old }
    ensures filled { IsFilledWith shape
        (concat (map (λ worker. worker.hashes.value.items) workers.items)) whole.new }
    ensures hasher { whole.new.hasher ≡ whole.old.hasher }
{
    let mut left = workers.into_iter();
    'workers: while let Some(worker) = left.next() {
        let part = worker.join(rt);
        whole.union(&part);
    }
    left.destroy_empty();
}

/// Sets the workers to work, waits for each, and unites what they made.
pub(super) fn set_to_work<R: Threads, G: Gate + Send + Sync + Drop + 'static>(
    rt: &R,
    prepared: Prepared<G>,
) -> Result<BloomFilter, NoThread>
    ensures filled { IfOk result (λ filter. IsFilledWith prepared.shape
        (concat (map (λ job. job.hashes.items) prepared.jobs.items)) filter) }
    ensures hasher { IfOk result (λ filter. filter.hasher ≡ prepared.whole.hasher) }
{
    let Prepared {
        jobs,
        mut whole,
        mut workers,
        shape,
    } = prepared;
    let started = start_all(rt, jobs, shape, &mut workers);
    gather(rt, workers, shape, &mut whole);
    match started {
        Ok(()) => Ok(whole),
        Err(refused) => Err(refused),
    }
}
