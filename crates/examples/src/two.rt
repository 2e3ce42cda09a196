//! Two threads that share a filter: after both were joined and their passes met, what either
//! inserted is found.
ghost use Rattle.std.specs.Prelude.{◌≡◌, ◌⊎◌, Contains, IfOk, true};
ghost use Rattle.std.specs.Arc.{arc_value};
ghost use Rattle.examples.specs.Known.{KnowsAll};

use fastbloom::{FilterError, Pass, SeatedBloomFilter};
use std::alloc::Global;
use std::snapshot::Snapshot;
use std::sync::Arc;
use std::thread;
use std::thread::{Promise, PromisedHandle, Threads};

// What a thread promises of the pass that it gives back: it is of the filter and knows the hashes.
#[derive(Drop)]
struct KnowsHashes {
    filter: Snapshot<SeatedBloomFilter>,
    hashes: Snapshot<Vec<u64>>,
}

impl Promise<Pass> for KnowsHashes {
    ghost kept_by = { λ promise pass. (pass.filter ≡ promise.filter.value.table)
        × KnowsAll promise.filter.value pass promise.hashes.value.items };
}

type Child = PromisedHandle<Pass, KnowsHashes>;

// Inserts the hashes.
fn insert_all(filter: &SeatedBloomFilter, mut pass: Pass, hashes: Vec<u64>) -> Pass
    requires { pass.filter ≡ filter.now.table }
    ensures filter { result.filter ≡ filter.entry.now.table }
    ensures known { KnowsAll filter.entry.now result hashes.items }
{
    'hashes: for i in 0..hashes.len() {
        filter.insert_hash_as(&mut pass, hashes[i]);
    }
    pass
}

// Starts a thread that inserts the hashes.
fn start<R: Threads>(
    rt: &R,
    filter: &Arc<SeatedBloomFilter, Global>,
    pass: Pass,
    hashes: Vec<u64>,
) -> Result<Child, FilterError>
    requires { pass.filter ≡ (arc_value filter.now).table }
    ensures filter { IfOk result (λ child. child.promise.filter.value ≡ arc_value filter.now) }
    ensures hashes { IfOk result (λ child. child.promise.hashes.value.items ≡ hashes.items) }
{
    let shared = Arc::try_clone(filter)?;
    let promise = KnowsHashes {
        filter: Snapshot::of(&*shared),
        hashes: Snapshot::of(&hashes),
    };
    match thread::spawn_with(rt, promise, move || insert_all(&shared, pass, hashes)) {
        Ok(child) => Ok(child),
        Err(_refused) => Err(FilterError::Worker),
    }
}

/// Two threads insert hashes by two passes, which meet after both threads were joined. Returns
/// whether the first pass then finds a hash, and whether an insert by the second finds it set.
///
/// # Errors
/// `Memory` where there is no room for what the threads share, and `Worker` where a thread can't be
/// started.
pub fn found_by_both<R: Threads>(
    rt: &R,
    alloc: Global,
    filter: SeatedBloomFilter,
    passes: (Pass, Pass),
    hashes: (Vec<u64>, Vec<u64>),
    asked: u64,
) -> Result<(bool, bool), FilterError>
    requires first { passes.0.filter ≡ filter.table }
    requires second { passes.1.filter ≡ filter.table }
    // What either inserted is found.
    ensures found { (Contains hashes.0.items asked ⊎ Contains hashes.1.items asked)
        → IfOk result (λ found. (found.0 ≡ true) × (found.1 ≡ true)) }
{
    let (first, second) = passes;
    let (left, right) = hashes;
    let shared = Arc::new(alloc, filter)?;
    let one = start(rt, &shared, first, left)?;
    let two = start(rt, &shared, second, right);
    let mut first = one.join(rt);
    let mut second = two?.join(rt);
    shared.meet(&mut first, &mut second);
    let found = shared.contains_hash_as(&mut first, asked);
    let inserted = shared.insert_hash_as(&mut second, asked);
    Ok((found, inserted))
}
