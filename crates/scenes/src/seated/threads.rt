//! Threads that share a seated filter, each with a pass of its own.
ghost use Rattle.std.specs.Prelude.{◌≡◌, ◌+◌, ◌≤◌, All, IfOk, vec_len};
ghost use Rattle.std.specs.Arc.{arc_value};

use crate::drawn::{spread, spread_from};
use examples::two::found_by_both;
use fastbloom::{BloomFilter, FilterError, Pass, SeatedBloomFilter};
use std::alloc::Global;
use std::snapshot::Snapshot;
use std::sync::Arc;
use std::thread;
use std::thread::{Promise, PromisedHandle, Threads};

const HASHES: u64 = 1000;

// The pass that a thread gives back is of the filter.
#[derive(Drop)]
struct IsOfFilter(Snapshot<SeatedBloomFilter>);

impl Promise<(u64, Pass)> for IsOfFilter {
    ghost kept_by = { λ promise back. back.1.filter ≡ promise.0.value.table };
}

type Child = PromisedHandle<(u64, Pass), IsOfFilter>;

// Inserts all hashes, and counts the inserts that returned false.
fn insert_all(filter: &SeatedBloomFilter, mut pass: Pass) -> (u64, Pass)
    requires { pass.filter ≡ filter.now.table }
    ensures { result.1.filter ≡ filter.entry.now.table }
{
    let mut new = 0u64;
    'hashes: for i in 0..HASHES {
        if !filter.insert_hash_as(&mut pass, spread(i)) {
            new = new.saturating_add(1);
        }
    }
    (new, pass)
}

// Starts a thread that inserts all hashes, with the last of the passes.
fn start<R: Threads>(
    rt: &R,
    filter: &Arc<SeatedBloomFilter, Global>,
    passes: &mut Vec<Pass>,
) -> Result<Child, FilterError>
    requires some { 1 ≤ vec_len passes.old }
    requires of_filter { All (λ pass. pass.filter ≡ (arc_value filter.now).table) passes.old.items }
    ensures child { IfOk result (λ child. child.promise.0.value ≡ arc_value filter.now) }
    ensures left { vec_len passes.old ≡ vec_len passes.new + 1 }
    ensures of_filter { All (λ pass. pass.filter ≡ (arc_value filter.now).table)
        passes.new.items }
{
    let Some(pass) = passes.pop() else {
        unreachable!()
    };
    let shared = Arc::try_clone(filter)?;
    let promise = IsOfFilter(Snapshot::of(&*shared));
    match thread::spawn_with(rt, promise, move || insert_all(&shared, pass)) {
        Ok(child) => Ok(child),
        Err(_refused) => Err(FilterError::Worker),
    }
}

// How many positions of a plain filter are set after the same inserts.
fn count_by_one(alloc: Global) -> Result<u64, FilterError> {
    let mut filter = BloomFilter::with_num_bits(alloc, 4096)?.hashes(1);
    'hashes: for i in 0..HASHES {
        filter.insert_hash(spread(i));
    }
    Ok(filter.count_ones() as u64)
}

// How many of the hashes a pass finds.
fn count_found(filter: &SeatedBloomFilter, pass: &mut Pass) -> u64
    requires { pass.old.filter ≡ filter.now.table }
    ensures { pass.new.filter ≡ pass.old.filter }
{
    let mut found = 0u64;
    'hashes: for i in 0..HASHES {
        if filter.contains_hash_as(pass, spread(i)) {
            found = found.saturating_add(1);
        }
    }
    found
}

// Two passes that met, and how many of their inserts returned false.
type Met = (u64, Pass, Pass);

// Starts two threads that insert all hashes, with the last of the passes.
fn start_two<R: Threads>(
    rt: &R,
    filter: &Arc<SeatedBloomFilter, Global>,
    passes: &mut Vec<Pass>,
) -> Result<(Child, Child), FilterError>
    requires some { 2 ≤ vec_len passes.old }
    requires of_filter { All (λ pass. pass.filter ≡ (arc_value filter.now).table) passes.old.items }
    ensures first { IfOk result (λ two. two.0.promise.0.value ≡ arc_value filter.now) }
    ensures second { IfOk result (λ two. two.1.promise.0.value ≡ arc_value filter.now) }
    ensures left { IfOk result (λ two. vec_len passes.old ≡ vec_len passes.new + 2) }
    ensures of_filter { All (λ pass. pass.filter ≡ (arc_value filter.now).table)
        passes.new.items }
{
    let one = start(rt, filter, passes)?;
    Ok((one, start(rt, filter, passes)?))
}

// Waits for two threads, and has their passes meet.
fn join_two<R: Threads>(rt: &R, filter: &SeatedBloomFilter, two: (Child, Child)) -> Met
    requires first { two.0.promise.0.value ≡ filter.now }
    requires second { two.1.promise.0.value ≡ filter.now }
    ensures first { result.1.filter ≡ filter.entry.now.table }
    ensures second { result.2.filter ≡ filter.entry.now.table }
{
    let (new_of_one, mut first) = two.0.join(rt);
    let (new_of_two, mut second) = two.1.join(rt);
    filter.meet(&mut first, &mut second);
    (new_of_one.saturating_add(new_of_two), first, second)
}

// Has four threads insert all hashes, each with a pass. The passes of the first and of the last are
// given back once all met.
fn insert_by_four<R: Threads>(
    rt: &R,
    filter: &Arc<SeatedBloomFilter, Global>,
    passes: &mut Vec<Pass>,
) -> Result<Met, FilterError>
    requires some { 4 ≤ vec_len passes.old }
    requires of_filter { All (λ pass. pass.filter ≡ (arc_value filter.now).table) passes.old.items }
    ensures first { IfOk result (λ met. met.1.filter ≡ (arc_value filter.now).table) }
    ensures fourth { IfOk result (λ met. met.2.filter ≡ (arc_value filter.now).table) }
{
    let two = start_two(rt, filter, passes)?;
    let others = start_two(rt, filter, passes)?;
    let (new, mut first, _second) = join_two(rt, filter, two);
    let (new_of_others, mut third, fourth) = join_two(rt, filter, others);
    filter.meet(&mut first, &mut third);
    Ok((new.saturating_add(new_of_others), first, fourth))
}

// Whether four threads gain as many positions as one thread sets, each by one pass alone, and each
// pass finds what all inserted after they met.
fn are_gained_once<R: Threads>(rt: &R, alloc: Global) -> Result<bool, FilterError> {
    let words = vec![in alloc; 0u64; 64]?;
    let (filter, mut passes) = SeatedBloomFilter::new(alloc, words, 1, 4)?;
    let shared = Arc::new(alloc, filter)?;
    let (new, mut first, mut fourth) = insert_by_four(rt, &shared, &mut passes)?;
    let by_first = count_found(&shared, &mut first) == HASHES;
    let by_fourth = count_found(&shared, &mut fourth) == HASHES;
    Ok(by_first & by_fourth & (new == count_by_one(alloc)?))
}

#[test]
fn four_threads_insert_the_same_hashes(rt: HostRuntime) {
    assert!(rt; matches!(are_gained_once(&rt, rt.alloc()), Ok(true)));
}

// A hundred hashes each for two threads.
fn hashes_of(alloc: Global) -> Result<(Vec<u64>, Vec<u64>), FilterError> {
    let first = spread_from(alloc, 0, 100)?;
    Ok((first, spread_from(alloc, 500, 600)?))
}

// Two threads insert their hashes.
fn found<R: Threads>(rt: &R, alloc: Global, asked: u64) -> Result<(bool, bool), FilterError> {
    let hashes = hashes_of(alloc)?;
    let words = vec![in alloc; 0u64; 64]?;
    let (filter, mut passes) = SeatedBloomFilter::new(alloc, words, 3, 2)?;
    let Some(second) = passes.pop() else {
        unreachable!()
    };
    let Some(first) = passes.pop() else {
        unreachable!()
    };
    found_by_both(rt, alloc, filter, (first, second), hashes, spread(asked))
}

#[test]
fn what_either_of_two_inserted_is_found(rt: HostRuntime) {
    for asked in [0, 99, 500, 599] {
        assert!(rt; matches!(found(&rt, rt.alloc(), asked), Ok((true, true))));
    }
}
