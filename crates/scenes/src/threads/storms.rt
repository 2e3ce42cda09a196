//! Storms: threads that call one filter in turns of their own, at tables of tasks.
use super::tasks::{Act, Task, work};
use super::{Child, Shared, join_all, start};
use crate::drawn::spread;
use crate::row_reports::tell_named;
use fastbloom::{AtomicBloomFilter, BloomFilter, FilterError};
use std::alloc::Global;
use std::sync::Arc;
use std::thread::Threads;

// A filter of this many bits and hashes under a seed, into which this many first hashes are
// inserted before threads with these tasks are started.
struct Storm {
    name: &'static str,
    bits: usize,
    num_hashes: u32,
    seed: u128,
    before: u64,
    tasks: &'static [Task],
    end: End,
}

// What is done and must hold, besides that no reply was wrong.
enum End {
    // The filter is let go while the threads run. A thread's own `Arc` keeps it.
    LetGo,
    // With one hash an insert that returns false set one bit. So as many bits are set as inserts
    // returned false, less those that were taken out. Then the filter is cleared, and is as new.
    Kept,
    // And before, the words are those that one thread makes.
    Alone,
}

// A storm, and what each of its threads does.
macro_rules! storm {
    (
        $name:literal, $bits:expr, $num_hashes:literal, $seed:literal, $before:literal, $end:ident;
        $([$act:ident $(($position:literal))? $first:literal to $last:literal])+
    ) => {
        Storm {
            name: $name,
            bits: $bits,
            num_hashes: $num_hashes,
            seed: $seed,
            before: $before,
            tasks: &[$((Act::$act $(($position))?, $first, $last)),+],
            end: End::$end,
        }
    };
}

const STORMS: &'static [Storm] = &[
    storm! {
        "four threads insert the same hashes", 4096, 1, 0, 0, Alone;
        [Insert 0 to 1000] [Insert 0 to 1000] [Insert 0 to 1000] [Insert 0 to 1000]
    },
    storm! {
        "two threads insert items that they share", 128, 2, 42, 0, Alone;
        [InsertItem 1 to 3] [InsertItem 2 to 4]
    },
    // Most positions stay clear.
    storm! {
        "what was inserted is found beside three that insert", 1 << 20, 3, 0, 100, Alone;
        [Insert 0 to 50_000] [Insert 0 to 50_000] [Insert 0 to 50_000] [Find 0 to 100_000]
    },
    storm! {
        "what was inserted is found when the filter was let go", 1 << 20, 3, 0, 100, LetGo;
        [Find 0 to 200_000]
    },
    storm! {
        "calls that are drawn, beside clones and data", 1024, 3, 0, 0, Kept;
        [Call 0 to 10_000] [Call 10_000 to 20_000] [Call 20_000 to 30_000]
        [Call 30_000 to 40_000] [Call 40_000 to 50_000] [Call 50_000 to 60_000]
        [Call 60_000 to 70_000] [Call 70_000 to 80_000] [Clone 0 to 1000] [Data 0 to 1000]
    },
    // Each thread that inserts has half of its hashes in common with the next.
    storm! {
        "inserts and takes lose no bit", 1024, 1, 0, 0, Kept;
        [Insert 0 to 20_000] [Insert 10_000 to 30_000] [Insert 20_000 to 40_000]
        [Insert 30_000 to 50_000] [Insert 40_000 to 60_000]
        [Take 0 to 2000] [Take 0 to 2000] [Take 0 to 2000]
    },
    // Whatever the order of the steps, each thread sees its own position change as it alone changes
    // it, since every other step leaves it as it is. In the end all are clear.
    storm! {
        "each of four threads has a bit of its own in one word", 64, 1, 0, 0, Kept;
        [Flip(0) 0 to 20] [Flip(1) 0 to 20] [Flip(2) 0 to 20] [Flip(3) 0 to 20]
    },
];

// The filter of a storm before its threads are started.
fn made(alloc: Global, storm: &Storm) -> Result<AtomicBloomFilter, FilterError> {
    let builder = AtomicBloomFilter::with_num_bits(alloc, storm.bits)?.seed(&storm.seed);
    let filter = builder.hashes(alloc, storm.num_hashes)?;
    work(alloc, &filter, (Act::Insert, 0, storm.before));
    Ok(filter)
}

// Whether a filter that is cleared is empty, and a hundred inserts return what a plain filter's do.
fn ends_as_new(alloc: Global, filter: &AtomicBloomFilter) -> Result<bool, FilterError> {
    filter.clear();
    let mut is_right = filter.count_ones() == 0;
    let builder = BloomFilter::with_num_bits(alloc, filter.num_bits())?;
    let mut plain = builder.hashes(filter.num_hashes());
    for i in 0..100u64 {
        is_right &= filter.insert_hash(spread(i)) == plain.insert_hash(spread(i));
    }
    Ok(is_right & filter.iter().eq(plain.iter()))
}

// Whether one thread makes the words of a storm.
fn is_made_alone(alloc: Global, storm: &Storm, words: &AtomicBloomFilter) -> bool {
    let Ok(alone) = made(alloc, storm) else {
        return false;
    };
    for task in storm.tasks {
        work(alloc, &alone, *task);
    }
    alone.same_words(words)
}

// The filter of a storm, to be shared.
fn shared_by(alloc: Global, storm: &Storm) -> Result<Shared, FilterError> {
    Ok(Arc::new(alloc, made(alloc, storm)?)?)
}

// Whether a storm ends well whose filter is let go.
fn lets_go<R: Threads>(rt: &R, alloc: Global, storm: &Storm) -> Result<bool, FilterError> {
    let shared = shared_by(alloc, storm)?;
    let started = start(rt, alloc, &shared, storm.tasks);
    drop(shared);
    match started {
        Ok(children) => Ok(join_all(rt, children).1 == 0),
        Err(refusal) => Err(refusal),
    }
}

// Whether a filter is left as a storm's end says, in which this many inserts returned false, less
// the bits that were taken out.
fn is_left(alloc: Global, storm: &Storm, filter: &AtomicBloomFilter, new: u64) -> bool {
    let is_counted = (storm.num_hashes > 1) | (new == filter.count_ones() as u64);
    let is_alone = match storm.end {
        End::Alone => is_made_alone(alloc, storm, filter),
        End::Kept | End::LetGo => true,
    };
    is_counted & is_alone & matches!(ends_as_new(alloc, filter), Ok(true))
}

// Whether the threads of a storm leave a filter as its end says.
fn leave_well<R: Threads>(rt: &R, alloc: Global, storm: &Storm, shared: &Shared) -> bool {
    match start(rt, alloc, shared, storm.tasks) {
        Ok(children) => {
            let (new, wrong) = join_all(rt, children);
            (wrong == 0) & is_left(alloc, storm, shared, new)
        }
        Err(_refusal) => false,
    }
}

// Whether a storm ends well whose filter is kept.
fn keeps<R: Threads>(rt: &R, alloc: Global, storm: &Storm) -> bool {
    match shared_by(alloc, storm) {
        Ok(shared) => leave_well(rt, alloc, storm, &shared),
        Err(_refusal) => false,
    }
}

#[test]
fn storms_lose_no_bit_and_leave_a_filter_that_is_as_new(rt: HostRuntime) {
    for storm in STORMS {
        let ends = match storm.end {
            End::LetGo => matches!(lets_go(&rt, rt.alloc(), storm), Ok(true)),
            End::Alone | End::Kept => keeps(&rt, rt.alloc(), storm),
        };
        assert!(rt; tell_named(&rt, storm.name, ends));
    }
}
