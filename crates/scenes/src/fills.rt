//! Filters that workers fill, each with a part of the hashes.

use crate::drawn::{spread, spread_from};
use crate::row_reports::tell_row;
use fastbloom::{BloomFilter, FilterError, Gate, Shape, fill};
use std::alloc::Global;
use std::sync::Arc;
use std::sync::atomic::{AtomicU64, Ordering};
use std::thread::{Threads, yield_now};

/// A gate that counts the workers, adds up the squares of their numbers, and keeps a bit for the
/// number of each of the first 64. Each of these looks for those that are awaited, for at most
/// 10,000,000 turns.
#[derive(Drop)]
pub(crate) struct Watching {
    pub(crate) awaited: u64,
    pub(crate) passes: AtomicU64,
    pub(crate) squares: AtomicU64,
    pub(crate) numbers: AtomicU64,
    pub(crate) met: AtomicU64,
}

// A bit for each of this many numbers, up to 64.
fn bits_below(count: usize) -> u64 {
    if count < 64 {
        !(u64::MAX << count)
    } else {
        u64::MAX
    }
}

/// A gate that no worker passed yet, for this many workers. The first 64 await one another.
pub(crate) fn gate_for(workers: usize) -> Watching {
    Watching {
        awaited: bits_below(workers),
        passes: AtomicU64::new(0),
        squares: AtomicU64::new(0),
        numbers: AtomicU64::new(0),
        met: AtomicU64::new(0),
    }
}

// Workers can meet only while all run. Each turn lets other threads run, since another worker may
// have no processor yet. Without that, 1 run in 600 failed: all its turns were over before the
// other worker came.
impl Gate for Watching {
    fn pass(&self, worker: usize) {
        self.passes.fetch_add(1, Ordering::SeqCst);
        let square = (worker as u64).wrapping_mul(worker as u64);
        self.squares.fetch_add(square, Ordering::SeqCst);
        if worker >= 64 {
            return;
        }
        self.numbers.fetch_or(1 << worker, Ordering::SeqCst);
        'turns: for _ in 0..10_000_000 {
            if self.numbers.load(Ordering::SeqCst) & self.awaited == self.awaited {
                self.met.fetch_add(1, Ordering::SeqCst);
                return;
            }
            yield_now();
        }
    }
}

/// Two `Arc`s of one gate.
pub(crate) type Seen = (Arc<Watching, Global>, Arc<Watching, Global>);

/// A gate for this many workers, and another `Arc` of it, by which to see who passed.
pub(crate) fn gate_of(alloc: Global, workers: usize) -> Result<Seen, FilterError> {
    let gate = Arc::new(alloc, gate_for(workers))?;
    let seen = Arc::try_clone(&gate)?;
    Ok((gate, seen))
}

// Whether this many workers passed a gate once each, by their numbers, and the first 64 while all
// of these ran.
fn saw_all(seen: &Watching, count: usize) -> bool {
    let mut squares = 0u64;
    for number in 0..count as u64 {
        squares = squares.wrapping_add(number.wrapping_mul(number));
    }
    (seen.passes.load(Ordering::SeqCst) == count as u64)
        & (seen.squares.load(Ordering::SeqCst) == squares)
        & (seen.numbers.load(Ordering::SeqCst) == bits_below(count))
        & (seen.met.load(Ordering::SeqCst) == count.min(64) as u64)
}

// A filter that is filled by a worker for each part, and whether each worker passed the gate once,
// by its number, and the first 64 while all of these ran.
fn filled<R: Threads>(
    rt: &R,
    alloc: Global,
    shape: Shape,
    parts: Vec<Vec<u64>>,
) -> Result<(BloomFilter, bool), FilterError> {
    let count = parts.len();
    let (gate, seen) = gate_of(alloc, count)?;
    match fill(rt, alloc, gate, shape, parts) {
        Ok(filter) => Ok((filter, saw_all(&seen, count))),
        Err(refusal) => Err(refusal),
    }
}

/// Vectors of these parts.
pub(crate) fn parts_of(alloc: Global, cut: &[&[u64]]) -> Result<Vec<Vec<u64>>, FilterError> {
    let mut parts = Vec::new(alloc);
    for part in cut {
        parts.push(part.to_vec(alloc)?)?;
    }
    Ok(parts)
}

/// Hash 1, then hashes 0 and 1, then none.
pub(crate) const THREE: &'static [&'static [u64]] = &[&[1], &[0, 1], &[]];

// The bits and hashes of a shape, parts of hashes, and the shape and the word of the filter that
// they make: no part at all, and the same hashes, split in further ways. A shape is refused as by a
// builder.
type Filling = (
    usize,
    u32,
    &'static [&'static [u64]],
    Result<(usize, u32, u64), FilterError>,
);

const FILLINGS: &'static [Filling] = &[
    (64, 3, THREE, Ok((64, 3, 4296015873))),
    (64, 3, &[], Ok((64, 3, 0))),
    (64, 3, &[&[1], &[0]], Ok((64, 3, 4296015873))),
    (64, 3, &[&[], &[0, 1]], Ok((64, 3, 4296015873))),
    (1, 0, &[], Ok((64, 1, 0))),
    (0, 1, &[], Err(FilterError::ZeroBits)),
    (usize::MAX, 1, &[], Err(FilterError::TooManyWords)),
];

// Whether a filter has this shape and this word.
fn is_of(filter: &BloomFilter, said: Result<(usize, u32, u64), FilterError>) -> bool {
    match said {
        Ok((bits, hashes, word)) => {
            let has_shape = (filter.num_bits(), filter.num_hashes()) == (bits, hashes);
            has_shape & (filter.as_slice() == [word].as_slice())
        }
        Err(_refusal) => false,
    }
}

// The filter of a row, and whether each worker passed the gate.
fn filled_by<R: Threads>(
    rt: &R,
    alloc: Global,
    row: &Filling,
) -> Result<(BloomFilter, bool), FilterError> {
    let (bits, hashes, cut, _said) = *row;
    let shape = Shape::new(bits, hashes)?;
    filled(rt, alloc, shape, parts_of(alloc, cut)?)
}

// Whether parts fill a filter, or are refused, as their row says.
fn is_filled<R: Threads>(rt: &R, alloc: Global, row: &Filling) -> bool {
    let (_bits, _hashes, _cut, said) = *row;
    match filled_by(rt, alloc, row) {
        Ok((filter, is_seen)) => is_seen & is_of(&filter, said),
        Err(refusal) => said.err() == Some(refusal),
    }
}

#[test]
fn parts_fill_a_filter_however_they_are_cut(rt: HostRuntime) {
    for (i, row) in FILLINGS.iter().enumerate() {
        assert!(rt; tell_row(&rt, i, is_filled(&rt, rt.alloc(), row)));
    }
}

/// How many parts there are, how many hashes each has, and the bits of the filter.
pub(crate) type Many = (u64, u64, usize);

const MANY: &'static [Many] = &[(200, 500, 1 << 20), (1000, 5, 1 << 14)];

/// The parts.
pub(crate) fn many_parts(alloc: Global, row: &Many) -> Result<Vec<Vec<u64>>, FilterError> {
    let (count, each, _bits) = *row;
    let mut parts = Vec::new(alloc);
    for part in 0..count {
        let first = part.saturating_mul(each);
        parts.push(spread_from(alloc, first, first.saturating_add(each))?)?;
    }
    Ok(parts)
}

// Whether a filter is the one that a single thread makes of them.
fn is_made_alone(alloc: Global, row: &Many, filled: &BloomFilter) -> Result<bool, FilterError> {
    let (count, each, bits) = *row;
    let mut filter = BloomFilter::with_num_bits(alloc, bits)?.hashes(7);
    for i in 0..count.saturating_mul(each) {
        filter.insert_hash(spread(i));
    }
    Ok(filter == *filled)
}

// Whether so many workers make that filter, and each passes the gate.
fn is_made_alike<R: Threads>(rt: &R, alloc: Global, row: &Many) -> Result<bool, FilterError> {
    let shape = Shape::new(row.2, 7)?;
    let (filter, is_seen) = filled(rt, alloc, shape, many_parts(alloc, row)?)?;
    Ok(is_seen & is_made_alone(alloc, row, &filter)?)
}

#[test]
fn many_workers_make_the_filter_of_one_thread(rt: HostRuntime) {
    for (i, row) in MANY.iter().enumerate() {
        let is_right = matches!(is_made_alike(&rt, rt.alloc(), row), Ok(true));
        assert!(rt; tell_row(&rt, i, is_right));
    }
}

// A gate at which each worker lets other threads run. There dev/starve looks at the words of the
// filters, by their size.
#[derive(Drop)]
struct Yielding;

impl Gate for Yielding {
    fn pass(&self, _worker: usize) {
        yield_now();
    }
}

// Whether one worker sets the positions of a thousand hashes among 4,099 words.
fn is_set_behind<R: Threads>(rt: &R, alloc: Global) -> Result<bool, FilterError> {
    let gate = Arc::new(alloc, Yielding)?;
    let row = (1, 1000, 64 * 4099);
    let shape = Shape::new(row.2, 7)?;
    match fill(rt, alloc, gate, shape, many_parts(alloc, &row)?) {
        Ok(filter) => is_made_alone(alloc, &row, &filter),
        Err(refusal) => Err(refusal),
    }
}

#[test]
fn a_worker_sets_its_positions_behind_the_gate(rt: HostRuntime) {
    assert!(rt; matches!(is_set_behind(&rt, rt.alloc()), Ok(true)));
}
