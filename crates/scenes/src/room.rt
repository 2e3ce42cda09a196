//! Calls that take memory and are no lines of a scripted test: how each ends where a request for
//! memory is refused, and what it leaves. Each test prints its calls and how they ended, which
//! dev/starve compares.

mod calls;
mod parts;
mod seated;
mod without_memory;

use crate::fills::{THREE, Watching, gate_of, parts_of};
use crate::rotating::is_made;
use crate::row_reports::{NO_ROOM, WRONG, say, word_of};
use bloom_parts::bit_vector::{AtomicBitVec, BitVec};
use fastbloom::{
    AtomicBlockedBloomFilter, BlockedBloomFilter, Call, Event, FilterError, GrowingError,
    GrowingFilter, Rate, Shape, fill, run,
};
use seated::closed;
use std::alloc::Global;
use std::sync::Arc;
use std::thread::Threads;

// How a call ended that has the builders' refusals. No lack of memory brings the others.
fn word_of_growing(ended: Result<bool, GrowingError>) -> &'static str {
    match ended {
        Ok(is_right) => word_of(&Ok(is_right)),
        Err(GrowingError::Filter(refusal)) => word_of(&Err(refusal)),
        Err(GrowingError::RateOverflow) => WRONG,
        Err(GrowingError::TooManyItems) => WRONG,
    }
}

// Whether a filter for one item takes two hashes, the second into its second filter.
fn takes_two(alloc: Global, filter: &mut GrowingFilter) -> Result<bool, GrowingError> {
    let first = filter.insert_hash(alloc, 1)?;
    let second = filter.insert_hash(alloc, 2)?;
    let are_found = filter.contains_hash(1) & filter.contains_hash(2);
    Ok(!first & !second & are_found & (filter.older().len() == 1))
}

// The same, of a filter that is made.
fn grows(alloc: Global) -> Result<bool, GrowingError> {
    let rate = Rate::new(4, 1)?;
    match GrowingFilter::new(alloc, rate, 1) {
        Ok(mut filter) => takes_two(alloc, &mut filter),
        Err(refusal) => Err(refusal),
    }
}

#[test]
fn a_filter_that_grows_is_whole_or_refused(rt: HostRuntime) {
    assert!(rt; say(&rt, "GrowingFilter", word_of_growing(grows(rt.alloc()))));
}

#[test]
fn a_filter_that_rotates_is_whole_or_refused(rt: HostRuntime) {
    assert!(rt;
        say(
            &rt,
            "RotatingFilter::new",
            word_of_growing(is_made(rt.alloc()))
        )
    );
}

// A line that threads share, with hash 1.
fn shared_line(alloc: Global) -> Result<AtomicBlockedBloomFilter, FilterError> {
    let mut plain = BlockedBloomFilter::with_num_bits(alloc, 512)?.hashes(2);
    plain.insert_hash(1);
    AtomicBlockedBloomFilter::from_plain(alloc, plain)
}

// Whether a take gives the words of hash 1 and leaves none, or leaves them all.
fn taken(alloc: Global, filter: &AtomicBlockedBloomFilter) -> Result<bool, FilterError> {
    match filter.take_words(alloc) {
        Ok(words) => {
            let line = [8192, 0, 17179869184, 0, 0, 0, 0, 0];
            Ok((words.as_slice() == line.as_slice()) & (filter.count_ones() == 0))
        }
        Err(refusal) => {
            if filter.count_ones() != 2 {
                return Ok(false);
            }
            Err(refusal)
        }
    }
}

#[test]
fn a_take_of_lines_is_whole_or_refused(rt: HostRuntime) {
    let ended = match shared_line(rt.alloc()) {
        Ok(filter) => word_of(&taken(rt.alloc(), &filter)),
        Err(_refusal) => NO_ROOM,
    };
    assert!(rt; say(&rt, "blocked take_words", ended));
}

// Whether plain and shared words are those that were given.
fn are_words(alloc: Global) -> Result<bool, FilterError> {
    let words = [7u64, 8, 9];
    let plain = BitVec::from_words(alloc, words.iter().copied())?;
    let is_plain = plain.as_slice() == words.as_slice();
    let shared = AtomicBitVec::from_words(alloc, words.iter().copied())?;
    Ok(is_plain & shared.iter().eq(words.iter().copied()))
}

// Two inserts of one hash, whose positions are 0 and 20.
const INSERTS: &'static [Event] = &[
    Event::Begin {
        party: 0,
        call: Call::Insert(1),
    },
    Event::Begin {
        party: 1,
        call: Call::Insert(1),
    },
    Event::Go { party: 0, given: 0 },
    Event::Go { party: 1, given: 0 },
    Event::Go { party: 1, given: 0 },
    Event::Go { party: 0, given: 0 },
];

// Whether a run of them is whole.
fn is_run(alloc: Global) -> Result<bool, FilterError> {
    match run(alloc, &[0], 2, 2, INSERTS) {
        Ok(trace) => Ok((trace.words() == [1048577].as_slice()) & (trace.records().len() == 6)),
        Err(refusal) => Err(refusal),
    }
}

#[test]
fn words_and_a_run_are_whole_or_refused(rt: HostRuntime) {
    assert!(rt; say(&rt, "from_words", word_of(&are_words(rt.alloc()))));
    assert!(rt; say(&rt, "run", word_of(&is_run(rt.alloc()))));
}

#[test]
fn a_seated_filter_is_whole_or_refused(rt: HostRuntime) {
    let is_said = match closed(rt.alloc()) {
        Ok(ended) => say(&rt, "seated new", "whole") & say(&rt, "seated close", ended),
        Err(refusal) => say(&rt, "seated new", word_of(&Err(refusal))),
    };
    assert!(rt; is_said);
}

fn filled<R: Threads>(
    rt: &R,
    alloc: Global,
    gate: Arc<Watching, Global>,
    parts: Vec<Vec<u64>>,
) -> Result<bool, FilterError> {
    match fill(rt, alloc, gate, Shape::new(64, 3)?, parts) {
        Ok(filter) => Ok(
            (filter.as_slice() == [4296015873].as_slice()) & (filter.num_hashes() == 3),
        ),
        Err(refusal) => Err(refusal),
    }
}

// A gate, seen twice, and the parts.
type Ready = (Arc<Watching, Global>, Arc<Watching, Global>, Vec<Vec<u64>>);

fn ready(alloc: Global) -> Result<Ready, FilterError> {
    let parts = parts_of(alloc, THREE)?;
    let (gate, seen) = gate_of(alloc, 1)?;
    Ok((gate, seen, parts))
}

// A worker has the gate until it ends. So all have ended, and none comes later, where no one else
// has it.
#[test]
fn a_filled_filter_is_whole_or_refused_once_all_workers_ended(rt: HostRuntime) {
    let is_said = match ready(rt.alloc()) {
        Ok((gate, seen, parts)) => {
            let ended = filled(&rt, rt.alloc(), gate, parts);
            (Arc::strong_count(&seen) == 1) & say(&rt, "fill", word_of(&ended))
        }
        Err(_refusal) => say(&rt, "fill", NO_ROOM),
    };
    assert!(rt; is_said);
}
