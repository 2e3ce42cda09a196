//! Seated filters at values from outside, by one thread. In a seated filter a bit that was set
//! stays set, and each thread calls it with a pass of its own.
ghost use Rattle.std.specs.Prelude.{◌≡◌};

mod threads;

use crate::row_reports::tell_named;
use fastbloom::{FilterError, Pass, SeatedBloomFilter};
use std::alloc::Global;

// A call by a pass.
enum Call {
    Insert(u64),
    Contains(u64),
}

// The words and hashes of a filter, how many passes are asked for, what calls by the first pass
// return, then by the second, if there is one, then by the second once they met, and the words to
// which the last of them closes the filter.
struct Seating {
    name: &'static str,
    words: &'static [u64],
    num_hashes: u32,
    passes: usize,
    first: &'static [(Call, bool)],
    second: &'static [(Call, bool)],
    met: &'static [(Call, bool)],
    closed: &'static [u64],
}

// Among 64 bits hash 1 has the positions 0 and 20. Among 192 hash 2^63 has the position 96.
const SEATINGS: &'static [Seating] = &[
    Seating {
        name: "what a pass inserted it finds, and another by an insert",
        words: &[0],
        num_hashes: 2,
        passes: 2,
        first: &[(Call::Insert(1), false), (Call::Contains(1), true)],
        second: &[(Call::Insert(1), true)],
        met: &[],
        closed: &[1048577],
    },
    Seating {
        name: "a pass finds what another inserted",
        words: &[0],
        num_hashes: 2,
        passes: 2,
        first: &[(Call::Insert(1), false)],
        second: &[(Call::Contains(1), true)],
        met: &[(Call::Contains(1), true)],
        closed: &[1048577],
    },
    Seating {
        name: "words that were given are there, and a hash is new once",
        words: &[1],
        num_hashes: 2,
        passes: 1,
        first: &[
            (Call::Contains(0), true),
            (Call::Contains(1), false),
            (Call::Insert(1), false),
            (Call::Contains(1), true),
        ],
        second: &[],
        met: &[],
        closed: &[1048577],
    },
    Seating {
        name: "words that were given are left",
        words: &[5, 0, u64::MAX],
        num_hashes: 3,
        passes: 1,
        first: &[],
        second: &[],
        met: &[],
        closed: &[5, 0, u64::MAX],
    },
    Seating {
        name: "one bit is set and no other",
        words: &[0, 0, 0],
        num_hashes: 1,
        passes: 1,
        first: &[(Call::Insert(1 << 63), false)],
        second: &[],
        met: &[],
        closed: &[0, 1 << 32, 0],
    },
    Seating {
        name: "no passes count as one",
        words: &[0],
        num_hashes: 2,
        passes: 0,
        first: &[],
        second: &[],
        met: &[],
        closed: &[0],
    },
    Seating {
        name: "no hashes and no passes count as one",
        words: &[0],
        num_hashes: 0,
        passes: 0,
        first: &[(Call::Insert(1), false)],
        second: &[],
        met: &[],
        closed: &[1],
    },
];

// Whether these calls by a pass return this.
fn answers(filter: &SeatedBloomFilter, pass: &mut Pass, calls: &[(Call, bool)]) -> bool
    requires { pass.old.filter ≡ filter.now.table }
    ensures { pass.new.filter ≡ pass.old.filter }
{
    let mut is_right = true;
    'calls: for (call, answer) in calls {
        let found = match *call {
            Call::Insert(hash) => filter.insert_hash_as(pass, hash),
            Call::Contains(hash) => filter.contains_hash_as(pass, hash),
        };
        is_right &= found == *answer;
    }
    is_right
}

// Whether a filter was closed to these words.
fn are_words(closed: Result<Vec<u64>, FilterError>, words: &[u64]) -> bool {
    match closed {
        Ok(closed) => closed.as_slice() == words,
        Err(_refusal) => false,
    }
}

// Whether calls by two passes return what the row says, and those by the second once they met.
fn answer_both(
    filter: &SeatedBloomFilter,
    first: &mut Pass,
    second: &mut Pass,
    row: &Seating,
) -> bool
    requires first { first.old.filter ≡ filter.now.table }
    requires second { second.old.filter ≡ filter.now.table }
    ensures { second.new.filter ≡ second.old.filter }
{
    let by_first = answers(filter, first, row.first);
    let by_second = answers(filter, second, row.second);
    filter.meet(first, second);
    by_first & by_second & answers(filter, second, row.met)
}

// Whether the calls by the passes of a filter return, and it is closed, as its row says.
fn is_kept(alloc: Global, row: &Seating) -> Result<bool, FilterError> {
    let words = row.words.to_vec(alloc)?;
    let (filter, mut passes) = SeatedBloomFilter::new(alloc, words, row.num_hashes, row.passes)?;
    let are_all = passes.len() == row.passes.max(1);
    let Some(mut last) = passes.pop() else {
        unreachable!()
    };
    let is_right = match passes.pop() {
        Some(mut first) => answer_both(&filter, &mut first, &mut last, row),
        None => answers(&filter, &mut last, row.first),
    };
    Ok(are_all & is_right & are_words(filter.close(alloc, last), row.closed))
}

// Whether a filter answers and ends as its row says. If not, its name is reported.
fn is_right(rt: &HostRuntime, row: &Seating) -> bool {
    tell_named(rt, row.name, matches!(is_kept(rt.alloc(), row), Ok(true)))
}

// Why no filter is made of no words.
fn refusal_of_none(alloc: Global) -> Option<FilterError> {
    SeatedBloomFilter::new(alloc, Vec::new(alloc), 2, 1).err()
}

#[test]
fn passes_find_and_close_gives_what_was_given_or_inserted(rt: HostRuntime) {
    for row in SEATINGS {
        assert!(rt; is_right(&rt, row));
    }
    assert!(rt; refusal_of_none(rt.alloc()) == Some(FilterError::EmptyWords));
}
