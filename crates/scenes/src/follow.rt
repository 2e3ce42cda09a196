//! Follows scripted tests: after each line both filters have the same words, hashes and hasher.
use crate::row_reports::{tell_named, tell_row};
use crate::scripted::{Line, Make, Op, ScriptedTest, Size};
use crate::scripted_filters::{Pair, Refused, are_alike, have_words, pair_of, plain_of, shared_of};
use crate::{answers, memory, rows};
use fastbloom::FilterError;
use std::alloc::Global;

// What a call that takes memory returned, where the line says so too.
fn said_so(said: bool, held: Result<bool, Refused>) -> Result<bool, Refused> {
    match held {
        Ok(held) => Ok(held & said),
        Err(refused) => Err(refused),
    }
}

// Whether both filters return from a line what it says.
fn holds(alloc: Global, pair: &mut Pair, line: &Line) -> Result<bool, Refused> {
    let (op, said) = line;
    match op {
        Op::Insert(hash) => Ok(answers::insert_hash(pair, *hash, *said)),
        Op::Contains(hash) => Ok(answers::contains_hash(pair, *hash, *said)),
        Op::InsertItem(item) => Ok(answers::insert_item(pair, item, *said)),
        Op::ContainsItem(item) => Ok(answers::contains_item(pair, item, *said)),
        Op::InsertAll(numbers) => Ok(*said & answers::insert_all(pair, numbers)),
        Op::Extend(first, last) => Ok(*said & answers::extend(pair, *first, *last)),
        Op::Finds(first, last) => Ok(*said & answers::finds(pair, *first, *last)),
        Op::Clear => Ok(*said & answers::clear(pair)),
        Op::UniteWithItself => Ok(*said & answers::unite_with_itself(pair)),
        Op::Words(words) => Ok(*said & have_words(pair, words)),
        Op::Ones(ones) => Ok(*said & answers::has_ones(pair, *ones)),
        Op::Estimates => Ok(*said & answers::tell_the_same(pair)),
        Op::Expects(items, low, high) => Ok(*said & answers::expects(pair, *items, *low, *high)),
        Op::HasData(text) => Ok(*said & memory::has_data(alloc, pair, text)),
        Op::InsertBetween(hash, first, second) => {
            Ok(*said & answers::insert_between(pair, *hash, *first, *second))
        }
        Op::Meet(words, unites) => memory::meet(alloc, pair, words, *unites, *said),
        Op::Show => Ok(memory::show(alloc, pair) == *said),
        Op::Clone => said_so(*said, memory::copy(alloc, pair)),
        Op::Cross(by_text) => said_so(*said, memory::cross(alloc, pair, *by_text)),
        Op::Take => said_so(*said, memory::take(alloc, pair)),
        Op::Replay(replies) => said_so(*said, memory::replay(alloc, pair, replies)),
        Op::Build(make, bits, hashes) => {
            said_so(*said, memory::build(alloc, make, *bits, *hashes))
        }
        Op::Compare(words, hashes, same_shape) => {
            memory::compare(alloc, pair, words, *hashes, *same_shape, *said)
        }
    }
}

/// The first line from which a filter doesn't return what it says, or after which the filters
/// differ.
pub(crate) fn first_broken(
    alloc: Global,
    pair: &mut Pair,
    lines: &[Line],
) -> Result<Option<usize>, Refused> {
    'lines: for (i, line) in lines.iter().enumerate() {
        let held = holds(alloc, pair, line);
        if !are_alike(pair) {
            return Ok(Some(i));
        }
        if !held? {
            return Ok(Some(i));
        }
    }
    Ok(None)
}

/// The first line from which filters made so don't return what it says, or after which they differ.
pub(crate) fn follow(alloc: Global, make: &Make, lines: &[Line]) -> Result<Option<usize>, Refused> {
    match pair_of(alloc, make) {
        Ok(mut pair) => first_broken(alloc, &mut pair, lines),
        Err(refused) => Err(refused),
    }
}

// Whether each line of a scripted test returns what it says. If not, test and line are reported.
fn holds_true(rt: &HostRuntime, test: &ScriptedTest) -> bool {
    match follow(rt.alloc(), &test.make, test.lines) {
        Ok(None) => true,
        Ok(Some(line)) => tell_named(rt, test.name, false) | tell_row(rt, line, false),
        Err(refused) => tell_named(rt, test.name, false) | tell_named(rt, refused.call, false),
    }
}

// Whether all scripted tests of a table return what they say.
fn hold_true(rt: &HostRuntime, tests: &[ScriptedTest]) -> bool {
    let mut all = true;
    for test in tests {
        all &= holds_true(rt, test);
    }
    all
}

#[test]
fn both_filters_answer_each_scripted_test_as_said(rt: HostRuntime) {
    for tests in rows::all() {
        assert!(rt; hold_true(&rt, tests));
    }
}

// The words of filters of 64 to 65536 bits.
const ZEROS: &'static [&'static [u64]] = &[&[0; 1], &[0; 16], &[0; 64], &[0; 1024]];

// Both kinds of filter are read from one another's data, and go on alike.
#[test]
fn both_kinds_are_read_from_one_anothers_data(rt: HostRuntime) {
    for (i, zeros) in ZEROS.iter().enumerate() {
        for seed in 4..19u64 {
            let make = Make::Words(*zeros, seed as u128, Size::Expected(100));
            let wrong = follow(rt.alloc(), &make, rows::CROSSED);
            assert!(rt; tell_row(&rt, i, matches!(wrong, Ok(None))));
        }
    }
}

#[test]
fn builders_give_as_many_hashes_as_asked(rt: HostRuntime) {
    for hashes in 1..1000 {
        let built = memory::build(rt.alloc(), &Make::Bits(1, Size::Hashes(hashes)), 64, hashes);
        assert!(rt; tell_row(&rt, hashes as usize, matches!(built, Ok(true))));
    }
}

// Whether a filter is refused for this reason.
fn is_refused<T: Drop>(outcome: Result<T, Refused>, reason: FilterError) -> bool {
    match outcome {
        Ok(_filter) => false,
        Err(refused) => refused.reason == reason,
    }
}

#[test]
fn both_filters_are_refused_in_order(rt: HostRuntime) {
    for (i, (make, reason)) in rows::REFUSALS.iter().enumerate() {
        let is_shared = is_refused(shared_of(rt.alloc(), make), *reason);
        assert!(rt;
            tell_row(
                &rt,
                i,
                is_shared & is_refused(plain_of(rt.alloc(), make), *reason)
            )
        );
    }
}
