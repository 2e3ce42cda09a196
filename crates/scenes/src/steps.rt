//! Calls as word steps, at steps and replies that were worked out by hand.

mod courses;

use crate::row_reports::tell_row;
use fastbloom::{Call, Machine, MemoryStore, Step, drive};
use std::alloc::{AllocError, Global};

// Each step that an insert of hash 1 asks for in one word with three hashes, what it found, and the
// reply by then. Hash 1 has the positions 0, 20 and 32 of 64 bits.
const ASKED: &'static [(Option<Step>, u64, Option<bool>)] = &[
    (Some(Step::Or(0, 1)), 0, None),
    (Some(Step::Or(0, 1048576)), 1, None),
    (Some(Step::Or(0, 4294967296)), 1048577, None),
    (None, 0, Some(false)),
];

#[test]
fn a_machine_asks_for_one_step_after_the_other(rt: HostRuntime) {
    let mut machine = Machine::new(Call::Insert(1), 1, 3);
    for (i, (step, found, answer)) in ASKED.iter().enumerate() {
        let asked = machine.ask();
        assert!(rt; tell_row(&rt, i, (asked == *step) & (machine.answer() == *answer)));
        if asked.is_some() {
            machine.reply(*found);
        }
    }
}

// The word before, the other filter's word, the call, the number of hashes, the reply, and the word
// after.
type Driven = (u64, u64, Call, u32, Option<bool>, u64);

// A look-up of hash 1 finds position 0 set and position 20 clear.
const DRIVEN: &'static [Driven] = &[
    (1, 0, Call::Contains(1), 3, Some(false), 1),
    (1048577, 0, Call::Contains(1), 2, Some(true), 1048577),
    (0, 0, Call::Contains(1), 3, Some(false), 0),
    (0, 6, Call::Insert(1), 2, Some(false), 1048577),
    (1048577, 0, Call::Insert(1), 3, Some(false), 4296015873),
    (7, 0, Call::Clear, 3, None, 0),
    (5, 6, Call::Take, 1, None, 0),
    (5, 6, Call::Union, 1, None, 7),
    (5, 6, Call::Intersect, 1, None, 4),
];

// Whether a call over these words in memory replies and leaves what its row says.
fn drives(store: &mut MemoryStore, row: &Driven) -> bool {
    let (_word, _other, call, num_hashes, answer, after) = *row;
    let found = drive(store, call, num_hashes.max(1));
    (found == answer) & (store.words() == [after].as_slice())
}

// The same, with the words of a filter and of the other.
fn is_driven(alloc: Global, row: &Driven) -> Result<bool, AllocError> {
    let word = vec![in alloc; row.0]?;
    let other = vec![in alloc; row.1]?;
    Ok(drives(&mut MemoryStore::new(word, other), row))
}

#[test]
fn a_call_is_driven_over_memory(rt: HostRuntime) {
    for (i, row) in DRIVEN.iter().enumerate() {
        assert!(rt; tell_row(&rt, i, matches!(is_driven(rt.alloc(), row), Ok(true))));
    }
}
