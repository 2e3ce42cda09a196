//! Words that threads share and that write down each operation, with its word, its operand and what
//! it found.
ghost use Rattle.std.specs.Prelude.{◌≡◌};

use bloom_parts::bit_vector::{AtomicBitVec, LentWords, Turn, TurnWords};
use bloom_steps::Step;
use std::alloc::{AllocError, Global};
use std::cell::Cell;
use std::marker::Model;

/// An operation that was made on words.
#[derive(Clone, Copy)]
pub(crate) struct Operation {
    /// Whether it was made in a turn. A load ahead of steps is made in none.
    pub(crate) in_turn: bool,
    pub(crate) step: Step,
    pub(crate) found: u64,
}

/// Operations, in the order in which they were made.
#[derive(Drop)]
pub(crate) struct Log {
    operations: Vec<Cell<Operation>>,
    count: Cell<usize>,
}

// What stands where no operation was written down yet.
const NOTHING: Operation = Operation {
    in_turn: false,
    step: Step::Zero(0),
    found: 0,
};

impl Log {
    /// An empty log with room for this many operations.
    pub(crate) fn new(alloc: Global, room: usize) -> Result<Self, AllocError> {
        let mut operations = Vec::new(alloc);
        for _ in 0..room {
            operations.push(Cell::new(NOTHING))?;
        }
        Ok(Log {
            operations,
            count: Cell::new(0),
        })
    }

    /// Forgets all.
    pub(crate) fn begin(&self) {
        self.count.set(0);
    }

    /// How many operations were made.
    pub(crate) fn count(&self) -> usize {
        self.count.get()
    }

    /// An operation, if so many were made and there was room.
    pub(crate) fn get(&self, at: usize) -> Option<Operation> {
        if at >= self.count.get() {
            return None;
        }
        Some(self.operations.get(at)?.get())
    }

    // Writes an operation down.
    fn note(&self, in_turn: bool, step: Step, found: u64) {
        let at = self.count.get();
        if let Some(place) = self.operations.get(at) {
            place.set(Operation {
                in_turn,
                step,
                found,
            });
        }
        self.count.set(at.saturating_add(1));
    }
}

/// Words whose operations are written down. They are the filter's own, or those of the other one.
#[derive(Drop)]
pub(crate) struct RecordedWords<'a> {
    words: LentWords<'a>,
    log: &'a Log,
    are_other: bool,
}

impl<'a> RecordedWords<'a> {
    /// The words of a vector, whose operations go into a log.
    pub(crate) fn new(vector: &'a AtomicBitVec, log: &'a Log, are_other: bool) -> Self {
        RecordedWords {
            words: vector.lent(),
            log,
            are_other,
        }
    }
}

impl<'a> Model for RecordedWords<'a> {
    ghost use Rattle.bloom_parts.specs.Made.{SharedWords};

    ghost Value = { SharedWords };

    ghost view = { λ r. r.words };
}

impl<'a> TurnWords for RecordedWords<'a> {
    ghost vector = { λ words. words };

    fn len(&self) -> usize {
        self.words.len()
    }

    fn load(&self, word: usize) -> u64 {
        let found = self.words.load(word);
        self.log.note(false, Step::Load(word), found);
        found
    }

    fn load_in_turn(&self, turn: &mut Turn, word: usize) -> u64 {
        let found = self.words.load_in_turn(turn, word);
        let step = if self.are_other {
            Step::Other(word)
        } else {
            Step::Load(word)
        };
        self.log.note(true, step, found);
        found
    }

    fn fetch_or(&self, turn: &mut Turn, word: usize, mask: u64) -> u64 {
        let found = self.words.fetch_or(turn, word, mask);
        self.log.note(true, Step::Or(word, mask), found);
        found
    }

    fn fetch_and(&self, turn: &mut Turn, word: usize, mask: u64) -> u64 {
        let found = self.words.fetch_and(turn, word, mask);
        self.log.note(true, Step::And(word, mask), found);
        found
    }

    fn store_zero(&self, turn: &mut Turn, word: usize) {
        self.words.store_zero(turn, word);
        self.log.note(true, Step::Zero(word), 0);
    }

    fn swap_zero(&self, turn: &mut Turn, word: usize) -> u64 {
        let found = self.words.swap_zero(turn, word);
        self.log.note(true, Step::Take(word), found);
        found
    }
}
